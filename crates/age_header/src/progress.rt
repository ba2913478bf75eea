//! The stanzas found so far in the lines after the version line.

ghost use Rattle.std.specs.Prelude.{◌≡◌, ◌≢◌, ◌↔◌, ◌<◌, ◌≤◌, []};
ghost use Rattle.std.specs.Prelude.{List, length, IfOk, IfSome, IfNone, IsTrue};
ghost use Rattle.age_header.specs.Header.{StanzaParts};
ghost use Rattle.age_header.specs.Steps.{State, Step, between, within};
ghost use Rattle.age_header.specs.Text.{IsPlain};

use crate::arguments::Arguments;
use crate::base64_no_pad;
use crate::header::Header;
use crate::size::LINE_SIZE;
use crate::stanza::Stanza;
use base64::engine::general_purpose::GeneralPurpose;
use std::alloc::{AllocError, Global};
use std::marker::Model;

/// The complete stanzas, and the open one, whose body is not complete, if there is one.
#[derive(Drop)]
pub(crate) struct Progress {
    stanzas: Vec<Stanza>,
    open: Option<Stanza>,
}

impl Model for Progress {
    ghost use Rattle.age_header.specs.Steps.{State};

    ghost Value = { State };

    ghost use Rattle.age_header.specs.Progress.{state_of};

    ghost view = { state_of };
}

impl Progress {
    /// The progress after the version line.
    pub(crate) fn new(alloc: Global) -> Progress
        ensures { result ≡ between [] }
    {
        Progress {
            stanzas: Vec::new(alloc),
            open: None,
        }
    }

    /// Whether an end line may follow.
    pub(crate) fn is_whole(&self) -> bool
        ensures { IsTrue result ↔ ((ss : List StanzaParts) × (ss ≢ []) × (self.now ≡ between ss)) }
    {
        self.open.is_none() && !self.stanzas.is_empty()
    }

    /// The header of these stanzas.
    pub(crate) fn finish(self, mac: [u8; 32]) -> Header
        requires { (ss : List StanzaParts) × (ss ≢ []) × (self ≡ between ss) }
        ensures stanzas { self ≡ between result.stanzas }
        ensures mac { result.mac ≡ mac }
    {
        let Progress { stanzas, .. } = self;
        let Some(header) = Header::new(stanzas, mac) else {
            unreachable!();
        };
        header
    }

    /// The progress after one more line of a stanza, without its LF; `None` for any other line.
    pub(crate) fn step(
        self,
        alloc: Global,
        engine: &GeneralPurpose,
        text: &[u8],
    ) -> Result<Option<Progress>, AllocError>
        requires { IsPlain engine.now }
        ensures some { IfOk result (λ o. IfSome o (λ next. Step self text.now next)) }
        ensures none { IfOk result (λ o. IfNone o ((s : State) → Step self text.now s → ⊥)) }
    {
        let Progress { stanzas, open } = self;
        match open {
            None => match Arguments::parse(alloc, text)? {
                None => Ok(None),
                Some(args) => Ok(Some(Progress {
                    stanzas,
                    open: Some(Stanza::open(alloc, args)),
                })),
            },
            Some(stanza) => body_line(alloc, engine, stanzas, stanza, text),
        }
    }
}

/// The progress after one more line of an open stanza's body; `None` for any other line. After a
/// full line the stanza stays open; after a shorter one it is complete.
fn body_line(
    alloc: Global,
    engine: &GeneralPurpose,
    mut stanzas: Vec<Stanza>,
    mut stanza: Stanza,
    text: &[u8],
) -> Result<Option<Progress>, AllocError>
    requires { IsPlain engine.now }
    ensures some { IfOk result (λ o. IfSome o (λ next.
        Step (within stanzas.items stanza.args stanza.body) text.now next)) }
    ensures none { IfOk result (λ o. IfNone o ((s : State)
        → Step (within stanzas.items stanza.args stanza.body) text.now s → ⊥)) }
{
    if text.len() > LINE_SIZE {
        return Ok(None);
    }
    let Some(more) = base64_no_pad::decode(alloc, engine, text)? else {
        return Ok(None);
    };
    stanza.extend(more.as_slice())?;
    if text.len() == LINE_SIZE {
        return Ok(Some(Progress {
            stanzas,
            open: Some(stanza),
        }));
    }
    stanzas.push(stanza)?;
    Ok(Some(Progress {
        stanzas,
        open: None,
    }))
}
