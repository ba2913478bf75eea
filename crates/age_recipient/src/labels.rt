//! Labels: which recipients may share a file.

ghost use Rattle.std.specs.Prelude.{◌≡◌, map, IfOk};
ghost use Rattle.age_recipient.specs.Labels.{IsSetOf, go_together, first_incompatible};

use std::alloc::{AllocError, Global};
use std::collections::BTreeSet;
use std::marker::Model;

/// A set of texts, in byte order.
#[derive(Drop)]
pub struct LabelSet {
    names: BTreeSet<String>,
}

impl Model for LabelSet {
    ghost use Rattle.std.specs.Prelude.{List, ℕ, map};
    ghost use Rattle.std.specs.String.{string_bytes};
    ghost use Rattle.age_header.specs.Device.{Bytes};

    ghost Value = { List Bytes };

    ghost view = { λ s. map string_bytes s.names.keys };
}

impl LabelSet {
    /// Makes the set of these texts, each once.
    ///
    /// # Errors
    /// If an allocation was refused.
    pub fn new(alloc: Global, texts: &[&str]) -> Result<LabelSet, AllocError>
        ensures { IfOk result (IsSetOf (map (λ text. text.now) texts.now)) }
    {
        let mut names = BTreeSet::new(alloc);
        for text in texts {
            let name = String::from_str(alloc, text)?;
            names.insert(name)?;
        }
        Ok(LabelSet { names })
    }
}

// A copy equals the original.
impl Clone for LabelSet {
    ghost is_clone = { λ set copy. copy ≡ set };

    fn clone(&self) -> Result<LabelSet, AllocError> {
        let names = self.names.clone()?;
        Ok(LabelSet { names })
    }
}

/// What a recipient requires of the other recipients of the same file. Recipients go together if
/// their labels are the same set of names.
#[derive(Drop)]
pub enum Labels {
    /// The recipient must be the only one of its file.
    Alone,
    /// The recipient goes together with those that have exactly these names (usually no names).
    Names(LabelSet),
}

impl Labels {
    /// Returns whether recipients with these labels may share a file: both are `Names` of the same
    /// set. Two recipients that are `Alone` do not go together, although their labels are equal.
    #[tactic(auto, using(crate::proofs::LabelLemmas::names_together))]
    pub fn go_together(&self, other: &Labels) -> bool
        ensures { result ≡ go_together self.now other.now }
    {
        match (self, other) {
            (Labels::Names(a), Labels::Names(b)) => a.names == b.names,
            _ => false,
        }
    }
}

/// Returns the least index, from 1 on, whose labels do not go together with those at index 0.
pub fn first_incompatible(labels: &[Labels]) -> Option<usize>
    ensures { result ≡ first_incompatible labels.now }
{
    let Some((first, others)) = labels.split_first() else {
        return None;
    };
    for (i, other) in others.iter().enumerate() {
        if !first.go_together(other) {
            return Some(i + 1);
        }
    }
    None
}

// A copy equals the original.
impl Clone for Labels {
    ghost is_clone = { λ labels copy. copy ≡ labels };

    fn clone(&self) -> Result<Labels, AllocError> {
        match self {
            Labels::Alone => Ok(Labels::Alone),
            Labels::Names(set) => Ok(Labels::Names(set.clone()?)),
        }
    }
}
