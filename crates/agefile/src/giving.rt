//! Copying a call's output to the caller's buffer.

ghost use Rattle.std.specs.Prelude.{None};
ghost use Rattle.agefile.specs.Giving.{Gives};
ghost use Rattle.agefile.specs.Report.{Returns};

use crate::code::{OK, TOO_SMALL};
use crate::report::Report;

/// Returns a code, and sets the whole report to 0.
pub(crate) fn give_up(code: u32, out: &mut [u8], report: &mut Report) -> u32
    ensures { Returns code None out.old out.new report.new result }
{
    // For the proof alone (docs/PROOFS.md, "How to read a clause"): the buffer is unchanged.
    let _ = out;
    *report = Report::default();
    code
}

/// Copies a text to the buffer if it fits. Otherwise reports the length alone.
pub(crate) fn give_whole(text: &[u8], out: &mut [u8], report: &mut Report) -> u32
    ensures { Gives text.now None out.old out.new report.new result }
{
    *report = Report::of_len(text.len() as u64);
    if text.len() > out.len() {
        return TOO_SMALL;
    }
    let (front, _) = out.split_at_mut(text.len());
    front.copy_from_slice(text);
    OK
}
