//! What a call reports in addition to its code.

ghost use Rattle.std.specs.Prelude.{◌≡◌, Some, None};
ghost use Rattle.agefile.specs.Codes.{fault_code};
ghost use Rattle.agefile.specs.Report.{report_of};

use crate::code::{fault_code, fault_detail, fault_place};
use age_file::Fault;

/// What a call reports in addition to its code. Each call sets all fields.
#[repr(C)]
#[derive(Clone, Copy, Default)]
pub struct Report {
    /// The number of bytes written to the start of the buffer, or needed if it is too small; or
    /// another length or an offset, if the comment of the call says so.
    pub len: u64,
    /// The line, from 1, or the chunk, from 0, of a fault; or, if the comment of the call says so,
    /// an offset, a number of stanzas, or what was saved of a chunk; else 0.
    pub place: u64,
    /// Which part of a malformed stanza is malformed; or as `agefile_salvage_next` says; else 0.
    pub detail: u64,
}

impl Report {
    /// The report of a call without a fault, of this many bytes.
    pub(crate) fn of_len(len: u64) -> Report
        ensures { result ≡ report_of len None }
    {
        Report {
            len,
            place: 0,
            detail: 0,
        }
    }
}

/// Reports a fault after this many bytes, and returns its code.
pub(crate) fn report_fault(len: u64, fault: Fault, report: &mut Report) -> u32
    ensures reported { report.new ≡ report_of len (Some fault) }
    ensures returned { result ≡ fault_code fault }
{
    *report = Report {
        len,
        place: fault_place(fault),
        detail: fault_detail(fault),
    };
    fault_code(fault)
}
