//! The command `inspect`: writes the contents of a header, as a table or as its own text.
ghost use Rattle.std.specs.Prelude.{◌≡◌, ◌⊎◌, map, Err, IfOk, OnOk};
ghost use Rattle.std.specs.String.{string_bytes};
ghost use Rattle.std.specs.Io.KnownBytes.{Appends};
ghost use Rattle.age_header.specs.Device.{Bytes, CountsIf, flow_by, move_by};
ghost use Rattle.age_file.specs.Device.{IsQuiet, is_write};
ghost use Rattle.age_job.specs.Job.{IsInRange};
ghost use Rattle.age_commands.specs.Inspect.{Inspecting, IsShown, IsTable, check_of, row, rows};
ghost use Rattle.age_commands.specs.Inspect.{spaced_arguments};
ghost use Rattle.age_commands.specs.Secret.{limits_of};

use crate::buffering::limits_of;
use age_file::{Fault, Header, Sink, Source, Stanza, header_text, mac_of, write_all};
use age_job::Job;
use std::alloc::{AllocError, Global};
use std::io::Write;
use std::{fmt, io};

/// The result of checking a header's MAC.
#[derive(Clone, Copy)]
enum Check {
    /// No file key was given.
    None,
    Good,
    Bad,
}

impl fmt::Display for Check {
    ghost use Rattle.std.specs.Prelude.{Some};
    ghost use Rattle.age_commands.specs.Inspect.{check_name};

    ghost output = { λ check. Some (check_name check) };

    fn fmt<W: fmt::Write>(&self, f: &mut fmt::Formatter<W>) -> fmt::Result {
        f.write_str(match self {
            Check::None => "none",
            Check::Good => "good",
            Check::Bad => "bad",
        })
    }
}

/// Writes the header at the start of the source. If there is none, nothing is written. A header
/// whose MAC is wrong is written before the fault is returned.
#[tactic(auto, using(crate::proofs::InspectLemmas::inspects))]
pub(crate) fn inspect<S: Source, W: Sink>(
    alloc: Global,
    job: &Job,
    file_key: &Option<[u8; 16]>,
    input: &mut S,
    out: &mut W,
) -> Result<(), Fault>
    requires { IsInRange job.now }
    ensures inspects { Inspecting (limits_of job.now) job.now.raw file_key.now
        (flow_by S.to_come S.gave input.old input.new) (move_by W.taken out.old out.new) result }
    ensures quiet { (result ≡ Err Fault.BadMac) ⊎ IsQuiet out.old out.new result }
    ensures writes { CountsIf is_write (W.failed out.old) (W.failed out.new) result }
{
    let header = age_file::inspect(alloc, input, &limits_of(job))?;
    let check = check_of(alloc, &header, file_key)?;
    let shown = shown_of(alloc, job.raw, &header, check)?;
    let Ok(()) = write_all(out, shown.as_slice()) else {
        return Err(Fault::Write);
    };
    match check {
        Check::Bad => Err(Fault::BadMac),
        Check::None | Check::Good => Ok(()),
    }
}

/// The header's own text, or the table of it.
fn shown_of(alloc: Global, raw: bool, header: &Header, check: Check) -> Result<Vec<u8>, AllocError>
    ensures { IfOk result (λ shown. IsShown raw header.now check shown.items) }
{
    if raw {
        return header_text(alloc, header);
    }
    let mut table = Vec::new(alloc);
    match write_table(header, check, &mut table) {
        Ok(()) => Ok(table),
        Err(_) => Err(AllocError),
    }
}

/// Checks whether the header's MAC is that of its stanzas under the file key.
fn check_of(
    alloc: Global,
    header: &Header,
    file_key: &Option<[u8; 16]>,
) -> Result<Check, AllocError>
    ensures { IfOk result (λ check. check ≡ check_of file_key.now header.now) }
{
    match file_key {
        None => Ok(Check::None),
        Some(key) if header.has_mac(&mac_of(alloc, key, header.stanzas())?) => Ok(Check::Good),
        Some(_) => Ok(Check::Bad),
    }
}

/// Writes the table of a header. A column grows with a number that does not fit it.
fn write_table<W: Write>(header: &Header, check: Check, out: &mut W) -> io::Result<()>
    ensures { OnOk result ((shown : Bytes) × IsTable header.now check shown
        × Appends (W.contents out.old) (W.contents out.new) shown) }
{
    let count = header.stanzas().len();
    write!(out, "version age-encryption.org/v1\nstanzas {count}\n")?;
    write_rows(header.stanzas(), out)?;
    out.write_all(b"mac ")?;
    out.write_all(&header.mac_signs())?;
    let len = header.text_len();
    write!(out, "\nheader {len} bytes\ncheck {check}\n")
}

/// Writes a line for each stanza.
fn write_rows<W: Write>(stanzas: &[Stanza], out: &mut W) -> io::Result<()>
    ensures { OnOk result (Appends (W.contents out.old) (W.contents out.new)
        (rows 0 stanzas.now)) }
{
    for (index, stanza) in stanzas.iter().enumerate() {
        write_row(index, stanza, out)?;
    }
    Ok(())
}

/// Writes a stanza's index, the length of its body, and its arguments.
fn write_row<W: Write>(index: usize, stanza: &Stanza, out: &mut W) -> io::Result<()>
    ensures { OnOk result (Appends (W.contents out.old) (W.contents out.new)
        (row index stanza.now)) }
{
    let len = stanza.body().len();
    write!(out, "{index:>4} {len:>8}")?;
    write_args(stanza.args(), out)?;
    out.write_all(b"\n")
}

/// Writes arguments, each after a space.
fn write_args<W: Write>(args: &[String], out: &mut W) -> io::Result<()>
    ensures { OnOk result (Appends (W.contents out.old) (W.contents out.new)
        (spaced_arguments (map string_bytes args.now))) }
{
    for arg in args {
        out.write_all(b" ")?;
        out.write_all(arg.as_bytes())?;
    }
    Ok(())
}
