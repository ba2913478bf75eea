//! The program `agep`: `age_cli::run` on the arguments and the standard streams. `agep --help` says
//! how to use it.
//!
//! Limits: the arguments must be UTF-8.
#![tactic(auto)]

ghost use Rattle.std.specs.Prelude.{◌≤◌};

use std::env::FillError;
use std::fs::File;
use std::os::fd::AsRawFd;
use std::process::ExitCode;
use std::rt::Env;
use std::{env, io, str};

/// The maximum length of an argument that a message names, in bytes.
const MAX_NAME: usize = 4_096;

fn main(rt: HostRuntime) -> ExitCode {
    let status = match arguments(&rt) {
        Ok(args) => run(&rt, args.as_slice()),
        Err(error) => refuse(&rt, error.kind()),
    };
    ExitCode::from(status)
}

/// The arguments of the command line, which must be UTF-8.
fn arguments(rt: &HostRuntime) -> io::Result<Vec<String>> {
    Ok(env::args(rt)?.collect(rt.alloc())?)
}

fn run(rt: &HostRuntime, owned: &[String]) -> u8
    ensures { result ≤ 2 }
{
    let Some(_held) = hold_streams(rt) else {
        let _ = eprintln!(rt;
            "agep: a standard stream is closed, and no directory can be opened in its place"
        );
        return 1;
    };
    let mut args: Vec<&str> = Vec::new(rt.alloc());
    for arg in owned {
        if args.push(arg.as_str()).is_err() {
            return refuse(rt, io::ErrorKind::OutOfMemory);
        }
    }
    age_cli::run(
        rt,
        args.as_slice(),
        &mut rt.stdin(),
        &mut rt.stdout(),
        &mut age_cli::WriteSink::new(rt.stderr()),
    )
}

/// If standard output or standard error is closed, opens directories on the descriptors of the
/// closed streams, or returns `None` if it cannot. Without them a file opened later could get such
/// a descriptor, and output to the stream would go into that file. A directory can be neither read
/// nor written, by its descriptor or as `/dev/stdout`. A closed standard input needs no directory,
/// because any file on its descriptor at the time of reading is open for writing only.
fn hold_streams(rt: &HostRuntime) -> Option<[Option<File>; 3]> {
    if are_open(rt) {
        return Some([None, None, None]);
    }
    Some([
        Some(open_folder(rt)?),
        Some(open_folder(rt)?),
        Some(open_folder(rt)?),
    ])
}

/// Whether standard output and standard error are open; false if this cannot be told. Opens a pipe
/// or, if that fails, a directory, to see which are the lowest free descriptors.
fn are_open(rt: &HostRuntime) -> bool {
    match io::pipe(rt) {
        Ok((reader, writer)) => {
            let (lower, upper) = (reader.as_raw_fd(), writer.as_raw_fd());
            lower > 2 || (lower == 0 && upper > 2)
        }
        Err(_) => match open_folder(rt) {
            Some(folder) => folder.as_raw_fd() > 2,
            None => false,
        },
    }
}

/// Opens a directory that the user may read.
fn open_folder(rt: &HostRuntime) -> Option<File> {
    for name in ["/", ".", "/dev"] {
        if let Ok(folder) = File::open(rt, name) {
            return Some(folder);
        }
    }
    None
}

/// Prints why the arguments cannot be read, and returns the exit status. Ignores a failed print.
fn refuse(rt: &HostRuntime, kind: io::ErrorKind) -> u8
    ensures { result ≤ 2 }
{
    if kind == io::ErrorKind::OutOfMemory {
        let _ = eprintln!(rt; "agep: out of memory");
        return 1;
    }
    let mut room = [0u8; MAX_NAME];
    let name = wrong_argument(rt, &mut room).escape_ascii();
    let _ = eprintln!(rt;
        "agep: an argument is not UTF-8: {name}; < and > read and write files with such names"
    );
    2
}

/// The first argument that is not UTF-8 and fits the buffer; empty if there is none.
fn wrong_argument<'a>(rt: &HostRuntime, room: &'a mut [u8]) -> &'a [u8] {
    for i in 0..usize::MAX {
        match rt.arg(i, room) {
            Ok(len) if str::from_utf8(&room[..len]).is_err() => return &room[..len],
            Err(FillError::NotPresent) => break,
            _ => {}
        }
    }
    &[]
}
