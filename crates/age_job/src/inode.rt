//! The identity of a file, from its name or from an open file, so that two can be compared.

ghost use Rattle.std.specs.Prelude.{◌≡◌, ◌&&◌, nat_eq};

use std::fs::{Metadata, OpenFile};
use std::io::ErrorKind;
use std::os::unix::fs::{FileTypeExt, MetadataExt};
use std::rt::Files;
use std::{fs, io};

/// The names of a process's standard input and output. They serve to identify the files, because
/// the standard library has no metadata of a standard stream.
pub(crate) const STANDARD_INPUT: &str = "/proc/self/fd/0";

pub(crate) const STANDARD_OUTPUT: &str = "/proc/self/fd/1";

/// The kind of a file, as far as reading or writing the file depends on its kind.
#[derive(Clone, Copy, PartialEq, Eq)]
pub(crate) enum Kind {
    Regular,
    /// A device that keeps what is written to it, such as a disk.
    BlockDevice,
    CharDevice,
    Other,
}

/// The identity of a file, which is its device and its inode number, and its kind and length.
#[derive(Clone, Copy, Drop)]
pub(crate) struct Inode {
    dev: u64,
    ino: u64,
    /// The number of the device that this file is, if it is one.
    device: u64,
    pub(crate) kind: Kind,
    /// The file's length in bytes, if it is regular.
    pub(crate) len: u64,
}

impl Inode {
    pub(crate) fn of(found: &Metadata) -> Inode {
        Inode {
            dev: found.dev(),
            ino: found.ino(),
            device: found.rdev(),
            kind: kind_of(found),
            len: found.len(),
        }
    }

    /// Identifies the file to which this name leads, through links too, or returns an error.
    pub(crate) fn at<F: Files>(rt: &F, name: &str) -> io::Result<Inode> {
        Ok(Inode::of(&fs::metadata(rt, name)?))
    }

    /// Identifies an open file, or returns an error.
    pub(crate) fn of_open<F: OpenFile>(file: &F) -> io::Result<Inode> {
        Ok(Inode::of(&file.metadata()?))
    }

    /// Fails unless this name is that of this open file, and not of a symbolic link to it.
    pub(crate) fn check_name<F: Files>(rt: &F, file: &F::File, name: &str) -> io::Result<()> {
        let file = Inode::of_open(file)?;
        match fs::symlink_metadata(rt, name) {
            Ok(found) if Inode::of(&found).is(&file) => Ok(()),
            Err(reason) if reason.kind() != ErrorKind::NotFound => Err(reason),
            _ => Err(io::Error::new(ErrorKind::NotFound, "its new file was removed")),
        }
    }

    /// Whether both are the same file.
    pub(crate) fn is(&self, other: &Inode) -> bool
        // Two files are the same exactly if they have the same device and the same inode on it. No
        // contract says that these numbers are right: that is up to the standard library and, for a
        // standard stream, to the system.
        ensures { result ≡ (nat_eq self.now.dev other.now.dev
            && nat_eq self.now.ino other.now.ino) }
    {
        self.dev == other.dev && self.ino == other.ino
    }

    /// Whether the file keeps what is written to it.
    pub(crate) fn keeps_bytes(&self) -> bool {
        matches!(self.kind, Kind::Regular | Kind::BlockDevice)
    }

    /// Whether a write to `out` changes this file: both are one regular file, or one block device.
    pub(crate) fn is_changed_by(&self, out: &Inode) -> bool
        ensures file { out.now.kind ≡ Kind.Regular
            → result ≡ (nat_eq self.now.dev out.now.dev && nat_eq self.now.ino out.now.ino) }
        ensures device { out.now.kind ≡ Kind.BlockDevice → self.now.kind ≡ Kind.BlockDevice
            → result ≡ nat_eq self.now.device out.now.device }
    {
        match out.kind {
            Kind::Regular => self.is(out),
            Kind::BlockDevice => self.kind == Kind::BlockDevice && self.device == out.device,
            Kind::CharDevice | Kind::Other => false,
        }
    }
}

fn kind_of(found: &Metadata) -> Kind {
    let kind = found.file_type();
    if kind.is_file() {
        Kind::Regular
    } else if kind.is_block_device() {
        Kind::BlockDevice
    } else if kind.is_char_device() {
        Kind::CharDevice
    } else {
        Kind::Other
    }
}
