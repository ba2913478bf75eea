//! The calls beyond `OpenFile` that code generic over `Files` makes on a file.

use std::fs::{File, TryLockError};
use std::io;
use std::io::IsTerminal;
use std::os::unix::fs::fchown;

/// An open file of the system, which can be locked, and whose owner can be changed.
pub trait SystemFile: IsTerminal {
    /// Locks the file until it is closed. Returns false if another program, or another opening of
    /// the file, has locked it. Some file systems have no locks.
    fn lock_alone(&self) -> io::Result<bool>;

    /// Sets the owner and the group of the file, or leaves them if `None`.
    fn set_owner(&self, owner: Option<u32>, group: Option<u32>) -> io::Result<()>;
}

impl SystemFile for File {
    fn lock_alone(&self) -> io::Result<bool> {
        match self.try_lock() {
            Ok(()) => Ok(true),
            Err(TryLockError::WouldBlock) => Ok(false),
            Err(TryLockError::Error(reason)) => Err(reason),
        }
    }

    fn set_owner(&self, owner: Option<u32>, group: Option<u32>) -> io::Result<()> {
        fchown(self, owner, group)
    }
}
