//! The error of a constructor, which hands back the constructor's device.
ghost use Rattle.std.specs.Prelude.{◌≡◌};

use crate::fault::StreamFault;
use std::fmt;

/// The device passed to a constructor that failed, and its fault. `?` keeps only the fault.
pub struct Refused<'a, D, E> {
    device: &'a mut D,
    fault: E,
}

impl<'a, D, E> Refused<'a, D, E> {
    /// Joins a device and a fault.
    pub fn of(device: &'a mut D, fault: E) -> Refused<'a, D, E>
        ensures same_reference { result.device.ghost_name ≡ device.entry.ghost_name }
        ensures unchanged { result.device.now ≡ device.old }
        // The error holds the fault passed in.
        ensures fault { result.fault ≡ fault }
    {
        Refused { device, fault }
    }

    /// The fault. The borrow of the device ends.
    pub fn fault(self) -> E
        // The fault that the error held is returned.
        ensures fault { result ≡ self.entry.fault }
        ensures unchanged { self.exit.0.now ≡ self.entry.device.now }
    {
        let Refused { device: _, fault } = self;
        fault
    }

    /// The device and the fault.
    pub fn into_parts(self) -> (&'a mut D, E)
        ensures same_reference { result.0.ghost_name ≡ self.entry.device.ghost_name }
        ensures unchanged { result.0.now ≡ self.entry.device.now }
        // The second part is the fault that the error held.
        ensures fault { result.1 ≡ self.entry.fault }
    {
        let Refused { device, fault } = self;
        (device, fault)
    }
}

impl<'a, D, E: fmt::Debug> fmt::Debug for Refused<'a, D, E> {
    fn fmt<W: fmt::Write>(&self, f: &mut fmt::Formatter<W>) -> fmt::Result {
        self.fault.fmt(f)
    }
}

impl<'a, D> From<Refused<'a, D, StreamFault>> for StreamFault {
    ghost from_gives = { λ refused fault. fault ≡ refused.fault };

    fn from(refused: Refused<'a, D, StreamFault>) -> StreamFault {
        refused.fault()
    }
}
