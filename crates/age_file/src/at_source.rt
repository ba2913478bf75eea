//! Sequential reading of a `ReadAt` from its first byte.
ghost use Rattle.std.specs.Prelude.{◌≡◌, ◌+◌, ◌≤◌, drop, option_map};
ghost use Rattle.age_file.specs.Ranges.{AtState, GaveFirst, IsWithin};

use age_header::{DeviceFault, Source};
use age_stream::ReadAt;
use std::marker::{Brand, Model, PhantomData};

/// What was known of a `ReadAt` when reading began: its contents, how many bytes had been read from
/// it, and the ghost name of the reference to it.
pub(crate) trait Origin {
    ghost use Rattle.std.specs.Prelude.{List, ℕ};
    ghost use Rattle.std.specs.declared.option.Option.{Option};
    ghost use Rattle.age_header.specs.Device.{Known};

    ghost bytes: { Known };

    ghost given: { ℕ };

    ghost name: { ℕ };
}

impl Origin for Brand {
    ghost use Rattle.std.specs.Prelude.{None};

    ghost bytes = { None };

    ghost given = { 0 };

    ghost name = { 0 };
}

/// A `Source` that reads a `ReadAt` from its first byte to its end.
pub(crate) struct AtSource<'a, D: ReadAt, K: Origin> {
    dev: &'a mut D,
    at: u64,
    origin: PhantomData<K>,
}

impl<'a, D: ReadAt, K: Origin> Model for AtSource<'a, D, K> {
    ghost use Rattle.std.specs.Prelude.{◌≡◌, ◌+◌, ◌≤◌};
    ghost use Rattle.age_file.specs.Ranges.{AtState, IsWithin};

    ghost Value = { AtState D };

    ghost view = { λ s. record { dev = s.dev.now; at = s.at } };

    ghost invariant = { λ s. (D.bytes s.dev.now ≡ K.bytes) × (D.given s.dev.now ≤ K.given + s.at)
        × IsWithin (D.bytes s.dev.now) s.at × (s.dev.ghost_name ≡ K.name) };
}

impl<'a, D: ReadAt, K: Origin> AtSource<'a, D, K> {
    /// Starts at the first byte.
    pub(crate) fn new(dev: &'a mut D) -> AtSource<'a, D, K>
        requires bytes { K.bytes ≡ D.bytes dev.old }
        requires given { K.given ≡ D.given dev.old }
        requires name { K.name ≡ dev.ghost_name }
        ensures { result ≡ record { dev = dev.old; at = 0 } }
    {
        AtSource {
            dev,
            at: 0,
            origin: PhantomData,
        }
    }

    /// The `ReadAt`, and the offset after the last byte that was read.
    pub(crate) fn into_parts(self) -> (&'a mut D, u64)
        ensures same_reference { result.0.ghost_name ≡ K.name }
        ensures unchanged { result.0.now ≡ self.entry.dev }
        ensures at { result.1 ≡ self.entry.at }
        ensures bytes { D.bytes result.0.now ≡ K.bytes }
        ensures within { IsWithin (D.bytes result.0.now) result.1 }
        ensures given { D.given result.0.now ≤ K.given + result.1 }
    {
        let AtSource { dev, at, origin: _ } = self;
        (dev, at)
    }
}

impl<'a, D: ReadAt, K: Origin> Source for AtSource<'a, D, K> {
    ghost failed = { λ s. D.failed s.dev };

    ghost to_come = { λ s. option_map (drop s.at) (D.bytes s.dev) };

    ghost gave = { λ s. GaveFirst (D.gave s.dev) s.at };

    fn read(&mut self, buf: &mut [u8]) -> Result<usize, DeviceFault> {
        let read = self.dev.read_at(self.at, buf);
        if let Ok(n) = &read {
            self.at = self.at.saturating_add(*n as u64);
        }
        read
    }

    fn failures(&self) -> u64 {
        self.dev.failures()
    }
}
