//! The limits of all calls.

ghost use Rattle.std.specs.Prelude.{◌≡◌};
ghost use Rattle.agefile.specs.Sizes.{limits};

use age_file::Limits;

const MAX_HEADER: usize = 65_536;

pub(crate) const MAX_CHUNKS: u128 = 0xffff_ffff_ffff_ffff;

/// A header of 65,536 bytes, and a payload of 2^64 - 1 chunks.
pub(crate) fn limits() -> Limits
    ensures { result ≡ limits }
{
    let Some(limits) = Limits::new(MAX_HEADER, MAX_CHUNKS) else {
        unreachable!();
    };
    limits
}
