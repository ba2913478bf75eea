//! The version of this library.

ghost use Rattle.std.specs.Prelude.{◌≡◌};

/// The version, 0.7.0: the major number times 65,536, plus the minor times 256, plus the patch.
#[unsafe(no_mangle)]
pub extern "C" fn agefile_version() -> u32
    ensures { result ≡ 1792 }
{
    0x00_07_00
}
