//! The key, the offsets and the number of a payload's chunks.
ghost use Rattle.std.specs.Prelude.{◌^◌, ◌+◌, ◌-◌, ◌*◌, ◌<◌, ◌≤◌};
ghost use Rattle.age_stream.specs.Sizes.{chunk_size, tag_size};

/// The sealed chunks of a payload: their key, the offset of the first, the plaintext's length, and
/// their number.
#[derive(Clone, Copy, Drop)]
pub struct Layout {
    pub(crate) key: [u8; 32],
    pub(crate) first: u64,
    pub(crate) plain: u64,
    pub(crate) count: u64,
    pub(crate) ghost fits: { first + plain + tag_size * count < 2 ^ 64 },
    pub(crate) ghost some: { 0 < count },
    pub(crate) ghost covers: { plain ≤ chunk_size * count },
    pub(crate) ghost tight: { 1 < count → chunk_size * (count - 1) < plain },
}
