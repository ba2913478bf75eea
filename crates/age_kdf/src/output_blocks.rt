//! Outputs that are a prefix of a sequence of blocks of 32 bytes.

ghost use Rattle.std.specs.Prelude.{◌≡◌, ◌+◌, ◌*◌, ◌<◌, ◌++◌, length, take};
ghost use Rattle.age_kdf.specs.Bytes.{Bytes};

/// Writes block `i`, or as much of its start as there is room for. If `out` held the blocks of
/// `prefix` before, it then holds these and the bytes written.
#[tactic(auto, using(crate::proofs::ListLemmas::put_block))]
pub(crate) fn put_block(out: &mut [u8], i: usize, block: &[u8; 32])
    requires { 32 * i < length out.old }
    ensures { (prefix : Bytes) → length prefix ≡ 32 * i
        → take (32 * i) out.old ≡ take (length out.old) prefix
        → take (32 * (i + 1)) out.new ≡ take (length out.old) (prefix ++ block.now) }
{
    let at = 32 * i;
    let room = out.len() - at;
    let n = if room < 32 { room } else { 32 };
    out[at..at + n].copy_from_slice(&block[..n]);
}
