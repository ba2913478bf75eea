//! A part of a file, and calls on one reader of ranges, one after another.

ghost use Rattle.std.specs.Prelude.{◌≡◌, ◌-◌, ◌++◌, length, min, take, drop, IfOk, IfErr};
ghost use Rattle.std.specs.List.{FoldsTo, zip};
ghost use Rattle.age_stream.specs.Ranges.{ReadsRange};
ghost use Rattle.age_file.specs.Verdict.{IsVerdict, answers_by};
ghost use Rattle.age_file.specs.Words.{Bytes, whole};
ghost use Rattle.round_trip.specs.Calls.{Makes};

use age_file::{
    Fault, Identity, Limits, MemAt, RangeReader, ReadAt, StreamFault, laws, open_ranges,
};
use std::alloc::Global;

/// Fills the start of `buf` with the plaintext of a file in memory from offset `at` on, and returns
/// the number of bytes, as `RangeReader::read_range` does.
///
/// # Errors
/// Those of `open_ranges` and of `read_range`. For a file whose verdict is a plaintext without a
/// fault, only `OutOfMemory`.
pub fn part_of(
    alloc: Global,
    identities: &[Box<dyn Identity>],
    file: &[u8],
    limits: &Limits,
    at: u64,
    buf: &mut [u8],
) -> Result<usize, Fault>
    // On Ok, if the file's verdict for these identities has no fault, the buffer begins with the n
    // bytes of the plaintext from `at` on, as many as fit, and the rest of the buffer is unchanged.
    ensures part { IfOk result (λ n. (plain : Bytes)
        → IsVerdict limits.now (answers_by identities.now (λ i s. meaning i s)) file.now
        (whole plain) → (n ≡ min (length buf.old) (length plain - at))
        × (buf.new ≡ take n (drop at plain) ++ drop n buf.old)) }
    // With such a verdict the only fault is `OutOfMemory`.
    ensures lost { IfErr result (λ fault. (plain : Bytes)
        → IsVerdict limits.now (answers_by identities.now (λ i s. meaning i s)) file.now
        (whole plain) → fault ≡ Fault.OutOfMemory) }
{
    laws::file_is_sliced::<MemAt>();
    laws::given_is_known::<MemAt>();
    let mut dev = MemAt::new(file);
    let mut reader = match open_ranges(alloc, &mut dev, identities, limits) {
        Ok(reader) => reader,
        Err(refused) => return Err(Fault::from(refused)),
    };
    Ok(reader.read_range(at, buf)?)
}

/// A call of `read_range`.
#[derive(Drop)]
pub struct RangeCall {
    /// The offset of the first byte.
    pub at: u64,
    /// The buffer to be filled.
    pub buf: Vec<u8>,
    /// What the call returned, once it was made.
    pub answer: Result<usize, StreamFault>,
}

/// Makes every call of a list, in order.
pub fn make_calls<D: ReadAt>(reader: &mut RangeReader<'_, D>, calls: &mut [RangeCall])
    ensures same_reference { reader.new.dev.ghost_name ≡ reader.old.dev.ghost_name }
    // By the contents and the reader's state before the first call, each call returns its slice of
    // the plaintext, `BadChunk` of the first chunk in its range that does not open, or `Read`. It
    // tries no more chunks than it touches, and reads no more bytes than their pieces have.
    ensures made { FoldsTo (Makes D.bytes D.given D.failed D.gave reader.old.dev.now
        reader.old.chunks) (reader.old.dev.now, reader.old.chunks)
        (zip calls.old calls.new) (reader.new.dev.now, reader.new.chunks) }
{
    for call in calls.iter_mut() {
        make(reader, call);
    }
}

/// Makes a call, and keeps what it returned.
fn make<D: ReadAt>(reader: &mut RangeReader<'_, D>, call: &mut RangeCall)
    ensures same_reference { reader.new.dev.ghost_name ≡ reader.old.dev.ghost_name }
    ensures len { length call.new.buf.items ≡ length call.old.buf.items }
    ensures reads { ReadsRange D.bytes D.given D.failed D.gave call.old.at
        (record {
          source = reader.old.dev.now;
          chunks = reader.old.chunks;
          buf = call.old.buf.items;
        }) (record {
          source = reader.new.dev.now;
          chunks = reader.new.chunks;
          buf = call.new.buf.items;
        }) call.new.answer }
{
    call.answer = reader.read_range(call.at, call.buf.as_mut_slice());
}
