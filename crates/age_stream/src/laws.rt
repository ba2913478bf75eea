//! Laws: facts about the definitions alone, each the contract of a function that does nothing.

ghost use Rattle.std.specs.Prelude.{◌≡◌, ◌↔◌, ◌<◌, ◌≤◌, ◌+◌, ◌++◌, ◌⊎◌, ℕ};
ghost use Rattle.std.specs.Prelude.{List, None, Some, Ok, Err, Option, drop, length, take, true};
ghost use Rattle.age_kdf.specs.Bytes.{Bytes};
ghost use Rattle.age_header.specs.declared.file_key.FileKey.{FileKey};
ghost use Rattle.age_stream.specs.Cutting.{cut, IsCut};
ghost use Rattle.age_stream.specs.Payload.{chunks, payload, payload_key, pieces};
ghost use Rattle.age_stream.specs.Ranges.{BeginsRanges, Fills, HasPlain, IsOpened, IsThere};
ghost use Rattle.age_stream.specs.Ranges.{OpensRanges, PieceOpens, RangeState, source_opening};
ghost use Rattle.age_stream.specs.Reading.{payload_reading, whole};
ghost use Rattle.age_stream.specs.Salvage.{is_whole, last_saved, padding, payload_parts};
ghost use Rattle.age_stream.specs.Salvage.{salvaged_text, summary};
ghost use Rattle.age_stream.specs.Slice.{IsSlice, plain_len, range_outcome};
ghost use Rattle.age_stream.specs.Sizes.{nonce_size};
ghost use Rattle.age_stream.specs.declared.fault.StreamFault.{StreamFault};
ghost use Rattle.age_stream.specs.declared.layout.Layout.{Layout};

use crate::read_at::ReadAt;

/// A text has exactly one cut of each size above 0, the one that `cut` computes.
pub fn one_cut()
    ensures { (size : ℕ) (text : Bytes) (lists : List Bytes) → 0 < size
        → IsCut size text lists ↔ (lists ≡ cut size text) }
{}

/// Reading a text as a payload gives a plaintext and no fault exactly if the text is a payload of
/// this plaintext, with some nonce, and the number of chunks is within the limit. The text then has
/// as many pieces as the plaintext has chunks.
pub fn ok_is_payload()
    ensures ok { (file_key : FileKey) (text plain : Bytes) (max : ℕ)
        → (payload_reading file_key max text ≡ whole plain) ↔ ((nonce : Bytes)
        × (length nonce ≡ nonce_size) × (text ≡ payload file_key nonce plain)
        × (length (chunks plain) ≤ max)) }
    ensures count { (file_key : FileKey) (text plain : Bytes) (max : ℕ)
        → payload_reading file_key max text ≡ whole plain
        → length (pieces (drop nonce_size text)) ≡ length (chunks plain) }
{}

/// A payload without a fault opens for ranges. Its length for ranges is that of the plaintext, and
/// its slices are those of the plaintext.
pub fn whole_is_sliced()
    ensures opens { (file_key : FileKey) (text plain : Bytes) (max : ℕ)
        → payload_reading file_key max text ≡ whole plain
        → (last : Bytes) × (range_outcome file_key max text ≡ Ok last) }
    ensures len { (file_key : FileKey) (text plain : Bytes) (max : ℕ)
        → payload_reading file_key max text ≡ whole plain
        → plain_len (drop nonce_size text) ≡ length plain }
    ensures slice { (file_key : FileKey) (text plain xs : Bytes) (max at : ℕ)
        → payload_reading file_key max text ≡ whole plain
        → IsSlice (payload_key file_key (take nonce_size text)) (drop nonce_size text) at xs
        → xs ≡ take (length xs) (drop at plain) }
{}

/// Salvaging a payload without a fault gives its plaintext. For any other payload, the saved text
/// begins with the plaintext before the first fault.
pub fn salvage_is_reading()
    // The saved text of a payload without a fault is its plaintext.
    ensures whole { (file_key : FileKey) (text plain : Bytes) (max : ℕ)
        → payload_reading file_key max text ≡ whole plain
        → salvaged_text (payload_parts file_key text) ≡ plain }
    // A payload has no fault exactly if its nonce is complete, the number of chunks is within the
    // limit, and salvaging finds it whole.
    ensures exactly { (file_key : FileKey) (text : Bytes) (max : ℕ)
        → ((payload_reading file_key max text).fault ≡ None) ↔ ((nonce_size ≤ length text)
        × (length (payload_parts file_key text) ≤ max)
        × (is_whole (summary (payload_parts file_key text)) ≡ true)) }
    // The text saved from the first `max` pieces begins with the plaintext before the first fault.
    ensures plaintext { (file_key : FileKey) (text : Bytes) (max : ℕ)
        → (rest : Bytes) × (salvaged_text (take max (payload_parts file_key text))
        ≡ (payload_reading file_key max text).plaintext ++ rest) }
{}

/// Salvaging keeps offsets: the bytes that a range of a damaged payload reads are at the same
/// offsets in the saved text. Its length plus the padding's is the plaintext's length for ranges.
pub fn salvage_is_sliced()
    // A slice of the payload, which needs only the chunks that it touches, is the same slice of the
    // saved text.
    ensures slice { (file_key : FileKey) (text xs : Bytes) (at : ℕ)
        → IsSlice (payload_key file_key (take nonce_size text)) (drop nonce_size text) at xs
        → xs ≡ take (length xs) (drop at (salvaged_text (payload_parts file_key text))) }
    // The saved text's length plus the padding's is the plaintext's length, as a reader of ranges
    // finds it.
    ensures len { (file_key : FileKey) (text : Bytes)
        → length (salvaged_text (payload_parts file_key text))
        + padding (last_saved (payload_parts file_key text)) ≡ plain_len (drop nonce_size text) }
{}

/// A source with known contents gives only bytes of these. So a range of it is a part of the known
/// plaintext, and a fault of opening, unless `Read` or `Memory`, is that of the known payload.
pub fn given_is_known<D: ReadAt>()
    // A reader that was opened has the layout and the last chunk of the known payload.
    ensures opened { (dev : D) (b : Bytes) (file_key : FileKey) (max at : ℕ) (s : RangeState)
        → D.bytes dev ≡ Some b → BeginsRanges file_key max at (D.gave dev) (D.found dev) s
        → IsOpened file_key max (Some b) at s }
    // A fault of opening, but for a failed read and refused memory, is that of the known payload.
    ensures fault { (dev : D) (b : Bytes) (file_key : FileKey) (max at : ℕ) (fault : StreamFault)
        → D.bytes dev ≡ Some b
        → OpensRanges file_key max at (D.gave dev) (D.found dev) (Err fault)
        → (fault ≡ StreamFault.Read) ⊎ ((fault ≡ StreamFault.Memory)
        ⊎ (range_outcome file_key max (drop at b) ≡ Err fault)) }
    // A piece that was read opens as the known piece does.
    ensures piece { (dev : D) (b : Bytes) (layout : Layout) (i : ℕ) (opened : Option Bytes)
        → D.bytes dev ≡ Some b → IsThere (Some b) layout → PieceOpens (D.gave dev) layout i opened
        → source_opening (Some b) layout i ≡ opened }
    // What a range returned is a part of the known plaintext.
    ensures slice { (dev : D) (b old new : Bytes) (layout : Layout) (at n : ℕ)
        → D.bytes dev ≡ Some b → IsThere (Some b) layout → n ≤ length new
        → Fills (D.gave dev) layout at n old new → HasPlain (Some b) layout at (take n new) }
{}
