//! Laws: facts about the definitions, each the contract of a function that does nothing.

ghost use Rattle.std.specs.Prelude.{◌≡◌, ◌↔◌, ◌⊎◌, ◌<◌, ℕ, ◌+◌, ◌*◌, List, [], ◌∷◌, ◌++◌};
ghost use Rattle.std.specs.Prelude.{replicate, length, take, drop, Option, Some, None, Ok, Err};
ghost use Rattle.std.specs.Prelude.{true};
ghost use Rattle.age_header.specs.Device.{Bytes, Moved, Took};
ghost use Rattle.age_header.specs.Header.{HeaderParts, StanzaParts};
ghost use Rattle.age_header.specs.Verdict.{HeaderVerdict};
ghost use Rattle.age_header.specs.declared.file_key.FileKey.{FileKey};
ghost use Rattle.age_recipient.specs.Choice.{choice};
ghost use Rattle.age_recipient.specs.Key.{IsFileKey};
ghost use Rattle.age_recipient.specs.Labels.{first_incompatible};
ghost use Rattle.age_stream.specs.Ranges.{HasPlain, RangeState, source_opening};
ghost use Rattle.age_stream.specs.Reading.{Reading, stop, whole};
ghost use Rattle.age_stream.specs.Sizes.{chunk_size};
ghost use Rattle.age_stream.specs.Salvage.{Reports, LossesMoved};
ghost use Rattle.age_file.specs.declared.fault.Fault.{Fault};
ghost use Rattle.age_file.specs.declared.fault.Fault.TheVariants.{BadMac, OutOfMemory, Read};
ghost use Rattle.age_file.specs.AgeFile.{AgeFile, Bounds};
ghost use Rattle.age_file.specs.Device.{IsLate};
ghost use Rattle.age_file.specs.NewFile.{IsIncompatible};
ghost use Rattle.age_file.specs.Ranges.{BeginsFile, GaveHeader, MissesRanges};
ghost use Rattle.age_file.specs.Rewrap.{Rewrapped};
ghost use Rattle.age_file.specs.Salvage.{SavesFile, is_whole_file};
ghost use Rattle.age_file.specs.declared.salvaging.SalvagedFile.{SalvagedFile};
ghost use Rattle.age_file.specs.Verdict.{Answering, IsVerdict, finding};

use age_recipient::{Labels, Matched};
use age_stream::ReadAt;
pub use age_stream::laws::given_is_known;

/// The verdict on bytes is a plaintext without fault exactly if they are an age file of that
/// plaintext for the file key that the identities choose. Any bytes have exactly one verdict.
#[tactic(auto, using(crate::proofs::DecryptLemmas::file_has_verdict))]
pub fn ok_is_age_file()
    ensures ok { (limits : Bounds) (answers : Answering) (b plain : Bytes)
        → IsVerdict limits answers b (whole plain) ↔ ((stanzas : List StanzaParts) × (k : FileKey)
        × AgeFile limits k stanzas plain b × (choice (answers stanzas) ≡ Ok k)) }
    ensures one { (limits : Bounds) (answers : Answering) (b : Bytes) (v w : Reading Fault)
        → IsVerdict limits answers b v → IsVerdict limits answers b w → v ≡ w }
    ensures some { (limits : Bounds) (answers : Answering) (b : Bytes)
        → (v : Reading Fault) × IsVerdict limits answers b v }
{}

/// If a pair's recipient wrapped the stanzas of an age file, the verdict on the file, for the
/// pair's identity alone, is its plaintext without fault.
pub fn pair_opens<M: Matched>(pair: &M)
    ensures { (limits : Bounds) (k : FileKey) (stanzas : List StanzaParts) (plain b : Bytes)
        → IsFileKey k → M.R.wraps (M.the_recipient pair.now) k ≡ Ok stanzas
        → AgeFile limits k stanzas plain b
        → IsVerdict limits (λ s. M.I.meaning (M.the_identity pair.now) s ∷ []) b (whole plain) }
{}

/// If the verdict on bytes is a plaintext without fault (by `ok_is_age_file`, if they are an age
/// file of it for the key chosen), they open for ranges: the only faults are a failed read and out
/// of memory. A reader opened on these bytes has the plaintext's length, every slice is that part
/// of the plaintext, and every chunk opens to its part. The first clause holds of any bytes known
/// to be in the source: a header that was read is the one at their start.
pub fn file_is_sliced<D: ReadAt>()
    ensures header { (dev : D) (limits : Bounds) (b : Bytes) (at : ℕ) (h : HeaderParts)
        (first : GaveHeader limits (D.gave dev) at h) → D.bytes dev ≡ Some b
        → HeaderVerdict b limits.max_header (Ok (finding first.text h)) }
    ensures opens { (limits : Bounds) (answers : Answering) (b plain : Bytes) (fault : Fault)
        → IsVerdict limits answers b (whole plain) → MissesRanges limits answers (Some b) fault
        → (fault ≡ Read) ⊎ (fault ≡ OutOfMemory) }
    ensures len { (dev : D) (limits : Bounds) (answers : Answering) (b plain : Bytes)
        (chunks : RangeState) → D.bytes dev ≡ Some b → IsVerdict limits answers b (whole plain)
        → BeginsFile limits answers (D.gave dev) (D.found dev) chunks
        → chunks.layout.plain ≡ length plain }
    ensures slice { (dev : D) (limits : Bounds) (answers : Answering) (b plain xs : Bytes)
        (chunks : RangeState) (at : ℕ) → D.bytes dev ≡ Some b
        → IsVerdict limits answers b (whole plain)
        → BeginsFile limits answers (D.gave dev) (D.found dev) chunks
        → HasPlain (Some b) chunks.layout at xs → xs ≡ take (length xs) (drop at plain) }
    ensures chunk { (dev : D) (limits : Bounds) (answers : Answering) (b plain : Bytes)
        (chunks : RangeState) (i : ℕ) → D.bytes dev ≡ Some b
        → IsVerdict limits answers b (whole plain)
        → BeginsFile limits answers (D.gave dev) (D.found dev) chunks
        → chunk_size * i < length plain
        → source_opening (Some b) chunks.layout i
        ≡ Some (take chunk_size (drop (chunk_size * i) plain)) }
{}

/// Which passphrase and keyed recipients go together. The first two clauses hold whatever labels
/// the boxes return; the last two are about the labels that the recipients mean.
#[tactic(auto, using(crate::proofs::OwnLabels::own_recipients))]
pub fn own_recipients()
    // A single recipient, even a caller's own, is not incompatible.
    ensures one { (meant : Labels) (index : Option ℕ)
        → IsIncompatible (meant ∷ []) index → index ≡ None }
    // Of recipients that mean an empty set of names, such as keyed recipients, none is
    // incompatible, whatever their boxes return.
    ensures keyed { (n : ℕ) (index : Option ℕ)
        → IsIncompatible (replicate n (Labels.Names [])) index → index ≡ None }
    // If recipient 0 is a passphrase recipient, recipient 1 is incompatible, whatever it is.
    ensures passphrase_first { (other : Labels) (others : List Labels)
        → first_incompatible (Labels.Alone ∷ other ∷ others) ≡ Some 1 }
    // A passphrase recipient after one or more recipients without names is itself incompatible.
    ensures passphrase_after { (n : ℕ) (others : List Labels)
        → first_incompatible (replicate (n + 1) (Labels.Names []) ++ Labels.Alone ∷ others)
        ≡ Some (n + 1) }
{}

/// To identities that choose its file key, a rewrapped file has the verdict that the old file had
/// for the old identities: the same plaintext, or the same fault after the same plaintext.
#[tactic(auto, using(crate::proofs::RewrapLemmas::keeps))]
pub fn rewrap_keeps()
    ensures { (limits : Bounds) (old new : Answering) (b c : Bytes) (is : Rewrapped limits old b c)
        → choice (new is.stanzas) ≡ Ok is.key → (v : Reading Fault)
        → IsVerdict limits old b v ↔ IsVerdict limits new c v }
{}

/// If salvaging a file returns Ok, what it writes begins with what decrypting the file writes. The
/// result is whole exactly if decrypting returns no fault, and then both write the same.
pub fn salvage_is_verdict()
    // On Ok, if the verdict is a plaintext without fault, that plaintext was written.
    ensures whole { (limits : Bounds) (answers : Answering) (b plain : Bytes) (sink : Moved)
        (lost : LossesMoved) (s : SalvagedFile) → IsVerdict limits answers b (whole plain)
        → SavesFile limits answers b sink lost (Ok s) → Took sink plain }
    // On Ok, if the verdict is a plaintext without fault, no chunk was reported as lost.
    ensures none { (limits : Bounds) (answers : Answering) (b plain : Bytes) (sink : Moved)
        (lost : LossesMoved) (s : SalvagedFile) → IsVerdict limits answers b (whole plain)
        → SavesFile limits answers b sink lost (Ok s) → Reports lost [] }
    // On Ok the result is whole exactly if the verdict has no fault.
    ensures exactly { (limits : Bounds) (answers : Answering) (b : Bytes) (v : Reading Fault)
        (sink : Moved) (lost : LossesMoved) (s : SalvagedFile) → IsVerdict limits answers b v
        → SavesFile limits answers b sink lost (Ok s)
        → (is_whole_file s ≡ true) ↔ (v.fault ≡ None) }
    // A fault other than a late one (`IsLate`) is the verdict's, or out of memory; or the verdict
    // is `BadMac`, and salvaging went on under the key that the identities choose.
    ensures fault { (limits : Bounds) (answers : Answering) (b : Bytes) (v : Reading Fault)
        (sink : Moved) (lost : LossesMoved) (fault : Fault) → IsVerdict limits answers b v
        → SavesFile limits answers b sink lost (Err fault)
        → IsLate fault ⊎ (fault ≡ OutOfMemory) ⊎ (v ≡ stop fault) ⊎ (v ≡ stop BadMac) }
    // On Ok the output begins with the verdict's plaintext.
    ensures plaintext { (limits : Bounds) (answers : Answering) (b : Bytes) (v : Reading Fault)
        (sink : Moved) (lost : LossesMoved) (s : SalvagedFile) → IsVerdict limits answers b v
        → SavesFile limits answers b sink lost (Ok s)
        → (rest : Bytes) × Took sink (v.plaintext ++ rest) }
{}
