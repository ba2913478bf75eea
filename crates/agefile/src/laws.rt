//! Laws about the definitions alone. Each is the contract of a function that does nothing.

ghost use Rattle.std.specs.Prelude.{◌∷◌, ◌≤◌, ◌%◌, ◌++◌, ◌+◌, ◌/◌, ◌<◌, ◌≡◌, ◌≢◌, ◌⊎◌};
ghost use Rattle.agefile.specs.Words.{Ok, List, [], drop, length, map, take, true, ℕ, Bytes};
ghost use Rattle.agefile.specs.Words.{IsStanza, StanzaParts, chunk_size, nonce_size, tag_size};
ghost use Rattle.agefile.specs.Words.{Fault, HeaderTruncated, NonceTruncated, Answering, IsVerdict};
ghost use Rattle.agefile.specs.Words.{Payload, Report};
ghost use Rattle.std.specs.List.{concat};
ghost use Rattle.age_stream.specs.Payload.{chunks, pieces, sealed_chunks_from};
ghost use Rattle.age_stream.specs.Reading.{Reading, outcome, whole};
ghost use Rattle.age_stream.specs.Salvage.{parts, summary};
ghost use Rattle.age_stream.specs.Ranges.{last_index};
ghost use Rattle.age_stream.specs.Slice.{IsSlice, last_outcome, plain_len};
ghost use Rattle.age_file.specs.AgeFile.{AgeFile};
ghost use Rattle.agefile.specs.declared.ranges.Ranges.{Ranges};
ghost use Rattle.agefile.specs.Codes.{code_of, fault_code, ok, out_of_memory, too_many_chunks};
ghost use Rattle.agefile.specs.WholeFiles.{IsNewFile};
ghost use Rattle.agefile.specs.Groups.{OpensGroups, OpensRun, SealsGroups, SealsRun, all_of};
ghost use Rattle.agefile.specs.Groups.{unended_chunks};
ghost use Rattle.agefile.specs.Heading.{BeginsFile};
ghost use Rattle.agefile.specs.Sizes.{limits, front_size};
ghost use Rattle.agefile.specs.Unlock.{IsStart, Opens, Unlocks, by_file_key};
ghost use Rattle.agefile.specs.Payload.{OpensNext, SealsNext, before_first, phase_reading};
ghost use Rattle.agefile.specs.Ranges.{OpensRanges, piece_outcome, piece_at, plain_of};
ghost use Rattle.agefile.specs.Report.{report_of};
ghost use Rattle.agefile.specs.Salvage.{Given, SavesRun, given_of, verdict_of};

/// Reading a file in steps returns what decrypting it returns. The first 65,552 bytes of a file
/// suffice to open it. A fault of opening, other than out of memory, is that of the verdict, before
/// any plaintext. Otherwise the texts of the sealed chunks after the nonce, concatenated up to the
/// first fault, are the verdict's plaintext, and that fault's code and place are those of the
/// verdict's fault.
pub fn steps_read()
    ensures refused { (answers : Answering) (b : Bytes) (p : Payload) (report : Report) (code : ℕ)
        (v : Reading Fault)
        → Opens answers (take front_size b) p report code → IsVerdict limits answers b v
        → code ≢ ok → code ≢ out_of_memory
        → (v.plaintext ≡ []) × (code_of v.fault ≡ code) × (report ≡ report_of 0 v.fault) }
    ensures read { (answers : Answering) (b : Bytes) (p : Payload) (report : Report) (text : Bytes)
        (code place : ℕ) (v : Reading Fault)
        → Opens answers (take front_size b) p report ok
        → OpensRun p (pieces (drop report.len b)) text code place → IsVerdict limits answers b v
        → (v.plaintext ≡ text) × ((code_of v.fault ≡ code) × ((report_of 0 v.fault).place
        ≡ place)) }
{}

/// Writing a file in steps writes what encrypting writes: the header and nonce that begin it,
/// followed by the sealed chunks of a plaintext, are the file of that plaintext. If the plaintext
/// has more chunks than the limit, a step returns 14 instead.
pub fn steps_write()
    ensures { (stanzas file_key nonce plain old new : Bytes) (p : Payload) (report : Report)
        (out : Bytes) (code : ℕ) → BeginsFile stanzas file_key nonce old new p report ok
        → SealsRun p (chunks plain) out code
        → ((code ≡ ok) × IsNewFile stanzas file_key nonce plain (take report.len new ++ out))
        ⊎ ((code ≡ too_many_chunks) × (limits.max_chunks < length (chunks plain))) }
{}

/// Salvaging a payload in steps that return 0 yields the parts that `age_stream::salvage_payload`
/// saves: their texts, in order, and for each what was saved. The last report has their verdict.
#[tactic(auto, using(crate::proofs::SalvageLemmas::steps_save))]
pub fn steps_save()
    ensures { (key rest : Bytes) (given : List Given) (detail : ℕ)
        → SavesRun (before_first key phase_reading) (pieces rest) given detail
        → (given ≡ map given_of (parts key 0 (pieces rest)))
        × (detail ≡ verdict_of (summary (parts key 0 (pieces rest)))) }
{}

/// Reading ranges in steps returns parts of the plaintext. The first 65,552 bytes of a file and its
/// length suffice to open it. A fault of opening, other than out of memory, is that of the verdict,
/// before any plaintext. Otherwise the file's own payload was opened; `agefile_ranges_last` opens
/// its last piece, which proves the length of the plaintext. The text of a located piece, from the
/// requested byte on, is a slice of the plaintext; if the verdict has no fault, a part of the
/// verdict's plaintext, by `age_stream::laws::whole_is_sliced`.
pub fn ranges_in_steps()
    ensures refused { (answers : Answering) (b : Bytes) (r : Ranges) (report : Report) (code : ℕ)
        (v : Reading Fault)
        → OpensRanges answers (take front_size b) (length b) r report code
        → IsVerdict limits answers b v → code ≢ ok → code ≢ out_of_memory
        → (v.plaintext ≡ []) × (code_of v.fault ≡ code) × (report ≡ report_of 0 v.fault) }
    ensures opened { (answers : Answering) (b : Bytes) (r : Ranges) (report : Report)
        → OpensRanges answers (take front_size b) (length b) r report ok
        → IsStart answers b (Ok (record { first = r.first; key = r.key }))
        × (length b ≡ r.first + r.sealed_len) }
    ensures last { (r : Ranges) (b : Bytes) → length b ≡ r.first + r.sealed_len
        → outcome r.key limits.max_chunks (last_index r.sealed_len) true
        (piece_at r b (last_index r.sealed_len))
        ≡ last_outcome r.key limits.max_chunks (drop r.first b) }
    ensures len { (r : Ranges) (b text : Bytes) → length b ≡ r.first + r.sealed_len
        → last_outcome r.key limits.max_chunks (drop r.first b) ≡ Ok text
        → plain_len (drop r.first b) ≡ plain_of r.sealed_len }
    ensures slice { (r : Ranges) (b text : Bytes) (at : ℕ) → length b ≡ r.first + r.sealed_len
        → at < plain_of r.sealed_len
        → piece_outcome r (at / chunk_size) (piece_at r b (at / chunk_size)) ≡ Ok text
        → (at % chunk_size < length text)
        × IsSlice r.key (drop r.first b) at (drop (at % chunk_size) text) }
{}

/// A payload and its parts seal the payload's chunks, whatever the order of calls on different
/// parts. The groups of chunks sealed so far, concatenated in order, are sealed under the payload's
/// next numbers, none twice and none as the last, and the payload continues after them. With a last
/// chunk they are all chunks of the payload from the first of them on.
pub fn parts_seal()
    ensures so_far { (old new : Payload) (groups : List (List Bytes)) (out : Bytes)
        → SealsGroups old new groups out
        → (out ≡ concat (unended_chunks old.key old.number (all_of groups)))
        × ((new.key ≡ old.key) × (new.number ≡ old.number + length (all_of groups))) }
    ensures whole { (old mid new : Payload) (groups : List (List Bytes))
        (out text room after : Bytes) (report : Report) → SealsGroups old mid groups out
        → length room ≡ tag_size
        → SealsNext mid new (text ++ room) after true report ok
        → out ++ after ≡ concat (sealed_chunks_from old.key old.number (all_of groups
        ++ text ∷ [])) }
{}

/// A file that encrypting writes is an age file of the plaintext for its file key, whatever the
/// stanzas. With the text of one given stanza it is an age file with that stanza. So its verdict is
/// "this plaintext, no fault" for the file key, by `age_file::laws::ok_is_age_file`, and by
/// `pair_opens` for the key or passphrase that made the stanza.
pub fn written_is_age_file()
    ensures any { (stanzas file_key nonce plain file : Bytes) → length nonce ≡ nonce_size
        → IsNewFile stanzas file_key nonce plain file
        → (ss : List StanzaParts) × AgeFile limits (record { 0 = file_key }) ss plain file }
    ensures one { (stanza : StanzaParts) (text file_key nonce plain file : Bytes)
        → length nonce ≡ nonce_size → IsStanza stanza text
        → IsNewFile text file_key nonce plain file
        → AgeFile limits (record { 0 = file_key }) (stanza ∷ []) plain file }
{}

/// Unlocking a header agrees with decrypting the file. A fault, other than out of memory, is that
/// of the verdict, before any plaintext. Otherwise the file's verdict for the unlocked file key is
/// its verdict for the secret.
pub fn unlocked_opens()
    ensures refused { (answers : Answering) (b old new : Bytes) (report : Report) (code : ℕ)
        (v : Reading Fault)
        → Unlocks answers b old new report code → IsVerdict limits answers b v
        → code ≢ ok → code ≢ out_of_memory
        → (v.plaintext ≡ []) × (code_of v.fault ≡ code) × (report ≡ report_of 0 v.fault) }
    ensures opens { (answers : Answering) (b old new : Bytes) (report : Report) (v : Reading Fault)
        → Unlocks answers b old new report ok → IsVerdict limits answers b v
        → IsVerdict limits (by_file_key new) b v }
{}

/// A payload and its parts return the verdict's plaintext, whatever the order of calls on different
/// parts. The texts of the groups of chunks opened so far, concatenated in order, are the beginning
/// of this plaintext. With a last chunk they are the whole of it, and the verdict has no fault.
pub fn parts_open()
    ensures so_far { (answers : Answering) (b : Bytes) (p new : Payload) (report : Report)
        (groups : List (List Bytes)) (text next : Bytes) (more : List Bytes) (v : Reading Fault)
        → Opens answers (take front_size b) p report ok → OpensGroups p new groups text
        → pieces (drop report.len b) ≡ all_of groups ++ next ∷ more → IsVerdict limits answers b v
        → take (length text) v.plaintext ≡ text }
    ensures whole { (answers : Answering) (b : Bytes) (p mid new : Payload)
        (report last_report : Report) (groups : List (List Bytes)) (text last after : Bytes)
        (v : Reading Fault) → Opens answers (take front_size b) p report ok
        → OpensGroups p mid groups text → OpensNext mid new last after true last_report ok
        → pieces (drop report.len b) ≡ all_of groups ++ last ∷ [] → IsVerdict limits answers b v
        → v ≡ whole (text ++ take last_report.len after) }
{}

/// Every beginning of a file that contains its header and its nonce opens as the file does: if
/// either opens, so does the other, with the same payload and the same report. For a shorter
/// beginning of a file that opens, the call returns 3 or 10. All this holds unless an allocation is
/// refused.
pub fn any_front()
    ensures front { (answers : Answering) (n : ℕ) (b : Bytes) (p q : Payload) (report r : Report)
        (code : ℕ) → Opens answers (take n b) p report ok → Opens answers b q r code
        → code ≢ out_of_memory → (code ≡ ok) × ((q ≡ p) × (r ≡ report)) }
    ensures holds { (answers : Answering) (n : ℕ) (b : Bytes) (p q : Payload) (report r : Report)
        (code : ℕ) → Opens answers b p report ok → report.len ≤ n
        → Opens answers (take n b) q r code → code ≢ out_of_memory
        → (code ≡ ok) × ((q ≡ p) × (r ≡ report)) }
    ensures short { (answers : Answering) (n : ℕ) (b : Bytes) (p q : Payload) (report r : Report)
        (code : ℕ) → Opens answers b p report ok → n < report.len
        → Opens answers (take n b) q r code → code ≢ out_of_memory
        → (code ≡ fault_code HeaderTruncated) ⊎ (code ≡ fault_code NonceTruncated) }
{}
