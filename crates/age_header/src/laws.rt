//! Laws about the format's definitions alone. Each is the contract of a function that does nothing.

ghost use Rattle.std.specs.Prelude.{◌≡◌, ◌↔◌, ◌++◌, ◌-◌, [], ℕ, List, Ok, Some, length, take};
ghost use Rattle.std.specs.declared.result.Result.{Result};
ghost use Rattle.age_kdf.specs.Bytes.{Bytes};
ghost use Rattle.age_header.specs.declared.fault.HeaderFault.{HeaderFault};
ghost use Rattle.base64.specs.GeneralPurpose.{IsBytes};
ghost use Rattle.age_header.specs.Base64.{IsBase64, decoded_bytes, base64_of};
ghost use Rattle.age_header.specs.Header.{StanzaParts, Head};
ghost use Rattle.age_header.specs.Text.{signed_text};
ghost use Rattle.age_header.specs.Verdict.{Found, HeaderVerdict, BeginsWith};

/// Decoding returns exactly the bytes whose base64 the characters are, and encoding returns the
/// base64 of the bytes.
pub fn one_base64()
    ensures decoded { (characters bytes : Bytes)
        → (decoded_bytes characters ≡ Some bytes) ↔ IsBase64 bytes characters }
    ensures encoded { (bytes : Bytes) → IsBytes bytes → IsBase64 bytes (base64_of bytes) }
{}

/// A header's text has one reading, the stanzas and the MAC have one text, and the text of a header
/// is not a prefix of another header's text.
pub fn one_reading()
    ensures reading { (ss ts : List StanzaParts) (m n h : Bytes) → Head ss m h → Head ts n h
        → (ss ≡ ts) × (m ≡ n) }
    ensures text { (ss : List StanzaParts) (m h k : Bytes) → Head ss m h → Head ss m k → h ≡ k }
    ensures prefix { (ss ts : List StanzaParts) (m n h x : Bytes) → Head ss m h → Head ts n (h ++ x)
        → x ≡ [] }
{}

/// Bytes have exactly one header verdict under a limit. The verdict is a header exactly if the
/// bytes begin with that header and its length is within the limit.
#[tactic(auto, using(crate::proofs::VerdictTotalLemmas::verdicts))]
pub fn one_verdict()
    ensures some { (b : Bytes) (max : ℕ) → (r : Result Found HeaderFault) × HeaderVerdict b max r }
    ensures one { (b : Bytes) (max : ℕ) (r q : Result Found HeaderFault) → HeaderVerdict b max r
        → HeaderVerdict b max q → r ≡ q }
    ensures header { (b : Bytes) (max : ℕ) (found : Found)
        → HeaderVerdict b max (Ok found) ↔ BeginsWith b max found }
{}

/// `signed_text` is the header's text without its last 45 bytes: the space, the 43 characters of
/// the MAC and the LF.
pub fn signed_prefix()
    ensures { (ss : List StanzaParts) (mac h : Bytes) → Head ss mac h
        → signed_text ss ≡ take (length h - 45) h }
{}
