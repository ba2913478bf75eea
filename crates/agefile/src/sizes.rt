//! Sufficient sizes of buffers.

ghost use Rattle.std.specs.Prelude.{◌≡◌, ◌-◌, ◌^◌, ◌<◌, ◌≤◌, ◌++◌};
ghost use Rattle.agefile.specs.Words.{ℕ, length, min, Bytes, IsStanza, FileKey, payload, Reading};
ghost use Rattle.agefile.specs.Words.{nonce_size, Fault, Answering, IsVerdict};
ghost use Rattle.age_recipient.specs.Key.{file_key_size};
ghost use Rattle.age_recipient.specs.KeyedStanza.{keyed_stanza};
ghost use Rattle.age_recipient.specs.PassphraseHolders.{WorkFits};
ghost use Rattle.age_recipient.specs.PassphraseStanza.{pass_stanza};
ghost use Rattle.age_recipient.specs.Salt.{salt_size};
ghost use Rattle.agefile.specs.WholeFiles.{IsNewFile};
ghost use Rattle.agefile.specs.Sizes.{file_len, limits, opened_len, plain_len_at_most, sealed_len};

use age_stream::{CHUNK_SIZE, NONCE_SIZE, SEALED_CHUNK_SIZE, TAG_SIZE};

/// The header of a file encrypted with a key, 156 bytes, and its payload's nonce. With a passphrase
/// the header is six or seven bytes shorter.
const KEYED_START: u64 = 172;

/// The version line and the end line of a header, 70 bytes, and the payload's nonce.
const SHORTEST_START: u64 = 86;

/// Returns a sufficient buffer size for the file of a plaintext of this length, with one stanza of
/// `agefile_wrap_key` or `agefile_wrap_passphrase`. The result is the length with the stanza of a
/// key, saturating at the largest `u64`.
#[unsafe(no_mangle)]
pub extern "C" fn agefile_sealed_len(plain_len: u64) -> u64
    // The result saturates at the largest u64.
    ensures value { result ≡ min (sealed_len plain_len) (2 ^ 64 - 1) }
    // A file with one stanza of a key has exactly `sealed_len` bytes, even if the result saturates.
    ensures key { (key salt stanza file_key nonce plain file : Bytes) → length salt ≡ salt_size
        → length file_key ≡ file_key_size → length nonce ≡ nonce_size → length plain ≡ plain_len
        → IsStanza (keyed_stanza key salt (record { 0 = file_key })) stanza
        → IsNewFile stanza file_key nonce plain file → length file ≡ sealed_len plain_len }
    // A file with one stanza of a passphrase is shorter.
    ensures pass { (pass salt stanza file_key nonce plain file : Bytes) (work : ℕ)
        → length salt ≡ salt_size → length file_key ≡ file_key_size → length nonce ≡ nonce_size
        → WorkFits work → length plain ≡ plain_len
        → IsStanza (pass_stanza pass work salt (record { 0 = file_key })) stanza
        → IsNewFile stanza file_key nonce plain file → length file < sealed_len plain_len }
{
    let chunks = plain_len.saturating_sub(1) / CHUNK_SIZE as u64 + 1;
    KEYED_START
        .saturating_add(plain_len)
        .saturating_add(TAG_SIZE as u64 * chunks)
}

/// Returns a sufficient buffer size for the plaintext of any file of this length, also for the
/// plaintext before a fault.
#[unsafe(no_mangle)]
pub extern "C" fn agefile_plain_len_at_most(file_len: u64) -> u64
    // The length of the texts of pieces that fill the file after 70 bytes of header and the nonce.
    ensures value { result ≡ plain_len_at_most file_len }
    // No verdict on a file of this length has a longer plaintext.
    ensures suffices { (answers : Answering) (b : Bytes) (verdict : Reading Fault)
        → length b ≡ file_len → IsVerdict limits answers b verdict → length verdict.plaintext
        ≤ result }
{
    opened_len(file_len.saturating_sub(SHORTEST_START))
}

/// The maximum total length of the texts of pieces that together have `sealed` bytes.
pub(crate) fn opened_len(sealed: u64) -> u64
    ensures { result ≡ opened_len sealed }
{
    CHUNK_SIZE as u64 * (sealed / SEALED_CHUNK_SIZE as u64)
        + (sealed % SEALED_CHUNK_SIZE as u64).saturating_sub(TAG_SIZE as u64)
}

/// Returns the length of the file of a plaintext of this length with a header of this length,
/// saturating at the largest `u64`.
#[tactic(auto, using(crate::proofs::HeadingLemmas::size_of))]
#[unsafe(no_mangle)]
pub extern "C" fn agefile_file_len(header_len: u64, plain_len: u64) -> u64
    // The result saturates at the largest u64.
    ensures value { result ≡ min (file_len header_len plain_len) (2 ^ 64 - 1) }
    // A file is as long as its header, a nonce, the plaintext, and a tag for each chunk together.
    ensures file { (k : FileKey) (header nonce plain : Bytes) → length header ≡ header_len
        → length nonce ≡ nonce_size → length plain ≡ plain_len
        → length (header ++ payload k nonce plain) ≡ file_len header_len plain_len }
{
    let chunks = plain_len.saturating_sub(1) / CHUNK_SIZE as u64 + 1;
    header_len
        .saturating_add(NONCE_SIZE as u64)
        .saturating_add(plain_len)
        .saturating_add(TAG_SIZE as u64 * chunks)
}
