//! Secrets, and how they are read from the bytes of a file.

ghost use Rattle.std.specs.Prelude.{◌≡◌, ◌≢◌, length, IfSome, IfNone};
ghost use Rattle.age_job.specs.Passphrase.{begins_with_mark, ends_in_line_end, passphrase_of};

/// The length of a seed in bytes: the file key, the nonce and the salt, 16 each.
pub const SEED_LEN: usize = 48;

/// The secret of a file.
#[derive(Drop)]
pub enum Secret {
    /// A passphrase, which is any bytes, and others to try after it. The others only open files.
    Passphrase(Vec<u8>, Vec<Vec<u8>>),
    /// One or more keys, each once.
    Keys(Vec<[u8; 32]>),
}

/// Removes one LF at the end of these bytes.
pub(crate) fn without_line_end(bytes: Vec<u8>) -> Vec<u8>
    ensures { result.items ≡ passphrase_of bytes.items }
{
    let mut passphrase = bytes;
    if passphrase.last() != Some(&b'\n') {
        return passphrase;
    }
    let _ = passphrase.pop();
    passphrase
}

/// Whether these bytes begin with a byte-order mark.
pub(crate) fn begins_with_mark(bytes: &[u8]) -> bool
    ensures { result ≡ begins_with_mark bytes.now }
{
    bytes.starts_with(b"\xef\xbb\xbf")
        || bytes.starts_with(b"\xff\xfe")
        || bytes.starts_with(b"\xfe\xff")
}

/// Whether these bytes end in CR or LF.
pub(crate) fn ends_in_line_end(bytes: &[u8]) -> bool
    ensures { result ≡ ends_in_line_end bytes.now }
{
    bytes.ends_with(b"\r") || bytes.ends_with(b"\n")
}

/// Converts bytes to an array of N bytes. Returns `None` for any other length.
pub fn exactly<const N: usize>(bytes: &[u8]) -> Option<[u8; N]>
    // The array has these bytes. So the bytes of a key file are a key exactly if there are 32.
    ensures some { IfSome result (λ array. array ≡ bytes.now) }
    // There are fewer or more bytes than the array has.
    ensures none { IfNone result (length bytes.now ≢ N) }
{
    if bytes.len() != N {
        return None;
    }
    let mut array = [0u8; N];
    array.copy_from_slice(bytes);
    Some(array)
}
