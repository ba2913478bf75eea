//! A command with its options.

/// The commands of the program.
#[derive(Clone, Copy, PartialEq, Eq)]
pub enum Command {
    /// Encrypts a plaintext to a file.
    Encrypt,
    /// Decrypts a file to its plaintext.
    Decrypt,
    /// Writes a file's header, or a table of it.
    Inspect,
    /// Decrypts a part of a file's plaintext.
    Range,
    /// Replaces a file's header by one for a new passphrase or new keys.
    Rewrap,
    /// Writes what is left of a damaged file.
    Salvage,
}

/// A command with its options. If the command lacks an option, its field has the default of that
/// option, or none.
#[derive(Drop)]
pub struct Job {
    pub command: Command,
    /// The file that holds the passphrase, or the first of several passphrases.
    pub pass: Option<String>,
    /// The files of the passphrases after the first. These passphrases only open age files.
    pub more_passes: Vec<String>,
    /// The file that holds the key of 32 bytes, or the first of several keys.
    pub key: Option<String>,
    /// The files of the keys after the first.
    pub more_keys: Vec<String>,
    /// The file that holds the new passphrase of `rewrap`.
    pub new_pass: Option<String>,
    /// The file that holds the new key of `rewrap`, 32 bytes, or the first of several new keys.
    pub new_key: Option<String>,
    /// The files of the new keys after the first.
    pub more_new_keys: Vec<String>,
    /// The work factor that `encrypt` and `rewrap` write, 1 to 30.
    pub work: u8,
    /// The file whose first 48 bytes are the file key, the nonce and the salt for `encrypt`.
    /// `rewrap` uses the salt alone.
    pub seed: String,
    /// The maximum work factor that `decrypt`, `range`, `rewrap` and `salvage` accept, 1 to 30.
    pub max_work: u8,
    /// The maximum size of a header in bytes, 1,024 to 16,777,216.
    pub max_header: usize,
    /// The file to write, or `None` for standard output.
    pub output: Option<String>,
    /// Whether to refuse to write to a file that exists.
    pub no_clobber: bool,
    /// Whether a new file is written, which replaces the file to write when the output is kept.
    pub atomic: bool,
    /// Whether `inspect` writes the header's own text instead of a table.
    pub raw: bool,
    /// The file that holds the file key under which `inspect` checks the header's MAC.
    pub file_key: Option<String>,
    /// The file to read, or `None` for standard input. `range` always has one.
    pub input: Option<String>,
    /// The offset in the plaintext at which `range` begins, in bytes, at most
    /// 9,223,372,036,854,775,807.
    pub at: u64,
    /// The maximum number of bytes that `range` writes, at most 9,223,372,036,854,775,807.
    pub len: u64,
    /// Whether a second line explains an error, and a terminal shows how much was read.
    pub verbose: bool,
}
