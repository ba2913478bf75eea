//! Parts of messages: the roles and names of files, numbers of bytes, and escaped texts.

ghost use Rattle.std.specs.Prelude.{◌≡◌, Some};
ghost use Rattle.std.specs.Fmt.{WritesOnOk};
ghost use Rattle.age_job.specs.Names.{directs_writing, escaped_name, escaped_char};
ghost use Rattle.age_job.specs.Refusal.{may_be_replaced};
ghost use Rattle.age_job.specs.Texts.{role_text, role_words};

use crate::job::Command;
use std::fmt;
use std::fmt::Write;

/// The role of a file in a job.
#[derive(Clone, Copy, PartialEq, Eq)]
pub enum Role {
    Input,
    Passphrase,
    Key,
    NewPassphrase,
    NewKey,
    Seed,
    FileKey,
}

impl Role {
    /// Returns the name of the role, without an article.
    pub fn words(self) -> &'static str
        ensures { result.now ≡ role_words self }
    {
        match self {
            Role::Input => "IN",
            Role::Passphrase => "passphrase file",
            Role::Key => "key file",
            Role::NewPassphrase => "new passphrase file",
            Role::NewKey => "new key file",
            Role::Seed => "seed file",
            Role::FileKey => "file key file",
        }
    }

    /// Whether the new OUT of this command may replace the file in this role. A secret must not be
    /// lost, nor, with `salvage`, the parts of IN that were not saved.
    pub(crate) fn may_be_replaced(self, command: Command) -> bool
        ensures { result ≡ may_be_replaced command self }
    {
        match self {
            Role::Input => command != Command::Salvage,
            Role::Passphrase | Role::Key | Role::Seed | Role::FileKey => false,
            Role::NewPassphrase | Role::NewKey => false,
        }
    }
}

impl fmt::Display for Role {
    ghost output = { λ role. Some (role_text role) };

    fn fmt<W: fmt::Write>(&self, f: &mut fmt::Formatter<W>) -> fmt::Result {
        if *self != Role::Input {
            f.write_str("the ")?;
        }
        f.write_str(self.words())
    }
}

/// A file's name. Control characters, 0 to 31 and 127 to 159, are printed as escapes, so that a
/// message stays on one line and no escape sequence reaches the terminal. So are characters that
/// set the direction of writing, so that a name is shown in its own order. Backslashes are not
/// escaped.
#[derive(Clone, Copy)]
pub struct Name<'a>(pub &'a str);

impl fmt::Display for Name<'_> {
    ghost output = { λ name. Some (escaped_name name.0.now) };

    fn fmt<W: fmt::Write>(&self, f: &mut fmt::Formatter<W>) -> fmt::Result {
        write_escaped(self.0, f)
    }
}

/// A number of bytes, in words.
#[derive(Clone, Copy)]
pub struct Bytes(pub u128);

impl fmt::Display for Bytes {
    fn fmt<W: fmt::Write>(&self, f: &mut fmt::Formatter<W>) -> fmt::Result {
        match self.0 {
            1 => f.write_str("1 byte"),
            n => write!(f, "{n} bytes"),
        }
    }
}

fn write_escaped<W: fmt::Write>(text: &str, f: &mut fmt::Formatter<W>) -> fmt::Result
    ensures { WritesOnOk W.write_str_gives f.old result (escaped_name text.now) f.new }
{
    for c in text.chars() {
        write_char(c, f)?;
    }
    Ok(())
}

/// Writes a character, or its escape.
fn write_char<W: fmt::Write>(c: char, f: &mut fmt::Formatter<W>) -> fmt::Result
    ensures { WritesOnOk W.write_str_gives f.old result (escaped_char c) f.new }
{
    let code = c as u32;
    match c {
        '\n' => f.write_str("\\n"),
        '\r' => f.write_str("\\r"),
        '\t' => f.write_str("\\t"),
        _ if code < 16 => write!(f, "\\x0{code:x}"),
        _ if c.is_control() => write!(f, "\\x{code:x}"),
        _ if directs_writing(code) => write!(f, "\\u{{{code:x}}}"),
        _ => f.write_char(c),
    }
}

/// Whether this is the code of a directional formatting character (Unicode Standard Annex 9).
fn directs_writing(code: u32) -> bool
    ensures { result ≡ directs_writing code }
{
    matches!(code, 0x61c | 0x200e | 0x200f | 0x202a..=0x202e | 0x2066..=0x2069)
}

/// A text of several lines that quotes the command line. Control characters except LF, and
/// characters that set the direction of writing, are printed as escapes.
#[derive(Drop)]
pub struct Lines<'a, D>(pub &'a D);

impl<D: fmt::Display> fmt::Display for Lines<'_, D> {
    fn fmt<W: fmt::Write>(&self, f: &mut fmt::Formatter<W>) -> fmt::Result {
        let text = self.0;
        write!(Escaping { f }, "{text}")
    }
}

/// A writer that escapes what `Lines` escapes.
#[derive(Drop)]
struct Escaping<'a, W> {
    f: &'a mut fmt::Formatter<W>,
}

impl<W: fmt::Write> fmt::Write for Escaping<'_, W> {
    fn write_str(&mut self, text: &str) -> fmt::Result {
        for c in text.chars() {
            if c == '\n' {
                self.f.write_char(c)?;
            } else {
                write_char(c, self.f)?;
            }
        }
        Ok(())
    }
}
