//! What was saved of a payload, and what was lost.
ghost use Rattle.std.specs.Prelude.{◌≡◌, [], ◌∷◌};
ghost use Rattle.age_stream.specs.Salvage.{KnownLosses, Reports, is_cut, is_whole, losses_by};
ghost use Rattle.age_stream.specs.Salvage.{padding};

/// What was saved of one piece of a payload.
#[derive(Clone, Copy, Debug, Drop, PartialEq, Eq)]
pub enum Saved {
    /// A chunk that is not marked as the last.
    Chunk,
    /// The last chunk.
    LastChunk,
    /// The last chunk, after which this many bytes of padding were removed.
    Padded(usize),
    /// A chunk that is marked as the last but cannot be it: more follows, or it is empty and others
    /// stand before it.
    Early,
    /// The piece does not open: zeros stand in its place.
    Zeros,
    /// The piece does not open, and has no text: it is at most as long as a tag, 16 bytes.
    Nothing,
}

impl Saved {
    /// The number of bytes of padding after the last chunk; 0 unless this is `Padded`.
    pub fn padding(self) -> usize
        ensures { result ≡ padding self }
    {
        match self {
            Saved::Padded(padding) => padding,
            _ => 0,
        }
    }
}

/// A chunk that was lost. Chunks are numbered from 0.
#[derive(Clone, Copy, Debug, Drop, PartialEq, Eq)]
pub struct LostChunk {
    /// The chunk's number.
    pub chunk: u128,
    /// The offset of its text in the plaintext.
    pub start: u128,
    /// The length of its text.
    pub len: usize,
}

/// How much was saved.
#[derive(Clone, Copy, Debug, Drop, PartialEq, Eq)]
pub struct Salvaged {
    /// The number of bytes written, zeros included.
    pub bytes: u128,
    /// The number of pieces.
    pub chunks: u128,
    /// The number of lost chunks.
    pub lost: u128,
    /// The number of the latest chunk that is `Saved::Early`, if there is one.
    pub early: Option<u128>,
    /// What was saved of the piece before the last; `Saved::Chunk` if there is none.
    pub before: Saved,
    /// What was saved of the last piece.
    pub last: Saved,
}

impl Salvaged {
    /// Whether no chunk is lost or early and the last piece is the last chunk: exactly then a
    /// reader finds no fault.
    pub fn is_whole(&self) -> bool
        ensures { result ≡ is_whole self.now }
    {
        match (self.last, self.early) {
            (Saved::LastChunk, None) => self.lost == 0,
            _ => false,
        }
    }

    /// Whether the payload is cut short: the last piece is `Chunk`; or it is `Nothing`, the start
    /// of a chunk, and the piece before it, if any, is `Chunk`. After `Early`, `Nothing` is bytes
    /// after the payload's end. If zeros stand for the last piece, or for the piece before
    /// `Nothing`, this is not known, and the result is false.
    pub fn is_cut(&self) -> bool
        ensures { result ≡ is_cut self.now }
    {
        match (self.last, self.before) {
            (Saved::Chunk, _) | (Saved::Nothing, Saved::Chunk) => true,
            _ => false,
        }
    }
}

/// Where lost chunks are reported.
pub trait Losses {
    // The chunks reported so far, if they are known to proofs.
    ghost lost: { Self → KnownLosses };

    /// Reports one more lost chunk.
    fn lose(&mut self, chunk: LostChunk)
        ensures { Reports (losses_by lost self.old self.new) (chunk ∷ []) };
}
