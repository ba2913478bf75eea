//! Chunks that are lost one after another.
ghost use Rattle.std.specs.Prelude.{◌≡◌, ◌<◌, ◌+◌, ◌^◌, ◌∷◌, ◌++◌, List, option_to_list};
ghost use Rattle.age_stream.specs.Runs.{runs_after, runs};

use crate::salvaged::LostChunk;

/// Lost chunks with consecutive numbers, and the offsets of their bytes in the plaintext. Chunks
/// and bytes are numbered from 0.
#[derive(Clone, Copy, Debug, Drop, PartialEq, Eq)]
pub struct LostRun {
    /// The first chunk.
    pub first: u128,
    /// The last chunk.
    pub last: u128,
    /// The offset of the first byte.
    pub start: u128,
    /// The offset after the last byte.
    pub end: u128,
}

/// Adds a lost chunk to the run, if it follows the run's last chunk. Otherwise begins a new run
/// with it, and returns the old run, if there was one.
pub fn join_lost(run: &mut Option<LostRun>, chunk: LostChunk) -> Option<LostRun>
    requires { chunk.start + chunk.len < 2 ^ 128 }
    // Whatever chunks follow: the runs of `run.old`, this chunk and those chunks are the result, if
    // it is a run, and then the runs of `run.new` and those chunks.
    ensures { (rest : List LostChunk) → runs_after run.old (runs (chunk ∷ rest))
        ≡ option_to_list result ++ runs_after run.new (runs rest) }
{
    let end = chunk.start + chunk.len as u128;
    let alone = LostRun {
        first: chunk.chunk,
        last: chunk.chunk,
        start: chunk.start,
        end,
    };
    match *run {
        Some(before) if chunk.chunk > 0 && chunk.chunk - 1 == before.last => {
            *run = Some(LostRun {
                first: before.first,
                last: chunk.chunk,
                start: before.start,
                end,
            });
            None
        }
        before => {
            *run = Some(alone);
            before
        }
    }
}
