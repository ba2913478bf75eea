//! The offset of a file's first sealed chunk, and the key of its chunks.

ghost use Rattle.agefile.specs.Giving.{one_answer};
ghost use Rattle.agefile.specs.Unlock.{FindsStart};

use crate::unlocking::key_for;
use age_file::{Fault, Identity};
use age_stream::{NONCE_SIZE, payload_key};
use std::alloc::Global;

/// The offset of a file's first sealed chunk, and the key of its chunks.
#[derive(Clone, Copy)]
pub(crate) struct Start {
    pub(crate) first: u64,
    pub(crate) key: [u8; 32],
}

/// Finds the start of the payload of a file with this front, for one identity.
pub(crate) fn start_for(
    alloc: Global,
    front: &[u8],
    identity: Box<dyn Identity>,
) -> Result<Start, Fault>
    ensures { FindsStart (one_answer (meaning identity)) front.now result }
{
    let found = key_for(alloc, front, identity)?;
    let key = found.key;
    let (_, rest) = front.split_at(found.header_len as usize);
    if rest.len() < NONCE_SIZE {
        return Err(Fault::NonceTruncated);
    }
    let mut nonce = [0; NONCE_SIZE];
    nonce.copy_from_slice(&rest[..NONCE_SIZE]);
    Ok(Start {
        first: (front.len() - rest.len() + NONCE_SIZE) as u64,
        key: payload_key(&key, &nonce),
    })
}
