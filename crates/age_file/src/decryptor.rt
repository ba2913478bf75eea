//! A file that is read in steps: its header, its key, then its payload chunk by chunk.

ghost use Rattle.std.specs.Prelude.{◌≡◌, map, Ok, Err, IfOk, IfErr};
ghost use Rattle.age_stream.specs.Reader.{opener_of, source_of};
ghost use Rattle.age_stream.specs.Writer.{device_of, fault_of};
ghost use Rattle.age_file.specs.Verdict.{MayLackMemory, answers_by, header_key};

use crate::fault::Fault;
use crate::inspecting::inspect;
use crate::limits::Limits;
use crate::unlocking::{is_mixed, unlock_header};
use age_header::{Header, Source, Stanza};
use age_recipient::Identity;
use age_stream::{ChunkBuf, ChunkOpener, Refused, StreamReader};
use std::alloc::Global;

/// A file whose header was read. The caller's source is at the first byte after the header.
/// `unlock` consumes the `Decryptor`.
#[derive(Drop)]
pub struct Decryptor<'a, S, H = Header> {
    input: &'a mut S,
    header: H,
    limits: Limits,
}

impl<'a, S: Source> Decryptor<'a, S> {
    ghost use Rattle.age_file.specs.States.{StartsDecryptor, StartsUnder};
    ghost use Rattle.age_file.specs.States.{header_of, input_of, limits_of};

    /// Makes the `Decryptor` of this header. The source must be at the first byte after it.
    fn over(input: &'a mut S, header: Header, limits: &Limits) -> Decryptor<'a, S>
        ensures same_reference { (input_of result).ghost_name ≡ input.entry.ghost_name }
        ensures unchanged { (input_of result).now ≡ input.old }
        ensures header { header_of result ≡ header }
        ensures limits { limits_of result ≡ limits.now }
    {
        Decryptor {
            input,
            header,
            limits: *limits,
        }
    }

    /// Reads the header of a file (C2SP `age.md`), and exactly the header's bytes from the source.
    /// Does not verify the MAC. An error holds the source.
    ///
    /// # Errors
    /// Those of `inspect`, then `MixedPassphrase` if a `scrypt` stanza is not alone.
    pub fn new(
        alloc: Global,
        input: &'a mut S,
        limits: &Limits,
    ) -> Result<Decryptor<'a, S>, Refused<'a, S, Fault>>
        ensures same_reference { IfOk result
            (λ d. (input_of d).ghost_name ≡ input.entry.ghost_name) }
        // The `Decryptor` holds the header of `inspect`, with no `scrypt` stanza beside another.
        ensures starts { IfOk result (λ d. StartsDecryptor S.to_come S.gave S.failed limits.now
            input.old (input_of d).now (Ok (header_of d))) }
        // The `Decryptor` keeps the limits.
        ensures limits { IfOk result (λ d. limits_of d ≡ limits.now) }
        ensures handed_back { IfErr result
            (λ refused. (device_of refused).ghost_name ≡ input.entry.ghost_name) }
        // The fault is that of `inspect`, or `MixedPassphrase`.
        ensures refuses { IfErr result (λ refused. StartsDecryptor S.to_come S.gave S.failed
            limits.now input.old (device_of refused).now (Err (fault_of refused))) }
    {
        let header = match inspect(alloc, input, limits) {
            Ok(header) => header,
            Err(fault) => return Err(Refused::of(input, fault)),
        };
        if is_mixed(header.stanzas()) {
            return Err(Refused::of(input, Fault::MixedPassphrase));
        }
        Ok(Decryptor::over(input, header, limits))
    }

    /// The header's stanzas, in order.
    pub fn stanzas(&self) -> &[Stanza]
        ensures { result.now ≡ (header_of self.now).stanzas }
    {
        self.header.stanzas()
    }

    /// Finds the file key, verifies the header's MAC under it, reads the nonce, and returns a
    /// reader of the payload. An error holds the source.
    ///
    /// # Errors
    /// `NoMatch`, `WrongKey`, `Malformed`, as for `age_recipient::unlock`; `BadMac`; `OutOfMemory`
    /// if an allocation was refused or an identity returned it. On these nothing was read. Then
    /// `NonceTruncated` if the source returns fewer than 16 bytes, and `Read` if it failed.
    pub fn unlock(
        self,
        alloc: Global,
        identities: &[Box<dyn Identity>],
    ) -> Result<StreamReader<'a, S>, Refused<'a, S, Fault>>
        ensures same_reference { IfOk result
            (λ reader. (source_of reader).ghost_name ≡ (input_of self.entry).ghost_name) }
        // The reader is before piece 0, under the key that the identities choose; at most 16 bytes
        // were read.
        ensures starts { IfOk result
            (λ reader. StartsUnder S.to_come S.gave S.failed (limits_of self.entry)
            (header_key (answers_by identities.now (λ i s. meaning i s)) (header_of self.entry))
            (input_of self.entry).now (source_of reader).now (Ok (opener_of reader))) }
        ensures handed_back { IfErr result
            (λ refused. (device_of refused).ghost_name ≡ (input_of self.entry).ghost_name) }
        // The fault is that of `unlock_header`, that of a nonce that was not read, or out of
        // memory.
        ensures misses { IfErr result
            (λ refused. StartsUnder S.to_come S.gave S.failed (limits_of self.entry)
            (header_key (answers_by identities.now (λ i s. meaning i s)) (header_of self.entry))
            (input_of self.entry).now (device_of refused).now (Err (fault_of refused))) }
        // Returns `OutOfMemory` only if an identity may run out of memory and no identity before
        // it decides, or if the identities choose a key.
        ensures memory { IfErr result (λ refused. fault_of refused ≡ Fault.OutOfMemory
            → MayLackMemory
            (answers_by identities.now (λ i s. meaning i s) (header_of self.entry).stanzas)
            (map (λ i. may_run_out i (header_of self.entry).stanzas) identities.now)) }
    {
        let Decryptor {
            input,
            header,
            limits,
        } = self;
        let key = match unlock_header(alloc, identities, &header) {
            Ok(key) => key,
            Err(fault) => return Err(Refused::of(input, fault)),
        };
        let Ok(buf) = ChunkBuf::new(alloc) else {
            return Err(Refused::of(input, Fault::OutOfMemory));
        };
        match ChunkOpener::start(&key, input, limits.max_chunks(), buf) {
            Ok(opener) => Ok(StreamReader::over(input, opener)),
            Err(fault) => Err(Refused::of(input, Fault::from(fault))),
        }
    }
}
