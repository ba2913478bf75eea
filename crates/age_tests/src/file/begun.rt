//! Constructors of `age_file`, with only the fault as their error: a call such as `expect` cannot
//! take a `Result` whose value and error each hold a reference to the device.

use age_file::{
    Decryptor, Encryptor, Fault, Identity, Limits, RangeReader, ReadAt, Sink, Source, StreamReader,
    StreamWriter, open_ranges,
};
use std::alloc::Global;

pub(crate) fn begin_file<'a, W: Sink>(
    encryptor: Encryptor,
    alloc: Global,
    out: &'a mut W,
) -> Result<StreamWriter<'a, W>, Fault> {
    match encryptor.start(alloc, out) {
        Ok(writer) => Ok(writer),
        Err(refused) => Err(refused.fault()),
    }
}

pub(crate) fn begin_decryptor<'a, S: Source>(
    alloc: Global,
    input: &'a mut S,
) -> Result<Decryptor<'a, S>, Fault> {
    match Decryptor::new(alloc, input, &Limits::default()) {
        Ok(decryptor) => Ok(decryptor),
        Err(refused) => Err(refused.fault()),
    }
}

pub(crate) fn unlocked<'a, S: Source>(
    decryptor: Decryptor<'a, S>,
    alloc: Global,
    identities: &[Box<dyn Identity>],
) -> Result<StreamReader<'a, S>, Fault> {
    match decryptor.unlock(alloc, identities) {
        Ok(reader) => Ok(reader),
        Err(refused) => Err(refused.fault()),
    }
}

pub(crate) fn opened<'a, D: ReadAt>(
    alloc: Global,
    dev: &'a mut D,
    identities: &[Box<dyn Identity>],
    limits: &Limits,
) -> Result<RangeReader<'a, D>, Fault> {
    match open_ranges(alloc, dev, identities, limits) {
        Ok(reader) => Ok(reader),
        Err(refused) => Err(refused.fault()),
    }
}
