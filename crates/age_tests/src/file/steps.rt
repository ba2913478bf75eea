//! Files that are written and read in steps.

use super::begun::{begin_decryptor, begin_file, unlocked};
use super::{FRESH, encrypted, key_identities, key_recipients};
use age_file::{Encryptor, Fault, Limits};
use age_header::{MemSink, MemSource};

/// Steps write the file that `encrypt` writes, read its plaintext back, and refuse another key.
#[test]
fn steps_write_and_read_the_same_file(rt: HostRuntime) {
    let alloc = rt.alloc();
    let limits = Limits::default();
    let recipients = key_recipients(&rt, alloc, 3);
    let plain = vec![in alloc; 7u8; 65_537].expect(&rt, "memory");
    let (_, file) = encrypted(alloc, plain.as_slice(), &recipients);
    let encryptor = Encryptor::new(alloc, recipients.as_slice(), &FRESH, &limits).expect(
        &rt, "no fault",
    );
    let mut sink = MemSink::new(Vec::new(alloc));
    let mut writer = begin_file(encryptor, alloc, &mut sink).expect(&rt, "no fault");
    let piece = writer.write_piece(plain.as_slice());
    let done = writer.finish();
    assert!(rt; piece.is_ok() && done.is_ok_and(|done| done.chunks == 2));
    assert!(rt; sink.into_vec() == file);
    let mut source = MemSource::new(file.as_slice());
    let decryptor = begin_decryptor(alloc, &mut source).expect(&rt, "no fault");
    assert_eq!(rt; decryptor.stanzas().len(), 1);
    let mut reader = unlocked(decryptor, alloc, key_identities(&rt, alloc, 3).as_slice()).expect(
        &rt, "no fault",
    );
    let mut text = Vec::new(alloc);
    for _ in 0..3 {
        if let Some(chunk) = reader.next_chunk().expect(&rt, "no fault") {
            text.extend_from_slice(chunk).expect(&rt, "memory");
        }
    }
    assert!(rt; text == plain);
    let mut source = MemSource::new(file.as_slice());
    let decryptor = begin_decryptor(alloc, &mut source).expect(&rt, "no fault");
    let other = unlocked(decryptor, alloc, key_identities(&rt, alloc, 4).as_slice());
    assert!(rt; matches!(&other, Err(Fault::WrongKey)));
}
