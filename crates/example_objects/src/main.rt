//! A program that depends only on `age_file`: it encrypts a text for its own recipient and decrypts
//! it with its own identity.
#![tactic(auto)]

mod objects;

use age_file::{
    Fault, FileKey, Fresh, Identity, Limits, MemSink, MemSource, Recipient, decrypt, encrypt,
};
use objects::{Held, Plug};
use std::alloc::Global;
use std::{io, str};

// A real caller must draw fresh bytes for each file.
const FRESH: Fresh = Fresh {
    file_key: FileKey([1; 16]),
    nonce: [2; 16],
};

fn main(rt: HostRuntime) -> io::Result<()> {
    match file_and_text(rt.alloc(), b"hello") {
        Ok((file, text)) => {
            println!(rt; "file: {} bytes", file.len())?;
            println!(rt;
                "text: {}",
                str::from_utf8(text.as_slice()).unwrap_or("no UTF-8")
            )
        }
        Err(fault) => println!(rt; "{fault}"),
    }
}

/// Encrypts a text, and returns the file and the text decrypted from it.
fn file_and_text(alloc: Global, text: &[u8]) -> Result<(Vec<u8>, Vec<u8>), Fault> {
    let key = FRESH.file_key;
    let recipient: Box<dyn Recipient> = Box::new(alloc, Plug)?;
    let identity: Box<dyn Identity> = Box::new(alloc, Held { key })?;
    let recipients = vec![in alloc; recipient]?;
    let identities = vec![in alloc; identity]?;
    encrypt_and_decrypt(alloc, text, recipients.as_slice(), identities.as_slice())
}

fn encrypt_and_decrypt(
    alloc: Global,
    text: &[u8],
    recipients: &[Box<dyn Recipient>],
    identities: &[Box<dyn Identity>],
) -> Result<(Vec<u8>, Vec<u8>), Fault> {
    let limits = &Limits::default();
    let (mut plain, mut file) = (MemSource::new(text), MemSink::new(Vec::new(alloc)));
    encrypt(alloc, &mut plain, &mut file, recipients, &FRESH, limits)?;
    let file = file.into_vec();
    let mut source = MemSource::new(file.as_slice());
    let mut back = MemSink::new(Vec::new(alloc));
    decrypt(alloc, &mut source, &mut back, identities, limits)?;
    let back = back.into_vec();
    Ok((file, back))
}
