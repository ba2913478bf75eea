//! Recipients and identities of a caller, and the results of calls with them.

use super::objects::{
    FixedIdentity, LabelledRecipient, LongRecipient, NoStanza, OutOfMemoryIdentity,
    RefusingRecipient, ScryptBesideAnother,
};
use super::{
    FRESH, Recipients, add, boxed, decrypted, done, encrypted, encrypted_within, key_recipients,
    one, only, passphrase_identities, passphrase_recipients, try_also,
};
use crate::vectors::SALT;
use age_file::{Fault, Limits};
use age_recipient::{FileKey, Identity, KeyRecipient, LabelSet, Labels, StanzaFault, Unwrapped};
use age_stream::Done;
use std::alloc::Global;
use std::cell::Cell;
use std::process::Abort;
use std::rc::Rc;

/// An identity that runs out of memory, and counts its calls in `asked`.
fn starved(rt: &impl Abort, alloc: Global, asked: &Rc<Cell<u32>>) -> Box<dyn Identity> {
    let asked = Rc::clone(asked).expect(rt, "memory");
    boxed(rt, alloc, OutOfMemoryIdentity { asked })
}

/// Decrypts with a caller's identity, then the right one, and then one that runs out of memory.
/// This last is not called, because one of the first two decides.
#[test]
fn callers_identity_decides_before_the_next(rt: HostRuntime) {
    let alloc = rt.alloc();
    let asked = Rc::new(alloc, Cell::new(0u32)).expect(&rt, "memory");
    let (_, file) = encrypted(alloc, b"abc", &passphrase_recipients(&rt, alloc));
    let seven = StanzaFault::Other(7);
    for (name, answer, expected) in [
        (
            "another key",
            Unwrapped::Key(FileKey([0; 16])),
            Err(Fault::BadMac),
        ),
        ("the file key", Unwrapped::Key(FRESH.file_key), done(3)),
        (
            "malformed",
            Unwrapped::Malformed(seven),
            Err(Fault::Malformed(seven)),
        ),
        ("wrong key", Unwrapped::Failed, done(3)),
        ("no own stanza", Unwrapped::NotMine, done(3)),
    ] {
        let mut identities = only(&rt, alloc, boxed(&rt, alloc, FixedIdentity { answer }));
        let mut right = passphrase_identities(&rt, alloc);
        identities.append(&mut right).expect(&rt, "memory");
        try_also(&rt, &mut identities, starved(&rt, alloc, &asked));
        let (met, plain) = decrypted(alloc, file.as_slice(), &identities);
        assert!(rt; met == expected, "{name}");
        let written = if expected.is_ok() {
            b"abc".as_slice()
        } else {
            b""
        };
        assert!(rt; plain.as_slice() == written, "{name}");
        assert!(rt; asked.get() == 0, "{name}");
    }
    let one_starved = only(&rt, alloc, starved(&rt, alloc, &asked));
    let (met, plain) = decrypted(alloc, file.as_slice(), &one_starved);
    assert!(rt; met == Err(Fault::OutOfMemory));
    assert!(rt; plain.is_empty());
    let (met, plain) = decrypted(alloc, file.as_slice(), &Vec::new(alloc));
    assert!(rt; met == Err(Fault::NoMatch));
    assert!(rt; plain.is_empty());
    // A passphrase stanza beside another is refused before any identity is called.
    let mixed =
        b"age-encryption.org/v1\n-> scrypt AAAAAAAAAAAAAAAAAAAAAA 10\nAAAAAAAAAAAAAAAAAAAAAAAAAAAAAAAAAAAAAAAAAAA\n-> x\n\n--- AAAAAAAAAAAAAAAAAAAAAAAAAAAAAAAAAAAAAAAAAAA\n";
    let (met, _) = decrypted(alloc, mixed, &one_starved);
    assert!(rt; met == Err(Fault::MixedPassphrase));
    assert_eq!(rt; asked.get(), 1);
}

/// A recipient whose stanza has one argument, of `count` letters.
fn recipients_of_length(rt: &impl Abort, alloc: Global, count: usize) -> Recipients {
    let mut text = String::new(alloc);
    for _ in 0..count {
        text.push('a').expect(rt, "memory");
    }
    one(rt, alloc, boxed(rt, alloc, LongRecipient { text }))
}

/// Refusals before the first byte is written, the largest header, and `NoStanza` beside a key.
#[test]
fn refused_recipients_write_nothing(rt: HostRuntime) {
    let alloc = rt.alloc();
    let Some(limits) = Limits::new(1_024, 1) else {
        unreachable!();
    };
    let none: Recipients = Vec::new(alloc);
    let mut mixed = passphrase_recipients(&rt, alloc);
    add(
        &rt,
        &mut mixed,
        boxed(&rt, alloc, KeyRecipient::new([3; 32], SALT)),
    );
    let mut refuses = key_recipients(&rt, alloc, 3);
    add(
        &rt,
        &mut refuses,
        boxed(&rt, alloc, RefusingRecipient { code: 7 }),
    );
    let mut silent = one(&rt, alloc, boxed(&rt, alloc, NoStanza));
    let pair = one(&rt, alloc, boxed(&rt, alloc, ScryptBesideAnother));
    let mut two_passphrases = passphrase_recipients(&rt, alloc);
    let mut other = passphrase_recipients(&rt, alloc);
    two_passphrases.append(&mut other).expect(&rt, "memory");
    for (name, recipients, fault) in [
        ("no recipient", &none, Fault::NoRecipients),
        ("recipient without a stanza", &silent, Fault::NoRecipients),
        (
            "passphrase and key",
            &mixed,
            Fault::IncompatibleRecipients(1),
        ),
        (
            "two passphrases",
            &two_passphrases,
            Fault::IncompatibleRecipients(1),
        ),
        (
            "scrypt stanza beside another",
            &pair,
            Fault::MixedPassphrase,
        ),
        ("refusing recipient", &refuses, Fault::Refused(1, 7)),
        (
            "header over the limit",
            &recipients_of_length(&rt, alloc, 950),
            Fault::HeaderTooLarge,
        ),
    ] {
        let (answer, out) = encrypted_within(alloc, b"", recipients, &limits);
        assert!(rt; answer == Err(fault), "{name}");
        assert!(rt; out.is_empty(), "{name}");
    }
    let (answer, out) = encrypted_within(
        alloc,
        b"",
        &recipients_of_length(&rt, alloc, 949),
        &limits,
    );
    assert!(rt; answer == done(0));
    assert_eq!(rt; out.len(), 1_024 + 32);
    add(
        &rt,
        &mut silent,
        boxed(&rt, alloc, KeyRecipient::new([3; 32], SALT)),
    );
    let (answer, out) = encrypted_within(alloc, b"", &silent, &limits);
    assert!(rt; answer == done(0));
    assert_eq!(rt; out.len(), 188);
}

/// Recipients with these labels; None stands for one that must be alone.
fn labelled(rt: &impl Abort, alloc: Global, all: &[Option<&[&str]>]) -> Recipients {
    let mut recipients: Recipients = Vec::new(alloc);
    for names in all {
        let labels = match names {
            Some(names) => Labels::Names(LabelSet::new(alloc, names).expect(rt, "memory")),
            None => Labels::Alone,
        };
        add(
            rt,
            &mut recipients,
            boxed(rt, alloc, LabelledRecipient { labels }),
        );
    }
    recipients
}

/// Two recipients go together exactly if neither is alone and their sets of names are equal.
#[test]
fn recipients_with_equal_labels_go_together(rt: HostRuntime) {
    let alloc = rt.alloc();
    let incompatible = |i| Err(Fault::IncompatibleRecipients(i));
    let lists: [(&str, &[Option<&[&str]>], Result<Done, Fault>); 5] = [
        (
            "one set",
            &[Some(&["a", "b"]), Some(&["b", "a", "a"])],
            done(0),
        ),
        (
            "third without a name",
            &[Some(&["a"]), Some(&["a"]), Some(&[])],
            incompatible(2),
        ),
        (
            "second with a name",
            &[Some(&[]), Some(&["a"]), Some(&["b"])],
            incompatible(1),
        ),
        ("alone", &[None], done(0)),
        (
            "one that stands alone beside another",
            &[Some(&[]), None],
            incompatible(1),
        ),
    ];
    for (name, labels, expected) in lists {
        let (answer, out) = encrypted(alloc, b"", &labelled(&rt, alloc, labels));
        assert!(rt; answer == expected, "{name}");
        assert!(rt; out.is_empty() == expected.is_err(), "{name}");
    }
}

/// Texts of faults that only a caller's lists of recipients and identities can cause.
#[test]
fn faults_of_callers_have_their_texts(rt: HostRuntime) {
    let alloc = rt.alloc();
    let rows = [
        (Fault::NoRecipients, "no recipients"),
        (Fault::Refused(1, 7), "recipient 1 refused: 7"),
    ];
    for (fault, text) in rows {
        let shown = format!(in alloc; "{fault}").expect(&rt, "memory");
        assert_eq!(rt; shown.as_str(), text);
    }
    let shown = format!(in alloc; "{}", StanzaFault::Other(7)).expect(&rt, "memory");
    assert_eq!(rt; shown.as_str(), "code 7");
}
