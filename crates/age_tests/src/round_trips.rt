//! These round trips succeed if memory suffices and the pair can be made, which no contract says.

use age_file::{FileKey, Fresh, Limits, PassError};
use round_trip::{TripError, key_there_and_back, pass_there_and_back};

const FRESH: Fresh = Fresh {
    file_key: FileKey([1; 16]),
    nonce: [2; 16],
};

fn is_hello(back: &Result<Vec<u8>, TripError>) -> bool {
    match back {
        Ok(text) => text.as_slice() == b"hello".as_slice(),
        Err(_) => false,
    }
}

#[test]
fn passphrase_round_trip_returns_the_plaintext(rt: HostRuntime) {
    let limits = Limits::default();
    let back = pass_there_and_back(
        rt.alloc(),
        b"pass",
        [3; 16],
        1,
        1,
        b"hello",
        &FRESH,
        &limits,
    );
    assert!(rt; is_hello(&back));
    let none = pass_there_and_back(
        rt.alloc(),
        b"pass",
        [3; 16],
        2,
        1,
        b"hello",
        &FRESH,
        &limits,
    );
    assert!(rt; matches!(&none, Err(TripError::Unpaired(PassError::WorkFactor))));
}

#[test]
fn key_round_trip_returns_the_plaintext(rt: HostRuntime) {
    let limits = Limits::default();
    let back = key_there_and_back(rt.alloc(), [4; 32], [3; 16], b"hello", &FRESH, &limits);
    assert!(rt; is_hello(&back));
}
