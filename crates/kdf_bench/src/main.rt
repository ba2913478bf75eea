//! One scrypt key, for the benchmark: `kdf_bench LOG_N R P` derives 32 bytes and prints them.
//!
//! If the memory is refused, it reports that, and whether the output is unchanged. `bench/peers.py`
//! builds and times it.
#![tactic(auto)]

use age_kdf::{ScryptParams, scrypt};
use anyhow::{Context, Result};
use std::env;

const UNTOUCHED: [u8; 32] = [0xaa; 32];

fn number(words: &[String], index: usize) -> Result<u32> {
    let word = words.get(index).context("usage: kdf_bench LOG_N R P")?;
    word.parse::<u32>().context("LOG_N, R and P are numbers")
}

fn print_key(rt: &impl Print, key: &[u8]) -> Result<()> {
    for byte in key {
        print!(rt; "{byte:02x}")?;
    }
    println!(rt; "")?;
    Ok(())
}

fn main(rt: HostRuntime) -> Result<()> {
    let words: Vec<String> = env::args(&rt)?.collect(rt.alloc())?;
    let (log_n, r, p) = (number(&words, 1)?, number(&words, 2)?, number(&words, 3)?);
    let params = ScryptParams::new(log_n, r, p).context("parameters out of range")?;
    let mut key = UNTOUCHED;
    match scrypt(
        rt.alloc(),
        b"correct horse",
        b"battery staple",
        &params,
        &mut key,
    ) {
        Ok(()) => print_key(&rt, &key),
        Err(_) => {
            println!(rt; "memory refused, output unchanged: {}", key == UNTOUCHED)?;
            Ok(())
        }
    }
}
