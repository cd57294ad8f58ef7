//! Values of SipHash-2-4 under the key of the bytes 0 to 15, of messages that are the bytes 0, 1, 2 ..
//!
//! Those that are wanted are of the authors' reference code, as they publish them: written out by
//! `std::hash::SipHasher` of rustc 1.95.0, and the same by a Python program after the publication.

use sip24::{Sip24, hash_pieces, sip24};
use std::alloc::{AllocError, Global};

/// The key of every hash here.
pub const KEY: [u8; 16] = [0, 1, 2, 3, 4, 5, 6, 7, 8, 9, 10, 11, 12, 13, 14, 15];

/// The bytes 0 to 63.
fn counting() -> [u8; 64] {
    let mut bytes = [0; 64];
    for i in 0..64 {
        bytes[i] = i as u8;
    }
    bytes
}

/// So many bytes, at once and one by one.
pub fn of_count(alloc: Global, given: &str) -> Result<String, AllocError> {
    let bytes = counting();
    let count = given.parse::<usize>().unwrap_or(0).min(64);
    let whole = sip24(KEY, &bytes[..count]);
    let mut hasher = Sip24::new(KEY);
    for byte in &bytes[..count] {
        hasher.update(&[*byte]);
    }
    let single = hasher.finish();
    format!(in alloc; "{whole:016x} {single:016x}")
}

/// Fifteen bytes in two pieces, the first of so many, and with an empty piece between the two.
pub fn of_two(alloc: Global, given: &str) -> Result<String, AllocError> {
    let bytes = counting();
    let count = given.parse::<usize>().unwrap_or(0).min(15);
    let (first, second) = (&bytes[..count], &bytes[count..15]);
    let mut hasher = Sip24::new(KEY);
    hasher.update(first);
    hasher.update(second);
    let two = hasher.finish();
    let three = hash_pieces(KEY, &[first, &[], second]);
    format!(in alloc; "{two:016x} {three:016x}")
}
