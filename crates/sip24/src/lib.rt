//! SipHash-2-4, a hash of bytes to 64 bits under a key of 16 bytes (Aumasson and Bernstein, "SipHash: a
//! fast short-input PRF", 2012).
//!
//! `sip24` hashes a whole message, and `Sip24` one that comes in pieces: `new`, an `update` for each
//! piece, `finish`. Both give `siphash` of specs/SipHash.antt, the publication's function of the key and
//! the whole list of bytes, wherever the message is cut. Nothing here takes memory.
#![tactic(auto)]

ghost use Rattle.std.specs.Prelude.{◌≡◌, flat_map};
ghost use Rattle.sip24.specs.Examples.{PublishedValues};
ghost use Rattle.sip24.specs.SipHash.{siphash};

mod hasher;
mod state;

pub use hasher::Sip24;

/// The SipHash-2-4 of `bytes` under `key`.
pub fn sip24(key: [u8; 16], bytes: &[u8]) -> u64
    ensures { result ≡ siphash key bytes.now }
{
    let mut hasher = Sip24::new(key);
    hasher.update(bytes);
    hasher.finish()
}

/// The SipHash-2-4 of all `pieces` in turn under `key`: the same for every cut of a message into pieces.
pub fn hash_pieces(key: [u8; 16], pieces: &[&[u8]]) -> u64
    ensures { result ≡ siphash key (flat_map (λ piece. piece.now) pieces.now) }
{
    let mut hasher = Sip24::new(key);
    for piece in pieces {
        hasher.update(piece);
    }
    hasher.finish()
}

/// The definition gives the published values.
pub fn published_values()
    ensures { PublishedValues }
{}
