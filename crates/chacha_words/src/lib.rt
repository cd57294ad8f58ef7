//! Words that stand for chance, from the key stream of the ChaCha20 cipher (RFC 8439, with a 64-bit counter
//! and nonce 0). The stream of each number is that of `ChaCha20Rng` whose seed is the number's eight
//! little-endian bytes and 24 zeros; word k is the 32-bit words 2k and 2k + 1 of it, the low half first.
//! It stands in a crate of its own so that no other crate loads the cipher.
#![tactic(auto)]

ghost use Rattle.std.specs.Prelude.{◌≡◌};
ghost use Rattle.chacha_words.specs.Word.{chacha_word};

use rand_chacha::ChaCha20Rng;
use rand_core::SeedableRng;
use rand_core::utils::NextWord;
use tok_base::Words;

/// The words of the ChaCha20 stream of each seed.
#[derive(Clone, Copy, Debug)]
pub struct ChaChaWords;

impl Words for ChaChaWords {
    ghost word_at = { λ _ seed k. chacha_word seed k };

    fn word(&self, seed: u64, k: u64) -> u64 {
        let mut bytes = [0; 32];
        bytes[..8].copy_from_slice(&seed.to_le_bytes());
        let mut stream = ChaCha20Rng::from_seed(bytes);
        stream.set_word_pos(u128::from(k) * 2);
        let low = stream.next_word();
        let high = stream.next_word();
        u64::from(low) + u64::from(high) * (1 << 32)
    }
}
