//! Where the words that stand for chance come from.

ghost use Rattle.std.specs.Prelude.{◌≡◌, ℕ};
ghost use Rattle.tok_base.specs.Words.{fixed_word};

use sqlite_items::Items;
use std::marker::Model;

/// A sequence of words for each seed. It never changes.
pub trait Words {
    /// The word at each place of each seed's sequence: the seed comes first, then the place from 0.
    ghost word_at: { Self → ℕ → ℕ → ℕ };

    /// Word `k` of the seed's sequence. Takes no memory, and never fails.
    fn word(&self, seed: u64, k: u64) -> u64
        ensures { result ≡ word_at self.now seed k };
}

/// The same words over and over, for every seed. No words at all stand for zeros.
#[derive(Debug, Drop)]
pub struct FixedWords {
    words: Items<u64>,
}

impl Model for FixedWords {
    ghost use Rattle.std.specs.Prelude.{ℕ, List};

    ghost Value = { List ℕ };

    ghost view = { λ w. w.words };
}

impl FixedWords {
    /// These words, over and over.
    pub fn new(words: Items<u64>) -> FixedWords
        ensures { result ≡ words }
    {
        FixedWords { words }
    }
}

impl Words for FixedWords {
    ghost word_at = { λ words _ k. fixed_word words k };

    fn word(&self, _seed: u64, k: u64) -> u64 {
        let words = self.words.as_slice();
        if words.is_empty() {
            return 0;
        }
        words[(k % words.len() as u64) as usize]
    }
}
