//! How often words stand among specifiers.

ghost use Rattle.std.specs.Prelude.{◌≡◌, map};
ghost use Rattle.c_tree.specs.View.{view_keyword};
ghost use Rattle.c_rules.specs.Specifiers as rules;
ghost use Rattle.specifier_rules.specs.Counts.{counted};

use crate::words::type_word;
use c_tree::Keyword;

/// How often each word of which types are written stands among words.
#[derive(Clone, Copy)]
pub struct Counts {
    pub void: usize,
    pub boolean: usize,
    pub character: usize,
    pub short: usize,
    pub int: usize,
    pub long: usize,
    pub signed: usize,
    pub unsigned: usize,
}

impl Counts {
    pub fn of(words: &[Keyword]) -> Counts
        ensures { result ≡ counted (map view_keyword words.now) }
    {
        Counts {
            void: count_type_word(words, 1),
            boolean: count_type_word(words, 2),
            character: count_type_word(words, 3),
            short: count_type_word(words, 4),
            int: count_type_word(words, 5),
            long: count_type_word(words, 6),
            signed: count_type_word(words, 7),
            unsigned: count_type_word(words, 8),
        }
    }
}

/// How often the word of this number stands among words.
pub fn count_type_word(words: &[Keyword], number: u8) -> usize
    ensures { result ≡ rules.how_many (rules.is_word number) (map view_keyword words.now) }
{
    let mut count = 0;
    for word in words {
        if type_word(*word) == number {
            count += 1;
        }
    }
    count
}

/// How many storage classes stand among words.
pub fn count_storages(words: &[Keyword]) -> usize
    ensures { result ≡ rules.how_many rules.is_storage (map view_keyword words.now) }
{
    let mut count = 0;
    for word in words {
        if is_storage(*word) {
            count += 1;
        }
    }
    count
}

fn is_storage(word: Keyword) -> bool
    ensures { result ≡ rules.is_storage (view_keyword word) }
{
    match word {
        Keyword::Typedef => true,
        Keyword::Extern => true,
        Keyword::Static => true,
        Keyword::Auto => true,
        Keyword::Register => true,
        _ => false,
    }
}
