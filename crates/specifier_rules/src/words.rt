//! The keywords among specifiers.

ghost use Rattle.std.specs.Prelude.{◌≡◌, ◌<◌, map};
ghost use Rattle.c_tree.specs.View.{view_keyword};
ghost use Rattle.c_rules.specs.Specifiers as rules;

use c_tree::Keyword;

/// Whether `typedef` is among the words.
pub fn has_typedef(words: &[Keyword]) -> bool
    ensures { result ≡ rules.has rules.is_typedef (map view_keyword words.now) }
{
    for word in words {
        if is_typedef(*word) {
            return true;
        }
    }
    false
}

fn is_typedef(word: Keyword) -> bool
    ensures { result ≡ rules.is_typedef (view_keyword word) }
{
    match word {
        Keyword::Typedef => true,
        _ => false,
    }
}

/// Whether `extern` is among the words.
pub fn has_extern(words: &[Keyword]) -> bool
    ensures { result ≡ rules.has rules.is_extern (map view_keyword words.now) }
{
    for word in words {
        if is_extern(*word) {
            return true;
        }
    }
    false
}

fn is_extern(word: Keyword) -> bool
    ensures { result ≡ rules.is_extern (view_keyword word) }
{
    match word {
        Keyword::Extern => true,
        _ => false,
    }
}

/// Whether `static` is among the words.
pub fn has_static(words: &[Keyword]) -> bool
    ensures { result ≡ rules.has rules.is_static (map view_keyword words.now) }
{
    for word in words {
        if is_static(*word) {
            return true;
        }
    }
    false
}

fn is_static(word: Keyword) -> bool
    ensures { result ≡ rules.is_static (view_keyword word) }
{
    match word {
        Keyword::Static => true,
        _ => false,
    }
}

/// Whether one of the words writes a type.
pub fn has_type_word(words: &[Keyword]) -> bool
    ensures { result ≡ rules.has rules.is_type_word (map view_keyword words.now) }
{
    for word in words {
        if is_type_word(*word) {
            return true;
        }
    }
    false
}

fn is_type_word(word: Keyword) -> bool
    ensures { result ≡ rules.is_type_word (view_keyword word) }
{
    0 < type_word(word)
}

/// The number of a word that writes types, from 1 to 8; another has 0.
pub fn type_word(word: Keyword) -> u8
    ensures { result ≡ rules.type_word (view_keyword word) }
{
    match word {
        Keyword::Void => 1,
        Keyword::Bool => 2,
        Keyword::Char => 3,
        Keyword::Short => 4,
        Keyword::Int => 5,
        Keyword::Long => 6,
        Keyword::Signed => 7,
        Keyword::Unsigned => 8,
        _ => 0,
    }
}

/// The qualifiers among the words: const is 1, volatile 2, restrict 4.
pub fn qualifiers_in(words: &[Keyword]) -> u8
    ensures is { result ≡ rules.qualifiers_in (map view_keyword words.now) }
    ensures small { result < 8 }
{
    let mut met = 0;
    for word in words {
        met |= qualifier(*word);
    }
    met
}

fn qualifier(word: Keyword) -> u8
    ensures is { result ≡ rules.qualifier (view_keyword word) }
    ensures small { result < 8 }
{
    match word {
        Keyword::Const => 1,
        Keyword::Volatile => 2,
        Keyword::Restrict => 4,
        _ => 0,
    }
}
