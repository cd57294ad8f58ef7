//! The type that words write, in whatever order (6.7.2, paragraph 2).

ghost use Rattle.std.specs.Prelude.{◌≡◌, map, option_map};
ghost use Rattle.c_tree.specs.View.{view_keyword};
ghost use Rattle.c_rules.specs.Specifiers as rules;
ghost use Rattle.specifier_rules.specs.Counts.{agrees, agrees_front, agrees_back};
ghost use Rattle.specifier_rules.specs.Written.{basic_type, written_by, written_chars, written_shorts, written_ints, written_longs, written_long_longs};

use crate::counts::{Counts, count_type_word};
use c_tree::Keyword;
use num_ops::IntKind;

/// A type that words write.
#[derive(Clone, Copy)]
pub enum Basic {
    Void,
    Int(IntKind),
}

fn agrees_front(counts: Counts, row: &[Keyword]) -> bool
    ensures { result ≡ agrees_front counts (map view_keyword row.now) }
{
    counts.void == count_type_word(row, 1)
        && counts.boolean == count_type_word(row, 2)
        && counts.character == count_type_word(row, 3)
        && counts.short == count_type_word(row, 4)
}

fn agrees_back(counts: Counts, row: &[Keyword]) -> bool
    ensures { result ≡ agrees_back counts (map view_keyword row.now) }
{
    counts.int == count_type_word(row, 5)
        && counts.long == count_type_word(row, 6)
        && counts.signed == count_type_word(row, 7)
        && counts.unsigned == count_type_word(row, 8)
}

/// Whether the words of a row stand there, each as often as in the row.
#[tactic(auto, unfolding(crate::specs::Counts::agrees))]
fn agrees(counts: Counts, row: &[Keyword]) -> bool
    ensures { result ≡ agrees counts (map view_keyword row.now) }
{
    agrees_front(counts, row) && agrees_back(counts, row)
}

fn written_chars(counts: Counts) -> Option<Basic>
    ensures { option_map basic_type result ≡ written_chars (agrees counts) }
{
    if agrees(counts, &[Keyword::Void]) {
        return Some(Basic::Void);
    }
    if agrees(counts, &[Keyword::Bool]) {
        return Some(Basic::Int(IntKind::Bool));
    }
    if agrees(counts, &[Keyword::Char]) {
        return Some(Basic::Int(IntKind::Char));
    }
    if agrees(counts, &[Keyword::Signed, Keyword::Char]) {
        return Some(Basic::Int(IntKind::SChar));
    }
    if agrees(counts, &[Keyword::Unsigned, Keyword::Char]) {
        return Some(Basic::Int(IntKind::UChar));
    }
    None
}

fn written_shorts(counts: Counts) -> Option<Basic>
    ensures { option_map basic_type result ≡ written_shorts (agrees counts) }
{
    if agrees(counts, &[Keyword::Short]) {
        return Some(Basic::Int(IntKind::Short));
    }
    if agrees(counts, &[Keyword::Signed, Keyword::Short]) {
        return Some(Basic::Int(IntKind::Short));
    }
    if agrees(counts, &[Keyword::Short, Keyword::Int]) {
        return Some(Basic::Int(IntKind::Short));
    }
    if agrees(counts, &[Keyword::Signed, Keyword::Short, Keyword::Int]) {
        return Some(Basic::Int(IntKind::Short));
    }
    if agrees(counts, &[Keyword::Unsigned, Keyword::Short]) {
        return Some(Basic::Int(IntKind::UShort));
    }
    if agrees(counts, &[Keyword::Unsigned, Keyword::Short, Keyword::Int]) {
        return Some(Basic::Int(IntKind::UShort));
    }
    None
}

fn written_ints(counts: Counts) -> Option<Basic>
    ensures { option_map basic_type result ≡ written_ints (agrees counts) }
{
    if agrees(counts, &[Keyword::Int]) {
        return Some(Basic::Int(IntKind::Int));
    }
    if agrees(counts, &[Keyword::Signed]) {
        return Some(Basic::Int(IntKind::Int));
    }
    if agrees(counts, &[Keyword::Signed, Keyword::Int]) {
        return Some(Basic::Int(IntKind::Int));
    }
    if agrees(counts, &[Keyword::Unsigned]) {
        return Some(Basic::Int(IntKind::UInt));
    }
    if agrees(counts, &[Keyword::Unsigned, Keyword::Int]) {
        return Some(Basic::Int(IntKind::UInt));
    }
    None
}

fn written_longs(counts: Counts) -> Option<Basic>
    ensures { option_map basic_type result ≡ written_longs (agrees counts) }
{
    if agrees(counts, &[Keyword::Long]) {
        return Some(Basic::Int(IntKind::Long));
    }
    if agrees(counts, &[Keyword::Signed, Keyword::Long]) {
        return Some(Basic::Int(IntKind::Long));
    }
    if agrees(counts, &[Keyword::Long, Keyword::Int]) {
        return Some(Basic::Int(IntKind::Long));
    }
    if agrees(counts, &[Keyword::Signed, Keyword::Long, Keyword::Int]) {
        return Some(Basic::Int(IntKind::Long));
    }
    if agrees(counts, &[Keyword::Unsigned, Keyword::Long]) {
        return Some(Basic::Int(IntKind::ULong));
    }
    if agrees(counts, &[Keyword::Unsigned, Keyword::Long, Keyword::Int]) {
        return Some(Basic::Int(IntKind::ULong));
    }
    None
}

fn written_long_longs(counts: Counts) -> Option<Basic>
    ensures { option_map basic_type result ≡ written_long_longs (agrees counts) }
{
    if agrees(counts, &[Keyword::Long, Keyword::Long]) {
        return Some(Basic::Int(IntKind::LongLong));
    }
    if agrees(counts, &[Keyword::Signed, Keyword::Long, Keyword::Long]) {
        return Some(Basic::Int(IntKind::LongLong));
    }
    if agrees(counts, &[Keyword::Long, Keyword::Long, Keyword::Int]) {
        return Some(Basic::Int(IntKind::LongLong));
    }
    if agrees(
        counts,
        &[Keyword::Signed, Keyword::Long, Keyword::Long, Keyword::Int],
    ) {
        return Some(Basic::Int(IntKind::LongLong));
    }
    if agrees(counts, &[Keyword::Unsigned, Keyword::Long, Keyword::Long]) {
        return Some(Basic::Int(IntKind::ULongLong));
    }
    if agrees(
        counts,
        &[
            Keyword::Unsigned,
            Keyword::Long,
            Keyword::Long,
            Keyword::Int,
        ],
    ) {
        return Some(Basic::Int(IntKind::ULongLong));
    }
    None
}

fn written_by(counts: Counts) -> Option<Basic>
    ensures { option_map basic_type result ≡ written_by (agrees counts) }
{
    if let Some(basic) = written_chars(counts) {
        return Some(basic);
    }
    if let Some(basic) = written_shorts(counts) {
        return Some(basic);
    }
    if let Some(basic) = written_ints(counts) {
        return Some(basic);
    }
    if let Some(basic) = written_longs(counts) {
        return Some(basic);
    }
    written_long_longs(counts)
}

/// The type that words write, those aside that write none.
#[tactic(auto, using(crate::proofs::Rows::written_is))]
pub fn written(words: &[Keyword]) -> Option<Basic>
    ensures { option_map basic_type result ≡ rules.written_in (map view_keyword words.now) rules.written_types }
{
    written_by(Counts::of(words))
}
