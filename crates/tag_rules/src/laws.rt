//! The laws: an empty function whose contract states them.

ghost use Rattle.tag_rules.specs.Laws.{NumbersCount, TreeIsKept};

/// The nodes of what a unit becomes have the numbers 0, 1, 2 .., each once, in the order in which they end;
/// giving them these numbers changes nothing of what the tree spells.
pub fn numbers_law()
    ensures numbers { NumbersCount }
    ensures kept { TreeIsKept }
{}
