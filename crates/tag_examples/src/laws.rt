//! The laws: an empty function whose contract states them.

ghost use Rattle.tag_examples.specs.Laws.{UnitsAreRewritten, EditsGiveTheSame, NumbersCount, TaggedHasNone, SpansAreKept, RefusalsAsWanted, LinesAsWanted};

/// What each unit of the tables becomes, why it is refused and what is told of its calls is what the tables
/// say; what it becomes is what its text with the edits made reads as; it has the numbers 0, 1, 2 .. at its
/// nodes, keeps all rules, and has no call and no builtin that takes a token.
pub fn all_rows_come_out()
    ensures rewritten { UnitsAreRewritten }
    ensures edits { EditsGiveTheSame }
    ensures numbers { NumbersCount }
    ensures none { TaggedHasNone }
    ensures spans { SpansAreKept }
    ensures refusals { RefusalsAsWanted }
    ensures lines { LinesAsWanted }
{}
