//! Laws of a unit with its sites tagged: empty functions whose contracts state them.

ghost use Rattle.call_rewriter.specs.Laws.{OperandsStay, ReadsAgain, StaysFlat, StaysFormed};
ghost use Rattle.call_rewriter.specs.Examples.{Calls, Hidden, NotHidden, ThreeCalls};

/// Which calls are sites, by small units.
pub fn tagging_examples()
    ensures three { ThreeCalls }
    ensures calls { Calls }
    ensures hidden { Hidden }
    ensures not_hidden { NotHidden }
{}

/// The tagged unit of a well-formed unit is well formed, that of a flat one is flat, its text reads as it, and what
/// stands in an operand of `sizeof` or of the builtin stays as it is.
pub fn tagging_laws()
    ensures formed { StaysFormed }
    ensures flat { StaysFlat }
    ensures again { ReadsAgain }
    ensures operands { OperandsStay }
{}
