//! Laws of the machine: empty functions whose contracts state them.

ghost use Rattle.c_reader.specs.Examples.{DeclarationsAreRead, ExpressionsAreRead, StatementsAreRead, UnitsAreRead, WrongExpressionsAreFound, WrongIsFound};
ghost use Rattle.c_reader.specs.Laws.{AnswersAreRight, DeepIsKnown, DepthIsKnown, OpenNodesCount, UnitsAreKept, UnitsAreUnique};

/// The machine, computed on texts.
pub fn some_examples()
    ensures units { UnitsAreRead }
    ensures declarations { DeclarationsAreRead }
    ensures expressions { ExpressionsAreRead }
    ensures statements { StatementsAreRead }
    ensures wrong { WrongIsFound }
    ensures wrong_expressions { WrongExpressionsAreFound }
{}

/// Two well-formed units do not spell the same.
pub fn unique_law()
    ensures { UnitsAreUnique }
{}

/// The machine gives the well-formed unit that the tokens spell. Where they spell none it stops at the first token that no well-formed unit has behind those before it.
pub fn reading_law()
    ensures right { AnswersAreRight }
    ensures units { UnitsAreKept }
{}

/// What is open, and the parts that were read, tell the least depth of a unit that begins with the tokens; at the end that is the unit's depth.
pub fn depth_law()
    ensures deep { DeepIsKnown }
    ensures unit { DepthIsKnown }
    ensures nodes { OpenNodesCount }
{}
