//! Laws of the machine over trees with places and numbers: empty functions whose contracts state them.

ghost use Rattle.c_reader.specs.MarkedExamples.{DeclarationsHaveNodes, DeclaredSo, DeepTextsStop, DepthIsCounted, ExpressionsHaveNodes, StatementsHaveNodes, StopsThere};
ghost use Rattle.c_reader.specs.MarkedLaws.{IsMachine, IsMarked, TokensAreRead, TokensAreToks, UnitsAreAnswered};

/// The machine with places and numbers, computed on texts whose places were worked out by hand.
pub fn some_places()
    ensures declared { DeclaredSo }
    ensures statements { StatementsHaveNodes }
    ensures declarations { DeclarationsHaveNodes }
    ensures expressions { ExpressionsHaveNodes }
    ensures stops { StopsThere }
    ensures depth { DepthIsCounted }
    ensures deep { DeepTextsStop }
{}

/// Without places and numbers the reader's answer is the machine's, of the same tokens.
pub fn erased_law()
    ensures tokens { TokensAreToks }
    ensures machine { IsMachine }
{}

/// The nodes of the unit that the reader answers have the numbers and places that they should have.
pub fn marked_law()
    ensures { IsMarked }
{}

/// The reader's answer about tokens of C: the flat unit that they spell, with the numbers and places of its nodes, or the place where they go wrong, or that they are too deep.
pub fn answer_law()
    ensures right { TokensAreRead }
    ensures units { UnitsAreAnswered }
{}
