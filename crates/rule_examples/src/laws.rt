//! The laws: an empty function whose contract states them.

ghost use Rattle.rule_examples.specs.Laws.{Kept1AsWanted, Kept2AsWanted, BrokenNamesAsWanted, BrokenDeclarationsAsWanted, BrokenOperatorsAsWanted, BrokenUsesAsWanted, DocumentedAsWanted, MainsAsWanted, BoundAsWanted, NotedAsWanted};

/// Each unit of the tables is judged as the table says.
pub fn all_units_are_judged_as_wanted()
    ensures kept_1 { Kept1AsWanted }
    ensures kept_2 { Kept2AsWanted }
    ensures broken_names { BrokenNamesAsWanted }
    ensures broken_declarations { BrokenDeclarationsAsWanted }
    ensures broken_operators { BrokenOperatorsAsWanted }
    ensures broken_uses { BrokenUsesAsWanted }
    ensures documented { DocumentedAsWanted }
{}

/// What is found of the nodes, objects and functions of each unit of the tables is what the table says.
pub fn what_is_found_is_as_wanted()
    ensures mains { MainsAsWanted }
    ensures bound { BoundAsWanted }
    ensures noted { NotedAsWanted }
{}
