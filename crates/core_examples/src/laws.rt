//! The laws: an empty function whose contract states them.

ghost use Rattle.core_examples.specs.Laws.{OperatorsAsWanted, PlacesAsWanted, CallsAsWanted, StatementsAsWanted, InitialisersAsWanted, FixedObjectsAsWanted, FunctionsAsWanted, SpansAsWanted, WholeUnitsAsWanted};

/// The core of each unit of the tables is what the table says.
pub fn all_units_have_the_core_that_is_wanted()
    ensures operators { OperatorsAsWanted }
    ensures places { PlacesAsWanted }
    ensures calls { CallsAsWanted }
    ensures statements { StatementsAsWanted }
    ensures initialisers { InitialisersAsWanted }
    ensures fixed_objects { FixedObjectsAsWanted }
    ensures functions { FunctionsAsWanted }
    ensures spans { SpansAsWanted }
    ensures whole_units { WholeUnitsAsWanted }
{}
