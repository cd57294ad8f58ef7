//! The laws: empty functions whose contracts state them.

ghost use Rattle.lower_rules.specs.Formed.{CoresAreWellFormed, CoreOfUnitIsWellFormed};
ghost use Rattle.lower_rules.specs.Sorts.{ValuesGiveWhatTheySay, PlacesArePointers};

/// Whatever a unit is and whatever is known of it: what its expressions become is of the sorts of the core
/// language, in each program that has the objects, literals and functions that they name.
pub fn every_expression_gives_what_it_says()
    ensures values { ValuesGiveWhatTheySay }
    ensures places { PlacesArePointers }
{}

/// The core of a unit that has a `main` is well-formed. Beside that it rests on what the rules make sure of in
/// the notes alone: names, function types, address constants, literals.
pub fn every_core_is_well_formed()
    ensures any { CoresAreWellFormed }
    ensures own { CoreOfUnitIsWellFormed }
{}
