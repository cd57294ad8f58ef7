//! Laws of the meaning: empty functions whose contracts state them.

ghost use Rattle.meaning_laws.specs.Exists.{RunExists};
ghost use Rattle.meaning_laws.specs.Numbers.{AllNumbersStay};
ghost use Rattle.meaning_laws.specs.Spans.{PlacesChangeNothing};
ghost use Rattle.meaning_laws.specs.Tagged.{TagsChangeNothing};
ghost use Rattle.meaning_laws.specs.Told.{ToldDecides};

/// Every program has a run, whatever its tokens, its input, the number of steps and the ranges are.
pub fn run_exists()
    ensures { RunExists }
{}

/// In a well-formed program all pointers to functions, in values and in storage, are to functions of the
/// program.
pub fn numbers_stay()
    ensures { AllNumbersStay }
{}

/// A run's output, end and log depend on its labels through their tokens alone.
pub fn tokens_decide()
    ensures { ToldDecides }
{}

/// A well-formed program and the same with its sites tagged have the same run.
pub fn tags_change_nothing()
    ensures { TagsChangeNothing }
{}

/// Programs that are equal but for places in the text have the same run but for the place of a trap.
pub fn places_change_nothing()
    ensures { PlacesChangeNothing }
{}
