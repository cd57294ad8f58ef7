//! What follows from the definitions alone. These functions do nothing: each states a law.

ghost use Rattle.trace_replay.specs.Laws.{Determines, OneReplay};

/// With the number and size of the ranges, the mode and the first address known, a report determines its histories.
pub fn reports_determine_histories()
    ensures { Determines }
{}

/// A well-formed trace has no two replays that make its events in their order: what the heap answers is determined.
pub fn a_trace_has_one_replay()
    ensures { OneReplay }
{}
