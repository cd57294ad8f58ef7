//! What follows from the definitions alone. These functions do nothing: each states a law.

ghost use Rattle.range_heap.specs.Laws.{HistoriesGrow, IsRounding, StartsDiffer, RangesApart};

/// A rounded size is the least positive multiple of 16 that is not below the size.
pub fn sizes_are_rounded_up()
    ensures { IsRounding }
{}

/// The live blocks of a legal history begin at different places.
pub fn live_starts_differ()
    ensures { StartsDiffer }
{}

/// Where the history of each range is legal, live blocks of all ranges are disjoint, and so is the
/// storage of the two halves, across releases and reuse.
pub fn ranges_stay_apart()
    ensures { RangesApart }
{}

/// An entry that may follow a legal history makes a longer legal history, and each front of one is legal.
pub fn histories_grow()
    ensures { HistoriesGrow }
{}
