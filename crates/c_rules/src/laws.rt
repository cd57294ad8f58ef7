//! The laws: empty functions whose contracts state them.

ghost use Rattle.c_rules.specs.Laws.{AllKeptIsFine, BrokeIsFirst, FineIsAllKept, FirstIsBroke};
ghost use Rattle.c_rules.specs.Order.{TrialsInOrder};

/// The trials of a unit whose nodes are numbered in the order of their ends stand in this order, a part
/// before the whole, at one node by the rules' numbers, and the rule on specifiers as if its node ended with
/// them. So the first broken trial is the first in the text, whatever walk finds it.
pub fn order_law()
    ensures { TrialsInOrder }
{}

/// A verdict is fine exactly where every trial is kept, and else names the first broken one.
pub fn verdict_law()
    ensures kept { FineIsAllKept }
    ensures fine { AllKeptIsFine }
    ensures first { BrokeIsFirst }
    ensures broke { FirstIsBroke }
{}
