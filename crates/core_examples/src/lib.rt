//! Small units of C, each with its core, against which the definitions of `lower_rules` are computed: a unit is
//! cut into tokens, read, judged and lowered, all by definitions. What is wanted of each was written by hand.
#![tactic(auto)]

mod laws;

pub use laws::all_units_have_the_core_that_is_wanted;
