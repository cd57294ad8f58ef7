//! Small units of C, each with the allocation calls that take a token and the types that are inferred for
//! them, against which the definitions of `alloc_infer` are computed: a unit is cut into tokens, read,
//! judged and gone over, all by definitions. What is wanted of each was worked out by hand.
#![tactic(auto)]

mod laws;

pub use laws::all_units_have_what_is_wanted;
