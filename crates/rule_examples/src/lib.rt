//! Small units of C, each with the first rule that it breaks or none, against which the definitions of the
//! rules are computed: a unit is cut into tokens, read and judged, all by definitions.
//!
//! `specs/Judged` says what that is; the other files of `specs/` have the units. What is wanted of each was
//! worked out by hand from the rules.
#![tactic(auto)]

mod laws;

pub use laws::{all_units_are_judged_as_wanted, what_is_found_is_as_wanted};
