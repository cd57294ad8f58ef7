//! Small units of C with what they become when each allocation call carries its token, against which the
//! definitions of `tag_rules` are computed: a unit is cut into tokens, read, judged, gone over for its
//! calls, rewritten and written, all by definitions. What is wanted of each was worked out by hand.
#![tactic(auto)]

mod laws;

pub use laws::all_rows_come_out;
