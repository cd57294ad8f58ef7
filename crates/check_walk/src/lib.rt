//! The walk over expressions, specifiers and declarators, which hold one another (ISO/IEC 9899:2018, 6.5,
//! 6.7): a part is judged before the node that holds it, in the order of the text. Each function gives what
//! the definition of its name in `specs/Walk` of `c_rules` gives. The rules themselves stand in the crates
//! below; `specs/Walking` cuts the definitions where the functions are.
#![tactic(auto)]

mod lists;
mod unit;
mod walk;

pub use unit::whole_of;
pub use walk::{judge, judge_all, judge_layers, judge_name_of_type, judge_params, judge_specs};
