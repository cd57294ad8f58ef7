//! Rules 2 and 34, and how names come into scope (ISO/IEC 9899:2018, 6.2.1, 6.7). Whether the unit has a
//! body for a function is handed in, as the caller found it by the name.
#![tactic(auto)]

mod declared;
mod enumerators;
mod introducing;
mod library;
mod names;
mod parameters;

pub use declared::{Declared, judge_declared};
pub use enumerators::judge_enumerator;
pub use introducing::introduce;
pub use library::{function_binding, keeps_library};
pub use names::may_be_named;
pub use parameters::{judge_named_param, judge_nameless_param, take_number};
