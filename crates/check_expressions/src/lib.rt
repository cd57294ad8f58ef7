//! The rules on expressions, tried at their nodes (ISO/IEC 9899:2018, 6.5). Each `judge` function tries the
//! rules of one form of expression whose parts are judged already: it gives what `specs/Forms` of `c_rules`
//! defines for the form, what is known of the expression and the notes on its nodes, or the first broken
//! rule with its node. What the rules ask stands in `expression_rules`.
#![tactic(auto)]

mod assignment;
mod binary;
mod builtin;
mod calls;
mod casts;
mod choice;
mod constants;
mod members;
mod names;
mod noting;
mod unary;
mod whole;

pub use assignment::{judge_assign, judge_compound, judge_set};
pub use binary::{judge_binary, judge_index};
pub use builtin::judge_builtin;
pub use calls::judge_call;
pub use casts::judge_cast;
pub use choice::{judge_comma, judge_cond};
pub use constants::{judge_char, judge_number, judge_text};
pub use members::{judge_arrow, judge_dot};
pub use names::{function_binding, judge_name, library_number};
pub use noting::done;
pub use unary::{
    judge_address, judge_deref, judge_not, judge_paren, judge_prefix, judge_sign, judge_sizeof,
    judge_step,
};
pub use whole::Whole;
