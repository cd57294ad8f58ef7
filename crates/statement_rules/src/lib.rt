//! The rules of initialisers' lengths, items, statements, definitions and the unit that stand between the
//! walks over their parts (ISO/IEC 9899:2018, 6.7, 6.8, 6.9). Each function gives what its definition in
//! `specs/Unit` of `c_rules` gives, or the piece of one that specs/Steps names.
#![tactic(auto)]

mod bodies;
mod conditions;
mod items;
mod lengths;
mod main_rule;
mod returning;
mod specifiers;

pub use bodies::{begin_body, names_of, result_of};
pub use conditions::{judge_condition, judge_maybe_condition};
pub use items::{begin_item, is_fixed_here, is_new_object, is_static_here, local_place};
pub use lengths::size_item;
pub use main_rule::judge_main;
pub use returning::judge_return;
pub use specifiers::{judge_definition_specifiers, judge_specifiers};
