//! What the rules of the language ask of the tree itself: the names that declarators declare, whether a
//! body in braces stands in an expression, which attributes are known, and what a unit defines (ISO/IEC
//! 9899:2018, 6.7, 6.9). Each function borrows the tree and gives what `c_rules` defines.
#![tactic(auto)]

mod attributes;
mod bodies;
mod declarators;
mod items;
mod lengths;
mod specifiers;
mod unit;

pub use attributes::{all_known, is_attribute};
pub use bodies::any_has_body;
pub use declarators::{
    at_of, at_of_expr, at_of_maybe, bare_name, calls_at_name, declared_name, is_alone, is_named,
    qualifiers_in,
};
pub use items::{any_calls_at_name, count_entries, has_init};
pub use lengths::length_given;
pub use specifiers::{is_extern_specs, is_typedef_specs, own_name};
pub use unit::{bodies_in, first_main, objects_in};
