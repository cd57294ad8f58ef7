//! The first token of specifiers and of an expression: the steps that the reader of each form uses.
#![tactic(auto)]

mod on_begin;

pub use on_begin::{begin_specs, begins_specs, first_spec, open_spec, want};
