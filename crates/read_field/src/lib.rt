//! What ends with a declarator, and the first token of one: fields, parameters, type names and groups. It rests
//! on the stack alone.
#![tactic(auto)]

mod begin;
mod declarator;

pub use begin::{bracket_begin, name_begin, star_begin};
pub use declarator::{
    absent_name, close_group, close_param, close_type, field_next, may_be_nameless,
};
