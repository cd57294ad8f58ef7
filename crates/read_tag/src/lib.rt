//! What a token does at the tag of a record or an enumeration, and where a record ends. It rests on the stack
//! alone.
#![tactic(auto)]

mod on_tag;

pub use on_tag::{behind, close_fields, tag_spec, tagged_next, tagged_opened, value_begin};
