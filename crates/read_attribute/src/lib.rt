//! What a token does in an attribute.
#![tactic(auto)]

mod on_attribute;

pub use on_attribute::attribute_next;
