//! The tree from tokens.
#![tactic(auto)]

mod dispatch;
mod reader;

pub use reader::{ParseEnd, parse};
