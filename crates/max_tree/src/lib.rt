//! A row of numbers in which the first that is at least so large is found without a walk along the row.
//!
//! `MaxTree` is seen as the list of its numbers. They are the leaves of a binary tree whose other nodes hold
//! the greater of their two children (specs/Tree), so `set` and `first_at_least` go one way between the root
//! and a leaf. Only `new` takes memory.
#![tactic(auto)]

mod tree;

pub use tree::MaxTree;
