//! What the reader reads a token by, apart from what it has read: the token's part in the grammar, the levels
//! of expressions, the typedef names so far, the numbers of open nodes, and what a declarator declares.
#![tactic(auto)]

pub mod declarator;
pub mod levels;
pub mod names;
pub mod node;
pub mod step;
pub mod symbol;
