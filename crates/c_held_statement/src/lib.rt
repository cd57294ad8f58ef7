//! Statements, initialisers, units and lists of their parts that stand outside of other trees while a unit is read,
//! each in a struct that contracts see as the tree itself, and that lets the tree go by a `Drop` of its own.
#![tactic(auto)]

mod list;
mod statement;

pub use list::{BlockItems, DeclaredItems, Externals, Inits};
pub use statement::{ForFirst, Init, Stmt, StmtBox, Unit};
