//! Trees that stand outside of other trees while a unit is read, each in a struct that contracts see as the
//! tree itself, and that lets the tree go by a `Drop` of its own. A crate that owns such a value has no
//! destructor of the tree's types to prove: they are proved in the two crates whose types stand here.
#![tactic(auto)]

pub use c_held_expression::{
    Arguments, Attributes, Declarator, DeclaratorBox, Declarators, Entries, Enumerators, Expr,
    ExprBox, Exprs, Fields, Params, Specs, TypeName, TypeNameBox,
};
pub use c_held_statement::{
    BlockItems, DeclaredItems, Externals, ForFirst, Init, Inits, Stmt, StmtBox, Unit,
};
