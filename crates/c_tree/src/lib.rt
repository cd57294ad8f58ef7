//! The tree of a C unit: a node type for each form of the grammar (ISO/IEC 9899:2018, A.2), with its parts
//! in order, its place and its number. `specs/` has the tokens that a tree spells, which trees are well
//! formed, and how deep they are; `make` has the constructors of the forms that hold lists, and `spell_tree`
//! gives the tokens of a unit.
#![tactic(auto)]

mod expression;
mod laws;
pub mod make;
mod operator;
mod promises;
mod spell;
mod spell_unit;
mod statement;
mod tokens;

pub use expression::{
    Attribute, AttributeArgument, Declarator, Entry, Enum, Enumerator, EnumeratorList, Expr, Field,
    Param, Record, Spec, TypeName,
};
pub use laws::{nodes_law, print_law, put_law, valid_law};
pub use operator::{AssignOp, At, BinaryOp, Keyword, PrefixOp, Qualifier, Step};
pub use promises::{lexeme_law, pieces_law, some_examples};
pub use spell_unit::{spell_external, spell_tree};
pub use statement::{
    Block, BlockItem, Declaration, Definition, External, ForFirst, Init, Item, Stmt, Unit,
};
