//! The least level of an expression, by the place where it is still to come.

ghost use Rattle.std.specs.Prelude.{◌≡◌};
ghost use Rattle.c_reader.specs.MarkedExprs as reader;
ghost use Rattle.c_stack.specs.Views.{view_bracket, view_in_expr, view_operand};

use crate::inside::{Bracket, InExpr, Operand};
use c_symbol::levels::{binary_level, operand_level};

impl Operand {
    /// The least level of the operand that is still to come.
    pub fn place(&self) -> u32
        ensures { result ≡ reader.operand_place (view_operand self.now) }
    {
        match self {
            Operand::Prefix(op) => operand_level(*op),
            Operand::Sizeof => 15,
            Operand::Cast(_) => 14,
            Operand::Binary(_, op) => binary_level(*op) + 1,
            Operand::Assign(..) => 2,
            Operand::Comma(_) => 2,
            Operand::Cond(..) => 3,
        }
    }
}

impl Bracket {
    /// The least level that may stand there.
    pub fn place(&self) -> u32
        ensures { result ≡ reader.bracket_place (view_bracket self.now) }
    {
        match self {
            Bracket::Paren => 1,
            Bracket::Index(_) => 1,
            Bracket::Args(..) => 2,
            Bracket::Middle(_) => 1,
        }
    }
}

impl InExpr {
    /// The least level that may stand there.
    pub fn place(&self) -> u32
        ensures { result ≡ reader.place (view_in_expr self.now) }
    {
        match self {
            InExpr::Operand(_, x, _) => x.place(),
            InExpr::Bracket(_, b, _) => b.place(),
            InExpr::Stmt(..) => 1,
            InExpr::Init(_) => 2,
            InExpr::Value(..) => 3,
            InExpr::Array(..) => 3,
        }
    }
}
