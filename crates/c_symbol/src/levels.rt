//! The levels of expressions, the weakest first (ISO/IEC 9899:2018, 6.5): `a, b` has 1, an assignment 2, `c ? a : b` 3,
//! binary operators 4 to 13, a cast 14, an operator before its operand 15, and all else 16.

ghost use Rattle.std.specs.Prelude.{◌≡◌, ◌≤◌};
ghost use Rattle.c_tree.specs.Bare.{bare};
ghost use Rattle.c_tree.specs.View.{view_op, view_prefix};
ghost use Rattle.c_tree.specs.Wf as wf;
ghost use Rattle.c_reader.specs.Exprs as machine;
ghost use Rattle.c_symbol.specs.Seen.{view_operator, view_symbol};
ghost use Rattle.c_symbol.specs.Shown.{shown};

use crate::symbol::{Operator, Symbol};
use c_tree::{BinaryOp, Expr, PrefixOp};

/// The level of a binary operator.
pub fn binary_level(op: BinaryOp) -> u32
    ensures same { result ≡ wf.prec (view_op op) }
    ensures low { result ≤ 13 }
{
    match op {
        BinaryOp::Or => 4,
        BinaryOp::And => 5,
        BinaryOp::BitOr => 6,
        BinaryOp::BitXor => 7,
        BinaryOp::BitAnd => 8,
        BinaryOp::Eq => 9,
        BinaryOp::Ne => 9,
        BinaryOp::Lt => 10,
        BinaryOp::Gt => 10,
        BinaryOp::Le => 10,
        BinaryOp::Ge => 10,
        BinaryOp::Shl => 11,
        BinaryOp::Shr => 11,
        BinaryOp::Add => 12,
        BinaryOp::Sub => 12,
        BinaryOp::Mul => 13,
        BinaryOp::Div => 13,
        BinaryOp::Rem => 13,
    }
}

/// The least level of what an operator takes that stands before it.
pub fn operand_level(op: PrefixOp) -> u32
    ensures { result ≡ wf.operand_level (view_prefix op) }
{
    match op {
        PrefixOp::Increment => 15,
        PrefixOp::Decrement => 15,
        PrefixOp::Address => 14,
        PrefixOp::Deref => 14,
        PrefixOp::Plus => 14,
        PrefixOp::Minus => 14,
        PrefixOp::BitNot => 14,
        PrefixOp::Not => 14,
    }
}

/// The level of an expression.
#[tactic(auto, unfolding(crate::specs::Shown::shown))]
pub fn level(a: &Expr) -> u32
    ensures { result ≡ wf.level (bare (shown a.now)) }
{
    match a {
        Expr::Comma(..) => 1,
        Expr::Assign(..) => 2,
        Expr::Cond(..) => 3,
        Expr::Binary(_, _, op, _) => binary_level(*op),
        Expr::Cast(..) => 14,
        Expr::Prefix(..) => 15,
        Expr::SizeofExpr(..) => 15,
        Expr::SizeofType(..) => 15,
        Expr::Index(..) => 16,
        Expr::Call(..) => 16,
        Expr::Dot(..) => 16,
        Expr::Arrow(..) => 16,
        Expr::Post(..) => 16,
        Expr::Name(..) => 16,
        Expr::Number(..) => 16,
        Expr::Char(..) => 16,
        Expr::Text(..) => 16,
        Expr::Paren(..) => 16,
        Expr::Builtin(..) => 16,
    }
}

impl Operator {
    fn tight(self) -> u32
        ensures { result ≡ machine.operator_tight (view_operator self) }
    {
        match self {
            Operator::Binary(op) => binary_level(op),
            Operator::Assign(_) => 2,
            Operator::Step(_) => 16,
            Operator::Negation(_) => 0,
            Operator::Question => 3,
            Operator::Member(_) => 16,
        }
    }

    fn needs(self) -> u32
        ensures { result ≡ machine.operator_needs (view_operator self) }
    {
        match self {
            Operator::Binary(op) => binary_level(op),
            Operator::Assign(_) => 15,
            Operator::Step(_) => 16,
            Operator::Negation(_) => 0,
            Operator::Question => 4,
            Operator::Member(_) => 16,
        }
    }
}

/// The level of what a token makes of the expression before it; 0 where it takes none.
pub fn tight(y: Symbol) -> u32
    ensures { result ≡ machine.tight (view_symbol y.entry) }
{
    match y {
        Symbol::Operator(op) => op.tight(),
        Symbol::LeftParen => 16,
        Symbol::LeftBracket => 16,
        Symbol::Comma => 1,
        _ => 0,
    }
}

/// The level that a token wants of the expression before it.
pub fn needs(y: Symbol) -> u32
    ensures { result ≡ machine.needs (view_symbol y.entry) }
{
    match y {
        Symbol::Operator(op) => op.needs(),
        Symbol::LeftParen => 16,
        Symbol::LeftBracket => 16,
        _ => 0,
    }
}
