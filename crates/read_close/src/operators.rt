//! The operators whose last operand is over.

ghost use Rattle.std.specs.Prelude.{◌≡◌, IfOk, IfErr};
ghost use Rattle.c_reader.specs.MarkedExprs as machine;
ghost use Rattle.c_reader.specs.MarkedParts as parts;
ghost use Rattle.read_close.specs.Reduced.{view_reduced};
ghost use Rattle.c_symbol.specs.Shown.{shown};
ghost use Rattle.c_stack.specs.Views.{view_expr_frame, view_expr_place, view_operand};
ghost use Rattle.c_symbol.specs.Nodes.{view_had, view_open};
ghost use Rattle.c_symbol.specs.declared.step.StepEnd.TheVariants.{NoMemory};

use c_held::Expr;
use c_parts::expression::{assign, binary, cast, comma, conditional, prefix, sizeof_expr};
use c_stack::inside::Operand;
use c_stack::place::{ExprFrame, ExprPlace};
use c_symbol::node::{Had, Open, mark};
use c_symbol::step::{StepEnd, following};
use c_tree::At;
use std::alloc::{AllocError, Global};

/// An expression, where it stands, and the number of the next node.
#[derive(Drop)]
pub struct Reduced {
    pub id: u32,
    pub had: Had,
    pub place: ExprPlace,
    pub expr: Expr,
}

/// An operator with its last operand.
fn made(alloc: Global, at: At, x: Operand, a: Expr) -> Result<Expr, AllocError>
    ensures { IfOk result (λ e. shown e ≡ machine.made at (view_operand x) (shown a)) }
{
    match x {
        Operand::Prefix(op) => prefix(alloc, at, op, a),
        Operand::Sizeof => sizeof_expr(alloc, at, a),
        Operand::Cast(t) => cast(alloc, at, t, a),
        Operand::Binary(left, op) => binary(alloc, at, left, op, a),
        Operand::Assign(left, op) => assign(alloc, at, left, op, a),
        Operand::Comma(left) => comma(alloc, at, left, a),
        Operand::Cond(c, b) => conditional(alloc, at, c, b, a),
    }
}

/// An operator that ends with its last operand: where it stands, and the whole.
fn ended(
    alloc: Global,
    at: At,
    o: Open,
    x: Operand,
    h: Had,
    a: Expr,
) -> Result<(Had, Expr), StepEnd>
    ensures had { IfOk result (λ r. view_had r.0 ≡ parts.closed (view_open o) h.deep) }
    ensures whole { IfOk result (λ r. shown r.1 ≡ machine.made at (view_operand x) (shown a)) }
    ensures err { IfErr result (λ e. e ≡ NoMemory) }
{
    let had = o.closed(h.deep)?;
    let whole = made(alloc, at, x, a)?;
    Ok((had, whole))
}

/// The expression stands at this place.
fn kept(alloc: Global, id: u32, had: Had, place: ExprFrame, expr: Expr) -> Result<Reduced, StepEnd>
    ensures ok { IfOk result (λ r. view_reduced r ≡ record { id = id; had = view_had had; place = view_expr_frame place; expr = shown expr }) }
    ensures err { IfErr result (λ e. e ≡ NoMemory) }
{
    let place = ExprPlace::new(alloc, place)?;
    Ok(Reduced {
        id,
        had,
        place,
        expr,
    })
}

/// Where an expression stands once the operators end that the next token takes no more of than this level.
pub fn reduce(
    alloc: Global,
    id: u32,
    end: u32,
    h: Had,
    k: ExprPlace,
    a: Expr,
    most: u32,
) -> Result<Reduced, StepEnd>
    ensures ok { IfOk result (λ r. view_reduced r ≡ machine.reduced id end (view_had h) (view_expr_place k) (shown a) most) }
    ensures err { IfErr result (λ e. e ≡ NoMemory) }
{
    match k.open() {
        ExprFrame::Operand(o, x, k) => {
            if x.place() <= most {
                kept(alloc, id, h, ExprFrame::Operand(o, x, k), a)
            } else {
                let next = following(id)?;
                let (had, whole) = ended(alloc, mark(o.from, end, id), o, x, h, a)?;
                reduce(alloc, next, end, had, k, whole, most)
            }
        }
        ExprFrame::Bracket(o, b, k) => kept(alloc, id, h, ExprFrame::Bracket(o, b, k), a),
        ExprFrame::Stmt(o, p, k) => kept(alloc, id, h, ExprFrame::Stmt(o, p, k), a),
        ExprFrame::Init(k) => kept(alloc, id, h, ExprFrame::Init(k), a),
        ExprFrame::Value(o, x, read, k) => kept(alloc, id, h, ExprFrame::Value(o, x, read, k), a),
        ExprFrame::Array(o, x, k) => kept(alloc, id, h, ExprFrame::Array(o, x, k), a),
    }
}
