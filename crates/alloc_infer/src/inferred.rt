//! The type that an allocation is for.

ghost use Rattle.std.specs.Prelude.{◌≡◌, ◌<◌, List, length, option_and_then, Option};
ghost use Rattle.c_tree.specs.View.{view, view_op, exprs_of, view_type_name};
ghost use Rattle.c_types.specs.Plain.{plain};
ghost use Rattle.c_types.specs.Pointers.{contains_pointer};
ghost use Rattle.c_types.specs.Table.{type_at};
ghost use Rattle.c_rules.specs.World.{or_else};
ghost use Rattle.c_types.specs.declared.terms.Term.{Term};
ghost use Rattle.c_world.specs.Seen.{noted};
ghost use Rattle.c_checked.specs.Found.{known_of};
ghost use Rattle.alloc_infer.specs.Adds.{IsIn};
ghost use Rattle.alloc_infer.specs.Inferred as spec;

use crate::around::Around;
use body_rules::at_of_expr;
use c_checked::Checked;
use c_tree::{BinaryOp, Expr, TypeName};
use c_types::{Term, TypeId, TypeTable};
use tok_base::Items;

/// Whether a type contains a pointer, as its table has it.
pub fn has_pointer(table: &TypeTable, id: TypeId) -> bool
    requires { id.0 < length table.now.terms }
    ensures { result ≡ contains_pointer table.now.layouts (type_at table.now.terms id.0) }
{
    table.has_pointer(id)
}

fn is_passed(op: BinaryOp) -> bool
    ensures { result ≡ spec.is_passed (view_op op) }
{
    match op {
        BinaryOp::Add => true,
        BinaryOp::Sub => true,
        BinaryOp::Mul => true,
        BinaryOp::Div => true,
        BinaryOp::Shl => true,
        BinaryOp::Shr => true,
        _ => false,
    }
}

/// The first of two.
fn first_one(a: Option<TypeId>, b: Option<TypeId>) -> Option<TypeId>
    ensures is { (ts : List Term) → noted ts result ≡ or_else (noted ts a) (noted ts b) }
    ensures valid { (ts : List Term) → IsIn ts a → IsIn ts b → IsIn ts result }
{
    match a {
        Some(t) => Some(t),
        None => b,
    }
}

fn of_name(c: &Checked, name: &TypeName) -> Option<TypeId>
    ensures is { noted c.now.notes.table.terms result ≡ spec.of_name (known_of c.now.notes) (view_type_name name.now) }
    ensures valid { IsIn c.now.notes.table.terms result }
{
    c.noted_type(name.at.id)
}

/// The type of the operand of the first `sizeof` that is reached.
fn first_sizeof(c: &Checked, e: &Expr) -> Option<TypeId>
    ensures is { noted c.now.notes.table.terms result ≡ spec.first_sizeof (known_of c.now.notes) (view e.now) }
    ensures valid { IsIn c.now.notes.table.terms result }
{
    match e {
        Expr::SizeofType(_, name) => of_name(c, name),
        Expr::SizeofExpr(_, a) => c.noted_type(at_of_expr(a).id),
        Expr::Paren(_, a) => first_sizeof(c, a),
        Expr::Binary(_, a, op, b) => {
            if is_passed(*op) {
                first_one(first_sizeof(c, a), first_sizeof(c, b))
            } else {
                None
            }
        }
        Expr::Comma(_, _, _) => None,
        Expr::Assign(_, _, _, _) => None,
        Expr::Cond(_, _, _, _) => None,
        Expr::Cast(_, _, _) => None,
        Expr::Prefix(_, _, _) => None,
        Expr::Index(_, _, _) => None,
        Expr::Call(_, _, _) => None,
        Expr::Dot(_, _, _) => None,
        Expr::Arrow(_, _, _) => None,
        Expr::Post(_, _, _) => None,
        Expr::Name(_, _) => None,
        Expr::Number(_, _) => None,
        Expr::Char(_, _) => None,
        Expr::Text(_, _) => None,
        Expr::Builtin(_, _) => None,
    }
}

/// The same over arguments, in order.
pub(crate) fn first_of(c: &Checked, es: &Items<Expr>) -> Option<TypeId>
    ensures is { noted c.now.notes.table.terms result ≡ spec.first_of (known_of c.now.notes) (exprs_of es.now) }
    ensures valid { IsIn c.now.notes.table.terms result }
{
    for e in es.as_slice() {
        if let Some(t) = first_sizeof(c, e) {
            return Some(t);
        }
    }
    None
}

#[tactic(auto, unfolding(c_checked::specs::Found::known_of))]
fn is_allocated(c: &Checked, id: TypeId) -> bool
    requires { id.0 < length c.now.notes.table.terms }
    ensures { result ≡ spec.is_allocated (known_of c.now.notes) (plain (type_at c.now.notes.table.terms id.0)) }
{
    let table = c.table();
    let behind = table.plain(id);
    match table.term(behind) {
        Term::Void => false,
        Term::Function(_, _) => false,
        Term::Record(_) => table.is_finished(behind),
        _ => true,
    }
}

fn if_allocated(c: &Checked, id: TypeId) -> Option<TypeId>
    requires { id.0 < length c.now.notes.table.terms }
    ensures is { noted c.now.notes.table.terms result ≡ spec.if_allocated (known_of c.now.notes) (type_at c.now.notes.table.terms id.0) }
    ensures valid { IsIn c.now.notes.table.terms result }
{
    if is_allocated(c, id) { Some(id) } else { None }
}

/// The type that a pointer points to, where something of it can be allocated.
fn pointed(c: &Checked, id: TypeId) -> Option<TypeId>
    requires { id.0 < length c.now.notes.table.terms }
    ensures is { noted c.now.notes.table.terms result ≡ spec.pointed (known_of c.now.notes) (type_at c.now.notes.table.terms id.0) }
    ensures valid { IsIn c.now.notes.table.terms result }
{
    let table = c.table();
    match table.term(table.plain(id)) {
        Term::Pointer(t) => if_allocated(c, *t),
        _ => None,
    }
}

fn pointed_maybe(c: &Checked, id: Option<TypeId>) -> Option<TypeId>
    requires { IsIn c.now.notes.table.terms id }
    ensures is { noted c.now.notes.table.terms result ≡ option_and_then (spec.pointed (known_of c.now.notes)) (noted c.now.notes.table.terms id) }
    ensures valid { IsIn c.now.notes.table.terms result }
{
    match id {
        Some(id) => pointed(c, id),
        None => None,
    }
}

fn from_around(c: &Checked, around: Around) -> Option<TypeId>
    ensures is { noted c.now.notes.table.terms result ≡ spec.from_around (known_of c.now.notes) around }
    ensures valid { IsIn c.now.notes.table.terms result }
{
    match around {
        Around::Nothing => None,
        Around::Cast(node) => pointed_maybe(c, c.noted_type(node)),
        Around::Converted(node) => pointed_maybe(c, c.target_of(node)),
    }
}

/// The type that a call is for, by its arguments and what stands around it.
pub(crate) fn inferred(c: &Checked, around: Around, es: &Items<Expr>) -> Option<TypeId>
    ensures is { noted c.now.notes.table.terms result ≡ spec.inferred (known_of c.now.notes) around (exprs_of es.now) }
    ensures valid { IsIn c.now.notes.table.terms result }
{
    first_one(first_of(c, es), from_around(c, around))
}
