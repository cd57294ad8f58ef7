//! The walk over a unit for the builtins that give a token.

ghost use Rattle.std.specs.Prelude.{◌≡◌, ◌∷◌, map, All, IfOk, OnOk};
ghost use Rattle.c_tree.specs.View.{view, view_declaration, view_definition, view_external, view_first, view_init, view_item, view_maybe_expr, view_maybe_init, view_stmt, view_unit, exprs_of, inits_of, items_of};
ghost use Rattle.c_checked.specs.Found.{known_of};
ghost use Rattle.alloc_infer.specs.Adds.{AddsMarks, KeepsMarks, MarkIsIn, mark_of, in_item};
ghost use Rattle.alloc_infer.specs.Sites as spec;
ghost use Rattle.alloc_infer.specs.Walked as walked;

use crate::around::Around;
use crate::inferred::first_of;
use crate::site::Mark;
use body_rules::at_of_expr;
use c_checked::Checked;
use c_tree::{At, BlockItem, Declaration, Expr, External, ForFirst, Init, Item, Stmt};
use std::alloc::Global;
use tok_base::{Items, NoMemory};

fn mark_at(c: &Checked, at: At, es: &Items<Expr>) -> Mark
    ensures is { mark_of c.now.notes.table.terms result ≡ spec.mark_at (known_of c.now.notes) at (exprs_of es.now) }
    ensures valid { MarkIsIn c.now.notes.table.terms result }
{
    Mark {
        node: at.id,
        span: at.span,
        inferred: first_of(c, es),
    }
}

fn put(_c: &Checked, mark: Mark, found: &mut Items<Mark>) -> Result<(), NoMemory>
    requires { MarkIsIn _c.now.notes.table.terms mark }
    ensures adds { OnOk result (AddsMarks _c.now.notes found.old found.new (λ more. mark_of _c.now.notes.table.terms mark ∷ more)) }
    ensures valid { OnOk result (KeepsMarks _c.now.notes found.old found.new) }
{
    found.push(mark)?;
    Ok(())
}

fn put_builtin(
    c: &Checked,
    at: At,
    es: &Items<Expr>,
    found: &mut Items<Mark>,
) -> Result<(), NoMemory>
    ensures adds { OnOk result (AddsMarks c.now.notes found.old found.new (λ more. spec.mark_at (known_of c.now.notes) at (exprs_of es.now) ∷ more)) }
    ensures valid { OnOk result (KeepsMarks c.now.notes found.old found.new) }
{
    put(c, mark_at(c, at, es), found)
}

fn converted(e: &Expr) -> Around
    ensures { result ≡ walked.converted (view e.now) }
{
    Around::Converted(at_of_expr(e).id)
}

#[cycle(marks)]
fn expr(c: &Checked, _around: Around, e: &Expr, found: &mut Items<Mark>) -> Result<(), NoMemory>
    ensures adds { OnOk result (AddsMarks c.now.notes found.old found.new (spec.marks (known_of c.now.notes) _around (view e.now))) }
    ensures valid { OnOk result (KeepsMarks c.now.notes found.old found.new) }
{
    match e {
        Expr::Comma(_, a, b) => {
            expr(c, Around::Nothing, a, found)?;
            expr(c, Around::Nothing, b, found)
        }
        Expr::Assign(_, a, _, b) => {
            expr(c, Around::Nothing, a, found)?;
            expr(c, Around::Nothing, b, found)
        }
        Expr::Cond(_, z, a, b) => {
            expr(c, Around::Nothing, z, found)?;
            expr(c, Around::Nothing, a, found)?;
            expr(c, Around::Nothing, b, found)
        }
        Expr::Binary(_, a, _, b) => {
            expr(c, Around::Nothing, a, found)?;
            expr(c, Around::Nothing, b, found)
        }
        Expr::Cast(_, _, a) => expr(c, Around::Nothing, a, found),
        Expr::Prefix(_, _, a) => expr(c, Around::Nothing, a, found),
        Expr::SizeofExpr(_, a) => expr(c, Around::Nothing, a, found),
        Expr::SizeofType(_, _) => Ok(()),
        Expr::Index(_, a, b) => {
            expr(c, Around::Nothing, a, found)?;
            expr(c, Around::Nothing, b, found)
        }
        Expr::Call(_, f, es) => {
            expr(c, Around::Nothing, f, found)?;
            exprs(c, es, found)
        }
        Expr::Dot(_, a, _) => expr(c, Around::Nothing, a, found),
        Expr::Arrow(_, a, _) => expr(c, Around::Nothing, a, found),
        Expr::Post(_, a, _) => expr(c, Around::Nothing, a, found),
        Expr::Name(_, _) => Ok(()),
        Expr::Number(_, _) => Ok(()),
        Expr::Char(_, _) => Ok(()),
        Expr::Text(_, _) => Ok(()),
        Expr::Paren(_, a) => expr(c, Around::Nothing, a, found),
        Expr::Builtin(at, es) => put_builtin(c, *at, es, found),
    }
}

#[cycle(marks)]
fn exprs(c: &Checked, es: &Items<Expr>, found: &mut Items<Mark>) -> Result<(), NoMemory>
    ensures adds { OnOk result (AddsMarks c.now.notes found.old found.new (spec.marks_all (known_of c.now.notes) (exprs_of es.now))) }
    ensures valid { OnOk result (KeepsMarks c.now.notes found.old found.new) }
{
    for e in es.as_slice() {
        expr(c, Around::Nothing, e, found)?;
    }
    Ok(())
}

fn maybe(c: &Checked, e: &Option<Expr>, found: &mut Items<Mark>) -> Result<(), NoMemory>
    ensures adds { OnOk result (AddsMarks c.now.notes found.old found.new (walked.in_maybe (spec.marks (known_of c.now.notes)) (view_maybe_expr e.now))) }
    ensures valid { OnOk result (KeepsMarks c.now.notes found.old found.new) }
{
    match e {
        Some(e) => expr(c, Around::Nothing, e, found),
        None => Ok(()),
    }
}

/// The operand of `return`.
fn returned(c: &Checked, e: &Option<Expr>, found: &mut Items<Mark>) -> Result<(), NoMemory>
    ensures adds { OnOk result (AddsMarks c.now.notes found.old found.new (walked.in_result (spec.marks (known_of c.now.notes)) (view_maybe_expr e.now))) }
    ensures valid { OnOk result (KeepsMarks c.now.notes found.old found.new) }
{
    match e {
        Some(e) => expr(c, converted(e), e, found),
        None => Ok(()),
    }
}

#[cycle(inits)]
fn init(c: &Checked, g: &Init, found: &mut Items<Mark>) -> Result<(), NoMemory>
    ensures adds { OnOk result (AddsMarks c.now.notes found.old found.new (walked.in_init (spec.marks (known_of c.now.notes)) (view_init g.now))) }
    ensures valid { OnOk result (KeepsMarks c.now.notes found.old found.new) }
{
    match g {
        Init::Expr(e) => expr(c, converted(e), e, found),
        Init::Braces(_, gs, _) => inits(c, gs, found),
    }
}

#[cycle(inits)]
fn inits(c: &Checked, gs: &Items<Init>, found: &mut Items<Mark>) -> Result<(), NoMemory>
    ensures adds { OnOk result (AddsMarks c.now.notes found.old found.new (walked.in_inits (spec.marks (known_of c.now.notes)) (inits_of gs.now))) }
    ensures valid { OnOk result (KeepsMarks c.now.notes found.old found.new) }
{
    for g in gs.as_slice() {
        init(c, g, found)?;
    }
    Ok(())
}

fn maybe_init(c: &Checked, g: &Option<Init>, found: &mut Items<Mark>) -> Result<(), NoMemory>
    ensures adds { OnOk result (AddsMarks c.now.notes found.old found.new (walked.in_maybe_init (spec.marks (known_of c.now.notes)) (view_maybe_init g.now))) }
    ensures valid { OnOk result (KeepsMarks c.now.notes found.old found.new) }
{
    match g {
        Some(g) => init(c, g, found),
        None => Ok(()),
    }
}

fn items(c: &Checked, items: &Items<Item>, found: &mut Items<Mark>) -> Result<(), NoMemory>
    ensures adds { OnOk result (AddsMarks c.now.notes found.old found.new (walked.in_items (spec.marks (known_of c.now.notes)) (map view_item items.now))) }
    ensures valid { OnOk result (KeepsMarks c.now.notes found.old found.new) }
{
    for item in items.as_slice() {
        maybe_init(c, &item.init, found)?;
    }
    Ok(())
}

fn declaration(c: &Checked, d: &Declaration, found: &mut Items<Mark>) -> Result<(), NoMemory>
    ensures adds { OnOk result (AddsMarks c.now.notes found.old found.new (walked.in_declaration (spec.marks (known_of c.now.notes)) (view_declaration d.now))) }
    ensures valid { OnOk result (KeepsMarks c.now.notes found.old found.new) }
{
    items(c, &d.items, found)
}

fn for_first(c: &Checked, f: &ForFirst, found: &mut Items<Mark>) -> Result<(), NoMemory>
    ensures adds { OnOk result (AddsMarks c.now.notes found.old found.new (walked.in_first (spec.marks (known_of c.now.notes)) (view_first f.now))) }
    ensures valid { OnOk result (KeepsMarks c.now.notes found.old found.new) }
{
    match f {
        ForFirst::Declaration(d) => declaration(c, d, found),
        ForFirst::Expr(e) => maybe(c, e, found),
    }
}

/// What stands between the parentheses of a `for`.
fn clauses(
    c: &Checked,
    f: &ForFirst,
    test: &Option<Expr>,
    step: &Option<Expr>,
    found: &mut Items<Mark>,
) -> Result<(), NoMemory>
    ensures adds { OnOk result (AddsMarks c.now.notes found.old found.new (λ more. walked.in_first (spec.marks (known_of c.now.notes)) (view_first f.now) (walked.in_maybe (spec.marks (known_of c.now.notes)) (view_maybe_expr test.now) (walked.in_maybe (spec.marks (known_of c.now.notes)) (view_maybe_expr step.now) more)))) }
    ensures valid { OnOk result (KeepsMarks c.now.notes found.old found.new) }
{
    for_first(c, f, found)?;
    maybe(c, test, found)?;
    maybe(c, step, found)
}

#[cycle(statements)]
fn statement(c: &Checked, s: &Stmt, found: &mut Items<Mark>) -> Result<(), NoMemory>
    ensures adds { OnOk result (AddsMarks c.now.notes found.old found.new (walked.in_stmt (spec.marks (known_of c.now.notes)) (view_stmt s.now))) }
    ensures valid { OnOk result (KeepsMarks c.now.notes found.old found.new) }
{
    match s {
        Stmt::Block(b) => block(c, &b.items, found),
        Stmt::Expr(_, e) => maybe(c, e, found),
        Stmt::If(_, z, s) => {
            expr(c, Around::Nothing, z, found)?;
            statement(c, s, found)
        }
        Stmt::IfElse(_, z, s, r) => {
            expr(c, Around::Nothing, z, found)?;
            statement(c, s, found)?;
            statement(c, r, found)
        }
        Stmt::While(_, z, s) => {
            expr(c, Around::Nothing, z, found)?;
            statement(c, s, found)
        }
        Stmt::Do(_, s, z) => {
            statement(c, s, found)?;
            expr(c, Around::Nothing, z, found)
        }
        Stmt::For(_, f, test, step, s) => {
            clauses(c, f, test, step, found)?;
            statement(c, s, found)
        }
        Stmt::Break(_) => Ok(()),
        Stmt::Continue(_) => Ok(()),
        Stmt::Return(_, e) => returned(c, e, found),
    }
}

#[cycle(statements)]
fn block(c: &Checked, items: &Items<BlockItem>, found: &mut Items<Mark>) -> Result<(), NoMemory>
    ensures adds { OnOk result (AddsMarks c.now.notes found.old found.new (walked.in_block (spec.marks (known_of c.now.notes)) (items_of items.now))) }
    ensures valid { OnOk result (KeepsMarks c.now.notes found.old found.new) }
{
    for item in items.as_slice() {
        block_item(c, item, found)?;
    }
    Ok(())
}

#[cycle(statements)]
fn block_item(c: &Checked, item: &BlockItem, found: &mut Items<Mark>) -> Result<(), NoMemory>
    ensures adds { OnOk result (AddsMarks c.now.notes found.old found.new (in_item (spec.marks (known_of c.now.notes)) item.now)) }
    ensures valid { OnOk result (KeepsMarks c.now.notes found.old found.new) }
{
    match item {
        BlockItem::Declaration(d) => declaration(c, d, found),
        BlockItem::Stmt(s) => statement(c, s, found),
    }
}

fn external(c: &Checked, x: &External, found: &mut Items<Mark>) -> Result<(), NoMemory>
    ensures adds { OnOk result (AddsMarks c.now.notes found.old found.new (walked.in_external (spec.marks (known_of c.now.notes)) (view_external x.now))) }
    ensures valid { OnOk result (KeepsMarks c.now.notes found.old found.new) }
{
    match x {
        External::Declaration(d) => declaration(c, d, found),
        External::Definition(d) => block(c, &d.body.items, found),
    }
}

fn externals(c: &Checked, xs: &Items<External>, found: &mut Items<Mark>) -> Result<(), NoMemory>
    ensures adds { OnOk result (AddsMarks c.now.notes found.old found.new (spec.marks_among (known_of c.now.notes) (map view_external xs.now))) }
    ensures valid { OnOk result (KeepsMarks c.now.notes found.old found.new) }
{
    for x in xs.as_slice() {
        external(c, x, found)?;
    }
    Ok(())
}

/// The builtins that stand in no argument of another one, in the order of the text.
pub fn marks(alloc: Global, c: &Checked) -> Result<Items<Mark>, NoMemory>
    ensures are { IfOk result (λ found. map (mark_of c.now.notes.table.terms) found ≡ spec.marks_of (known_of c.now.notes) (view_unit c.now.unit)) }
    ensures valid { IfOk result (λ found. All (MarkIsIn c.now.notes.table.terms) found) }
{
    let mut found = Items::new(alloc);
    externals(c, &c.unit().items, &mut found)?;
    Ok(found)
}
