//! The token after an expression of a statement.

ghost use Rattle.std.specs.Prelude.{◌≡◌, suc};
ghost use Rattle.c_tree.specs.Marked as marked;
ghost use Rattle.c_tree.specs.Wf.{Env};
ghost use Rattle.c_reader.specs.MarkedExprs as machine;
ghost use Rattle.c_reader.specs.MarkedInside as reader;
ghost use Rattle.c_reader.specs.MarkedParts as parts;
ghost use Rattle.c_stack.specs.Gives.{Gives};
ghost use Rattle.c_symbol.specs.Seen.{view_symbol};
ghost use Rattle.c_symbol.specs.Shown.{shown, shown_first, shown_maybe, shown_stmt};
ghost use Rattle.c_stack.specs.Views.{view_condition, view_part, view_stmt_place};
ghost use Rattle.c_symbol.specs.Nodes.{view_open};

use c_held::{Expr, ForFirst, Stmt};
use c_parts::expression::some_expr;
use c_parts::statement::{first_expr, plain, return_};
use c_stack::inside::{Condition, Next, Part, StmtMode, Unended};
use c_stack::place::{StmtFrame, StmtPlace};
use c_symbol::node::{Open, ending, mark};
use c_symbol::step::StepEnd;
use c_symbol::symbol::Symbol;
use std::alloc::Global;
use tok_base::Span;

/// A statement that ends with this token.
fn is_stmt(id: u32, o: Open, d: u32, k: StmtPlace, s: Stmt) -> Result<Next, StepEnd>
    ensures { (env : Env) → Gives env result (reader.go_on (suc id) env (reader.stmt (reader.after_stmt (parts.whole (view_open o) d) (view_stmt_place k) (shown_stmt s)))) }
{
    let (next, deep) = ending(id, o, d)?;
    Ok(Next::at_stmt(next, StmtMode::AfterStmt(deep, k, s)))
}

fn plain_done(id: u32, o: Open, d: u32, k: StmtPlace, a: Expr, span: Span) -> Result<Next, StepEnd>
    ensures { (env : Env) → Gives env result (machine.part_semi id env (view_open o) d reader.plain (view_stmt_place k) (shown a) span) }
{
    is_stmt(id, o, d, k, plain(mark(o.from, span.end, id), a))
}

fn return_done(id: u32, o: Open, d: u32, k: StmtPlace, a: Expr, span: Span) -> Result<Next, StepEnd>
    ensures { (env : Env) → Gives env result (machine.part_semi id env (view_open o) d reader.returned (view_stmt_place k) (shown a) span) }
{
    is_stmt(
        id,
        o,
        d,
        k,
        return_(mark(o.from, span.end, id), some_expr(a)),
    )
}

/// The first expression of `for`.
fn first_done(id: u32, o: Open, k: StmtPlace, a: Expr) -> Result<Next, StepEnd>
    ensures { (env : Env) → Gives env result (reader.go_on id env (reader.stmt (reader.want_condition (view_open o) (marked.FirstExpr (marked.some_expr (shown a))) (view_stmt_place k)))) }
{
    let first = first_expr(some_expr(a));
    Ok(Next::at_stmt(id, StmtMode::WantCondition(o, first, k)))
}

/// The semicolon behind it.
fn part_semi(
    id: u32,
    o: Open,
    d: u32,
    p: Part,
    k: StmtPlace,
    a: Expr,
    span: Span,
) -> Result<Next, StepEnd>
    ensures { (env : Env) → Gives env result (machine.part_semi id env (view_open o) d (view_part p) (view_stmt_place k) (shown a) span) }
{
    match p {
        Part::Plain => plain_done(id, o, d, k, a, span),
        Part::Returned => return_done(id, o, d, k, a, span),
        Part::Condition(_) => Err(StepEnd::Wrong),
        Part::ForFirst => first_done(id, o.with_part(d), k, a),
        Part::ForCondition(first) => {
            let c = some_expr(a);
            Ok(Next::at_stmt(id, StmtMode::WantStep(o.with_part(d), first, c, k)))
        }
        Part::ForStep(..) => Err(StepEnd::Wrong),
    }
}

/// The statement of `if` or `while`, or the end of `do`.
fn condition_done(
    alloc: Global,
    id: u32,
    o: Open,
    c: Condition,
    k: StmtPlace,
    a: Expr,
) -> Result<Next, StepEnd>
    ensures { (env : Env) → Gives env result (machine.condition_done id env (view_open o) (view_condition c) (view_stmt_place k) (shown a)) }
{
    match c {
        Condition::If => {
            let place = StmtPlace::new(alloc, StmtFrame::Then(o, a, k))?;
            Ok(Next::at_stmt(id, StmtMode::WantStmt(place)))
        }
        Condition::While => {
            let place = StmtPlace::new(alloc, StmtFrame::While(o, a, k))?;
            Ok(Next::at_stmt(id, StmtMode::WantStmt(place)))
        }
        Condition::Do(s) => Ok(Next::at_stmt(
            id,
            StmtMode::WantSemi(o, Unended::DoneWhile(s, a), k),
        )),
    }
}

/// The last expression of `for`.
fn step_done(
    alloc: Global,
    id: u32,
    o: Open,
    first: ForFirst,
    c: Option<Expr>,
    k: StmtPlace,
    a: Expr,
) -> Result<Next, StepEnd>
    ensures { (env : Env) → Gives env result (reader.go_on id env (reader.stmt (reader.want_stmt (reader.in_for (view_open o) (shown_first first) (shown_maybe c) (marked.some_expr (shown a)) (view_stmt_place k))))) }
{
    let place = StmtPlace::new(alloc, StmtFrame::For(o, first, c, some_expr(a), k))?;
    Ok(Next::at_stmt(id, StmtMode::WantStmt(place)))
}

/// The parenthesis behind it.
fn part_paren(
    alloc: Global,
    id: u32,
    o: Open,
    d: u32,
    p: Part,
    k: StmtPlace,
    a: Expr,
) -> Result<Next, StepEnd>
    ensures { (env : Env) → Gives env result (machine.part_paren id env (view_open o) d (view_part p) (view_stmt_place k) (shown a)) }
{
    match p {
        Part::Condition(c) => condition_done(alloc, id, o.with_part(d), c, k, a),
        Part::ForStep(first, c) => step_done(alloc, id, o.with_part(d), first, c, k, a),
        _ => Err(StepEnd::Wrong),
    }
}

/// The token that ends it.
pub fn close_part(
    alloc: Global,
    id: u32,
    o: Open,
    d: u32,
    p: Part,
    k: StmtPlace,
    a: Expr,
    y: Symbol,
    span: Span,
) -> Result<Next, StepEnd>
    ensures { (env : Env) → Gives env result (machine.close_part id env (view_open o) d (view_part p) (view_stmt_place k) (shown a) (view_symbol y.entry) span) }
{
    match y {
        Symbol::Semicolon => part_semi(id, o, d, p, k, a, span),
        Symbol::RightParen => part_paren(alloc, id, o, d, p, k, a),
        _ => Err(StepEnd::Wrong),
    }
}
