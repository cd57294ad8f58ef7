//! Statements: what a token does where a statement is open.

ghost use Rattle.std.specs.Prelude.{◌≡◌, false, [], ◌∷◌, ◌++◌, if◌then◌else◌, IfOk, map};
ghost use Rattle.c_tree.specs.Wf.{Env};
ghost use Rattle.c_reader.specs.Begin as begin;
ghost use Rattle.c_reader.specs.MarkedBegin as begun;
ghost use Rattle.c_reader.specs.MarkedInside as inside;
ghost use Rattle.c_reader.specs.MarkedParts as parts;
ghost use Rattle.c_reader.specs.MarkedStmts as reader;
ghost use Rattle.c_stack.specs.Gives.{Gives};
ghost use Rattle.c_symbol.specs.Seen.{view_symbol};
ghost use Rattle.c_symbol.specs.Shown.{shown_block_item, shown_first, shown_maybe, shown_stmt};
ghost use Rattle.c_stack.specs.Views.{view_body_place, view_condition, view_declaration_frame, view_expr_place, view_part, view_stmt_mode, view_stmt_place};
ghost use Rattle.c_symbol.specs.Nodes.{view_open};

use c_held::{BlockItems, Expr, ForFirst, Stmt};
use c_parts::expression::no_expr;
use c_parts::statement::first_expr;
use c_stack::inside::{Condition, ExprMode, Next, Part, StmtMode};
use c_stack::place::{
    BodyPlace, DeclarationFrame, DeclarationPlace, ExprFrame, ExprPlace, SpecsFrame, SpecsPlace,
    StmtFrame, StmtPlace,
};
use c_symbol::names::Names;
use c_symbol::node::Open;
use c_symbol::step::StepEnd;
use c_symbol::symbol::{Head, Symbol};
use read_begin::{begin_specs, begins_specs, want};
use read_block::{
    block_begin, close_block, do_next, else_begin, empty_stmt, end_for, end_if, end_if_else,
    end_while, for_body, for_next, head_begin, is_else, return_done, semi_next, with_stmt,
};
use std::alloc::{AllocError, Global};
use tok_base::Span;

/// The place of a statement's expression.
fn in_stmt(alloc: Global, o: Open, part: Part, k: StmtPlace) -> Result<ExprPlace, AllocError>
    ensures { IfOk result (λ x. view_expr_place x ≡ inside.in_stmt (view_open o) (view_part part) (view_stmt_place k)) }
{
    let place = ExprPlace::new(alloc, ExprFrame::Stmt(o, part, k))?;
    Ok(place)
}

/// The first token of a statement's expression.
fn want_part(
    alloc: Global,
    names: &Names,
    id: u32,
    o: Open,
    part: Part,
    k: StmtPlace,
    y: Symbol,
    span: Span,
) -> Result<Next, StepEnd>
    ensures { Gives names.now result (begun.want id names.now (inside.in_stmt (view_open o) (view_part part) (view_stmt_place k)) (view_symbol y.entry) span) }
{
    let place = in_stmt(alloc, o, part, k)?;
    want(alloc, names, id, place, y, span)
}

/// The first token of a declaration.
fn begin_declaration(
    alloc: Global,
    id: u32,
    place: DeclarationFrame,
    y: Symbol,
    span: Span,
) -> Result<Next, StepEnd>
    ensures { (env : Env) → Gives env result (begun.begin_specs id env (inside.of_declaration (view_declaration_frame place)) (view_symbol y.entry) span) }
{
    let inner = DeclarationPlace::new(alloc, place)?;
    let outer = SpecsPlace::new(alloc, SpecsFrame::Declaration(inner))?;
    begin_specs(alloc, id, outer, y, span)
}

/// A declaration stands only in a block.
fn declaration_begin(
    alloc: Global,
    id: u32,
    k: StmtPlace,
    y: Symbol,
    span: Span,
) -> Result<Next, StepEnd>
    ensures { (env : Env) → Gives env result (reader.declaration_begin id env (view_stmt_place k) (view_symbol y.entry) span) }
{
    match k.open() {
        StmtFrame::Block(o, items, body) => {
            begin_declaration(alloc, id, DeclarationFrame::Block(o, items, body), y, span)
        }
        _ => Err(StepEnd::Wrong),
    }
}

/// A declaration or an expression.
fn other_begin(
    alloc: Global,
    names: &Names,
    id: u32,
    k: StmtPlace,
    y: Symbol,
    span: Span,
) -> Result<Next, StepEnd>
    ensures { Gives names.now result (if begin.begins_specs names.now false (view_symbol y.entry) then reader.declaration_begin id names.now (view_stmt_place k) (view_symbol y.entry) span else begun.want id names.now (inside.in_stmt (parts.opens (inside.around_stmt (view_stmt_place k)).level span.start) inside.plain (view_stmt_place k)) (view_symbol y.entry) span) }
{
    if begins_specs(names, false, y) {
        declaration_begin(alloc, id, k, y, span)
    } else {
        let o = Open::at(k.get().around().level, span.start)?;
        want_part(alloc, names, id, o, Part::Plain, k, y, span)
    }
}

/// The first token of a statement, or of a block's item, or its end.
fn stmt_begin(
    alloc: Global,
    names: &Names,
    id: u32,
    k: StmtPlace,
    y: Symbol,
    span: Span,
) -> Result<Next, StepEnd>
    ensures { Gives names.now result (reader.stmt_begin id names.now (view_stmt_place k) (view_symbol y.entry) span) }
{
    match y {
        Symbol::Head(head) => head_begin(alloc, id, k, head, span),
        Symbol::LeftBrace => block_begin(alloc, id, k, span),
        Symbol::RightBrace => close_block(id, k, span),
        Symbol::Semicolon => empty_stmt(id, k, span),
        _ => other_begin(alloc, names, id, k, y, span),
    }
}

/// The token behind a statement in a block.
fn block_next(
    alloc: Global,
    names: &Names,
    id: u32,
    o: Open,
    items: BlockItems,
    body: BodyPlace,
    a: Stmt,
    y: Symbol,
    span: Span,
) -> Result<Next, StepEnd>
    ensures { Gives names.now result (reader.stmt_begin id names.now (inside.in_block (view_open o) (map shown_block_item items ++ parts.statement (shown_stmt a) ∷ []) (view_body_place body)) (view_symbol y.entry) span) }
{
    let items = with_stmt(items, a)?;
    let place = StmtPlace::new(alloc, StmtFrame::Block(o, items, body))?;
    stmt_begin(alloc, names, id, place, y, span)
}

/// The token behind a statement of this depth: what ends there ends with the last token.
fn stmt_next(
    alloc: Global,
    names: &Names,
    id: u32,
    end: u32,
    deep: u32,
    k: StmtPlace,
    a: Stmt,
    y: Symbol,
    span: Span,
) -> Result<Next, StepEnd>
    ensures { Gives names.now result (reader.stmt_next id end names.now deep (view_stmt_place k) (shown_stmt a) (view_symbol y.entry) span) }
{
    match k.open() {
        StmtFrame::Block(o, items, body) => {
            block_next(alloc, names, id, o.with_part(deep), items, body, a, y, span)
        }
        StmtFrame::Then(o, c, k) => {
            if is_else(y) {
                else_begin(alloc, id, o.with_part(deep), c, a, k)
            } else {
                let whole = end_if(alloc, id, end, deep, o, c, a)?;
                stmt_next(
                    alloc, names, whole.id, end, whole.deep, k, whole.stmt, y, span,
                )
            }
        }
        StmtFrame::Else(o, c, b, k) => {
            let whole = end_if_else(alloc, id, end, deep, o, c, b, a)?;
            stmt_next(
                alloc, names, whole.id, end, whole.deep, k, whole.stmt, y, span,
            )
        }
        StmtFrame::While(o, c, k) => {
            let whole = end_while(alloc, id, end, deep, o, c, a)?;
            stmt_next(
                alloc, names, whole.id, end, whole.deep, k, whole.stmt, y, span,
            )
        }
        StmtFrame::Do(o, k) => do_next(id, o.with_part(deep), k, a, y),
        StmtFrame::For(o, first, c, step, k) => {
            let whole = end_for(alloc, id, end, deep, o, first, c, step, a)?;
            stmt_next(
                alloc, names, whole.id, end, whole.deep, k, whole.stmt, y, span,
            )
        }
    }
}

// ---- the heads of statements

fn paren_next(
    alloc: Global,
    id: u32,
    o: Open,
    c: Condition,
    k: StmtPlace,
    y: Symbol,
) -> Result<Next, StepEnd>
    ensures { (env : Env) → Gives env result (reader.paren_next id env (view_open o) (view_condition c) (view_stmt_place k) (view_symbol y.entry)) }
{
    match y {
        Symbol::LeftParen => {
            let place = in_stmt(alloc, o, Part::Condition(c), k)?;
            Ok(Next::at_expr(id, ExprMode::WantExpr(place)))
        }
        _ => Err(StepEnd::Wrong),
    }
}

/// The first part of `for`, a declaration or an expression.
fn first_begin(
    alloc: Global,
    names: &Names,
    id: u32,
    o: Open,
    k: StmtPlace,
    y: Symbol,
    span: Span,
) -> Result<Next, StepEnd>
    ensures { Gives names.now result (if begin.begins_specs names.now false (view_symbol y.entry) then begun.begin_specs id names.now (inside.of_declaration (inside.of_for (view_open o) (view_stmt_place k))) (view_symbol y.entry) span else begun.want id names.now (inside.in_stmt (view_open o) inside.for_first (view_stmt_place k)) (view_symbol y.entry) span) }
{
    if begins_specs(names, false, y) {
        begin_declaration(alloc, id, DeclarationFrame::For(o, k), y, span)
    } else {
        want_part(alloc, names, id, o, Part::ForFirst, k, y, span)
    }
}

fn for_begin(
    alloc: Global,
    names: &Names,
    id: u32,
    o: Open,
    k: StmtPlace,
    y: Symbol,
    span: Span,
) -> Result<Next, StepEnd>
    ensures { Gives names.now result (reader.for_begin id names.now (view_open o) (view_stmt_place k) (view_symbol y.entry) span) }
{
    match y {
        Symbol::Semicolon => {
            let first = first_expr(no_expr());
            Ok(Next::at_stmt(id, StmtMode::WantCondition(o, first, k)))
        }
        _ => first_begin(alloc, names, id, o, k, y, span),
    }
}

fn condition_begin(
    alloc: Global,
    names: &Names,
    id: u32,
    o: Open,
    first: ForFirst,
    k: StmtPlace,
    y: Symbol,
    span: Span,
) -> Result<Next, StepEnd>
    ensures { Gives names.now result (reader.condition_begin id names.now (view_open o) (shown_first first) (view_stmt_place k) (view_symbol y.entry) span) }
{
    match y {
        Symbol::Semicolon => Ok(Next::at_stmt(id, StmtMode::WantStep(o, first, no_expr(), k))),
        _ => want_part(alloc, names, id, o, Part::ForCondition(first), k, y, span),
    }
}

fn step_begin(
    alloc: Global,
    names: &Names,
    id: u32,
    o: Open,
    first: ForFirst,
    c: Option<Expr>,
    k: StmtPlace,
    y: Symbol,
    span: Span,
) -> Result<Next, StepEnd>
    ensures { Gives names.now result (reader.step_begin id names.now (view_open o) (shown_first first) (shown_maybe c) (view_stmt_place k) (view_symbol y.entry) span) }
{
    match y {
        Symbol::RightParen => for_body(alloc, id, o, first, c, k),
        _ => want_part(alloc, names, id, o, Part::ForStep(first, c), k, y, span),
    }
}

fn return_next(
    alloc: Global,
    names: &Names,
    id: u32,
    o: Open,
    k: StmtPlace,
    y: Symbol,
    span: Span,
) -> Result<Next, StepEnd>
    ensures { Gives names.now result (reader.return_next id names.now (view_open o) (view_stmt_place k) (view_symbol y.entry) span) }
{
    match y {
        Symbol::Semicolon => return_done(id, o, k, span),
        _ => want_part(alloc, names, id, o, Part::Returned, k, y, span),
    }
}

/// What a token does among statements.
pub fn stmt_mode_next(
    alloc: Global,
    names: &Names,
    id: u32,
    end: u32,
    mode: StmtMode,
    y: Symbol,
    span: Span,
) -> Result<Next, StepEnd>
    ensures { Gives names.now result (reader.stmt_mode_next id end names.now (view_stmt_mode mode) (view_symbol y.entry) span) }
{
    match mode {
        StmtMode::WantStmt(k) => stmt_begin(alloc, names, id, k, y, span),
        StmtMode::AfterStmt(deep, k, a) => { stmt_next(alloc, names, id, end, deep, k, a, y, span) }
        StmtMode::WantParen(o, c, k) => paren_next(alloc, id, o, c, k, y),
        StmtMode::AfterFor(o, k) => for_next(id, o, k, y),
        StmtMode::ForOpened(o, k) => for_begin(alloc, names, id, o, k, y, span),
        StmtMode::WantCondition(o, first, k) => {
            condition_begin(alloc, names, id, o, first, k, y, span)
        }
        StmtMode::WantStep(o, first, c, k) => {
            step_begin(alloc, names, id, o, first, c, k, y, span)
        }
        StmtMode::WantSemi(o, a, k) => semi_next(alloc, id, o, a, k, y, span),
        StmtMode::AfterReturn(o, k) => return_next(alloc, names, id, o, k, y, span),
    }
}
