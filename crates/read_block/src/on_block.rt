//! Blocks, and statements that begin or end with a token of their own.

ghost use Rattle.std.specs.Prelude.{◌≡◌, suc, max, false, [], ◌∷◌, ◌++◌, if◌then◌else◌, None, IfOk, IfErr, map};
ghost use Rattle.c_tree.specs.Marked as marked;
ghost use Rattle.c_tree.specs.Wf.{Env};
ghost use Rattle.c_reader.specs.MarkedInside as inside;
ghost use Rattle.c_reader.specs.MarkedParts as parts;
ghost use Rattle.c_reader.specs.MarkedStmts as reader;
ghost use Rattle.c_reader.specs.Stmts as machine;
ghost use Rattle.c_stack.specs.Gives.{Gives};
ghost use Rattle.c_symbol.specs.Seen.{view_head, view_symbol};
ghost use Rattle.c_symbol.specs.Shown.{shown, shown_block_item, shown_declarator, shown_external, shown_first, shown_maybe, shown_specs, shown_stmt};
ghost use Rattle.c_stack.specs.Views.{view_body_frame, view_stmt_place, view_unended};
ghost use Rattle.c_symbol.specs.Nodes.{view_open};
ghost use Rattle.c_symbol.specs.declared.step.StepEnd.TheVariants.{NoMemory};

use c_held::{BlockItems, Declarator, Expr, Externals, ForFirst, Specs, Stmt};
use c_parts::expression::no_expr;
use c_parts::statement::{
    block, break_, continue_, defines, do_while, empty, for_, if_, if_else, return_,
    statement_item, while_, with_block_item, with_external,
};
use c_stack::inside::{Condition, Mode, Next, StmtMode, Unended};
use c_stack::place::{BodyFrame, BodyPlace, StmtFrame, StmtPlace};
use c_symbol::node::{Open, ending, mark};
use c_symbol::step::{StepEnd, following};
use c_symbol::symbol::{Head, Symbol};
use c_tree::At;
use std::alloc::Global;
use tok_base::Span;

// ---- where a statement is still to come

/// The body of `do`.
fn do_begin(alloc: Global, id: u32, o: Open, k: StmtPlace) -> Result<Next, StepEnd>
    ensures { (env : Env) → Gives env result (inside.go_on id env (inside.stmt (inside.want_stmt (inside.in_do (view_open o) (view_stmt_place k))))) }
{
    let place = StmtPlace::new(alloc, StmtFrame::Do(o, k))?;
    Ok(Next::at_stmt(id, StmtMode::WantStmt(place)))
}

/// A word that begins a statement.
pub fn head_begin(
    alloc: Global,
    id: u32,
    k: StmtPlace,
    head: Head,
    span: Span,
) -> Result<Next, StepEnd>
    ensures { (env : Env) → Gives env result (reader.head_begin id env (view_stmt_place k) (view_head head) span) }
{
    let o = Open::at(k.get().around().level, span.start)?;
    match head {
        Head::If => Ok(Next::at_stmt(id, StmtMode::WantParen(o, Condition::If, k))),
        Head::Else => Err(StepEnd::Wrong),
        Head::While => Ok(Next::at_stmt(id, StmtMode::WantParen(o, Condition::While, k))),
        Head::Do => do_begin(alloc, id, o, k),
        Head::For => Ok(Next::at_stmt(id, StmtMode::AfterFor(o, k))),
        Head::Break => Ok(Next::at_stmt(id, StmtMode::WantSemi(o, Unended::Broken, k))),
        Head::Continue => Ok(Next::at_stmt(id, StmtMode::WantSemi(o, Unended::Continued, k))),
        Head::Return => Ok(Next::at_stmt(id, StmtMode::AfterReturn(o, k))),
    }
}

/// The number of a definition whose body has this number and is open so, the next number, and the greatest
/// depth of the external declarations with it.
fn definition_ending(id: u32, deep: u32, o: Open, body: Open) -> Result<(u32, u32, u32), StepEnd>
    ensures ok { IfOk result (λ r. r ≡ (suc id, suc (suc id), max deep (parts.whole (view_open o) (parts.whole (view_open body) 0)))) }
    ensures err { IfErr result (λ e. e ≡ NoMemory) }
{
    let outer = following(id)?;
    let next = following(outer)?;
    let inner = body.whole(0)?;
    let whole = o.whole(inner)?;
    Ok((outer, next, deep.max(whole)))
}

/// The end of a body, which is its definition's.
fn definition_done(
    id: u32,
    o: Open,
    deep: u32,
    node: Open,
    done: Externals,
    specs: Specs,
    declarator: Declarator,
    items: BlockItems,
    span: Span,
) -> Result<Next, StepEnd>
    ensures { (env : Env) → Gives env result (reader.block_done id env (view_open o) (inside.of_definition deep (view_open node) (map shown_external done) (shown_specs specs) (shown_declarator declarator)) (parts.items_of (map shown_block_item items)) span) }
{
    let (outer, next, depth) = definition_ending(id, deep, node, o)?;
    let at = mark(node.from, span.end, outer);
    let body_at = mark(o.from, span.end, id);
    let x = defines(at, specs, declarator, body_at, items);
    let done = with_external(done, x)?;
    Ok(Next {
        id: next,
        name: None,
        mode: Mode::WantExternal(depth, done),
    })
}

/// A statement that ends with this token.
fn stmt_done(id: u32, deep: u32, k: StmtPlace, a: Stmt) -> Result<Next, StepEnd>
    ensures { (env : Env) → Gives env result (inside.go_on (suc id) env (inside.stmt (inside.after_stmt deep (view_stmt_place k) (shown_stmt a)))) }
{
    let next = following(id)?;
    Ok(Next::at_stmt(next, StmtMode::AfterStmt(deep, k, a)))
}

/// A block among statements.
fn block_stmt_done(
    id: u32,
    o: Open,
    k: StmtPlace,
    items: BlockItems,
    span: Span,
) -> Result<Next, StepEnd>
    ensures { (env : Env) → Gives env result (reader.block_done id env (view_open o) (inside.of_stmt (view_stmt_place k)) (parts.items_of (map shown_block_item items)) span) }
{
    let deep = o.whole(0)?;
    let a = block(mark(o.from, span.end, id), items);
    stmt_done(id, deep, k, a)
}

fn block_done(
    id: u32,
    o: Open,
    body: BodyFrame,
    items: BlockItems,
    span: Span,
) -> Result<Next, StepEnd>
    ensures { (env : Env) → Gives env result (reader.block_done id env (view_open o) (view_body_frame body) (parts.items_of (map shown_block_item items)) span) }
{
    match body {
        BodyFrame::Definition(deep, node, done, specs, declarator) => {
            definition_done(id, o, deep, node, done, specs, declarator, items, span)
        }
        BodyFrame::Stmt(k) => block_stmt_done(id, o, k, items, span),
    }
}

/// The `}` of a block.
pub fn close_block(id: u32, k: StmtPlace, span: Span) -> Result<Next, StepEnd>
    ensures { (env : Env) → Gives env result (reader.close_block id env (view_stmt_place k) span) }
{
    match k.open() {
        StmtFrame::Block(o, items, body) => block_done(id, o, body.open(), items, span),
        _ => Err(StepEnd::Wrong),
    }
}

/// `{` among statements.
pub fn block_begin(alloc: Global, id: u32, k: StmtPlace, span: Span) -> Result<Next, StepEnd>
    ensures { (env : Env) → Gives env result (inside.go_on id env (inside.stmt (inside.want_stmt (inside.in_block (parts.opens (inside.around_stmt (view_stmt_place k)).level span.start) [] (inside.of_stmt (view_stmt_place k)))))) }
{
    let o = Open::at(k.get().around().level, span.start)?;
    let body = BodyPlace::new(alloc, BodyFrame::Stmt(k))?;
    let place = StmtPlace::new(alloc, StmtFrame::Block(o, BlockItems::new(alloc), body))?;
    Ok(Next::at_stmt(id, StmtMode::WantStmt(place)))
}

/// A semicolon alone.
pub fn empty_stmt(id: u32, k: StmtPlace, span: Span) -> Result<Next, StepEnd>
    ensures { (env : Env) → Gives env result (inside.go_on (suc id) env (inside.stmt (inside.after_stmt 1 (view_stmt_place k) (marked.ExprStmt (parts.mark span.start span.end id) marked.no_expr)))) }
{
    let a = empty(mark(span.start, span.end, id));
    stmt_done(id, 1, k, a)
}

// ---- behind a statement

/// Whether it is `else`.
pub fn is_else(y: Symbol) -> bool
    ensures { result ≡ machine.is_else (view_symbol y.entry) }
{
    match y {
        Symbol::Head(head) => is_else_word(head),
        _ => false,
    }
}

fn is_else_word(head: Head) -> bool
    ensures { result ≡ machine.is_else_word (view_head head) }
{
    match head {
        Head::Else => true,
        _ => false,
    }
}

fn is_while(y: Symbol) -> bool
    ensures { result ≡ machine.is_while (view_symbol y.entry) }
{
    match y {
        Symbol::Head(head) => is_while_word(head),
        _ => false,
    }
}

fn is_while_word(head: Head) -> bool
    ensures { result ≡ machine.is_while_word (view_head head) }
{
    match head {
        Head::While => true,
        _ => false,
    }
}

/// The items with a statement more.
pub fn with_stmt(items: BlockItems, a: Stmt) -> Result<BlockItems, StepEnd>
    ensures ok { IfOk result (λ is. map shown_block_item is ≡ map shown_block_item items ++ parts.statement (shown_stmt a) ∷ []) }
    ensures err { IfErr result (λ e. e ≡ NoMemory) }
{
    Ok(with_block_item(items, statement_item(a))?)
}

/// `else`
pub fn else_begin(
    alloc: Global,
    id: u32,
    o: Open,
    c: Expr,
    a: Stmt,
    k: StmtPlace,
) -> Result<Next, StepEnd>
    ensures { (env : Env) → Gives env result (inside.go_on id env (inside.stmt (inside.want_stmt (inside.in_else (view_open o) (shown c) (shown_stmt a) (view_stmt_place k))))) }
{
    let place = StmtPlace::new(alloc, StmtFrame::Else(o, c, a, k))?;
    Ok(Next::at_stmt(id, StmtMode::WantStmt(place)))
}

/// `while` behind the body of `do`.
pub fn do_next(id: u32, o: Open, k: StmtPlace, a: Stmt, y: Symbol) -> Result<Next, StepEnd>
    ensures { (env : Env) → Gives env result (if machine.is_while (view_symbol y.entry) then inside.go_on id env (inside.stmt (inside.want_paren (view_open o) (inside.of_do (shown_stmt a)) (view_stmt_place k))) else None) }
{
    if is_while(y) {
        Ok(Next::at_stmt(id, StmtMode::WantParen(o, Condition::Do(a), k)))
    } else {
        Err(StepEnd::Wrong)
    }
}

/// A statement that ended: the number of the next node, and its depth.
#[derive(Drop)]
pub struct Whole {
    pub id: u32,
    pub deep: u32,
    pub stmt: Stmt,
}

/// `if` without `else`.
pub fn end_if(
    alloc: Global,
    id: u32,
    end: u32,
    d: u32,
    o: Open,
    c: Expr,
    a: Stmt,
) -> Result<Whole, StepEnd>
    ensures id { IfOk result (λ e. e.id ≡ suc id) }
    ensures deep { IfOk result (λ e. e.deep ≡ parts.whole (view_open o) d) }
    ensures stmt { IfOk result (λ e. shown_stmt e.stmt ≡ marked.If (parts.mark o.from end id) (shown c) (shown_stmt a)) }
    ensures err { IfErr result (λ e. e ≡ NoMemory) }
{
    let stmt = if_(alloc, mark(o.from, end, id), c, a)?;
    let (id, deep) = ending(id, o, d)?;
    Ok(Whole { id, deep, stmt })
}

/// `if` with `else`.
pub fn end_if_else(
    alloc: Global,
    id: u32,
    end: u32,
    d: u32,
    o: Open,
    c: Expr,
    b: Stmt,
    a: Stmt,
) -> Result<Whole, StepEnd>
    ensures id { IfOk result (λ e. e.id ≡ suc id) }
    ensures deep { IfOk result (λ e. e.deep ≡ parts.whole (view_open o) d) }
    ensures stmt { IfOk result (λ e. shown_stmt e.stmt ≡ marked.IfElse (parts.mark o.from end id) (shown c) (shown_stmt b) (shown_stmt a)) }
    ensures err { IfErr result (λ e. e ≡ NoMemory) }
{
    let stmt = if_else(alloc, mark(o.from, end, id), c, b, a)?;
    let (id, deep) = ending(id, o, d)?;
    Ok(Whole { id, deep, stmt })
}

/// `while`
pub fn end_while(
    alloc: Global,
    id: u32,
    end: u32,
    d: u32,
    o: Open,
    c: Expr,
    a: Stmt,
) -> Result<Whole, StepEnd>
    ensures id { IfOk result (λ e. e.id ≡ suc id) }
    ensures deep { IfOk result (λ e. e.deep ≡ parts.whole (view_open o) d) }
    ensures stmt { IfOk result (λ e. shown_stmt e.stmt ≡ marked.While (parts.mark o.from end id) (shown c) (shown_stmt a)) }
    ensures err { IfErr result (λ e. e ≡ NoMemory) }
{
    let stmt = while_(alloc, mark(o.from, end, id), c, a)?;
    let (id, deep) = ending(id, o, d)?;
    Ok(Whole { id, deep, stmt })
}

/// `for`
pub fn end_for(
    alloc: Global,
    id: u32,
    end: u32,
    d: u32,
    o: Open,
    first: ForFirst,
    c: Option<Expr>,
    step: Option<Expr>,
    a: Stmt,
) -> Result<Whole, StepEnd>
    ensures id { IfOk result (λ e. e.id ≡ suc id) }
    ensures deep { IfOk result (λ e. e.deep ≡ parts.whole (view_open o) d) }
    ensures stmt { IfOk result (λ e. shown_stmt e.stmt ≡ marked.For (parts.mark o.from end id) (shown_first first) (shown_maybe c) (shown_maybe step) (shown_stmt a)) }
    ensures err { IfErr result (λ e. e ≡ NoMemory) }
{
    let stmt = for_(alloc, mark(o.from, end, id), first, c, step, a)?;
    let (id, deep) = ending(id, o, d)?;
    Ok(Whole { id, deep, stmt })
}

/// The token behind `for`.
pub fn for_next(id: u32, o: Open, k: StmtPlace, y: Symbol) -> Result<Next, StepEnd>
    ensures { (env : Env) → Gives env result (reader.for_next id env (view_open o) (view_stmt_place k) (view_symbol y.entry)) }
{
    match y {
        Symbol::LeftParen => Ok(Next::at_stmt(id, StmtMode::ForOpened(o, k))),
        _ => Err(StepEnd::Wrong),
    }
}

/// The body of `for` without a step.
pub fn for_body(
    alloc: Global,
    id: u32,
    o: Open,
    first: ForFirst,
    c: Option<Expr>,
    k: StmtPlace,
) -> Result<Next, StepEnd>
    ensures { (env : Env) → Gives env result (inside.go_on id env (inside.stmt (inside.want_stmt (inside.in_for (view_open o) (shown_first first) (shown_maybe c) marked.no_expr (view_stmt_place k))))) }
{
    let place = StmtPlace::new(alloc, StmtFrame::For(o, first, c, no_expr(), k))?;
    Ok(Next::at_stmt(id, StmtMode::WantStmt(place)))
}

// ---- statements that end with a semicolon

fn ended(alloc: Global, at: At, a: Unended) -> Result<Stmt, StepEnd>
    ensures ok { IfOk result (λ s. shown_stmt s ≡ reader.ended at (view_unended a)) }
    ensures err { IfErr result (λ e. e ≡ NoMemory) }
{
    match a {
        Unended::Broken => Ok(break_(at)),
        Unended::Continued => Ok(continue_(at)),
        Unended::DoneWhile(s, c) => Ok(do_while(alloc, at, s, c)?),
    }
}

/// The semicolon of a statement.
fn semi_done(
    alloc: Global,
    id: u32,
    o: Open,
    a: Unended,
    k: StmtPlace,
    span: Span,
) -> Result<Next, StepEnd>
    ensures { (env : Env) → Gives env result (inside.go_on (suc id) env (inside.stmt (inside.after_stmt (parts.whole (view_open o) 0) (view_stmt_place k) (reader.ended (parts.mark o.from span.end id) (view_unended a))))) }
{
    let deep = o.whole(0)?;
    let a = ended(alloc, mark(o.from, span.end, id), a)?;
    stmt_done(id, deep, k, a)
}

/// The token behind a statement that lacks its semicolon.
pub fn semi_next(
    alloc: Global,
    id: u32,
    o: Open,
    a: Unended,
    k: StmtPlace,
    y: Symbol,
    span: Span,
) -> Result<Next, StepEnd>
    ensures { (env : Env) → Gives env result (reader.semi_next id env (view_open o) (view_unended a) (view_stmt_place k) (view_symbol y.entry) span) }
{
    match y {
        Symbol::Semicolon => semi_done(alloc, id, o, a, k, span),
        _ => Err(StepEnd::Wrong),
    }
}

/// `return;`
pub fn return_done(id: u32, o: Open, k: StmtPlace, span: Span) -> Result<Next, StepEnd>
    ensures { (env : Env) → Gives env result (inside.go_on (suc id) env (inside.stmt (inside.after_stmt (parts.whole (view_open o) 0) (view_stmt_place k) (marked.Return (parts.mark o.from span.end id) marked.no_expr)))) }
{
    let deep = o.whole(0)?;
    let a = return_(mark(o.from, span.end, id), no_expr());
    stmt_done(id, deep, k, a)
}
