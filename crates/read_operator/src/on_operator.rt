//! Operators, brackets, members and pieces of text behind an expression.

ghost use Rattle.std.specs.Prelude.{◌≡◌, suc, [], ◌∷◌, ◌++◌, map, IfOk};
ghost use Rattle.c_tree.specs.Marked as marked;
ghost use Rattle.c_tree.specs.View.{view_step};
ghost use Rattle.c_tree.specs.Wf.{Env};
ghost use Rattle.c_reader.specs.MarkedExprs as machine;
ghost use Rattle.c_reader.specs.MarkedInside as reader;
ghost use Rattle.c_reader.specs.MarkedParts as parts;
ghost use Rattle.c_stack.specs.Gives.{Gives};
ghost use Rattle.c_symbol.specs.Seen.{view_member, view_operator, view_symbol};
ghost use Rattle.c_symbol.specs.Shown.{shown, shown_declarator};
ghost use Rattle.c_stack.specs.Views.{view_bracket, view_callee, view_declarator_place, view_expr_place, view_operand};
ghost use Rattle.c_symbol.specs.Nodes.{view_had, view_open};

use c_held::{Declarator, Expr, Exprs};
use c_parts::expression::{arrow, builtin, call, dot, index, paren, post, with_argument};
use c_parts::specifier::array_of;
use c_stack::inside::{Bracket, Callee, DeclaratorMode, ExprMode, Next, Operand};
use c_stack::place::{DeclaratorPlace, ExprFrame, ExprPlace};
use c_symbol::levels::{level, needs};
use c_symbol::node::{Had, Open, mark};
use c_symbol::step::{StepEnd, following};
use c_symbol::symbol::{Member, Operator, Symbol};
use c_tree::{At, Step};
use std::alloc::{AllocError, Global};
use tok_base::{Bytes, Items, Span};

// ---- a token that takes the expression before it

/// An operator whose first operands are read wants the last one.
fn want_last(alloc: Global, id: u32, h: Had, k: ExprPlace, x: Operand) -> Result<Next, StepEnd>
    ensures { (env : Env) → Gives env result (reader.go_on id env (reader.expr (reader.want_expr (reader.in_operand (parts.takes (reader.around_expr (view_expr_place k)).level (view_had h)) (view_operand x) (view_expr_place k))))) }
{
    let o = Open::taking(k.get().around().level, h)?;
    let place = ExprPlace::new(alloc, ExprFrame::Operand(o, x, k))?;
    Ok(Next::at_expr(id, ExprMode::WantExpr(place)))
}

/// A bracket behind an expression opens.
fn want_inner(alloc: Global, id: u32, h: Had, k: ExprPlace, b: Bracket) -> Result<Next, StepEnd>
    ensures { (env : Env) → Gives env result (reader.go_on id env (reader.expr (reader.want_expr (reader.in_bracket (parts.takes (reader.around_expr (view_expr_place k)).level (view_had h)) (view_bracket b) (view_expr_place k))))) }
{
    let o = Open::taking(k.get().around().level, h)?;
    let place = ExprPlace::new(alloc, ExprFrame::Bracket(o, b, k))?;
    Ok(Next::at_expr(id, ExprMode::WantExpr(place)))
}

/// `++` or `--` behind an expression.
fn take_step(
    alloc: Global,
    id: u32,
    h: Had,
    k: ExprPlace,
    a: Expr,
    op: Step,
    span: Span,
) -> Result<Next, StepEnd>
    ensures { (env : Env) → Gives env result (reader.go_on (suc id) env (reader.expr (reader.after_expr (parts.over (view_had h)) (view_expr_place k) (marked.Post (parts.mark h.from span.end id) (shown a) (view_step op))))) }
{
    let next = following(id)?;
    let had = h.over()?;
    let whole = post(alloc, mark(h.from, span.end, id), a, op)?;
    Ok(Next::at_expr(next, ExprMode::AfterExpr(had, k, whole)))
}

/// `.` or `->` behind an expression.
fn take_member(id: u32, h: Had, k: ExprPlace, a: Expr, m: Member) -> Result<Next, StepEnd>
    ensures { (env : Env) → Gives env result (reader.go_on id env (reader.expr (reader.want_member (parts.takes (reader.around_expr (view_expr_place k)).level (view_had h)) (shown a) (view_member m) (view_expr_place k)))) }
{
    let o = Open::taking(k.get().around().level, h)?;
    Ok(Next::at_expr(id, ExprMode::WantMember(o, a, m, k)))
}

/// The parenthesis of a call.
fn take_call(id: u32, h: Had, k: ExprPlace, a: Expr) -> Result<Next, StepEnd>
    ensures { (env : Env) → Gives env result (reader.go_on id env (reader.expr (reader.args_opened (parts.takes (reader.around_expr (view_expr_place k)).level (view_had h)) (shown a) (view_expr_place k)))) }
{
    let o = Open::taking(k.get().around().level, h)?;
    Ok(Next::at_expr(id, ExprMode::ArgsOpened(o, a, k)))
}

fn take_operator(
    alloc: Global,
    id: u32,
    h: Had,
    k: ExprPlace,
    a: Expr,
    op: Operator,
    span: Span,
) -> Result<Next, StepEnd>
    ensures { (env : Env) → Gives env result (machine.take_operator id env (view_had h) (view_expr_place k) (shown a) (view_operator op) span) }
{
    match op {
        Operator::Binary(op) => want_last(alloc, id, h, k, Operand::Binary(a, op)),
        Operator::Assign(op) => want_last(alloc, id, h, k, Operand::Assign(a, op)),
        Operator::Step(op) => take_step(alloc, id, h, k, a, op, span),
        Operator::Negation(_) => Err(StepEnd::Wrong),
        Operator::Question => want_inner(alloc, id, h, k, Bracket::Middle(a)),
        Operator::Member(m) => take_member(id, h, k, a, m),
    }
}

fn take_expr(
    alloc: Global,
    id: u32,
    h: Had,
    k: ExprPlace,
    a: Expr,
    y: Symbol,
    span: Span,
) -> Result<Next, StepEnd>
    ensures { (env : Env) → Gives env result (machine.take_expr id env (view_had h) (view_expr_place k) (shown a) (view_symbol y.entry) span) }
{
    match y {
        Symbol::Operator(op) => take_operator(alloc, id, h, k, a, op, span),
        Symbol::LeftParen => take_call(id, h, k, a),
        Symbol::LeftBracket => want_inner(alloc, id, h, k, Bracket::Index(a)),
        Symbol::Comma => want_last(alloc, id, h, k, Operand::Comma(a)),
        _ => Err(StepEnd::Wrong),
    }
}

// ---- a token that closes what is open

/// A node that ends with this token.
fn is_whole(id: u32, o: Open, d: u32, k: ExprPlace, whole: Expr) -> Result<Next, StepEnd>
    ensures { (env : Env) → Gives env result (reader.go_on (suc id) env (reader.expr (reader.after_expr (parts.closed (view_open o) d) (view_expr_place k) (shown whole)))) }
{
    let next = following(id)?;
    let had = o.closed(d)?;
    Ok(Next::at_expr(next, ExprMode::AfterExpr(had, k, whole)))
}

fn close_paren(
    alloc: Global,
    id: u32,
    o: Open,
    d: u32,
    k: ExprPlace,
    a: Expr,
    y: Symbol,
    span: Span,
) -> Result<Next, StepEnd>
    ensures { (env : Env) → Gives env result (machine.close_paren id env (view_open o) d (view_expr_place k) (shown a) (view_symbol y.entry) span) }
{
    match y {
        Symbol::RightParen => {
            let whole = paren(alloc, mark(o.from, span.end, id), a)?;
            is_whole(id, o, d, k, whole)
        }
        _ => Err(StepEnd::Wrong),
    }
}

fn close_index(
    alloc: Global,
    id: u32,
    o: Open,
    d: u32,
    k: ExprPlace,
    left: Expr,
    a: Expr,
    y: Symbol,
    span: Span,
) -> Result<Next, StepEnd>
    ensures { (env : Env) → Gives env result (machine.close_index id env (view_open o) d (view_expr_place k) (shown left) (shown a) (view_symbol y.entry) span) }
{
    match y {
        Symbol::RightBracket => {
            let whole = index(alloc, mark(o.from, span.end, id), left, a)?;
            is_whole(id, o, d, k, whole)
        }
        _ => Err(StepEnd::Wrong),
    }
}

fn call_of(alloc: Global, at: At, callee: Callee, args: Exprs) -> Result<Expr, AllocError>
    ensures { IfOk result (λ e. shown e ≡ machine.call_of at (view_callee callee) (parts.exprs_of (map shown args))) }
{
    match callee {
        Callee::Function(f) => call(alloc, at, f, args),
        Callee::Builtin => Ok(builtin(at, args)),
    }
}

fn next_arg(
    alloc: Global,
    id: u32,
    o: Open,
    k: ExprPlace,
    callee: Callee,
    args: Exprs,
) -> Result<Next, StepEnd>
    ensures { (env : Env) → Gives env result (reader.go_on id env (reader.expr (reader.want_expr (reader.in_bracket (view_open o) (reader.of_args (view_callee callee) (map shown args)) (view_expr_place k))))) }
{
    let place = ExprPlace::new(alloc, ExprFrame::Bracket(o, Bracket::Args(callee, args), k))?;
    Ok(Next::at_expr(id, ExprMode::WantExpr(place)))
}

/// The token after an argument, which is the last of those.
fn close_args(
    alloc: Global,
    id: u32,
    o: Open,
    k: ExprPlace,
    callee: Callee,
    args: Exprs,
    y: Symbol,
    span: Span,
) -> Result<Next, StepEnd>
    ensures { (env : Env) → Gives env result (machine.close_args id env (view_open o) (view_expr_place k) (view_callee callee) (map shown args) (view_symbol y.entry) span) }
{
    match y {
        Symbol::Comma => next_arg(alloc, id, o, k, callee, args),
        Symbol::RightParen => {
            let whole = call_of(alloc, mark(o.from, span.end, id), callee, args)?;
            is_whole(id, o, 0, k, whole)
        }
        _ => Err(StepEnd::Wrong),
    }
}

/// `c ? a :`
fn middle_done(
    alloc: Global,
    id: u32,
    o: Open,
    k: ExprPlace,
    c: Expr,
    a: Expr,
) -> Result<Next, StepEnd>
    ensures { (env : Env) → Gives env result (reader.go_on id env (reader.expr (reader.want_expr (reader.in_operand (view_open o) (reader.of_cond (shown c) (shown a)) (view_expr_place k))))) }
{
    let place = ExprPlace::new(alloc, ExprFrame::Operand(o, Operand::Cond(c, a), k))?;
    Ok(Next::at_expr(id, ExprMode::WantExpr(place)))
}

fn close_middle(
    alloc: Global,
    id: u32,
    o: Open,
    d: u32,
    k: ExprPlace,
    c: Expr,
    a: Expr,
    y: Symbol,
) -> Result<Next, StepEnd>
    ensures { (env : Env) → Gives env result (machine.close_middle id env (view_open o) d (view_expr_place k) (shown c) (shown a) (view_symbol y.entry)) }
{
    match y {
        Symbol::Colon => middle_done(alloc, id, o.with_part(d), k, c, a),
        _ => Err(StepEnd::Wrong),
    }
}

/// The token behind an expression in a bracket, or in the middle of `c ? a : b`.
pub fn close_bracket(
    alloc: Global,
    id: u32,
    o: Open,
    d: u32,
    b: Bracket,
    k: ExprPlace,
    a: Expr,
    y: Symbol,
    span: Span,
) -> Result<Next, StepEnd>
    ensures { (env : Env) → Gives env result (machine.close_bracket id env (view_open o) d (view_bracket b) (view_expr_place k) (shown a) (view_symbol y.entry) span) }
{
    match b {
        Bracket::Paren => close_paren(alloc, id, o, d, k, a, y, span),
        Bracket::Index(left) => close_index(alloc, id, o, d, k, left, a, y, span),
        Bracket::Args(callee, args) => {
            let args = with_argument(args, a)?;
            close_args(alloc, id, o.with_part(d), k, callee, args, y, span)
        }
        Bracket::Middle(c) => close_middle(alloc, id, o, d, k, c, a, y),
    }
}

/// A declarator that ends with this token.
fn is_declarator(
    id: u32,
    o: Open,
    d: u32,
    k: DeclaratorPlace,
    whole: Declarator,
) -> Result<Next, StepEnd>
    ensures { (env : Env) → Gives env result (reader.go_on (suc id) env (reader.declarator (reader.after_declarator (parts.closed (view_open o) d) (view_declarator_place k) (shown_declarator whole)))) }
{
    let next = following(id)?;
    let had = o.closed(d)?;
    let mode = DeclaratorMode::AfterDeclarator(had, k, whole);
    Ok(Next::at_declarator(next, mode))
}

/// The token behind the length of an array.
pub fn close_array(
    alloc: Global,
    id: u32,
    o: Open,
    d: u32,
    x: Declarator,
    k: DeclaratorPlace,
    a: Expr,
    y: Symbol,
    span: Span,
) -> Result<Next, StepEnd>
    ensures { (env : Env) → Gives env result (machine.close_array id env (view_open o) d (shown_declarator x) (view_declarator_place k) (shown a) (view_symbol y.entry) span) }
{
    match y {
        Symbol::RightBracket => {
            let whole = array_of(alloc, mark(o.from, span.end, id), x, a)?;
            is_declarator(id, o, d, k, whole)
        }
        _ => Err(StepEnd::Wrong),
    }
}

// ---- the token after an expression

/// The token takes the expression.
pub fn take(
    alloc: Global,
    id: u32,
    h: Had,
    k: ExprPlace,
    a: Expr,
    y: Symbol,
    span: Span,
) -> Result<Next, StepEnd>
    ensures { (env : Env) → Gives env result (machine.take id env (view_had h) (view_expr_place k) (shown a) (view_symbol y.entry) span) }
{
    if needs(y) <= level(a.get()) {
        take_expr(alloc, id, h, k, a, y, span)
    } else {
        Err(StepEnd::Wrong)
    }
}

// ---- the other places in an expression

/// The string literals with one more.
fn with_piece(alloc: Global, mut pieces: Items<Bytes>, x: &[u8]) -> Result<Items<Bytes>, AllocError>
    ensures { IfOk result (λ xs. xs ≡ pieces ++ x.now ∷ []) }
{
    let piece = Items::from_slice(alloc, x)?;
    pieces.push(piece)?;
    Ok(pieces)
}

/// A string literal more.
pub fn more_text(
    alloc: Global,
    id: u32,
    from: u32,
    k: ExprPlace,
    pieces: Items<Bytes>,
    x: &[u8],
) -> Result<Next, StepEnd>
    ensures { (env : Env) → Gives env result (reader.go_on id env (reader.expr (reader.after_text from (view_expr_place k) (pieces ++ x.now ∷ [])))) }
{
    let pieces = with_piece(alloc, pieces, x)?;
    Ok(Next::at_expr(id, ExprMode::AfterText(from, k, pieces)))
}

/// A call without arguments.
pub fn empty_call(
    alloc: Global,
    id: u32,
    o: Open,
    f: Expr,
    k: ExprPlace,
    span: Span,
) -> Result<Next, StepEnd>
    ensures { (env : Env) → Gives env result (reader.go_on (suc id) env (reader.expr (reader.after_expr (parts.closed (view_open o) 0) (view_expr_place k) (marked.Call (parts.mark o.from span.end id) (shown f) marked.no_exprs)))) }
{
    let whole = call(alloc, mark(o.from, span.end, id), f, Exprs::new(alloc))?;
    is_whole(id, o, 0, k, whole)
}

/// The parenthesis of the builtin.
fn builtin_opened(alloc: Global, id: u32, o: Open, k: ExprPlace) -> Result<Next, StepEnd>
    ensures { (env : Env) → Gives env result (reader.go_on id env (reader.expr (reader.want_expr (reader.in_bracket (view_open o) (reader.of_args reader.of_builtin []) (view_expr_place k))))) }
{
    next_arg(alloc, id, o, k, Callee::Builtin, Exprs::new(alloc))
}

/// The token behind `__builtin_infer_alloc_token`.
pub fn builtin_next(
    alloc: Global,
    id: u32,
    o: Open,
    k: ExprPlace,
    y: Symbol,
) -> Result<Next, StepEnd>
    ensures { (env : Env) → Gives env result (machine.builtin_next id env (view_open o) (view_expr_place k) (view_symbol y.entry)) }
{
    match y {
        Symbol::LeftParen => builtin_opened(alloc, id, o, k),
        _ => Err(StepEnd::Wrong),
    }
}

fn member_of(alloc: Global, at: At, m: Member, a: Expr, x: &[u8]) -> Result<Expr, AllocError>
    ensures { IfOk result (λ e. shown e ≡ machine.member_of at (view_member m) (shown a) x.now) }
{
    match m {
        Member::Dot => dot(alloc, at, a, x),
        Member::Arrow => arrow(alloc, at, a, x),
    }
}

/// The token behind `.` or `->`.
pub fn member_next(
    alloc: Global,
    id: u32,
    o: Open,
    a: Expr,
    m: Member,
    k: ExprPlace,
    y: Symbol,
    span: Span,
) -> Result<Next, StepEnd>
    ensures { (env : Env) → Gives env result (machine.member_next id env (view_open o) (shown a) (view_member m) (view_expr_place k) (view_symbol y.entry) span) }
{
    match y {
        Symbol::Name(x) => {
            let whole = member_of(alloc, mark(o.from, span.end, id), m, a, x)?;
            is_whole(id, o, 0, k, whole)
        }
        _ => Err(StepEnd::Wrong),
    }
}
