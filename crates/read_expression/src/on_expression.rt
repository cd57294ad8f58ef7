//! Expressions: the token after one takes it as a part, or closes what is open.

ghost use Rattle.std.specs.Prelude.{suc, []};
ghost use Rattle.c_tree.specs.Marked as marked;
ghost use Rattle.c_tree.specs.Wf.{Env};
ghost use Rattle.c_reader.specs.MarkedBegin as begin;
ghost use Rattle.c_reader.specs.MarkedExprs as machine;
ghost use Rattle.c_reader.specs.MarkedInside as reader;
ghost use Rattle.c_reader.specs.MarkedParts as parts;
ghost use Rattle.c_reader.specs.MarkedSpecs as specs;
ghost use Rattle.c_stack.specs.Gives.{Gives};
ghost use Rattle.read_close.specs.Reduced.{view_reduced};
ghost use Rattle.c_symbol.specs.Seen.{view_symbol};
ghost use Rattle.c_symbol.specs.Shown.{shown};
ghost use Rattle.c_stack.specs.Views.{view_expr_mode, view_expr_place, view_in_enum, view_place};
ghost use Rattle.c_symbol.specs.Nodes.{view_had, view_open};

use c_held::{Expr, Exprs};
use c_parts::expression::text;
use c_parts::specifier::some_value;
use c_parts::statement::plain_init;
use c_stack::inside::{Bracket, Callee, ExprMode, InEnum, Next, Operand, TypePlace};
use c_stack::place::{ExprFrame, ExprPlace, SpecsFrame, SpecsPlace};
use c_symbol::levels::tight;
use c_symbol::names::Names;
use c_symbol::node::{Had, Open, mark};
use c_symbol::step::{StepEnd, following};
use c_symbol::symbol::Symbol;
use read_begin::{begin_specs, begins_specs, want};
use read_close::{Reduced, close_part, reduce};
use read_item::{add_enumerator, enumerator_end, init_next};
use read_operator::{
    builtin_next, close_array, close_bracket, empty_call, member_next, more_text, take,
};
use std::alloc::Global;
use tok_base::{Bytes, Items, Span};

/// The value of an enumerator ends with the last token.
fn close_value(
    alloc: Global,
    id: u32,
    end: u32,
    o: Open,
    d: u32,
    x: Bytes,
    k: InEnum,
    a: Expr,
    y: Symbol,
    span: Span,
) -> Result<Next, StepEnd>
    ensures { (env : Env) → Gives env result (specs.enumerator_end (suc id) env (specs.add_enumerator id end (view_open o) d (view_in_enum k) x (marked.some_expr (shown a))) (view_symbol y.entry) span) }
{
    let next = following(id)?;
    let value = some_value(alloc, a)?;
    let k = add_enumerator(id, end, o, d, k, x, value)?;
    enumerator_end(next, k, y, span)
}

fn close(
    alloc: Global,
    id: u32,
    end: u32,
    d: u32,
    k: ExprPlace,
    a: Expr,
    y: Symbol,
    span: Span,
) -> Result<Next, StepEnd>
    ensures { (env : Env) → Gives env result (machine.close id end env d (view_expr_place k) (shown a) (view_symbol y.entry) span) }
{
    match k.open() {
        ExprFrame::Operand(..) => Err(StepEnd::Wrong),
        ExprFrame::Bracket(o, b, k) => close_bracket(alloc, id, o, d, b, k, a, y, span),
        ExprFrame::Stmt(o, p, k) => close_part(alloc, id, o, d, p, k, a, y, span),
        ExprFrame::Init(k) => init_next(alloc, id, end, d, k, plain_init(a), y, span),
        ExprFrame::Value(o, x, read, place) => {
            close_value(alloc, id, end, o, d, x, InEnum { read, place }, a, y, span)
        }
        ExprFrame::Array(o, x, k) => close_array(alloc, id, o, d, x, k, a, y, span),
    }
}

fn next(alloc: Global, end: u32, r: Reduced, y: Symbol, span: Span) -> Result<Next, StepEnd>
    ensures { (env : Env) → Gives env result (machine.next end env (view_reduced r) (view_symbol y.entry) span) }
{
    if r.place.get().place() <= tight(y) {
        take(alloc, r.id, r.had, r.place, r.expr, y, span)
    } else {
        close(alloc, r.id, end, r.had.deep, r.place, r.expr, y, span)
    }
}

/// The token after an expression.
fn after(
    alloc: Global,
    id: u32,
    end: u32,
    h: Had,
    k: ExprPlace,
    a: Expr,
    y: Symbol,
    span: Span,
) -> Result<Next, StepEnd>
    ensures { (env : Env) → Gives env result (machine.after id end env (view_had h) (view_expr_place k) (shown a) (view_symbol y.entry) span) }
{
    let r = reduce(alloc, id, end, h, k, a, tight(y))?;
    next(alloc, end, r, y, span)
}

/// The string literals end before this token.
fn text_done(
    alloc: Global,
    id: u32,
    end: u32,
    from: u32,
    k: ExprPlace,
    pieces: Items<Bytes>,
    y: Symbol,
    span: Span,
) -> Result<Next, StepEnd>
    ensures { (env : Env) → Gives env result (machine.after (suc id) end env (parts.leaf from) (view_expr_place k) (marked.Text (parts.mark from end id) pieces) (view_symbol y.entry) span) }
{
    let next = following(id)?;
    let a = text(mark(from, end, id), pieces);
    after(alloc, next, end, Had::leaf(from), k, a, y, span)
}

fn text_next(
    alloc: Global,
    id: u32,
    end: u32,
    from: u32,
    k: ExprPlace,
    pieces: Items<Bytes>,
    y: Symbol,
    span: Span,
) -> Result<Next, StepEnd>
    ensures { (env : Env) → Gives env result (machine.text_next id end env from (view_expr_place k) pieces (view_symbol y.entry) span) }
{
    match y {
        Symbol::Text(x) => more_text(alloc, id, from, k, pieces, x),
        _ => text_done(alloc, id, end, from, k, pieces, y, span),
    }
}

/// The first token of a type name.
fn begin_type(
    alloc: Global,
    id: u32,
    o: Open,
    place: TypePlace,
    k: ExprPlace,
    y: Symbol,
    span: Span,
) -> Result<Next, StepEnd>
    ensures { (env : Env) → Gives env result (begin.begin_specs id env (reader.of_type (view_open o) (view_place place) (view_expr_place k)) (view_symbol y.entry) span) }
{
    let inner = SpecsPlace::new(alloc, SpecsFrame::Type(o, place, k))?;
    begin_specs(alloc, id, inner, y, span)
}

/// A type name in parentheses: a cast stands only where its level may.
fn open_cast(
    alloc: Global,
    id: u32,
    o: Open,
    k: ExprPlace,
    y: Symbol,
    span: Span,
) -> Result<Next, StepEnd>
    ensures { (env : Env) → Gives env result (machine.open_cast id env (view_open o) (view_expr_place k) (view_symbol y.entry) span) }
{
    if k.get().place() <= 14 {
        begin_type(alloc, id, o, TypePlace::Cast, k, y, span)
    } else {
        Err(StepEnd::Wrong)
    }
}

fn open_paren(
    alloc: Global,
    names: &Names,
    id: u32,
    o: Open,
    k: ExprPlace,
    y: Symbol,
    span: Span,
) -> Result<Next, StepEnd>
    ensures { Gives names.now result (begin.want id names.now (reader.in_bracket (view_open o) reader.of_paren (view_expr_place k)) (view_symbol y.entry) span) }
{
    let place = ExprPlace::new(alloc, ExprFrame::Bracket(o, Bracket::Paren, k))?;
    want(alloc, names, id, place, y, span)
}

/// The token after an opening parenthesis.
fn paren_next(
    alloc: Global,
    names: &Names,
    id: u32,
    o: Open,
    k: ExprPlace,
    y: Symbol,
    span: Span,
) -> Result<Next, StepEnd>
    ensures { Gives names.now result (machine.paren_next id names.now (view_open o) (view_expr_place k) (view_symbol y.entry) span) }
{
    if begins_specs(names, false, y) {
        open_cast(alloc, id, o, k, y, span)
    } else {
        open_paren(alloc, names, id, o, k, y, span)
    }
}

fn open_sizeof(
    alloc: Global,
    id: u32,
    o: Open,
    k: ExprPlace,
    y: Symbol,
    span: Span,
) -> Result<Next, StepEnd>
    ensures { (env : Env) → Gives env result (begin.begin_specs id env (reader.of_type (view_open o) reader.sizeof_type (view_expr_place k)) (view_symbol y.entry) span) }
{
    begin_type(alloc, id, o, TypePlace::Sizeof, k, y, span)
}

/// The operand of `sizeof`.
fn want_sizeof(
    alloc: Global,
    names: &Names,
    id: u32,
    o: Open,
    k: ExprPlace,
    y: Symbol,
    span: Span,
) -> Result<Next, StepEnd>
    ensures { Gives names.now result (begin.want id names.now (reader.in_operand (view_open o) reader.of_sizeof (view_expr_place k)) (view_symbol y.entry) span) }
{
    let place = ExprPlace::new(alloc, ExprFrame::Operand(o, Operand::Sizeof, k))?;
    want(alloc, names, id, place, y, span)
}

/// The operand of `sizeof`, which begins with a parenthesis.
fn paren_sizeof(
    alloc: Global,
    names: &Names,
    id: u32,
    o: Open,
    paren_from: u32,
    k: ExprPlace,
    y: Symbol,
    span: Span,
) -> Result<Next, StepEnd>
    ensures { Gives names.now result (begin.want id names.now (reader.in_bracket (parts.opens (view_open o).level paren_from) reader.of_paren (reader.in_operand (view_open o) reader.of_sizeof (view_expr_place k))) (view_symbol y.entry) span) }
{
    let inner = Open::at(o.level, paren_from)?;
    let place = ExprPlace::new(alloc, ExprFrame::Operand(o, Operand::Sizeof, k))?;
    open_paren(alloc, names, id, inner, place, y, span)
}

fn sizeof_paren_next(
    alloc: Global,
    names: &Names,
    id: u32,
    o: Open,
    paren_from: u32,
    k: ExprPlace,
    y: Symbol,
    span: Span,
) -> Result<Next, StepEnd>
    ensures { Gives names.now result (machine.sizeof_paren_next id names.now (view_open o) paren_from (view_expr_place k) (view_symbol y.entry) span) }
{
    if begins_specs(names, false, y) {
        open_sizeof(alloc, id, o, k, y, span)
    } else {
        paren_sizeof(alloc, names, id, o, paren_from, k, y, span)
    }
}

fn sizeof_next(
    alloc: Global,
    names: &Names,
    id: u32,
    o: Open,
    k: ExprPlace,
    y: Symbol,
    span: Span,
) -> Result<Next, StepEnd>
    ensures { Gives names.now result (machine.sizeof_next id names.now (view_open o) (view_expr_place k) (view_symbol y.entry) span) }
{
    match y {
        Symbol::LeftParen => Ok(Next::at_expr(id, ExprMode::SizeofOpened(o, span.start, k))),
        _ => want_sizeof(alloc, names, id, o, k, y, span),
    }
}

fn first_arg(
    alloc: Global,
    names: &Names,
    id: u32,
    o: Open,
    f: Expr,
    k: ExprPlace,
    y: Symbol,
    span: Span,
) -> Result<Next, StepEnd>
    ensures { Gives names.now result (begin.want id names.now (reader.in_bracket (view_open o) (reader.of_args (reader.of_function (shown f)) []) (view_expr_place k)) (view_symbol y.entry) span) }
{
    let b = Bracket::Args(Callee::Function(f), Exprs::new(alloc));
    let place = ExprPlace::new(alloc, ExprFrame::Bracket(o, b, k))?;
    want(alloc, names, id, place, y, span)
}

/// The token after the opening parenthesis of a call.
fn args_begin(
    alloc: Global,
    names: &Names,
    id: u32,
    o: Open,
    f: Expr,
    k: ExprPlace,
    y: Symbol,
    span: Span,
) -> Result<Next, StepEnd>
    ensures { Gives names.now result (machine.args_begin id names.now (view_open o) (shown f) (view_expr_place k) (view_symbol y.entry) span) }
{
    match y {
        Symbol::RightParen => empty_call(alloc, id, o, f, k, span),
        _ => first_arg(alloc, names, id, o, f, k, y, span),
    }
}

/// The token at a place in an expression.
pub fn expr_next(
    alloc: Global,
    names: &Names,
    id: u32,
    end: u32,
    mode: ExprMode,
    y: Symbol,
    span: Span,
) -> Result<Next, StepEnd>
    ensures { Gives names.now result (machine.expr_next id end names.now (view_expr_mode mode) (view_symbol y.entry) span) }
{
    match mode {
        ExprMode::WantExpr(k) => want(alloc, names, id, k, y, span),
        ExprMode::AfterExpr(h, k, a) => after(alloc, id, end, h, k, a, y, span),
        ExprMode::AfterText(from, k, xs) => text_next(alloc, id, end, from, k, xs, y, span),
        ExprMode::Opened(o, k) => paren_next(alloc, names, id, o, k, y, span),
        ExprMode::AfterSizeof(o, k) => sizeof_next(alloc, names, id, o, k, y, span),
        ExprMode::SizeofOpened(o, from, k) => {
            sizeof_paren_next(alloc, names, id, o, from, k, y, span)
        }
        ExprMode::ArgsOpened(o, f, k) => args_begin(alloc, names, id, o, f, k, y, span),
        ExprMode::AfterBuiltin(o, k) => builtin_next(alloc, id, o, k, y),
        ExprMode::WantMember(o, a, m, k) => member_next(alloc, id, o, a, m, k, y, span),
    }
}
