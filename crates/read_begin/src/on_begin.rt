//! The first token of specifiers, and the first of an expression.

ghost use Rattle.std.specs.Prelude.{◌≡◌, suc, if◌then◌else◌, [], ◌∷◌, None, option_map, IfOk};
ghost use Rattle.c_tree.specs.Marked as marked;
ghost use Rattle.c_tree.specs.View.{view_op, view_prefix, view_step};
ghost use Rattle.c_tree.specs.Wf.{Env, is_type};
ghost use Rattle.c_reader.specs.Begin as machine;
ghost use Rattle.c_reader.specs.MarkedBegin as begin;
ghost use Rattle.c_reader.specs.MarkedInside as reader;
ghost use Rattle.c_reader.specs.MarkedParts as parts;
ghost use Rattle.c_reader.specs.Symbol.{keyword_word};
ghost use Rattle.c_stack.specs.Gives.{Gives};
ghost use Rattle.c_symbol.specs.Seen.{view_keyword, view_negation, view_operator, view_symbol, view_tagged};
ghost use Rattle.c_symbol.specs.Shown.{shown};
ghost use Rattle.c_stack.specs.Views.{view_expr_place, view_specs_place, view_specs_read};

use c_held::Expr;
use c_parts::expression::{character, name, number};
use c_parts::specifier::typedef_name;
use c_stack::inside::{
    AttributeMode, ExprMode, InAttribute, Mode, Next, Operand, SpecsMode, SpecsRead,
};
use c_stack::place::{ExprFrame, ExprPlace, SpecsPlace};
use c_symbol::names::Names;
use c_symbol::node::{Had, Open, mark};
use c_symbol::step::{StepEnd, following};
use c_symbol::symbol::{Negation, Operator, Symbol, Tagged};
use c_tree::{BinaryOp, Keyword, PrefixOp, Step};
use std::alloc::{AllocError, Global};
use tok_base::{Bytes, Items, Span};

// ---- specifiers

/// Whether the token begins specifiers, or goes on with them where a type is among them or not.
pub fn begins_specs(names: &Names, seen: bool, y: Symbol) -> bool
    ensures { result ≡ machine.begins_specs names.now seen (view_symbol y.entry) }
{
    match y {
        Symbol::Name(x) => { if seen { false } else { names.has(x) } }
        Symbol::Keyword(_) => true,
        Symbol::Tagged(_) => true,
        Symbol::Attribute => true,
        _ => false,
    }
}

fn open_name(
    alloc: Global,
    id: u32,
    ss: SpecsRead,
    k: SpecsPlace,
    x: &[u8],
) -> Result<Next, StepEnd>
    ensures { (env : Env) → Gives env result (reader.go_on id env (reader.specs (reader.in_specs (parts.add_type (view_specs_read ss) 0 (parts.typedef_name x.now)) (view_specs_place k)))) }
{
    let s = typedef_name(alloc, x)?;
    let ss = ss.with_type(0, s)?;
    Ok(Next::at_specs(id, SpecsMode::InSpecs(ss, k)))
}

fn open_keyword(id: u32, ss: SpecsRead, k: SpecsPlace, word: Keyword) -> Result<Next, StepEnd>
    ensures { (env : Env) → Gives env result (reader.go_on id env (reader.specs (reader.in_specs (parts.add_keyword (view_specs_read ss) (keyword_word (view_keyword word))) (view_specs_place k)))) }
{
    let ss = ss.with_keyword(word)?;
    Ok(Next::at_specs(id, SpecsMode::InSpecs(ss, k)))
}

fn open_tagged(
    id: u32,
    ss: SpecsRead,
    k: SpecsPlace,
    tagged: Tagged,
    span: Span,
) -> Result<Next, StepEnd>
    ensures { (env : Env) → Gives env result (reader.go_on id env (reader.specs (reader.after_tagged (parts.opens (view_specs_read ss).node.level span.start) (view_tagged tagged) (view_specs_read ss) (view_specs_place k)))) }
{
    let o = Open::at(ss.node.level, span.start)?;
    Ok(Next::at_specs(id, SpecsMode::AfterTagged(o, tagged, ss, k)))
}

fn open_attribute(id: u32, ss: SpecsRead, k: SpecsPlace, span: Span) -> Result<Next, StepEnd>
    ensures { (env : Env) → Gives env result (reader.go_on id env (reader.in_attribute (parts.opens (view_specs_read ss).node.level span.start) reader.attribute_word (reader.of_specs (view_specs_read ss) (view_specs_place k)))) }
{
    let o = Open::at(ss.node.level, span.start)?;
    Ok(Next {
        id,
        name: None,
        mode: Mode::Attribute(o, AttributeMode::Word, InAttribute::Specs(ss, k)),
    })
}

/// A token that begins specifiers, or goes on with them.
pub fn open_spec(
    alloc: Global,
    id: u32,
    ss: SpecsRead,
    k: SpecsPlace,
    y: Symbol,
    span: Span,
) -> Result<Next, StepEnd>
    ensures { (env : Env) → Gives env result (begin.open_spec id env (view_specs_read ss) (view_specs_place k) (view_symbol y.entry) span) }
{
    match y {
        Symbol::Name(x) => open_name(alloc, id, ss, k, x),
        Symbol::Keyword(word) => open_keyword(id, ss, k, word),
        Symbol::Tagged(tagged) => open_tagged(id, ss, k, tagged, span),
        Symbol::Attribute => open_attribute(id, ss, k, span),
        _ => Err(StepEnd::Wrong),
    }
}

/// The first of them.
pub fn begin_specs(
    alloc: Global,
    id: u32,
    k: SpecsPlace,
    y: Symbol,
    span: Span,
) -> Result<Next, StepEnd>
    ensures { (env : Env) → Gives env result (begin.begin_specs id env (view_specs_place k) (view_symbol y.entry) span) }
{
    let o = Open::at(k.get().level(), span.start)?;
    open_spec(alloc, id, SpecsRead::none(alloc, o), k, y, span)
}

/// Specifiers must stand here.
pub fn first_spec(
    alloc: Global,
    names: &Names,
    id: u32,
    k: SpecsPlace,
    y: Symbol,
    span: Span,
) -> Result<Next, StepEnd>
    ensures { Gives names.now result (begin.first_spec id names.now (view_specs_place k) (view_symbol y.entry) span) }
{
    if begins_specs(names, false, y) {
        begin_specs(alloc, id, k, y, span)
    } else {
        Err(StepEnd::Wrong)
    }
}

// ---- expressions

fn binary_prefix(op: BinaryOp) -> Option<PrefixOp>
    ensures { option_map view_prefix result ≡ machine.binary_prefix (view_op op) }
{
    match op {
        BinaryOp::BitAnd => Some(PrefixOp::Address),
        BinaryOp::Mul => Some(PrefixOp::Deref),
        BinaryOp::Add => Some(PrefixOp::Plus),
        BinaryOp::Sub => Some(PrefixOp::Minus),
        _ => None,
    }
}

fn step_prefix(op: Step) -> PrefixOp
    ensures { view_prefix result ≡ machine.step_prefix (view_step op) }
{
    match op {
        Step::Increment => PrefixOp::Increment,
        Step::Decrement => PrefixOp::Decrement,
    }
}

fn negation_prefix(op: Negation) -> PrefixOp
    ensures { view_prefix result ≡ machine.negation_prefix (view_negation op) }
{
    match op {
        Negation::Complement => PrefixOp::BitNot,
        Negation::Not => PrefixOp::Not,
    }
}

/// The operator before an operand that a mark is.
pub fn operator_prefix(op: Operator) -> Option<PrefixOp>
    ensures { option_map view_prefix result ≡ machine.operator_prefix (view_operator op) }
{
    match op {
        Operator::Binary(op) => binary_prefix(op),
        Operator::Assign(_) => None,
        Operator::Step(op) => Some(step_prefix(op)),
        Operator::Negation(op) => Some(negation_prefix(op)),
        Operator::Question => None,
        Operator::Member(_) => None,
    }
}

/// An operator before an operand.
fn want_operand(
    alloc: Global,
    id: u32,
    k: ExprPlace,
    op: Option<PrefixOp>,
    span: Span,
) -> Result<Next, StepEnd>
    ensures { (env : Env) → Gives env result (begin.want_operand id env (view_expr_place k) (option_map view_prefix op) span) }
{
    match op {
        None => Err(StepEnd::Wrong),
        Some(op) => {
            let o = Open::at(k.get().around().level, span.start)?;
            let place = ExprPlace::new(alloc, ExprFrame::Operand(o, Operand::Prefix(op), k))?;
            Ok(Next::at_expr(id, ExprMode::WantExpr(place)))
        }
    }
}

/// An expression of one token.
fn is_leaf(id: u32, k: ExprPlace, a: Expr, span: Span) -> Result<Next, StepEnd>
    ensures { (env : Env) → Gives env result (reader.go_on (suc id) env (reader.expr (reader.after_expr (parts.leaf span.start) (view_expr_place k) (shown a)))) }
{
    let next = following(id)?;
    let had = Had::leaf(span.start);
    Ok(Next::at_expr(next, ExprMode::AfterExpr(had, k, a)))
}

fn want_name(
    alloc: Global,
    names: &Names,
    id: u32,
    k: ExprPlace,
    x: &[u8],
    span: Span,
) -> Result<Next, StepEnd>
    ensures { Gives names.now result (if is_type names.now x.now then None else reader.go_on (suc id) names.now (reader.expr (reader.after_expr (parts.leaf span.start) (view_expr_place k) (marked.Name (parts.mark span.start span.end id) x.now)))) }
{
    if names.has(x) {
        Err(StepEnd::Wrong)
    } else {
        let a = name(alloc, mark(span.start, span.end, id), x)?;
        is_leaf(id, k, a, span)
    }
}

fn want_number(alloc: Global, id: u32, k: ExprPlace, x: &[u8], span: Span) -> Result<Next, StepEnd>
    ensures { (env : Env) → Gives env result (reader.go_on (suc id) env (reader.expr (reader.after_expr (parts.leaf span.start) (view_expr_place k) (marked.Number (parts.mark span.start span.end id) x.now)))) }
{
    let a = number(alloc, mark(span.start, span.end, id), x)?;
    is_leaf(id, k, a, span)
}

fn want_char(alloc: Global, id: u32, k: ExprPlace, x: &[u8], span: Span) -> Result<Next, StepEnd>
    ensures { (env : Env) → Gives env result (reader.go_on (suc id) env (reader.expr (reader.after_expr (parts.leaf span.start) (view_expr_place k) (marked.Char (parts.mark span.start span.end id) x.now)))) }
{
    let a = character(alloc, mark(span.start, span.end, id), x)?;
    is_leaf(id, k, a, span)
}

/// The first string literal.
fn want_text(alloc: Global, id: u32, k: ExprPlace, x: &[u8], span: Span) -> Result<Next, StepEnd>
    ensures { (env : Env) → Gives env result (reader.go_on id env (reader.expr (reader.after_text span.start (view_expr_place k) (x.now ∷ [])))) }
{
    let pieces = one_piece(alloc, x)?;
    Ok(Next::at_expr(id, ExprMode::AfterText(span.start, k, pieces)))
}

/// The list of one string literal.
fn one_piece(alloc: Global, x: &[u8]) -> Result<Items<Bytes>, AllocError>
    ensures { IfOk result (λ xs. xs ≡ x.now ∷ []) }
{
    let piece = Items::from_slice(alloc, x)?;
    let mut pieces = Items::new(alloc);
    pieces.push(piece)?;
    Ok(pieces)
}

/// The first token of an expression.
pub fn want(
    alloc: Global,
    names: &Names,
    id: u32,
    k: ExprPlace,
    y: Symbol,
    span: Span,
) -> Result<Next, StepEnd>
    ensures { Gives names.now result (begin.want id names.now (view_expr_place k) (view_symbol y.entry) span) }
{
    let o = Open::at(k.get().around().level, span.start)?;
    match y {
        Symbol::Name(x) => want_name(alloc, names, id, k, x, span),
        Symbol::Number(x) => want_number(alloc, id, k, x, span),
        Symbol::Char(x) => want_char(alloc, id, k, x, span),
        Symbol::Text(x) => want_text(alloc, id, k, x, span),
        Symbol::Operator(op) => want_operand(alloc, id, k, operator_prefix(op), span),
        Symbol::LeftParen => Ok(Next::at_expr(id, ExprMode::Opened(o, k))),
        Symbol::Sizeof => Ok(Next::at_expr(id, ExprMode::AfterSizeof(o, k))),
        Symbol::Builtin => Ok(Next::at_expr(id, ExprMode::AfterBuiltin(o, k))),
        _ => Err(StepEnd::Wrong),
    }
}
