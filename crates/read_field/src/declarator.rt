//! What ends with a declarator: a field, a parameter, a type name, a group.

ghost use Rattle.std.specs.Prelude.{◌≡◌, if◌then◌else◌, false, IfOk, IfErr, map};
ghost use Rattle.c_tree.specs.Wf.{Env};
ghost use Rattle.c_reader.specs.MarkedDeclarators as reader;
ghost use Rattle.c_stack.specs.Gives.{Gives};
ghost use Rattle.c_symbol.specs.Seen.{view_symbol};
ghost use Rattle.c_symbol.specs.Shown.{shown_declarator, shown_maybe_declarator, shown_specs, shown_type};
ghost use Rattle.c_stack.specs.Views.{record_at, view_declarator_place, view_expr_place, view_in_declarator, view_in_fields, view_in_params, view_place, view_specs_place};
ghost use Rattle.c_symbol.specs.Nodes.{view_open};
ghost use Rattle.c_symbol.specs.declared.step.StepEnd.TheVariants.{NoMemory};

use c_held::{Declarator, DeclaratorBox, Declarators, Specs, TypeName};
use c_parts::expression::{sizeof_type, type_name};
use c_parts::specifier::{field, function_of, group, nameless, param, with_field, with_param};
use c_stack::inside::{
    DeclaratorMode, ExprMode, InDeclarator, InFields, InParams, Next, Operand, ParamsRead,
    RecordRead, SpecsMode, TypePlace,
};
use c_stack::place::{DeclaratorFrame, DeclaratorPlace, ExprFrame, ExprPlace, SpecsPlace};
use c_symbol::node::{Open, mark};
use c_symbol::step::{StepEnd, following};
use c_symbol::symbol::Symbol;
use std::alloc::Global;
use tok_base::Span;

// ---- what may stand there

/// Whether a declarator there may have a name.
pub fn may_be_named(k: &InDeclarator) -> bool
    ensures { result ≡ reader.may_be_named (view_in_declarator k.now) }
{
    match k {
        InDeclarator::Pointer(_, _, k) => may_be_named(k),
        InDeclarator::Group(_, k) => may_be_named(k),
        InDeclarator::Item(..) => true,
        InDeclarator::Field(..) => true,
        InDeclarator::Param(..) => true,
        InDeclarator::Type(..) => false,
    }
}

/// Whether a declarator there may be without one.
pub fn may_be_nameless(k: &InDeclarator) -> bool
    ensures { result ≡ reader.may_be_nameless (view_in_declarator k.now) }
{
    match k {
        InDeclarator::Pointer(_, _, k) => may_be_nameless(k),
        InDeclarator::Group(_, k) => may_be_nameless(k),
        InDeclarator::Item(..) => false,
        InDeclarator::Field(..) => false,
        InDeclarator::Param(..) => true,
        InDeclarator::Type(..) => true,
    }
}

/// The absent name before a token that starts at this byte.
pub fn absent_name(id: u32, start: u32) -> Declarator
    ensures { shown_declarator result ≡ reader.absent_name id start }
{
    nameless(mark(start, start, id))
}

// ---- fields

/// The record with one more field.
fn add_field(
    id: u32,
    o: Open,
    f: InFields,
    specs: Specs,
    declarators: Declarators,
    span: Span,
) -> Result<InFields, StepEnd>
    ensures ok { IfOk result (λ g. view_in_fields g ≡ reader.add_field id (view_open o) (view_in_fields f) (shown_specs specs) (map shown_declarator declarators) span) }
    ensures err { IfErr result (λ e. e ≡ NoMemory) }
{
    let whole = o.whole(0)?;
    let InFields { read, place } = f;
    let RecordRead {
        node,
        is_union,
        tag,
        fields,
        specs: before,
    } = read;
    let one = field(mark(o.from, span.end, id), specs, declarators);
    let fields = with_field(fields, one)?;
    let read = RecordRead {
        node: node.with_part(whole),
        is_union,
        tag,
        fields,
        specs: before,
    };
    Ok(InFields { read, place })
}

/// The token behind a declarator of a field.
pub fn field_next(
    alloc: Global,
    id: u32,
    o: Open,
    read: RecordRead,
    k: SpecsPlace,
    specs: Specs,
    declarators: Declarators,
    y: Symbol,
    span: Span,
) -> Result<Next, StepEnd>
    ensures { (env : Env) → Gives env result (reader.field_next id env (view_open o) (record_at read (view_specs_place k)) (shown_specs specs) (map shown_declarator declarators) (view_symbol y.entry) span) }
{
    match y {
        Symbol::Comma => {
            let place = DeclaratorPlace::new(
                alloc,
                DeclaratorFrame::Field(o, read, k, specs, declarators),
            )?;
            Ok(Next::at_declarator(id, DeclaratorMode::WantDeclarator(place)))
        }
        Symbol::Semicolon => {
            let next = following(id)?;
            let f = InFields { read, place: k };
            let f = add_field(id, o, f, specs, declarators, span)?;
            Ok(Next::at_specs(next, SpecsMode::WantField(f)))
        }
        _ => Err(StepEnd::Wrong),
    }
}

// ---- parameters

/// The list with one more parameter, which ends with the last token; `deep` is the depth of its
/// declarator.
fn add_param(
    id: u32,
    end: u32,
    o: Open,
    deep: u32,
    p: InParams,
    specs: Specs,
    d: Option<DeclaratorBox>,
) -> Result<InParams, StepEnd>
    ensures ok { IfOk result (λ q. view_in_params q ≡ reader.add_param id end (view_open o) deep (view_in_params p) (shown_specs specs) (shown_maybe_declarator d)) }
    ensures err { IfErr result (λ e. e ≡ NoMemory) }
{
    let whole = o.whole(deep)?;
    let InParams { read, place } = p;
    let ParamsRead {
        node,
        declarator,
        params,
    } = read;
    let params = with_param(params, param(mark(o.from, end, id), specs, d))?;
    let read = ParamsRead {
        node: node.with_part(whole),
        declarator,
        params,
    };
    Ok(InParams { read, place })
}

/// The right parenthesis of parameters.
fn params_done(alloc: Global, id: u32, p: InParams, span: Span) -> Result<Next, StepEnd>
    ensures { (env : Env) → Gives env result (reader.params_done id env (view_in_params p) span) }
{
    let InParams { read, place } = p;
    let next = following(id)?;
    let had = read.node.closed(0)?;
    let ParamsRead {
        node,
        declarator,
        params,
    } = read;
    let whole = function_of(alloc, mark(node.from, span.end, id), declarator, params)?;
    Ok(Next::at_declarator(next, DeclaratorMode::AfterDeclarator(had, place, whole)))
}

/// The token behind a parameter.
fn param_next(alloc: Global, id: u32, p: InParams, y: Symbol, span: Span) -> Result<Next, StepEnd>
    ensures { (env : Env) → Gives env result (reader.param_next id env (view_in_params p) (view_symbol y.entry) span) }
{
    match y {
        Symbol::Comma => Ok(Next::at_specs(id, SpecsMode::WantParam(p))),
        Symbol::RightParen => params_done(alloc, id, p, span),
        _ => Err(StepEnd::Wrong),
    }
}

/// The token behind a parameter.
pub fn close_param(
    alloc: Global,
    id: u32,
    end: u32,
    o: Open,
    deep: u32,
    p: InParams,
    specs: Specs,
    d: Option<DeclaratorBox>,
    y: Symbol,
    span: Span,
) -> Result<Next, StepEnd>
    ensures { (env : Env) → Gives env result (reader.close_param id end env (view_open o) deep (view_in_params p) (shown_specs specs) (shown_maybe_declarator d) (view_symbol y.entry) span) }
{
    let next = following(id)?;
    let p = add_param(id, end, o, deep, p, specs, d)?;
    param_next(alloc, next, p, y, span)
}

// ---- type names

/// The right parenthesis behind a type name of this depth.
fn type_done(
    alloc: Global,
    id: u32,
    o: Open,
    deep: u32,
    place: TypePlace,
    k: ExprPlace,
    ty: TypeName,
    span: Span,
) -> Result<Next, StepEnd>
    ensures { (env : Env) → Gives env result (reader.type_done id env (view_open o) deep (view_place place) (view_expr_place k) (shown_type ty) span) }
{
    match place {
        TypePlace::Cast => {
            let inner = ExprFrame::Operand(o.with_part(deep), Operand::Cast(ty), k);
            let inner = ExprPlace::new(alloc, inner)?;
            Ok(Next::at_expr(id, ExprMode::WantExpr(inner)))
        }
        TypePlace::Sizeof => {
            let next = following(id)?;
            let had = o.closed(deep)?;
            let whole = sizeof_type(alloc, mark(o.from, span.end, id), ty)?;
            Ok(Next::at_expr(next, ExprMode::AfterExpr(had, k, whole)))
        }
    }
}

/// The token behind a type name of this depth.
fn type_next(
    alloc: Global,
    id: u32,
    o: Open,
    deep: u32,
    place: TypePlace,
    k: ExprPlace,
    ty: TypeName,
    y: Symbol,
    span: Span,
) -> Result<Next, StepEnd>
    ensures { (env : Env) → Gives env result (reader.type_next id env (view_open o) deep (view_place place) (view_expr_place k) (shown_type ty) (view_symbol y.entry) span) }
{
    match y {
        Symbol::RightParen => type_done(alloc, id, o, deep, place, k, ty, span),
        _ => Err(StepEnd::Wrong),
    }
}

/// The token behind a type name.
pub fn close_type(
    alloc: Global,
    id: u32,
    end: u32,
    o: Open,
    type_node: Open,
    deep: u32,
    place: TypePlace,
    k: ExprPlace,
    specs: Specs,
    d: Option<DeclaratorBox>,
    y: Symbol,
    span: Span,
) -> Result<Next, StepEnd>
    ensures { (env : Env) → Gives env result (reader.close_type id end env (view_open o) (view_open type_node) deep (view_place place) (view_expr_place k) (shown_specs specs) (shown_maybe_declarator d) (view_symbol y.entry) span) }
{
    let next = following(id)?;
    let whole = type_node.whole(deep)?;
    let ty = type_name(mark(type_node.from, end, id), specs, d);
    type_next(alloc, next, o, whole, place, k, ty, y, span)
}

// ---- the end of a declarator

/// The right parenthesis of a declarator.
pub fn close_group(
    alloc: Global,
    id: u32,
    o: Open,
    deep: u32,
    k: DeclaratorPlace,
    d: Declarator,
    y: Symbol,
    span: Span,
) -> Result<Next, StepEnd>
    ensures { (env : Env) → Gives env result (reader.close_group id env (view_open o) deep (view_declarator_place k) (shown_declarator d) (view_symbol y.entry) span) }
{
    match y {
        Symbol::RightParen => {
            let next = following(id)?;
            let had = o.closed(deep)?;
            let whole = group(alloc, mark(o.from, span.end, id), d)?;
            Ok(Next::at_declarator(next, DeclaratorMode::AfterDeclarator(had, k, whole)))
        }
        _ => Err(StepEnd::Wrong),
    }
}
