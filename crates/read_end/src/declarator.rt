//! The end of a declarator, in fields, parameters and type names. An absent name stands at the start of the
//! next token.

ghost use Rattle.std.specs.Prelude.{if◌then◌else◌};
ghost use Rattle.c_tree.specs.Wf.{Env};
ghost use Rattle.c_reader.specs.MarkedDeclarators as reader;
ghost use Rattle.c_stack.specs.Gives.{Gives};
ghost use Rattle.c_symbol.specs.Seen.{view_symbol};
ghost use Rattle.c_symbol.specs.Shown.{shown_declarator, shown_qualifiers};
ghost use Rattle.c_stack.specs.Views.{view_declarator_place, view_in_items};
ghost use Rattle.c_symbol.specs.Nodes.{view_had, view_open};

use c_held::Declarator;
use c_parts::specifier::{no_declarator, pointer_to, some_declarator, with_declarator};
use c_stack::inside::{InItems, InParams, Next};
use c_stack::place::{DeclaratorFrame, DeclaratorPlace};
use c_symbol::node::{Had, Open, mark};
use c_symbol::step::{StepEnd, following};
use c_symbol::symbol::Symbol;
use c_tree::Qualifier;
use read_field::{absent_name, close_group, close_param, close_type, field_next, may_be_nameless};
use read_item::{close_item, items_done};
use std::alloc::Global;
use tok_base::{Items, Span};

/// The token behind a declarator, which no direct form takes.
pub fn end_declarator(
    alloc: Global,
    id: u32,
    end: u32,
    had: Had,
    k: DeclaratorPlace,
    d: Declarator,
    y: Symbol,
    span: Span,
) -> Result<Next, StepEnd>
    ensures { (env : Env) → Gives env result (reader.end_declarator id end env (view_had had) (view_declarator_place k) (shown_declarator d) (view_symbol y.entry) span) }
{
    match k.open() {
        DeclaratorFrame::Pointer(o, qualifiers, k) => {
            let next = following(id)?;
            let had = o.closed(had.deep)?;
            let whole = pointer_to(alloc, mark(o.from, end, id), qualifiers, d)?;
            end_declarator(alloc, next, end, had, k, whole, y, span)
        }
        DeclaratorFrame::Group(o, k) => close_group(alloc, id, o, had.deep, k, d, y, span),
        DeclaratorFrame::Item(read, place) => {
            close_item(alloc, id, end, had, InItems { read, place }, d, y, span)
        }
        DeclaratorFrame::Field(o, f, k, specs, declarators) => {
            let declarators = with_declarator(declarators, d)?;
            field_next(
                alloc,
                id,
                o.with_part(had.deep),
                f,
                k,
                specs,
                declarators,
                y,
                span,
            )
        }
        DeclaratorFrame::Param(o, read, k, specs) => {
            let d = some_declarator(alloc, d)?;
            let p = InParams { read, place: k };
            close_param(alloc, id, end, o, had.deep, p, specs, d, y, span)
        }
        DeclaratorFrame::Type(o, node, place, k, specs) => {
            let d = some_declarator(alloc, d)?;
            close_type(
                alloc, id, end, o, node, had.deep, place, k, specs, d, y, span,
            )
        }
    }
}

// ---- a declarator without a name

/// The token behind the specifiers of a declaration without items.
fn no_items_next(alloc: Global, id: u32, q: InItems, y: Symbol, span: Span) -> Result<Next, StepEnd>
    ensures { (env : Env) → Gives env result (reader.no_items_next id env (view_in_items q) (view_symbol y.entry) span) }
{
    match y {
        Symbol::Semicolon => {
            if q.read.items.is_empty() {
                items_done(alloc, id, q, span)
            } else {
                Err(StepEnd::Wrong)
            }
        }
        _ => Err(StepEnd::Wrong),
    }
}

/// The token behind a pointer to what has no name.
fn nameless_pointer(
    alloc: Global,
    id: u32,
    end: u32,
    o: Open,
    qualifiers: Items<Qualifier>,
    k: DeclaratorPlace,
    y: Symbol,
    span: Span,
) -> Result<Next, StepEnd>
    ensures { (env : Env) → Gives env result (reader.nameless_pointer id end env (view_open o) (shown_qualifiers qualifiers) (view_declarator_place k) (view_symbol y.entry) span) }
{
    if may_be_nameless(k.get()) {
        let whole_id = following(id)?;
        let next = following(whole_id)?;
        let had = o.closed(0)?;
        let absent = absent_name(id, span.start);
        let whole = pointer_to(alloc, mark(o.from, end, whole_id), qualifiers, absent)?;
        end_declarator(alloc, next, end, had, k, whole, y, span)
    } else {
        Err(StepEnd::Wrong)
    }
}

/// The token where a declarator stands that has no token, or no further one.
pub fn nameless_next(
    alloc: Global,
    id: u32,
    end: u32,
    k: DeclaratorPlace,
    y: Symbol,
    span: Span,
) -> Result<Next, StepEnd>
    ensures { (env : Env) → Gives env result (reader.nameless id end env (view_declarator_place k) (view_symbol y.entry) span) }
{
    match k.open() {
        DeclaratorFrame::Pointer(o, qualifiers, k) => {
            nameless_pointer(alloc, id, end, o, qualifiers, k, y, span)
        }
        DeclaratorFrame::Group(..) => Err(StepEnd::Wrong),
        DeclaratorFrame::Item(read, place) => {
            no_items_next(alloc, id, InItems { read, place }, y, span)
        }
        DeclaratorFrame::Field(..) => Err(StepEnd::Wrong),
        DeclaratorFrame::Param(o, read, k, specs) => {
            let p = InParams { read, place: k };
            close_param(alloc, id, end, o, 0, p, specs, no_declarator(), y, span)
        }
        DeclaratorFrame::Type(o, node, place, k, specs) => {
            let d = no_declarator();
            close_type(alloc, id, end, o, node, 0, place, k, specs, d, y, span)
        }
    }
}
