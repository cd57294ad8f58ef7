//! Specifiers, and the records and enumerations among them: what a token does where they are open.

ghost use Rattle.std.specs.Prelude.{suc, if◌then◌else◌};
ghost use Rattle.c_tree.specs.Marked as marked;
ghost use Rattle.c_tree.specs.Wf.{Env};
ghost use Rattle.c_reader.specs.MarkedBegin as begun;
ghost use Rattle.c_reader.specs.MarkedInside as inside;
ghost use Rattle.c_reader.specs.MarkedParts as parts;
ghost use Rattle.c_reader.specs.MarkedSpecs as reader;
ghost use Rattle.c_stack.specs.Gives.{Gives};
ghost use Rattle.c_symbol.specs.Seen.{view_symbol, view_tagged};
ghost use Rattle.c_stack.specs.Views.{view_in_enum, view_in_fields, view_specs_place, view_specs_read};
ghost use Rattle.c_symbol.specs.Nodes.{view_open};

use c_parts::specifier::no_value;
use c_stack::inside::{InEnum, InFields, Next, SpecsMode, SpecsRead};
use c_stack::place::{SpecsFrame, SpecsPlace};
use c_symbol::names::Names;
use c_symbol::node::{Open, ending, mark};
use c_symbol::step::{StepEnd, following};
use c_symbol::symbol::{Operator, Symbol, Tagged};
use read_begin::{begins_specs, first_spec, open_spec};
use read_end::declarator_begin;
use read_item::{add_enumerator, close_enum, enumerator_end};
use read_tag::{behind, close_fields, tag_spec, tagged_opened, value_begin};
use std::alloc::Global;
use tok_base::{Bytes, Items, Span};

/// The token behind specifiers.
pub fn specs_next(
    alloc: Global,
    names: &Names,
    id: u32,
    end: u32,
    ss: SpecsRead,
    k: SpecsPlace,
    y: Symbol,
    span: Span,
) -> Result<Next, StepEnd>
    ensures { Gives names.now result (reader.specs_next id end names.now (view_specs_read ss) (view_specs_place k) (view_symbol y.entry) span) }
{
    if begins_specs(names, ss.seen, y) {
        open_spec(alloc, id, ss, k, y, span)
    } else {
        let place = behind(alloc, ss, k)?;
        declarator_begin(alloc, id, end, place, y, span)
    }
}

/// A specifier of a tag alone ends before this token.
fn tag_done(
    alloc: Global,
    names: &Names,
    id: u32,
    end: u32,
    o: Open,
    g: Tagged,
    tag: Bytes,
    ss: SpecsRead,
    k: SpecsPlace,
    y: Symbol,
    span: Span,
) -> Result<Next, StepEnd>
    ensures { Gives names.now result (reader.specs_next (suc id) end names.now (parts.add_type (view_specs_read ss) (parts.whole (view_open o) 0) (reader.tag_spec (parts.mark o.from end id) (view_tagged g) tag)) (view_specs_place k) (view_symbol y.entry) span) }
{
    let (next, deep) = ending(id, o, 0)?;
    let ss = ss.with_type(deep, tag_spec(mark(o.from, end, id), g, tag))?;
    specs_next(alloc, names, next, end, ss, k, y, span)
}

/// The token behind a tag: without braces the specifier ends with the tag.
pub fn tag_next(
    alloc: Global,
    names: &Names,
    id: u32,
    end: u32,
    o: Open,
    g: Tagged,
    tag: Bytes,
    ss: SpecsRead,
    k: SpecsPlace,
    y: Symbol,
    span: Span,
) -> Result<Next, StepEnd>
    ensures { Gives names.now result (reader.tag_next id end names.now (view_open o) (view_tagged g) tag (view_specs_read ss) (view_specs_place k) (view_symbol y.entry) span) }
{
    match y {
        Symbol::LeftBrace => tagged_opened(alloc, id, o, g, Some(tag), ss, k),
        _ => tag_done(alloc, names, id, end, o, g, tag, ss, k, y, span),
    }
}

/// The first specifier of a field.
fn field_specs(
    alloc: Global,
    names: &Names,
    id: u32,
    f: InFields,
    y: Symbol,
    span: Span,
) -> Result<Next, StepEnd>
    ensures { Gives names.now result (begun.first_spec id names.now (inside.of_field (view_in_fields f)) (view_symbol y.entry) span) }
{
    let place = SpecsPlace::new(alloc, SpecsFrame::Field(f.read, f.place))?;
    first_spec(alloc, names, id, place, y, span)
}

/// The token where a field may begin.
pub fn field_begin(
    alloc: Global,
    names: &Names,
    id: u32,
    f: InFields,
    y: Symbol,
    span: Span,
) -> Result<Next, StepEnd>
    ensures { Gives names.now result (reader.field_begin id names.now (view_in_fields f) (view_symbol y.entry) span) }
{
    match y {
        Symbol::RightBrace => close_fields(id, f, span),
        _ => field_specs(alloc, names, id, f, y, span),
    }
}

// ---- enumerators

/// The token where an enumerator may begin.
pub fn enumerator_begin(
    alloc: Global,
    id: u32,
    k: InEnum,
    y: Symbol,
    span: Span,
) -> Result<Next, StepEnd>
    ensures { (env : Env) → Gives env result (reader.enumerator_begin id env (view_in_enum k) (view_symbol y.entry) span) }
{
    match y {
        Symbol::Name(text) => {
            let o = Open::at(k.read.node.level, span.start)?;
            let name = Items::from_slice(alloc, text)?;
            Ok(Next::at_specs(id, SpecsMode::AfterEnumerator(o, name, k)))
        }
        Symbol::RightBrace => close_enum(id, k, true, span),
        _ => Err(StepEnd::Wrong),
    }
}

/// An enumerator without a value ends before this token.
fn plain_enumerator(
    id: u32,
    end: u32,
    o: Open,
    name: Bytes,
    k: InEnum,
    y: Symbol,
    span: Span,
) -> Result<Next, StepEnd>
    ensures { (env : Env) → Gives env result (reader.enumerator_end (suc id) env (reader.add_enumerator id end (view_open o) 0 (view_in_enum k) name marked.no_expr) (view_symbol y.entry) span) }
{
    let next = following(id)?;
    let k = add_enumerator(id, end, o, 0, k, name, no_value())?;
    enumerator_end(next, k, y, span)
}

/// The token behind an enumerator's name.
pub fn enumerator_next(
    alloc: Global,
    id: u32,
    end: u32,
    o: Open,
    name: Bytes,
    k: InEnum,
    y: Symbol,
    span: Span,
) -> Result<Next, StepEnd>
    ensures { (env : Env) → Gives env result (reader.enumerator_next id end env (view_open o) name (view_in_enum k) (view_symbol y.entry) span) }
{
    match y {
        Symbol::Operator(operator) => value_begin(alloc, id, o, name, k, operator),
        _ => plain_enumerator(id, end, o, name, k, y, span),
    }
}
