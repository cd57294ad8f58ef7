//! Tags, what opens behind them, and records that end.

ghost use Rattle.std.specs.Prelude.{◌≡◌, if◌then◌else◌, None, IfOk, IfErr, map};
ghost use Rattle.c_tree.specs.Wf.{Env};
ghost use Rattle.c_reader.specs.Begin as machine;
ghost use Rattle.c_reader.specs.Declarations as items;
ghost use Rattle.c_reader.specs.MarkedInside as inside;
ghost use Rattle.c_reader.specs.MarkedSpecs as reader;
ghost use Rattle.c_stack.specs.Gives.{Gives};
ghost use Rattle.c_symbol.specs.Seen.{view_operator, view_symbol, view_tagged};
ghost use Rattle.c_symbol.specs.Shown.{shown_field, shown_spec};
ghost use Rattle.c_stack.specs.Views.{view_declarator_place, view_in_enum, view_in_fields, view_specs_place, view_specs_read};
ghost use Rattle.c_symbol.specs.Nodes.{view_open};
ghost use Rattle.c_symbol.specs.declared.step.StepEnd.TheVariants.{NoMemory};

use c_held::{Declarators, DeclaredItems, Enumerators, Fields};
use c_parts::specifier::{all_specs, enum_tag, record, record_tag};
use c_stack::inside::{
    EnumRead, ExprMode, InEnum, InFields, ItemsRead, Next, RecordRead, SpecsMode, SpecsRead,
};
use c_stack::place::{
    DeclaratorFrame, DeclaratorPlace, ExprFrame, ExprPlace, SpecsFrame, SpecsPlace,
};
use c_symbol::node::{Open, ending, mark};
use c_symbol::step::StepEnd;
use c_symbol::symbol::{Operator, Symbol, Tagged, is_equals};
use c_tree::{At, Spec};
use std::alloc::Global;
use tok_base::{Bytes, Items, Span};

// ---- parts

/// The specifier of a tag without braces.
pub fn tag_spec(at: At, g: Tagged, tag: Bytes) -> Spec
    ensures { shown_spec result ≡ reader.tag_spec at (view_tagged g) tag }
{
    match g {
        Tagged::Record(is_union) => record_tag(at, is_union, tag),
        Tagged::Enum => enum_tag(at, tag),
    }
}

// ---- specifiers

/// Where the declarator behind the specifiers stands.
pub fn behind(alloc: Global, ss: SpecsRead, k: SpecsPlace) -> Result<DeclaratorPlace, StepEnd>
    ensures ok { IfOk result (λ place. view_declarator_place place ≡ reader.behind (view_specs_read ss) (view_specs_place k)) }
    ensures err { IfErr result (λ e. e ≡ NoMemory) }
{
    let SpecsRead {
        node,
        specs,
        seen: _,
        typedef,
    } = ss;
    let specs = all_specs(specs);
    let place = match k.open() {
        SpecsFrame::Declaration(place) => {
            let read = ItemsRead {
                node,
                specs,
                typedef,
                items: DeclaredItems::new(alloc),
            };
            DeclaratorFrame::Item(read, place)
        }
        SpecsFrame::Field(f, k) => DeclaratorFrame::Field(
            node,
            f,
            k,
            specs,
            Declarators::new(alloc),
        ),
        SpecsFrame::Param(p, k) => DeclaratorFrame::Param(node, p, k, specs),
        SpecsFrame::Type(o, place, k) => DeclaratorFrame::Type(o, node, place, k, specs),
    };
    Ok(DeclaratorPlace::new(alloc, place)?)
}

// ---- records and enumerations

/// The left brace of a record or an enumeration.
pub fn tagged_opened(
    alloc: Global,
    id: u32,
    o: Open,
    g: Tagged,
    tag: Option<Bytes>,
    ss: SpecsRead,
    k: SpecsPlace,
) -> Result<Next, StepEnd>
    ensures { (env : Env) → Gives env result (reader.tagged_opened id env (view_open o) (view_tagged g) tag (view_specs_read ss) (view_specs_place k)) }
{
    match g {
        Tagged::Record(is_union) => Ok(Next::at_specs(
            id,
            SpecsMode::WantField(InFields {
                read: RecordRead {
                    node: o,
                    is_union,
                    tag,
                    fields: Fields::new(alloc),
                    specs: ss,
                },
                place: k,
            }),
        )),
        Tagged::Enum => Ok(Next::at_specs(
            id,
            SpecsMode::WantEnumerator(InEnum {
                read: EnumRead {
                    node: o,
                    tag,
                    list: Enumerators::new(alloc),
                    specs: ss,
                },
                place: k,
            }),
        )),
    }
}

/// The token behind `struct`, `union` or `enum`.
pub fn tagged_next(
    alloc: Global,
    id: u32,
    o: Open,
    g: Tagged,
    ss: SpecsRead,
    k: SpecsPlace,
    y: Symbol,
) -> Result<Next, StepEnd>
    ensures { (env : Env) → Gives env result (reader.tagged_next id env (view_open o) (view_tagged g) (view_specs_read ss) (view_specs_place k) (view_symbol y.entry)) }
{
    match y {
        Symbol::Name(text) => {
            let tag = Items::from_slice(alloc, text)?;
            Ok(Next::at_specs(id, SpecsMode::AfterTag(o, g, tag, ss, k)))
        }
        Symbol::LeftBrace => tagged_opened(alloc, id, o, g, None, ss, k),
        _ => Err(StepEnd::Wrong),
    }
}

// ---- fields

/// Whether a record has no fields.
fn lacks_fields(fields: &Fields) -> bool
    ensures { result ≡ machine.is_empty (map shown_field fields.now) }
{
    fields.is_empty()
}

/// The right brace of a record.
pub fn close_fields(id: u32, f: InFields, span: Span) -> Result<Next, StepEnd>
    ensures { (env : Env) → Gives env result (reader.close_fields id env (view_in_fields f) span) }
{
    let InFields { read, place } = f;
    if lacks_fields(&read.fields) {
        return Err(StepEnd::Wrong);
    }
    let (next, deep) = ending(id, read.node, 0)?;
    let RecordRead {
        node,
        is_union,
        tag,
        fields,
        specs,
    } = read;
    let whole = record(mark(node.from, span.end, id), is_union, tag, fields);
    let specs = specs.with_type(deep, whole)?;
    Ok(Next::at_specs(next, SpecsMode::InSpecs(specs, place)))
}

/// The operator behind an enumerator's name, which must be `=`.
pub fn value_begin(
    alloc: Global,
    id: u32,
    o: Open,
    name: Bytes,
    k: InEnum,
    operator: Operator,
) -> Result<Next, StepEnd>
    ensures { (env : Env) → Gives env result (if items.is_equals (view_operator operator) then inside.go_on id env (inside.expr (inside.want_expr (inside.in_value (view_open o) name (view_in_enum k)))) else None) }
{
    if is_equals(operator) {
        let place = ExprPlace::new(alloc, ExprFrame::Value(o, name, k.read, k.place))?;
        Ok(Next::at_expr(id, ExprMode::WantExpr(place)))
    } else {
        Err(StepEnd::Wrong)
    }
}
