//! What a token does behind the bracket of an array, or the parenthesis of parameters.

ghost use Rattle.std.specs.Prelude.{[], if◌then◌else◌};
ghost use Rattle.c_reader.specs.MarkedBegin as begun;
ghost use Rattle.c_reader.specs.MarkedDeclarators as reader;
ghost use Rattle.c_reader.specs.MarkedInside as inside;
ghost use Rattle.c_stack.specs.Gives.{Gives};
ghost use Rattle.c_symbol.specs.Seen.{view_symbol};
ghost use Rattle.c_symbol.specs.Shown.{shown_declarator};
ghost use Rattle.c_stack.specs.Views.{view_declarator_place};
ghost use Rattle.c_symbol.specs.Nodes.{view_open};

use c_held::{Declarator, Params};
use c_parts::specifier::{function_of, open_array};
use c_stack::inside::{DeclaratorMode, Next, ParamsRead};
use c_stack::place::{DeclaratorPlace, ExprFrame, ExprPlace, SpecsFrame, SpecsPlace};
use c_symbol::names::Names;
use c_symbol::node::{Open, mark};
use c_symbol::step::{StepEnd, following};
use c_symbol::symbol::Symbol;
use read_begin::{first_spec, want};
use std::alloc::Global;
use tok_base::Span;

// ---- behind a declarator

/// The first token of an array's length.
fn length_begin(
    alloc: Global,
    names: &Names,
    id: u32,
    o: Open,
    d: Declarator,
    k: DeclaratorPlace,
    y: Symbol,
    span: Span,
) -> Result<Next, StepEnd>
    ensures { Gives names.now result (begun.want id names.now (inside.in_array (view_open o) (shown_declarator d) (view_declarator_place k)) (view_symbol y.entry) span) }
{
    let place = ExprPlace::new(alloc, ExprFrame::Array(o, d, k))?;
    want(alloc, names, id, place, y, span)
}

/// The token behind the left bracket of an array.
pub fn array_next(
    alloc: Global,
    names: &Names,
    id: u32,
    o: Open,
    d: Declarator,
    k: DeclaratorPlace,
    y: Symbol,
    span: Span,
) -> Result<Next, StepEnd>
    ensures { Gives names.now result (reader.array_next id names.now (view_open o) (shown_declarator d) (view_declarator_place k) (view_symbol y.entry) span) }
{
    match y {
        Symbol::RightBracket => {
            let next = following(id)?;
            let had = o.closed(0)?;
            let whole = open_array(alloc, mark(o.from, span.end, id), d)?;
            Ok(Next::at_declarator(next, DeclaratorMode::AfterDeclarator(had, k, whole)))
        }
        _ => length_begin(alloc, names, id, o, d, k, y, span),
    }
}

/// Parameters must begin here.
fn first_param(
    alloc: Global,
    names: &Names,
    id: u32,
    o: Open,
    d: Declarator,
    k: DeclaratorPlace,
    y: Symbol,
    span: Span,
) -> Result<Next, StepEnd>
    ensures { Gives names.now result (begun.first_spec id names.now (inside.of_param (inside.in_params (view_open o) (shown_declarator d) [] (view_declarator_place k))) (view_symbol y.entry) span) }
{
    let read = ParamsRead {
        node: o,
        declarator: d,
        params: Params::new(alloc),
    };
    let place = SpecsPlace::new(alloc, SpecsFrame::Param(read, k))?;
    first_spec(alloc, names, id, place, y, span)
}

/// The token behind the left parenthesis of parameters.
pub fn params_next(
    alloc: Global,
    names: &Names,
    id: u32,
    o: Open,
    d: Declarator,
    k: DeclaratorPlace,
    y: Symbol,
    span: Span,
) -> Result<Next, StepEnd>
    ensures { Gives names.now result (reader.params_next id names.now (view_open o) (shown_declarator d) (view_declarator_place k) (view_symbol y.entry) span) }
{
    match y {
        Symbol::RightParen => {
            let next = following(id)?;
            let had = o.closed(0)?;
            let whole = function_of(alloc, mark(o.from, span.end, id), d, Params::new(alloc))?;
            Ok(Next::at_declarator(next, DeclaratorMode::AfterDeclarator(had, k, whole)))
        }
        _ => first_param(alloc, names, id, o, d, k, y, span),
    }
}
