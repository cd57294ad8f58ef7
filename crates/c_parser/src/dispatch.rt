//! What a token does, by the place where it stands.

ghost use Rattle.std.specs.Prelude.{◌≡◌, map};
ghost use Rattle.c_reader.specs.MarkedBegin as begin;
ghost use Rattle.c_reader.specs.MarkedInside as inside;
ghost use Rattle.c_reader.specs.Reader as reader;
ghost use Rattle.c_stack.specs.Gives.{Gives};
ghost use Rattle.c_state.specs.Held.{view_held};
ghost use Rattle.c_symbol.specs.Seen.{view_symbol};
ghost use Rattle.c_symbol.specs.Shown.{shown_external};
ghost use Rattle.c_stack.specs.Views.{view_declarator_mode, view_in_params, view_mode, view_specs_mode};

use c_held::Externals;
use c_stack::inside::{DeclaratorMode, InParams, Mode, Next, SpecsMode};
use c_stack::place::{DeclarationFrame, DeclarationPlace, SpecsFrame, SpecsPlace};
use c_state::HeldMode;
use c_symbol::names::Names;
use c_symbol::step::StepEnd;
use c_symbol::symbol::{Symbol, symbol_of};
use read_attribute::attribute_next;
use read_begin::first_spec;
use read_bracket::{array_next, init_begin, params_next};
use read_declarator::{declarator_next, opened_next, star_next};
use read_end::declarator_begin;
use read_expression::expr_next;
use read_item::{init_next, item_next};
use read_specifier::{enumerator_begin, enumerator_next, field_begin, specs_next, tag_next};
use read_statement::stmt_mode_next;
use read_tag::tagged_next;
use std::alloc::Global;
use tok_base::{Span, Token};

/// The first token of a parameter behind a comma.
fn want_param(
    alloc: Global,
    names: &Names,
    id: u32,
    p: InParams,
    y: Symbol,
    span: Span,
) -> Result<Next, StepEnd>
    ensures { Gives names.now result (begin.first_spec id names.now (inside.of_param (view_in_params p)) (view_symbol y.entry) span) }
{
    let InParams { read, place } = p;
    let outer = SpecsPlace::new(alloc, SpecsFrame::Param(read, place))?;
    first_spec(alloc, names, id, outer, y, span)
}

fn specs_mode_next(
    alloc: Global,
    names: &Names,
    id: u32,
    end: u32,
    mode: SpecsMode,
    y: Symbol,
    span: Span,
) -> Result<Next, StepEnd>
    ensures { Gives names.now result (reader.specs_mode_next id end names.now (view_specs_mode mode) (view_symbol y.entry) span) }
{
    match mode {
        SpecsMode::InSpecs(ss, k) => specs_next(alloc, names, id, end, ss, k, y, span),
        SpecsMode::AfterTagged(o, tagged, ss, k) => tagged_next(alloc, id, o, tagged, ss, k, y),
        SpecsMode::AfterTag(o, tagged, x, ss, k) => {
            tag_next(alloc, names, id, end, o, tagged, x, ss, k, y, span)
        }
        SpecsMode::WantField(f) => field_begin(alloc, names, id, f, y, span),
        SpecsMode::WantEnumerator(k) => enumerator_begin(alloc, id, k, y, span),
        SpecsMode::AfterEnumerator(o, x, k) => enumerator_next(alloc, id, end, o, x, k, y, span),
        SpecsMode::WantParam(p) => want_param(alloc, names, id, p, y, span),
    }
}

fn declarator_mode_next(
    alloc: Global,
    names: &Names,
    id: u32,
    end: u32,
    mode: DeclaratorMode,
    y: Symbol,
    span: Span,
) -> Result<Next, StepEnd>
    ensures { Gives names.now result (reader.declarator_mode_next id end names.now (view_declarator_mode mode) (view_symbol y.entry) span) }
{
    match mode {
        DeclaratorMode::WantDeclarator(k) => declarator_begin(alloc, id, end, k, y, span),
        DeclaratorMode::AfterStar(o, qs, k) => star_next(alloc, id, end, o, qs, k, y, span),
        DeclaratorMode::Opened(o, k) => opened_next(alloc, names, id, end, o, k, y, span),
        DeclaratorMode::AfterDeclarator(h, k, x) => {
            declarator_next(alloc, id, end, h, k, x, y, span)
        }
        DeclaratorMode::ArrayOpened(o, x, k) => array_next(alloc, names, id, o, x, k, y, span),
        DeclaratorMode::ParamsOpened(o, x, k) => params_next(alloc, names, id, o, x, k, y, span),
    }
}

/// The first token of an external declaration.
fn want_external(
    alloc: Global,
    names: &Names,
    id: u32,
    deep: u32,
    done: Externals,
    y: Symbol,
    span: Span,
) -> Result<Next, StepEnd>
    ensures { Gives names.now result (begin.first_spec id names.now (inside.of_declaration (inside.of_external deep (map shown_external done))) (view_symbol y.entry) span) }
{
    let inner = DeclarationPlace::new(alloc, DeclarationFrame::External(deep, done))?;
    let outer = SpecsPlace::new(alloc, SpecsFrame::Declaration(inner))?;
    first_spec(alloc, names, id, outer, y, span)
}

/// What a token does where the reader is.
fn step_at(
    alloc: Global,
    names: &Names,
    id: u32,
    end: u32,
    mode: Mode,
    y: Symbol,
    span: Span,
) -> Result<Next, StepEnd>
    ensures { Gives names.now result (reader.step_at id end names.now (view_mode mode) (view_symbol y.entry) span) }
{
    match mode {
        Mode::WantExternal(deep, done) => want_external(alloc, names, id, deep, done, y, span),
        Mode::Attribute(o, m, a) => attribute_next(alloc, id, end, o, a, m, y, span),
        Mode::Specs(m) => specs_mode_next(alloc, names, id, end, m, y, span),
        Mode::Declarator(m) => declarator_mode_next(alloc, names, id, end, m, y, span),
        Mode::AfterAttributes(r) => item_next(alloc, id, end, r, y, span),
        Mode::WantInit(k) => init_begin(alloc, names, id, k, y, span),
        Mode::AfterInit(deep, k, i) => init_next(alloc, id, end, deep, k, i, y, span),
        Mode::Expr(m) => expr_next(alloc, names, id, end, m, y, span),
        Mode::Stmt(m) => stmt_mode_next(alloc, names, id, end, m, y, span),
    }
}

/// The step of a token.
pub fn one_token(
    alloc: Global,
    names: &Names,
    id: u32,
    end: u32,
    mode: HeldMode,
    token: &Token,
) -> Result<Next, StepEnd>
    ensures { Gives names.now result (reader.token_step (record { id = id; env = names.now; mode = view_held mode }) end token.now) }
{
    match symbol_of(token) {
        Some(y) => step_at(alloc, names, id, end, mode.open(), y, token.span),
        None => Err(StepEnd::Wrong),
    }
}
