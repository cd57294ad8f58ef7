//! Declarators: what a token does where one begins, or may go on.

ghost use Rattle.std.specs.Prelude.{suc, [], ◌∷◌, ◌++◌, if◌then◌else◌, false, None};
ghost use Rattle.c_tree.specs.Marked as marked;
ghost use Rattle.c_tree.specs.View.{view_qualifier};
ghost use Rattle.c_tree.specs.Wf.{Env, is_qualifier};
ghost use Rattle.c_reader.specs.Begin as begin;
ghost use Rattle.c_reader.specs.MarkedBegin as begun;
ghost use Rattle.c_reader.specs.MarkedDeclarators as reader;
ghost use Rattle.c_reader.specs.MarkedInside as inside;
ghost use Rattle.c_reader.specs.MarkedParts as parts;
ghost use Rattle.c_reader.specs.Symbol.{keyword_word};
ghost use Rattle.c_stack.specs.Gives.{Gives};
ghost use Rattle.c_symbol.specs.Seen.{view_keyword, view_symbol};
ghost use Rattle.c_symbol.specs.Shown.{shown_declarator, shown_qualifiers};
ghost use Rattle.c_stack.specs.Views.{view_declarator_place};
ghost use Rattle.c_symbol.specs.Nodes.{view_had, view_open};

use c_held::{Declarator, Params};
use c_parts::specifier::{function_of, with_qualifier};
use c_stack::inside::{DeclaratorMode, Next, ParamsRead};
use c_stack::place::{DeclaratorFrame, DeclaratorPlace, SpecsFrame, SpecsPlace};
use c_symbol::names::Names;
use c_symbol::node::{Had, Open, mark};
use c_symbol::step::{StepEnd, following};
use c_symbol::symbol::Symbol;
use c_tree::{Keyword, Qualifier};
use read_begin::{begin_specs, begins_specs};
use read_end::{declarator_begin, end_declarator};
use read_field::{absent_name, may_be_nameless};
use std::alloc::Global;
use tok_base::{Items, Span};

/// A qualifier behind a star.
fn qualifier_next(
    id: u32,
    o: Open,
    qualifiers: Items<Qualifier>,
    k: DeclaratorPlace,
    q: Qualifier,
) -> Result<Next, StepEnd>
    ensures { (env : Env) → Gives env result (inside.go_on id env (inside.declarator (inside.after_star (view_open o) (shown_qualifiers qualifiers ++ view_qualifier q ∷ []) (view_declarator_place k)))) }
{
    let qualifiers = with_qualifier(qualifiers, q)?;
    Ok(Next::at_declarator(id, DeclaratorMode::AfterStar(o, qualifiers, k)))
}

/// A keyword behind a star, which must be a qualifier.
fn star_word(
    id: u32,
    o: Open,
    qualifiers: Items<Qualifier>,
    k: DeclaratorPlace,
    w: Keyword,
) -> Result<Next, StepEnd>
    ensures { (env : Env) → Gives env result (if is_qualifier (keyword_word (view_keyword w)) then inside.go_on id env (inside.declarator (inside.after_star (view_open o) (shown_qualifiers qualifiers ++ keyword_word (view_keyword w) ∷ []) (view_declarator_place k))) else None) }
{
    match w {
        Keyword::Const => qualifier_next(id, o, qualifiers, k, Qualifier::Const),
        Keyword::Volatile => qualifier_next(id, o, qualifiers, k, Qualifier::Volatile),
        Keyword::Restrict => qualifier_next(id, o, qualifiers, k, Qualifier::Restrict),
        _ => Err(StepEnd::Wrong),
    }
}

/// What a pointer's declarator goes on with.
fn pointed_begin(
    alloc: Global,
    id: u32,
    end: u32,
    o: Open,
    qualifiers: Items<Qualifier>,
    k: DeclaratorPlace,
    y: Symbol,
    span: Span,
) -> Result<Next, StepEnd>
    ensures { (env : Env) → Gives env result (reader.declarator_begin id end env (inside.in_pointer (view_open o) (shown_qualifiers qualifiers) (view_declarator_place k)) (view_symbol y.entry) span) }
{
    let place = DeclaratorPlace::new(alloc, DeclaratorFrame::Pointer(o, qualifiers, k))?;
    declarator_begin(alloc, id, end, place, y, span)
}

/// The token behind a star and its qualifiers.
pub fn star_next(
    alloc: Global,
    id: u32,
    end: u32,
    o: Open,
    qualifiers: Items<Qualifier>,
    k: DeclaratorPlace,
    y: Symbol,
    span: Span,
) -> Result<Next, StepEnd>
    ensures { (env : Env) → Gives env result (reader.star_next id end env (view_open o) (shown_qualifiers qualifiers) (view_declarator_place k) (view_symbol y.entry) span) }
{
    match y {
        Symbol::Keyword(w) => star_word(id, o, qualifiers, k, w),
        _ => pointed_begin(alloc, id, end, o, qualifiers, k, y, span),
    }
}

/// The first token of parameters, which begins specifiers.
fn begin_params(
    alloc: Global,
    id: u32,
    o: Open,
    d: Declarator,
    k: DeclaratorPlace,
    y: Symbol,
    span: Span,
) -> Result<Next, StepEnd>
    ensures { (env : Env) → Gives env result (begun.begin_specs id env (inside.of_param (inside.in_params (view_open o) (shown_declarator d) [] (view_declarator_place k))) (view_symbol y.entry) span) }
{
    let read = ParamsRead {
        node: o,
        declarator: d,
        params: Params::new(alloc),
    };
    let place = SpecsPlace::new(alloc, SpecsFrame::Param(read, k))?;
    begin_specs(alloc, id, place, y, span)
}

/// Parameters of a declarator without a name.
fn open_params(
    alloc: Global,
    id: u32,
    o: Open,
    k: DeclaratorPlace,
    y: Symbol,
    span: Span,
) -> Result<Next, StepEnd>
    ensures { (env : Env) → Gives env result (reader.open_params id env (view_open o) (view_declarator_place k) (view_symbol y.entry) span) }
{
    if may_be_nameless(k.get()) {
        let next = following(id)?;
        begin_params(alloc, next, o, absent_name(id, o.from), k, y, span)
    } else {
        Err(StepEnd::Wrong)
    }
}

/// `()` where a declarator begins.
fn no_params(
    alloc: Global,
    id: u32,
    o: Open,
    k: DeclaratorPlace,
    span: Span,
) -> Result<Next, StepEnd>
    ensures { (env : Env) → Gives env result (if reader.may_be_nameless (view_declarator_place k) then inside.go_on (suc (suc id)) env (inside.declarator (inside.after_declarator (parts.closed (view_open o) 0) (view_declarator_place k) (marked.FunctionOf (parts.mark o.from span.end (suc id)) (reader.absent_name id o.from) marked.no_params))) else None) }
{
    if may_be_nameless(k.get()) {
        let whole_id = following(id)?;
        let next = following(whole_id)?;
        let had = o.closed(0)?;
        let absent = absent_name(id, o.from);
        let whole = function_of(
            alloc,
            mark(o.from, span.end, whole_id),
            absent,
            Params::new(alloc),
        )?;
        Ok(Next::at_declarator(next, DeclaratorMode::AfterDeclarator(had, k, whole)))
    } else {
        Err(StepEnd::Wrong)
    }
}

/// The first token of a declarator in parentheses.
fn group_begin(
    alloc: Global,
    id: u32,
    end: u32,
    o: Open,
    k: DeclaratorPlace,
    y: Symbol,
    span: Span,
) -> Result<Next, StepEnd>
    ensures { (env : Env) → Gives env result (reader.declarator_begin id end env (inside.in_group (view_open o) (view_declarator_place k)) (view_symbol y.entry) span) }
{
    let place = DeclaratorPlace::new(alloc, DeclaratorFrame::Group(o, k))?;
    declarator_begin(alloc, id, end, place, y, span)
}

/// A parameter or a declarator in parentheses.
fn opened_more(
    alloc: Global,
    names: &Names,
    id: u32,
    end: u32,
    o: Open,
    k: DeclaratorPlace,
    y: Symbol,
    span: Span,
) -> Result<Next, StepEnd>
    ensures { Gives names.now result (if begin.begins_specs names.now false (view_symbol y.entry) then reader.open_params id names.now (view_open o) (view_declarator_place k) (view_symbol y.entry) span else reader.declarator_begin id end names.now (inside.in_group (view_open o) (view_declarator_place k)) (view_symbol y.entry) span) }
{
    if begins_specs(names, false, y) {
        open_params(alloc, id, o, k, y, span)
    } else {
        group_begin(alloc, id, end, o, k, y, span)
    }
}

/// The token behind a left parenthesis with which a declarator begins.
pub fn opened_next(
    alloc: Global,
    names: &Names,
    id: u32,
    end: u32,
    o: Open,
    k: DeclaratorPlace,
    y: Symbol,
    span: Span,
) -> Result<Next, StepEnd>
    ensures { Gives names.now result (reader.opened_next id end names.now (view_open o) (view_declarator_place k) (view_symbol y.entry) span) }
{
    match y {
        Symbol::RightParen => no_params(alloc, id, o, k, span),
        _ => opened_more(alloc, names, id, end, o, k, y, span),
    }
}

/// The token behind a declarator, which may go on.
pub fn declarator_next(
    alloc: Global,
    id: u32,
    end: u32,
    had: Had,
    k: DeclaratorPlace,
    d: Declarator,
    y: Symbol,
    span: Span,
) -> Result<Next, StepEnd>
    ensures { (env : Env) → Gives env result (reader.declarator_next id end env (view_had had) (view_declarator_place k) (shown_declarator d) (view_symbol y.entry) span) }
{
    match y {
        Symbol::LeftBracket => {
            let o = Open::taking(k.get().around().level, had)?;
            Ok(Next::at_declarator(id, DeclaratorMode::ArrayOpened(o, d, k)))
        }
        Symbol::LeftParen => {
            let o = Open::taking(k.get().around().level, had)?;
            Ok(Next::at_declarator(id, DeclaratorMode::ParamsOpened(o, d, k)))
        }
        _ => end_declarator(alloc, id, end, had, k, d, y, span),
    }
}
