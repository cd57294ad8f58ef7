//! Where an initialiser may begin.

ghost use Rattle.std.specs.Prelude.{◌≡◌, suc, [], if◌then◌else◌, None, IfOk, IfErr, map};
ghost use Rattle.c_tree.specs.Wf.{Env};
ghost use Rattle.c_reader.specs.Begin as begin;
ghost use Rattle.c_reader.specs.MarkedBegin as begun;
ghost use Rattle.c_reader.specs.MarkedDeclarations as reader;
ghost use Rattle.c_reader.specs.MarkedInside as inside;
ghost use Rattle.c_stack.specs.Gives.{Gives};
ghost use Rattle.c_symbol.specs.Seen.{view_symbol};
ghost use Rattle.c_symbol.specs.Shown.{shown_init};
ghost use Rattle.c_stack.specs.Views.{view_init_place};
ghost use Rattle.c_symbol.specs.Nodes.{view_open};
ghost use Rattle.c_symbol.specs.declared.step.StepEnd.TheVariants.{NoMemory};

use c_held::Inits;
use c_parts::statement::braces;
use c_stack::inside::{Mode, Next};
use c_stack::place::{ExprFrame, ExprPlace, InitFrame, InitPlace};
use c_symbol::names::Names;
use c_symbol::node::{Open, mark};
use c_symbol::step::{StepEnd, following};
use c_symbol::symbol::Symbol;
use read_begin::want;
use std::alloc::Global;
use tok_base::Span;

/// The right brace behind a list and its comma.
fn braces_done(id: u32, o: Open, list: Inits, k: InitPlace, span: Span) -> Result<Next, StepEnd>
    ensures { (env : Env) → Gives env result (reader.close_braces id env (inside.in_braces (view_open o) (map shown_init list) (view_init_place k)) span) }
{
    if list.is_empty() {
        return Err(StepEnd::Wrong);
    }
    let next = following(id)?;
    let deep = o.whole(0)?;
    let whole = braces(mark(o.from, span.end, id), list, true);
    Ok(Next {
        id: next,
        name: None,
        mode: Mode::AfterInit(deep, k, whole),
    })
}

/// The right brace where an initialiser may begin.
fn close_braces(id: u32, k: InitPlace, span: Span) -> Result<Next, StepEnd>
    ensures { (env : Env) → Gives env result (reader.close_braces id env (view_init_place k) span) }
{
    match k.open() {
        InitFrame::Item(..) => Err(StepEnd::Wrong),
        InitFrame::Braces(o, list, k) => braces_done(id, o, list, k, span),
    }
}

/// An initialiser that is an expression.
fn want_init_expr(
    alloc: Global,
    names: &Names,
    id: u32,
    k: InitPlace,
    y: Symbol,
    span: Span,
) -> Result<Next, StepEnd>
    ensures { Gives names.now result (begun.want id names.now (inside.in_init (view_init_place k)) (view_symbol y.entry) span) }
{
    let place = ExprPlace::new(alloc, ExprFrame::Init(k))?;
    want(alloc, names, id, place, y, span)
}

/// The first token of an initialiser.
pub fn init_begin(
    alloc: Global,
    names: &Names,
    id: u32,
    k: InitPlace,
    y: Symbol,
    span: Span,
) -> Result<Next, StepEnd>
    ensures { Gives names.now result (reader.init_begin id names.now (view_init_place k) (view_symbol y.entry) span) }
{
    match y {
        Symbol::LeftBrace => {
            let o = Open::at(k.get().around().level, span.start)?;
            let place = InitPlace::new(alloc, InitFrame::Braces(o, Inits::new(alloc), k))?;
            Ok(Next {
                id,
                name: None,
                mode: Mode::WantInit(place),
            })
        }
        Symbol::RightBrace => close_braces(id, k, span),
        _ => want_init_expr(alloc, names, id, k, y, span),
    }
}
