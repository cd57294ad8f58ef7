//! The first token of a declarator.

ghost use Rattle.std.specs.Prelude.{if◌then◌else◌};
ghost use Rattle.c_tree.specs.Wf.{Env};
ghost use Rattle.c_reader.specs.MarkedDeclarators as reader;
ghost use Rattle.c_stack.specs.Gives.{Gives};
ghost use Rattle.c_symbol.specs.Seen.{view_symbol};
ghost use Rattle.c_stack.specs.Views.{view_declarator_place};

use crate::declarator::nameless_next;
use c_stack::inside::{DeclaratorMode, Next};
use c_stack::place::DeclaratorPlace;
use c_symbol::node::Open;
use c_symbol::step::StepEnd;
use c_symbol::symbol::{Operator, Symbol};
use read_field::{bracket_begin, name_begin, star_begin};
use std::alloc::Global;
use tok_base::Span;

/// The first token of a declarator.
pub fn declarator_begin(
    alloc: Global,
    id: u32,
    end: u32,
    k: DeclaratorPlace,
    y: Symbol,
    span: Span,
) -> Result<Next, StepEnd>
    ensures { (env : Env) → Gives env result (reader.declarator_begin id end env (view_declarator_place k) (view_symbol y.entry) span) }
{
    match y {
        Symbol::Name(text) => name_begin(alloc, id, k, text, span),
        Symbol::Operator(o) => star_begin(alloc, id, k, o, span),
        Symbol::LeftParen => {
            let o = Open::at(k.get().around().level, span.start)?;
            Ok(Next::at_declarator(id, DeclaratorMode::Opened(o, k)))
        }
        Symbol::LeftBracket => bracket_begin(id, k, span),
        _ => nameless_next(alloc, id, end, k, y, span),
    }
}
