//! The first token of a declarator.

ghost use Rattle.std.specs.Prelude.{◌≡◌, suc, [], if◌then◌else◌, false, Some, None};
ghost use Rattle.c_tree.specs.Marked as marked;
ghost use Rattle.c_tree.specs.Wf.{Env};
ghost use Rattle.c_reader.specs.Declarators as machine;
ghost use Rattle.c_reader.specs.MarkedDeclarators as reader;
ghost use Rattle.c_reader.specs.MarkedInside as inside;
ghost use Rattle.c_reader.specs.MarkedParts as parts;
ghost use Rattle.c_stack.specs.Gives.{Gives};
ghost use Rattle.c_symbol.specs.Seen.{view_operator};
ghost use Rattle.c_stack.specs.Views.{view_declarator_place};

use crate::declarator::{absent_name, may_be_named, may_be_nameless};
use c_parts::specifier::{declared, no_qualifiers};
use c_stack::inside::{DeclaratorMode, Next};
use c_stack::place::DeclaratorPlace;
use c_symbol::node::{Had, Open, mark};
use c_symbol::step::{StepEnd, following};
use c_symbol::symbol::Operator;
use c_tree::BinaryOp;
use std::alloc::Global;
use tok_base::Span;

/// Whether it is `*`.
fn is_star(o: Operator) -> bool
    ensures { result ≡ machine.is_star (view_operator o) }
{
    match o {
        Operator::Binary(BinaryOp::Mul) => true,
        _ => false,
    }
}

/// A name where a declarator begins.
pub fn name_begin(
    alloc: Global,
    id: u32,
    k: DeclaratorPlace,
    text: &[u8],
    span: Span,
) -> Result<Next, StepEnd>
    ensures { (env : Env) → Gives env result (if reader.may_be_named (view_declarator_place k) then inside.go_on (suc id) env (inside.declarator (inside.after_declarator (parts.leaf span.start) (view_declarator_place k) (marked.Declared (parts.mark span.start span.end id) (Some text.now)))) else None) }
{
    if may_be_named(k.get()) {
        let next = following(id)?;
        let d = declared(alloc, mark(span.start, span.end, id), text)?;
        let mode = DeclaratorMode::AfterDeclarator(Had::leaf(span.start), k, d);
        Ok(Next::at_declarator(next, mode))
    } else {
        Err(StepEnd::Wrong)
    }
}

/// An operator where a declarator begins, which must be `*`.
pub fn star_begin(
    alloc: Global,
    id: u32,
    k: DeclaratorPlace,
    o: Operator,
    span: Span,
) -> Result<Next, StepEnd>
    ensures { (env : Env) → Gives env result (if machine.is_star (view_operator o) then inside.go_on id env (inside.declarator (inside.after_star (parts.opens (inside.around_declarator (view_declarator_place k)).level span.start) [] (view_declarator_place k))) else None) }
{
    if is_star(o) {
        let o = Open::at(k.get().around().level, span.start)?;
        let mode = DeclaratorMode::AfterStar(o, no_qualifiers(alloc), k);
        Ok(Next::at_declarator(id, mode))
    } else {
        Err(StepEnd::Wrong)
    }
}

/// A left bracket where a declarator begins, whose name is absent.
pub fn bracket_begin(id: u32, k: DeclaratorPlace, span: Span) -> Result<Next, StepEnd>
    ensures { (env : Env) → Gives env result (if reader.may_be_nameless (view_declarator_place k) then inside.go_on (suc id) env (inside.declarator (inside.array_opened (parts.opens (inside.around_declarator (view_declarator_place k)).level span.start) (reader.absent_name id span.start) (view_declarator_place k))) else None) }
{
    if may_be_nameless(k.get()) {
        let next = following(id)?;
        let o = Open::at(k.get().around().level, span.start)?;
        let mode = DeclaratorMode::ArrayOpened(o, absent_name(id, span.start), k);
        Ok(Next::at_declarator(next, mode))
    } else {
        Err(StepEnd::Wrong)
    }
}
