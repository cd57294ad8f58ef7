//! Both parts of an expression have values.

ghost use Rattle.std.specs.Prelude.{◌≡◌, ℕ};
ghost use Rattle.block_memory.specs.Given.{IsGivenValue};
ghost use Rattle.c_core.specs.Tree.{Program};
ghost use Rattle.c_core.specs.View.{expr_of, form_of};
ghost use Rattle.c_meaning.specs.Rules as rules;
ghost use Rattle.c_meaning.specs.Storage as storage;
ghost use Rattle.machine_frames.specs.Held.{AreGivenValues, IsGivenTurned};
ghost use Rattle.machine_frames.specs.Views.{next_of, stacks_of, state_of, values_of};
ghost use Rattle.machine_frames.specs.declared.state.Rest as a_rest;
ghost use Rattle.machine_steps.specs.Frames as machine;
ghost use Rattle.machine_steps.specs.Steps as steps;
ghost use Rattle.machine_values.specs.Small.{AreSmall};

use crate::acts::{acted, gives};
use crate::numbers::{compute, move_bits};
use crate::pointers::{add, compare, subtract};
use block_memory::Memory;
use c_core::{End, Expr, Form, Scalar, Value};
use c_meaning::pointer_in;
use machine_access::{Assignment, RecordCopy, modify};
use machine_frames::{Stacks, Turned};
use machine_values::{compare_int, no_value};
use tok_base::Span;

/// Stores a value at a place.
#[inline]
fn store<'a, M: Memory>(
    memory: &mut M,
    at: Span,
    kind: Scalar,
    place: Value,
    value: Value,
) -> Turned<'a>
    requires place { IsGivenValue (M.sizes memory.old) place }
    requires value { IsGivenValue (M.sizes memory.old) value }
    ensures run { (r : a_rest.Rest) (st : machine.Stacks) → next_of result st (state_of (M.blocks memory.new) r) ≡ steps.acting (storage.store_at at (rules.pointer_in place) kind value (state_of (M.blocks memory.old) r).world) st (state_of (M.blocks memory.old) r) }
    ensures given { IsGivenTurned (M.sizes memory.old) result }
    ensures sizes { M.sizes memory.new ≡ M.sizes memory.old }
    ensures starts { M.starts memory.new ≡ M.starts memory.old }
    ensures top { M.top memory.new ≡ M.top memory.old }
{
    acted(machine_access::store_at(memory, at, pointer_in(place), kind, value))
}

/// A compound assignment.
#[inline]
fn assign<'a, M: Memory>(
    memory: &mut M,
    assignment: Assignment,
    place: Value,
    operand: Value,
) -> Turned<'a>
    requires place { IsGivenValue (M.sizes memory.old) place }
    requires small { AreSmall (M.blocks memory.old) }
    ensures run { (r : a_rest.Rest) (st : machine.Stacks) → next_of result st (state_of (M.blocks memory.new) r) ≡ steps.acting (steps.modify assignment.span assignment.at assignment.kind assignment.op assignment.common assignment.post place operand (state_of (M.blocks memory.old) r).world) st (state_of (M.blocks memory.old) r) }
    ensures given { IsGivenTurned (M.sizes memory.old) result }
    ensures sizes { M.sizes memory.new ≡ M.sizes memory.old }
    ensures starts { M.starts memory.new ≡ M.starts memory.old }
    ensures top { M.top memory.new ≡ M.top memory.old }
{
    acted(modify(memory, assignment, place, operand))
}

/// A copy of a record; it has no value.
#[inline]
fn copy<'a, M: Memory>(memory: &mut M, copy: RecordCopy, to: Value, from: Value) -> Turned<'a>
    requires to { IsGivenValue (M.sizes memory.old) to }
    requires from { IsGivenValue (M.sizes memory.old) from }
    ensures run { (r : a_rest.Rest) (st : machine.Stacks) → next_of result st (state_of (M.blocks memory.new) r) ≡ steps.acting (steps.giving rules.no_value (storage.copy_record copy.span (rules.pointer_in to) copy.to_at (rules.pointer_in from) copy.from_at copy.size (state_of (M.blocks memory.old) r).world)) st (state_of (M.blocks memory.old) r) }
    ensures given { IsGivenTurned (M.sizes memory.old) result }
    ensures sizes { M.sizes memory.new ≡ M.sizes memory.old }
    ensures starts { M.starts memory.new ≡ M.starts memory.old }
    ensures top { M.top memory.new ≡ M.top memory.old }
{
    match machine_access::copy_record(memory, copy, pointer_in(to), pointer_in(from)) {
        Ok(()) => gives(no_value()),
        Err(end) => Turned::Over(end),
    }
}

/// Both parts of an expression have values: it has a value or traps.
#[tactic(auto, using(c_core::proofs::Views::views))]
pub fn second_given<'a, M: Memory>(e: &Expr, x: Value, y: Value, memory: &mut M) -> Turned<'a>
    requires first { IsGivenValue (M.sizes memory.old) x }
    requires second { IsGivenValue (M.sizes memory.old) y }
    requires small { AreSmall (M.blocks memory.old) }
    ensures run { (c : Program) (marks : ℕ → ℕ) (r : a_rest.Rest) (st : machine.Stacks) → next_of result st (state_of (M.blocks memory.new) r) ≡ steps.second_given c marks e.now.span (form_of e.now.form) x y st (state_of (M.blocks memory.old) r) }
    ensures given { IsGivenTurned (M.sizes memory.old) result }
    ensures sizes { M.sizes memory.new ≡ M.sizes memory.old }
    ensures starts { M.starts memory.new ≡ M.starts memory.old }
    ensures top { M.top memory.new ≡ M.top memory.old }
{
    match &e.form {
        Form::Arith(op, _, _) => compute(e.span, *op, x, y),
        Form::ShiftBits(to_left, _, _) => move_bits(e.span, *to_left, x, y),
        Form::CompareInt(op, _, _) => gives(compare_int(*op, x, y)),
        Form::PtrAdd(_, _, size, minus) => add(memory, e.span, x, y, *size, *minus),
        Form::PtrDiff(_, _, size) => subtract(memory, e.span, x, y, *size),
        Form::ComparePtr(op, _, _) => compare(memory, e.span, *op, x, y),
        Form::Store(_, at, kind, _) => store(memory, *at, *kind, x, y),
        Form::CopyRecord(_, to_at, _, from_at, size) => {
            let record = RecordCopy {
                span: e.span,
                to_at: *to_at,
                from_at: *from_at,
                size: *size,
            };
            copy(memory, record, x, y)
        }
        Form::Modify(_, at, kind, op, _, common, post) => {
            let assignment = Assignment {
                span: e.span,
                at: *at,
                kind: *kind,
                op: *op,
                common: *common,
                post: *post,
            };
            assign(memory, assignment, x, y)
        }
        Form::Const(_) | Form::Text(_) | Form::Func(_) | Form::Object(_) => {
            Turned::Over(End::Spent)
        }
        Form::Load(_, _) | Form::Convert(_, _) | Form::Truth(_, _) => Turned::Over(End::Spent),
        Form::Both(_, _) | Form::Either(_, _) | Form::Choose(_, _, _) | Form::Then(_, _) => {
            Turned::Over(End::Spent)
        }
        Form::Call(_, _, _, _) | Form::LibCall(_, _, _) | Form::Mark(_) => {
            Turned::Over(End::Spent)
        }
    }
}

/// The second part of an expression has a value, and that of the first is the topmost one.
pub fn second_of<'a, M: Memory>(
    e: &Expr,
    y: Value,
    stacks: &mut Stacks<'a>,
    memory: &mut M,
) -> Turned<'a>
    requires value { IsGivenValue (M.sizes memory.old) y }
    requires values { AreGivenValues (M.sizes memory.old) (values_of stacks.old.values.items) }
    requires small { AreSmall (M.blocks memory.old) }
    ensures run { (c : Program) (marks : ℕ → ℕ) (r : a_rest.Rest) → next_of result (stacks_of stacks.new.frames.items stacks.new.values.items r) (state_of (M.blocks memory.new) r) ≡ steps.second_of c marks (values_of stacks.old.values.items) (expr_of e.now) y (stacks_of stacks.old.frames.items stacks.old.values.items r) (state_of (M.blocks memory.old) r) }
    ensures given { IsGivenTurned (M.sizes memory.old) result }
    ensures values { AreGivenValues (M.sizes memory.old) (values_of stacks.new.values.items) }
    ensures sizes { M.sizes memory.new ≡ M.sizes memory.old }
    ensures starts { M.starts memory.new ≡ M.starts memory.old }
    ensures top { M.top memory.new ≡ M.top memory.old }
{
    match stacks.take() {
        Some(x) => second_given(e, x, y, memory),
        None => Turned::Over(End::Spent),
    }
}
