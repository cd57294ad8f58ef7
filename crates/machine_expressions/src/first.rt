//! The first part of an expression has a value.

ghost use Rattle.std.specs.Prelude.{◌≡◌, ◌≤◌, ◌∷◌, ℕ, List, true, false, if◌then◌else◌, IfOk};
ghost use Rattle.block_memory.specs.Given.{IsGivenValue};
ghost use Rattle.c_core.specs.Blocks.{Blocks};
ghost use Rattle.c_core.specs.Tree.{NoExpr};
ghost use Rattle.c_core.specs.View.{expr_of, form_of, program_of};
ghost use Rattle.c_meaning.specs.Rules as rules;
ghost use Rattle.c_meaning.specs.World as world;
ghost use Rattle.c_meaning.specs.World.{State};
ghost use Rattle.c_meaning.specs.Storage as storage;
ghost use Rattle.machine_calls.specs.Callees.{AreCallees};
ghost use Rattle.machine_expressions.specs.Parting as parting;
ghost use Rattle.machine_frames.specs.Held.{AreGivenValues, IsGivenTurned};
ghost use Rattle.machine_frames.specs.Views.{next_of, stacks_of, state_of, values_of};
ghost use Rattle.machine_frames.specs.declared.state.Rest as a_rest;
ghost use Rattle.machine_steps.specs.Frames as machine;
ghost use Rattle.machine_steps.specs.Frames.{with_frame, with_value};
ghost use Rattle.machine_steps.specs.Steps as steps;

use crate::acts::{acted, gives, judged};
use crate::begin::begin_second;
use crate::parts::second_part;
use block_memory::Memory;
use c_core::{End, Expr, Form, Scalar, Value};
use c_meaning::pointer_in;
use machine_access::load_at;
use machine_calls::{Loaded, next_argument};
use machine_frames::{Control, Frame, Rest, Stacks, Turned};
use machine_values::{convert, holds, truth, truth_value};
use tok_base::{NoMemory, Span};

/// The value at a place.
#[inline]
fn load<'a, M: Memory>(memory: &M, span: Span, kind: Scalar, place: Value) -> Turned<'a>
    requires { IsGivenValue (M.sizes memory.now) place }
    ensures run { (r : a_rest.Rest) (st : machine.Stacks) → next_of result st (state_of (M.blocks memory.now) r) ≡ steps.acting (storage.load_at span (rules.pointer_in place) kind (state_of (M.blocks memory.now) r).world) st (state_of (M.blocks memory.now) r) }
    ensures given { IsGivenTurned (M.sizes memory.now) result }
{
    acted(load_at(memory, span, pointer_in(place), kind))
}

/// Whether a value is not zero or null.
#[inline]
#[tactic(auto, using(crate::proofs::Integers::truth_given))]
fn truth_of<'a, M: Memory>(memory: &M, span: Span, value: Value, negated: bool) -> Turned<'a>
    requires { IsGivenValue (M.sizes memory.now) value }
    ensures run { (r : a_rest.Rest) (st : machine.Stacks) → next_of result st (state_of (M.blocks memory.now) r) ≡ steps.acting (world.judged span (rules.truth (state_of (M.blocks memory.now) r).world.blocks value negated) (state_of (M.blocks memory.now) r).world) st (state_of (M.blocks memory.now) r) }
    ensures given { IsGivenTurned (M.sizes memory.now) result }
{
    judged(span, truth(memory, value, negated))
}

/// `&&` behind its left operand (6.5.13).
#[inline]
fn both<'a>(right: &'a Expr, value: Value, stacks: &mut Stacks<'a>) -> Result<Turned<'a>, NoMemory>
    ensures run { IfOk result (λ t. (r : a_rest.Rest) (s : State) → next_of t (stacks_of stacks.new.frames.items stacks.new.values.items r) s ≡ (if rules.holds value then machine.On (machine.Eval (expr_of right.entry.now)) (with_frame machine.AsTruth (stacks_of stacks.old.frames.items stacks.old.values.items r)) s else machine.On (machine.Give (rules.truth_value false)) (stacks_of stacks.old.frames.items stacks.old.values.items r) s)) }
    ensures given { IfOk result (λ t. (sizes : List ℕ) → IsGivenTurned sizes t) }
    ensures values { stacks.new.values.items ≡ stacks.old.values.items }
{
    if holds(value) {
        stacks.wait(Frame::AsTruth)?;
        Ok(Turned::On(Control::Eval(right)))
    } else {
        Ok(gives(truth_value(false)))
    }
}

/// `||` behind its left operand (6.5.14).
#[inline]
fn either<'a>(
    right: &'a Expr,
    value: Value,
    stacks: &mut Stacks<'a>,
) -> Result<Turned<'a>, NoMemory>
    ensures run { IfOk result (λ t. (r : a_rest.Rest) (s : State) → next_of t (stacks_of stacks.new.frames.items stacks.new.values.items r) s ≡ (if rules.holds value then machine.On (machine.Give (rules.truth_value true)) (stacks_of stacks.old.frames.items stacks.old.values.items r) s else machine.On (machine.Eval (expr_of right.entry.now)) (with_frame machine.AsTruth (stacks_of stacks.old.frames.items stacks.old.values.items r)) s)) }
    ensures given { IfOk result (λ t. (sizes : List ℕ) → IsGivenTurned sizes t) }
    ensures values { stacks.new.values.items ≡ stacks.old.values.items }
{
    if holds(value) {
        Ok(gives(truth_value(true)))
    } else {
        stacks.wait(Frame::AsTruth)?;
        Ok(Turned::On(Control::Eval(right)))
    }
}

/// `?:` behind its condition (6.5.15).
#[inline]
fn choose<'a>(yes: &'a Expr, no: &'a Expr, value: Value) -> Turned<'a>
    ensures run { (st : machine.Stacks) (s : State) → next_of result st s ≡ (if rules.holds value then machine.On (machine.Eval (expr_of yes.entry.now)) st s else machine.On (machine.Eval (expr_of no.entry.now)) st s) }
    ensures given { (sizes : List ℕ) → IsGivenTurned sizes result }
{
    if holds(value) {
        Turned::On(Control::Eval(yes))
    } else {
        Turned::On(Control::Eval(no))
    }
}

/// The called value is kept, and the first argument is evaluated, or the call is made.
#[inline]
fn call_given<'a>(
    loaded: Loaded<'a>,
    e: &'a Expr,
    called: Value,
    stacks: &mut Stacks<'a>,
    rest: &mut Rest,
) -> Result<Turned<'a>, NoMemory>
    requires { AreCallees loaded.callees.now loaded.core.now }
    ensures run { IfOk result (λ t. (marks : ℕ → ℕ) (bs : Blocks) → next_of t (stacks_of stacks.new.frames.items stacks.new.values.items rest.new) (state_of bs rest.new) ≡ steps.next_argument (program_of loaded.entry.core.now) marks e.entry.now.span (form_of e.entry.now.form) 0 (with_value called (stacks_of stacks.old.frames.items stacks.old.values.items rest.old)) (state_of bs rest.old)) }
    ensures given { IfOk result (λ t. (sizes : List ℕ) → IsGivenTurned sizes t) }
    ensures values { IfOk result (λ t. values_of stacks.new.values.items ≡ called ∷ values_of stacks.old.values.items) }
    ensures kept { rest.new ≡ record rest.old { ticks = rest.new.ticks } }
    ensures less { rest.new.ticks ≤ rest.old.ticks }
{
    stacks.keep(called)?;
    next_argument(loaded, e, 0, stacks, rest)
}

/// An expression without a second part, whose first part has a value.
#[tactic(auto, using(c_core::proofs::Views::views))]
fn first_acts<'a, M: Memory>(
    loaded: Loaded<'a>,
    e: &'a Expr,
    value: Value,
    stacks: &mut Stacks<'a>,
    rest: &mut Rest,
    memory: &M,
) -> Result<Turned<'a>, NoMemory>
    requires callees { AreCallees loaded.callees.now loaded.core.now }
    requires one { parting.second_part (form_of e.now.form) ≡ NoExpr }
    requires value { IsGivenValue (M.sizes memory.now) value }
    requires values { AreGivenValues (M.sizes memory.now) (values_of stacks.old.values.items) }
    ensures run { IfOk result (λ t. (marks : ℕ → ℕ) → next_of t (stacks_of stacks.new.frames.items stacks.new.values.items rest.new) (state_of (M.blocks memory.now) rest.new) ≡ steps.first_given (program_of loaded.entry.core.now) marks e.entry.now.span (form_of e.entry.now.form) value (stacks_of stacks.old.frames.items stacks.old.values.items rest.old) (state_of (M.blocks memory.now) rest.old)) }
    ensures given { IfOk result (λ t. IsGivenTurned (M.sizes memory.now) t) }
    ensures values { IfOk result (λ t. AreGivenValues (M.sizes memory.now) (values_of stacks.new.values.items)) }
    ensures kept { rest.new ≡ record rest.old { ticks = rest.new.ticks } }
    ensures less { rest.new.ticks ≤ rest.old.ticks }
{
    match &e.form {
        Form::Load(_, kind) => Ok(load(memory, e.span, *kind, value)),
        Form::Convert(kind, _) => Ok(gives(convert(*kind, value))),
        Form::Truth(_, negated) => Ok(truth_of(memory, e.span, value, *negated)),
        Form::Both(_, right) => { both(right.get(), value, stacks) }
        Form::Either(_, right) => { either(right.get(), value, stacks) }
        Form::Choose(_, yes, no) => Ok(choose(yes.get(), no.get(), value)),
        Form::Then(_, right) => Ok(Turned::On(Control::Eval(right.get()))),
        Form::Call(_, _, _, _) => { call_given(loaded, e, value, stacks, rest) }
        Form::Const(_) | Form::Text(_) | Form::Func(_) | Form::Object(_) => {
            Ok(Turned::Over(End::Spent))
        }
        Form::LibCall(_, _, _) | Form::Mark(_) => Ok(Turned::Over(End::Spent)),
        Form::Store(_, _, _, _) | Form::CopyRecord(_, _, _, _, _) => unreachable!(),
        Form::Modify(_, _, _, _, _, _, _) => unreachable!(),
        Form::Arith(_, _, _) | Form::ShiftBits(_, _, _) | Form::CompareInt(_, _, _) => {
            unreachable!()
        }
        Form::PtrAdd(_, _, _, _) | Form::PtrDiff(_, _, _) | Form::ComparePtr(_, _, _) => {
            unreachable!()
        }
    }
}

/// The first part of an expression has a value: its second part is evaluated, or it has a value, traps or calls.
pub fn first_given<'a, M: Memory>(
    loaded: Loaded<'a>,
    e: &'a Expr,
    value: Value,
    stacks: &mut Stacks<'a>,
    rest: &mut Rest,
    memory: &M,
) -> Result<Turned<'a>, NoMemory>
    requires callees { AreCallees loaded.callees.now loaded.core.now }
    requires value { IsGivenValue (M.sizes memory.now) value }
    requires values { AreGivenValues (M.sizes memory.now) (values_of stacks.old.values.items) }
    ensures run { IfOk result (λ t. (marks : ℕ → ℕ) → next_of t (stacks_of stacks.new.frames.items stacks.new.values.items rest.new) (state_of (M.blocks memory.now) rest.new) ≡ steps.first_given (program_of loaded.entry.core.now) marks e.entry.now.span (form_of e.entry.now.form) value (stacks_of stacks.old.frames.items stacks.old.values.items rest.old) (state_of (M.blocks memory.now) rest.old)) }
    ensures given { IfOk result (λ t. IsGivenTurned (M.sizes memory.now) t) }
    ensures values { IfOk result (λ t. AreGivenValues (M.sizes memory.now) (values_of stacks.new.values.items)) }
    ensures kept { rest.new ≡ record rest.old { ticks = rest.new.ticks } }
    ensures less { rest.new.ticks ≤ rest.old.ticks }
{
    match second_part(e) {
        Some(part) => { begin_second(e, part, value, stacks) }
        None => { first_acts(loaded, e, value, stacks, rest, memory) }
    }
}
