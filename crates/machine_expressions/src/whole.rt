//! An expression begins.

ghost use Rattle.std.specs.Prelude.{◌≡◌, ◌≤◌, ℕ, List, length, not, is_ok, pos, IfOk};
ghost use Rattle.block_memory.specs.Given.{IsGivenValue};
ghost use Rattle.c_core.specs.Blocks.{Blocks};
ghost use Rattle.c_core.specs.View.{form_of, program_of};
ghost use Rattle.c_core.specs.Tree.{NoExpr};
ghost use Rattle.c_core.specs.declared.tree.Place.TheVariants as APlace;
ghost use Rattle.c_meaning.specs.Rules.{int};
ghost use Rattle.c_meaning.specs.World as world;
ghost use Rattle.c_meaning.specs.World.{State};
ghost use Rattle.c_meaning.specs.Storage as storage;
ghost use Rattle.machine_calls.specs.Callees.{AreCallees};
ghost use Rattle.machine_expressions.specs.Constants.{points_into_block, TakesConstant};
ghost use Rattle.machine_expressions.specs.Parting as parting;
ghost use Rattle.machine_frames.specs.Held.{AreGivenLocals, IsGivenTurned};
ghost use Rattle.machine_frames.specs.Views.{next_of, stacks_of, state_of};
ghost use Rattle.machine_steps.specs.Frames as machine;
ghost use Rattle.machine_steps.specs.Steps as steps;
ghost use Rattle.num_ops.specs.declared.kinds.IntKind.TheVariants as AnIntKind;

use crate::acts::{gives, judged};
use crate::begin::begin_part;
use crate::parts::first_part;
use c_core::{Expr, FixedObject, Form, Place, Pointer, Value};
use machine_calls::{Loaded, function_address, next_argument};
use machine_frames::{Rest, Stacks, Turned};
use num_ops::{Int, IntKind};
use tok_base::{NoMemory, Reason};

/// The address of an object (6.9, paragraph 5).
fn address(fixed: &[FixedObject], place: Place, rest: &Rest) -> Result<Value, Reason>
    ensures value { (bs : Blocks) → result ≡ storage.address fixed.now place (state_of bs rest.now).world }
    ensures given { (sizes : List ℕ) → length fixed.now ≤ length sizes → AreGivenLocals sizes rest.now.locals.items → IfOk result (λ v. IsGivenValue sizes v) }
{
    match place {
        Place::Fixed(number) => fixed_address(fixed, number),
        Place::Local(local) => local_address(rest, local),
    }
}

fn fixed_address(fixed: &[FixedObject], number: u32) -> Result<Value, Reason>
    ensures value { (w : world.World) → result ≡ storage.address fixed.now (APlace.Fixed number) w }
    ensures given { (sizes : List ℕ) → length fixed.now ≤ length sizes → IfOk result (λ v. IsGivenValue sizes v) }
{
    match fixed.get(number as usize) {
        Some(object) => {
            if object.defined {
                Ok(Value::Ptr(Pointer::Object(number, 0)))
            } else {
                Err(Reason::NoBody)
            }
        }
        None => Err(Reason::NoBody),
    }
}

fn local_address(rest: &Rest, local: u32) -> Result<Value, Reason>
    ensures value { (bs : Blocks) → result ≡ storage.local_address (world.local_block (state_of bs rest.now).world local) }
    ensures given { (sizes : List ℕ) → AreGivenLocals sizes rest.now.locals.items → IfOk result (λ v. IsGivenValue sizes v) }
{
    match rest.local_block(local) {
        Some(number) => Ok(Value::Ptr(Pointer::Object(number, 0))),
        None => Err(Reason::NoBody),
    }
}

/// A constant: an integer, null or a function. One that points into a block is not taken, since the block need not
/// be there; no well-formed program has one.
#[inline]
fn constant<'a>(value: &Value) -> Result<Turned<'a>, NoMemory>
    ensures taken { is_ok result ≡ not (points_into_block value.now) }
    ensures run { IfOk result (λ t. (st : machine.Stacks) (s : State) → next_of t st s ≡ machine.On (machine.Give value.now) st s) }
    ensures given { IfOk result (λ t. (sizes : List ℕ) → IsGivenTurned sizes t) }
{
    match value {
        Value::Int(number) => Ok(gives(Value::Int(Int {
            kind: number.kind,
            value: number.value,
        }))),
        Value::Ptr(Pointer::Null) => Ok(gives(Value::Ptr(Pointer::Null))),
        Value::Ptr(Pointer::Function(f)) => Ok(gives(Value::Ptr(Pointer::Function(*f)))),
        Value::Ptr(Pointer::Object(_, _)) => Err(NoMemory),
    }
}

/// The token of a builtin: all tokens are the one of what has none.
#[inline]
fn mark<'a>(token: u32) -> Turned<'a>
    ensures run { (st : machine.Stacks) (s : State) → next_of result st s ≡ machine.On (machine.Give (int AnIntKind.ULong (pos token))) st s }
    ensures given { (sizes : List ℕ) → IsGivenTurned sizes result }
{
    gives(Value::Int(Int {
        kind: IntKind::ULong,
        value: token as i128,
    }))
}

/// An expression begins that has no part which is evaluated first. A constant needs no memory.
#[tactic(auto, using(c_core::proofs::Views::views))]
fn begin_whole<'a>(
    loaded: Loaded<'a>,
    e: &'a Expr,
    stacks: &mut Stacks<'a>,
    rest: &mut Rest,
) -> Result<Turned<'a>, NoMemory>
    requires callees { AreCallees loaded.callees.now loaded.core.now }
    requires whole { parting.first_part (form_of e.now.form) ≡ NoExpr }
    ensures run { IfOk result (λ t. (bs : Blocks) → next_of t (stacks_of stacks.new.frames.items stacks.new.values.items rest.new) (state_of bs rest.new) ≡ steps.evaluating (program_of loaded.entry.core.now) (λ n. loaded.entry.fallback) e.entry.now.span (form_of e.entry.now.form) (stacks_of stacks.old.frames.items stacks.old.values.items rest.old) (state_of bs rest.old)) }
    ensures given { IfOk result (λ t. (sizes : List ℕ) → length loaded.entry.core.now.fixed ≤ length sizes → AreGivenLocals sizes rest.old.locals.items → IsGivenTurned sizes t) }
    ensures constants { TakesConstant (form_of e.entry.now.form) (is_ok result) }
    ensures values { stacks.new.values.items ≡ stacks.old.values.items }
    ensures kept { rest.new ≡ record rest.old { ticks = rest.new.ticks } }
    ensures less { rest.new.ticks ≤ rest.old.ticks }
{
    match &e.form {
        Form::Const(value) => { constant(value) }
        Form::Text(n) => Ok(judged(e.span, fixed_address(loaded.core.fixed.as_slice(), *n))),
        Form::Func(f) => Ok(judged(e.span, function_address(loaded, *f))),
        Form::Object(place) => Ok(judged(
            e.span,
            address(loaded.core.fixed.as_slice(), *place, rest),
        )),
        Form::LibCall(_, _, _) => { next_argument(loaded, e, 0, stacks, rest) }
        Form::Mark(_) => Ok(mark(loaded.fallback)),
        Form::Load(_, _) | Form::Store(_, _, _, _) | Form::CopyRecord(_, _, _, _, _) => {
            unreachable!()
        }
        Form::Convert(_, _) | Form::Truth(_, _) | Form::Modify(_, _, _, _, _, _, _) => {
            unreachable!()
        }
        Form::Arith(_, _, _) | Form::ShiftBits(_, _, _) | Form::CompareInt(_, _, _) => {
            unreachable!()
        }
        Form::PtrAdd(_, _, _, _) | Form::PtrDiff(_, _, _) | Form::ComparePtr(_, _, _) => {
            unreachable!()
        }
        Form::Both(_, _) | Form::Either(_, _) | Form::Choose(_, _, _) | Form::Then(_, _) => {
            unreachable!()
        }
        Form::Call(_, _, _, _) => unreachable!(),
    }
}

/// An expression begins. Where it is a constant, it answers `NoMemory` exactly if that one points into a block.
pub fn evaluating<'a>(
    loaded: Loaded<'a>,
    e: &'a Expr,
    stacks: &mut Stacks<'a>,
    rest: &mut Rest,
) -> Result<Turned<'a>, NoMemory>
    requires { AreCallees loaded.callees.now loaded.core.now }
    ensures run { IfOk result (λ t. (bs : Blocks) → next_of t (stacks_of stacks.new.frames.items stacks.new.values.items rest.new) (state_of bs rest.new) ≡ steps.evaluating (program_of loaded.entry.core.now) (λ n. loaded.entry.fallback) e.entry.now.span (form_of e.entry.now.form) (stacks_of stacks.old.frames.items stacks.old.values.items rest.old) (state_of bs rest.old)) }
    ensures given { IfOk result (λ t. (sizes : List ℕ) → length loaded.entry.core.now.fixed ≤ length sizes → AreGivenLocals sizes rest.old.locals.items → IsGivenTurned sizes t) }
    ensures constants { TakesConstant (form_of e.entry.now.form) (is_ok result) }
    ensures values { stacks.new.values.items ≡ stacks.old.values.items }
    ensures kept { rest.new ≡ record rest.old { ticks = rest.new.ticks } }
    ensures less { rest.new.ticks ≤ rest.old.ticks }
{
    match first_part(e) {
        Some(part) => { begin_part(e, part, stacks) }
        None => { begin_whole(loaded, e, stacks, rest) }
    }
}
