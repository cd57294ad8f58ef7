//! What a step leads to whose value is known.

ghost use Rattle.std.specs.Prelude.{◌≡◌, ℕ, List, IfOk, OnErr};
ghost use Rattle.block_memory.specs.Given.{IsGivenValue};
ghost use Rattle.c_core.specs.Blocks.{Blocks};
ghost use Rattle.c_meaning.specs.World as world;
ghost use Rattle.c_meaning.specs.World.{State};
ghost use Rattle.machine_access.specs.Acts.{acted_of};
ghost use Rattle.machine_frames.specs.Held.{IsGivenTurned};
ghost use Rattle.machine_frames.specs.Views.{next_of, state_of};
ghost use Rattle.machine_frames.specs.declared.state.Rest as rest;
ghost use Rattle.machine_steps.specs.Frames as machine;
ghost use Rattle.machine_steps.specs.Steps as steps;

use c_core::{End, Value};
use machine_frames::{Control, Turned};
use tok_base::{Reason, Span};

/// A value.
#[inline]
pub fn gives<'a>(value: Value) -> Turned<'a>
    ensures run { (st : machine.Stacks) (s : State) → next_of result st s ≡ machine.On (machine.Give value) st s }
    ensures given { (sizes : List ℕ) → IsGivenValue sizes value → IsGivenTurned sizes result }
{
    Turned::On(Control::Give(value))
}

/// What an expression leads to that has a value at once, or traps.
#[inline]
pub fn judged<'a>(span: Span, value: Result<Value, Reason>) -> Turned<'a>
    ensures run { (st : machine.Stacks) (s : State) → next_of result st s ≡ steps.acting (world.judged span value s.world) st s }
    ensures given { (sizes : List ℕ) → IfOk value (λ v. IsGivenValue sizes v) → IsGivenTurned sizes result }
{
    match value {
        Ok(value) => Turned::On(Control::Give(value)),
        Err(reason) => Turned::Over(End::Trap(reason, span)),
    }
}

/// What a quiet step leads to; after a fault nothing has changed.
#[inline]
pub fn acted<'a>(value: Result<Value, End>) -> Turned<'a>
    ensures run { (old new : Blocks) (r : rest.Rest) (st : machine.Stacks) → OnErr value (new ≡ old) → next_of result st (state_of new r) ≡ steps.acting (acted_of value (state_of new r).world) st (state_of old r) }
    ensures given { (sizes : List ℕ) → IfOk value (λ v. IsGivenValue sizes v) → IsGivenTurned sizes result }
{
    match value {
        Ok(value) => Turned::On(Control::Give(value)),
        Err(end) => Turned::Over(end),
    }
}
