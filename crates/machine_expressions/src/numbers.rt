//! Operators on integers, as steps.

ghost use Rattle.std.specs.Prelude.{◌≡◌, ℕ, List};
ghost use Rattle.c_meaning.specs.Rules as rules;
ghost use Rattle.c_meaning.specs.World as world;
ghost use Rattle.c_meaning.specs.World.{State};
ghost use Rattle.machine_frames.specs.Held.{IsGivenTurned};
ghost use Rattle.machine_frames.specs.Views.{next_of};
ghost use Rattle.machine_steps.specs.Frames as machine;
ghost use Rattle.machine_steps.specs.Steps as steps;

use crate::acts::judged;
use c_core::Value;
use machine_frames::Turned;
use machine_values::{arith, shift};
use num_ops::Op;
use tok_base::Span;

/// Arithmetic.
#[inline]
#[tactic(auto, using(machine_values::proofs::Small::arith_given))]
pub fn compute<'a>(span: Span, op: Op, x: Value, y: Value) -> Turned<'a>
    ensures run { (st : machine.Stacks) (s : State) → next_of result st s ≡ steps.acting (world.judged span (rules.arith op x y) s.world) st s }
    ensures given { (sizes : List ℕ) → IsGivenTurned sizes result }
{
    judged(span, arith(op, x, y))
}

/// A shift, to the left where true.
#[inline]
#[tactic(auto, using(machine_values::proofs::Small::shift_given))]
pub fn move_bits<'a>(span: Span, to_left: bool, x: Value, y: Value) -> Turned<'a>
    ensures run { (st : machine.Stacks) (s : State) → next_of result st s ≡ steps.acting (world.judged span (rules.shift to_left x y) s.world) st s }
    ensures given { (sizes : List ℕ) → IsGivenTurned sizes result }
{
    judged(span, shift(to_left, x, y))
}
