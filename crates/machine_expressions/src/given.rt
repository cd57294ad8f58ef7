//! A part of an expression has a value.

ghost use Rattle.std.specs.Prelude.{◌≡◌, ◌≤◌, ◌∷◌, ℕ, suc, List, IfOk};
ghost use Rattle.block_memory.specs.Given.{IsGivenValue};
ghost use Rattle.c_core.specs.Blocks.{Blocks};
ghost use Rattle.c_core.specs.View.{expr_of, form_of, program_of};
ghost use Rattle.machine_calls.specs.Callees.{AreCallees};
ghost use Rattle.machine_frames.specs.Held.{AreGivenValues, IsGivenTurned};
ghost use Rattle.machine_frames.specs.Views.{expr_frame, next_of, stacks_of, state_of, values_of};
ghost use Rattle.machine_steps.specs.Frames.{with_value};
ghost use Rattle.machine_steps.specs.Steps as steps;
ghost use Rattle.machine_values.specs.Small.{AreSmall};

use crate::first::first_given;
use crate::second::second_of;
use block_memory::Memory;
use c_core::{Expr, Value};
use machine_calls::{Loaded, next_argument};
use machine_frames::{ExprWait, Rest, Stacks, Turned};
use tok_base::NoMemory;

/// An argument has a value: the next one is evaluated, or the call is made.
#[inline]
fn argument_given<'a>(
    loaded: Loaded<'a>,
    e: &'a Expr,
    number: u32,
    value: Value,
    stacks: &mut Stacks<'a>,
    rest: &mut Rest,
) -> Result<Turned<'a>, NoMemory>
    requires { AreCallees loaded.callees.now loaded.core.now }
    ensures run { IfOk result (λ t. (marks : ℕ → ℕ) (bs : Blocks) → next_of t (stacks_of stacks.new.frames.items stacks.new.values.items rest.new) (state_of bs rest.new) ≡ steps.next_argument (program_of loaded.entry.core.now) marks e.entry.now.span (form_of e.entry.now.form) (suc number) (with_value value (stacks_of stacks.old.frames.items stacks.old.values.items rest.old)) (state_of bs rest.old)) }
    ensures given { IfOk result (λ t. (sizes : List ℕ) → IsGivenTurned sizes t) }
    ensures values { IfOk result (λ t. values_of stacks.new.values.items ≡ value ∷ values_of stacks.old.values.items) }
    ensures kept { rest.new ≡ record rest.old { ticks = rest.new.ticks } }
    ensures less { rest.new.ticks ≤ rest.old.ticks }
{
    match number.checked_add(1) {
        Some(next) => {
            stacks.keep(value)?;
            next_argument(loaded, e, next, stacks, rest)
        }
        None => Err(NoMemory),
    }
}

/// A part of an expression has a value, for which the whole waits.
pub fn expr_given<'a, M: Memory>(
    loaded: Loaded<'a>,
    e: &'a Expr,
    wait: ExprWait,
    value: Value,
    stacks: &mut Stacks<'a>,
    rest: &mut Rest,
    memory: &mut M,
) -> Result<Turned<'a>, NoMemory>
    requires callees { AreCallees loaded.callees.now loaded.core.now }
    requires value { IsGivenValue (M.sizes memory.old) value }
    requires values { AreGivenValues (M.sizes memory.old) (values_of stacks.old.values.items) }
    requires small { AreSmall (M.blocks memory.old) }
    ensures run { IfOk result (λ t. (marks : ℕ → ℕ) → next_of t (stacks_of stacks.new.frames.items stacks.new.values.items rest.new) (state_of (M.blocks memory.new) rest.new) ≡ steps.given (program_of loaded.entry.core.now) marks (expr_frame (expr_of e.entry.now) wait) value (stacks_of stacks.old.frames.items stacks.old.values.items rest.old) (state_of (M.blocks memory.old) rest.old)) }
    ensures given { IfOk result (λ t. IsGivenTurned (M.sizes memory.old) t) }
    ensures values { IfOk result (λ t. AreGivenValues (M.sizes memory.old) (values_of stacks.new.values.items)) }
    ensures kept { rest.new ≡ record rest.old { ticks = rest.new.ticks } }
    ensures less { rest.new.ticks ≤ rest.old.ticks }
    ensures sizes { M.sizes memory.new ≡ M.sizes memory.old }
    ensures starts { M.starts memory.new ≡ M.starts memory.old }
    ensures top { M.top memory.new ≡ M.top memory.old }
{
    match wait {
        ExprWait::First => { first_given(loaded, e, value, stacks, rest, memory) }
        ExprWait::Second => Ok(second_of(e, value, stacks, memory)),
        ExprWait::Argument(number) => { argument_given(loaded, e, number, value, stacks, rest) }
    }
}
