//! A value is given to what waits for it.

ghost use Rattle.std.specs.Prelude.{◌≡◌, ◌≤◌, ℕ, List, IfOk};
ghost use Rattle.block_memory.specs.Given.{IsGivenValue};
ghost use Rattle.c_core.specs.Blocks.{Blocks};
ghost use Rattle.c_core.specs.View.{program_of, stmt_of};
ghost use Rattle.c_core.specs.Tree.{Program};
ghost use Rattle.machine_calls.specs.Callees.{AreCallees};
ghost use Rattle.machine_frames.specs.Held.{AreGivenValues, IsGivenTurned};
ghost use Rattle.machine_frames.specs.Views.{frame_of, next_of, stacks_of, state_of, stmt_frame, values_of};
ghost use Rattle.machine_steps.specs.Steps as steps;
ghost use Rattle.machine_values.specs.Small.{AreSmall};

use crate::initial::next_item_behind;
use crate::loops::{branching, testing, testing_next};
use block_memory::Memory;
use c_core::{End, Stmt, Value};
use c_meaning::Flow;
use machine_calls::Loaded;
use machine_expressions::{expr_given, gives};
use machine_frames::{Control, Frame, Rest, Stacks, StmtWait, Turned};
use machine_values::{holds, truth_value};
use tok_base::NoMemory;

/// A part of a statement has a value, for which the whole waits.
fn stmt_given<'a>(
    x: &'a Stmt,
    wait: StmtWait,
    value: Value,
    stacks: &mut Stacks<'a>,
    rest: &mut Rest,
) -> Result<Turned<'a>, NoMemory>
    ensures run { IfOk result (λ t. (c : Program) (marks : ℕ → ℕ) (bs : Blocks) → next_of t (stacks_of stacks.new.frames.items stacks.new.values.items rest.new) (state_of bs rest.new) ≡ steps.given c marks (stmt_frame (stmt_of x.entry.now) wait) value (stacks_of stacks.old.frames.items stacks.old.values.items rest.old) (state_of bs rest.old)) }
    ensures given { IfOk result (λ t. (sizes : List ℕ) → IsGivenTurned sizes t) }
    ensures values { stacks.new.values.items ≡ stacks.old.values.items }
    ensures kept { rest.new ≡ record rest.old { ticks = rest.new.ticks } }
    ensures less { rest.new.ticks ≤ rest.old.ticks }
{
    match wait {
        StmtWait::Item(number) => { next_item_behind(x, number, stacks) }
        StmtWait::Branch => Ok(branching(x, value)),
        StmtWait::Test => { testing(x, value, stacks, rest) }
        StmtWait::Step => { testing_next(x, stacks) }
        StmtWait::Turn => Ok(Turned::Over(End::Spent)),
        StmtWait::Listed(_) => Ok(Turned::Over(End::Spent)),
    }
}

/// A value is given to a frame.
pub fn given<'a, M: Memory>(
    loaded: Loaded<'a>,
    frame: Frame<'a>,
    value: Value,
    stacks: &mut Stacks<'a>,
    rest: &mut Rest,
    memory: &mut M,
) -> Result<Turned<'a>, NoMemory>
    requires callees { AreCallees loaded.callees.now loaded.core.now }
    requires value { IsGivenValue (M.sizes memory.old) value }
    requires values { AreGivenValues (M.sizes memory.old) (values_of stacks.old.values.items) }
    requires small { AreSmall (M.blocks memory.old) }
    ensures run { IfOk result (λ t. (marks : ℕ → ℕ) → next_of t (stacks_of stacks.new.frames.items stacks.new.values.items rest.new) (state_of (M.blocks memory.new) rest.new) ≡ steps.given (program_of loaded.entry.core.now) marks (frame_of frame.entry) value (stacks_of stacks.old.frames.items stacks.old.values.items rest.old) (state_of (M.blocks memory.old) rest.old)) }
    ensures given { IfOk result (λ t. IsGivenTurned (M.sizes memory.old) t) }
    ensures values { IfOk result (λ t. AreGivenValues (M.sizes memory.old) (values_of stacks.new.values.items)) }
    ensures kept { rest.new ≡ record rest.old { ticks = rest.new.ticks } }
    ensures less { rest.new.ticks ≤ rest.old.ticks }
    ensures sizes { M.sizes memory.new ≡ M.sizes memory.old }
    ensures starts { M.starts memory.new ≡ M.starts memory.old }
    ensures top { M.top memory.new ≡ M.top memory.old }
{
    match frame {
        Frame::OfExpr(e, wait) => { expr_given(loaded, e, wait, value, stacks, rest, memory) }
        Frame::OfStmt(x, wait) => { stmt_given(x, wait, value, stacks, rest) }
        Frame::AsTruth => Ok(gives(truth_value(holds(value)))),
        Frame::Done => Ok(Turned::On(Control::Went(Flow::Next))),
        Frame::GiveBack => Ok(Turned::On(Control::Went(Flow::Returned(Some(value))))),
        Frame::Leave(_) => Ok(Turned::Over(End::Spent)),
    }
}
