//! The arguments of a call, from left to right.

ghost use Rattle.std.specs.Prelude.{◌≡◌, ◌≤◌, ℕ, List, IfOk};
ghost use Rattle.c_core.specs.Blocks.{Blocks};
ghost use Rattle.c_core.specs.View.{exprs_of, form_of, maybe_expr_of, program_of};
ghost use Rattle.machine_calls.specs.Callees.{AreCallees};
ghost use Rattle.machine_calls.specs.Arguments.{arguments};
ghost use Rattle.machine_frames.specs.Held.{IsGivenTurned};
ghost use Rattle.machine_frames.specs.Views.{next_of, stacks_of, state_of};
ghost use Rattle.machine_steps.specs.Frames as machine;
ghost use Rattle.machine_steps.specs.Steps as steps;
ghost use Rattle.std.specs.Option.{option_copied};

use crate::call::calling_now;
use crate::loaded::Loaded;
use c_core::{Expr, Form};
use machine_frames::{Control, ExprWait, Frame, Rest, Stacks, Turned};
use tok_base::NoMemory;

/// The arguments of a call; no other expression has any.
#[inline]
#[tactic(auto, using(c_core::proofs::Views::views))]
fn arguments_of(e: &Expr) -> &[Expr]
    ensures { exprs_of result.now ≡ arguments (form_of e.now.form) }
{
    match &e.form {
        Form::Call(_, _, args, _) => args.as_slice(),
        Form::LibCall(_, args, _) => args.as_slice(),
        Form::Const(_) | Form::Text(_) | Form::Func(_) | Form::Object(_) | Form::Mark(_) => &[],
        Form::Load(_, _) | Form::Store(_, _, _, _) | Form::CopyRecord(_, _, _, _, _) => &[],
        Form::Convert(_, _) | Form::Truth(_, _) | Form::Modify(_, _, _, _, _, _, _) => &[],
        Form::Arith(_, _, _) | Form::ShiftBits(_, _, _) | Form::CompareInt(_, _, _) => &[],
        Form::PtrAdd(_, _, _, _) | Form::PtrDiff(_, _, _) | Form::ComparePtr(_, _, _) => &[],
        Form::Both(_, _) | Form::Either(_, _) | Form::Choose(_, _, _) | Form::Then(_, _) => &[],
    }
}

/// The expression of a list with a number, where there is one.
pub fn expr_at(list: &[Expr], number: u32) -> Option<&Expr>
    ensures { maybe_expr_of (option_copied result) ≡ machine.expr_at number (exprs_of list.now) }
{
    list.get(number as usize)
}

/// The argument with a number is evaluated, or the call is made, where there is none; the arguments before it are
/// the topmost values.
pub fn next_argument<'a>(
    loaded: Loaded<'a>,
    e: &'a Expr,
    number: u32,
    stacks: &mut Stacks<'a>,
    rest: &mut Rest,
) -> Result<Turned<'a>, NoMemory>
    requires { AreCallees loaded.callees.now loaded.core.now }
    ensures run { IfOk result (λ t. (marks : ℕ → ℕ) (bs : Blocks) → next_of t (stacks_of stacks.new.frames.items stacks.new.values.items rest.new) (state_of bs rest.new) ≡ steps.next_argument (program_of loaded.entry.core.now) marks e.entry.now.span (form_of e.entry.now.form) number (stacks_of stacks.old.frames.items stacks.old.values.items rest.old) (state_of bs rest.old)) }
    ensures given { IfOk result (λ t. (sizes : List ℕ) → IsGivenTurned sizes t) }
    ensures values { stacks.new.values.items ≡ stacks.old.values.items }
    ensures kept { rest.new ≡ record rest.old { ticks = rest.new.ticks } }
    ensures less { rest.new.ticks ≤ rest.old.ticks }
{
    match expr_at(arguments_of(e), number) {
        Some(argument) => {
            stacks.wait(Frame::OfExpr(e, ExprWait::Argument(number)))?;
            Ok(Turned::On(Control::Eval(argument)))
        }
        None => Ok(calling_now(loaded, e, number, stacks, rest)),
    }
}
