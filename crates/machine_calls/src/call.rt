//! A call whose arguments are known.

ghost use Rattle.std.specs.Prelude.{◌≡◌, ◌≤◌, ℕ, List, slice_get, true, false};
ghost use Rattle.c_core.specs.Blocks.{Blocks};
ghost use Rattle.c_core.specs.Library.{callee_of, library_functions};
ghost use Rattle.c_core.specs.View.{form_of, func_of, program_of};
ghost use Rattle.c_meaning.specs.Meaning.{is_number};
ghost use Rattle.c_meaning.specs.World.{State};
ghost use Rattle.machine_calls.specs.Callees.{AreCallees};
ghost use Rattle.machine_frames.specs.Held.{IsGivenTurned};
ghost use Rattle.machine_frames.specs.Views.{behind_call, next_of, stacks_of, state_of, values_of};
ghost use Rattle.machine_steps.specs.Frames as machine;
ghost use Rattle.machine_steps.specs.Frames.{below, topmost};
ghost use Rattle.machine_steps.specs.Steps as steps;

use crate::loaded::{Loaded, callee};
use c_core::{End, Expr, Form, Func, LibMark, Pointer, Value};
use machine_frames::{Entering, LibraryCall, Rest, Stacks, Turned};
use tok_base::{Reason, Span};

/// How a call is made: its span, whether its value is used, how many arguments it has, and whether the called value
/// stands below them.
#[derive(Clone, Copy, Debug, PartialEq, Eq)]
pub struct Manner {
    pub span: Span,
    pub used: bool,
    pub args: u32,
    pub through: bool,
}

/// A call of a function without a body.
#[inline]
fn calling_library<'a>(callee: Option<(u32, LibMark)>, manner: Manner) -> Turned<'a>
    ensures run { (st : machine.Stacks) (s : State) → next_of result st s ≡ steps.calling_library callee (topmost manner.args st.values) manner.span (behind_call manner.through manner.args st) s }
    ensures given { (sizes : List ℕ) → IsGivenTurned sizes result }
{
    match callee {
        Some((function, mark)) => Turned::Library(LibraryCall {
            function,
            span: manner.span,
            mark,
            args: manner.args,
            through: manner.through,
        }),
        None => Turned::Over(End::Trap(Reason::NoBody, manner.span)),
    }
}

/// A call of a function by the type that it has.
#[inline]
fn calling_function<'a>(
    function: &'a Func,
    callee: Option<(u32, LibMark)>,
    is_main: bool,
    manner: Manner,
) -> Turned<'a>
    requires { callee ≡ callee_of function.now.name }
    ensures run { (st : machine.Stacks) (s : State) → next_of result st s ≡ steps.calling_function is_main (func_of function.entry.now) (func_of function.entry.now).body (topmost manner.args st.values) manner.used manner.span (behind_call manner.through manner.args st) s }
    ensures given { (sizes : List ℕ) → IsGivenTurned sizes result }
{
    match &function.body {
        Some(body) => Turned::Enter(Entering {
            body,
            params: function.params.as_slice(),
            is_main,
            used: manner.used,
            span: manner.span,
            args: manner.args,
            through: manner.through,
        }),
        None => calling_library(callee, manner),
    }
}

/// A call of the function with a number, through a type (6.3.2.3, paragraph 8; 6.5.2.2, paragraph 9).
fn calling_typed<'a>(loaded: Loaded<'a>, number: u32, ty: &[u8], manner: Manner) -> Turned<'a>
    requires { AreCallees loaded.callees.now loaded.core.now }
    ensures run { (st : machine.Stacks) (s : State) → next_of result st s ≡ steps.calling_typed (is_number loaded.entry.core.now.main number) (slice_get (program_of loaded.entry.core.now).funcs number) ty.now (topmost manner.args st.values) manner.used manner.span (behind_call manner.through manner.args st) s }
    ensures given { (sizes : List ℕ) → IsGivenTurned sizes result }
{
    match loaded.core.funcs.get(number as usize) {
        Some(function) => {
            if function.ty.as_slice() == ty {
                let callee = callee(loaded.callees, number);
                calling_function(function, callee, is_main(loaded, number), manner)
            } else {
                Turned::Over(End::Trap(Reason::BadCall, manner.span))
            }
        }
        None => Turned::Over(End::Trap(Reason::NoFunction, manner.span)),
    }
}

/// Whether a function is `main`.
#[inline]
fn is_main(loaded: Loaded<'_>, number: u32) -> bool
    ensures { result ≡ is_number loaded.entry.core.now.main number }
{
    match loaded.core.main {
        Some(main) => main == number,
        None => false,
    }
}

/// A call of a value through a type, once its tick is paid.
#[inline]
pub fn calling<'a>(loaded: Loaded<'a>, called: &Value, ty: &[u8], manner: Manner) -> Turned<'a>
    requires { AreCallees loaded.callees.now loaded.core.now }
    ensures run { (st : machine.Stacks) (s : State) → next_of result st s ≡ steps.calling (program_of loaded.entry.core.now) called.now ty.now (topmost manner.args st.values) manner.used manner.span (behind_call manner.through manner.args st) s }
    ensures given { (sizes : List ℕ) → IsGivenTurned sizes result }
{
    match called {
        Value::Ptr(Pointer::Function(number)) => calling_typed(loaded, *number, ty, manner),
        _ => Turned::Over(End::Trap(Reason::NoFunction, manner.span)),
    }
}

/// A call of the value below the arguments.
#[inline]
fn calling_through<'a>(
    loaded: Loaded<'a>,
    ty: &[u8],
    manner: Manner,
    stacks: &Stacks<'a>,
    rest: &mut Rest,
) -> Turned<'a>
    requires callees { AreCallees loaded.callees.now loaded.core.now }
    requires through { manner.through ≡ true }
    ensures run { (marks : ℕ → ℕ) (bs : Blocks) → next_of result (stacks_of stacks.entry.now.frames.items stacks.entry.now.values.items rest.new) (state_of bs rest.new) ≡ steps.calling_through (program_of loaded.entry.core.now) marks (below manner.args (values_of stacks.entry.now.values.items)) ty.now (topmost manner.args (values_of stacks.entry.now.values.items)) manner.used manner.span (stacks_of stacks.entry.now.frames.items stacks.entry.now.values.items rest.old) (state_of bs rest.old) }
    ensures given { (sizes : List ℕ) → IsGivenTurned sizes result }
    ensures kept { rest.new ≡ record rest.old { ticks = rest.new.ticks } }
    ensures less { rest.new.ticks ≤ rest.old.ticks }
{
    match stacks.below(manner.args) {
        Some(called) => call_paid(loaded, called, ty, manner, rest),
        None => Turned::Over(End::Spent),
    }
}

/// A call of a value, with its tick.
#[inline]
fn call_paid<'a>(
    loaded: Loaded<'a>,
    called: &Value,
    ty: &[u8],
    manner: Manner,
    rest: &mut Rest,
) -> Turned<'a>
    requires { AreCallees loaded.callees.now loaded.core.now }
    ensures run { (bs : Blocks) (st : machine.Stacks) → next_of result st (state_of bs rest.new) ≡ steps.paying rest.old.ticks (steps.calling (program_of loaded.entry.core.now) called.now ty.now (topmost manner.args st.values) manner.used manner.span (behind_call manner.through manner.args st)) (state_of bs rest.old) }
    ensures given { (sizes : List ℕ) → IsGivenTurned sizes result }
    ensures kept { rest.new ≡ record rest.old { ticks = rest.new.ticks } }
    ensures less { rest.new.ticks ≤ rest.old.ticks }
{
    if rest.pay() {
        calling(loaded, called, ty, manner)
    } else {
        Turned::Over(End::Spent)
    }
}

/// A direct call of a library function, with its tick.
#[inline]
fn library_paid<'a>(function: u32, mark: LibMark, manner: Manner, rest: &mut Rest) -> Turned<'a>
    requires { manner.through ≡ false }
    ensures run { (bs : Blocks) (st : machine.Stacks) → next_of result st (state_of bs rest.new) ≡ steps.paying rest.old.ticks (machine.Library (slice_get library_functions function) manner.span mark (topmost manner.args st.values) (record st { values = below manner.args st.values })) (state_of bs rest.old) }
    ensures given { (sizes : List ℕ) → IsGivenTurned sizes result }
    ensures kept { rest.new ≡ record rest.old { ticks = rest.new.ticks } }
    ensures less { rest.new.ticks ≤ rest.old.ticks }
{
    if rest.pay() {
        calling_library(Some((function, mark)), manner)
    } else {
        Turned::Over(End::Spent)
    }
}

/// The call of an expression whose arguments, that many, are the topmost values.
#[tactic(auto, using(c_core::proofs::Views::views))]
pub fn calling_now<'a>(
    loaded: Loaded<'a>,
    e: &'a Expr,
    args: u32,
    stacks: &Stacks<'a>,
    rest: &mut Rest,
) -> Turned<'a>
    requires { AreCallees loaded.callees.now loaded.core.now }
    ensures run { (marks : ℕ → ℕ) (bs : Blocks) → next_of result (stacks_of stacks.entry.now.frames.items stacks.entry.now.values.items rest.new) (state_of bs rest.new) ≡ steps.calling_now (program_of loaded.entry.core.now) marks e.entry.now.span (form_of e.entry.now.form) args (stacks_of stacks.entry.now.frames.items stacks.entry.now.values.items rest.old) (state_of bs rest.old) }
    ensures given { (sizes : List ℕ) → IsGivenTurned sizes result }
    ensures kept { rest.new ≡ record rest.old { ticks = rest.new.ticks } }
    ensures less { rest.new.ticks ≤ rest.old.ticks }
{
    match &e.form {
        Form::Call(_, ty, _, used) => {
            let manner = Manner {
                span: e.span,
                used: *used,
                args,
                through: true,
            };
            calling_through(loaded, ty.as_slice(), manner, stacks, rest)
        }
        Form::LibCall(function, _, mark) => {
            let manner = Manner {
                span: e.span,
                used: true,
                args,
                through: false,
            };
            library_paid(*function, *mark, manner, rest)
        }
        Form::Const(_) | Form::Text(_) | Form::Func(_) | Form::Object(_) | Form::Mark(_) =>
            Turned::Over(End::Spent),
        Form::Load(_, _) | Form::Store(_, _, _, _) | Form::CopyRecord(_, _, _, _, _) =>
            Turned::Over(End::Spent),
        Form::Convert(_, _) | Form::Truth(_, _) | Form::Modify(_, _, _, _, _, _, _) => Turned::Over(
            End::Spent,
        ),
        Form::Arith(_, _, _) | Form::ShiftBits(_, _, _) | Form::CompareInt(_, _, _) => Turned::Over(
            End::Spent,
        ),
        Form::PtrAdd(_, _, _, _) | Form::PtrDiff(_, _, _) | Form::ComparePtr(_, _, _) =>
            Turned::Over(End::Spent),
        Form::Both(_, _) | Form::Either(_, _) | Form::Choose(_, _, _) | Form::Then(_, _) =>
            Turned::Over(End::Spent),
    }
}
