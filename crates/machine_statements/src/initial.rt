//! Initialisers.

ghost use Rattle.std.specs.Prelude.{◌≡◌, ℕ, suc, List, IfOk, IfSome, OnErr};
ghost use Rattle.block_memory.specs.Given.{IsGiven};
ghost use Rattle.c_core.specs.Tree.{Program};
ghost use Rattle.c_core.specs.View.{exprs_of, stmt_of};
ghost use Rattle.c_meaning.specs.Meaning as meaning;
ghost use Rattle.c_core.specs.declared.values.Pointer.TheVariants as APointer;
ghost use Rattle.c_meaning.specs.World.{State, World};
ghost use Rattle.machine_access.specs.Acts.{acted_of, over_blocks};
ghost use Rattle.machine_frames.specs.Held.{AreGivenLocals, IsGivenTurned};
ghost use Rattle.machine_frames.specs.Views.{next_of, stacks_of, state_of};
ghost use Rattle.machine_frames.specs.declared.state.Rest as a_rest;
ghost use Rattle.machine_steps.specs.Frames as machine;
ghost use Rattle.machine_steps.specs.Steps as steps;

use block_memory::Memory;
use c_core::{End, Expr, Stmt};
use c_meaning::Flow;
use machine_access::zeroed;
use machine_calls::expr_at;
use machine_frames::{Control, Frame, Rest, Stacks, StmtWait, Turned};
use tok_base::{NoMemory, Reason, Span};

/// An aggregate is zero where its initialiser says nothing (6.7.9, paragraph 21).
#[inline]
fn zero_block<M: Memory>(memory: &mut M, block: Option<u32>) -> Result<(), End>
    requires { IfSome block (λ n. IsGiven (M.sizes memory.old) (APointer.Object n 0)) }
    ensures value { (w : World) → meaning.zero_block block (over_blocks (M.blocks memory.old) w) ≡ acted_of result (over_blocks (M.blocks memory.new) w) }
    ensures sizes { M.sizes memory.new ≡ M.sizes memory.old }
    ensures starts { M.starts memory.new ≡ M.starts memory.old }
    ensures top { M.top memory.new ≡ M.top memory.old }
    ensures unchanged { OnErr result (M.blocks memory.new ≡ M.blocks memory.old) }
{
    let nowhere = Span { start: 0, end: 0 };
    match block {
        Some(number) => {
            let size = memory.block(number).size;
            zeroed(memory, nowhere, number, size)
        }
        None => Err(End::Trap(Reason::NoBody, nowhere)),
    }
}

/// What an initialiser does first.
pub fn zero_first<M: Memory>(
    memory: &mut M,
    rest: &Rest,
    zeros: bool,
    local: u32,
) -> Result<(), End>
    requires { AreGivenLocals (M.sizes memory.old) rest.now.locals.items }
    ensures value { meaning.zero_first zeros local (state_of (M.blocks memory.old) rest.now).world ≡ acted_of result (state_of (M.blocks memory.new) rest.now).world }
    ensures sizes { M.sizes memory.new ≡ M.sizes memory.old }
    ensures starts { M.starts memory.new ≡ M.starts memory.old }
    ensures top { M.top memory.new ≡ M.top memory.old }
    ensures unchanged { OnErr result (M.blocks memory.new ≡ M.blocks memory.old) }
{
    if zeros {
        zero_block(memory, rest.local_block(local))
    } else {
        Ok(())
    }
}

/// The item of an initialiser with a number is evaluated; where there is none, the next statement follows.
#[tactic(auto, using(crate::proofs::Listed::stmt_views))]
pub fn next_item<'a>(
    x: &'a Stmt,
    number: u32,
    stacks: &mut Stacks<'a>,
) -> Result<Turned<'a>, NoMemory>
    ensures run { IfOk result (λ t. (c : Program) (marks : ℕ → ℕ) (r : a_rest.Rest) (s : State) → next_of t (stacks_of stacks.new.frames.items stacks.new.values.items r) s ≡ steps.next_item c marks (stmt_of x.entry.now) number (stacks_of stacks.old.frames.items stacks.old.values.items r) s) }
    ensures given { IfOk result (λ t. (sizes : List ℕ) → IsGivenTurned sizes t) }
    ensures values { stacks.new.values.items ≡ stacks.old.values.items }
{
    match x {
        Stmt::Init(_, _, items) => { item_or_end(x, items.as_slice(), number, stacks) }
        Stmt::Block(_, _) | Stmt::Expr(_) | Stmt::If(_, _, _) | Stmt::Loop(_, _, _, _) => {
            Ok(Turned::Over(End::Spent))
        }
        Stmt::Break | Stmt::Continue | Stmt::Return(_) => Ok(Turned::Over(End::Spent)),
    }
}

/// The item of a list with a number.
#[inline]
fn item_or_end<'a>(
    x: &'a Stmt,
    items: &'a [Expr],
    number: u32,
    stacks: &mut Stacks<'a>,
) -> Result<Turned<'a>, NoMemory>
    ensures run { IfOk result (λ t. (c : Program) (marks : ℕ → ℕ) (r : a_rest.Rest) (s : State) → next_of t (stacks_of stacks.new.frames.items stacks.new.values.items r) s ≡ steps.item_or_end c marks (machine.expr_at number (exprs_of items.entry.now)) (stmt_of x.entry.now) number (stacks_of stacks.old.frames.items stacks.old.values.items r) s) }
    ensures given { IfOk result (λ t. (sizes : List ℕ) → IsGivenTurned sizes t) }
    ensures values { stacks.new.values.items ≡ stacks.old.values.items }
{
    match expr_at(items, number) {
        Some(item) => {
            stacks.wait(Frame::OfStmt(x, StmtWait::Item(number)))?;
            Ok(Turned::On(Control::Eval(item)))
        }
        None => Ok(Turned::On(Control::Went(Flow::Next))),
    }
}

/// The item behind the one with a number.
pub fn next_item_behind<'a>(
    x: &'a Stmt,
    number: u32,
    stacks: &mut Stacks<'a>,
) -> Result<Turned<'a>, NoMemory>
    ensures run { IfOk result (λ t. (c : Program) (marks : ℕ → ℕ) (r : a_rest.Rest) (s : State) → next_of t (stacks_of stacks.new.frames.items stacks.new.values.items r) s ≡ steps.next_item c marks (stmt_of x.entry.now) (suc number) (stacks_of stacks.old.frames.items stacks.old.values.items r) s) }
    ensures given { IfOk result (λ t. (sizes : List ℕ) → IsGivenTurned sizes t) }
    ensures values { stacks.new.values.items ≡ stacks.old.values.items }
{
    match number.checked_add(1) {
        Some(next) => { next_item(x, next, stacks) }
        None => Err(NoMemory),
    }
}

/// An initialiser begins.
pub fn initial<'a, M: Memory>(
    x: &'a Stmt,
    zeros: bool,
    local: u32,
    stacks: &mut Stacks<'a>,
    rest: &Rest,
    memory: &mut M,
) -> Result<Turned<'a>, NoMemory>
    requires { AreGivenLocals (M.sizes memory.old) rest.now.locals.items }
    ensures run { IfOk result (λ t. (c : Program) (marks : ℕ → ℕ) → next_of t (stacks_of stacks.new.frames.items stacks.new.values.items rest.now) (state_of (M.blocks memory.new) rest.now) ≡ steps.from_made (steps.made_by (meaning.zero_first zeros local (state_of (M.blocks memory.old) rest.now).world) (state_of (M.blocks memory.old) rest.now)) (steps.next_item c marks (stmt_of x.entry.now) 0 (stacks_of stacks.old.frames.items stacks.old.values.items rest.now))) }
    ensures given { IfOk result (λ t. (sizes : List ℕ) → IsGivenTurned sizes t) }
    ensures values { stacks.new.values.items ≡ stacks.old.values.items }
    ensures sizes { M.sizes memory.new ≡ M.sizes memory.old }
    ensures starts { M.starts memory.new ≡ M.starts memory.old }
    ensures top { M.top memory.new ≡ M.top memory.old }
{
    match zero_first(memory, rest, zeros, local) {
        Ok(()) => { next_item(x, 0, stacks) }
        Err(end) => Ok(Turned::Over(end)),
    }
}
