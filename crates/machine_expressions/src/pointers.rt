//! Operators on pointers, as steps.

ghost use Rattle.std.specs.Prelude.{◌≡◌};
ghost use Rattle.block_memory.specs.Given.{IsGivenValue};
ghost use Rattle.c_meaning.specs.Rules as rules;
ghost use Rattle.c_meaning.specs.World as world;
ghost use Rattle.machine_frames.specs.Held.{IsGivenTurned};
ghost use Rattle.machine_frames.specs.Views.{next_of, state_of};
ghost use Rattle.machine_frames.specs.declared.state.Rest as a_rest;
ghost use Rattle.machine_steps.specs.Frames as machine;
ghost use Rattle.machine_steps.specs.Steps as steps;
ghost use Rattle.machine_values.specs.Small.{AreSmall};

use crate::acts::judged;
use block_memory::Memory;
use c_core::Value;
use machine_frames::Turned;
use machine_values::{compare_ptr, ptr_add, ptr_diff};
use num_ops::Cmp;
use tok_base::Span;

/// A pointer and a number of elements, added, or subtracted where true.
#[inline]
pub fn add<'a, M: Memory>(
    memory: &M,
    span: Span,
    p: Value,
    index: Value,
    size: u64,
    minus: bool,
) -> Turned<'a>
    requires given { IsGivenValue (M.sizes memory.now) p }
    requires small { AreSmall (M.blocks memory.now) }
    ensures run { (r : a_rest.Rest) (st : machine.Stacks) → next_of result st (state_of (M.blocks memory.now) r) ≡ steps.acting (world.judged span (rules.ptr_add (state_of (M.blocks memory.now) r).world.blocks p index size minus) (state_of (M.blocks memory.now) r).world) st (state_of (M.blocks memory.now) r) }
    ensures given { IsGivenTurned (M.sizes memory.now) result }
{
    judged(span, ptr_add(memory, p, index, size, minus))
}

/// The difference of two pointers in elements.
#[inline]
#[tactic(auto, using(crate::proofs::Integers::difference_given))]
pub fn subtract<'a, M: Memory>(memory: &M, span: Span, p: Value, q: Value, size: u64) -> Turned<'a>
    requires left { IsGivenValue (M.sizes memory.now) p }
    requires right { IsGivenValue (M.sizes memory.now) q }
    requires small { AreSmall (M.blocks memory.now) }
    ensures run { (r : a_rest.Rest) (st : machine.Stacks) → next_of result st (state_of (M.blocks memory.now) r) ≡ steps.acting (world.judged span (rules.ptr_diff (state_of (M.blocks memory.now) r).world.blocks p q size) (state_of (M.blocks memory.now) r).world) st (state_of (M.blocks memory.now) r) }
    ensures given { IsGivenTurned (M.sizes memory.now) result }
{
    judged(span, ptr_diff(memory, p, q, size))
}

/// A comparison of two pointers.
#[inline]
#[tactic(auto, using(crate::proofs::Integers::comparison_given))]
pub fn compare<'a, M: Memory>(memory: &M, span: Span, op: Cmp, p: Value, q: Value) -> Turned<'a>
    requires left { IsGivenValue (M.sizes memory.now) p }
    requires right { IsGivenValue (M.sizes memory.now) q }
    ensures run { (r : a_rest.Rest) (st : machine.Stacks) → next_of result st (state_of (M.blocks memory.now) r) ≡ steps.acting (world.judged span (rules.compare_ptr op (state_of (M.blocks memory.now) r).world.blocks p q) (state_of (M.blocks memory.now) r).world) st (state_of (M.blocks memory.now) r) }
    ensures given { IsGivenTurned (M.sizes memory.now) result }
{
    judged(span, compare_ptr(memory, op, p, q))
}
