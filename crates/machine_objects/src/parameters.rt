//! The parameters of a call are made (ISO/IEC 9899:2018, 6.9.1, paragraph 10).

ghost use Rattle.std.specs.Prelude.{◌≡◌, ℕ, ◌<◌, ◌≤◌, List, length, slice_index_or, Some, OnOk, IfOk};
ghost use Rattle.block_memory.specs.Given.{IsGivenValue};
ghost use Rattle.c_meaning.specs.Meaning as meaning;
ghost use Rattle.machine_frames.specs.Held.{AreGivenValues};
ghost use Rattle.machine_steps.specs.Steps as steps;
ghost use Rattle.machine_state.specs.State.{state_in, IsSound, Keeps};
ghost use Rattle.machine_objects.specs.Made.{made_of};

use crate::ending::{local_block, size_at};
use crate::locals::make_local;
use block_memory::Memory;
use c_core::{End, Pointer, Value, kind_of};
use machine_access::{copied, store_at};
use machine_state::Ledger;
use tok_base::{NoMemory, Reason, Span};

/// A value is stored at the beginning of a block.
fn store_value<M: Memory>(
    memory: &mut M,
    ledger: &Ledger,
    span: Span,
    number: u32,
    v: &Value,
) -> Option<End>
    requires sound { IsSound (M.blocks memory.old) (M.starts memory.old) (M.top memory.old) ledger.now }
    requires number { number < length (M.blocks memory.old) }
    requires given { IsGivenValue (M.sizes memory.old) v.now }
    ensures run { made_of result (state_in (M.blocks memory.new) ledger.now) ≡ steps.made_by (meaning.store_argument span (Some number) v.now (state_in (M.blocks memory.old) ledger.now).world) (state_in (M.blocks memory.old) ledger.now) }
    ensures sound { IsSound (M.blocks memory.new) (M.starts memory.new) (M.top memory.new) ledger.now }
    ensures sizes { M.sizes memory.new ≡ M.sizes memory.old }
{
    let kind = kind_of(copied(v));
    match store_at(memory, span, Pointer::Object(number, 0), kind, copied(v)) {
        Ok(_stored) => None,
        Err(end) => Some(end),
    }
}

/// The object of a parameter gets the value of its argument; or the end.
fn store_argument<M: Memory>(
    memory: &mut M,
    ledger: &Ledger,
    span: Span,
    local: u32,
    v: &Value,
) -> Option<End>
    requires sound { IsSound (M.blocks memory.old) (M.starts memory.old) (M.top memory.old) ledger.now }
    requires given { IsGivenValue (M.sizes memory.old) v.now }
    ensures run { made_of result (state_in (M.blocks memory.new) ledger.now) ≡ steps.made_argument span local v.now (state_in (M.blocks memory.old) ledger.now) }
    ensures sound { IsSound (M.blocks memory.new) (M.starts memory.new) (M.top memory.new) ledger.now }
    ensures sizes { M.sizes memory.new ≡ M.sizes memory.old }
{
    match local_block(&ledger.rest, local) {
        Some(number) => store_value(memory, ledger, span, number, v),
        None => Some(End::Trap(Reason::NoBody, span)),
    }
}

/// A parameter is made, and gets the value of its argument; or the end.
fn make_parameter<M: Memory>(
    memory: &mut M,
    ledger: &mut Ledger,
    span: Span,
    local: u32,
    size: u32,
    v: &Value,
) -> Result<Option<End>, NoMemory>
    requires sound { IsSound (M.blocks memory.old) (M.starts memory.old) (M.top memory.old) ledger.old }
    requires given { IsGivenValue (M.sizes memory.old) v.now }
    ensures run { IfOk result (λ e. made_of e (state_in (M.blocks memory.new) ledger.new) ≡ steps.then_made (steps.made_local local size (state_in (M.blocks memory.old) ledger.old)) (steps.made_argument span local v.now)) }
    ensures sound { OnOk result (IsSound (M.blocks memory.new) (M.starts memory.new) (M.top memory.new) ledger.new) }
    ensures keeps { OnOk result (Keeps (M.sizes memory.old) ledger.old (M.sizes memory.new) ledger.new) }
    ensures log { ledger.new.rest.log.items ≡ ledger.old.rest.log.items }
{
    match make_local(memory, ledger, local, u64::from(size))? {
        Some(end) => Ok(Some(end)),
        None => Ok(store_argument(memory, ledger, span, local, v)),
    }
}

/// An argument.
fn value_at(args: &[Value], at: usize) -> &Value
    requires { at < length args.now }
    ensures { result.now ≡ slice_index_or args.now at result.now }
{
    &args[at]
}

/// The parameters of a function, of these sizes, are made, and each gets the value of its argument; or the end.
pub fn make_parameters<M: Memory>(
    memory: &mut M,
    ledger: &mut Ledger,
    span: Span,
    sizes: &[u32],
    args: &[Value],
) -> Result<Option<End>, NoMemory>
    requires sound { IsSound (M.blocks memory.old) (M.starts memory.old) (M.top memory.old) ledger.old }
    requires given { AreGivenValues (M.sizes memory.old) args.now }
    ensures run { IfOk result (λ e. made_of e (state_in (M.blocks memory.new) ledger.new) ≡ steps.made_parameters span (meaning.parameters 0 sizes.now) args.now (state_in (M.blocks memory.old) ledger.old)) }
    ensures sound { OnOk result (IsSound (M.blocks memory.new) (M.starts memory.new) (M.top memory.new) ledger.new) }
    ensures keeps { OnOk result (Keeps (M.sizes memory.old) ledger.old (M.sizes memory.new) ledger.new) }
    ensures log { ledger.new.rest.log.items ≡ ledger.old.rest.log.items }
{
    let count = sizes.len().min(args.len());
    if count > u32::MAX as usize {
        return Err(NoMemory);
    }
    for at in 0..count {
        let size = size_at(sizes, at);
        match make_parameter(memory, ledger, span, at as u32, size, value_at(args, at))? {
            Some(end) => return Ok(Some(end)),
            None => {}
        }
    }
    Ok(None)
}
