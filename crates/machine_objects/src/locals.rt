//! Locals are made.

ghost use Rattle.std.specs.Prelude.{◌≡◌, ℕ, ◌+◌, ◌-◌, ◌<◌, ◌≤◌, ◌^◌, [], ◌∷◌, ◌++◌, length, take, drop, replicate, vec_len, None, IfOk, OnOk, OnErr};
ghost use Rattle.c_core.specs.declared.values.BlockKind.TheVariants as kind;
ghost use Rattle.c_meaning.specs.World as world;
ghost use Rattle.machine_steps.specs.Steps as steps;
ghost use Rattle.machine_state.specs.State.{state_in, IsSound, AreLocals, Keeps};
ghost use Rattle.machine_objects.specs.Made.{made_of};

use crate::placing::place;
use crate::rooms::take_room;
use block_memory::Memory;
use c_core::{BlockKind, End};
use machine_state::Ledger;
use tok_base::NoMemory;

/// Makes the list of locals long enough for this one.
#[tactic(auto, using(crate::proofs::Making::pads))]
fn pad(locals: &mut Vec<Option<u32>>, at: usize) -> Result<(), NoMemory>
    requires { at < 2 ^ 34 }
    ensures padded { OnOk result (locals.new.items ≡ locals.old.items ++ replicate (at + 1 - vec_len locals.old) None) }
    ensures within { OnOk result (at < vec_len locals.new) }
{
    if at < locals.len() {
        return Ok(());
    }
    locals.resize(at + 1, None)?;
    Ok(())
}

/// Notes the block of a local.
fn set_local(
    locals: &mut Vec<Option<u32>>,
    base: u32,
    local: u32,
    number: u32,
) -> Result<(), NoMemory>
    requires { base ≤ vec_len locals.old }
    ensures set { OnOk result (drop base locals.new.items ≡ world.set_local (drop base locals.old.items) local number) }
    ensures saved { OnOk result (take base locals.new.items ≡ take base locals.old.items) }
    ensures long { OnOk result (base ≤ vec_len locals.new) }
    ensures given { OnOk result ((count : ℕ) → number < count → AreLocals count locals.old.items → AreLocals count locals.new.items) }
{
    let at = base as usize + local as usize;
    pad(locals, at)?;
    locals[at] = Some(number);
    Ok(())
}

/// A local's object, behind the others.
fn new_local<M: Memory>(
    memory: &mut M,
    ledger: &mut Ledger,
    local: u32,
    size: u32,
) -> Result<(), NoMemory>
    requires sound { IsSound (M.blocks memory.old) (M.starts memory.old) (M.top memory.old) ledger.old }
    requires size { size ≤ 16777216 }
    ensures run { OnOk result (state_in (M.blocks memory.new) ledger.new ≡ record (state_in (M.blocks memory.old) ledger.old) { world = world.with_local local size (state_in (M.blocks memory.old) ledger.old).world }) }
    ensures sound { OnOk result (IsSound (M.blocks memory.new) (M.starts memory.new) (M.top memory.new) ledger.new) }
    ensures keeps { OnOk result (Keeps (M.sizes memory.old) ledger.old (M.sizes memory.new) ledger.new) }
    ensures log { ledger.new.rest.log.items ≡ ledger.old.rest.log.items }
{
    let number = place(memory, ledger, BlockKind::Auto, size)?;
    set_local(&mut ledger.rest.locals, ledger.rest.base, local, number)?;
    Ok(())
}

/// A tick, room, and the object of a local (6.2.4, paragraph 5); or the end.
pub fn make_local<M: Memory>(
    memory: &mut M,
    ledger: &mut Ledger,
    local: u32,
    size: u64,
) -> Result<Option<End>, NoMemory>
    requires sound { IsSound (M.blocks memory.old) (M.starts memory.old) (M.top memory.old) ledger.old }
    ensures run { IfOk result (λ e. made_of e (state_in (M.blocks memory.new) ledger.new) ≡ steps.made_local local size (state_in (M.blocks memory.old) ledger.old)) }
    ensures sound { OnOk result (IsSound (M.blocks memory.new) (M.starts memory.new) (M.top memory.new) ledger.new) }
    ensures keeps { OnOk result (Keeps (M.sizes memory.old) ledger.old (M.sizes memory.new) ledger.new) }
    ensures log { ledger.new.rest.log.items ≡ ledger.old.rest.log.items }
{
    if ledger.rest.ticks == 0 {
        return Ok(Some(End::Spent));
    }
    ledger.rest.ticks -= 1;
    if !take_room(&mut ledger.rest, size) {
        return Ok(Some(End::StackFull));
    }
    new_local(memory, ledger, local, size as u32)?;
    Ok(None)
}

/// The objects of a block, in their order; or the end.
pub fn make_locals<M: Memory>(
    memory: &mut M,
    ledger: &mut Ledger,
    objects: &[(u32, u64)],
) -> Result<Option<End>, NoMemory>
    requires sound { IsSound (M.blocks memory.old) (M.starts memory.old) (M.top memory.old) ledger.old }
    ensures run { IfOk result (λ e. made_of e (state_in (M.blocks memory.new) ledger.new) ≡ steps.made_locals objects.now (state_in (M.blocks memory.old) ledger.old)) }
    ensures sound { OnOk result (IsSound (M.blocks memory.new) (M.starts memory.new) (M.top memory.new) ledger.new) }
    ensures keeps { OnOk result (Keeps (M.sizes memory.old) ledger.old (M.sizes memory.new) ledger.new) }
    ensures log { ledger.new.rest.log.items ≡ ledger.old.rest.log.items }
{
    for object in objects {
        match make_local(memory, ledger, object.0, object.1)? {
            Some(end) => return Ok(Some(end)),
            None => {}
        }
    }
    Ok(None)
}
