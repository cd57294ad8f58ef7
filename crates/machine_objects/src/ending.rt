//! Objects end (ISO/IEC 9899:2018, 6.2.4, paragraph 2).

ghost use Rattle.std.specs.Prelude.{◌≡◌, ℕ, ◌+◌, ◌<◌, ◌≤◌, List, length, take, slice_get, slice_index_or, IfSome, OnOk, OnErr};
ghost use Rattle.c_core.specs.Blocks.{Blocks};
ghost use Rattle.c_meaning.specs.Meaning as meaning;
ghost use Rattle.c_meaning.specs.World as world;
ghost use Rattle.machine_frames.specs.Views.{state_of};
ghost use Rattle.machine_state.specs.State.{state_in, IsSound, AreLocals, Keeps};
ghost use Rattle.machine_objects.specs.Made.{ending};

use crate::rooms::give_room;
use block_memory::Memory;
use machine_frames::Rest;
use machine_state::Ledger;
use tok_base::NoMemory;

/// The block that stands in a list of locals.
fn entry_at(locals: &Vec<Option<u32>>, at: usize) -> Option<u32>
    ensures { result ≡ world.block_in (slice_get locals.now.items at) }
{
    match locals.get(at) {
        Some(Some(number)) => Some(*number),
        Some(None) | None => None,
    }
}

/// The block of a local, where it was made.
pub fn local_block(rest: &Rest, local: u32) -> Option<u32>
    ensures block { (bs : Blocks) → result ≡ world.local_block (state_of bs rest.now).world local }
    ensures given { IfSome result (λ n. (count : ℕ) → AreLocals count rest.now.locals.items → n < count) }
{
    entry_at(&rest.locals, rest.base as usize + local as usize)
}

/// The object of a local dies.
fn kill_local<M: Memory>(memory: &mut M, ledger: &Ledger, local: u32)
    requires sound { IsSound (M.blocks memory.old) (M.starts memory.old) (M.top memory.old) ledger.now }
    ensures run { state_in (M.blocks memory.new) ledger.now ≡ record (state_in (M.blocks memory.old) ledger.now) { world = world.without_local (world.local_block (state_in (M.blocks memory.old) ledger.now).world local) (state_in (M.blocks memory.old) ledger.now).world } }
    ensures sound { IsSound (M.blocks memory.new) (M.starts memory.new) (M.top memory.new) ledger.now }
    ensures sizes { M.sizes memory.new ≡ M.sizes memory.old }
{
    match local_block(&ledger.rest, local) {
        Some(number) => memory.kill(number),
        None => {}
    }
}

/// The object of a local dies, and its room is given back.
fn end_local<M: Memory>(
    memory: &mut M,
    ledger: &mut Ledger,
    local: u32,
    size: u64,
) -> Result<(), NoMemory>
    requires sound { IsSound (M.blocks memory.old) (M.starts memory.old) (M.top memory.old) ledger.old }
    ensures run { OnOk result (state_in (M.blocks memory.new) ledger.new ≡ record (state_in (M.blocks memory.old) ledger.old) { world = world.end_local local size (state_in (M.blocks memory.old) ledger.old).world }) }
    ensures sound { OnOk result (IsSound (M.blocks memory.new) (M.starts memory.new) (M.top memory.new) ledger.new) }
    ensures keeps { OnOk result (Keeps (M.sizes memory.old) ledger.old (M.sizes memory.new) ledger.new) }
    ensures log { ledger.new.rest.log.items ≡ ledger.old.rest.log.items }
{
    kill_local(memory, ledger, local);
    give_room(&mut ledger.rest, size)?;
    Ok(())
}

/// An object of a block: a local, and its size.
fn object_at(objects: &[(u32, u64)], at: usize) -> (u32, u64)
    requires { at < length objects.now }
    ensures { result ≡ slice_index_or objects.now at result }
{
    objects[at]
}

/// The size of a parameter.
pub(crate) fn size_at(sizes: &[u32], at: usize) -> u32
    requires { at < length sizes.now }
    ensures { result ≡ slice_index_or sizes.now at result }
{
    sizes[at]
}

/// The objects of a block die, the last one first.
pub fn end_locals<M: Memory>(
    memory: &mut M,
    ledger: &mut Ledger,
    objects: &[(u32, u64)],
) -> Result<(), NoMemory>
    requires sound { IsSound (M.blocks memory.old) (M.starts memory.old) (M.top memory.old) ledger.old }
    ensures run { OnOk result (state_in (M.blocks memory.new) ledger.new ≡ ending objects.now (state_in (M.blocks memory.old) ledger.old)) }
    ensures sound { OnOk result (IsSound (M.blocks memory.new) (M.starts memory.new) (M.top memory.new) ledger.new) }
    ensures keeps { OnOk result (Keeps (M.sizes memory.old) ledger.old (M.sizes memory.new) ledger.new) }
    ensures log { ledger.new.rest.log.items ≡ ledger.old.rest.log.items }
{
    let mut left = objects.len();
    'ending: while left > 0 {
        left -= 1;
        let object = object_at(objects, left);
        end_local(memory, ledger, object.0, object.1)?;
    }
    Ok(())
}

/// The parameters of a function, of these sizes, die.
pub fn end_parameters<M: Memory>(
    memory: &mut M,
    ledger: &mut Ledger,
    sizes: &[u32],
) -> Result<(), NoMemory>
    requires sound { IsSound (M.blocks memory.old) (M.starts memory.old) (M.top memory.old) ledger.old }
    ensures run { OnOk result (state_in (M.blocks memory.new) ledger.new ≡ ending (meaning.parameters 0 sizes.now) (state_in (M.blocks memory.old) ledger.old)) }
    ensures sound { OnOk result (IsSound (M.blocks memory.new) (M.starts memory.new) (M.top memory.new) ledger.new) }
    ensures keeps { OnOk result (Keeps (M.sizes memory.old) ledger.old (M.sizes memory.new) ledger.new) }
    ensures log { ledger.new.rest.log.items ≡ ledger.old.rest.log.items }
{
    let mut left = sizes.len();
    if left > u32::MAX as usize {
        return Err(NoMemory);
    }
    'ending: while left > 0 {
        left -= 1;
        let size = size_at(sizes, left);
        end_local(memory, ledger, left as u32, u64::from(size))?;
    }
    Ok(())
}
