//! Where an object stands.

ghost use Rattle.std.specs.Prelude.{◌≡◌, ◌∷◌, ℕ, ◌+◌, ◌<◌, ◌≤◌, ◌^◌, false, List, length, IsTrue, IfOk, OnOk, OnErr};
ghost use Rattle.block_memory.specs.Rooms.{room as room_of};
ghost use Rattle.c_meaning.specs.declared.log.LogEntry.{LogEntry};
ghost use Rattle.c_meaning.specs.World.{is_heap};
ghost use Rattle.range_heap.specs.Seen.{AllHeaps};
ghost use Rattle.machine_state.specs.Stands.{Stands, stands_of, AreLow, end_of as end_at};
ghost use Rattle.machine_state.specs.State.{IsSound, spots_of};
ghost use Rattle.machine_objects.specs.Made.{IsTopDead, IsPlaced};

use block_memory::{Memory, room};
use c_core::BlockKind;
use machine_state::{Ledger, Spot};
use std::alloc::AllocError;
use tok_base::NoMemory;

/// Where the ranges begin.
const RANGES: u32 = 16777216;

/// Whether the topmost object of the region is dead.
fn is_top_dead<M: Memory>(memory: &M, region: &Vec<Spot>) -> bool
    requires { AreLow (length (M.blocks memory.now)) (spots_of region.now.items) }
    ensures { IsTrue result → IsTopDead (stands_of (M.blocks memory.now) (M.starts memory.now)) (spots_of region.now.items) }
{
    let count = region.len();
    if count == 0 {
        return false;
    }
    let spot = region[count - 1];
    !memory.block(spot.number).live
}

/// Takes dead objects off the end of the region.
fn drop_dead<M: Memory>(memory: &M, region: &mut Vec<Spot>)
    requires { AreLow (length (M.blocks memory.now)) (spots_of region.old.items) }
    ensures low { AreLow (length (M.blocks memory.now)) (spots_of region.new.items) }
    ensures stands { (top : ℕ) (all : AllHeaps) (log : List LogEntry) → Stands top all (spots_of region.old.items) log (stands_of (M.blocks memory.now) (M.starts memory.now)) → Stands top all (spots_of region.new.items) log (stands_of (M.blocks memory.now) (M.starts memory.now)) }
{
    'dead: while is_top_dead(memory, region) {
        region.pop();
    }
}

/// The end of the topmost object of the region.
fn end_of(region: &Vec<Spot>) -> u32
    ensures { result ≡ end_at (spots_of region.now.items) }
{
    let count = region.len();
    if count == 0 {
        return 0;
    }
    region[count - 1].end
}

/// One more object of the region.
#[tactic(auto, using(crate::proofs::Region::spots_more))]
fn note(region: &mut Vec<Spot>, number: u32, end: u32) -> Result<(), NoMemory>
    ensures { OnOk result (spots_of region.new.items ≡ record { number = number; end = end } ∷ spots_of region.old.items) }
{
    region.push(Spot { number, end }).map_err(AllocError::from)?;
    Ok(())
}

/// Places an object that takes addresses.
fn place_behind<M: Memory>(
    memory: &mut M,
    ledger: &mut Ledger,
    kind: BlockKind,
    size: u32,
    taken: u32,
) -> Result<u32, NoMemory>
    requires sound { IsSound (M.blocks memory.old) (M.starts memory.old) (M.top memory.old) ledger.old }
    requires kind { is_heap kind ≡ false }
    requires taken { taken ≡ room_of kind size }
    ensures number { IfOk result (λ n. n ≡ length (M.blocks memory.old)) }
    ensures placed { OnOk result (IsPlaced kind size (M.blocks memory.old) (M.sizes memory.old) ledger.old (M.blocks memory.new) (M.sizes memory.new) (M.starts memory.new) (M.top memory.new) ledger.new) }
    ensures log { ledger.new.rest.log.items ≡ ledger.old.rest.log.items }
{
    drop_dead(memory, &mut ledger.region);
    let at = end_of(&ledger.region);
    if at > RANGES || taken > RANGES - at || ledger.count == u32::MAX {
        return Err(NoMemory);
    }
    note(&mut ledger.region, ledger.count, at + taken)?;
    let number = memory.place(kind, u64::from(size), u64::from(at))?;
    ledger.count += 1;
    Ok(number)
}

/// Places an object that takes none.
fn place_nothing<M: Memory>(
    memory: &mut M,
    ledger: &mut Ledger,
    kind: BlockKind,
    size: u32,
) -> Result<u32, NoMemory>
    requires sound { IsSound (M.blocks memory.old) (M.starts memory.old) (M.top memory.old) ledger.old }
    requires kind { is_heap kind ≡ false }
    requires taken { room_of kind size ≡ 0 }
    ensures number { IfOk result (λ n. n ≡ length (M.blocks memory.old)) }
    ensures placed { OnOk result (IsPlaced kind size (M.blocks memory.old) (M.sizes memory.old) ledger.old (M.blocks memory.new) (M.sizes memory.new) (M.starts memory.new) (M.top memory.new) ledger.new) }
    ensures log { ledger.new.rest.log.items ≡ ledger.old.rest.log.items }
{
    if ledger.count == u32::MAX {
        return Err(NoMemory);
    }
    let number = memory.place(kind, u64::from(size), 0)?;
    ledger.count += 1;
    Ok(number)
}

/// Places an object of the region; gives its number.
pub fn place<M: Memory>(
    memory: &mut M,
    ledger: &mut Ledger,
    kind: BlockKind,
    size: u32,
) -> Result<u32, NoMemory>
    requires sound { IsSound (M.blocks memory.old) (M.starts memory.old) (M.top memory.old) ledger.old }
    requires kind { is_heap kind ≡ false }
    requires size { size ≤ 16777216 }
    ensures number { IfOk result (λ n. n ≡ length (M.blocks memory.old)) }
    ensures placed { OnOk result (IsPlaced kind size (M.blocks memory.old) (M.sizes memory.old) ledger.old (M.blocks memory.new) (M.sizes memory.new) (M.starts memory.new) (M.top memory.new) ledger.new) }
    ensures log { ledger.new.rest.log.items ≡ ledger.old.rest.log.items }
{
    let taken = room(kind, u64::from(size)) as u32;
    if taken == 0 {
        return place_nothing(memory, ledger, kind, size);
    }
    place_behind(memory, ledger, kind, size, taken)
}
