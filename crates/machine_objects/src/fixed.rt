//! Fixed objects are made before the program starts (ISO/IEC 9899:2018, 5.1.2, paragraph 1; 6.7.9).
//!
//! All are placed first, since their initialisers may point to each other, and then get their cells. An
//! initialiser that no object can have, which no well-formed program has, is answered by want of memory.

ghost use Rattle.std.specs.Prelude.{◌≡◌, ◌∷◌, ℕ, ◌<◌, ◌≤◌, List, [], length, replicate, slice_get, slice_set, slice_index, slice_index_or, Some, IsTrue, OnOk, IfOk};
ghost use Rattle.block_memory.specs.Given.{IsGiven, IsGivenCell, HasParts};
ghost use Rattle.c_core.specs.Blocks as blocks;
ghost use Rattle.c_core.specs.Blocks.{Blocks};
ghost use Rattle.c_core.specs.declared.values.Cell.TheVariants as ACell;
ghost use Rattle.c_meaning.specs.Storage as storage;
ghost use Rattle.machine_steps.specs.Steps as steps;
ghost use Rattle.machine_state.specs.State.{state_in, IsSound, Keeps};
ghost use Rattle.machine_objects.specs.Made.{made_of};
ghost use Rattle.machine_objects.specs.Fixed.{placed_kind, placed_size, placed_room, unfilled, with_cells, cells_in, grown, all_filled, all_unfilled, ArePlaced, AreMade};

use crate::placing::place;
use crate::rooms::take_bytes;
use block_memory::{Memory, room};
use c_core::{BlockKind, Cell, End, FixedObject, Pointer};
use machine_state::Ledger;
use tok_base::NoMemory;

/// The kind of an object's block.
fn kind_of(object: &FixedObject) -> BlockKind
    ensures { result ≡ placed_kind object.now }
{
    if object.defined && object.read_only {
        BlockKind::ReadOnly
    } else {
        BlockKind::Fixed
    }
}

/// Its size: an object that is only declared has no bytes.
fn size_of(object: &FixedObject) -> u32
    ensures { result ≡ placed_size object.now }
{
    if object.defined { object.size } else { 0 }
}

/// The room that it takes.
fn room_of(object: &FixedObject) -> u64
    ensures { result ≡ placed_room object.now }
{
    if object.defined {
        room(BlockKind::Auto, u64::from(object.size))
    } else {
        0
    }
}

/// An object takes its room and its place, with undefined cells; or the end.
fn place_object<M: Memory>(
    memory: &mut M,
    ledger: &mut Ledger,
    object: &FixedObject,
) -> Result<Option<End>, NoMemory>
    requires sound { IsSound (M.blocks memory.old) (M.starts memory.old) (M.top memory.old) ledger.old }
    ensures run { IfOk result (λ e. (bs : Blocks) → made_of e (state_in (grown e bs (storage.fixed_block object.now)) ledger.new) ≡ steps.made_fixed (object.now ∷ []) (state_in bs ledger.old)) }
    ensures placed { IfOk result (λ e. M.blocks memory.new ≡ grown e (M.blocks memory.old) (unfilled object.now)) }
    ensures sound { OnOk result (IsSound (M.blocks memory.new) (M.starts memory.new) (M.top memory.new) ledger.new) }
    ensures keeps { OnOk result (Keeps (M.sizes memory.old) ledger.old (M.sizes memory.new) ledger.new) }
    ensures log { ledger.new.rest.log.items ≡ ledger.old.rest.log.items }
{
    if !take_bytes(&mut ledger.rest, room_of(object)) {
        return Ok(Some(End::StackFull));
    }
    place(memory, ledger, kind_of(object), size_of(object))?;
    Ok(None)
}

/// An object with a number.
fn object_at(fixed: &[FixedObject], at: usize) -> &FixedObject
    requires { at < length fixed.now }
    ensures { result.now ≡ slice_index_or fixed.now at result.now }
{
    &fixed[at]
}

/// All objects take their room and their places; or the end.
fn place_all<M: Memory>(
    memory: &mut M,
    ledger: &mut Ledger,
    fixed: &[FixedObject],
) -> Result<Option<End>, NoMemory>
    requires sound { IsSound (M.blocks memory.old) (M.starts memory.old) (M.top memory.old) ledger.old }
    requires none { M.blocks memory.old ≡ [] }
    ensures placed { IfOk result (λ e. ArePlaced e fixed.now (M.blocks memory.new) ledger.old ledger.new) }
    ensures sound { OnOk result (IsSound (M.blocks memory.new) (M.starts memory.new) (M.top memory.new) ledger.new) }
    ensures keeps { OnOk result (Keeps (M.sizes memory.old) ledger.old (M.sizes memory.new) ledger.new) }
    ensures log { ledger.new.rest.log.items ≡ ledger.old.rest.log.items }
{
    for at in 0..fixed.len() {
        match place_object(memory, ledger, object_at(fixed, at))? {
            Some(end) => return Ok(Some(end)),
            None => {}
        }
    }
    Ok(None)
}

/// Whether a pointer is into a block, or to a function.
fn has_parts<M: Memory>(memory: &M, count: u32, p: Pointer) -> bool
    requires { count ≡ length (M.blocks memory.now) }
    ensures { IsTrue result → HasParts (M.sizes memory.now) p }
{
    match p {
        Pointer::Object(number, offset) => {
            if number < count {
                offset <= memory.block(number).size
            } else {
                false
            }
        }
        Pointer::Function(_) => true,
        Pointer::Null => false,
    }
}

/// Whether an object can have a cell.
fn is_given<M: Memory>(memory: &M, count: u32, cell: Cell) -> bool
    requires { count ≡ length (M.blocks memory.now) }
    ensures { IsTrue result → IsGivenCell (M.sizes memory.now) cell }
{
    match cell {
        Cell::Part(p, part) => {
            if part < 8 {
                has_parts(memory, count, p)
            } else {
                false
            }
        }
        Cell::Undefined | Cell::Byte(_) => true,
    }
}

/// Whether an offset is within a live block.
fn is_within<M: Memory>(memory: &M, number: u32, offset: u32) -> bool
    requires { number < length (M.blocks memory.now) }
    ensures live { IsTrue result → IsTrue (blocks.is_live (M.blocks memory.now) number) }
    ensures inside { IsTrue result → offset < slice_index (M.sizes memory.now) number }
{
    let info = memory.block(number);
    if info.live {
        u64::from(offset) < info.size
    } else {
        false
    }
}

/// Writes a cell of an object.
fn set_cell<M: Memory>(
    memory: &mut M,
    ledger: &Ledger,
    number: u32,
    offset: u32,
    cell: Cell,
) -> Result<(), NoMemory>
    requires sound { IsSound (M.blocks memory.old) (M.starts memory.old) (M.top memory.old) ledger.now }
    requires number { number < length (M.blocks memory.old) }
    ensures written { OnOk result (M.blocks memory.new ≡ blocks.initialised (M.blocks memory.old) number offset cell) }
    ensures sound { OnOk result (IsSound (M.blocks memory.new) (M.starts memory.new) (M.top memory.new) ledger.now) }
    ensures sizes { M.sizes memory.new ≡ M.sizes memory.old }
{
    if !is_within(memory, number, offset) {
        return Err(NoMemory);
    }
    if !is_given(memory, ledger.count, cell) {
        return Err(NoMemory);
    }
    memory.init(number, u64::from(offset), cell);
    Ok(())
}

/// All cells of an object become zero.
fn zero_cells<M: Memory>(
    memory: &mut M,
    ledger: &Ledger,
    number: u32,
    size: u32,
) -> Result<(), NoMemory>
    requires sound { IsSound (M.blocks memory.old) (M.starts memory.old) (M.top memory.old) ledger.now }
    requires number { number < length (M.blocks memory.old) }
    requires cells { cells_in (M.blocks memory.old) number ≡ replicate size ACell.Undefined }
    ensures written { OnOk result (M.blocks memory.new ≡ with_cells (M.blocks memory.old) number (replicate size (ACell.Byte 0))) }
    ensures sound { OnOk result (IsSound (M.blocks memory.new) (M.starts memory.new) (M.top memory.new) ledger.now) }
    ensures sizes { M.sizes memory.new ≡ M.sizes memory.old }
{
    for offset in 0..size {
        set_cell(memory, ledger, number, offset, Cell::Byte(0))?;
    }
    Ok(())
}

/// The cells of an initialiser are written.
fn set_cells<M: Memory>(
    memory: &mut M,
    ledger: &Ledger,
    number: u32,
    cells: &[(u32, Cell)],
) -> Result<(), NoMemory>
    requires sound { IsSound (M.blocks memory.old) (M.starts memory.old) (M.top memory.old) ledger.now }
    requires number { number < length (M.blocks memory.old) }
    ensures written { OnOk result (M.blocks memory.new ≡ with_cells (M.blocks memory.old) number (storage.set_cells (cells_in (M.blocks memory.old) number) cells.now)) }
    ensures sound { OnOk result (IsSound (M.blocks memory.new) (M.starts memory.new) (M.top memory.new) ledger.now) }
    ensures sizes { M.sizes memory.new ≡ M.sizes memory.old }
{
    for cell in cells {
        set_cell(memory, ledger, number, cell.0, cell.1)?;
    }
    Ok(())
}

/// An object gets its cells.
fn fill_object<M: Memory>(
    memory: &mut M,
    ledger: &Ledger,
    number: u32,
    object: &FixedObject,
) -> Result<(), NoMemory>
    requires sound { IsSound (M.blocks memory.old) (M.starts memory.old) (M.top memory.old) ledger.now }
    requires there { slice_get (M.blocks memory.old) number ≡ Some (unfilled object.now) }
    ensures filled { OnOk result (M.blocks memory.new ≡ slice_set (M.blocks memory.old) number (storage.fixed_block object.now)) }
    ensures sound { OnOk result (IsSound (M.blocks memory.new) (M.starts memory.new) (M.top memory.new) ledger.now) }
    ensures sizes { M.sizes memory.new ≡ M.sizes memory.old }
{
    if !object.defined {
        return Ok(());
    }
    zero_cells(memory, ledger, number, object.size)?;
    set_cells(memory, ledger, number, object.cells.as_slice())?;
    Ok(())
}

/// All objects get their cells.
fn fill_all<M: Memory>(
    memory: &mut M,
    ledger: &Ledger,
    fixed: &[FixedObject],
) -> Result<(), NoMemory>
    requires sound { IsSound (M.blocks memory.old) (M.starts memory.old) (M.top memory.old) ledger.now }
    requires there { M.blocks memory.old ≡ all_unfilled fixed.now }
    ensures filled { OnOk result (M.blocks memory.new ≡ all_filled fixed.now) }
    ensures sound { OnOk result (IsSound (M.blocks memory.new) (M.starts memory.new) (M.top memory.new) ledger.now) }
    ensures sizes { M.sizes memory.new ≡ M.sizes memory.old }
{
    if fixed.len() > u32::MAX as usize {
        return Err(NoMemory);
    }
    for at in 0..fixed.len() {
        fill_object(memory, ledger, at as u32, object_at(fixed, at))?;
    }
    Ok(())
}

/// All fixed objects are made, in a memory without blocks; or the end.
pub fn make_fixed<M: Memory>(
    memory: &mut M,
    ledger: &mut Ledger,
    fixed: &[FixedObject],
) -> Result<Option<End>, NoMemory>
    requires sound { IsSound (M.blocks memory.old) (M.starts memory.old) (M.top memory.old) ledger.old }
    requires none { M.blocks memory.old ≡ [] }
    ensures run { IfOk result (λ e. AreMade e fixed.now (M.blocks memory.new) ledger.old ledger.new) }
    ensures sound { OnOk result (IsSound (M.blocks memory.new) (M.starts memory.new) (M.top memory.new) ledger.new) }
    ensures keeps { OnOk result (Keeps (M.sizes memory.old) ledger.old (M.sizes memory.new) ledger.new) }
    ensures log { ledger.new.rest.log.items ≡ ledger.old.rest.log.items }
{
    match place_all(memory, ledger, fixed)? {
        Some(end) => Ok(Some(end)),
        None => {
            fill_all(memory, ledger, fixed)?;
            Ok(None)
        }
    }
}
