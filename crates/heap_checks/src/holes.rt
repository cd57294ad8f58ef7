//! Calls on the holes of one range.
//!
//! `new SIZE` makes new ones, `take BYTES` answers the place of a piece, `give PLACE` gives it back, and `count`
//! says how many holes there are. `fill UNITS` takes pieces until none is left and says how many they were, and
//! `every STEP FROM` gives the piece back at every so many-th place from one on, and says how many places that are.

use crate::noted::Noted;
use crate::numbers::Numbers;
use std::alloc::Global;
use tok_base::NoMemory;

/// The most units of a range.
const MOST: u32 = 65536;

fn new_holes(alloc: Global, holes: &mut Noted, size: u64) -> Result<Option<u64>, NoMemory> {
    if size % 16 != 0 || size < 16 || size > 1048576 {
        return Ok(None);
    }
    *holes = Noted::new(alloc, size as u32)?;
    Ok(Some(size))
}

fn take(holes: &mut Noted, bytes: u64) -> Option<u64> {
    if bytes < 16 || bytes > 1048576 {
        return None;
    }
    holes.take(bytes as u32 / 16).map(u64::from)
}

fn fill(holes: &mut Noted, units: u64) -> u64 {
    let mut taken = 0u64;
    if units < 1 || units > 65536 {
        return taken;
    }
    for _piece in 0..MOST {
        if holes.take(units as u32).is_none() {
            break;
        }
        taken = taken.saturating_add(1);
    }
    taken
}

fn give_every(holes: &mut Noted, step: u64, from: u64) -> u64 {
    let mut given = 0u64;
    for unit in 0..MOST {
        if step > 0 && u64::from(unit) % step == from {
            holes.give(16 * unit);
            given = given.saturating_add(1);
        }
    }
    given
}

/// The answer to a call on the holes.
pub fn holes_answer(
    alloc: Global,
    holes: &mut Noted,
    command: &str,
    numbers: &Numbers,
) -> Result<Option<u64>, NoMemory> {
    match command {
        "new" => new_holes(alloc, holes, numbers.first),
        "take" => Ok(take(holes, numbers.first)),
        "give" => {
            holes.give(numbers.first.min(1048576) as u32);
            Ok(None)
        }
        "count" => Ok(Some(u64::from(holes.count()))),
        "fill" => Ok(Some(fill(holes, numbers.first))),
        "every" => Ok(Some(give_every(holes, numbers.first, numbers.second))),
        _ => Ok(None),
    }
}
