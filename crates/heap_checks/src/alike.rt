//! The two forms of holes, side by side.

use crate::listed::Listed;
use crate::noted::Noted;
use std::alloc::Global;
use tok_base::NoMemory;

/// Makes a call on both, and says whether they answer the same and have as many holes.
fn agree(fast: &mut Noted, slow: &mut Listed, pick: u64) -> bool {
    if pick % 2 == 0 {
        let place = 16 * (pick / 2 % 64) as u32;
        fast.give(place);
        slow.give(place);
        return fast.count() == slow.count();
    }
    let units = 1 + (pick / 2 % 6) as u32;
    let place = fast.take(units);
    slow.take(units) == place && fast.count() == slow.count()
}

/// Makes 400 calls on both, over 64 units, and says in how many they agree.
pub fn alike(alloc: Global) -> Result<u64, NoMemory> {
    let mut fast = Noted::new(alloc, 1024)?;
    let mut slow = Listed::new(alloc, 1024)?;
    let mut state: u64 = 1;
    let mut agreed = 0u64;
    for _turn in 0..400u32 {
        state = state
            .wrapping_mul(6364136223846793005)
            .wrapping_add(1442695040888963407);
        if agree(&mut fast, &mut slow, state >> 33) {
            agreed = agreed.saturating_add(1);
        }
    }
    Ok(agreed)
}
