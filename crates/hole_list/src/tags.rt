//! Holes by boundary tags: at the unit where a hole begins, and behind the one where it ends, stands its length
//! (Knuth, The Art of Computer Programming, volume 1, 2.5).

ghost use Rattle.std.specs.Prelude.{◌≡◌, ◌≢◌, ℕ, ◌+◌, ◌-◌, ◌*◌, ◌/◌, ◌%◌, ◌<◌, ◌≤◌, Bool, true, false, length, replicate, slice_index_or, IfOk, IfSome, IfNone};
ghost use Rattle.hole_list.specs.Units.{IsRun, IsLowestRun, Marked, run_count};

use max_tree::MaxTree;
use std::alloc::{AllocError, Global};
use std::marker::Model;
use tok_base::NoMemory;

/// The free storage of a range of 16 to 1,048,576 bytes.
#[derive(Drop)]
pub struct Holes {
    /// The length of the hole that begins at a unit; 0 where none does.
    lens: MaxTree,
    /// The length of the hole that ends before a unit; 0 where none does.
    ends: Vec<u32>,
    /// How many holes there are.
    count: u32,
}

impl Model for Holes {
    ghost use Rattle.std.specs.Prelude.{List, Bool};
    ghost use Rattle.hole_list.specs.Tags.{free_units, Tags};

    ghost Value = { List Bool };

    ghost view = { λ h. free_units 0 h.lens };

    ghost invariant = { λ h. Tags h.lens h.ends.items h.count };
}

impl Holes {
    /// Storage of `size` bytes, all of it free: one hole.
    pub fn new(alloc: Global, size: u32) -> Result<Holes, NoMemory>
        requires multiple { size % 16 ≡ 0 }
        requires least { 16 ≤ size }
        requires most { size ≤ 1048576 }
        ensures { IfOk result (λ holes. holes ≡ replicate (size / 16) true) }
    {
        let units = size / 16;
        let mut lens = MaxTree::new(alloc, units)?;
        let mut ends = zeros(alloc, units as usize + 1)?;
        lens.set(0, units);
        ends[units as usize] = units;
        Ok(Holes {
            lens,
            ends,
            count: 1,
        })
    }

    /// Takes `len` bytes from the lowest place that fits. None exactly where no hole has them.
    pub fn take(&mut self, len: u32) -> Option<u32>
        requires positive { 0 < len }
        requires multiple { len % 16 ≡ 0 }
        ensures place { IfSome result (λ place. (place % 16 ≡ 0) × (place + len ≤ 16 * length self.old)) }
        ensures lowest { IfSome result (λ place. IsLowestRun self.old (len / 16) (place / 16)) }
        ensures taken { IfSome result (λ place. Marked false self.old self.new (place / 16) (len / 16)) }
        ensures none { IfNone result ((at : ℕ) → ¬ IsRun self.old at (len / 16)) }
        ensures unchanged { IfNone result (self.new ≡ self.old) }
    {
        let need = len / 16;
        let Some(at) = self.lens.first_at_least(need) else {
            return None;
        };
        let found = self.lens.get(at);
        let rest = found - need;
        self.lens.set(at + need, rest);
        self.lens.set(at, 0);
        self.ends[(at + found) as usize] = rest;
        self.count = self.count + rest.min(1) - 1;
        Some(at * 16)
    }

    /// Gives back `len` bytes from `place` on, none of which is free.
    pub fn give(&mut self, place: u32, len: u32)
        requires positive { 0 < len }
        requires at_unit { place % 16 ≡ 0 }
        requires multiple { len % 16 ≡ 0 }
        requires inside { place + len ≤ 16 * length self.old }
        requires taken { (k : ℕ) → place / 16 ≤ k → k < place / 16 + len / 16 → slice_index_or self.old k false ≡ false }
        ensures { Marked true self.old self.new (place / 16) (len / 16) }
    {
        let start = place / 16;
        let end = start + len / 16;
        let below = self.ends[start as usize];
        let above = self.lens.get(end);
        let joined = below + len / 16 + above;
        self.lens.set(start - below, joined);
        self.lens.set(end, 0);
        self.ends[start as usize] = 0;
        self.ends[(end + above) as usize] = joined;
        self.count = self.count + 1 - below.min(1) - above.min(1);
    }

    /// How many holes there are when no two of them touch.
    pub fn count(&self) -> u32
        ensures runs { result ≡ run_count self.now }
        ensures bound { result ≤ (length self.now + 1) / 2 }
    {
        self.count
    }
}

/// So many zeros.
fn zeros(alloc: Global, count: usize) -> Result<Vec<u32>, AllocError>
    ensures { IfOk result (λ v. v.items ≡ replicate count 0) }
{
    let mut list = Vec::with_capacity(alloc, count)?;
    for _at in 0..count {
        list.push_reserved(0);
    }
    Ok(list)
}
