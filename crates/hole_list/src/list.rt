//! The holes of a range as a list sorted by place: slow, and short to read. It is here to be compared with `Holes`.

ghost use Rattle.std.specs.Prelude.{◌≡◌, ◌≢◌, ℕ, ◌+◌, ◌-◌, ◌*◌, ◌/◌, ◌%◌, ◌<◌, ◌≤◌, Bool, true, false, length, replicate, slice_index_or, IfOk, IfSome, IfNone};
ghost use Rattle.hole_list.specs.Units.{IsRun, IsLowestRun, Marked, run_count};
ghost use Rattle.hole_list.specs.declared.gap.Hole.{Hole};

use crate::gap::Hole;
use std::alloc::Global;
use std::marker::Model;
use tok_base::NoMemory;

/// The free storage of a range of 16 to 1,048,576 bytes.
#[derive(Drop)]
pub struct HoleList {
    units: u32,
    list: Vec<Hole>,
}

impl Model for HoleList {
    ghost use Rattle.std.specs.Prelude.{◌≡◌, ◌*◌, ◌≤◌, List, Bool, vec_capacity};
    ghost use Rattle.hole_list.specs.Shape.{units_from, Apart};

    ghost Value = { List Bool };

    ghost view = { λ h. units_from 0 h.units h.list.items };

    ghost invariant = { λ h. (h.units ≤ 65536) × (h.units ≤ 2 * vec_capacity h.list) × Apart 0 h.units h.list.items };
}

impl HoleList {
    /// Storage of `size` bytes, all of it free: one hole.
    pub fn new(alloc: Global, size: u32) -> Result<HoleList, NoMemory>
        requires multiple { size % 16 ≡ 0 }
        requires least { 16 ≤ size }
        requires most { size ≤ 1048576 }
        ensures { IfOk result (λ holes. holes ≡ replicate (size / 16) true) }
    {
        let units = size / 16;
        let mut list = Vec::with_capacity(alloc, (units as usize + 1) / 2)?;
        list.push_reserved(Hole {
            start: 0,
            len: units,
        });
        Ok(HoleList { units, list })
    }

    /// Takes `len` bytes from the lowest place that fits. None exactly where no hole has them.
    pub fn take(&mut self, len: u32) -> Option<u32>
        requires positive { 0 < len }
        requires multiple { len % 16 ≡ 0 }
        ensures place { IfSome result (λ place. (place % 16 ≡ 0) × (place + len ≤ 16 * length self.old)) }
        ensures lowest { IfSome result (λ place. IsLowestRun self.old (len / 16) (place / 16)) }
        ensures taken { IfSome result (λ place. Marked false self.old self.new (place / 16) (len / 16)) }
        ensures none { IfNone result ((at : ℕ) → ¬ IsRun self.old at (len / 16)) }
        ensures unchanged { IfNone result (self.new ≡ self.old) }
    {
        let need = len / 16;
        let Some(at) = first_fit(self.list.as_slice(), need) else {
            return None;
        };
        let hole = self.list[at];
        if hole.len == need {
            self.list.remove(at);
        } else {
            self.list[at] = Hole {
                start: hole.start + need,
                len: hole.len - need,
            };
        }
        Some(hole.start * 16)
    }

    /// Gives back `len` bytes from `place` on, none of which is free.
    pub fn give(&mut self, place: u32, len: u32)
        requires positive { 0 < len }
        requires at_unit { place % 16 ≡ 0 }
        requires multiple { len % 16 ≡ 0 }
        requires inside { place + len ≤ 16 * length self.old }
        requires taken { (k : ℕ) → place / 16 ≤ k → k < place / 16 + len / 16 → slice_index_or self.old k false ≡ false }
        ensures { Marked true self.old self.new (place / 16) (len / 16) }
    {
        let start = place / 16;
        let more = len / 16;
        let end = start + more;
        let at = first_reaching(self.list.as_slice(), start);
        if ends_at(self.list.as_slice(), at, start) {
            let below = self.list[at];
            if begins_at(self.list.as_slice(), at + 1, end) {
                let above = self.list.remove(at + 1);
                self.list[at] = Hole {
                    start: below.start,
                    len: below.len + more + above.len,
                };
            } else {
                self.list[at] = Hole {
                    start: below.start,
                    len: below.len + more,
                };
            }
        } else if begins_at(self.list.as_slice(), at, end) {
            let above = self.list[at];
            self.list[at] = Hole {
                start,
                len: more + above.len,
            };
        } else {
            let _ = self.list.insert(at, Hole { start, len: more });
        }
    }

    /// How many holes there are when no two of them touch.
    pub fn count(&self) -> u32
        ensures runs { result ≡ run_count self.now }
        ensures bound { result ≤ (length self.now + 1) / 2 }
    {
        self.list.len() as u32
    }
}

/// The lowest hole with at least `need` units.
fn first_fit(holes: &[Hole], need: u32) -> Option<usize>
    ensures fits { IfSome result (λ i. (i < length holes.now) × ((d : Hole) → need ≤ (slice_index_or holes.now i d).len)) }
    ensures lowest { IfSome result (λ i. (k : ℕ) (d : Hole) → k < i → (slice_index_or holes.now k d).len < need) }
    ensures none { IfNone result ((k : ℕ) (d : Hole) → k < length holes.now → (slice_index_or holes.now k d).len < need) }
{
    for (i, hole) in holes.iter().enumerate() {
        if need <= hole.len {
            return Some(i);
        }
    }
    None
}

/// Whether there is a hole number `at` and it begins at `place`.
fn begins_at(holes: &[Hole], at: usize, place: u32) -> bool
    ensures yes { result ≡ true → (at < length holes.now) × ((d : Hole) → (slice_index_or holes.now at d).start ≡ place) }
    ensures no { result ≡ false → at < length holes.now → (d : Hole) → (slice_index_or holes.now at d).start ≢ place }
{
    match holes.get(at) {
        Some(hole) => hole.start == place,
        None => false,
    }
}

/// Whether there is a hole number `at` and it ends at `place`.
fn ends_at(holes: &[Hole], at: usize, place: u32) -> bool
    requires { (d : Hole) → at < length holes.now → (slice_index_or holes.now at d).start + (slice_index_or holes.now at d).len ≤ 65536 }
    ensures yes { result ≡ true → (at < length holes.now) × ((d : Hole) → (slice_index_or holes.now at d).start + (slice_index_or holes.now at d).len ≡ place) }
    ensures no { result ≡ false → at < length holes.now → (d : Hole) → (slice_index_or holes.now at d).start + (slice_index_or holes.now at d).len ≢ place }
{
    match holes.get(at) {
        Some(hole) => hole.start + hole.len == place,
        None => false,
    }
}

/// The first hole that ends at `start` or above, or the number of holes.
fn first_reaching(holes: &[Hole], start: u32) -> usize
    requires { (k : ℕ) (d : Hole) → k < length holes.now → (slice_index_or holes.now k d).start + (slice_index_or holes.now k d).len ≤ 65536 }
    ensures within { result ≤ length holes.now }
    ensures reaches { result < length holes.now → (d : Hole) → start ≤ (slice_index_or holes.now result d).start + (slice_index_or holes.now result d).len }
    ensures before { (k : ℕ) (d : Hole) → k < result → (slice_index_or holes.now k d).start + (slice_index_or holes.now k d).len < start }
{
    for (i, hole) in holes.iter().enumerate() {
        if start <= hole.start + hole.len {
            return i;
        }
    }
    holes.len()
}
