//! Holes, and the pieces that were taken from them: a piece is given back only where one was taken.

ghost use Rattle.std.specs.Prelude.{◌≡◌, ◌*◌, ◌/◌, ◌%◌, ◌<◌, ◌≤◌, length, replicate, slice_set, IfOk, IfSome, IfNone};

use hole_list::Holes;
use std::alloc::Global;
use std::marker::Model;
use tok_base::NoMemory;

/// The free storage of a range, with the length in units of the piece that begins at each unit, or 0.
#[derive(Drop)]
pub struct Noted {
    holes: Holes,
    pieces: Vec<u32>,
}

impl Model for Noted {
    ghost use Rattle.std.specs.Prelude.{List, ℕ};
    ghost use Rattle.heap_checks.specs.Held.{Held};

    ghost Value = { List ℕ };

    ghost view = { λ n. n.pieces.items };

    ghost invariant = { λ n. Held n.holes n.pieces.items };
}

impl Noted {
    /// Storage of `size` bytes, of which nothing is taken.
    pub fn new(alloc: Global, size: u32) -> Result<Noted, NoMemory>
        requires multiple { size % 16 ≡ 0 }
        requires least { 16 ≤ size }
        requires most { size ≤ 1048576 }
        ensures { IfOk result (λ noted. noted ≡ replicate (size / 16) 0) }
    {
        let holes = Holes::new(alloc, size)?;
        let pieces = vec![in alloc; 0u32; size as usize / 16]?;
        Ok(Noted { holes, pieces })
    }

    /// Takes a piece of so many units, and notes it.
    pub fn take(&mut self, units: u32) -> Option<u32>
        requires positive { 0 < units }
        requires most { units ≤ 65536 }
        ensures noted { IfSome result (λ place. self.new ≡ slice_set self.old (place / 16) units) }
        ensures unchanged { IfNone result (self.new ≡ self.old) }
    {
        let Some(place) = self.holes.take(16 * units) else {
            return None;
        };
        self.pieces[place as usize / 16] = units;
        Some(place)
    }

    /// Gives back the piece that begins at `place`, if one does.
    pub fn give(&mut self, place: u32)
        ensures { self.new ≡ slice_set self.old (place / 16) 0 }
    {
        let at = place / 16;
        if at as usize >= self.pieces.len() {
            return;
        }
        let units = self.pieces[at as usize];
        self.pieces[at as usize] = 0;
        if units > 0 {
            self.holes.give(16 * at, 16 * units);
        }
    }

    /// How many holes there are.
    pub fn count(&self) -> u32 {
        self.holes.count()
    }
}
