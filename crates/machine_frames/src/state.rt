//! The state of a run but for its storage.

ghost use Rattle.std.specs.Prelude.{◌≡◌, ◌≤◌, ℕ, List, slice_get, if◌then◌else◌, IfSome};
ghost use Rattle.block_memory.specs.Given.{IsGiven};
ghost use Rattle.c_core.specs.Blocks.{Blocks};
ghost use Rattle.c_core.specs.declared.values.End.TheVariants as AnEnd;
ghost use Rattle.c_core.specs.declared.values.Pointer.TheVariants as APointer;
ghost use Rattle.c_meaning.specs.World as world;
ghost use Rattle.c_meaning.specs.World.{State};
ghost use Rattle.machine_frames.specs.Held.{AreGivenLocals};
ghost use Rattle.machine_frames.specs.Views.{state_of};
ghost use Rattle.machine_steps.specs.Frames as machine;
ghost use Rattle.machine_steps.specs.Steps as steps;

use c_meaning::LogEntry;

/// Everything but the blocks.
#[derive(Drop)]
pub struct Rest {
    /// The ticks that are left.
    pub ticks: u64,
    /// The blocks of the locals of all calls, the running function's from `base` on.
    pub locals: Vec<Option<u32>>,
    pub base: u32,
    pub input: Vec<u8>,
    /// How many bytes of the input are read.
    pub read: u32,
    pub output: Vec<u8>,
    /// What is left of the region of objects, in bytes.
    pub room: u32,
    /// The requests so far.
    pub log: Vec<LogEntry>,
}

impl Rest {
    /// Pays a tick, where one is left.
    #[inline]
    #[tactic(auto, using(crate::proofs::Pays::paid_on, crate::proofs::Pays::spent_on))]
    pub fn pay(&mut self) -> bool
        ensures run { (bs : Blocks) (go : State → machine.Next) → steps.paying self.old.ticks go (state_of bs self.old) ≡ (if result then go (state_of bs self.new) else machine.Over AnEnd.Spent (state_of bs self.new)) }
        ensures kept { self.new ≡ record self.old { ticks = self.new.ticks } }
        ensures less { self.new.ticks ≤ self.old.ticks }
    {
        if self.ticks == 0 {
            return false;
        }
        self.ticks -= 1;
        true
    }

    /// The block of a local of the function that runs, where it was made.
    pub fn local_block(&self, local: u32) -> Option<u32>
        ensures block { (bs : Blocks) → result ≡ world.local_block (state_of bs self.now).world local }
        ensures given { IfSome result (λ n. (sizes : List ℕ) → AreGivenLocals sizes self.now.locals.items → IsGiven sizes (APointer.Object n 0)) }
    {
        entry_at(&self.locals, self.base as usize + local as usize)
    }
}

/// The block that stands in a list of locals.
fn entry_at(locals: &Vec<Option<u32>>, at: usize) -> Option<u32>
    ensures { result ≡ world.block_in (slice_get locals.now.items at) }
{
    match locals.get(at) {
        Some(Some(number)) => Some(*number),
        Some(None) | None => None,
    }
}
