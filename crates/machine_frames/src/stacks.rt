//! The frames and the values that wait.

ghost use Rattle.std.specs.Prelude.{◌≡◌, ◌∷◌, [], OnOk, MatchOption, IfNone};
ghost use Rattle.machine_frames.specs.Views.{frame_of, frames_of, values_of};
ghost use Rattle.machine_steps.specs.Frames.{below};

use crate::frames::Frame;
use c_core::Value;
use std::alloc::{AllocError, Global};
use tok_base::NoMemory;

/// The frames, and the values of left operands and arguments that are known.
#[derive(Drop)]
pub struct Stacks<'a> {
    pub frames: Vec<Frame<'a>>,
    pub values: Vec<Value>,
}

impl<'a> Stacks<'a> {
    /// Empty stacks.
    pub fn new(alloc: Global) -> Stacks<'a>
        ensures frames { frames_of result.frames.items ≡ [] }
        ensures values { values_of result.values.items ≡ [] }
    {
        Stacks {
            frames: Vec::new(alloc),
            values: Vec::new(alloc),
        }
    }

    /// One more frame.
    #[inline]
    #[tactic(auto, using(crate::proofs::Pushes::pushed))]
    pub fn wait(&mut self, frame: Frame<'a>) -> Result<(), NoMemory>
        ensures frames { OnOk result (frames_of self.new.frames.items ≡ frame_of frame.entry ∷ frames_of self.old.frames.items) }
        ensures values { self.new.values.items ≡ self.old.values.items }
    {
        self.frames.push(frame).map_err(AllocError::from)?;
        Ok(())
    }

    /// Takes the topmost frame off.
    #[inline]
    #[tactic(auto, using(crate::proofs::Pushes::pushed))]
    pub fn next(&mut self) -> Option<Frame<'a>>
        ensures frames { MatchOption result (frames_of self.old.frames.items ≡ []) (λ f. frames_of self.old.frames.items ≡ frame_of f ∷ frames_of self.new.frames.items) }
        ensures values { self.new.values.items ≡ self.old.values.items }
    {
        self.frames.pop()
    }

    /// One more value.
    #[inline]
    #[tactic(auto, using(crate::proofs::Pushes::pushed))]
    pub fn keep(&mut self, value: Value) -> Result<(), NoMemory>
        ensures values { OnOk result (values_of self.new.values.items ≡ value ∷ values_of self.old.values.items) }
        ensures frames { self.new.frames.items ≡ self.old.frames.items }
    {
        self.values.push(value).map_err(AllocError::from)?;
        Ok(())
    }

    /// Takes the topmost value off.
    #[inline]
    #[tactic(auto, using(crate::proofs::Pushes::pushed))]
    pub fn take(&mut self) -> Option<Value>
        ensures values { MatchOption result (values_of self.old.values.items ≡ []) (λ v. values_of self.old.values.items ≡ v ∷ values_of self.new.values.items) }
        ensures none { IfNone result (self.new.values.items ≡ self.old.values.items) }
        ensures frames { self.new.frames.items ≡ self.old.frames.items }
    {
        self.values.pop()
    }

    /// The value that stands below the topmost ones.
    #[inline]
    pub fn below(&self, count: u32) -> Option<&Value>
        ensures { MatchOption result (below count (values_of self.now.values.items) ≡ []) (λ v. below count (values_of self.now.values.items) ≡ v.now ∷ below 1 (below count (values_of self.now.values.items))) }
    {
        let len = self.values.len();
        if len <= count as usize {
            return None;
        }
        self.values.get(len - 1 - count as usize)
    }
}
