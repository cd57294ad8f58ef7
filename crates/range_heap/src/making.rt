//! Lists of calls on all ranges.

ghost use Rattle.std.specs.Prelude.{◌≡◌, None, IfOk, OnOk, OnErr};
ghost use Rattle.range_heap.specs.Ranges.{AllLegal, StayApart};
ghost use Rattle.range_heap.specs.Steps.{Made, MadeAll, MadeSome, histories};
ghost use Rattle.range_heap.specs.declared.call.RangeCall.TheVariants.{GiveBack};

use crate::call::RangeCall;
use crate::ranges::Ranges;
use tok_base::NoMemory;

impl Ranges {
    /// Makes one call, in room that it makes. A place where no live block begins is passed over.
    pub fn make(&mut self, call: &RangeCall) -> Result<Option<u64>, NoMemory>
        ensures size { self.new.size ≡ self.old.size }
        ensures made { IfOk result (λ answer. Made call.now answer (histories self.old) (histories self.new)) }
        ensures kept { OnErr result (histories self.new ≡ histories self.old) }
    {
        match *call {
            RangeCall::Ask { who, token, size } => {
                self.reserve(token, 1)?;
                Ok(self.grant(who, token, size))
            }
            RangeCall::GiveBack { who, place } => {
                self.give_back(who, place)?;
                Ok(None)
            }
        }
    }

    /// Makes a list of calls, one after another. Where memory runs out, the first of them were made.
    pub fn make_all(&mut self, calls: &[RangeCall]) -> Result<(), NoMemory>
        ensures size { self.new.size ≡ self.old.size }
        ensures made { OnOk result (MadeAll calls.now (histories self.old) (histories self.new)) }
        ensures begun { OnErr result (MadeSome calls.now (histories self.old) (histories self.new)) }
        ensures legal { AllLegal self.new.size (histories self.new) }
        ensures apart { StayApart (histories self.new) }
    {
        for call in calls {
            if let Err(failed) = self.make(call) {
                self.stands();
                return Err(failed);
            }
        }
        self.stands();
        Ok(())
    }

    /// Releases the block at `place`, if one is live there.
    fn give_back(&mut self, who: u32, place: u64) -> Result<(), NoMemory>
        ensures size { self.new.size ≡ self.old.size }
        ensures made { OnOk result (Made (GiveBack who place) None (histories self.old) (histories self.new)) }
        ensures kept { OnErr result (histories self.new ≡ histories self.old) }
    {
        self.stands();
        let Some(token) = self.range_of(place) else {
            return Ok(());
        };
        if self.heap(token).live_at(place).is_none() {
            return Ok(());
        }
        self.reserve(u64::from(token), 1)?;
        self.release(who, place);
        Ok(())
    }
}
