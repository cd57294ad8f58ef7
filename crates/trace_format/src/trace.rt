//! What a trace says.

ghost use Rattle.std.specs.Prelude.{◌≡◌, ◌<◌, length, slice_index_or};
ghost use Rattle.trace_format.specs.declared.trace.Event as declared_event;

use tok_base::{Items, NoMemory, TraceRule};
use token_modes::Mode;

/// One event.
#[derive(Clone, Copy, Debug, PartialEq, Eq)]
pub enum Event {
    /// The worker asks for `size` bytes in the range of the token, and calls what it gets by this name, which
    /// is the number of allocations before it.
    Alloc {
        worker: u32,
        name: u32,
        token: u32,
        size: u64,
    },
    /// The worker gives back what has this name.
    Free {
        worker: u32,
        name: u32,
    },
}

/// A trace: `count` ranges of `size` bytes each, the mode that its tokens are of, its workers, its events.
#[derive(Debug, Drop)]
pub struct Trace {
    pub count: u32,
    pub size: u32,
    pub mode: Mode,
    pub workers: u32,
    pub events: Items<Event>,
}

impl Trace {
    /// Event `at`, from 0.
    pub fn event(&self, at: usize) -> Event
        requires { at < length self.now.events }
        ensures { (d : declared_event.Event) → result ≡ slice_index_or self.now.events at d }
    {
        self.events.as_slice()[at]
    }
}

/// Why a text gives no trace.
#[derive(Clone, Copy, Debug, PartialEq, Eq)]
pub enum TraceEnd {
    /// The line of this number, from 1, is the first that breaks a rule, and this is the first that it breaks.
    Line(u32, TraceRule),
    /// There was no memory.
    NoMemory,
}

impl From<NoMemory> for TraceEnd {
    ghost use Rattle.trace_format.specs.declared.trace.TraceEnd.TheVariants.{NoMemory};

    ghost from_gives = { λ _ e. e ≡ NoMemory };

    fn from(_: NoMemory) -> TraceEnd {
        TraceEnd::NoMemory
    }
}
