//! The reader's mode, held.

ghost use Rattle.std.specs.Prelude.{◌≡◌, nat_le};
ghost use Rattle.c_reader.specs.MarkedInside as inside;
ghost use Rattle.c_reader.specs.Reader as reader;
ghost use Rattle.c_stack.specs.Views.{view_mode};
ghost use Rattle.c_state.specs.Held.{view_end, view_held};

use crate::height::is_low;
use c_held::Externals;
use c_stack::inside::Mode;

/// Where the reader is.
pub struct HeldMode {
    mode: Mode,
}

impl Drop for HeldMode {
    fn drop(self) {
        let HeldMode { mode: _ } = self;
    }
}

impl HeldMode {
    /// Of this mode.
    pub fn new(mode: Mode) -> HeldMode
        ensures { view_held result ≡ view_mode mode }
    {
        HeldMode { mode }
    }

    /// The mode.
    pub fn open(self) -> Mode
        ensures { view_mode result ≡ view_held self }
    {
        let HeldMode { mode } = self;
        mode
    }

    /// Whether a flat unit may begin so.
    pub fn is_low(&self) -> bool
        ensures { result ≡ nat_le (inside.height (view_held self.now)) 200 }
    {
        is_low(&self.mode)
    }

    /// The external declarations, where a unit may end there.
    pub fn finished(self) -> Option<Externals>
        ensures { reader.unit_at (view_held self) ≡ view_end result }
    {
        let HeldMode { mode } = self;
        match mode {
            Mode::WantExternal(_, done) => Some(done),
            _ => None,
        }
    }
}
