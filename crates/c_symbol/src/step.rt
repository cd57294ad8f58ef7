//! How a step may end without a next state, and the numbers of nodes.

ghost use Rattle.std.specs.Prelude.{◌≡◌, suc, IfOk, IfErr};
ghost use Rattle.c_symbol.specs.declared.step.StepEnd.TheVariants as ends;

use std::alloc::{AllocError, AllocFailed};
use tok_base::NoMemory;

/// Why a step gives no next state.
#[derive(Clone, Copy, Debug)]
pub enum StepEnd {
    /// No unit has this token there.
    Wrong,
    /// There was no memory.
    NoMemory,
}

impl From<AllocError> for StepEnd {
    ghost use Rattle.std.specs.Prelude.{◌≡◌};
    ghost use Rattle.c_symbol.specs.declared.step.StepEnd.TheVariants as ends;

    ghost from_gives = { λ _ e. e ≡ ends.NoMemory };

    fn from(_: AllocError) -> StepEnd {
        StepEnd::NoMemory
    }
}

impl From<NoMemory> for StepEnd {
    ghost use Rattle.std.specs.Prelude.{◌≡◌};
    ghost use Rattle.c_symbol.specs.declared.step.StepEnd.TheVariants as ends;

    ghost from_gives = { λ _ e. e ≡ ends.NoMemory };

    fn from(_: NoMemory) -> StepEnd {
        StepEnd::NoMemory
    }
}

impl<T: Drop> From<AllocFailed<T>> for StepEnd {
    ghost use Rattle.std.specs.Prelude.{◌≡◌};
    ghost use Rattle.c_symbol.specs.declared.step.StepEnd.TheVariants as ends;

    ghost from_gives = { λ _ e. e ≡ ends.NoMemory };

    fn from(_: AllocFailed<T>) -> StepEnd {
        StepEnd::NoMemory
    }
}

/// The number after this one. No text has so many nodes that there is none.
pub fn following(id: u32) -> Result<u32, StepEnd>
    ensures ok { IfOk result (λ m. m ≡ suc id) }
    ensures err { IfErr result (λ e. e ≡ ends.NoMemory) }
{
    match id.checked_add(1) {
        Some(next) => Ok(next),
        None => Err(StepEnd::NoMemory),
    }
}
