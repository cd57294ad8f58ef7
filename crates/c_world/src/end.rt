//! How the check of a unit ends.

ghost use Rattle.std.specs.Prelude.{◌≡◌, OnOk, IfErr, true, false};
ghost use Rattle.c_world.specs.declared.end.CheckEnd.TheVariants.{Rule};

use c_tree::At;
use c_types::TypeEnd;
use std::alloc::AllocError;
use tok_base::NoMemory;

/// Why a unit isn't accepted.
#[derive(Clone, Copy, Debug, PartialEq, Eq)]
pub enum CheckEnd {
    /// The number of the first rule that is broken, and the node that breaks it.
    Rule(u32, At),
    NoMemory,
}

impl From<NoMemory> for CheckEnd {
    ghost use Rattle.std.specs.Prelude.{◌≡◌};
    ghost use Rattle.c_world.specs.declared.end.CheckEnd.TheVariants as end;

    ghost from_gives = { λ _ result. result ≡ end.NoMemory };

    fn from(_: NoMemory) -> CheckEnd {
        CheckEnd::NoMemory
    }
}

impl From<AllocError> for CheckEnd {
    ghost use Rattle.std.specs.Prelude.{◌≡◌};
    ghost use Rattle.c_world.specs.declared.end.CheckEnd.TheVariants as end;

    ghost from_gives = { λ _ result. result ≡ end.NoMemory };

    fn from(_: AllocError) -> CheckEnd {
        CheckEnd::NoMemory
    }
}

/// A rule is tried at a node.
pub fn keep(rule: u32, at: At, kept: bool) -> Result<(), CheckEnd>
    ensures ok { OnOk result (kept ≡ true) }
    ensures err { IfErr result (λ e. (e ≡ Rule rule at) × (kept ≡ false)) }
{
    if kept {
        Ok(())
    } else {
        Err(CheckEnd::Rule(rule, at))
    }
}
