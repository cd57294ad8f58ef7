//! How sites are tagged.

ghost use Rattle.std.specs.Prelude.{◌≤◌};

use crate::site::Hooks;

/// Which calls are sites, and how many tokens there are.
#[derive(Clone, Copy)]
pub struct Plan {
    pub hooks: Hooks,
    pub max: u32,
    ghost in_range: { (1 ≤ max) × (max ≤ 65536) },
}
