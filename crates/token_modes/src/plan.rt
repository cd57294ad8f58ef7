// The options that tokens are given by.

ghost use Rattle.std.specs.Prelude.{◌<◌, ◌≤◌};

use crate::mode::Mode;

/// What decides the token of every site.
#[derive(Clone, Copy)]
pub struct Plan {
    /// How a site's token is chosen.
    pub mode: Mode,
    /// How many tokens there are, from 1 to 65536: a token is below it.
    pub max: u32,
    /// The token of a site without a type, in the modes that go by the type.
    pub fallback: u32,
    /// The key of the hash, SipHash-2-4.
    pub key: [u8; 16],
    /// The seed of the random words.
    pub seed: u64,
    pub ghost max_in_range: { (1 ≤ max) × (max ≤ 65536) },
    pub ghost fallback_below: { fallback < max },
}
