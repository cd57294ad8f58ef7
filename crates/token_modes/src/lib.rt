//! The modes of allocation tokens (Clang's manual, "Allocation Tokens"), and the arithmetic that gives a
//! site its token.
//!
//! The main call is `token_of`: under a `Plan` the token of a site, from its number, its random word, and
//! the spelling of its type and whether that contains a pointer. It gives `token` of specs/Tokens.antt.
//! In split mode types with a pointer have tokens of a half of their own. Nothing here takes memory.
#![tactic(auto)]

ghost use Rattle.std.specs.Prelude.{◌≡◌, ◌<◌, ◌≤◌, IfSome};
ghost use Rattle.std.specs.Option.{option_map};
ghost use Rattle.token_modes.specs.Halves.{InItsHalf, TypedSitesKeepTheirHalf};
ghost use Rattle.token_modes.specs.Tokens.{half, split_token, token};

use sip24::sip24;

mod mode;
mod plan;

pub use mode::Mode;
pub use plan::Plan;

/// The token of site `k`, whose random word is `word`; `typed` is the spelling of the site's type, if it
/// has one, and whether that type contains a pointer. In `Increment` and `Random` the type doesn't count,
/// in the other modes the number and the word don't.
#[tactic(auto, unfolding(crate::specs::Tokens::token))]
pub fn token_of(plan: &Plan, k: u64, word: u64, typed: Option<(&[u8], bool)>) -> u32
    ensures value { result ≡ token plan.now k word (option_map (λ t. (t.0.now, t.1)) typed.entry) }
    ensures below { result < plan.now.max }
    ensures halves { plan.now.mode ≡ Mode.Split → 2 ≤ plan.now.max → IfSome typed.entry (λ t. InItsHalf plan.now.max t.1 result) }
{
    let max = u64::from(plan.max);
    match (plan.mode, typed) {
        (Mode::Increment, _) => (k % max) as u32,
        (Mode::Random, _) => (word % max) as u32,
        (_, None) => plan.fallback,
        (Mode::TypeHash, Some((spelling, _))) => (sip24(plan.key, spelling) % max) as u32,
        (Mode::Split, Some((spelling, pointer))) => split(
            plan.max,
            sip24(plan.key, spelling),
            pointer,
        ),
    }
}

// The token of a type with this hash value in split mode.
fn split(max: u32, hash: u64, pointer: bool) -> u32
    requires { 1 ≤ max }
    ensures { result ≡ split_token max hash pointer }
{
    if max == 1 {
        return 0;
    }
    let half = max / 2;
    let place = (hash % u64::from(half)) as u32;
    if pointer { place + half } else { place }
}

/// In split mode, with two tokens or more, a site whose type contains a pointer has a token of the second
/// half, and a site whose type contains none has one of the first.
#[tactic(auto, unfolding(crate::specs::Tokens::token))]
pub fn typed_sites_keep_their_half()
    ensures { TypedSitesKeepTheirHalf }
{}
