//! What stands behind a declarator, and how many entries braces have.

ghost use Rattle.std.specs.Prelude.{◌≡◌, map};
ghost use Rattle.c_tree.specs.View.{view_item, view_maybe_init, inits_of};
ghost use Rattle.c_types.specs.CTypes.{CType};
ghost use Rattle.c_types.specs.Plain as plain;
ghost use Rattle.c_rules.specs.Unit as unit;

use crate::declarators::calls_at_name;
use c_tree::{Init, Item};

/// Whether an initialiser stands there.
pub fn has_init(init: &Option<Init>) -> bool
    ensures { result ≡ unit.has_init (view_maybe_init init.now) }
{
    match init {
        Some(_) => true,
        None => false,
    }
}

/// How many entries stand in braces.
#[tactic(auto, using(crate::proofs::Lists::how_many_is))]
pub fn count_entries(entries: &[Init]) -> usize
    ensures { result ≡ unit.how_many (inits_of entries.now) }
{
    entries.len()
}

/// Whether one of the items declares a function, seen before they are read; the base type is a function's
/// or not.
pub fn any_calls_at_name(items: &[Item], is_base_function: bool) -> bool
    ensures { (base : CType) → plain.is_function (plain.plain base) ≡ is_base_function → result ≡ unit.any_function base (map view_item items.now) }
{
    for item in items {
        if calls_at_name(&item.declarator, is_base_function) {
            return true;
        }
    }
    false
}
