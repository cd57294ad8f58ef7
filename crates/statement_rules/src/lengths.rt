//! An array without a length takes the one that its initialiser gives (6.7.9, paragraph 22).

ghost use Rattle.std.specs.Prelude.{◌≡◌, ◌<◌, List, length, true, false, IfOk};
ghost use Rattle.c_tree.specs.View.{view_maybe_init};
ghost use Rattle.c_types.specs.CTypes as c;
ghost use Rattle.c_types.specs.Plain as plain;
ghost use Rattle.c_types.specs.Table.{type_at};
ghost use Rattle.c_rules.specs.Declarators as rules;
ghost use Rattle.c_rules.specs.Types as types;
ghost use Rattle.c_rules.specs.Unit as unit;
ghost use Rattle.c_world.specs.Extends.{Extends};
ghost use Rattle.c_world.specs.Seen.{seen};
ghost use Rattle.declarator_rules.specs.Built.{BuiltBelow, IsBuilt};
ghost use Rattle.declarator_rules.specs.Members.{is_unsized};

use body_rules::length_given;
use c_tree::Init;
use c_types::{Term, TypeId};
use c_world::World;
use declarator_rules::{Built, Oversized, sized};
use expression_rules::{element, is_char};
use std::alloc::Global;
use tok_base::NoMemory;

/// Whether a type is an array of characters, or another type of them.
fn is_of_chars(world: &World, ty: TypeId) -> bool
    requires { ty.0 < length world.now.table.terms }
    ensures { result ≡ types.is_char (plain.plain (types.element (plain.plain (type_at world.now.table.terms ty.0)))) }
{
    is_char(world, world.plain(element(world, world.plain(ty))))
}

/// Whether a type is an array without a length, also behind typedef names and qualifiers.
#[tactic(auto, using(crate::proofs::Sizing::flexible_plain))]
fn is_flexible(world: &World, id: TypeId) -> bool
    requires { id.0 < length world.now.table.terms }
    ensures { result ≡ c.is_flexible (type_at world.now.table.terms id.0) }
{
    is_unsized(world, world.plain(id))
}

fn is_unsized(world: &World, id: TypeId) -> bool
    requires { id.0 < length world.now.table.terms }
    ensures { result ≡ is_unsized (type_at world.now.table.terms id.0) }
{
    match world.term(id) {
        Term::Flexible(_) => true,
        _ => false,
    }
}

/// The length that an initialiser gives a type, if it is an array without one.
fn made_length(
    world: &World,
    alloc: Global,
    ty: TypeId,
    init: &Option<Init>,
) -> Result<Option<u64>, NoMemory>
    requires { ty.0 < length world.now.table.terms }
    ensures { IfOk result (λ n. n ≡ unit.given_length (type_at world.now.table.terms ty.0) (view_maybe_init init.now)) }
{
    if is_flexible(world, ty) {
        length_given(alloc, is_of_chars(world, ty), init)
    } else {
        Ok(None)
    }
}

/// The same for a type that breaks rule 5: its elements are no characters.
fn oversized_length(
    alloc: Global,
    oversized: Oversized,
    init: &Option<Init>,
) -> Result<Option<u64>, NoMemory>
    ensures { IfOk result (λ n. (t : c.CType) → c.is_flexible t ≡ oversized.is_flexible → (c.is_flexible t ≡ true → types.is_char (plain.plain (types.element (plain.plain t))) ≡ false) → n ≡ unit.given_length t (view_maybe_init init.now)) }
{
    if oversized.is_flexible {
        length_given(alloc, false, init)
    } else {
        Ok(None)
    }
}

/// What a declarator makes, with the length that the initialiser behind it gives.
pub fn size_item(
    world: &mut World,
    alloc: Global,
    built: Built,
    init: &Option<Init>,
) -> Result<Built, NoMemory>
    requires { BuiltBelow (length world.old.table.terms) built }
    ensures seen { seen world.new ≡ seen world.old }
    ensures extends { Extends world.old.table world.new.table }
    ensures is { IfOk result (λ r. (base : c.CType) (ls : List rules.Layer) → IsBuilt (seen world.old) world.old.table.terms built (rules.built (seen world.old) base ls) → IsBuilt (seen world.new) world.new.table.terms r (unit.sized (seen world.old) (unit.given_length (rules.built (seen world.old) base ls).type (view_maybe_init init.now)) (rules.built (seen world.old) base ls))) }
    ensures valid { IfOk result (λ r. BuiltBelow (length world.new.table.terms) r) }
{
    match built {
        Built::Made(made) => {
            let count = made_length(world, alloc, made.ty, init)?;
            sized(world, alloc, count, built)
        }
        Built::Incomplete => Ok(Built::Incomplete),
        Built::Oversized(oversized) => {
            let count = oversized_length(alloc, oversized, init)?;
            sized(world, alloc, count, built)
        }
    }
}
