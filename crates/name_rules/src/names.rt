//! Rule 2: a name is declared once in a block; at file scope again with the same type and sort, and with one
//! body and one initialiser at most.

ghost use Rattle.std.specs.Prelude.{◌≡◌, ◌<◌, ◌&&◌, length, is_some};
ghost use Rattle.c_types.specs.CTypes.{CType};
ghost use Rattle.c_types.specs.Compatible.{is_same};
ghost use Rattle.c_types.specs.Table.{type_at};
ghost use Rattle.c_rules.specs.Names as rules;
ghost use Rattle.c_rules.specs.World.{find_name, is_file_scope, is_listed};
ghost use Rattle.c_world.specs.Seen.{seen};
ghost use Rattle.name_rules.specs.Names.{IsSameAs, TypeBelow};

use c_rules::Sort;
use c_types::TypeId;
use c_world::World;

fn sort_number(sort: Sort) -> u8
    ensures { result ≡ rules.sort_number sort }
{
    match sort {
        Sort::Object(_, _) => 0,
        Sort::Function(_) => 1,
        Sort::Enumerator(_) => 2,
        Sort::Alias => 3,
    }
}

fn are_same_sorts(a: Sort, b: Sort) -> bool
    ensures { result ≡ rules.are_same_sorts a b }
{
    sort_number(a) == sort_number(b) && sort_number(a) != 2
}

fn is_alias(sort: Sort) -> bool
    ensures { result ≡ rules.is_alias sort }
{
    match sort {
        Sort::Alias => true,
        _ => false,
    }
}

/// Whether a type that was made is the same as this one.
fn is_same_type(world: &World, made: Option<TypeId>, ty: TypeId) -> bool
    requires made { TypeBelow (length world.now.table.terms) made }
    requires valid { ty.0 < length world.now.table.terms }
    ensures { (t : CType) → IsSameAs world.now.table.terms made t → result ≡ (is_some made && is_same t (type_at world.now.table.terms ty.0)) }
{
    match made {
        None => false,
        Some(made) => world.same(made, ty),
    }
}

/// Whether a name may be declared again beside what it stands for.
fn agrees(world: &World, sort: Sort, made: Option<TypeId>, name: &[u8]) -> bool
    requires { TypeBelow (length world.now.table.terms) made }
    ensures { (t : CType) → IsSameAs world.now.table.terms made t → result ≡ rules.agrees sort t (is_some made) (find_name name.now (seen world.now)) }
{
    match world.find(name) {
        None => true,
        Some(bound) => { are_same_sorts(sort, bound.sort) && is_same_type(world, made, bound.ty) }
    }
}

fn may_be_again(world: &World, name: &[u8], sort: Sort, made: Option<TypeId>) -> bool
    requires { TypeBelow (length world.now.table.terms) made }
    ensures { (t : CType) → IsSameAs world.now.table.terms made t → result ≡ rules.may_be_again (seen world.now) name.now sort t (is_some made) }
{
    if world.is_file_scope() {
        agrees(world, sort, made, name)
    } else {
        !world.is_here(name)
    }
}

/// Whether the name stands for a type.
fn is_alias_here(world: &World, name: &[u8]) -> bool
    ensures { result ≡ rules.is_alias_entry (find_name name.now (seen world.now)) }
{
    match world.find(name) {
        None => false,
        Some(bound) => is_alias(bound.sort),
    }
}

/// A typedef name is nowhere declared as something else.
fn stays_alias(world: &World, name: &[u8], sort: Sort) -> bool
    ensures { result ≡ rules.stays_alias (seen world.now) name.now sort }
{
    if is_alias(sort) {
        !world.is_other(name)
    } else {
        !is_alias_here(world, name)
    }
}

/// Whether file scope would get a second body or initialiser of a name.
fn is_completed_again(world: &World, name: &[u8], completes: bool) -> bool
    ensures { result ≡ (completes && is_file_scope (seen world.now) && is_listed name.now (seen world.now).completed) }
{
    completes && world.is_file_scope() && world.is_completed(name)
}

/// 2: whether a name may be declared with this sort. `made` is its type, none where its declarator makes none;
/// `completes`: with a body or an initialiser.
pub fn may_be_named(
    world: &World,
    name: &[u8],
    sort: Sort,
    made: Option<TypeId>,
    completes: bool,
) -> bool
    requires { TypeBelow (length world.now.table.terms) made }
    ensures { (t : CType) → IsSameAs world.now.table.terms made t → result ≡ rules.may_be_named (seen world.now) name.now sort t (is_some made) completes }
{
    may_be_again(world, name, sort, made)
        && stays_alias(world, name, sort)
        && !is_completed_again(world, name, completes)
}
