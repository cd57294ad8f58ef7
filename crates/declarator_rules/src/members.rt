//! The members of structs and unions: rule 8 (6.7.2.1).

ghost use Rattle.std.specs.Prelude.{◌≡◌, ◌<◌, ◌&&◌, ◌||◌, not, List, length, map, IfOk};
ghost use Rattle.c_types.specs.CTypes as c;
ghost use Rattle.c_types.specs.Table.{type_at, member_of, MembersBelow};
ghost use Rattle.c_types.specs.declared.terms.Term.{Term as TypeTerm};
ghost use Rattle.c_rules.specs.Declarators as rules;
ghost use Rattle.c_rules.specs.Names as names;
ghost use Rattle.c_rules.specs.Walk as walk;
ghost use Rattle.c_world.specs.Seen.{seen};
ghost use Rattle.declarator_rules.specs.Members.{any_is_flexible, is_unsized};

use c_types::{Member, Term, TypeId};
use c_world::World;
use name_places::NamePlaces;
use std::alloc::Global;
use tok_base::NoMemory;

/// Whether a type is an array without a length, also behind typedef names and qualifiers.
#[tactic(auto, using(crate::proofs::Around::flexible_plain))]
pub fn is_flexible(world: &World, id: TypeId) -> bool
    requires { id.0 < length world.now.table.terms }
    ensures { result ≡ c.is_flexible (type_at world.now.table.terms id.0) }
{
    is_unsized(world, world.plain(id))
}

/// Whether a type is an array without a length itself.
fn is_unsized(world: &World, id: TypeId) -> bool
    requires { id.0 < length world.now.table.terms }
    ensures { result ≡ is_unsized (type_at world.now.table.terms id.0) }
{
    match world.term(id) {
        Term::Flexible(_) => true,
        _ => false,
    }
}

/// Whether the last of these members is an array without a length.
fn last_is_flexible(world: &World, members: &[Member]) -> bool
    requires { MembersBelow (length world.now.table.terms) members.now }
    ensures { result ≡ rules.last_is_flexible (map (member_of world.now.table.terms) members.now) }
{
    match members.split_last() {
        None => false,
        Some((last, _)) => is_flexible(world, last.ty),
    }
}

/// Whether it is a struct that ends with an array without a length (6.7.2.1, paragraph 18).
pub fn is_open_struct(world: &World, id: TypeId) -> bool
    requires { id.0 < length world.now.table.terms }
    ensures { result ≡ rules.is_open_struct (seen world.now) (type_at world.now.table.terms id.0) }
{
    last_is_flexible(world, world.members(id))
}

/// Whether one of these members is an array without a length.
fn any_is_flexible(world: &World, members: &[Member]) -> bool
    requires { MembersBelow (length world.now.table.terms) members.now }
    ensures { result ≡ any_is_flexible (map (member_of world.now.table.terms) members.now) }
{
    for member in members {
        if is_flexible(world, member.ty) {
            return true;
        }
    }
    false
}

/// 8: an array without a length stands last in a struct, behind another member.
pub fn ends_well(world: &World, is_union: bool, members: &[Member]) -> bool
    requires { MembersBelow (length world.now.table.terms) members.now }
    ensures { result ≡ walk.ends_well is_union 0 (map (member_of world.now.table.terms) members.now) }
{
    let Some((last, before)) = members.split_last() else {
        return true;
    };
    if any_is_flexible(world, before) {
        return false;
    }
    may_end(is_flexible(world, last.ty), is_union, before.is_empty())
}

/// Whether a member may stand last: an array without a length does in a struct, behind another one.
fn may_end(is_flexible: bool, is_union: bool, is_first: bool) -> bool
    ensures { result ≡ (not is_flexible || (not is_union && not is_first)) }
{
    !is_flexible || (!is_union && !is_first)
}

/// 8: whether the names of the members differ; the names so far are kept in an index.
pub fn all_differ(alloc: Global, members: &[Member]) -> Result<bool, NoMemory>
    ensures { IfOk result (λ b. (ts : List TypeTerm) → b ≡ names.all_differ (map (member_of ts) members.now)) }
{
    let mut places = NamePlaces::new(alloc);
    for member in members {
        if places.find(member.name.as_slice()).is_some() {
            return Ok(false);
        }
        places.note(alloc, member.name.as_slice(), 0)?;
    }
    Ok(true)
}
