//! What the parts of a type are (ISO/IEC 9899:2018, 6.7.9).

ghost use Rattle.std.specs.Prelude.{◌≡◌, ◌<◌, ◌∷◌, ◌-◌, ℕ, length, map, List, Option, IfSome, option_map};
ghost use Rattle.c_types.specs.CTypes as c;
ghost use Rattle.c_types.specs.Table.{type_at, member_of, MembersBelow};
ghost use Rattle.c_types.specs.declared.terms.Term.{Term as TypeTerm};
ghost use Rattle.c_rules.specs.Initialisers as rules;
ghost use Rattle.c_world.specs.Seen.{seen};
ghost use Rattle.initialiser_rules.specs.Filling.{PartsBelow, parts_in};
ghost use Rattle.initialiser_rules.specs.declared.parts.Parts.TheVariants as p;
ghost use Rattle.initialiser_rules.specs.Steps.{first_in, first_of, is_unsized, others_in};

use c_types::{Member, Term, TypeId};
use c_world::World;
use expression_rules::is_char;

/// The types of the entries that braces give a type.
#[derive(Clone, Copy)]
pub(crate) enum Parts<'a> {
    /// The same for so many.
    Each(TypeId, u32),
    /// Those of a struct or union, one for each member up to an array without a length; or for the first one
    /// alone.
    Listed(&'a [Member], bool),
}

/// The first part, and the others.
#[derive(Clone, Copy)]
pub(crate) struct Step<'a> {
    pub ty: TypeId,
    pub rest: Parts<'a>,
}

/// The parts of a type that stands behind no typedef name and no qualifier.
pub(crate) fn parts_of(world: &World, plain: TypeId) -> Parts<'_>
    requires { plain.0 < length world.now.table.terms }
    ensures is { parts_in world.now.table.terms result ≡ rules.parts_of (seen world.now) (type_at world.now.table.terms plain.0) }
    ensures valid { PartsBelow (length world.now.table.terms) result }
{
    match world.term(plain) {
        Term::Array(element, count) => Parts::Each(*element, *count),
        Term::Int(_) => Parts::Each(plain, 1),
        Term::Enum(_) => Parts::Each(plain, 1),
        Term::Pointer(_) => Parts::Each(plain, 1),
        Term::Record(_) => Parts::Listed(world.members(plain), world.is_union(plain)),
        _ => Parts::Listed(&[], false),
    }
}

/// Whether a type is an array without a length, also behind typedef names and qualifiers.
#[tactic(auto, using(crate::proofs::Pieces::flexible_plain))]
fn is_flexible(world: &World, id: TypeId) -> bool
    requires { id.0 < length world.now.table.terms }
    ensures { result ≡ c.is_flexible (type_at world.now.table.terms id.0) }
{
    is_unsized(world, world.plain(id))
}

fn is_unsized(world: &World, id: TypeId) -> bool
    requires { id.0 < length world.now.table.terms }
    ensures { result ≡ is_unsized (type_at world.now.table.terms id.0) }
{
    match world.term(id) {
        Term::Flexible(_) => true,
        _ => false,
    }
}

/// The first part, where there is one, and the others.
pub(crate) fn next_part<'a>(world: &World, parts: Parts<'a>) -> Option<Step<'a>>
    requires { PartsBelow (length world.now.table.terms) parts }
    ensures is { option_map (first_of world.now.table.terms) result ≡ first_in (parts_in world.now.table.terms parts.entry) }
    ensures ty { IfSome result (λ s. s.ty.0 < length world.now.table.terms) }
    ensures rest { IfSome result (λ s. PartsBelow (length world.now.table.terms) s.rest) }
{
    match parts {
        Parts::Each(ty, count) => next_alike(ty, count),
        Parts::Listed(members, is_alone) => next_member(world, members, is_alone),
    }
}

fn next_alike<'a>(ty: TypeId, count: u32) -> Option<Step<'a>>
    ensures is { (ts : List TypeTerm) → option_map (first_of ts) result ≡ first_in (rules.each count (type_at ts ty.0)) }
    ensures ty { IfSome result (λ s. s.ty ≡ ty) }
    ensures rest { IfSome result (λ s. s.rest ≡ p.Each ty (count - 1)) }
{
    if count == 0 {
        return None;
    }
    Some(Step {
        ty,
        rest: Parts::Each(ty, count - 1),
    })
}

fn next_member<'a>(world: &World, members: &'a [Member], is_alone: bool) -> Option<Step<'a>>
    requires { MembersBelow (length world.now.table.terms) members.now }
    ensures is { option_map (first_of world.now.table.terms) result ≡ first_in (parts_in world.now.table.terms (p.Listed members.entry is_alone)) }
    ensures ty { IfSome result (λ s. s.ty.0 < length world.now.table.terms) }
    ensures rest { IfSome result (λ s. PartsBelow (length world.now.table.terms) s.rest) }
{
    match members.split_first() {
        None => None,
        Some((first, more)) => member_step(world, first, more, is_alone),
    }
}

fn member_step<'a>(
    world: &World,
    first: &Member,
    more: &'a [Member],
    is_alone: bool,
) -> Option<Step<'a>>
    requires { MembersBelow (length world.now.table.terms) (first.now ∷ more.now) }
    ensures is { option_map (first_of world.now.table.terms) result ≡ first_in (rules.listed (rules.first_alone is_alone (rules.sized_members (map (member_of world.now.table.terms) (first.now ∷ more.now))))) }
    ensures ty { IfSome result (λ s. s.ty.0 < length world.now.table.terms) }
    ensures rest { IfSome result (λ s. PartsBelow (length world.now.table.terms) s.rest) }
{
    if is_flexible(world, first.ty) {
        return None;
    }
    Some(Step {
        ty: first.ty,
        rest: others(more, is_alone),
    })
}

/// The members behind the first one, or none where it stands alone.
fn others(more: &[Member], is_alone: bool) -> Parts<'_>
    ensures is { (ts : List TypeTerm) → parts_in ts result ≡ others_in ts is_alone more.now }
    ensures below { (n : ℕ) → MembersBelow n more.now → PartsBelow n result }
{
    if is_alone {
        Parts::Listed(&[], true)
    } else {
        Parts::Listed(more, false)
    }
}
