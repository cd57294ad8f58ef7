//! The types that the rules make (ISO/IEC 9899:2018, 6.3.1.8, 6.3.2.1, 6.5.15).

ghost use Rattle.std.specs.Prelude.{◌≡◌, ◌<◌, length, IfOk};
ghost use Rattle.c_types.specs.CTypes as c;
ghost use Rattle.c_types.specs.Canonical as canonical;
ghost use Rattle.c_types.specs.Table.{type_at};
ghost use Rattle.c_rules.specs.Expressions as rules;
ghost use Rattle.c_rules.specs.Forms as forms;
ghost use Rattle.c_rules.specs.Types as types;
ghost use Rattle.c_world.specs.Extends.{Extends};
ghost use Rattle.c_world.specs.Seen.{seen};
ghost use Rattle.expression_rules.specs.Steps as steps;

use crate::questions::{is_pointer, is_record, kind_of, outer_qualifiers, pointee};
use c_types::{Term, TypeId};
use c_world::World;
use num_ops::{IntKind, common};
use tok_base::NoMemory;

/// A type that is not qualified yet, with these qualifiers: const is 1, volatile 2, restrict 4.
pub fn with_qualifiers(world: &mut World, qualifiers: u8, id: TypeId) -> Result<TypeId, NoMemory>
    requires small { qualifiers < 8 }
    requires valid { id.0 < length world.old.table.terms }
    ensures seen { seen world.new ≡ seen world.old }
    ensures extends { Extends world.old.table world.new.table }
    ensures is { IfOk result (λ r. type_at world.new.table.terms r.0 ≡ canonical.with_qualifiers qualifiers (type_at world.old.table.terms id.0)) }
    ensures valid { IfOk result (λ r. r.0 < length world.new.table.terms) }
{
    if qualifiers == 0 {
        Ok(id)
    } else {
        world.make(Term::Qualified(qualifiers, id))
    }
}

/// The pointer to a type with these qualifiers.
fn pointer_to(world: &mut World, qualifiers: u8, id: TypeId) -> Result<TypeId, NoMemory>
    requires small { qualifiers < 8 }
    requires valid { id.0 < length world.old.table.terms }
    ensures seen { seen world.new ≡ seen world.old }
    ensures extends { Extends world.old.table world.new.table }
    ensures is { IfOk result (λ r. type_at world.new.table.terms r.0 ≡ c.Pointer (canonical.with_qualifiers qualifiers (type_at world.old.table.terms id.0))) }
    ensures valid { IfOk result (λ r. r.0 < length world.new.table.terms) }
{
    let to = with_qualifiers(world, qualifiers, id)?;
    let r = world.make(Term::Pointer(to))?;
    Ok(r)
}

/// A type as a value has it, by its plain type and the qualifiers on the way to it.
fn decayed_by(
    world: &mut World,
    whole: TypeId,
    plain: TypeId,
    qualifiers: u8,
) -> Result<TypeId, NoMemory>
    requires whole { whole.0 < length world.old.table.terms }
    requires plain { plain.0 < length world.old.table.terms }
    requires small { qualifiers < 8 }
    ensures seen { seen world.new ≡ seen world.old }
    ensures extends { Extends world.old.table world.new.table }
    ensures is { IfOk result (λ r. type_at world.new.table.terms r.0 ≡ steps.decayed_by (type_at world.old.table.terms whole.0) (type_at world.old.table.terms plain.0) qualifiers) }
    ensures valid { IfOk result (λ r. r.0 < length world.new.table.terms) }
{
    match world.term(plain) {
        Term::Array(element, _) => {
            let element = *element;
            pointer_to(world, qualifiers, element)
        }
        Term::Flexible(element) => {
            let element = *element;
            pointer_to(world, qualifiers, element)
        }
        Term::Function(_, _) => world.make(Term::Pointer(whole)),
        _ => Ok(whole),
    }
}

/// The type of a value as written: an array becomes the pointer to its first element, a function the
/// pointer to it (6.3.2.1).
#[tactic(auto, using(crate::proofs::Decay::decayed_is))]
pub fn decayed(world: &mut World, id: TypeId) -> Result<TypeId, NoMemory>
    requires { id.0 < length world.old.table.terms }
    ensures seen { seen world.new ≡ seen world.old }
    ensures extends { Extends world.old.table world.new.table }
    ensures is { IfOk result (λ r. type_at world.new.table.terms r.0 ≡ types.decayed (type_at world.old.table.terms id.0)) }
    ensures valid { IfOk result (λ r. r.0 < length world.new.table.terms) }
{
    let plain = world.plain(id);
    let qualifiers = world.qualifiers_met(id);
    let r = decayed_by(world, id, plain, qualifiers)?;
    Ok(r)
}

/// The type of a value, without outer typedef names and qualifiers.
pub fn settled(world: &mut World, id: TypeId) -> Result<TypeId, NoMemory>
    requires { id.0 < length world.old.table.terms }
    ensures seen { seen world.new ≡ seen world.old }
    ensures extends { Extends world.old.table world.new.table }
    ensures is { IfOk result (λ r. type_at world.new.table.terms r.0 ≡ types.settled (type_at world.old.table.terms id.0)) }
    ensures valid { IfOk result (λ r. r.0 < length world.new.table.terms) }
{
    let r = decayed(world, id)?;
    Ok(world.plain(r))
}

/// The common type of two integer types (6.3.1.8).
pub fn common_type(world: &mut World, a: TypeId, b: TypeId) -> Result<TypeId, NoMemory>
    requires left { a.0 < length world.old.table.terms }
    requires right { b.0 < length world.old.table.terms }
    ensures seen { seen world.new ≡ seen world.old }
    ensures extends { Extends world.old.table world.new.table }
    ensures is { IfOk result (λ r. type_at world.new.table.terms r.0 ≡ rules.common_type (type_at world.old.table.terms a.0) (type_at world.old.table.terms b.0)) }
    ensures valid { IfOk result (λ r. r.0 < length world.new.table.terms) }
{
    let kind = common(kind_of(world, a), kind_of(world, b));
    world.make(Term::Int(kind))
}

/// The type of a sum: a pointer stays one (6.5.6).
pub fn sum_type(world: &mut World, a: TypeId, b: TypeId) -> Result<TypeId, NoMemory>
    requires left { a.0 < length world.old.table.terms }
    requires right { b.0 < length world.old.table.terms }
    ensures seen { seen world.new ≡ seen world.old }
    ensures extends { Extends world.old.table world.new.table }
    ensures is { IfOk result (λ r. type_at world.new.table.terms r.0 ≡ rules.sum_type (type_at world.old.table.terms a.0) (type_at world.old.table.terms b.0)) }
    ensures valid { IfOk result (λ r. r.0 < length world.new.table.terms) }
{
    if is_pointer(world, a) {
        Ok(a)
    } else if is_pointer(world, b) {
        Ok(b)
    } else {
        common_type(world, a, b)
    }
}

/// The type of a difference: that of two pointers is `long` (6.5.6, paragraph 9).
pub fn difference_type(world: &mut World, a: TypeId, b: TypeId) -> Result<TypeId, NoMemory>
    requires left { a.0 < length world.old.table.terms }
    requires right { b.0 < length world.old.table.terms }
    ensures seen { seen world.new ≡ seen world.old }
    ensures extends { Extends world.old.table world.new.table }
    ensures is { IfOk result (λ r. type_at world.new.table.terms r.0 ≡ forms.difference_type (type_at world.old.table.terms a.0) (type_at world.old.table.terms b.0)) }
    ensures valid { IfOk result (λ r. r.0 < length world.new.table.terms) }
{
    if is_pointer(world, a) && is_pointer(world, b) {
        world.make(Term::Int(IntKind::Long))
    } else {
        sum_type(world, a, b)
    }
}

/// A pointer type whose pointee has these qualifiers too.
fn with_pointee(world: &mut World, qualifiers: u8, id: TypeId) -> Result<TypeId, NoMemory>
    requires small { qualifiers < 8 }
    requires valid { id.0 < length world.old.table.terms }
    ensures seen { seen world.new ≡ seen world.old }
    ensures extends { Extends world.old.table world.new.table }
    ensures is { IfOk result (λ r. type_at world.new.table.terms r.0 ≡ rules.with_pointee qualifiers (type_at world.old.table.terms id.0)) }
    ensures valid { IfOk result (λ r. r.0 < length world.new.table.terms) }
{
    let to = pointee(world, world.plain(id));
    let own = outer_qualifiers(world, to);
    if qualifiers | own == own {
        return Ok(id);
    }
    let to = world.make(Term::Qualified(qualifiers, to))?;
    world.make(Term::Pointer(to))
}

/// A pointer type whose pointee has the qualifiers of another one's pointee too.
pub fn joined(world: &mut World, id: TypeId, other: TypeId) -> Result<TypeId, NoMemory>
    requires valid { id.0 < length world.old.table.terms }
    requires other { other.0 < length world.old.table.terms }
    ensures seen { seen world.new ≡ seen world.old }
    ensures extends { Extends world.old.table world.new.table }
    ensures is { IfOk result (λ r. type_at world.new.table.terms r.0 ≡ rules.joined (type_at world.old.table.terms id.0) (type_at world.old.table.terms other.0)) }
    ensures valid { IfOk result (λ r. r.0 < length world.new.table.terms) }
{
    let qualifiers = outer_qualifiers(world, pointee(world, other));
    with_pointee(world, qualifiers, id)
}

/// The type of an assignment: that of a struct or union has type `void`.
pub fn assigned_type(world: &mut World, id: TypeId) -> Result<TypeId, NoMemory>
    requires { id.0 < length world.old.table.terms }
    ensures seen { seen world.new ≡ seen world.old }
    ensures extends { Extends world.old.table world.new.table }
    ensures is { IfOk result (λ r. type_at world.new.table.terms r.0 ≡ forms.assigned_type (type_at world.old.table.terms id.0)) }
    ensures valid { IfOk result (λ r. r.0 < length world.new.table.terms) }
{
    if is_record(world, world.plain(id)) {
        world.make(Term::Void)
    } else {
        Ok(id)
    }
}

/// Whether a cast to this type makes 0 a null pointer constant: `void *` (6.3.2.3, paragraph 3).
pub fn is_null_type(world: &mut World, id: TypeId) -> Result<bool, NoMemory>
    requires { id.0 < length world.old.table.terms }
    ensures seen { seen world.new ≡ seen world.old }
    ensures extends { Extends world.old.table world.new.table }
    ensures is { IfOk result (λ b. b ≡ steps.is_null_type (type_at world.old.table.terms id.0)) }
{
    let void = world.make(Term::Void)?;
    let pointer = world.make(Term::Pointer(void))?;
    Ok(world.same(id, pointer))
}
