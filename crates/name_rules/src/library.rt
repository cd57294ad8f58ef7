//! Rule 34: the types of the library's functions and of the entry points.

ghost use Rattle.std.specs.Prelude.{◌≡◌, ◌<◌, ℕ, List, None, length, IfOk};
ghost use Rattle.c_types.specs.CTypes as c;
ghost use Rattle.c_types.specs.Compatible.{is_same};
ghost use Rattle.c_types.specs.Records.{refusal};
ghost use Rattle.c_types.specs.Table.{type_at, types_at, term_type, AllBelow, NumbersBelow, PartsBelow};
ghost use Rattle.library_names.specs.declared.signature.Parameters.TheVariants as ps;
ghost use Rattle.c_rules.specs.Forms as forms;
ghost use Rattle.c_rules.specs.Names as rules;
ghost use Rattle.c_rules.specs.World.{is_listed};
ghost use Rattle.c_world.specs.Extends.{Extends};
ghost use Rattle.c_world.specs.Seen.{seen};
ghost use Rattle.library_names.specs.Signatures.{parameter_types, part_type, signature_type};

use c_rules::Binding;
use c_types::{Term, TypeId};
use c_world::World;
use library_names::{Parameters, Part, Signature, library_number, signature_of};
use num_ops::IntKind;
use std::alloc::Global;
use tok_base::{Items, NoMemory};

/// What a function's name is bound to: one of the library has no body in the unit.
pub fn function_binding(has_body: bool, name: &[u8], number: u32) -> Binding
    ensures { (whole : forms.Whole) → is_listed name.now whole.bodies ≡ has_body → result ≡ forms.function_binding whole name.now number }
{
    if has_body {
        return Binding::Function(number);
    }
    match library_number(name) {
        Some(known) => Binding::Library(known),
        None => Binding::Function(number),
    }
}

/// The pointer to a const type.
fn const_pointer(world: &mut World, to: Term) -> Result<TypeId, NoMemory>
    requires parts { PartsBelow (length world.old.table.terms) to }
    requires numbers { NumbersBelow (length world.old.table.records) (length world.old.table.enums) to }
    requires accepted { refusal (seen world.old).records.layouts (term_type world.old.table.terms to) ≡ None }
    ensures seen { seen world.new ≡ seen world.old }
    ensures extends { Extends world.old.table world.new.table }
    ensures is { IfOk result (λ r. type_at world.new.table.terms r.0 ≡ c.Pointer (c.Qualified 1 (term_type world.old.table.terms to))) }
    ensures valid { IfOk result (λ r. r.0 < length world.new.table.terms) }
{
    let to = world.make(to)?;
    let qualified = world.make(Term::Qualified(1, to))?;
    let r = world.make(Term::Pointer(qualified))?;
    Ok(r)
}

fn void_pointer(world: &mut World) -> Result<TypeId, NoMemory>
    ensures seen { seen world.new ≡ seen world.old }
    ensures extends { Extends world.old.table world.new.table }
    ensures is { IfOk result (λ r. type_at world.new.table.terms r.0 ≡ c.Pointer c.Void) }
    ensures valid { IfOk result (λ r. r.0 < length world.new.table.terms) }
{
    let void = world.make(Term::Void)?;
    let r = world.make(Term::Pointer(void))?;
    Ok(r)
}

fn make_part(world: &mut World, part: Part) -> Result<TypeId, NoMemory>
    ensures seen { seen world.new ≡ seen world.old }
    ensures extends { Extends world.old.table world.new.table }
    ensures is { IfOk result (λ r. type_at world.new.table.terms r.0 ≡ part_type part) }
    ensures valid { IfOk result (λ r. r.0 < length world.new.table.terms) }
{
    match part {
        Part::Void => world.make(Term::Void),
        Part::Int => world.make(Term::Int(IntKind::Int)),
        Part::Size => world.make(Term::Int(IntKind::ULong)),
        Part::Pointer => void_pointer(world),
        Part::ConstPointer => const_pointer(world, Term::Void),
        Part::ConstText => const_pointer(world, Term::Int(IntKind::Char)),
    }
}

fn make_one(world: &mut World, alloc: Global, a: Part) -> Result<Items<TypeId>, NoMemory>
    ensures seen { seen world.new ≡ seen world.old }
    ensures extends { Extends world.old.table world.new.table }
    ensures are { IfOk result (λ r. types_at world.new.table.terms r ≡ parameter_types (ps.One a)) }
    ensures valid { IfOk result (λ r. AllBelow (length world.new.table.terms) r) }
{
    let a = make_part(world, a)?;
    let r = Items::from_slice(alloc, &[a])?;
    Ok(r)
}

fn make_two(world: &mut World, alloc: Global, a: Part, b: Part) -> Result<Items<TypeId>, NoMemory>
    ensures seen { seen world.new ≡ seen world.old }
    ensures extends { Extends world.old.table world.new.table }
    ensures are { IfOk result (λ r. types_at world.new.table.terms r ≡ parameter_types (ps.Two a b)) }
    ensures valid { IfOk result (λ r. AllBelow (length world.new.table.terms) r) }
{
    let a = make_part(world, a)?;
    let b = make_part(world, b)?;
    let r = Items::from_slice(alloc, &[a, b])?;
    Ok(r)
}

fn make_three(
    world: &mut World,
    alloc: Global,
    a: Part,
    b: Part,
    c: Part,
) -> Result<Items<TypeId>, NoMemory>
    ensures seen { seen world.new ≡ seen world.old }
    ensures extends { Extends world.old.table world.new.table }
    ensures are { IfOk result (λ r. types_at world.new.table.terms r ≡ parameter_types (ps.Three a b c)) }
    ensures valid { IfOk result (λ r. AllBelow (length world.new.table.terms) r) }
{
    let a = make_part(world, a)?;
    let b = make_part(world, b)?;
    let c = make_part(world, c)?;
    let r = Items::from_slice(alloc, &[a, b, c])?;
    Ok(r)
}

fn make_parameters(
    world: &mut World,
    alloc: Global,
    parameters: Parameters,
) -> Result<Items<TypeId>, NoMemory>
    ensures seen { seen world.new ≡ seen world.old }
    ensures extends { Extends world.old.table world.new.table }
    ensures are { IfOk result (λ r. types_at world.new.table.terms r ≡ parameter_types parameters) }
    ensures valid { IfOk result (λ r. AllBelow (length world.new.table.terms) r) }
{
    match parameters {
        Parameters::Zero => Ok(Items::new(alloc)),
        Parameters::One(a) => make_one(world, alloc, a),
        Parameters::Two(a, b) => make_two(world, alloc, a, b),
        Parameters::Three(a, b, c) => make_three(world, alloc, a, b, c),
    }
}

fn make_signature(
    world: &mut World,
    alloc: Global,
    signature: Signature,
) -> Result<TypeId, NoMemory>
    ensures seen { seen world.new ≡ seen world.old }
    ensures extends { Extends world.old.table world.new.table }
    ensures is { IfOk result (λ r. type_at world.new.table.terms r.0 ≡ signature_type signature) }
    ensures valid { IfOk result (λ r. r.0 < length world.new.table.terms) }
{
    let returned = make_part(world, signature.returned)?;
    let parameters = make_parameters(world, alloc, signature.parameters)?;
    let r = world.make(Term::Function(returned, parameters))?;
    Ok(r)
}

/// 34: whether a function of this name and type keeps the library's type, where the unit has no body for
/// it.
pub fn keeps_library(
    world: &mut World,
    alloc: Global,
    has_body: bool,
    name: &[u8],
    ty: TypeId,
) -> Result<bool, NoMemory>
    requires { ty.0 < length world.old.table.terms }
    ensures seen { seen world.new ≡ seen world.old }
    ensures extends { Extends world.old.table world.new.table }
    ensures is { IfOk result (λ b. (bodies : List (List ℕ)) → is_listed name.now bodies ≡ has_body → b ≡ rules.keeps_library bodies name.now (type_at world.old.table.terms ty.0)) }
{
    if has_body {
        return Ok(true);
    }
    match signature_of(name) {
        None => Ok(true),
        Some(signature) => has_signature(world, alloc, ty, signature),
    }
}

fn has_signature(
    world: &mut World,
    alloc: Global,
    ty: TypeId,
    signature: Signature,
) -> Result<bool, NoMemory>
    requires { ty.0 < length world.old.table.terms }
    ensures seen { seen world.new ≡ seen world.old }
    ensures extends { Extends world.old.table world.new.table }
    ensures is { IfOk result (λ b. b ≡ is_same (type_at world.old.table.terms ty.0) (signature_type signature)) }
{
    let known = make_signature(world, alloc, signature)?;
    Ok(world.same(ty, known))
}
