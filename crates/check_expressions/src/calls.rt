//! Calls (ISO/IEC 9899:2018, 6.5.2.2).

ghost use Rattle.std.specs.Prelude.{◌≡◌, ◌<◌, ◌+◌, ◌^◌, length, slice_get, IfOk, IfSome, IfNone, OnOk, OnSome};
ghost use Rattle.c_types.specs.CTypes.{no_types, one_type};
ghost use Rattle.c_types.specs.Pieces.{without};
ghost use Rattle.c_types.specs.Plain as plain;
ghost use Rattle.c_types.specs.Table.{type_at};
ghost use Rattle.c_rules.specs.Expressions as rules;
ghost use Rattle.c_rules.specs.Forms as forms;
ghost use Rattle.c_rules.specs.Types as types;
ghost use Rattle.c_world.specs.Extends.{Extends};
ghost use Rattle.c_world.specs.Seen.{seen, Gives};
ghost use Rattle.expression_rules.specs.Arguments.{all_given, AllBelow, converted_all};
ghost use Rattle.expression_rules.specs.Steps as steps;
ghost use Rattle.expression_rules.specs.Typed.{typed_of};

use crate::noting::done_value;
use c_tree::At;
use c_types::{Term, TypeId};
use c_world::{CheckEnd, World, keep};
use expression_rules::{
    Argument, Typed, converts, is_function, is_function_pointer, pointee, settled,
};
use tok_base::NoMemory;

/// What is called.
#[derive(Clone, Copy)]
struct Called {
    /// The type of the called value.
    pointer: TypeId,
    /// What it points to.
    function: TypeId,
    /// Whether the arguments are converted to its parameters.
    fits: bool,
}

/// The parameter at a place, from 0, of a function type, also behind typedef names and qualifiers.
fn parameter_at(world: &World, function: TypeId, place: usize) -> Option<TypeId>
    requires { function.0 < length world.now.table.terms }
    ensures none { IfNone result (without place (plain.parameters_of (plain.plain (type_at world.now.table.terms function.0))) ≡ no_types) }
    ensures some { IfSome result (λ p. without place (plain.parameters_of (plain.plain (type_at world.now.table.terms function.0))) ≡ one_type (type_at world.now.table.terms p.0) (without (place + 1) (plain.parameters_of (plain.plain (type_at world.now.table.terms function.0))))) }
    ensures valid { IfSome result (λ p. p.0 < length world.now.table.terms) }
{
    item_at(world.parameters_of(function), place)
}

fn item_at(ids: &[TypeId], place: usize) -> Option<TypeId>
    ensures { result ≡ slice_get ids.now place }
{
    if ids.len() <= place {
        return None;
    }
    Some(ids[place])
}

fn argument_at(arguments: &[Argument], place: usize) -> Option<Argument>
    ensures value { result ≡ slice_get arguments.now place }
    ensures within { OnSome result (place < length arguments.now) }
    ensures bound { OnSome result (place + 1 < 2 ^ 64) }
{
    if arguments.len() <= place {
        return None;
    }
    Some(arguments[place])
}

/// 23: whether each argument that has a parameter is converted to it.
fn all_convert(
    world: &mut World,
    function: TypeId,
    arguments: &[Argument],
) -> Result<bool, NoMemory>
    requires function { function.0 < length world.old.table.terms }
    requires arguments { AllBelow (length world.old.table.terms) arguments.now }
    ensures seen { seen world.new ≡ seen world.old }
    ensures extends { Extends world.old.table world.new.table }
    ensures is { IfOk result (λ b. b ≡ rules.all_convert (plain.parameters_of (plain.plain (type_at world.old.table.terms function.0))) (forms.all_typed (all_given world.old.table.terms arguments.now))) }
{
    let mut place: usize = 0;
    while let Some(argument) = argument_at(arguments, place) {
        match converts_at(world, function, place, &argument.typed) {
            Ok(Some(true)) => place += 1,
            Ok(Some(false)) => return Ok(false),
            Ok(None) => return Ok(true),
            Err(end) => return Err(end),
        }
    }
    Ok(true)
}

/// Whether an argument is converted to the parameter at its place, where there is one.
fn converts_at(
    world: &mut World,
    function: TypeId,
    place: usize,
    x: &Typed,
) -> Result<Option<bool>, NoMemory>
    requires function { function.0 < length world.old.table.terms }
    requires argument { x.now.ty.0 < length world.old.table.terms }
    ensures seen { seen world.new ≡ seen world.old }
    ensures extends { Extends world.old.table world.new.table }
    ensures is { IfOk result (λ o. o ≡ steps.converts_first (without place (plain.parameters_of (plain.plain (type_at world.old.table.terms function.0)))) (typed_of world.old.table.terms x.now)) }
{
    match parameter_at(world, function, place) {
        None => Ok(None),
        Some(parameter) => {
            let converted = converts(world, parameter, x)?;
            Ok(Some(converted))
        }
    }
}

/// Each argument that has a parameter is converted to it.
fn note_targets(world: &mut World, function: TypeId, arguments: &[Argument])
    requires { function.0 < length world.old.table.terms }
    ensures seen { seen world.new ≡ converted_all (plain.parameters_of (plain.plain (type_at world.old.table.terms function.0))) (all_given world.old.table.terms arguments.now) (seen world.old) }
    ensures same { world.new.table ≡ world.old.table }
{
    let mut place: usize = 0;
    while let Some(argument) = argument_at(arguments, place) {
        match parameter_at(world, function, place) {
            None => return,
            Some(parameter) => world.note_target(argument.at.id, parameter),
        }
        place += 1;
    }
}

/// The result type of a function type, also behind typedef names and qualifiers; of another type the type
/// behind them.
fn result_of(world: &World, id: TypeId) -> TypeId
    requires { id.0 < length world.now.table.terms }
    ensures is { type_at world.now.table.terms result.0 ≡ plain.result_of (plain.plain (type_at world.now.table.terms id.0)) }
    ensures valid { result.0 < length world.now.table.terms }
{
    let plain = world.plain(id);
    match world.term(plain) {
        Term::Function(returned, _) => *returned,
        _ => plain,
    }
}

/// 27: a pointer to a function with so many parameters.
fn can_be_called(world: &World, pointer: TypeId, count: usize) -> bool
    requires { pointer.0 < length world.now.table.terms }
    ensures { result ≡ rules.can_be_called (type_at world.now.table.terms pointer.0) count }
{
    match world.term(pointer) {
        Term::Pointer(to) => takes_so_many(world, *to, count),
        _ => false,
    }
}

#[tactic(auto, using(crate::proofs::Args::count_is))]
fn takes_so_many(world: &World, function: TypeId, count: usize) -> bool
    requires { function.0 < length world.now.table.terms }
    ensures { result ≡ steps.takes_so_many (type_at world.now.table.terms function.0) count }
{
    is_function(world, world.plain(function)) && world.parameters_of(function).len() == count
}

/// 23: whether the arguments are converted to the parameters, where a function is called.
fn arguments_fit(
    world: &mut World,
    pointer: TypeId,
    function: TypeId,
    arguments: &[Argument],
) -> Result<bool, NoMemory>
    requires pointer { pointer.0 < length world.old.table.terms }
    requires function { function.0 < length world.old.table.terms }
    requires arguments { AllBelow (length world.old.table.terms) arguments.now }
    ensures seen { seen world.new ≡ seen world.old }
    ensures extends { Extends world.old.table world.new.table }
    ensures is { IfOk result (λ b. b ≡ steps.arguments_fit (type_at world.old.table.terms pointer.0) (plain.plain (type_at world.old.table.terms function.0)) (all_given world.old.table.terms arguments.now)) }
{
    if is_function_pointer(world, pointer) {
        all_convert(world, function, arguments)
    } else {
        Ok(true)
    }
}

/// What is known of a call of a function of this type.
fn call_done(
    world: &mut World,
    at: At,
    function: TypeId,
    arguments: &[Argument],
) -> Result<Typed, CheckEnd>
    requires { function.0 < length world.old.table.terms }
    ensures gives { Gives (steps.call_done at (plain.plain (type_at world.old.table.terms function.0)) (all_given world.old.table.terms arguments.now)) (seen world.old) result (typed_of world.new.table.terms) (seen world.new) }
    ensures same { world.new.table ≡ world.old.table }
    ensures valid { IfOk result (λ r. r.ty.0 < length world.new.table.terms) }
{
    note_targets(world, function, arguments);
    let ty = result_of(world, function);
    done_value(world, at, ty)
}

/// The trials of a call through a value of a pointer's type, where it is known whether the arguments are
/// converted.
#[tactic(auto, using(crate::proofs::Args::given_length))]
fn called_as(
    world: &mut World,
    at: At,
    called: Called,
    arguments: &[Argument],
) -> Result<Typed, CheckEnd>
    requires pointer { called.pointer.0 < length world.old.table.terms }
    requires function { called.function.0 < length world.old.table.terms }
    ensures gives { Gives (steps.called_as at called.fits (type_at world.old.table.terms called.pointer.0) (plain.plain (type_at world.old.table.terms called.function.0)) (all_given world.old.table.terms arguments.now)) (seen world.old) result (typed_of world.new.table.terms) (seen world.new) }
    ensures same { world.new.table ≡ world.old.table }
    ensures valid { IfOk result (λ r. r.ty.0 < length world.new.table.terms) }
{
    keep(23, at, called.fits)?;
    keep(
        27,
        at,
        can_be_called(world, called.pointer, arguments.len()),
    )?;
    call_done(world, at, called.function, arguments)
}

/// What is called, and whether the arguments are converted to its parameters.
#[tactic(auto, using(crate::proofs::Args::given_same, crate::proofs::Args::below_up))]
fn find_called(world: &mut World, f: &Typed, arguments: &[Argument]) -> Result<Called, NoMemory>
    requires function { f.now.ty.0 < length world.old.table.terms }
    requires arguments { AllBelow (length world.old.table.terms) arguments.now }
    ensures seen { seen world.new ≡ seen world.old }
    ensures extends { Extends world.old.table world.new.table }
    ensures pointer { IfOk result (λ c. type_at world.new.table.terms c.pointer.0 ≡ types.settled (type_at world.old.table.terms f.now.ty.0)) }
    ensures function { IfOk result (λ c. type_at world.new.table.terms c.function.0 ≡ types.pointee (types.settled (type_at world.old.table.terms f.now.ty.0))) }
    ensures fits { IfOk result (λ c. c.fits ≡ steps.arguments_fit (types.settled (type_at world.old.table.terms f.now.ty.0)) (plain.plain (types.pointee (types.settled (type_at world.old.table.terms f.now.ty.0)))) (all_given world.old.table.terms arguments.now)) }
    ensures pointer_valid { IfOk result (λ c. c.pointer.0 < length world.new.table.terms) }
    ensures function_valid { IfOk result (λ c. c.function.0 < length world.new.table.terms) }
{
    let pointer = settled(world, f.ty)?;
    let function = pointee(world, pointer);
    let fits = arguments_fit(world, pointer, function, arguments)?;
    Ok(Called {
        pointer,
        function,
        fits,
    })
}

/// A call of `f` with these arguments: rules 23 and 27.
pub fn judge_call(
    world: &mut World,
    at: At,
    f: &Typed,
    arguments: &[Argument],
) -> Result<Typed, CheckEnd>
    requires function { f.now.ty.0 < length world.old.table.terms }
    requires arguments { AllBelow (length world.old.table.terms) arguments.now }
    ensures gives { Gives (forms.judge_call at (typed_of world.old.table.terms f.now) (all_given world.old.table.terms arguments.now)) (seen world.old) result (typed_of world.new.table.terms) (seen world.new) }
    ensures extends { OnOk result (Extends world.old.table world.new.table) }
    ensures valid { IfOk result (λ r. r.ty.0 < length world.new.table.terms) }
{
    let called = find_called(world, f, arguments)?;
    called_as(world, at, called, arguments)
}
