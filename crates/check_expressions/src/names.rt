//! Names in expressions (ISO/IEC 9899:2018, 6.5.1).

ghost use Rattle.std.specs.Prelude.{◌≡◌, ◌<◌, ◌^◌, length, map, IfOk, OnOk};
ghost use Rattle.check_expressions.specs.Places.{place_from};
ghost use Rattle.c_types.specs.Table.{type_at};
ghost use Rattle.c_rules.specs.Forms as forms;
ghost use Rattle.c_rules.specs.Names.{library};
ghost use Rattle.c_world.specs.Extends.{Extends};
ghost use Rattle.c_world.specs.Seen.{seen, Gives};
ghost use Rattle.expression_rules.specs.Steps as steps;
ghost use Rattle.expression_rules.specs.Typed.{typed_of};

use crate::noting::{done_constant, done_lvalue, done_pointer};
use crate::whole::Whole;
use c_rules::{Binding, Sort};
use c_tree::At;
use c_types::TypeId;
use c_world::{CheckEnd, World};
use constant_values::{Address, Constant};
use expression_rules::Typed;

/// The functions of the library by their numbers.
const LIBRARY: [&[u8]; 13] = [
    b"malloc", b"calloc", b"realloc", b"free", b"getchar", b"putchar", b"memcpy", b"memmove",
    b"memset", b"memcmp", b"strlen", b"exit", b"abort",
];

/// The number of a function of the library by its name.
pub fn library_number(name: &[u8]) -> Option<u32>
    ensures { result ≡ forms.number_in 0 name.now library }
{
    place_in(&LIBRARY, name)
}

/// The first place of a name in a table, from 0.
fn place_in(table: &[&[u8]], name: &[u8]) -> Option<u32>
    requires { length table.now < 2 ^ 32 }
    ensures { result ≡ place_from 0 name.now (map (λ t. t.now) table.now) }
{
    let mut place: u32 = 0;
    for t in table {
        if name == *t {
            return Some(place);
        }
        place += 1;
    }
    None
}

/// What a function's name is bound to: one of the library has no body in the unit.
pub fn function_binding(whole: &Whole, name: &[u8], number: u32) -> Binding
    ensures { result ≡ forms.function_binding whole.now name.now number }
{
    if whole.has_body(name) {
        return Binding::Function(number);
    }
    match library_number(name) {
        Some(known) => Binding::Library(known),
        None => Binding::Function(number),
    }
}

/// Where an object stands, if it has static storage and is defined in the unit.
fn fixed_address(world: &World, is_fixed: bool, number: u32, ty: TypeId) -> Address
    requires { ty.0 < length world.now.table.terms }
    ensures { result ≡ forms.fixed_address (seen world.now) is_fixed number (type_at world.now.table.terms ty.0) }
{
    if is_fixed {
        Address::object(number, world.size_of(ty).unwrap_or(0))
    } else {
        Address::none()
    }
}

/// A name that stands for something of this sort and type.
fn name_as(
    world: &mut World,
    whole: &Whole,
    at: At,
    name: &[u8],
    sort: Sort,
    ty: TypeId,
) -> Result<Typed, CheckEnd>
    requires { ty.0 < length world.old.table.terms }
    ensures gives { Gives (steps.name_as whole.now at name.now sort (type_at world.old.table.terms ty.0)) (seen world.old) result (typed_of world.new.table.terms) (seen world.new) }
    ensures same { world.new.table ≡ world.old.table }
    ensures valid { IfOk result (λ r. r.ty.0 < length world.new.table.terms) }
{
    match sort {
        Sort::Object(number, is_fixed) => {
            let address = fixed_address(world, is_fixed, number, ty);
            world.note_binding(at.id, Binding::Object(number));
            let r = done_lvalue(world, at, ty, address)?;
            Ok(r)
        }
        Sort::Function(number) => {
            let binding = function_binding(whole, name, number);
            world.note_binding(at.id, binding);
            let r = done_pointer(world, at, ty, Address::function(binding))?;
            Ok(r)
        }
        Sort::Enumerator(value) => {
            world.note_binding(at.id, Binding::Enumerator(value));
            let r = done_constant(world, at, ty, Constant::of_i32(value))?;
            Ok(r)
        }
        Sort::Alias => Err(CheckEnd::Rule(1, at)),
    }
}

/// A name: rule 1.
pub fn judge_name(world: &mut World, whole: &Whole, at: At, name: &[u8]) -> Result<Typed, CheckEnd>
    ensures gives { Gives (forms.judge_name whole.now at name.now) (seen world.old) result (typed_of world.new.table.terms) (seen world.new) }
    ensures extends { OnOk result (Extends world.old.table world.new.table) }
    ensures valid { IfOk result (λ r. r.ty.0 < length world.new.table.terms) }
{
    match world.find(name) {
        None => Err(CheckEnd::Rule(1, at)),
        Some(bound) => name_as(world, whole, at, name, bound.sort, bound.ty),
    }
}
