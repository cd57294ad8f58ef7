//! Constants and string literals (ISO/IEC 9899:2018, 6.4.4, 6.4.5).

ghost use Rattle.std.specs.Prelude.{◌≡◌, ◌<◌, length, IfOk, OnOk};
ghost use Rattle.num_ops.specs.Numbers.{Number};
ghost use Rattle.c_types.specs.CTypes as c;
ghost use Rattle.c_types.specs.Table.{type_at};
ghost use Rattle.c_constants.specs.Literals.{text_length};
ghost use Rattle.c_rules.specs.Forms as forms;
ghost use Rattle.c_world.specs.Extends.{Extends};
ghost use Rattle.c_world.specs.Seen.{seen, Gives};
ghost use Rattle.expression_rules.specs.Steps as steps;
ghost use Rattle.expression_rules.specs.Typed.{typed_of};

use crate::noting::{done, done_int};
use c_constants::{char_value, constant_of, literal_bytes};
use c_rules::ConstantValue;
use c_tree::At;
use c_types::{Term, TypeId};
use c_world::{CheckEnd, World};
use constant_values::{Address, Constant};
use expression_rules::Typed;
use num_ops::{Int, IntKind};
use std::alloc::Global;
use tok_base::{Bytes, NoMemory};

/// An integer constant: rule 12.
pub fn judge_number(world: &mut World, at: At, text: &[u8]) -> Result<Typed, CheckEnd>
    ensures gives { Gives (forms.judge_number at text.now) (seen world.old) result (typed_of world.new.table.terms) (seen world.new) }
    ensures extends { OnOk result (Extends world.old.table world.new.table) }
    ensures valid { IfOk result (λ r. r.ty.0 < length world.new.table.terms) }
{
    match constant_of(text) {
        None => Err(CheckEnd::Rule(12, at)),
        Some(number) => number_done(world, at, number),
    }
}

/// An integer constant of this value and kind.
fn number_done(world: &mut World, at: At, number: Int) -> Result<Typed, CheckEnd>
    ensures gives { Gives (steps.number_done at number) (seen world.old) result (typed_of world.new.table.terms) (seen world.new) }
    ensures extends { OnOk result (Extends world.old.table world.new.table) }
    ensures valid { IfOk result (λ r. r.ty.0 < length world.new.table.terms) }
{
    world.note_constant(at.id, Some(ConstantValue::Number(number.value)));
    done_int(world, at, number.kind, Constant::of_int(number))
}

/// A character constant.
pub fn judge_char(world: &mut World, at: At, text: &[u8]) -> Result<Typed, CheckEnd>
    ensures gives { Gives (forms.judge_char at text.now) (seen world.old) result (typed_of world.new.table.terms) (seen world.new) }
    ensures extends { OnOk result (Extends world.old.table world.new.table) }
    ensures valid { IfOk result (λ r. r.ty.0 < length world.new.table.terms) }
{
    let value = char_value(text);
    world.note_constant(at.id, Some(ConstantValue::Number(value as i128)));
    done_int(world, at, IntKind::Int, Constant::of_i32(value))
}

/// How many bytes adjacent string literals have, the zero behind them not counted.
#[tactic(auto, using(crate::proofs::Texts::length_step))]
fn length_of(alloc: Global, texts: &[Bytes]) -> Result<u64, NoMemory>
    ensures { IfOk result (λ n. n ≡ text_length texts.now) }
{
    let mut count: u64 = 0;
    for text in texts {
        let bytes = match literal_bytes(alloc, text.as_slice()) {
            Ok(bytes) => bytes,
            Err(end) => return Err(end),
        };
        count = match count.checked_add(bytes.len() as u64) {
            Some(sum) => sum,
            None => return Err(NoMemory),
        };
    }
    Ok(count)
}

/// The type of a string literal of so many bytes; no memory where it would have 2^28 bytes or more.
#[tactic(auto, using(crate::proofs::Texts::one_more_is))]
fn text_type(world: &mut World, bytes: u64) -> Result<TypeId, NoMemory>
    ensures seen { seen world.new ≡ seen world.old }
    ensures extends { Extends world.old.table world.new.table }
    ensures is { IfOk result (λ r. type_at world.new.table.terms r.0 ≡ steps.text_type bytes) }
    ensures valid { IfOk result (λ r. r.0 < length world.new.table.terms) }
{
    if 0x1000_0000 <= bytes {
        return Err(NoMemory);
    }
    let element = world.make(Term::Int(IntKind::Char))?;
    match world.add(Term::Array(element, bytes as u32 + 1)) {
        Ok(ty) => Ok(ty),
        Err(_) => Err(NoMemory),
    }
}

/// Adjacent string literals; no memory where the array would have 2^28 bytes or more.
pub fn judge_text(
    world: &mut World,
    alloc: Global,
    at: At,
    texts: &[Bytes],
) -> Result<Typed, CheckEnd>
    ensures gives { Gives (forms.judge_text at texts.now) (seen world.old) result (typed_of world.new.table.terms) (seen world.new) }
    ensures extends { OnOk result (Extends world.old.table world.new.table) }
    ensures valid { IfOk result (λ r. r.ty.0 < length world.new.table.terms) }
{
    let bytes = length_of(alloc, texts)?;
    let ty = text_type(world, bytes)?;
    done(
        world,
        at,
        Typed {
            ty,
            is_lvalue: true,
            value: Constant::varies(),
            is_null: false,
            address: Address::text(at.id),
            text: Some(bytes),
        },
    )
}
