//! The key of a term, a list of numbers that no other term has.

ghost use Rattle.std.specs.Prelude.{◌≡◌, ◌++◌, map, IfOk, OnOk};
ghost use Rattle.c_types.specs.Keys as keys;

use crate::terms::{Term, TypeId};
use num_ops::IntKind;
use std::alloc::Global;
use tok_base::NoMemory;

fn kind_number(kind: IntKind) -> u64
    ensures { result ≡ keys.kind_number kind }
{
    match kind {
        IntKind::Bool => 0,
        IntKind::Char => 1,
        IntKind::SChar => 2,
        IntKind::UChar => 3,
        IntKind::Short => 4,
        IntKind::UShort => 5,
        IntKind::Int => 6,
        IntKind::UInt => 7,
        IntKind::Long => 8,
        IntKind::ULong => 9,
        IntKind::LongLong => 10,
        IntKind::ULongLong => 11,
    }
}

/// The key of a term.
pub fn key_of(alloc: Global, term: &Term) -> Result<Vec<u64>, NoMemory>
    ensures { IfOk result (λ v. v.items ≡ keys.key term.now) }
{
    match term {
        Term::Void => numbers(alloc, &[0]),
        Term::Int(kind) => numbers(alloc, &[1, kind_number(*kind)]),
        Term::Enum(number) => numbers(alloc, &[2, *number]),
        Term::Pointer(to) => numbers(alloc, &[3, to.0]),
        Term::Array(element, count) => numbers(alloc, &[4, element.0, *count as u64]),
        Term::Flexible(element) => numbers(alloc, &[5, element.0]),
        Term::Function(returned, parameters) => {
            let mut key = numbers(alloc, &[6, returned.0])?;
            append_ids(&mut key, parameters.as_slice())?;
            Ok(key)
        }
        Term::Record(number) => numbers(alloc, &[7, *number]),
        Term::Named(name, named) => {
            let mut key = numbers(alloc, &[8, named.0])?;
            append_bytes(&mut key, name.as_slice())?;
            Ok(key)
        }
        Term::Qualified(qualifiers, inner) => numbers(alloc, &[9, *qualifiers as u64, inner.0]),
    }
}

fn numbers(alloc: Global, list: &[u64]) -> Result<Vec<u64>, NoMemory>
    ensures { IfOk result (λ v. v.items ≡ list.now) }
{
    let key = Vec::from_slice(alloc, list)?;
    Ok(key)
}

fn append_ids(key: &mut Vec<u64>, ids: &[TypeId]) -> Result<(), NoMemory>
    ensures { OnOk result (key.new.items ≡ key.old.items ++ map (λ p. p.0) ids.now) }
{
    for id in ids {
        if key.push(id.0).is_err() {
            return Err(NoMemory);
        }
    }
    Ok(())
}

fn append_bytes(key: &mut Vec<u64>, bytes: &[u8]) -> Result<(), NoMemory>
    ensures { OnOk result (key.new.items ≡ key.old.items ++ bytes.now) }
{
    for byte in bytes {
        if key.push(*byte as u64).is_err() {
            return Err(NoMemory);
        }
    }
    Ok(())
}
