//! What the contracts of the table let a crate above prove: calls whose premises come from other calls.

ghost use Rattle.std.specs.Prelude.{◌<◌, length, IsTrue, IfOk};
ghost use Rattle.c_types.specs.Records.{is_finished};
ghost use Rattle.c_types.specs.Table.{type_at};

use c_types::{Term, TypeEnd, TypeId, TypeTable};

/// The sizes of a finished record's members, one after the other.
pub fn total_size(table: &TypeTable, id: TypeId) -> u64
    requires valid { id.0 < length table.now.terms }
    requires finished { IsTrue (is_finished table.now.layouts (type_at table.now.terms id.0)) }
{
    let mut total: u64 = 0;
    for member in table.members(id).as_slice() {
        let size = table.size_of(member.ty).unwrap_or(0);
        total = total.wrapping_add(size as u64);
    }
    total
}

/// The elements of an array, with the qualifiers of another type too: as one that is added.
pub fn qualified_element(
    table: &mut TypeTable,
    array: TypeId,
    other: TypeId,
) -> Result<TypeId, TypeEnd>
    requires array { array.0 < length table.old.terms }
    requires other { other.0 < length table.old.terms }
    ensures { IfOk result (λ id. id.0 < length table.new.terms) }
{
    let bits = match table.term(other) {
        Term::Qualified(qualifiers, _) => *qualifiers,
        _ => table.qualifiers_met(other),
    };
    let plain = table.plain(array);
    match table.term(plain) {
        Term::Array(element, _) => {
            let element = *element;
            table.add(Term::Qualified(bits, element))
        }
        _ => Ok(array),
    }
}

/// A type that was added is added again, of the same parts: a declared record keeps its number.
pub fn pointer_to_same(table: &mut TypeTable, id: TypeId) -> Result<TypeId, TypeEnd>
    requires { id.0 < length table.old.terms }
    ensures { IfOk result (λ id. id.0 < length table.new.terms) }
{
    let again = match table.term(id) {
        Term::Record(number) => {
            let number = *number;
            table.add(Term::Record(number))?
        }
        _ => id,
    };
    table.add(Term::Pointer(again))
}
