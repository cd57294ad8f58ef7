//! How long spellings are. The room for a spelling is made by these lengths, so that one that is too
//! long for the machine is refused at once; no contract speaks of them.

ghost use Rattle.std.specs.Prelude.{◌≤◌};

use super::TypeTable;
use crate::facts::Spelled;
use crate::pieces::{base_qualifiers, int_name, pointer_qualifiers};
use crate::terms::{Term, TypeId};

impl TypeTable {
    /// Of a term whose parts are canonical types.
    pub(super) fn spelled(&self, term: &Term) -> Spelled {
        match term {
            Term::Void => base(4),
            Term::Int(kind) => base(int_name(*kind).len() as u64),
            Term::Enum(number) => base(self.enum_name(*number).len() as u64),
            Term::Record(number) => base(self.record_name(*number).len() as u64),
            Term::Pointer(to) => self.spelled_pointer(*to),
            Term::Array(element, count) => longer(self.spelled_at(*element), 2 + digits(*count)),
            Term::Flexible(element) => longer(self.spelled_at(*element), 2),
            Term::Function(returned, parameters) => {
                self.spelled_function(*returned, parameters.as_slice())
            }
            Term::Named(_, named) => self.spelled_at(*named),
            Term::Qualified(qualifiers, inner) => self.spelled_qualified(*qualifiers, *inner),
        }
    }

    fn spelled_at(&self, id: TypeId) -> Spelled {
        match self.shapes.get(id.0 as usize) {
            None => base(0),
            Some(shape) => shape.spelled,
        }
    }

    /// A star, with a space before it where one comes in, and parentheses round an array or a function.
    fn spelled_pointer(&self, to: TypeId) -> Spelled {
        let inside = self.spelled_at(to);
        let more = if self.is_enclosed(to) { 3 } else { 1 };
        Spelled {
            length: inside
                .length
                .saturating_add(more + inside.takes_space as u64),
            takes_space: false,
        }
    }

    /// Whether a pointer to the type, which is canonical, has parentheses.
    fn is_enclosed(&self, id: TypeId) -> bool {
        match self.terms.get(id.0 as usize) {
            Some(Term::Array(_, _)) => true,
            Some(Term::Flexible(_)) => true,
            Some(Term::Function(_, _)) => true,
            Some(Term::Qualified(_, inner)) => self.is_function_at(*inner),
            _ => false,
        }
    }

    fn is_function_at(&self, id: TypeId) -> bool {
        match self.terms.get(id.0 as usize) {
            Some(Term::Function(_, _)) => true,
            _ => false,
        }
    }

    fn is_pointer_at(&self, id: TypeId) -> bool {
        match self.terms.get(id.0 as usize) {
            Some(Term::Pointer(_)) => true,
            _ => false,
        }
    }

    /// The parameters in parentheses, or void.
    fn spelled_function(&self, returned: TypeId, parameters: &[TypeId]) -> Spelled {
        let before = self.spelled_at(returned);
        let mut inside: u64 = 0;
        for parameter in parameters {
            inside = inside.saturating_add(self.spelled_at(*parameter).length);
            inside = inside.saturating_add(2);
        }
        let inside = if inside == 0 {
            4
        } else {
            inside.saturating_sub(2)
        };
        Spelled {
            length: before
                .length
                .saturating_add(2 + before.takes_space as u64)
                .saturating_add(inside),
            takes_space: false,
        }
    }

    fn spelled_qualified(&self, qualifiers: u8, inner: TypeId) -> Spelled {
        let spelled = self.spelled_at(inner);
        if self.is_function_at(inner) {
            return spelled;
        }
        if self.is_pointer_at(inner) {
            let more = pointer_qualifiers(qualifiers).len() as u64;
            return Spelled {
                length: spelled.length.saturating_add(more),
                takes_space: true,
            };
        }
        longer(spelled, base_qualifiers(qualifiers).len() as u64)
    }
}

fn base(length: u64) -> Spelled {
    Spelled {
        length,
        takes_space: true,
    }
}

fn longer(spelled: Spelled, more: u64) -> Spelled {
    Spelled {
        length: spelled.length.saturating_add(more),
        ..spelled
    }
}

/// How many decimal digits a number has.
fn digits(number: u32) -> u64
    ensures { result ≤ 10 }
{
    if number < 10 {
        1
    } else if number < 100 {
        2
    } else if number < 1000 {
        3
    } else if number < 1_0000 {
        4
    } else if number < 10_0000 {
        5
    } else if number < 100_0000 {
        6
    } else if number < 1000_0000 {
        7
    } else if number < 1_0000_0000 {
        8
    } else if number < 10_0000_0000 {
        9
    } else {
        10
    }
}
