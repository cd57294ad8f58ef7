//! Address constants.

ghost use Rattle.std.specs.Prelude.{◌≡◌, ◌+ℤ◌, ◌-ℤ◌, ◌*ℤ◌, ◌≤ℤ◌, ◌<ℤ◌, pos, negsuc, if◌then◌else◌, Some};
ghost use Rattle.c_rules.specs.declared.known.ConstantValue.TheVariants as value;
ghost use Rattle.c_rules.specs.Typed as typed;
ghost use Rattle.c_rules.specs.Typed.{no_address, null_address, function_address, text_address, in_object, within, pointer_value};
ghost use Rattle.c_rules.specs.Forms.{taken_address, back};
ghost use Rattle.c_rules.specs.Initialisers.{has_address};
ghost use Rattle.constant_values.specs.Constants.{IsBounded};
ghost use Rattle.constant_values.specs.Forms as forms;

use crate::constant::{Constant, State};
use c_rules::{Binding, ConstantValue};
use std::marker::Model;

/// A constant of a pointer's value, or of where an lvalue is (ISO/IEC 9899:2018, 6.6, paragraph 9).
#[derive(Clone, Copy)]
pub struct Address {
    place: Place,
}

#[derive(Clone, Copy)]
enum Place {
    Nowhere,
    Null,
    Function(Binding),
    /// A string literal, by the number of its node.
    Text(u32),
    /// Of an object its number, its size and so many bytes into it.
    Object(u32, u32, u32),
}

impl Model for Address {
    ghost use Rattle.std.specs.Prelude.{◌≡◌};
    ghost use Rattle.std.proofs.Common.{ap};
    ghost use Rattle.c_rules.specs.Typed as typed;

    ghost Value = { typed.Address };

    ghost use Rattle.constant_values.specs.Addresses.{placed, place_of, place_back};

    ghost view = { λ a. placed a.place };

    ghost inverse = { λ v. record { place = place_of v } };

    ghost inverse_ok = { λ a h. ap (λ p. record { place = p }) (place_back a.place) };
}

impl Address {
    /// No constant.
    pub fn none() -> Address
        ensures { result ≡ no_address }
    {
        Address {
            place: Place::Nowhere,
        }
    }

    /// A null pointer.
    pub fn null() -> Address
        ensures { result ≡ null_address }
    {
        Address { place: Place::Null }
    }

    /// A function.
    pub fn function(binding: Binding) -> Address
        ensures { result ≡ function_address binding }
    {
        Address {
            place: Place::Function(binding),
        }
    }

    /// A string literal, by the number of its node.
    pub fn text(node: u32) -> Address
        ensures { result ≡ text_address node }
    {
        Address {
            place: Place::Text(node),
        }
    }

    /// The beginning of an object of static storage, by its number and its size in bytes.
    pub fn object(number: u32, size: u32) -> Address
        ensures { result ≡ in_object number size (pos 0) }
    {
        Address {
            place: Place::Object(number, size, 0),
        }
    }

    /// Whether it is a constant.
    pub fn is_known(self) -> bool
        ensures { result ≡ has_address self }
    {
        match self.place {
            Place::Nowhere => false,
            Place::Null => true,
            Place::Function(_) => true,
            Place::Text(_) => true,
            Place::Object(_, _, _) => true,
        }
    }

    /// The address of the object or function that is there (6.5.3.2).
    pub fn taken(self) -> Address
        ensures { result ≡ taken_address self }
    {
        match self.place {
            Place::Object(_, _, _) => self,
            Place::Function(_) => self,
            Place::Nowhere => Address::none(),
            Place::Null => Address::none(),
            Place::Text(_) => Address::none(),
        }
    }

    /// What the value of an lvalue or of another expression points to: of an lvalue that is no array there is
    /// no constant (6.3.2.1).
    pub fn pointed(self, is_lvalue: bool, is_array: bool) -> Address
        ensures { result ≡ forms.pointed_from is_lvalue is_array self }
    {
        if is_lvalue && !is_array {
            Address::none()
        } else {
            self
        }
    }

    /// So many bytes further, where that is in the object or at its end (6.5.6, paragraph 8).
    pub fn moved(self, by: i128) -> Address
        ensures { result ≡ typed.moved by self }
    {
        match self.place {
            Place::Object(number, size, offset) => object_moved(number, size, offset, by),
            Place::Nowhere => Address::none(),
            Place::Null => Address::none(),
            Place::Function(_) => Address::none(),
            Place::Text(_) => Address::none(),
        }
    }

    /// So many elements of a size in bytes further.
    pub fn moved_elements(self, by: Constant, size: u32) -> Address
        ensures { result ≡ forms.moved_elements by size self }
    {
        match by.state() {
            State::Is(value) => self.moved_by(value, size),
            State::Varies => Address::none(),
            State::Undefined => Address::none(),
        }
    }

    /// So many elements of a size in bytes back.
    pub fn moved_back(self, by: Constant, size: u32) -> Address
        ensures { result ≡ forms.moved_elements (back by) size self }
    {
        match by.state() {
            State::Is(value) => self.moved_back_by(value, size),
            State::Varies => Address::none(),
            State::Undefined => Address::none(),
        }
    }

    fn moved_by(self, elements: i128, size: u32) -> Address
        requires low { negsuc 18446744073709551614 ≤ℤ elements }
        requires high { elements <ℤ pos 18446744073709551616 }
        ensures { result ≡ typed.moved (elements *ℤ pos size) self }
    {
        self.moved(elements * size as i128)
    }

    fn moved_back_by(self, elements: i128, size: u32) -> Address
        requires { IsBounded elements }
        ensures { result ≡ typed.moved ((pos 0 -ℤ elements) *ℤ pos size) self }
    {
        self.moved_by(0 - elements, size)
    }

    /// The constant of a pointer's value, where it is one.
    pub fn value(self) -> Option<ConstantValue>
        ensures { result ≡ pointer_value self }
    {
        match self.place {
            Place::Nowhere => None,
            Place::Null => Some(ConstantValue::Null),
            Place::Function(binding) => Some(ConstantValue::Function(binding)),
            Place::Text(node) => Some(ConstantValue::Text(node)),
            Place::Object(number, _, offset) => Some(ConstantValue::Object(number, offset as i64)),
        }
    }
}

fn object_moved(number: u32, size: u32, offset: u32, by: i128) -> Address
    ensures { result ≡ typed.placed (within size (pos offset +ℤ by)) number size (pos offset +ℤ by) }
{
    if is_within(size, offset, by) {
        Address {
            place: Place::Object(number, size, (offset as i128 + by) as u32),
        }
    } else {
        Address::none()
    }
}

/// Whether so many bytes from an offset is in an object or at its end.
fn is_within(size: u32, offset: u32, by: i128) -> bool
    ensures { result ≡ within size (pos offset +ℤ by) }
{
    0 - offset as i128 <= by && by <= size as i128 - offset as i128
}

/// The value of a constant, as it stands before it is converted: an integer's, a null pointer where
/// `is_null`, else what it points to.
pub fn constant_value(value: Constant, is_null: bool, pointed: Address) -> Option<ConstantValue>
    ensures { result ≡ forms.value_from value is_null pointed }
{
    match value.state() {
        State::Is(number) => Some(ConstantValue::Number(number)),
        State::Varies => pointer_constant(is_null, pointed),
        State::Undefined => pointer_constant(is_null, pointed),
    }
}

fn pointer_constant(is_null: bool, pointed: Address) -> Option<ConstantValue>
    ensures { result ≡ if is_null then Some value.Null else pointer_value pointed }
{
    if is_null {
        Some(ConstantValue::Null)
    } else {
        pointed.value()
    }
}
