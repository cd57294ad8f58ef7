//! Integer constant expressions.

ghost use Rattle.std.specs.Prelude.{◌≡◌, pos, if◌then◌else◌};
ghost use Rattle.c_rules.specs.Typed as typed;
ghost use Rattle.c_rules.specs.Typed.{is, varies, undefined, is_zero_constant};
ghost use Rattle.c_rules.specs.Forms.{size_constant};
ghost use Rattle.c_rules.specs.Declarators.{is_length, length_of};
ghost use Rattle.c_rules.specs.Initialisers.{has_value};
ghost use Rattle.c_rules.specs.Walk.{is_int_constant, value_or};
ghost use Rattle.constant_values.specs.Constants.{IsBounded, AreBounded, held};
ghost use Rattle.constant_values.specs.Forms as forms;

use num_ops::Int;
use std::marker::Model;

/// An integer constant expression (ISO/IEC 9899:2018, 6.6, paragraph 6): there is none, or its evaluation is
/// undefined, or it has a value, which is one of `long` or of `unsigned long`.
#[derive(Clone, Copy)]
pub struct Constant {
    state: State,
}

#[derive(Clone, Copy)]
pub(crate) enum State {
    Varies,
    Undefined,
    Is(i128),
}

impl Model for Constant {
    ghost use Rattle.std.specs.Prelude.{◌≡◌};
    ghost use Rattle.std.proofs.Common.{ap};
    ghost use Rattle.c_rules.specs.Typed as typed;

    ghost Value = { typed.Constant };

    ghost use Rattle.constant_values.specs.Constants.{held, state_of, state_back, AreBounded};

    ghost view = { λ c. held c.state };

    ghost invariant = { λ c. AreBounded c.state };

    ghost inverse = { λ v. record { state = state_of v } };

    ghost inverse_ok = { λ a h. ap (λ s. record { state = s }) (state_back a.state) };
}

impl Constant {
    /// No constant expression.
    pub fn varies() -> Constant
        ensures { result ≡ varies }
    {
        Constant {
            state: State::Varies,
        }
    }

    /// A constant expression whose evaluation is undefined.
    pub fn undefined() -> Constant
        ensures { result ≡ undefined }
    {
        Constant {
            state: State::Undefined,
        }
    }

    /// A value.
    pub(crate) fn is(value: i128) -> Constant
        requires { IsBounded value }
        ensures { result ≡ is value }
    {
        Constant {
            state: State::Is(value),
        }
    }

    /// The value of an integer.
    pub fn of_int(int: Int) -> Constant
        ensures { result ≡ is int.value }
    {
        Constant::is(int.value)
    }

    /// An integer constant as it was read; one that no kind of its list has is undefined
    /// (6.4.4.1, paragraph 6).
    pub fn of_number(number: Option<Int>) -> Constant
        ensures { result ≡ forms.of_number number }
    {
        match number {
            Some(int) => Constant::of_int(int),
            None => Constant::undefined(),
        }
    }

    /// A value of `int`, as a character constant's or an enumeration constant's.
    pub fn of_i32(value: i32) -> Constant
        ensures { result ≡ is value }
    {
        Constant::is(value as i128)
    }

    /// A value of `long`, as the one behind an enumeration constant's.
    pub fn of_i64(value: i64) -> Constant
        ensures { result ≡ is value }
    {
        Constant::is(value as i128)
    }

    /// A number, as a size or an offset in bytes.
    pub fn of_size(bytes: u32) -> Constant
        ensures { result ≡ is (pos bytes) }
    {
        Constant::is(bytes as i128)
    }

    /// The size of a type, where it has one (6.5.3.4).
    pub fn of_type_size(bytes: Option<u32>) -> Constant
        ensures { result ≡ size_constant bytes }
    {
        match bytes {
            Some(bytes) => Constant::of_size(bytes),
            None => Constant::varies(),
        }
    }

    /// Whether it has the value 0.
    pub fn is_zero(self) -> bool
        ensures { result ≡ is_zero_constant self }
    {
        match self.state {
            State::Is(value) => value == 0,
            State::Varies => false,
            State::Undefined => false,
        }
    }

    /// Whether it has a value.
    pub fn has_value(self) -> bool
        ensures { result ≡ has_value self }
    {
        match self.state {
            State::Is(_) => true,
            State::Varies => false,
            State::Undefined => false,
        }
    }

    /// Whether it can be an array's length: a value of at least 1 (6.7.6.2).
    pub fn is_length(self) -> bool
        ensures { result ≡ is_length self }
    {
        match self.state {
            State::Is(value) => 1 <= value,
            State::Varies => false,
            State::Undefined => false,
        }
    }

    /// The length that it gives an array: its absolute value, and 1 where it has none.
    pub fn length(self) -> u64
        ensures { result ≡ length_of self }
    {
        match self.state {
            State::Is(value) => value.unsigned_abs() as u64,
            State::Varies => 1,
            State::Undefined => 1,
        }
    }

    /// Its value, where it has one.
    pub fn number(self) -> Option<i128>
        ensures { result ≡ forms.number_in self }
    {
        match self.state {
            State::Is(value) => Some(value),
            State::Varies => None,
            State::Undefined => None,
        }
    }

    /// Its value, where it has one, else `next`.
    pub fn value_or(self, next: i128) -> i128
        ensures { result ≡ value_or next self }
    {
        match self.state {
            State::Is(value) => value,
            State::Varies => next,
            State::Undefined => next,
        }
    }

    /// Whether it has a value of `int` (6.7.2.2, paragraph 2).
    pub fn is_int(self) -> bool
        ensures { result ≡ is_int_constant self }
    {
        match self.state {
            State::Is(value) => -0x8000_0000 <= value && value <= 0x7fff_ffff,
            State::Varies => false,
            State::Undefined => false,
        }
    }

    /// Its value, where it has one of `int`.
    pub fn as_int(self) -> Option<i32>
        ensures { result ≡ forms.int_in self }
    {
        match self.state {
            State::Is(value) => i32::try_from(value).ok(),
            State::Varies => None,
            State::Undefined => None,
        }
    }

    /// It where the condition holds, else no constant.
    pub fn when(self, holds: bool) -> Constant
        ensures { result ≡ if holds then self else varies }
    {
        if holds { self } else { Constant::varies() }
    }

    pub(crate) fn state(self) -> State
        ensures value { held result ≡ self }
        ensures bounded { AreBounded result }
    {
        self.state
    }
}
