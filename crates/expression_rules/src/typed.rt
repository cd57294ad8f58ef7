//! What is known of an expression.

use c_tree::At;
use c_types::TypeId;
use constant_values::{Address, Constant};

/// What is known of an expression (ISO/IEC 9899:2018, 6.3.2.1 and 6.6).
#[derive(Clone, Copy)]
pub struct Typed {
    /// Its type as written, before an array or a function becomes a pointer.
    pub ty: TypeId,
    pub is_lvalue: bool,
    /// Its value, where it is an integer constant expression.
    pub value: Constant,
    /// Whether it is an integer constant expression of value 0, cast to `void *`.
    pub is_null: bool,
    pub address: Address,
    /// Of a string literal alone the count of its bytes, without the zero behind them.
    pub text: Option<u64>,
}

/// An argument of a call with its node.
#[derive(Clone, Copy)]
pub struct Argument {
    pub at: At,
    pub typed: Typed,
}
