//! The two forms of entry points.

/// How an allocation call carries its token: the two forms of Clang's manual on allocation tokens.
#[derive(Clone, Copy, Debug, PartialEq, Eq)]
pub enum Abi {
    /// As the last argument.
    Standard,
    /// In the name of the function that it calls.
    Fast,
}
