//! The types of functions that are known by name.

/// A type in a signature.
#[derive(Clone, Copy, Debug, PartialEq, Eq)]
pub enum Part {
    Void,
    Int,
    /// `unsigned long`
    Size,
    /// `void *`
    Pointer,
    /// `const void *`
    ConstPointer,
    /// `const char *`
    ConstText,
}

/// The parameters of a signature.
#[derive(Clone, Copy, Debug, PartialEq, Eq)]
pub enum Parameters {
    Zero,
    One(Part),
    Two(Part, Part),
    Three(Part, Part, Part),
}

/// The type of a function.
#[derive(Clone, Copy, Debug, PartialEq, Eq)]
pub struct Signature {
    pub returned: Part,
    pub parameters: Parameters,
}
