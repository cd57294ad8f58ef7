//! What a declarator makes.

use c_types::TypeId;

/// The type that a declarator makes.
#[derive(Clone, Copy)]
pub struct Made {
    pub ty: TypeId,
    /// Whether its functions keep rule 6.
    pub is_callable: bool,
    /// Whether its arrays keep rule 8: no element is a struct that ends without a length.
    pub is_closed: bool,
}

/// What would be made of a declarator with a bad length, or of 2^28 bytes or more.
#[derive(Clone, Copy)]
pub struct Oversized {
    /// Whether it would have a size.
    pub has_size: bool,
    /// Whether it would be an array without a length.
    pub is_flexible: bool,
}

/// What a declarator makes.
#[derive(Clone, Copy)]
pub enum Built {
    Made(Made),
    /// An array of elements without a size stands in it, which breaks rule 4: there is no such type.
    Incomplete,
    /// All elements have sizes, but an array breaks rule 5: there is no such type.
    Oversized(Oversized),
}
