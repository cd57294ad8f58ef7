//! How names are declared, and what they are bound to.

/// What an ordinary identifier names (ISO/IEC 9899:2018, 6.2.3). Objects and functions have numbers in the order of
/// their first declarations.
#[derive(Clone, Copy, Debug, PartialEq, Eq)]
pub enum Sort {
    /// An object or a parameter by its number, and whether it has static storage and is defined in the
    /// unit (6.2.4).
    Object(u32, bool),
    Function(u32),
    /// A constant of an enumeration, by its value.
    Enumerator(i32),
    /// A typedef name.
    Alias,
}

/// What a name in an expression, or a declared name, is bound to.
#[derive(Clone, Copy, Debug, PartialEq, Eq)]
pub enum Binding {
    Object(u32),
    Function(u32),
    Enumerator(i32),
    /// A function of the library, by its number.
    Library(u32),
}

/// What a tag names (6.2.3).
#[derive(Clone, Copy, Debug, PartialEq, Eq)]
pub enum TagSort {
    Struct,
    Union,
    Enumeration,
}

/// The value of a constant, as it stands before it is converted (6.6).
#[derive(Clone, Copy, Debug, PartialEq, Eq)]
pub enum ConstantValue {
    Number(i128),
    Null,
    Function(Binding),
    /// So many bytes into the object with a number.
    Object(u32, i64),
    /// A string literal, by the number of its node.
    Text(u32),
}

/// What a declarator declares (6.7).
#[derive(Clone, Copy, Debug, PartialEq, Eq)]
pub enum Declares {
    /// A typedef name, or the type of a type name.
    Type,
    Object,
    Function,
    /// A member of a struct or union.
    Member,
}

/// What has specifiers: a declaration at file scope or in a block, a definition, or a field, a parameter or
/// a type name.
#[derive(Clone, Copy, Debug, PartialEq, Eq)]
pub enum Holder {
    FileDeclaration,
    BlockDeclaration,
    Definition,
    Part,
}
