//! Laws of the definitions, and worked rows.

ghost use Rattle.c_constants.specs.Laws.{DecimalValues, OctalValues, HexadecimalValues, SuffixesTold, LiteralValues};
ghost use Rattle.c_constants.specs.Rows.{IntegerRows, LiteralRows};

/// An integer constant has the value, the base and the suffix of the grammar.
pub fn integers_law()
    ensures decimal { DecimalValues }
    ensures octal { OctalValues }
    ensures hexadecimal { HexadecimalValues }
    ensures suffixes { SuffixesTold }
{}

/// A literal has the bytes that it denotes.
pub fn literals_law()
    ensures { LiteralValues }
{}

/// What the definitions give at some constants and literals.
pub fn some_examples()
    ensures integers { IntegerRows }
    ensures literals { LiteralRows }
{}
