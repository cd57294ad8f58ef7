//! Worked rows by computation.

ghost use Rattle.signature_laws.specs.Rows.{ExampleRows};

/// Spellings of function types and what is read from them.
pub fn some_examples()
    ensures { ExampleRows }
{}
