//! Worked rows, by computation.

ghost use Rattle.c_types.specs.Rows.{SpellingRows, LayoutRows, PointerRows};

/// What the definitions give at some types.
pub fn some_examples()
    ensures spellings { SpellingRows }
    ensures layouts { LayoutRows }
    ensures pointers { PointerRows }
{}
