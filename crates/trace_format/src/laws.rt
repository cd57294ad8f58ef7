//! What follows from the definitions alone. These functions do nothing: each states a law.

ghost use Rattle.trace_format.specs.Examples.{Examples};
ghost use Rattle.trace_format.specs.Laws.{ReadBack};

/// The text of a well-formed trace is read as that trace.
pub fn texts_are_read_back()
    ensures { ReadBack }
{}

/// The definitions give the worked examples.
pub fn trace_examples()
    ensures { Examples }
{}
