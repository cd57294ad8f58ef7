//! Worked rows, by computation.

ghost use Rattle.num_ops.specs.Rows.{ConversionRows, ArithmeticRows, ShiftRows, ConstantRows};

/// What the definitions give at some numbers of the standard's own ranges.
pub fn some_examples()
    ensures conversions { ConversionRows }
    ensures arithmetic { ArithmeticRows }
    ensures shifts { ShiftRows }
    ensures constants { ConstantRows }
{}
