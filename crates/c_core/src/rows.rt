//! Laws of the definitions, and worked rows by computation: empty functions whose contracts state them.

ghost use Rattle.c_core.specs.Forms.{ExpressionsAreSeen, StatementsAreSeen};
ghost use Rattle.c_core.specs.SignatureRows.{SignatureRows};
ghost use Rattle.c_core.specs.Rows.{CopyRows, KillRows, LoadRows, ValueRows};

/// Each form in memory is seen as the form of the plain tree with its name and parts.
pub fn each_form_is_seen()
    ensures expressions { ExpressionsAreSeen }
    ensures statements { StatementsAreSeen }
{}

/// What the definitions of access give on small blocks.
pub fn some_examples()
    ensures values { ValueRows }
    ensures loads { LoadRows }
    ensures copies { CopyRows }
    ensures kills { KillRows }
{}

/// What functions take and give, by the spelling of their types.
pub fn signature_examples()
    ensures { SignatureRows }
{}
