//! The laws: an empty function whose contract states them.

ghost use Rattle.site_examples.specs.Laws.{SizesAsWanted, ValuesAsWanted, CallsAsWanted, UntaggedAsWanted, MarksAsWanted, SpellingsAsWanted, PageAsWanted};

/// What is found of the calls and the builtins of each unit of the tables is what the table says.
pub fn all_units_have_what_is_wanted()
    ensures sizes { SizesAsWanted }
    ensures values { ValuesAsWanted }
    ensures calls { CallsAsWanted }
    ensures untagged { UntaggedAsWanted }
    ensures marks { MarksAsWanted }
    ensures spellings { SpellingsAsWanted }
    ensures page { PageAsWanted }
{}
