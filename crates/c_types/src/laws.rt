//! Laws of the definitions.

ghost use Rattle.c_types.specs.RecordSteps.{EmptyHasMemberTypes, RecordsStay, RecordIsDeclared, RecordIsFinished, MembersAreSeen, NamesAreSeen};
ghost use Rattle.c_types.specs.Sameness.{SameNumbers};

/// Canonical numbers are equal exactly where the canonical types are.
pub fn same_numbers_law()
    ensures { SameNumbers }
{}

/// What the calls of a table do to its records, their members' types as trees, by the clauses of those
/// calls: `add` and `declare_enum` keep them, `declare_record` adds one, and `finish_record` gives it its
/// members; what `members` and `member` tell is told of these.
pub fn records_law()
    ensures empty { EmptyHasMemberTypes }
    ensures stay { RecordsStay }
    ensures declared { RecordIsDeclared }
    ensures finished { RecordIsFinished }
    ensures members { MembersAreSeen }
    ensures names { NamesAreSeen }
{}
