//! Laws of signatures: empty functions whose contracts state them.

ghost use Rattle.signature_laws.specs.Laws.{EverySignatureIsRead, SignatureIsRead, UnnamedIsName};
ghost use Rattle.signature_laws.specs.Tables.{TypesAreNamed};

/// The signature that is read from the spelling of a function type is what the type takes and gives, where
/// it gives nothing or a scalar and takes scalars.
pub fn signature_is_read()
    ensures { SignatureIsRead }
{}

/// What is read from the spelling of any function type.
pub fn every_signature_is_read()
    ensures { EverySignatureIsRead }
{}

/// The words for a type without a name are a name in the sense of the laws' premise.
pub fn unnamed_is_name()
    ensures { UnnamedIsName }
{}

/// The names in a table's types are those that its records and enumerations were declared with, by what the
/// table's `term` says of each type: so a caller that declares good names only has the laws' premise.
pub fn types_are_named()
    ensures { TypesAreNamed }
{}
