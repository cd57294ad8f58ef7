//! Laws of the definitions: empty functions whose contracts state them.

ghost use Rattle.c_tree.specs.Examples.{AttributesAre, DeclaratorsAre, DepthsAre, ExpressionsAre, PlacesAre, StatementsAre, TypedefNamesAre};
ghost use Rattle.c_tree.specs.Laws.{LexemesAreKept, LexemesAreTold, PiecesAreTokens, TokensAreTold};

/// The tokens of the grammar are the kinds and texts of the lexis.
pub fn lexeme_law()
    ensures tokens { TokensAreTold }
    ensures lexemes { LexemesAreKept }
    ensures all { LexemesAreTold }
{}

/// The definitions, computed on small units.
pub fn some_examples()
    ensures depths { DepthsAre }
    ensures declarators { DeclaratorsAre }
    ensures typedef_names { TypedefNamesAre }
    ensures statements { StatementsAre }
    ensures expressions { ExpressionsAre }
    ensures attributes { AttributesAre }
    ensures places { PlacesAre }
{}

/// A unit with its places and numbers spells what it spells without them.
pub fn pieces_law()
    ensures { PiecesAreTokens }
{}
