//! Laws of the definitions: empty functions whose contracts state them.

ghost use Rattle.std.specs.Prelude.{◌≡◌, ℕ, ◌<◌, ◌^◌, true, List, [], ◌++◌, All, flat_map, codes};
ghost use Rattle.std.specs.Fmt.{decimal};
ghost use Rattle.c_lexer.specs.Printed.{Written, AreTokens, print, placed};
ghost use Rattle.c_lexer.specs.Lexeme.{IsLexeme, LexesTo};
ghost use Rattle.c_lexer.specs.Lines.{text_of_lines};
ghost use Rattle.c_lexer.specs.Plain.{are_plain};
ghost use Rattle.c_lexer.specs.Place.{StandsIn};
ghost use Rattle.c_lexer.specs.Token.{IsToken};
ghost use Rattle.c_lexer.specs.Number.{IsConstant, is_suffix};
ghost use Rattle.c_lexer.specs.Joined.{NoneCross};
ghost use Rattle.c_lexer.specs.Cut.{Spot, Cuts, begin, Lexes, IsBad};
ghost use Rattle.c_lexer.specs.Value.{Denotes};
ghost use Rattle.tok_base.specs.declared.token.Token.{Token};
ghost use Rattle.tok_base.specs.declared.token.Lexeme.{Lexeme};

use tok_base::Kind;

/// Tokens that are written with a space or LF behind each are read as these tokens, at these places.
pub fn print_law()
    ensures { (xs : List Written) → AreTokens xs → Lexes (print xs) (placed 0 xs) }
{}

/// A text is at most one list of tokens, or is bad at one place.
pub fn one_way()
    ensures tokens { (bytes : List ℕ) (ts us : List Token) → Lexes bytes ts → Lexes bytes us → ts ≡ us }
    ensures lexemes { (bytes : List ℕ) (ls ms : List Lexeme) → LexesTo bytes ls → LexesTo bytes ms → ls ≡ ms }
    ensures place { (bytes : List ℕ) (p q : ℕ) → IsBad bytes p → IsBad bytes q → p ≡ q }
    ensures apart { (bytes : List ℕ) (p : ℕ) (ts : List Token) → IsBad bytes p → Lexes bytes ts → ⊥ }
{}

/// A literal stands for one list of bytes.
pub fn one_value()
    ensures { (q : ℕ) (w a b : List ℕ) → (q ≡ 92 → ⊥) → Denotes q w a → Denotes q w b → a ≡ b }
{}

/// Two texts lex together as they do one after the other, where no piece of the first reaches into the second.
pub fn join_law()
    ensures { (x y : List ℕ) (ts us : List Token) (a b : Spot) → NoneCross x y → Cuts (begin x) ts a → a.rest ≡ [] → Cuts (record { at = a.at; lead = a.lead; rest = y }) us b → Cuts (begin (x ++ y)) (ts ++ us) b }
{}

/// Lines of tokens, written with one space between two and LF behind the last of a line, are read as these tokens.
pub fn lines_law()
    ensures { (lines : List (List Lexeme)) → All (All IsLexeme) lines → LexesTo (text_of_lines lines) (flat_map (λ line. line) lines) }
{}

/// The tokens of a text are tokens of C, and stand where their spans say.
pub fn tokens_law()
    ensures kinds { (text : List ℕ) (ts : List Token) → Lexes text ts → All (λ t. IsToken t.kind t.text) ts }
    ensures places { (text : List ℕ) (ts : List Token) → Lexes text ts → All (StandsIn text) ts }
{}

/// A number below 2 ^ 64, written in decimal and with a suffix or none, is an integer constant.
pub fn decimal_law()
    ensures constant { (n : ℕ) (s : List ℕ) → n < 2 ^ 64 → is_suffix s ≡ true → IsConstant (decimal n ++ s) }
    ensures unsigned_long { (n : ℕ) → n < 2 ^ 64 → IsToken Kind.Number (decimal n ++ codes "UL") }
{}

/// Names, words and marks that pass the test are tokens of C.
pub fn plain_law()
    ensures { (ls : List Lexeme) → are_plain ls ≡ true → All IsLexeme ls }
{}
