//! The loop over a whole text.

ghost use Rattle.std.specs.Prelude.{◌≡◌, ℕ, ◌^◌, ◌<◌, ◌≤◌, take, drop, List, length, IfOk};
ghost use Rattle.c_lexer.specs.Cut.{Lexes, IsBad};
ghost use Rattle.c_lexer.specs.Answer.{Outcome, Gives, Refuses};
ghost use Rattle.tok_base.specs.declared.token.Token.{Token};

use crate::piece::{Piece, piece_of};
use crate::separator::leads_after;
use crate::token::{LexEnd, make_token};
use std::alloc::Global;
use tok_base::{Items, Token};

/// What follows the first bytes.
fn behind(text: &[u8], at: usize) -> &[u8]
    requires { at ≤ length text.now }
    ensures { result.now ≡ drop at text.now }
{
    &text[at..]
}

/// The first bytes.
fn front(rest: &[u8], n: usize) -> &[u8]
    requires { n ≤ length rest.now }
    ensures { result.now ≡ take n rest.now }
{
    &rest[..n]
}

/// Skips a separator or takes a token, as long as there are bytes.
fn cut(alloc: Global, text: &[u8]) -> Result<Items<Token>, LexEnd>
    requires { length text.now < 2 ^ 32 }
    ensures { Outcome text.now result }
{
    let mut tokens = Items::new(alloc);
    let mut lead = true;
    let mut at: usize = 0;
    while at < text.len() {
        let rest = behind(text, at);
        match piece_of(lead, rest) {
            Piece::Skipped(n) => {
                lead = leads_after(lead, front(rest, n));
                at += n;
            }
            Piece::Taken(kind, n) => {
                let bytes = front(rest, n);
                let token = make_token(alloc, kind, at, bytes)?;
                tokens.push(token)?;
                lead = leads_after(lead, bytes);
                at += n;
            }
            Piece::Neither => return Err(LexEnd::Bad(at as u32)),
        }
    }
    Ok(tokens)
}

/// The tokens of a C text: the kind, spelling and span in bytes of each, in the order of the text
/// (ISO/IEC 9899:2018, 6.4).
///
/// `Bad(p)` where the bytes before `p` are separators and tokens in turn, each the longest, and neither begins at `p`; a
/// comment or a literal that is open at the end is bad at its first byte. `NoMemory` where there was none.
pub fn lex(alloc: Global, text: &[u8]) -> Result<Items<Token>, LexEnd>
    requires { length text.now < 2 ^ 32 }
    ensures found { IfOk result (λ ts. Lexes text.now ts) }
    ensures only { (ts : List Token) → Lexes text.now ts → Gives ts result }
    ensures bad { (p : ℕ) → result ≡ Err (LexEnd.Bad p) → IsBad text.now p }
    ensures only_bad { (p : ℕ) → IsBad text.now p → Refuses p result }
    ensures within { (p : ℕ) → result ≡ Err (LexEnd.Bad p) → p < length text.now }
{
    cut(alloc, text)
}
