//! One piece of a text: a separator or a token.

ghost use Rattle.std.specs.Prelude.{◌≡◌};
ghost use Rattle.c_lexer.specs.Scan as scan;
ghost use Rattle.c_lexer.specs.Scan.{IsWithin};

use crate::constant::kind_of;
use crate::separator::separator_len;
use crate::spelling::spelling_len;
use tok_base::Kind;

#[derive(Clone, Copy, Debug)]
pub enum Piece {
    /// A separator of so many bytes.
    Skipped(usize),
    /// A token of this kind and so many bytes.
    Taken(Kind, usize),
    Neither,
}

fn opens_comment(rest: &[u8]) -> bool
    ensures { result ≡ scan.opens_comment rest.now }
{
    match rest {
        [a, b, ..] => *a == b'/' && *b == b'*',
        _ => false,
    }
}

fn token_at(rest: &[u8]) -> Piece
    ensures value { result ≡ scan.token_at (scan.spelling_len rest.now) rest.now }
    ensures within { IsWithin rest.now result }
{
    match spelling_len(rest) {
        Some(n) => match kind_of(&rest[..n]) {
            Some(kind) => Piece::Taken(kind, n),
            None => Piece::Neither,
        },
        None => Piece::Neither,
    }
}

/// The separator or token at the front, where lead says that only spaces and tabs stand before it in its line.
pub fn piece_of(lead: bool, rest: &[u8]) -> Piece
    ensures value { result ≡ scan.piece lead rest.now }
    ensures within { IsWithin rest.now result }
{
    match separator_len(lead, rest) {
        Some(n) => Piece::Skipped(n),
        None => {
            if opens_comment(rest) {
                Piece::Neither
            } else {
                token_at(rest)
            }
        }
    }
}
