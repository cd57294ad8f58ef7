//! Making a token, and how reading a text may end without tokens.

ghost use Rattle.std.specs.Prelude.{◌+◌, ◌<◌, ◌^◌, length, IfOk};
ghost use Rattle.c_lexer.specs.Answer.{IsTokenOf};

use std::alloc::{AllocError, Global};
use thiserror::Error;
use tok_base::{Items, Kind, Span, Token};

/// Why a text gives no tokens.
#[derive(Clone, Copy, Debug, PartialEq, Eq, Error)]
pub enum LexEnd {
    /// The text before this byte is separators and tokens, and neither begins here.
    #[error("neither a separator nor a token begins at byte {0}")]
    Bad(u32),
    /// There was no memory.
    #[error("out of memory")]
    NoMemory,
}

impl From<AllocError> for LexEnd {
    ghost use Rattle.std.specs.Prelude.{◌≡◌};
    ghost use Rattle.c_lexer.specs.declared.token.LexEnd.TheVariants.{NoMemory};

    ghost from_gives = { λ _ e. e ≡ NoMemory };

    fn from(_: AllocError) -> LexEnd {
        LexEnd::NoMemory
    }
}

pub fn make_token(alloc: Global, kind: Kind, start: usize, w: &[u8]) -> Result<Token, AllocError>
    requires { start + length w.now < 2 ^ 32 }
    ensures { IfOk result (λ t. IsTokenOf t kind start w.now) }
{
    let text = Items::from_slice(alloc, w)?;
    let span = Span {
        start: start as u32,
        end: (start + w.len()) as u32,
    };
    Ok(Token { kind, span, text })
}
