//! The lexis of C (ISO/IEC 9899:2018, 6.4): which bytes are separators, which spell a token, and how a text is
//! these in turn, each the longest.
//!
//! The call is `lex`. It meets `Lexes` and `IsBad` of specs/Cut.antt: the tokens of the text, with their spans, or the one
//! place at which neither a separator nor a token begins. specs/Lexeme.antt has the tokens apart from their places, and
//! specs/Lines.antt the text of lines of tokens; the laws on these definitions are the contracts of promises.rt.
#![tactic(auto)]

mod bytes;
mod constant;
mod lexer;
mod literal;
mod piece;
mod promises;
mod separator;
mod spelling;
mod token;

pub use lexer::lex;
pub use promises::{
    decimal_law, join_law, lines_law, one_value, one_way, plain_law, print_law, tokens_law,
};
pub use token::LexEnd;
