//! What a text is, in words.

ghost use Rattle.std.specs.Prelude.{All};
ghost use Rattle.c_lexer.specs.Token.{IsToken};

use c_held as held;
use c_lexer::{LexEnd, lex};
use c_parser::{ParseEnd, parse};
use c_printer::print_unit;
use c_tree::{Unit, spell_tree};
use std::alloc::{AllocError, Global};
use std::fmt::Write;
use std::str;
use tok_base::{Items, Token};

/// The most bytes of a text, and the most tokens of a unit.
const LIMIT: usize = 1048576;

fn bad(alloc: Global, end: LexEnd) -> Result<String, AllocError> {
    match end {
        LexEnd::Bad(place) => format!(in alloc; "bad character at {place}"),
        LexEnd::NoMemory => String::from_str(alloc, "no memory"),
    }
}

fn spans(alloc: Global, tokens: &Items<Token>) -> Result<String, AllocError> {
    if tokens.is_empty() {
        return String::from_str(alloc, "no token");
    }
    let mut out = String::new(alloc);
    for t in tokens.as_slice() {
        if !out.is_empty() {
            out.push(' ')?;
        }
        write!(out, "{:?} {}-{}", t.kind, t.span.start, t.span.end)?;
    }
    Ok(out)
}

/// The tokens of the text with their spans, or the place where it goes wrong.
pub fn tokens_of(alloc: Global, text: &[u8]) -> Result<String, AllocError> {
    if text.len() > LIMIT {
        return String::from_str(alloc, "too long");
    }
    match lex(alloc, text) {
        Ok(tokens) => spans(alloc, &tokens),
        Err(end) => bad(alloc, end),
    }
}

fn refused(alloc: Global, end: ParseEnd) -> Result<String, AllocError> {
    match end {
        ParseEnd::Syntax(place) => format!(in alloc; "syntax at token {place}"),
        ParseEnd::TooDeep => String::from_str(alloc, "too deep"),
        ParseEnd::NoMemory => String::from_str(alloc, "no memory"),
    }
}

fn printed(alloc: Global, unit: &Unit) -> Result<String, AllocError> {
    let (Ok(tokens), Ok(text)) = (spell_tree(alloc, unit), print_unit(alloc, unit)) else {
        return String::from_str(alloc, "no memory");
    };
    let count = tokens.len();
    match str::from_utf8(text.as_slice()) {
        Ok(text) => format!(in alloc; "{count} tokens\n{text}"),
        Err(_) => String::from_str(alloc, "no text"),
    }
}

fn read(alloc: Global, tokens: &Items<Token>) -> Result<String, AllocError>
    requires { All (λ t. IsToken t.kind t.text) tokens.now }
{
    if tokens.len() > LIMIT {
        return String::from_str(alloc, "too long");
    }
    match parse(alloc, tokens) {
        Ok(unit) => {
            let unit = held::Unit::new(unit);
            printed(alloc, unit.get())
        }
        Err(end) => refused(alloc, end),
    }
}

/// The text of the unit as it is printed, or why the text is no unit's.
pub fn unit_of(alloc: Global, text: &[u8]) -> Result<String, AllocError> {
    if text.len() > LIMIT {
        return String::from_str(alloc, "too long");
    }
    match lex(alloc, text) {
        Ok(tokens) => read(alloc, &tokens),
        Err(end) => bad(alloc, end),
    }
}
