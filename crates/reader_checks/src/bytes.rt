//! The bytes that a text with escapes stands for.

use std::alloc::{AllocError, Global};

/// What the next byte of the text is.
#[derive(Clone, Copy)]
enum Next {
    Plain,
    /// Behind a `\`.
    Escape,
    /// The first digit behind `\x`.
    High,
    /// The second, with the first one's value.
    Low(u8),
    /// A digit of a count, or the byte that is so many times there.
    Count(u32),
}

fn digit(byte: u8) -> u8 {
    match byte {
        b'0'..=b'9' => byte - b'0',
        b'a'..=b'f' => byte - b'a' + 10,
        _ => 0,
    }
}

fn escaped(out: &mut Vec<u8>, byte: u8) -> Result<Next, AllocError> {
    match byte {
        b'x' => return Ok(Next::High),
        b'*' => return Ok(Next::Count(0)),
        b'n' => out.push(b'\n')?,
        _ => out.push(byte)?,
    }
    Ok(Next::Plain)
}

fn counted(out: &mut Vec<u8>, count: u32, byte: u8) -> Result<Next, AllocError> {
    if byte.is_ascii_digit() {
        let value = digit(byte) as u32;
        return Ok(Next::Count(count.wrapping_mul(10).wrapping_add(value)));
    }
    for _ in 0..count {
        out.push(byte)?;
    }
    Ok(Next::Plain)
}

fn take(out: &mut Vec<u8>, next: Next, byte: u8) -> Result<Next, AllocError> {
    match next {
        Next::Plain if byte == b'\\' => return Ok(Next::Escape),
        Next::Plain => out.push(byte)?,
        Next::Escape => return escaped(out, byte),
        Next::High => return Ok(Next::Low(digit(byte))),
        Next::Low(high) => out.push(high.wrapping_mul(16).wrapping_add(digit(byte)))?,
        Next::Count(count) => return counted(out, count, byte),
    }
    Ok(Next::Plain)
}

/// The bytes of a case's text.
pub fn bytes_of(alloc: Global, text: &str) -> Result<Vec<u8>, AllocError> {
    let mut out = Vec::new(alloc);
    let mut next = Next::Plain;
    for byte in text.as_bytes() {
        next = take(&mut out, next, *byte)?;
    }
    Ok(out)
}
