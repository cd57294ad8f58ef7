//! A call by its words, as `store 0 8 long 5` or `copy 0 0 0 8 4 apart`.

use crate::call::Call;
use c_core::{BlockKind, Cell, Pointer, Scalar};
use num_ops::IntKind;

fn number(word: &str) -> u64 {
    word.parse::<u64>().unwrap_or(0)
}

fn small(word: &str) -> u32 {
    word.parse::<u32>().unwrap_or(0)
}

fn byte(word: &str) -> u8 {
    word.parse::<u8>().unwrap_or(0)
}

/// A pointer takes two words.
fn pointer(first: &str, second: &str) -> Pointer {
    match first {
        "null" => Pointer::Null,
        "function" => Pointer::Function(small(second)),
        _ => Pointer::Object(small(first), number(second)),
    }
}

fn block_kind(word: &str) -> BlockKind {
    match word {
        "fixed" => BlockKind::Fixed,
        "literal" => BlockKind::ReadOnly,
        "auto" => BlockKind::Auto,
        _ => BlockKind::Heap,
    }
}

fn int_kind(word: &str) -> IntKind {
    match word {
        "bool" => IntKind::Bool,
        "char" => IntKind::Char,
        "uchar" => IntKind::UChar,
        "short" => IntKind::Short,
        "int" => IntKind::Int,
        "uint" => IntKind::UInt,
        "ulong" => IntKind::ULong,
        _ => IntKind::Long,
    }
}

fn scalar(word: &str) -> Scalar {
    match word {
        "pointer" => Scalar::Ptr,
        _ => Scalar::Int(int_kind(word)),
    }
}

/// The call that a line's words name, if they name one.
pub fn call_of(words: &[&str; 8]) -> Option<Call> {
    let p = pointer(words[1], words[2]);
    match words[0] {
        "place" => Some(Call::Place(block_kind(words[1]), number(words[2]), number(words[3]))),
        "load" => Some(Call::Load(p, scalar(words[3]))),
        "store" => Some(Call::StoreInt(p, int_kind(words[3]), number(words[4]))),
        "point" => Some(Call::StorePointer(p, pointer(words[3], words[4]))),
        "copy" => Some(Call::Copy(
            p,
            pointer(words[3], words[4]),
            number(words[5]),
            words[6] == "moving",
        )),
        "fill" => Some(Call::Fill(p, byte(words[3]), number(words[4]))),
        "kill" => Some(Call::Kill(small(words[1]))),
        "init" => Some(Call::Init(
            small(words[1]),
            number(words[2]),
            Cell::Byte(byte(words[3])),
        )),
        _ => None,
    }
}
