//! What a token does in a statement without a specifier or an expression: it begins or ends a block, it is the
//! head of a statement or its semicolon, or it stands behind a whole statement. So it rests on the stack alone.
#![tactic(auto)]

mod on_block;

pub use on_block::{
    Whole, block_begin, close_block, do_next, else_begin, empty_stmt, end_for, end_if, end_if_else,
    end_while, for_body, for_next, head_begin, is_else, return_done, semi_next, with_stmt,
};
