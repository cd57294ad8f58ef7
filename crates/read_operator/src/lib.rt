//! What a token does behind an expression that it goes on with or whose bracket it closes, where no other
//! specifier or expression begins with it. So it rests on the stack alone.
#![tactic(auto)]

mod on_operator;

pub use on_operator::{
    builtin_next, close_array, close_bracket, empty_call, member_next, more_text, take,
};
