//! What ends where the next token has no part in it: items, declarations, initialisers and enumerators.
#![tactic(auto)]

mod enumerator;
mod item;

pub use enumerator::{add_enumerator, close_enum, enumerator_end};
pub use item::{close_item, init_next, item_next, items_done};
