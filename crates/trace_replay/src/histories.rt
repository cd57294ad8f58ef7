//! What a replay comes to.

use range_heap::HeapCall;
use tok_base::Items;
use token_modes::Mode;

/// The history of each range. The first range begins at the address `first`, each has `size` addresses.
#[derive(Drop)]
pub struct Histories {
    pub first: u64,
    pub size: u32,
    pub mode: Mode,
    pub ranges: Items<Items<HeapCall>>,
}
