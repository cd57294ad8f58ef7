//! One hole.

/// A run of free units that no free unit touches, in units of 16 bytes.
#[derive(Clone, Copy, Debug, PartialEq, Eq)]
pub struct Hole {
    pub start: u32,
    pub len: u32,
}
