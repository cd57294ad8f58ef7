//! How many addresses a block takes.

ghost use Rattle.std.specs.Prelude.{◌≡◌, ◌<◌, ◌^◌};
ghost use Rattle.block_memory.specs.Rooms.{room as room_for};

use c_core::BlockKind;

/// How many addresses a block takes: its bytes, rounded up to a positive multiple of 16; none where it is a
/// fixed object of 0 bytes.
pub fn room(kind: BlockKind, size: u64) -> u64
    requires { size < 2 ^ 62 }
    ensures { result ≡ room_for kind size }
{
    if kind == BlockKind::Fixed && size == 0 {
        0
    } else {
        16 * ((size + 15) / 16).max(1)
    }
}
