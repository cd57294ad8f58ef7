//! Room in the region of objects.

ghost use Rattle.std.specs.Prelude.{◌≡◌, ◌+◌, ◌-◌, ◌≤◌, nat_le, OnOk, if◌then◌else◌};
ghost use Rattle.range_heap.specs.Blocks.{rounded};

use block_memory::room;
use c_core::BlockKind;
use machine_frames::Rest;
use tok_base::NoMemory;

/// The region's bytes.
const REGION: u32 = 4194304;

/// Takes so many bytes, if they are left.
pub fn take_bytes(rest: &mut Rest, bytes: u64) -> bool
    ensures result { result ≡ nat_le bytes rest.old.room }
    ensures rest { rest.new ≡ (if nat_le bytes rest.old.room then record (rest.old) { room = rest.old.room - bytes } else rest.old) }
{
    if bytes <= u64::from(rest.room) {
        rest.room -= bytes as u32;
        true
    } else {
        false
    }
}

/// Takes the room of an object, if it is left.
pub fn take_room(rest: &mut Rest, size: u64) -> bool
    requires { rest.old.room ≤ 4194304 }
    ensures result { result ≡ nat_le (rounded size) rest.old.room }
    ensures rest { rest.new ≡ (if nat_le (rounded size) rest.old.room then record (rest.old) { room = rest.old.room - rounded size } else rest.old) }
{
    if size > u64::from(REGION) {
        return false;
    }
    take_bytes(rest, room(BlockKind::Auto, size))
}

/// Gives so many bytes back.
pub fn give_bytes(rest: &mut Rest, bytes: u64) -> Result<(), NoMemory>
    requires { rest.old.room ≤ 4194304 }
    ensures rest { OnOk result (rest.new ≡ record (rest.old) { room = rest.old.room + bytes }) }
    ensures most { rest.new.room ≤ 4194304 }
    ensures kept { rest.new.log.items ≡ rest.old.log.items }
{
    if bytes > u64::from(REGION - rest.room) {
        return Err(NoMemory);
    }
    rest.room += bytes as u32;
    Ok(())
}

/// Gives the room of an object back.
pub fn give_room(rest: &mut Rest, size: u64) -> Result<(), NoMemory>
    requires { rest.old.room ≤ 4194304 }
    ensures rest { OnOk result (rest.new ≡ record (rest.old) { room = rest.old.room + rounded size }) }
    ensures most { rest.new.room ≤ 4194304 }
    ensures kept { rest.new.log.items ≡ rest.old.log.items }
{
    if size > u64::from(REGION) {
        return Err(NoMemory);
    }
    give_bytes(rest, room(BlockKind::Auto, size))?;
    Ok(())
}
