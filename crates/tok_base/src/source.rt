//! Where bytes are read from, in order.

ghost use Rattle.std.specs.Prelude.{◌≡◌, ℕ, ◌≤◌, List, [], Option, Ok, length, IfOk};
ghost use Rattle.std.specs.Io.KnownBytes.{ReadConsumes};
ghost use Rattle.std.specs.Io.{ReadsAtMost};
ghost use Rattle.tok_base.specs.Fault.{HasCause};
ghost use Rattle.tok_base.specs.Source.{ReadsWhole, Raises};

use crate::files::ReadEnd;
use crate::list::{Bytes, Failed};
use sqlite_items::Items;
use std::alloc::Global;

/// How many bytes `read_whole` asks for at a time.
const PIECE: usize = 4096;

/// Gives bytes, in order.
pub trait Source {
    /// The bytes that are left, where the source tells them.
    ghost rest: { Self → Option (List ℕ) };

    /// How often a read has failed. It never falls.
    ghost faults: { Self → ℕ };

    /// Moves a front of the rest into the front of the buffer, and says how long it is. None is moved into a
    /// buffer that is not empty only where none is left. A read that fails moves nothing.
    fn read(&mut self, buf: &mut [u8]) -> Result<usize, Failed>
        ensures bound { ReadsAtMost result buf.new }
        ensures empty { buf.old ≡ [] → result ≡ Ok 0 }
        ensures bytes { ReadConsumes (rest self.old) (rest self.new) result buf.new }
        ensures cause { HasCause (faults self.old) (faults self.new) result };
}

/// All bytes that are left, if they are at most `limit`. After an error a front of them was taken.
pub fn read_whole<S: Source>(alloc: Global, source: &mut S, limit: u64) -> Result<Bytes, ReadEnd>
    ensures limit { IfOk result (λ bytes. length bytes ≤ limit) }
    ensures bytes { ReadsWhole (S.rest source.old) (S.rest source.new) limit result }
    ensures later { S.faults source.old ≤ S.faults source.new }
    ensures cause { Raises (S.faults source.old) (S.faults source.new) result }
{
    let mut bytes = Vec::new(alloc);
    let mut piece = [0; PIECE];
    loop {
        match source.read(&mut piece) {
            Ok(0) => return Ok(Items::from_vec(bytes)),
            Ok(count) if (bytes.len() + count) as u64 > limit => return Err(ReadEnd::TooLong),
            Ok(count) => {
                if bytes.extend_from_slice(&piece[..count]).is_err() {
                    return Err(ReadEnd::NoMemory);
                }
            }
            Err(Failed) => return Err(ReadEnd::Fault),
        }
    }
}
