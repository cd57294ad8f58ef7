//! Where bytes are written to.

ghost use Rattle.std.specs.Prelude.{◌≡◌, ◌≢◌, ℕ, ◌≤◌, List, [], Option, Ok, length, IfOk};
ghost use Rattle.std.specs.Io.KnownBytes.{WriteAppends};
ghost use Rattle.tok_base.specs.Fault.{HasCause};
ghost use Rattle.tok_base.specs.Sink.{WritesWhole};

use crate::list::{Failed, behind};
use thiserror::Error;

/// Why a text was not written whole.
#[derive(Debug, Drop, Error)]
pub enum WriteEnd {
    #[error("a write failed")]
    Fault,
}

/// Takes bytes, in order.
pub trait Sink {
    /// The bytes written so far, where the sink tells them.
    ghost written: { Self → Option (List ℕ) };

    /// How often a write has failed. It never falls.
    ghost faults: { Self → ℕ };

    /// Takes a front of the bytes, and says how long it is: at least one byte of a piece that is not empty.
    /// A write that fails takes nothing.
    fn write(&mut self, bytes: &[u8]) -> Result<usize, Failed>
        ensures bound { IfOk result (λ n. n ≤ length bytes.now) }
        ensures progress { IfOk result (λ n. bytes.now ≢ [] → 1 ≤ n) }
        ensures empty { bytes.now ≡ [] → result ≡ Ok 0 }
        ensures bytes { WriteAppends (written self.old) (written self.new) result bytes.now }
        ensures cause { HasCause (faults self.old) (faults self.new) result };
}

/// Writes all the bytes. After a fault a front of them was written. Takes no memory.
pub fn write_whole<S: Sink>(sink: &mut S, bytes: &[u8]) -> Result<(), WriteEnd>
    ensures bytes { WritesWhole (S.written sink.old) (S.written sink.new) result bytes.now }
    ensures cause { HasCause (S.faults sink.old) (S.faults sink.new) result }
{
    let mut done = 0;
    while done < bytes.len() {
        match sink.write(behind(bytes, done)) {
            Ok(count) => done += count,
            Err(Failed) => return Err(WriteEnd::Fault),
        }
    }
    Ok(())
}
