//! Tables of calls on the objects in memory and on the adapters over the real thing.
//! They stand in a crate of their own, so that the crates that they call are proved without them.
#![tactic(auto)]

ghost use Rattle.std.specs.Prelude.{◌≡◌, ◌++◌, true, false};
ghost use Rattle.tok_base.specs.Fault.{Rose};

use tok_base::{MemSink, write_whole};

/// Whether the sink took the whole piece.
pub fn takes_whole(sink: &mut MemSink, piece: &[u8]) -> bool
    ensures whole { result ≡ true → sink.new.written ≡ sink.old.written ++ piece.now }
    ensures cause { result ≡ false → Rose sink.old.faults sink.new.faults }
{
    write_whole(sink, piece).is_ok()
}

#[cfg(test)]
mod tests;
