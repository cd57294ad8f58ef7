//! Where a worker can be held up around its turn.

/// Told of a worker's event before the event asks for its turn, and again while it holds it. A gate tells
/// nothing back; it may wait.
pub trait Gate {
    /// The event of this worker is about to ask for its turn.
    fn before(&self, worker: u32, event: u32);

    /// The event of this worker holds its turn.
    fn inside(&self, worker: u32, event: u32);
}

/// A gate that holds nobody up.
#[derive(Clone, Copy, Debug)]
pub struct NoGate;

impl Gate for NoGate {
    fn before(&self, _worker: u32, _event: u32) {}

    fn inside(&self, _worker: u32, _event: u32) {}
}
