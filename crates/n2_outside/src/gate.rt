//! Gates: what a test sees of the threads that ask for the bus.

/// What is called as actors ask for the bus, each from its own thread. A gate answers nothing, so it
/// can hold threads up, and no run depends on what it does.
pub trait Gate {
    /// An actor is about to ask for the lock.
    fn before(&self, actor: u32);

    /// An actor holds the lock.
    fn inside(&self, actor: u32);

    /// An actor has made 64 turns in a row without a transfer, and so many turns in all.
    fn local(&self, actor: u32, turns: u64);
}

/// A gate that does nothing.
#[derive(Clone, Copy, Debug, PartialEq, Eq)]
pub struct OpenGate;

impl OpenGate {
    /// A gate that holds nobody up.
    pub fn new() -> OpenGate {
        OpenGate
    }
}

impl Gate for OpenGate {
    fn before(&self, _actor: u32) {}

    fn inside(&self, _actor: u32) {}

    fn local(&self, _actor: u32, _turns: u64) {}
}
