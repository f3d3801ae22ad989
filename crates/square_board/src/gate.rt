//! What a worker passes on its way to a square.

/// What is called with each square that a worker has taken, before the worker makes it. It is called outside of the turn,
/// and what it does is in no contract.
pub trait Gate {
    /// A worker has taken the square in row `s` and of degree `t`, and goes on to make it when this returns.
    fn entered(&self, s: u16, t: i32);
}

/// A gate that does nothing.
#[derive(Clone, Copy, Debug, Drop)]
pub struct OpenGate;

impl Gate for OpenGate {
    fn entered(&self, _s: u16, _t: i32) {}
}
