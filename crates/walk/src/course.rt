//! How a walk stands.

/// How a walk stands after a step.
#[derive(Clone, Copy)]
pub enum Course {
    /// It goes on.
    Underway,
    /// A move leads to the goal: the move `by`, from the state at the place `from`.
    Found { from: usize, by: u8 },
    /// A state must be listed, and no place is left.
    Full,
}
