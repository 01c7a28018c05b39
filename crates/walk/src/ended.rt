//! How a walk has ended.

/// How a walk has ended that was not refused.
#[derive(Clone, Copy, Debug, PartialEq, Eq)]
pub enum Ended {
    /// With a plan of so many moves, which lie at the front of its buffer; so many states are listed.
    Plan { states: usize, length: usize },
    /// Without a plan: every listed state was taken.
    NoPlan { states: usize },
}
