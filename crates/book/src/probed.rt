//! What is told of a probe.

/// What a probe answers that was not refused.
#[derive(Clone, Copy, Debug, PartialEq, Eq)]
pub enum Probed {
    /// The state is dead. So many states were listed, so many rows added, and so many entries regained; all are 0 where the book called it dead at once.
    Dead {
        states: usize,
        rows: usize,
        entries: usize,
    },
    /// The state has a plan of so many moves, which lie at the front of the plan buffer; so many states were listed.
    Plan {
        states: usize,
        length: usize,
    },
}
