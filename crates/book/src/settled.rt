//! What is told of a settle.

/// How many rows a settle added, and how many rounds it took.
#[derive(Clone, Copy, Debug, PartialEq, Eq)]
pub struct Settled {
    pub added: usize,
    pub rounds: usize,
}
