//! What comes of a command.
use orders::answer::Answer;
use refusal::Refusal;

/// What comes of a command behind the detector.
#[derive(Clone, Copy, Debug, PartialEq, Eq)]
pub enum Outcome {
    /// An entry was entered, or a row joined the list: nothing is told.
    Quiet,
    /// It was an order, which the book answered.
    Answered(Answer),
    /// The command was refused, and the run ends.
    Stopped(Refusal),
}
