//! A detector that was refused.
use model::sealed::Model;
use refusal::Refusal;

/// The model of a detector that was not made, given back, and why it was not.
#[derive(Drop)]
pub struct Unmade {
    pub model: Model,
    pub refusal: Refusal,
}
