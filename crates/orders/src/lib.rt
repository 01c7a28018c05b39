//! Orders on a book, run one after another on a new one.
#![tactic(auto)]

pub mod answer;
pub mod order;
pub mod running;
