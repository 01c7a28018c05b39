//! The parts of the lines that are printed.

pub mod answered;
pub mod asked;
mod count;
pub mod left;
