//! The book: rows that keep the two rules, over any detector; over a lawful one they are dead. It is a detector again, and only its orders change it.
#![tactic(auto)]

mod adding;
pub mod book;
mod checking;
pub mod probed;
pub mod refused;
pub mod settled;
mod taking;
mod writing;
