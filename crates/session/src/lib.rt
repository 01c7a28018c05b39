//! The commands of a sheet behind its detector, carried out on a book.
#![tactic(auto)]

pub mod outcome;
pub mod session;
