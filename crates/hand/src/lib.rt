//! The row in hand and the list, which the commands of a sheet fill.
#![tactic(auto)]

pub mod hand;
