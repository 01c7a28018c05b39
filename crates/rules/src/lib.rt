//! The two rules that bind a set of rows. Over a lawful detector rows that keep both are dead.
#![tactic(auto)]

pub mod set;
