//! What is learned of states from which a walk found no plan: each keeps a part of itself, which regains entries until the rules are kept.
#![tactic(auto)]

mod entries;
pub mod learned;
pub mod parts;
mod standing;
mod standings;
mod table;
