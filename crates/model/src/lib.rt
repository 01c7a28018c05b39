//! Planning models: rows of entries, moves between them, and the model that is written step by step and then sealed.
#![tactic(auto)]

mod domain;
pub mod entry;
pub mod in_hand;
pub mod moves;
pub mod row;
pub mod sealed;
mod table;
pub mod variable;
