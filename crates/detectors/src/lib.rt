//! The detectors that ship: bare, relaxed and pattern.
#![tactic(auto)]

pub mod bare;
pub mod kind;
pub mod making;
pub mod pattern;
pub mod relaxed;
pub mod shipped;
pub mod unmade;
