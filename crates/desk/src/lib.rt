//! The desk: a sheet is carried out, command by command, and its lines are written.
#![tactic(auto)]

pub mod carrying;
mod detector_part;
pub mod lines;
mod model_part;
pub mod opening;
mod stage;
