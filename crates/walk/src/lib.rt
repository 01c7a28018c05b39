//! A walk over the states of a model, each listed once and taken in order of arrival, to the first that contains the goal.
#![tactic(auto)]

mod course;
pub mod ended;
mod hints;
mod taking;
pub mod walked;
pub mod walking;
mod writing;
