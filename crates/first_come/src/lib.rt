//! The first-come list: it keeps each item once, in order of arrival, in places that somebody lends.
#![tactic(auto)]

pub mod lending;
pub mod list;
pub mod listed;
pub mod mark;
pub mod marked;
