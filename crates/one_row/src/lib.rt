//! A detector of one's own: it calls dead the rows of its model that contain one given row, which disagrees with the goal and from
//! which no move leads away. It is written against the trait, the model and nothing else.
#![tactic(auto)]

pub mod one_row;
