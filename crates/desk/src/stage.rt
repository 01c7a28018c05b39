//! A model in hand whose step is known only as the sheet is read.
use model::in_hand::{NamingVariables, WritingEnds, WritingMoves};

pub mod steps;

/// The step that a model in hand has come to.
#[derive(Drop)]
pub enum Stage {
    Variables(NamingVariables),
    Moves(WritingMoves),
    Ends(WritingEnds),
}
