//! The moves of a model, in the order in which they were begun.
ghost use Rattle.std.specs.Prelude.{◌≤◌, vec_len, vec_capacity};

use crate::moves::Move;

pub mod methods;

/// At most 128 moves, with the memory for all of them.
#[derive(Drop)]
pub struct MoveTable {
    moves: Vec<Move>,
    ghost few: { vec_len moves ≤ 128 },
    ghost room: { 128 ≤ vec_capacity moves },
}
