//! How all moves of a candidate stand.
ghost use Rattle.std.specs.Prelude.{◌≡◌, length};

use crate::standing::Standing;

pub(crate) mod methods;

/// A standing for each move that a model may have.
#[derive(Clone, Copy)]
pub(crate) struct Standings {
    pub(crate) of_moves: [Standing; 128],
    ghost full: { length of_moves ≡ 128 },
}
