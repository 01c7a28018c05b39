//! How a part stands to each move.
ghost use Rattle.std.specs.Prelude.{◌≡◌, length};

use crate::standing::Standing;

pub(crate) mod methods;

/// How a part stands to each move that a model may have.
#[derive(Clone, Copy)]
pub(crate) struct Standings {
    pub(crate) by_move: [Standing; 128],
    ghost full: { length by_move ≡ 128 },
}
