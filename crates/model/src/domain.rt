//! The domain of a model: its variables, and its moves between rows over them.
ghost use Rattle.std.specs.Prelude.{◌≡◌, ◌≤◌, true, vec_len, vec_capacity};
ghost use Rattle.model.specs.Tables.{table_moves};
ghost use Rattle.model.specs.Limits.{sizes_fit, moves_fit};

use crate::table::MoveTable;
use crate::variable::Variable;

pub mod methods;

/// Variables and moves that keep the limits, with all memory that they can need.
#[derive(Drop)]
pub struct Domain {
    pub(crate) variables: Vec<Variable>,
    pub(crate) moves: MoveTable,
    ghost few: { vec_len variables ≤ 32 },
    ghost room: { 32 ≤ vec_capacity variables },
    ghost sized: { sizes_fit variables.items ≡ true },
    ghost fit: { moves_fit variables.items (table_moves moves) ≡ true },
}
