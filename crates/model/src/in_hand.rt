//! A model in hand passes through three types: its variables are named, its moves are written, its start and goal are written.
//! Each step takes the one before, so that a variable cannot be named once a move is begun.
ghost use Rattle.std.specs.Prelude.{◌≡◌, ◌<◌, true, length};
ghost use Rattle.model.specs.Tables.{table_moves};
ghost use Rattle.model.specs.Limits.{row_fits};

use crate::domain::Domain;
use crate::row::Row;

pub mod naming;
pub mod writing_ends;
pub mod writing_moves;

/// One of the two rows of a move.
#[derive(Clone, Copy, Debug)]
pub enum Part {
    Conditions,
    Effects,
}

/// One of the two ends of a plan.
#[derive(Clone, Copy, Debug)]
pub enum End {
    Start,
    Goal,
}

/// A model whose variables are being named.
#[derive(Drop)]
pub struct NamingVariables {
    domain: Domain,
    ghost none: { length (table_moves domain.moves) ≡ 0 },
}

/// A model whose moves are being written. At least one is begun.
#[derive(Drop)]
pub struct WritingMoves {
    domain: Domain,
    ghost some: { 0 < length (table_moves domain.moves) },
}

/// A model whose start and goal are being written.
#[derive(Drop)]
pub struct WritingEnds {
    pub(crate) domain: Domain,
    pub(crate) start: Row,
    pub(crate) goal: Row,
    ghost starts: { row_fits domain.variables.items start ≡ true },
    ghost goals: { row_fits domain.variables.items goal ≡ true },
}
