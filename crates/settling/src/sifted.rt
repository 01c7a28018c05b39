//! What is left of candidates.
ghost use Rattle.std.specs.Prelude.{◌≡◌, ◌≤◌, length};

use model::row::Row;

pub mod methods;

/// The candidates that are left, in front of these rows, and the rounds that it took.
#[derive(Clone, Copy)]
pub struct Sifted {
    pub(crate) rows: [Row; 256],
    pub(crate) count: usize,
    pub(crate) rounds: usize,
    ghost full: { length rows ≡ 256 },
    ghost few: { count ≤ 256 },
}
