//! What is learned.
ghost use Rattle.std.specs.Prelude.{◌≡◌, ◌≤◌, length};

use model::row::Row;

pub mod methods;

/// The parts that are learned, in front of these rows, and how many entries they regained.
#[derive(Clone, Copy)]
pub struct Learned {
    pub(crate) rows: [Row; 256],
    pub(crate) count: usize,
    pub(crate) entries: usize,
    ghost full: { length rows ≡ 256 },
    ghost few: { count ≤ 256 },
}
