//! Entries go one by one into a row in hand; a next command moves the row to a list, and the hand is open again.
ghost use Rattle.std.specs.Prelude.{◌≤◌, vec_len, vec_capacity};

use model::row::Row;

pub mod methods;

/// The row in hand and a list of at most 256 rows, with the memory for all of them.
#[derive(Drop)]
pub struct Gathered {
    row: Row,
    list: Vec<Row>,
    ghost few: { vec_len list ≤ 256 },
    ghost room: { 256 ≤ vec_capacity list },
}
