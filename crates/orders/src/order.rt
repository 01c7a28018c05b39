//! An order, with all that it brings.

use model::row::Row;
use walk::walked::Walked;

/// An order on a book, with the rows, the work list and the buffers that it brings.
#[derive(Drop)]
pub enum Order {
    /// Judge a row.
    Judge(Row),
    /// Probe a state. The plan goes to the front of `plan`.
    Probe {
        state: Row,
        work_list: Vec<Walked>,
        plan: Vec<u8>,
    },
    /// Offer a list of rows.
    Offer(Vec<Row>),
    /// Settle a list of candidates.
    Settle(Vec<Row>),
    /// Write the book to the front of a buffer.
    Write(Vec<u8>),
}
