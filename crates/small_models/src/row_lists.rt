//! Lists of rows.

use crate::rows::{at_dock, at_lane, dark};
use model::row::Row;
use std::alloc::{AllocError, Global};

/// The four rows that a book over the lane model takes together.
pub(crate) fn four_rows() -> [Row; 4] {
    [at_lane(0), at_lane(1), at_dock(0), at_dock(1)]
}

/// One of the four, by turns.
fn one_of_four(place: usize) -> Row {
    match place % 4 {
        0 => at_lane(0),
        1 => at_lane(1),
        2 => at_dock(0),
        _ => at_dock(1),
    }
}

/// So many rows: the four, again and again.
pub(crate) fn over_and_over(heap: Global, count: usize) -> Result<Vec<Row>, AllocError> {
    (0..count).map(one_of_four).collect(heap)
}

/// The same, with another row at one place.
pub(crate) fn all_but(
    heap: Global,
    count: usize,
    other: usize,
    row: Row,
) -> Result<Vec<Row>, AllocError> {
    (0..count)
        .map(|place| if place == other {
            row
        } else {
            one_of_four(place)
        })
        .collect(heap)
}

/// The 256 states of nine switches in which the lamp is dark and the first switch is on.
pub(crate) fn first_switch_on(heap: Global) -> Result<Vec<Row>, AllocError> {
    (0..256u16)
        .map(|others| dark(9, 2 * u32::from(others) + 1))
        .collect(heap)
}
