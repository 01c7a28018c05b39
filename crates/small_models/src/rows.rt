//! Rows over the models.

use model::row::Row;

/// The row that gives each variable the value beside it.
pub(crate) fn row_of(entries: &[(usize, u8)]) -> Row {
    let mut row = Row::open();
    for (variable, value) in entries {
        row.set(*variable, *value);
    }
    row
}

/// The row that gives the lane alone.
pub(crate) fn at_lane(value: u8) -> Row {
    row_of(&[(0, value)])
}

/// The row that gives the dock alone.
pub(crate) fn at_dock(value: u8) -> Row {
    row_of(&[(1, value)])
}

/// The lane, and then the dock.
pub(crate) fn position(lane: u8, dock: u8) -> Row {
    row_of(&[(0, lane), (1, dock)])
}

/// The gate, and then the key.
pub(crate) fn gate_and_key(gate: u8, key: u8) -> Row {
    row_of(&[(0, gate), (1, key)])
}

/// The lamp is dark, and the switches from the first on stand as the bits of a number, from the lowest on.
pub(crate) fn dark(switches: usize, bits: u32) -> Row {
    let mut row = row_of(&[(0, 0)]);
    let mut left = bits;
    for switch in 0..switches {
        row.set(switch + 1, u8::from(left % 2 == 1));
        left /= 2;
    }
    row
}
