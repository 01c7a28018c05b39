//! What work lists and buffers hold before an order: something else at each of 16 places in a row, and nothing that an order on these models leaves there.

use crate::rows::row_of;
use std::alloc::{AllocError, Global};
use walk::walked::Walked;

/// What stands at a place of a buffer. No plan and no written book of these models has such a byte.
fn byte_before(place: usize) -> u8 {
    0xe0 + (place % 16) as u8
}

/// What stands at a place of a work list. No state gives the last of 32 variables.
fn walked_before(place: usize) -> Walked {
    Walked {
        state: row_of(&[(31, 9)]),
        from: usize::MAX - place,
        by: byte_before(place),
    }
}

/// A buffer of so many bytes.
pub(crate) fn buffer(heap: Global, bytes: usize) -> Result<Vec<u8>, AllocError> {
    (0..bytes).map(byte_before).collect(heap)
}

/// A work list of so many places.
pub(crate) fn work_list(heap: Global, places: usize) -> Result<Vec<Walked>, AllocError> {
    (0..places).map(walked_before).collect(heap)
}

/// Whether the place holds what stood there before.
fn is_unused(place: usize, walked: &Walked) -> bool {
    let before = walked_before(place);
    walked.state == before.state && walked.from == before.from && walked.by == before.by
}

/// The places at the front that hold something else.
pub(crate) fn listed(work_list: &[Walked]) -> usize {
    work_list
        .iter()
        .enumerate()
        .take_while(|(place, walked)| !is_unused(*place, walked))
        .count()
}

/// The places at the end that hold what stood there before.
pub(crate) fn kept_places(work_list: &[Walked]) -> usize {
    work_list
        .iter()
        .enumerate()
        .rev()
        .take_while(|(place, walked)| is_unused(*place, walked))
        .count()
}

/// The bytes at the end that are as before.
pub(crate) fn kept_bytes(buffer: &[u8]) -> usize {
    buffer
        .iter()
        .enumerate()
        .rev()
        .take_while(|(place, byte)| **byte == byte_before(*place))
        .count()
}
