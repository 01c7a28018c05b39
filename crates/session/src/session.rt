//! A session: a book, the row in hand and the list, and what is lent to orders.
ghost use Rattle.std.specs.Prelude.{◌≡◌, vec_len};

use book::book::Book;
use detector::Detector;
use hand::hand::Gathered;
use walk::walked::Walked;

pub mod methods;

/// What the commands behind the detector work on.
#[derive(Drop)]
pub struct Session<D: Detector> {
    book: Book<D>,
    gathered: Gathered,
    /// Lent to probes.
    work_list: Vec<Walked>,
    /// Lent to probes, for a plan.
    plan: Vec<u8>,
    /// Lent for the book as it is written.
    buffer: Vec<u8>,
    ghost places: { vec_len work_list ≡ 256 },
    ghost moves: { vec_len plan ≡ 256 },
    ghost bytes: { vec_len buffer ≡ 32768 },
}
