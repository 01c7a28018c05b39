//! Where a state was found last.
ghost use Rattle.std.specs.Prelude.{◌<◌};

use model::row::Row;

/// For each of 4,096 numbers the place at which a state with that number was found last. It is a guess at where a state is listed, for whoever looks it
/// up to check: nothing rests on it.
#[derive(Drop)]
pub(crate) struct Hints {
    places: [usize; 4096],
}

impl Hints {
    /// Nothing was found yet.
    pub(crate) fn none() -> Hints {
        Hints { places: [0; 4096] }
    }

    /// The place at which a state with the same number was found last.
    pub(crate) fn guess(&self, state: &Row) -> usize {
        self.places[number_of(state)]
    }

    /// The state was found at the place.
    pub(crate) fn note(&mut self, state: &Row, place: usize) {
        self.places[number_of(state)] = place;
    }
}

/// A number of the state's, which others may share.
fn number_of(state: &Row) -> usize
    ensures { result < 4096 }
{
    let mut number: usize = 0;
    for variable in 0..32 {
        number = number
            .wrapping_mul(31)
            .wrapping_add(digit(state.entry(variable)));
    }
    number % 4096
}

/// An entry as a digit: 0 where it is open, else one more than its value.
fn digit(entry: Option<u8>) -> usize {
    entry.map_or(0, |value| usize::from(value) + 1)
}
