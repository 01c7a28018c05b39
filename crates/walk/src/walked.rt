//! A state with the way to it.
ghost use Rattle.std.specs.Cmp.{partial_equiv_from_equiv};
ghost use Rattle.walk.specs.Sames.{same_state};
ghost use Rattle.walk.specs.SameStates.{same_state_equivalence};

use model::row::Row;

/// A state that a walk has come to, and the way to it. Both numbers are 0 for the state from which the walk began.
#[derive(Clone, Copy, Debug)]
pub struct Walked {
    pub state: Row,
    /// The place in the list of the state before it.
    pub from: usize,
    /// The number of the move that led here.
    pub by: u8,
}

/// Walked states are equal where their states are. By hand, for a derived `==` would compare the ways too.
impl PartialEq for Walked {
    ghost eq = { same_state };

    ghost laws = { partial_equiv_from_equiv same_state_equivalence };

    fn eq(&self, other: &Walked) -> bool {
        self.state == other.state
    }
}

impl Eq for Walked {
    ghost laws = { same_state_equivalence };
}
