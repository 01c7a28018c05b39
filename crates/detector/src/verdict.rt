//! What a detector says of a row.
ghost use Rattle.std.specs.Prelude.{◌≡◌};
ghost use Rattle.detector.specs.Verdicts.{says_dead};

/// A verdict on a row.
#[derive(Clone, Copy, Debug, PartialEq, Eq)]
pub enum Verdict {
    /// The row is in the dead set. Where the detector keeps the two laws, no state that contains the row has a plan.
    Dead,
    /// Nothing is said of the row.
    Silent,
}

impl Verdict {
    /// The verdict on a row that is dead or not.
    pub fn dead_if(is_dead: bool) -> Verdict
        ensures { says_dead result ≡ is_dead }
    {
        if is_dead {
            Verdict::Dead
        } else {
            Verdict::Silent
        }
    }

    /// Whether the row is called dead.
    pub fn is_dead(self) -> bool
        ensures { result ≡ says_dead self }
    {
        self == Verdict::Dead
    }
}
