//! What is told of an order that is refused.
ghost use Rattle.std.specs.Prelude.{◌≡◌};
ghost use Rattle.book.specs.Refusals.{refused, refused_row, refused_step};

use refusal::Refusal;

/// Why an order is refused, and where that is told: the place in its list of the row that is to blame, and, as `step`, the number of the
/// move that leads from the row out of the set.
#[derive(Clone, Copy, Debug, PartialEq, Eq)]
pub struct Refused {
    pub refusal: Refusal,
    pub row: Option<usize>,
    pub step: Option<usize>,
}

/// No row is told.
impl From<Refusal> for Refused {
    ghost from_gives = { λ refusal r. r ≡ refused refusal };

    fn from(refusal: Refusal) -> Refused {
        Refused {
            refusal,
            row: None,
            step: None,
        }
    }
}

impl Refused {
    /// The row is told.
    pub(crate) fn for_row(refusal: Refusal, row: usize) -> Refused
        ensures { result ≡ refused_row refusal row }
    {
        Refused {
            refusal,
            row: Some(row),
            step: None,
        }
    }

    /// The row is told, and the number of the move that leads from it out of the set.
    pub(crate) fn for_step(refusal: Refusal, row: usize, step: usize) -> Refused
        ensures { result ≡ refused_step refusal row step }
    {
        Refused {
            refusal,
            row: Some(row),
            step: Some(step),
        }
    }
}
