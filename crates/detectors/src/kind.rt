//! Kinds of detectors, by their numbers.
ghost use Rattle.std.specs.Prelude.{◌≡◌};
ghost use Rattle.detectors.specs.Choosing.{kind_of};

use refusal::Refusal;

/// The kinds of the detectors that ship.
#[derive(Clone, Copy, Debug, PartialEq, Eq)]
pub enum Kind {
    Bare,
    Relaxed,
    Pattern,
}

/// A kind by its number: 0 is bare, 1 relaxed and 2 a pattern.
impl TryFrom<u8> for Kind {
    type Error = Refusal;

    ghost try_from_gives = { λ n kind. kind ≡ kind_of n };

    fn try_from(number: u8) -> Result<Kind, Refusal> {
        match number {
            0 => Ok(Kind::Bare),
            1 => Ok(Kind::Relaxed),
            2 => Ok(Kind::Pattern),
            _ => Err(Refusal::UnknownKind),
        }
    }
}
