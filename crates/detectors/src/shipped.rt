//! A detector that is chosen as the program runs: one of those that ship.
ghost use Rattle.detectors.specs.Shipping.{shipped_model, shipped_dead};
ghost use Rattle.detectors.specs.ShippedRows.{shipped_sealed, shipped_within};

use crate::bare::Bare;
use crate::pattern::Pattern;
use crate::relaxed::Relaxed;
use detector::Detector;
use detector::verdict::Verdict;
use model::row::Row;
use model::sealed::Model;

/// One of the detectors that ship.
#[derive(Drop)]
pub enum Shipped {
    Bare(Bare),
    Relaxed(Relaxed),
    Pattern(Pattern),
}

/// It means what the detector in it means.
impl Detector for Shipped {
    ghost carried = { shipped_model };

    ghost dead = { shipped_dead };

    ghost sealed = { shipped_sealed };

    ghost within = { shipped_within };

    fn model(&self) -> &Model {
        match self {
            Shipped::Bare(bare) => bare.model(),
            Shipped::Relaxed(relaxed) => relaxed.model(),
            Shipped::Pattern(pattern) => pattern.model(),
        }
    }

    fn verdict(&self, row: &Row) -> Verdict {
        match self {
            Shipped::Bare(bare) => bare.verdict(row),
            Shipped::Relaxed(relaxed) => relaxed.verdict(row),
            Shipped::Pattern(pattern) => pattern.verdict(row),
        }
    }
}
