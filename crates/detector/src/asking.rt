//! A detector is asked, whichever it is.
ghost use Rattle.std.specs.Prelude.{◌≡◌};
ghost use Rattle.detector.specs.Laws.{EqualMeaningKeepsTheLaws};
ghost use Rattle.detector.specs.Verdicts.{EqualMeaningGivesEqualVerdicts};

use crate::Detector;
use model::row::Row;

/// Whether the detector calls the row dead.
#[tactic(auto, using(crate::proofs::EqualMeaning::keeps_the_laws, crate::proofs::EqualMeaning::equal_verdicts))]
pub fn calls_dead<D: Detector>(detector: &D, row: &Row) -> bool
    ensures answer { result ≡ D.dead detector.now row.now }
    ensures equal_verdicts { EqualMeaningGivesEqualVerdicts }
    ensures equal_laws { EqualMeaningKeepsTheLaws }
{
    answer(detector, row)
}

fn answer<D: Detector>(detector: &D, row: &Row) -> bool
    ensures { result ≡ D.dead detector.now row.now }
{
    detector.verdict(row).is_dead()
}
