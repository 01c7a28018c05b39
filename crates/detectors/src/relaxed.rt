//! The relaxed detector: it lets moves add facts and take none away.
ghost use Rattle.std.specs.Prelude.{◌≡◌};
ghost use Rattle.detector.specs.Laws.{Lawful};
ghost use Rattle.model.specs.Drafts.{recorded};
ghost use Rattle.detectors.specs.Closure.{relaxed_dead};
ghost use Rattle.detectors.specs.ReachedFacts.{RelaxedDecides, RelaxedDecidesForEveryModel};
ghost use Rattle.detectors.specs.RelaxedMeaning.{relaxed_model};
ghost use Rattle.detectors.specs.WorkedVerdicts.{WorkedRelaxedVerdicts};
ghost use Rattle.std.proofs.lemmas.Bool.{and_parts};
ghost use Rattle.model.proofs.SealedModel.{model_sealed};

mod fact;
mod reaching;

use detector::Detector;
use detector::verdict::Verdict;
use model::row::Row;
use model::sealed::Model;
use reaching::goal_missed;

/// Calls a row of its model dead exactly if some goal fact is not reached from it.
#[derive(Drop)]
pub struct Relaxed {
    model: Model,
}

impl Relaxed {
    /// The relaxed detector of a model.
    #[tactic(auto, using(crate::proofs::RelaxedLaws::relaxed_lawful, crate::proofs::ReachedDecided::relaxed_decides, crate::proofs::ReachedDecided::relaxed_decides_for_every_model, crate::proofs::WorkedVerdicts::worked_relaxed_verdicts))]
    pub fn new(model: Model) -> Relaxed
        ensures model { relaxed_model result ≡ recorded model }
        ensures lawful { Lawful (relaxed_model result) (relaxed_dead (relaxed_model result)) }
        ensures decides { RelaxedDecides (relaxed_model result) }
        ensures decides_for_every_model { RelaxedDecidesForEveryModel }
        ensures worked { WorkedRelaxedVerdicts }
    {
        Relaxed { model }
    }
}

/// It means its model and the relaxed dead set of that model.
impl Detector for Relaxed {
    ghost carried = { relaxed_model };

    ghost dead = { λ d. relaxed_dead (relaxed_model d) };

    ghost sealed = { λ d. model_sealed d.model };

    ghost within = { λ d t dead. (and_parts _ _ dead).0 };

    fn model(&self) -> &Model {
        &self.model
    }

    fn verdict(&self, row: &Row) -> Verdict {
        Verdict::dead_if(self.model.fits(row) && goal_missed(&self.model, row))
    }
}
