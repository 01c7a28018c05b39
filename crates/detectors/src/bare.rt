//! The bare detector: it calls nothing dead.
ghost use Rattle.std.specs.Prelude.{◌≡◌};
ghost use Rattle.detector.specs.Laws.{Lawful};
ghost use Rattle.model.specs.Drafts.{recorded};
ghost use Rattle.detectors.specs.Shipping.{bare_model, bare_dead};
ghost use Rattle.std.proofs.lemmas.Bool.{false≢true};
ghost use Rattle.model.proofs.SealedModel.{model_sealed};

use detector::Detector;
use detector::verdict::Verdict;
use model::row::Row;
use model::sealed::Model;

/// A model alone, with an empty dead set.
#[derive(Drop)]
pub struct Bare {
    model: Model,
}

impl Bare {
    /// The bare detector of a model.
    #[tactic(auto, using(crate::proofs::ShippedLaws::bare_lawful))]
    pub fn new(model: Model) -> Bare
        ensures model { bare_model result ≡ recorded model }
        ensures lawful { Lawful (bare_model result) (bare_dead (bare_model result)) }
    {
        Bare { model }
    }
}

/// It means its model and no row.
impl Detector for Bare {
    ghost carried = { bare_model };

    ghost dead = { λ d. bare_dead (bare_model d) };

    ghost sealed = { λ d. model_sealed d.model };

    ghost within = { λ d t dead. absurd (false≢true dead) };

    fn model(&self) -> &Model {
        &self.model
    }

    fn verdict(&self, _row: &Row) -> Verdict {
        Verdict::Silent
    }
}
