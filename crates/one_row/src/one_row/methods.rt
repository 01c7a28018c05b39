//! The detector is made, and asked the two questions.
ghost use Rattle.std.specs.Prelude.{◌≡◌, IfOk};
ghost use Rattle.detector.specs.Laws.{Lawful};
ghost use Rattle.model.specs.Drafts.{recorded};
ghost use Rattle.model.proofs.SealedModel.{model_sealed};
ghost use Rattle.one_row.specs.Standstill.{stays, all_stay, stands_still, one_row_dead};
ghost use Rattle.one_row.specs.Meaning.{making_told, making_answer, one_row_model, one_row};
ghost use Rattle.std.proofs.lemmas.Bool.{and_parts};

use super::OneRow;
use detector::Detector;
use detector::verdict::Verdict;
use model::moves::Move;
use model::row::Row;
use model::sealed::Model;

impl OneRow {
    /// The detector of the row, or the model back where a move leads away from the row or a plan might end in it.
    #[tactic(auto, using(crate::proofs::BothLaws::one_row_lawful))]
    pub fn over(model: Model, row: Row) -> Result<OneRow, Model>
        ensures answer { making_told result ≡ making_answer (recorded model) row }
        ensures lawful { IfOk result (λ d. Lawful (one_row_model d) (one_row_dead (one_row_model d) (one_row d))) }
    {
        if stands_still(&model, &row) {
            Ok(OneRow { model, row })
        } else {
            Err(model)
        }
    }
}

impl Detector for OneRow {
    ghost carried = { one_row_model };

    ghost dead = { λ d. one_row_dead (one_row_model d) (one_row d) };

    ghost sealed = { λ d. model_sealed d.model };

    ghost within = { λ d t dead. (and_parts _ _ dead).0 };

    fn model(&self) -> &Model {
        &self.model
    }

    fn verdict(&self, row: &Row) -> Verdict {
        Verdict::dead_if(self.model.fits(row) && self.row.contained_in(row))
    }
}

/// Whether the row disagrees with the goal, and every move keeps it.
fn stands_still(model: &Model, row: &Row) -> bool
    ensures { result ≡ stands_still (recorded model.now) row.now }
{
    row.disagrees(model.goal()) && all_stay(model.moves(), row)
}

/// Whether every move that is applicable to the row keeps it.
fn all_stay(moves: &[Move], row: &Row) -> bool
    ensures { result ≡ all_stay moves.now row.now }
{
    moves.iter().all(|m| keeps(m, row))
}

/// Whether the move is not applicable to the row, or leads to a row that contains it.
fn keeps(m: &Move, row: &Row) -> bool
    ensures { result ≡ stays row.now m.now }
{
    !m.applicable(row) || row.contained_in(&m.progression(row))
}
