//! The moves of a candidate are gone through.
ghost use Rattle.std.specs.Prelude.{◌≡◌, ◌≤◌, length, not};
ghost use Rattle.rules.specs.Rules.{keeps_rule_2};
ghost use Rattle.settling.specs.Candidates.{marked_by, unmarked};
ghost use Rattle.settling.specs.Standings.{AllStand, unseen};

use super::Standings;
use crate::candidate::Candidate;
use crate::covering::renewed;
use crate::standing::Standing;
use detector::Detector;
use model::row::Row;

impl Standings {
    /// Where nothing is known yet.
    pub(crate) fn unseen() -> Standings
        ensures { result ≡ unseen }
    {
        Standings {
            of_moves: [Standing::Unseen; 128],
        }
    }

    /// Whether a move leads from the row out of the unmarked candidates; what is known of the moves is renewed.
    #[tactic(auto, using(crate::proofs::AllMoves::standing_at, crate::proofs::AllMoves::still_stand, crate::proofs::AllMoves::one_leads_out, crate::proofs::AllMoves::one_more_stays, crate::proofs::AllMoves::all_stay))]
    fn lead_out<B: Detector>(&mut self, book: &B, candidates: &[Candidate], row: &Row) -> bool
        requires few { length candidates.now ≤ 256 }
        requires stood { AllStand (B.dead book.now) candidates.now row.now (B.carried book.now).moves self.old.of_moves }
        ensures answer { result ≡ not (keeps_rule_2 (B.carried book.now) (B.dead book.now) (unmarked candidates.now) row.now) }
        ensures stand { AllStand (B.dead book.now) candidates.now row.now (B.carried book.now).moves self.new.of_moves }
    {
        for (number, step) in book.model().moves().iter().enumerate() {
            match renewed(book, candidates, row, step, self.of_moves[number]) {
                Some(standing) => self.of_moves[number] = standing,
                None => return true,
            }
        }
        false
    }

    /// Whether the round marks the candidate.
    pub(crate) fn mark<B: Detector>(
        &mut self,
        book: &B,
        candidates: &[Candidate],
        candidate: &Candidate,
    ) -> bool
        requires few { length candidates.now ≤ 256 }
        requires stood { AllStand (B.dead book.now) candidates.now candidate.now.row (B.carried book.now).moves self.old.of_moves }
        ensures answer { result ≡ marked_by (B.carried book.now) (B.dead book.now) (unmarked candidates.now) candidate.now }
        ensures stand { AllStand (B.dead book.now) candidates.now candidate.now.row (B.carried book.now).moves self.new.of_moves }
    {
        !candidate.marked && self.lead_out(book, candidates, &candidate.row)
    }
}
