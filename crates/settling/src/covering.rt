//! Candidates that cover a row are looked for.
ghost use Rattle.std.specs.Prelude.{◌≡◌, ◌≤◌, false, IfSome, is_some, length, take};
ghost use Rattle.model.specs.Moves.{progression};
ghost use Rattle.rules.specs.Rules.{stays_in};
ghost use Rattle.settling.specs.Candidates.{covered, unmarked};
ghost use Rattle.settling.specs.Standings.{CoveredAt, Stands};

use crate::candidate::Candidate;
use crate::standing::Standing;
use detector::Detector;
use model::moves::Move;
use model::row::Row;

/// The place of the first unmarked candidate that is contained in the row, if none before `from` is.
#[tactic(auto, using(crate::proofs::Covers::one_more, crate::proofs::Covers::no_more, crate::proofs::Covers::found, crate::proofs::Covers::found_at))]
fn first_covering(candidates: &[Candidate], row: &Row, from: usize) -> Option<usize>
    requires { covered (take from candidates.now) row.now ≡ false }
    ensures none { is_some result ≡ covered candidates.now row.now }
    ensures found { IfSome result (λ place. CoveredAt candidates.now row.now place) }
{
    for place in from..candidates.len() {
        if candidates[place].covers(row) {
            return Some(place);
        }
    }
    None
}

/// How the move stands, or none if it leads out, where no unmarked candidate before `from` covers its progression.
#[tactic(auto, using(crate::proofs::Covers::stays_where_covered, crate::proofs::Covers::leads_out))]
fn look<B: Detector>(
    book: &B,
    candidates: &[Candidate],
    row: &Row,
    step: &Move,
    from: usize,
) -> Option<Standing>
    requires few { length candidates.now ≤ 256 }
    requires none_before { covered (take from candidates.now) (progression step.now row.now) ≡ false }
    ensures stays { is_some result ≡ stays_in (B.dead book.now) (unmarked candidates.now) row.now step.now }
    ensures stands { IfSome result (λ standing. Stands (B.dead book.now) candidates.now row.now step.now standing) }
{
    if !step.applicable(row) {
        return Some(Standing::Stays);
    }
    let next = step.progression(row);
    // The candidates first: a verdict may cost much more.
    match first_covering(candidates, &next, from) {
        Some(place) => Some(Standing::CoveredBy(place as u8)),
        None if book.verdict(&next).is_dead() => Some(Standing::Stays),
        None => None,
    }
}

/// The same where the candidate at the place covers the progression, or did so until it was marked.
#[tactic(auto, using(crate::proofs::Covers::still_covered, crate::proofs::Covers::stays_where_covered))]
fn follow<B: Detector>(
    book: &B,
    candidates: &[Candidate],
    row: &Row,
    step: &Move,
    place: u8,
) -> Option<Standing>
    requires few { length candidates.now ≤ 256 }
    requires covers { CoveredAt candidates.now (progression step.now row.now) place }
    ensures stays { is_some result ≡ stays_in (B.dead book.now) (unmarked candidates.now) row.now step.now }
    ensures stands { IfSome result (λ standing. Stands (B.dead book.now) candidates.now row.now step.now standing) }
{
    if candidates[usize::from(place)].marked {
        look(book, candidates, row, step, usize::from(place) + 1)
    } else {
        Some(Standing::CoveredBy(place))
    }
}

/// How the move stands by the marks as they are now, or none if it leads out.
pub(crate) fn renewed<B: Detector>(
    book: &B,
    candidates: &[Candidate],
    row: &Row,
    step: &Move,
    standing: Standing,
) -> Option<Standing>
    requires few { length candidates.now ≤ 256 }
    requires stood { Stands (B.dead book.now) candidates.now row.now step.now standing }
    ensures stays { is_some result ≡ stays_in (B.dead book.now) (unmarked candidates.now) row.now step.now }
    ensures stands { IfSome result (λ standing. Stands (B.dead book.now) candidates.now row.now step.now standing) }
{
    match standing {
        Standing::Unseen => look(book, candidates, row, step, 0),
        Standing::Stays => Some(standing),
        Standing::CoveredBy(place) => follow(book, candidates, row, step, place),
    }
}
