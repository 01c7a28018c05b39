//! The two rules that bind a set of rows.
ghost use Rattle.std.specs.Prelude.{◌≡◌};
ghost use Rattle.rules.specs.Rules.{covers, keeps_rule_1, stays_in};
ghost use Rattle.lists.specs.Searches.{first_failing, first_failing_pair};

use detector::Detector;
use model::moves::Move;
use model::row::Row;

/// Whether one row of the set is contained in the row.
pub fn covers(set: &[Row], row: &Row) -> bool
    ensures { result ≡ covers set.now row.now }
{
    set.iter().any(|own| own.contained_in(row))
}

/// Whether the row to which the move leads is called dead or contains a row of the set; also true of a move that is not applicable.
#[tactic(auto, using(crate::proofs::RuleLaws::either_first))]
fn stays_in<D: Detector>(detector: &D, set: &[Row], row: &Row, step: &Move) -> bool
    ensures { result ≡ stays_in (D.dead detector.now) set.now row.now step.now }
{
    if !step.applicable(row) {
        return true;
    }
    let next = step.progression(row);
    // The set first: a verdict may cost much more.
    covers(set, &next) || detector.verdict(&next).is_dead()
}

/// The lowest row of the list that breaks rule 1.
pub fn first_meeting_goal<D: Detector>(detector: &D, list: &[Row]) -> Option<usize>
    ensures { result ≡ first_failing (keeps_rule_1 (D.carried detector.now)) 0 list.now }
{
    let goal = detector.model().goal();
    for (place, row) in list.iter().enumerate() {
        if !row.disagrees(goal) {
            return Some(place);
        }
    }
    None
}

/// The lowest row of the set that breaks rule 2 in it, and of its moves the lowest that leads out.
pub fn first_leading_out<D: Detector>(detector: &D, set: &[Row]) -> Option<(usize, usize)>
    ensures { result ≡ first_failing_pair (stays_in (D.dead detector.now) set.now) (D.carried detector.now).moves 0 set.now }
{
    'rows: {
        for (place, row) in set.iter().enumerate() {
            for (number, step) in detector.model().moves().iter().enumerate() {
                if !stays_in(detector, set, row, step) {
                    break 'rows Some((place, number));
                }
            }
        }
        None
    }
}
