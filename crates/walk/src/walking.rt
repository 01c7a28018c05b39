//! A walk from a state.
ghost use Rattle.std.specs.Prelude.{◌≡◌, length, min};
ghost use Rattle.first_come.specs.Arrivals.{arrived};
ghost use Rattle.first_come.specs.Contents.{contents, lender};
ghost use Rattle.walk.specs.Walks.{first, outcome_of, walk_from};
ghost use Rattle.walk.specs.Answers.{places_used, ended_told, outcome_answer, outcome_plan, walk_answer, work_list_after, plan_after};
ghost use Rattle.walk.specs.Laws.{EveryWalkTells};
ghost use Rattle.walk.specs.WorkLists.{Rooted, FoundFromListed, room_of};

use crate::course::Course;
use crate::ended::Ended;
use crate::hints::Hints;
use crate::taking::{meets_goal, take_states};
use crate::walked::Walked;
use crate::writing::write_plan;
use detector::Detector;
use first_come::list::FirstCome;
use first_come::listed::Listed;
use model::row::Row;
use refusal::Refusal;

/// A walk uses at most this many places of a work list.
const MOST_PLACES: usize = 256;

/// Walks from a state, over at most 256 places of the work list, to the first state that contains the goal. The listed states lie at the
/// front of the work list afterwards, and a plan that has room at the front of its buffer, a byte for each move.
#[tactic(auto, using(crate::proofs::WalkLaws::every_walk_tells))]
pub fn walk<D: Detector>(
    detector: &D,
    start: &Row,
    work_list: &mut [Walked],
    plan: &mut [u8],
) -> Result<Ended, Refusal>
    ensures answer { ended_told result ≡ walk_answer (length plan.old) (walk_from (D.carried detector.now) (D.dead detector.now) (places_used work_list.old) start.now) }
    ensures listed { work_list.new ≡ work_list_after work_list.old (walk_from (D.carried detector.now) (D.dead detector.now) (places_used work_list.old) start.now) }
    ensures plan { plan.new ≡ plan_after plan.old (walk_from (D.carried detector.now) (D.dead detector.now) (places_used work_list.old) start.now) }
    ensures tells { EveryWalkTells }
{
    walk_in_used_places(detector, start, work_list, plan)
}

/// The same, over the places at the front that a walk uses.
#[tactic(auto, using(crate::proofs::WholeWalks::front_used))]
fn walk_in_used_places<D: Detector>(
    detector: &D,
    start: &Row,
    work_list: &mut [Walked],
    plan: &mut [u8],
) -> Result<Ended, Refusal>
    ensures answer { ended_told result ≡ walk_answer (length plan.old) (walk_from (D.carried detector.now) (D.dead detector.now) (places_used work_list.old) start.now) }
    ensures listed { work_list.new ≡ work_list_after work_list.old (walk_from (D.carried detector.now) (D.dead detector.now) (places_used work_list.old) start.now) }
    ensures plan { plan.new ≡ plan_after plan.old (walk_from (D.carried detector.now) (D.dead detector.now) (places_used work_list.old) start.now) }
{
    let used = usable(work_list.len());
    walk_in_places(detector, start, &mut work_list[..used], plan)
}

/// How many of so many places a walk uses.
fn usable(places: usize) -> usize
    ensures { result ≡ min 256 places }
{
    places.min(MOST_PLACES)
}

/// Walks over all of the places.
fn walk_in_places<D: Detector>(
    detector: &D,
    start: &Row,
    places: &mut [Walked],
    plan: &mut [u8],
) -> Result<Ended, Refusal>
    ensures answer { ended_told result ≡ walk_answer (length plan.old) (walk_from (D.carried detector.now) (D.dead detector.now) (length places.old) start.now) }
    ensures listed { places.new ≡ work_list_after places.old (walk_from (D.carried detector.now) (D.dead detector.now) (length places.old) start.now) }
    ensures plan { plan.new ≡ plan_after plan.old (walk_from (D.carried detector.now) (D.dead detector.now) (length places.old) start.now) }
{
    let mut list = FirstCome::new(places);
    walk_in_list(&mut list, detector, start, plan)
}

/// Walks over the places of a list in which nothing is listed.
fn walk_in_list<D: Detector>(
    list: &mut FirstCome<Walked>,
    detector: &D,
    start: &Row,
    plan: &mut [u8],
) -> Result<Ended, Refusal>
    requires { (contents list.old).len ≡ 0 }
    ensures answer { ended_told result ≡ walk_answer (length plan.old) (walk_from (D.carried detector.now) (D.dead detector.now) (room_of (contents list.old)) start.now) }
    ensures listed { (contents list.new).places ≡ work_list_after (contents list.old).places (walk_from (D.carried detector.now) (D.dead detector.now) (room_of (contents list.old)) start.now) }
    ensures plan { plan.new ≡ plan_after plan.old (walk_from (D.carried detector.now) (D.dead detector.now) (room_of (contents list.old)) start.now) }
    ensures lender { lender list.new ≡ lender list.old }
{
    if let Listed::Full = list.list(first(start)) {
        return Err(Refusal::WorkListFull);
    }
    if meets_goal(detector, start) {
        return Ok(Ended::Plan {
            states: 1,
            length: 0,
        });
    }
    let mut hints = Hints::none();
    let course = take_states(list, &mut hints, detector);
    tell(list.as_slice(), course, plan)
}

/// The state from which a walk begins.
fn first(start: &Row) -> Walked
    ensures { result ≡ first start.now }
{
    Walked {
        state: *start,
        from: 0,
        by: 0,
    }
}

/// Tells how a walk has ended, and lays out its plan.
fn tell(listed: &[Walked], course: Course, plan: &mut [u8]) -> Result<Ended, Refusal>
    requires rooted { Rooted listed.now }
    requires within { FoundFromListed listed.now course }
    ensures answer { ended_told result ≡ outcome_answer (length listed.now) (length plan.old) (outcome_of listed.now course) }
    ensures plan { plan.new ≡ outcome_plan plan.old (outcome_of listed.now course) }
{
    match course {
        Course::Underway => Ok(Ended::NoPlan {
            states: listed.len(),
        }),
        Course::Found { from, by } => {
            let length = write_plan(listed, from, by, plan)?;
            Ok(Ended::Plan {
                states: listed.len(),
                length,
            })
        }
        Course::Full => Err(Refusal::WorkListFull),
    }
}
