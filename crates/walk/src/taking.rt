//! The listed states are taken in order, and what their moves lead to is listed.
ghost use Rattle.std.specs.Prelude.{◌≡◌, ◌||◌, length, option_map, true};
ghost use Rattle.std.specs.List.{slice_get};
ghost use Rattle.model.specs.Rows.{contained};
ghost use Rattle.model.specs.Moves.{progression};
ghost use Rattle.first_come.specs.Arrivals.{arrived, has};
ghost use Rattle.first_come.specs.Contents.{contents, lender};
ghost use Rattle.walk.specs.declared.course.Course.TheVariants.{Underway};
ghost use Rattle.walk.specs.Sames.{same_state};
ghost use Rattle.walk.specs.Walks.{came, walk_at, arrive, try_move, try_moves, take_states};
ghost use Rattle.walk.specs.WorkLists.{room_of, Made};

use crate::course::Course;
use crate::hints::Hints;
use crate::walked::Walked;
use detector::Detector;
use first_come::list::FirstCome;
use first_come::listed::Listed;
use model::moves::Move;
use model::row::Row;

/// Takes the listed states in order, until the walk ends or none is left.
pub(crate) fn take_states<D: Detector>(
    list: &mut FirstCome<Walked>,
    hints: &mut Hints,
    detector: &D,
) -> Course
    ensures made { Made (contents list.old) (contents list.new) result (take_states (D.carried detector.now) (D.dead detector.now) (room_of (contents list.old)) (room_of (contents list.old)) (walk_at (arrived (contents list.old)) Underway)) }
    ensures lender { lender list.new ≡ lender list.old }
{
    // By places, since the list grows as they are taken.
    let mut at = 0;
    while let Some(walked) = list.get(at).copied() {
        match try_moves(list, hints, detector, at, &walked.state) {
            Course::Underway => {}
            ended => return ended,
        }
        at += 1;
    }
    Course::Underway
}

/// Tries every move at the state, by rising number.
fn try_moves<D: Detector>(
    list: &mut FirstCome<Walked>,
    hints: &mut Hints,
    detector: &D,
    at: usize,
    state: &Row,
) -> Course
    ensures made { Made (contents list.old) (contents list.new) result (try_moves (D.carried detector.now) (D.dead detector.now) (room_of (contents list.old)) at state.now (length (D.carried detector.now).moves) (walk_at (arrived (contents list.old)) Underway)) }
    ensures lender { lender list.new ≡ lender list.old }
{
    for number in 0..move_count(detector) {
        match try_move(list, hints, detector, at, state, number) {
            Course::Underway => {}
            ended => return ended,
        }
    }
    Course::Underway
}

/// How many moves the model has.
fn move_count<D: Detector>(detector: &D) -> u8
    ensures { result ≡ length (D.carried detector.now).moves }
{
    // It fits, since a sealed model has at most 128.
    detector.model().moves().len() as u8
}

/// Tries the move with that number at the state at a place.
fn try_move<D: Detector>(
    list: &mut FirstCome<Walked>,
    hints: &mut Hints,
    detector: &D,
    at: usize,
    state: &Row,
    number: u8,
) -> Course
    ensures made { Made (contents list.old) (contents list.new) result (try_move (D.carried detector.now) (D.dead detector.now) (room_of (contents list.old)) at state.now number (arrived (contents list.old))) }
    ensures lender { lender list.new ≡ lender list.old }
{
    match move_at(detector, number) {
        Some(step) if step.applicable(state) => {
            arrive(list, hints, detector, reached_by(step, state, at, number))
        }
        _ => Course::Underway,
    }
}

/// The move with that number, if the model has one.
fn move_at<D: Detector>(detector: &D, number: u8) -> Option<&Move>
    ensures { option_map (λ m. m.now) result ≡ slice_get (D.carried detector.now).moves number }
{
    detector.model().moves().get(usize::from(number))
}

/// What the move with that number makes of the state at a place.
fn reached_by(step: &Move, state: &Row, at: usize, number: u8) -> Walked
    ensures { result ≡ came (progression step.now state.now) at number }
{
    Walked {
        state: step.progression(state),
        from: at,
        by: number,
    }
}

/// Ends the walk at a state that contains the goal; lists any other, unless it is passed over.
fn arrive<D: Detector>(
    list: &mut FirstCome<Walked>,
    hints: &mut Hints,
    detector: &D,
    reached: Walked,
) -> Course
    ensures made { Made (contents list.old) (contents list.new) result (arrive (D.carried detector.now) (D.dead detector.now) (room_of (contents list.old)) (arrived (contents list.old)) reached) }
    ensures lender { lender list.new ≡ lender list.old }
{
    if meets_goal(detector, &reached.state) {
        return Course::Found {
            from: reached.from,
            by: reached.by,
        };
    }
    if is_passed_over(list, hints, detector, &reached) {
        return Course::Underway;
    }
    if let Listed::Full = list.list(reached) {
        return Course::Full;
    }
    Course::Underway
}

/// Whether the state contains the goal.
pub(crate) fn meets_goal<D: Detector>(detector: &D, state: &Row) -> bool
    ensures { result ≡ contained (D.carried detector.now).goal state.now }
{
    detector.model().goal().contained_in(state)
}

/// Whether the state is listed already or called dead. The list is asked first, since a verdict may be costly.
fn is_passed_over<D: Detector>(
    list: &FirstCome<Walked>,
    hints: &mut Hints,
    detector: &D,
    reached: &Walked,
) -> bool
    ensures { result ≡ (has same_state (arrived (contents list.now)) reached.now || D.dead detector.now reached.now.state) }
{
    is_listed(list, hints, reached) || detector.verdict(&reached.state).is_dead()
}

/// Whether the state is listed. It is looked for first where it was found before.
fn is_listed(list: &FirstCome<Walked>, hints: &mut Hints, reached: &Walked) -> bool
    ensures { result ≡ has same_state (arrived (contents list.now)) reached.now }
{
    if is_listed_at(list, hints.guess(&reached.state), reached) {
        return true;
    }
    match list.place_of(reached) {
        Some(place) => {
            hints.note(&reached.state, place);
            true
        }
        None => false,
    }
}

/// Whether the state is listed at the place.
#[tactic(auto, using(crate::proofs::Hinted::listed_where_found))]
fn is_listed_at(list: &FirstCome<Walked>, place: usize, reached: &Walked) -> bool
    ensures { result ≡ true → has same_state (arrived (contents list.now)) reached.now ≡ true }
{
    match list.get(place) {
        Some(held) => held == reached,
        None => false,
    }
}
