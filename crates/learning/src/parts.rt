//! States keep parts of themselves, which regain entries until the rules are kept.
ghost use Rattle.std.specs.Prelude.{◌≡◌, ◌≤◌, is_some, length, take, unwrap_or};
ghost use Rattle.walk.specs.Answers.{states_of};
ghost use Rattle.learning.specs.Learneds.{entries_of_learned, parts_of_learned};
ghost use Rattle.learning.specs.Learns.{entries_regained, first_parts, learned, most_regained, regain, regain_count, regain_once};
ghost use Rattle.learning.specs.Standings.{NothingKnown, TableStands};
ghost use Rattle.learning.specs.Laws.{EntriesToldAreRegained, LearnedPartsKeepTheRules, NoneIsLeftToRegain};

use crate::entries::{first_part, lowest_missing, with_entry_of};
use crate::learned::Learned;
use crate::standing::Growth;
use crate::standings::Standings;
use crate::table::{first_affected, keep_known};
use detector::Detector;
use model::row::Row;
use walk::walked::Walked;

/// Puts what each state keeps at first in the place of its part.
fn begin<D: Detector>(detector: &D, listed: &[Walked], parts: &mut [Row])
    requires { length parts.old ≡ length listed.now }
    ensures { parts.new ≡ first_parts (D.carried detector.now) (states_of listed.now) }
{
    let goal = detector.model().goal();
    for (place, walked) in listed.iter().enumerate() {
        parts[place] = first_part(goal, &walked.state);
    }
}

/// The lowest part that breaks rule 2 regains its lowest missing variable; whether one is regained.
#[tactic(auto, using(crate::proofs::Affected::none_regains, crate::proofs::Affected::is_regained, crate::proofs::Affected::one_more, crate::proofs::Affected::is_whole))]
fn regain_once<D: Detector>(
    detector: &D,
    rows: &[Row],
    listed: &[Walked],
    parts: &mut [Row],
    table: &mut [Standings],
) -> bool
    requires few { length listed.now ≤ 256 }
    requires one_for_each { length parts.old ≡ length listed.now }
    requires room { length parts.old ≤ length table.old }
    requires right { TableStands (D.carried detector.now) (D.dead detector.now) rows.now parts.old table.old }
    ensures any { result ≡ is_some (regain_once (D.carried detector.now) (D.dead detector.now) rows.now (states_of listed.now) parts.old) }
    ensures after { parts.new ≡ unwrap_or (regain_once (D.carried detector.now) (D.dead detector.now) rows.now (states_of listed.now) parts.old) parts.old }
    ensures right { TableStands (D.carried detector.now) (D.dead detector.now) rows.now parts.new table.new }
{
    let Some(place) = first_affected(detector, rows, parts, table) else {
        return false;
    };
    let state = &listed[place].state;
    let part = parts[place];
    let Some(variable) = lowest_missing(state, &part) else {
        return false;
    };
    parts[place] = with_entry_of(state, &part, variable);
    let growth = Growth {
        place,
        variable,
        entry: state.entry(variable),
    };
    keep_known(detector.model().moves(), parts, &growth, table);
    true
}

/// Entries are regained, one by one, while the lowest part that breaks rule 2 has one missing; how many.
#[tactic(auto, using(crate::proofs::Regaining::none_left, crate::proofs::Regaining::unchanged, crate::proofs::Regaining::no_more))]
fn regain<D: Detector>(
    detector: &D,
    rows: &[Row],
    listed: &[Walked],
    parts: &mut [Row],
    table: &mut [Standings],
) -> usize
    requires few { length listed.now ≤ 256 }
    requires one_for_each { length parts.old ≡ length listed.now }
    requires room { length parts.old ≤ length table.old }
    requires right { TableStands (D.carried detector.now) (D.dead detector.now) rows.now parts.old table.old }
    ensures after { parts.new ≡ regain (D.carried detector.now) (D.dead detector.now) rows.now (states_of listed.now) (most_regained (states_of listed.now)) parts.old }
    ensures entries { result ≡ regain_count (D.carried detector.now) (D.dead detector.now) rows.now (states_of listed.now) (most_regained (states_of listed.now)) parts.old }
{
    let most = 32 * listed.len();
    for entries in 0..most {
        if !regain_once(detector, rows, listed, parts, table) {
            return entries;
        }
    }
    most
}

/// Learns the parts of the states.
#[tactic(auto, using(crate::proofs::TableFacts::nothing_stands), unfolding(crate::specs::Learns::learned, crate::specs::Learns::entries_regained))]
fn learn_parts<D: Detector>(
    detector: &D,
    rows: &[Row],
    listed: &[Walked],
    parts: &mut [Row],
    table: &mut [Standings],
) -> usize
    requires few { length listed.now ≤ 256 }
    requires one_for_each { length parts.old ≡ length listed.now }
    requires room { length listed.now ≤ length table.old }
    requires new { NothingKnown table.old }
    ensures parts { parts.new ≡ learned (D.carried detector.now) (D.dead detector.now) rows.now (states_of listed.now) }
    ensures entries { result ≡ entries_regained (D.carried detector.now) (D.dead detector.now) rows.now (states_of listed.now) }
{
    begin(detector, listed, parts);
    regain(detector, rows, listed, parts, table)
}

/// The same into the front of a buffer.
fn learn_front<D: Detector>(
    detector: &D,
    rows: &[Row],
    listed: &[Walked],
    front: &mut [Row],
    table: &mut [Standings],
) -> usize
    requires few { length listed.now ≤ 256 }
    requires room { length listed.now ≤ length front.old }
    requires room_for_standings { length listed.now ≤ length table.old }
    requires new { NothingKnown table.old }
    ensures parts { take (length listed.now) front.new ≡ learned (D.carried detector.now) (D.dead detector.now) rows.now (states_of listed.now) }
    ensures entries { result ≡ entries_regained (D.carried detector.now) (D.dead detector.now) rows.now (states_of listed.now) }
    ensures room { length front.new ≡ length front.old }
{
    learn_parts(detector, rows, listed, &mut front[..listed.len()], table)
}

/// The first 256 of the list at most.
#[tactic(auto, using(lists::proofs::Fronts::front_taken))]
fn first_256(listed: &[Walked]) -> &[Walked]
    ensures first { result.now ≡ take 256 listed.now }
    ensures few { length result.now ≤ 256 }
{
    &listed[..listed.len().min(256)]
}

/// Learns states that are not too many.
fn learn_few<D: Detector>(detector: &D, rows: &[Row], listed: &[Walked]) -> Learned
    requires { length listed.now ≤ 256 }
    ensures parts { parts_of_learned result ≡ learned (D.carried detector.now) (D.dead detector.now) rows.now (states_of listed.now) }
    ensures entries { entries_of_learned result ≡ entries_regained (D.carried detector.now) (D.dead detector.now) rows.now (states_of listed.now) }
{
    let mut front = [Row::open(); 256];
    let mut table = [Standings::unknown(); 256];
    let entries = learn_front(detector, rows, listed, &mut front, &mut table);
    Learned {
        rows: front,
        count: listed.len(),
        entries,
    }
}

/// Learns the listed states, of which at most the first 256 count: each keeps a part, which regains entries until the rules are kept.
#[tactic(auto, using(crate::proofs::EntriesTold::entries_told_are_regained, crate::proofs::LearnLaws::learned_parts_keep_the_rules, crate::proofs::LearnLaws::none_is_left_to_regain))]
pub fn learn<D: Detector>(detector: &D, rows: &[Row], listed: &[Walked]) -> Learned
    ensures parts { parts_of_learned result ≡ learned (D.carried detector.now) (D.dead detector.now) rows.now (states_of (take 256 listed.now)) }
    ensures entries { entries_of_learned result ≡ entries_regained (D.carried detector.now) (D.dead detector.now) rows.now (states_of (take 256 listed.now)) }
    ensures keep_the_rules { LearnedPartsKeepTheRules }
    ensures told_are_regained { EntriesToldAreRegained }
    ensures none_is_left { NoneIsLeftToRegain }
{
    learn_few(detector, rows, first_256(listed))
}
