//! Candidates are marked, round by round, until a round marks nothing.
//!
//! A round need not look at each move of each candidate anew: what is known of it from the rounds before is kept in a table, with standings for each
//! candidate. So a candidate that covers a progression is looked for only where the one that covered it was marked, and only behind that one.
ghost use Rattle.std.specs.Prelude.{◌≡◌, ◌≤◌, length, map, replicate, suc, take};
ghost use Rattle.std.specs.List.{list_any};
ghost use Rattle.settling.specs.Candidates.{after, at_start, marked_by, unmarked};
ghost use Rattle.settling.specs.Laws.{LargestThatKeepsTheRules};
ghost use Rattle.settling.specs.Rounds.{after_rounds, left_of, round_count, rounds_for};
ghost use Rattle.settling.specs.Sifteds.{rounds_of_sifted, rows_of_sifted};
ghost use Rattle.settling.specs.Standings.{TableStands, unseen};

use crate::candidate::Candidate;
use crate::sifted::Sifted;
use crate::standings::Standings;
use detector::Detector;
use model::row::Row;

/// Puts the rows in the places of the candidates: marked are those that do not disagree with the goal.
fn begin<B: Detector>(book: &B, list: &[Row], candidates: &mut [Candidate])
    requires { length candidates.old ≡ length list.now }
    ensures { candidates.new ≡ map (at_start (B.carried book.now).goal) list.now }
{
    let goal = book.model().goal();
    for (place, row) in list.iter().enumerate() {
        candidates[place] = Candidate::at_start(row, goal);
    }
}

/// One round, by the marks with which it began; whether it marks a candidate.
#[tactic(auto, using(crate::proofs::Tables::row_of_table, crate::proofs::Tables::table_stands, crate::proofs::Marks::one_candidate_more, crate::proofs::Marks::one_answer_more))]
fn round<B: Detector>(
    book: &B,
    begun: &[Candidate],
    table: &mut [Standings],
    candidates: &mut [Candidate],
) -> bool
    requires few { length begun.now ≤ 256 }
    requires room { length begun.now ≤ length table.old }
    requires same { length candidates.old ≡ length begun.now }
    requires stood { TableStands (B.dead book.now) begun.now (B.carried book.now).moves table.old }
    ensures marks { result ≡ list_any (marked_by (B.carried book.now) (B.dead book.now) (unmarked begun.now)) begun.now }
    ensures after { candidates.new ≡ map (after (B.carried book.now) (B.dead book.now) (unmarked begun.now)) begun.now }
    ensures stand { TableStands (B.dead book.now) begun.now (B.carried book.now).moves table.new }
{
    let mut marks = false;
    for (place, candidate) in begun.iter().enumerate() {
        let leads_out = table[place].mark(book, begun, candidate);
        candidates[place] = candidate.marked_if(leads_out);
        marks |= leads_out;
    }
    marks
}

/// Rounds until one marks nothing; how many. The candidates are copied to `begun` as each round begins.
#[tactic(auto, using(crate::proofs::Tables::stand_behind, crate::proofs::Marks::unmarked_at_first, crate::proofs::Marks::round_goes_on, crate::proofs::Marks::last_round_leaves, crate::proofs::Marks::last_round_counts, crate::proofs::Marks::fewer_unmarked))]
fn make_rounds<B: Detector>(
    book: &B,
    candidates: &mut [Candidate],
    begun: &mut [Candidate],
    table: &mut [Standings],
) -> usize
    requires few { length candidates.old ≤ 256 }
    requires room { length candidates.old ≤ length table.old }
    requires same { length begun.old ≡ length candidates.old }
    requires stood { TableStands (B.dead book.now) candidates.old (B.carried book.now).moves table.old }
    ensures left { unmarked candidates.new ≡ after_rounds (B.carried book.now) (B.dead book.now) (suc (length candidates.old)) (unmarked candidates.old) }
    ensures rounds { result ≡ round_count (B.carried book.now) (B.dead book.now) (suc (length candidates.old)) (unmarked candidates.old) }
{
    let mut rounds = 1;
    // The label is the name by which the proof knows the loop.
    'rounds: loop {
        begun.copy_from_slice(candidates);
        if !round(book, begun, table, candidates) {
            return rounds;
        }
        rounds += 1;
    }
}

/// Settles the rows as candidates in these places; how many rounds it takes.
#[tactic(auto, using(crate::proofs::Tables::unseen_stand, crate::proofs::Marks::unmarked_begun))]
fn settle_in<B: Detector>(
    book: &B,
    list: &[Row],
    candidates: &mut [Candidate],
    begun: &mut [Candidate],
    table: &mut [Standings],
) -> usize
    requires few { length list.now ≤ 256 }
    requires same { length candidates.old ≡ length list.now }
    requires same_begun { length begun.old ≡ length list.now }
    requires unseen { table.old ≡ replicate 256 unseen }
    ensures left { unmarked candidates.new ≡ left_of (B.carried book.now) (B.dead book.now) list.now }
    ensures rounds { result ≡ rounds_for (B.carried book.now) (B.dead book.now) list.now }
{
    begin(book, list, candidates);
    make_rounds(book, candidates, begun, table)
}

/// Copies the rows of the unmarked candidates to the front; how many there are.
#[tactic(auto, using(crate::proofs::Marks::none_unmarked, crate::proofs::Marks::marked_left))]
fn copy_unmarked(candidates: &[Candidate], front: &mut [Row]) -> usize
    requires { length candidates.now ≤ length front.old }
    ensures left { take result front.new ≡ unmarked candidates.now }
    ensures few { result ≤ length candidates.now }
{
    let mut count = 0;
    for candidate in candidates {
        if candidate.marked {
            continue;
        }
        front[count] = candidate.row;
        count += 1;
    }
    count
}

/// Settles candidates that are not too many.
fn settle_few<B: Detector>(book: &B, list: &[Row]) -> Sifted
    requires { length list.now ≤ 256 }
    ensures left { rows_of_sifted result ≡ left_of (B.carried book.now) (B.dead book.now) list.now }
    ensures rounds { rounds_of_sifted result ≡ rounds_for (B.carried book.now) (B.dead book.now) list.now }
{
    let mut candidates = [Candidate::blank(); 256];
    let mut begun = [Candidate::blank(); 256];
    let mut table = [Standings::unseen(); 256];
    let count = list.len();
    let rounds = settle_in(
        book,
        list,
        &mut candidates[..count],
        &mut begun[..count],
        &mut table,
    );
    let mut rows = [Row::open(); 256];
    let count = copy_unmarked(&candidates[..count], &mut rows);
    Sifted {
        rows,
        count,
        rounds,
    }
}

/// The first 256 of the list at most.
#[tactic(auto, using(lists::proofs::Fronts::front_taken))]
fn first_256(list: &[Row]) -> &[Row]
    ensures first { result.now ≡ take 256 list.now }
    ensures few { length result.now ≤ 256 }
{
    &list[..list.len().min(256)]
}

/// Settles the rows of the list, of which at most the first 256 count: marks them, round by round, until those that are left keep both rules.
#[tactic(auto, using(crate::proofs::Largest::largest_is_left))]
pub fn settle<B: Detector>(book: &B, list: &[Row]) -> Sifted
    ensures left { rows_of_sifted result ≡ left_of (B.carried book.now) (B.dead book.now) (take 256 list.now) }
    ensures rounds { rounds_of_sifted result ≡ rounds_for (B.carried book.now) (B.dead book.now) (take 256 list.now) }
    ensures largest { LargestThatKeepsTheRules (B.carried book.now) (B.dead book.now) (take 256 list.now) (rows_of_sifted result) }
{
    settle_few(book, first_256(list))
}
