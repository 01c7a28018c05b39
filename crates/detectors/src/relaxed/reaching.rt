//! The facts that are reached from a row.
ghost use Rattle.std.specs.Prelude.{◌≡◌, ◌≤◌, length};
ghost use Rattle.first_come.specs.Arrivals.{arrived, keep_all};
ghost use Rattle.model.specs.Drafts.{recorded};
ghost use Rattle.detectors.specs.Facts.{same_fact, values_of, given_fact, entry_facts, row_facts, given_facts, entry_reached, all_reached};
ghost use Rattle.detectors.specs.Closure.{round, closure, goal_missed};
ghost use Rattle.detectors.specs.ReachedList.{facts};
ghost use Rattle.detectors.specs.KnownMoves.{Known, EachKnown, Tried, ReachedUpTo};

use super::fact::Fact;
use first_come::marked::MarkedList;
use model::moves::Move;
use model::row::Row;
use model::sealed::Model;

/// Whether some goal fact is not reached from the row.
pub(crate) fn goal_missed(model: &Model, row: &Row) -> bool
    ensures { result ≡ goal_missed (recorded model.now) row.now }
{
    // A model has at most 32 variables with 16 values each: every fact finds a place, and has a mark.
    // An array, since a verdict may not fail for want of memory.
    let mut places = [Fact::default(); 512];
    let mut reached = Reached {
        facts: MarkedList::new(&mut places),
    };
    reached.list_row(model, row);
    reached.saturate(model.moves());
    !reached.all_reached(model.goal())
}

/// The facts that are reached, each listed once.
#[derive(Drop)]
struct Reached<'a> {
    facts: MarkedList<'a, Fact, 512>,
}

impl Reached<'_> {
    /// Lists the facts that a row begins with.
    #[tactic(auto, using(crate::proofs::FactsOfRows::listed_one, crate::proofs::FactsOfRows::listed_all))]
    fn list_row(&mut self, model: &Model, row: &Row)
        ensures { facts self.new ≡ keep_all same_fact (facts self.old) (row_facts (recorded model.now).variables row.now) }
    {
        for variable in 0..32u8 {
            let index = usize::from(variable);
            self.list_entry(variable, model.value_count(index), row.entry(index));
        }
    }

    /// Lists a given entry's fact, or every fact of an open variable.
    fn list_entry(&mut self, variable: u8, size: u8, entry: Option<u8>)
        ensures { facts self.new ≡ keep_all same_fact (facts self.old) (entry_facts variable size entry) }
    {
        match entry {
            Some(value) => self.facts.list(Fact { variable, value }),
            None => self.list_values(variable, size),
        }
    }

    /// Lists the facts of a variable with each value below its size.
    #[tactic(auto, using(crate::proofs::FactsOfRows::listed_one, crate::proofs::FactsOfRows::listed_all))]
    fn list_values(&mut self, variable: u8, size: u8)
        ensures { facts self.new ≡ keep_all same_fact (facts self.old) (values_of variable size) }
    {
        for value in 0..size {
            self.facts.list(Fact { variable, value });
        }
    }

    /// Tries the moves, round after round, until a round adds no fact.
    #[tactic(auto, using(crate::proofs::Rounds::closure_end))]
    fn saturate(&mut self, moves: &[Move])
        requires { length moves.now ≤ 128 }
        ensures { facts self.new ≡ closure (facts self.old) moves.now }
    {
        // Of each move, how many of its first conditions are known to be reached: these stay so, and are not looked at again.
        let mut known = [0; 128];
        loop {
            let before = self.facts.len();
            self.try_all(moves, &mut known);
            if self.facts.len() == before {
                return;
            }
        }
    }

    /// Tries each move once, in order.
    fn try_all(&mut self, moves: &[Move], known: &mut [u8])
        requires long { length moves.now ≤ length known.old }
        requires known { EachKnown (facts self.old) moves.now known.old }
        ensures facts { facts self.new ≡ round (facts self.old) moves.now }
        ensures long { length known.new ≡ length known.old }
        ensures known { EachKnown (facts self.new) moves.now known.new }
    {
        for index in 0..moves.len() {
            known[index] = self.try_move(&moves[index], known[index]);
        }
    }

    /// Lists a move's effect facts if its condition facts are all reached, unless that is done, and tells how many of the first
    /// conditions are known to be reached now.
    #[tactic(auto, using(crate::proofs::KnownMoves::tried_before, crate::proofs::KnownMoves::tried_now))]
    fn try_move(&mut self, m: &Move, known: u8) -> u8
        requires { Known (facts self.old) m.now known }
        ensures { Tried (facts self.old) m.now (facts self.new) result }
    {
        if known >= 32 {
            return known;
        }
        let reached = self.count_conditions(m, known);
        if reached == 32 {
            self.list_given(&m.effects);
        }
        reached
    }

    /// How many of the move's first conditions are reached, where so many are known to be.
    fn count_conditions(&self, m: &Move, known: u8) -> u8
        ensures { ReachedUpTo (facts self.now) m.now.conditions known result }
    {
        self.count_reached(&m.conditions, known)
    }

    /// How many of the row's first entries are reached, where so many are known to be.
    fn count_reached(&self, row: &Row, known: u8) -> u8
        ensures { ReachedUpTo (facts self.now) row.now known result }
    {
        for variable in known..32 {
            if !self.entry_reached(variable, row.entry(usize::from(variable))) {
                return variable;
            }
        }
        32
    }

    /// Lists the facts of a row's given entries.
    #[tactic(auto, using(crate::proofs::FactsOfRows::listed_one, crate::proofs::FactsOfRows::listed_all))]
    fn list_given(&mut self, row: &Row)
        ensures { facts self.new ≡ keep_all same_fact (facts self.old) (given_facts row.now) }
    {
        for variable in 0..32u8 {
            self.list_given_entry(variable, row.entry(usize::from(variable)));
        }
    }

    /// Lists an entry's fact, if it is given.
    fn list_given_entry(&mut self, variable: u8, entry: Option<u8>)
        ensures { facts self.new ≡ keep_all same_fact (facts self.old) (given_fact variable entry) }
    {
        if let Some(value) = entry {
            self.facts.list(Fact { variable, value });
        }
    }

    /// Whether the fact of each given entry is listed.
    fn all_reached(&self, row: &Row) -> bool
        ensures { result ≡ all_reached (arrived (facts self.now)) row.now }
    {
        (0..32u8).all(|variable| self.entry_reached(variable, row.entry(usize::from(variable))))
    }

    /// Whether the entry is open, or its fact is listed. By a `match`, for through `is_none_or` the proof does not close.
    fn entry_reached(&self, variable: u8, entry: Option<u8>) -> bool
        ensures { result ≡ entry_reached (arrived (facts self.now)) variable entry }
    {
        match entry {
            Some(value) => self.facts.holds(&Fact { variable, value }),
            None => true,
        }
    }
}
