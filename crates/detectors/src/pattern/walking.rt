//! A walk over cuts.
ghost use Rattle.std.specs.Prelude.{◌≡◌};
ghost use Rattle.first_come.specs.Arrivals.{arrived, keep_all};
ghost use Rattle.detectors.specs.Cuts.{same_cut};
ghost use Rattle.detectors.specs.CutWalk.{result_of, results, walk_from, some_contains, cut_off};
ghost use Rattle.detectors.specs.WalkedList.{cuts};

use crate::pattern::cut::{Cut, CutMove};
use first_come::marked::MarkedList;

/// A pattern has at most this many cuts that give all its variables.
const PLACES: usize = 512;

/// There are as many marks as ways to give or leave open three entries with 16 values each.
const MARKS: usize = 17 * 17 * 17;

/// Whether no cut reached from the first, itself counted, contains the goal.
pub(crate) fn is_cut_off(moves: &[CutMove], goal: &Cut, first: Cut) -> bool
    ensures { result ≡ cut_off moves.now goal.now first }
{
    let mut places = [Cut::default(); PLACES];
    let mut walk = Walk {
        cuts: MarkedList::new(&mut places),
    };
    walk.cuts.list(first);
    walk.go_on(moves);
    !walk.contains(goal)
}

/// The cuts that a walk has come to, each listed once.
#[derive(Drop)]
struct Walk<'a> {
    cuts: MarkedList<'a, Cut, MARKS>,
}

impl Walk<'_> {
    /// Takes the listed cuts in order, and lists what each leads to.
    #[tactic(auto, using(crate::proofs::WalkSteps::walk_on, crate::proofs::WalkSteps::walk_end, crate::proofs::WalkSteps::walk_full))]
    fn go_on(&mut self, moves: &[CutMove])
        ensures { cuts self.new ≡ walk_from 512 0 (cuts self.old) moves.now }
    {
        // By places, since the list grows as they are taken.
        for place in 0..PLACES {
            let Some(from) = self.cuts.get(place).copied() else {
                return;
            };
            self.follow_all(moves, &from);
        }
    }

    /// Lists the cuts to which the moves lead.
    #[tactic(auto, using(crate::proofs::WalkSteps::follow_next))]
    fn follow_all(&mut self, moves: &[CutMove], from: &Cut)
        ensures { cuts self.new ≡ keep_all same_cut (cuts self.old) (results moves.now from.now) }
    {
        for step in moves {
            self.follow(step, from);
        }
    }

    /// Lists the cut to which the move leads, if it is applicable.
    fn follow(&mut self, step: &CutMove, from: &Cut)
        ensures { cuts self.new ≡ keep_all same_cut (cuts self.old) (result_of step.now from.now) }
    {
        if step.applicable(from) {
            self.cuts.list(step.progression(from));
        }
    }

    /// Whether one of the cuts contains the goal.
    fn contains(&self, goal: &Cut) -> bool
        ensures { result ≡ some_contains goal.now (arrived (cuts self.now)) }
    {
        self.cuts
            .as_slice()
            .iter()
            .any(|held| goal.contained_in(held))
    }
}
