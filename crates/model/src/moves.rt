//! Moves: what each asks of a row, and what it makes of it.
ghost use Rattle.std.specs.Prelude.{◌≡◌};
ghost use Rattle.model.specs.Moves.{applicable, next_entry, progression};
ghost use Rattle.model.specs.MoveLaws.{SmallerRowKeepsMovesApplicable, SmallerRowHasSmallerProgression, ProgressionOfAStateIsItsSuccessor, StatesLeadToStates};

use crate::entry::next_entry;
use crate::row::Row;
use std::array;

/// A move: it may be made where the row does not disagree with its conditions, and then its effects hold.
#[derive(Clone, Copy, Debug)]
pub struct Move {
    pub name: [u8; 8],
    pub conditions: Row,
    pub effects: Row,
}

impl Move {
    /// Whether the move's conditions do not disagree with the row.
    pub fn applicable(&self, row: &Row) -> bool
        ensures { result ≡ applicable self.now row.now }
    {
        !self.conditions.disagrees(row)
    }

    /// What is known of a position after the move, if the row was known of it before.
    #[tactic(auto, using(crate::proofs::Progressions::smaller_applicable, crate::proofs::Progressions::smaller_progression, crate::proofs::Progressions::state_successor, crate::proofs::PlanStates::states_lead_to_states))]
    pub fn progression(&self, row: &Row) -> Row
        ensures answer { result ≡ progression self.now row.now }
        ensures applicable { SmallerRowKeepsMovesApplicable }
        ensures monotone { SmallerRowHasSmallerProgression }
        ensures states { StatesLeadToStates }
        ensures successor { ProgressionOfAStateIsItsSuccessor }
    {
        Row {
            entries: array::from_fn(|variable| self.next_entry(row, variable)),
        }
    }

    /// The entry of a variable behind the move.
    fn next_entry(&self, row: &Row, variable: usize) -> Option<u8>
        ensures { result ≡ next_entry self.now row.now variable }
    {
        next_entry(
            self.effects.entry(variable),
            row.entry(variable),
            self.conditions.entry(variable),
        )
    }
}
