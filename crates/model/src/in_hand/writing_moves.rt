//! The second step of a model in hand: writing its moves.
ghost use Rattle.std.specs.Prelude.{◌≡◌};
ghost use Rattle.model.specs.Drafts.{written, ended};
ghost use Rattle.model.specs.Writing.{move_answer, begin_move, part_answer, enter_part, condition_answer, enter_condition, effect_answer, enter_effect};

use super::{Part, WritingEnds, WritingMoves};
use refusal::Refusal;

impl WritingMoves {
    /// Begins the next move.
    pub fn begin_move(&mut self, name: [u8; 8]) -> Result<(), Refusal>
        ensures answer { result ≡ move_answer (written self.old) }
        ensures after { written self.new ≡ begin_move (written self.old) name }
    {
        self.domain.begin_move(name)
    }

    /// Enters a condition in the move begun last.
    pub fn condition(&mut self, variable: usize, value: u8) -> Result<(), Refusal>
        ensures answer { result ≡ condition_answer (written self.old) variable value }
        ensures after { written self.new ≡ enter_condition (written self.old) variable value }
    {
        self.enter_part(Part::Conditions, variable, value)
    }

    /// Enters an effect in the move begun last.
    pub fn effect(&mut self, variable: usize, value: u8) -> Result<(), Refusal>
        ensures answer { result ≡ effect_answer (written self.old) variable value }
        ensures after { written self.new ≡ enter_effect (written self.old) variable value }
    {
        self.enter_part(Part::Effects, variable, value)
    }

    /// Enters a value in one of the rows of the move begun last.
    pub fn enter_part(&mut self, part: Part, variable: usize, value: u8) -> Result<(), Refusal>
        ensures answer { result ≡ part_answer part (written self.old) variable value }
        ensures after { written self.new ≡ enter_part part (written self.old) variable value }
    {
        self.domain.enter_part(part, variable, value)
    }

    /// The moves are written: the start and the goal come next.
    pub fn into_ends(self) -> WritingEnds
        ensures { ended result ≡ written self }
    {
        self.domain.with_open_ends()
    }
}
