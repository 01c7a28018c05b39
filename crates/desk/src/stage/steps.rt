//! The commands that write a model, at any step of it.
ghost use Rattle.std.specs.Prelude.{◌≡◌};
ghost use Rattle.sheet.specs.Reading.{told};
ghost use Rattle.model.specs.Drafts.{ended};
ghost use Rattle.desk.specs.Stages.{phase_of, record_so_far, stage_told, seal_told, turn_told};
ghost use Rattle.desk.specs.Steps.{variable_step, move_step, part_step, end_step, seal_step, step};

use super::Stage;
use model::in_hand::{End, Part, WritingEnds};
use model::sealed::Model;
use refusal::Refusal;
use sheet::Command;
use std::ops::ControlFlow::{self, Break, Continue};

impl Stage {
    fn name_variable(self, size: u8, name: [u8; 8]) -> Result<Stage, Refusal>
        ensures { stage_told result ≡ variable_step (phase_of self) (record_so_far self) size name }
    {
        match self {
            Stage::Variables(mut naming) => {
                naming.name_variable(size, name)?;
                Ok(Stage::Variables(naming))
            }
            _ => Err(Refusal::OutOfTurn),
        }
    }

    /// Begins a move. The first one ends the naming of variables.
    fn begin_move(self, name: [u8; 8]) -> Result<Stage, Refusal>
        ensures { stage_told result ≡ move_step (phase_of self) (record_so_far self) name }
    {
        match self {
            Stage::Variables(naming) => Ok(Stage::Moves(naming.begin_move(name))),
            Stage::Moves(mut moves) => {
                moves.begin_move(name)?;
                Ok(Stage::Moves(moves))
            }
            Stage::Ends(_) => Err(Refusal::OutOfTurn),
        }
    }

    /// Enters a value in one of the rows of the move begun last.
    fn enter_part(self, part: Part, variable: u8, value: u8) -> Result<Stage, Refusal>
        ensures { stage_told result ≡ part_step part (phase_of self) (record_so_far self) variable value }
    {
        match self {
            Stage::Moves(mut moves) => {
                moves.enter_part(part, usize::from(variable), value)?;
                Ok(Stage::Moves(moves))
            }
            _ => Err(Refusal::OutOfTurn),
        }
    }

    /// The start and the goal come next, whatever was written before.
    fn into_ends(self) -> WritingEnds
        ensures { ended result ≡ record_so_far self }
    {
        match self {
            Stage::Variables(naming) => naming.into_ends(),
            Stage::Moves(moves) => moves.into_ends(),
            Stage::Ends(ends) => ends,
        }
    }

    /// Enters a value of the start or of the goal.
    fn enter_end(self, end: End, variable: u8, value: u8) -> Result<Stage, Refusal>
        ensures { stage_told result ≡ end_step end (record_so_far self) variable value }
    {
        let mut ends = self.into_ends();
        ends.enter_end(end, usize::from(variable), value)?;
        Ok(Stage::Ends(ends))
    }

    fn seal(self) -> Result<Model, Refusal>
        ensures { seal_told result ≡ seal_step (record_so_far self) }
    {
        self.into_ends()
            .seal()
            .map_err(|_| Refusal::StartIncomplete)
    }

    /// Carries out one command of the model part: the model in hand goes on, or it is sealed.
    pub(crate) fn take(self, command: Command) -> Result<ControlFlow<Model, Stage>, Refusal>
        ensures { turn_told result ≡ step (phase_of self) (record_so_far self) (told command.entry) }
    {
        match command {
            Command::Variable { size, name } => self.name_variable(size, *name).map(Continue),
            Command::Move { name } => self.begin_move(*name).map(Continue),
            Command::Condition { variable, value } => self
                .enter_part(Part::Conditions, variable, value)
                .map(Continue),
            Command::Effect { variable, value } => self
                .enter_part(Part::Effects, variable, value)
                .map(Continue),
            Command::Start { variable, value } => self
                .enter_end(End::Start, variable, value)
                .map(Continue),
            Command::Goal { variable, value } => self
                .enter_end(End::Goal, variable, value)
                .map(Continue),
            Command::Seal => self.seal().map(Break),
            Command::Fault(fault) => Err(fault.into()),
            _ => Err(Refusal::OutOfTurn),
        }
    }
}
