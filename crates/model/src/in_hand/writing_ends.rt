//! The third step of a model in hand: writing its start and its goal, and sealing it.
ghost use Rattle.std.specs.Prelude.{◌≡◌, IfOk, IfErr};
ghost use Rattle.model.specs.Drafts.{ended, recorded, sealed_or_back};
ghost use Rattle.model.specs.Records.{Sealed};
ghost use Rattle.model.specs.Writing.{end_answer, enter_end, start_answer, enter_start, goal_answer, enter_goal, seal_answer, sealing};

use super::{End, WritingEnds};
use crate::sealed::Model;
use refusal::Refusal;

impl WritingEnds {
    /// Enters a value of the start.
    pub fn start(&mut self, variable: usize, value: u8) -> Result<(), Refusal>
        ensures answer { result ≡ start_answer (ended self.old) variable value }
        ensures after { ended self.new ≡ enter_start (ended self.old) variable value }
    {
        self.enter_end(End::Start, variable, value)
    }

    /// Enters a value of the goal.
    pub fn goal(&mut self, variable: usize, value: u8) -> Result<(), Refusal>
        ensures answer { result ≡ goal_answer (ended self.old) variable value }
        ensures after { ended self.new ≡ enter_goal (ended self.old) variable value }
    {
        self.enter_end(End::Goal, variable, value)
    }

    /// Enters a value of one of the two ends.
    pub fn enter_end(&mut self, end: End, variable: usize, value: u8) -> Result<(), Refusal>
        ensures answer { result ≡ end_answer end (ended self.old) variable value }
        ensures after { ended self.new ≡ enter_end end (ended self.old) variable value }
    {
        match end {
            End::Start => self.domain.enter(&mut self.start, variable, value),
            End::Goal => self.domain.enter(&mut self.goal, variable, value),
        }
    }

    /// Whether the model may be sealed: its start leaves no variable open.
    pub fn may_be_sealed(&self) -> Result<(), Refusal>
        ensures { result ≡ seal_answer (ended self.now) }
    {
        if self.domain.given_by(&self.start) {
            Ok(())
        } else {
            Err(Refusal::StartIncomplete)
        }
    }

    /// Seals the model, or gives it back as it was where it may not be sealed.
    pub fn seal(self) -> Result<Model, WritingEnds>
        ensures answer { sealed_or_back result ≡ sealing (ended self) }
        ensures sealed { IfOk result (λ m. Sealed (recorded m)) }
        ensures given_back { IfErr result (λ e. e ≡ self) }
    {
        match self.may_be_sealed() {
            Ok(()) => Ok(Model {
                domain: self.domain,
                start: self.start,
                goal: self.goal,
            }),
            Err(_) => Err(self),
        }
    }
}
