//! The first step of a model in hand: naming its variables.
ghost use Rattle.std.specs.Prelude.{◌≡◌, IfOk};
ghost use Rattle.model.specs.Records.{blank};
ghost use Rattle.model.specs.Drafts.{named, written, ended};
ghost use Rattle.model.specs.Writing.{variable_answer, name_variable, begin_move};

use super::{NamingVariables, WritingEnds, WritingMoves};
use crate::domain::Domain;
use refusal::Refusal;
use std::alloc::{AllocError, Global};

impl NamingVariables {
    /// A model with nothing in it. No later step asks for memory.
    pub fn new(heap: Global) -> Result<NamingVariables, AllocError>
        ensures { IfOk result (λ n. named n ≡ blank) }
    {
        Ok(NamingVariables {
            domain: Domain::with_room(heap)?,
        })
    }

    /// Names the next variable.
    pub fn name_variable(&mut self, size: u8, name: [u8; 8]) -> Result<(), Refusal>
        ensures answer { result ≡ variable_answer (named self.old) size }
        ensures after { named self.new ≡ name_variable (named self.old) size name }
    {
        self.domain.name_variable(size, name)
    }

    /// Begins the first move. No variable is named after it.
    pub fn begin_move(self, name: [u8; 8]) -> WritingMoves
        ensures { written result ≡ begin_move (named self) name }
    {
        let NamingVariables { mut domain } = self;
        let _ = domain.begin_move(name);
        WritingMoves { domain }
    }

    /// The model has no moves: its start and goal come next.
    pub fn into_ends(self) -> WritingEnds
        ensures { ended result ≡ named self }
    {
        self.domain.with_open_ends()
    }
}
