//! A row in hand is filled, moved to the list and dropped.
ghost use Rattle.std.specs.Prelude.{◌≡◌, IfOk};
ghost use Rattle.model.specs.Drafts.{recorded};
ghost use Rattle.hand.specs.Gathering.{nothing, gathered, enter_answer, after_entry, next_answer, after_next, without_row, without_list};
ghost use Rattle.hand.specs.ReadBack.{WrittenRowsReadBack};

use super::Gathered;
use model::row::Row;
use model::sealed::Model;
use refusal::Refusal;
use std::alloc::{AllocError, Global};

impl Gathered {
    /// Nothing in hand, and an empty list. Filling it asks for no more memory.
    pub fn open(heap: Global) -> Result<Gathered, AllocError>
        ensures { IfOk result (λ g. gathered g ≡ nothing) }
    {
        let list = Vec::with_capacity(heap, 256)?;
        Ok(Gathered {
            row: Row::open(),
            list,
        })
    }

    /// The row in hand.
    pub fn row(&self) -> &Row
        ensures { result.now ≡ (gathered self.now).hand }
    {
        &self.row
    }

    /// The rows of the list, in the order in which they joined it.
    pub fn list(&self) -> &[Row]
        ensures { result.now ≡ (gathered self.now).list }
    {
        self.list.as_slice()
    }

    /// Enters the value in the row in hand, where the model has the variable, the value is below its size, and the row leaves it open.
    pub fn enter(&mut self, model: &Model, variable: usize, value: u8) -> Result<(), Refusal>
        ensures answer { result ≡ enter_answer (recorded model.now).variables (gathered self.old) variable value }
        ensures after { gathered self.new ≡ after_entry (recorded model.now).variables (gathered self.old) variable value }
    {
        model.enter(&mut self.row, variable, value)
    }

    /// Moves the row in hand to the list, where there are less than 256; the hand is then open. The law that what is written of rows offers them again
    /// stands here, since it is by this step that each of them joins the list that is offered.
    #[tactic(auto, using(crate::proofs::ReadBack::rows_read_back))]
    pub fn next(&mut self) -> Result<(), Refusal>
        ensures answer { result ≡ next_answer (gathered self.old) }
        ensures after { gathered self.new ≡ after_next (gathered self.old) }
        ensures written_reads_back { WrittenRowsReadBack }
    {
        if self.list.len() >= 256 {
            return Err(Refusal::TooMany);
        }
        self.list.push_reserved(self.row);
        self.drop_row();
        Ok(())
    }

    /// Drops the row in hand.
    pub fn drop_row(&mut self)
        ensures { gathered self.new ≡ without_row (gathered self.old) }
    {
        self.row = Row::open();
    }

    /// Drops the rows of the list.
    pub fn drop_list(&mut self)
        ensures { gathered self.new ≡ without_list (gathered self.old) }
    {
        self.list.clear();
    }
}
