//! What a sealed model answers of itself.
ghost use Rattle.std.specs.Prelude.{◌≡◌, true};
ghost use Rattle.model.specs.Drafts.{recorded};
ghost use Rattle.model.specs.Limits.{size_at, size_of};
ghost use Rattle.model.specs.Records.{row_of_model};
ghost use Rattle.model.specs.Writing.{entered, entry_answer};
ghost use Rattle.model.specs.WrongEntries.{value_checked, row_checked, RowsWithoutWrongEntriesFit};

use super::Model;
use crate::moves::Move;
use crate::row::Row;
use crate::variable::Variable;
use refusal::Refusal;

impl Model {
    /// Its variables, by number.
    pub fn variables(&self) -> &[Variable]
        ensures { result.now ≡ (recorded self.now).variables }
    {
        self.domain.variables.as_slice()
    }

    /// The size of a variable, or none where the model has no such variable.
    pub fn size(&self, variable: usize) -> Option<u8>
        ensures { result ≡ size_of (recorded self.now).variables variable }
    {
        self.domain.size(variable)
    }

    /// How many values a variable has: its size, or 0 where the model has no such variable.
    pub fn value_count(&self, variable: usize) -> u8
        ensures { result ≡ size_at (recorded self.now).variables variable }
    {
        self.domain.value_count(variable)
    }

    /// Its moves, by number.
    pub fn moves(&self) -> &[Move]
        ensures { result.now ≡ (recorded self.now).moves }
    {
        self.domain.moves.as_slice()
    }

    /// The state from which it starts.
    pub fn start(&self) -> &Row
        ensures { result.now ≡ (recorded self.now).start }
    {
        &self.start
    }

    /// The row that a state has to contain for a plan to end there.
    pub fn goal(&self) -> &Row
        ensures { result.now ≡ (recorded self.now).goal }
    {
        &self.goal
    }

    /// Whether the row is one of the model's: it gives only variables of the model, with values below their sizes.
    pub fn fits(&self, row: &Row) -> bool
        ensures { result ≡ row_of_model (recorded self.now) row.now }
    {
        self.domain.fits(row)
    }

    /// Enters the value in the row, where the model has the variable, the value is below its size, and the row leaves it open.
    pub fn enter(&self, row: &mut Row, variable: usize, value: u8) -> Result<(), Refusal>
        ensures answer { result ≡ entry_answer (recorded self.now).variables row.old variable value }
        ensures after { row.new ≡ entered (recorded self.now).variables row.old variable value }
        ensures fits { row_of_model (recorded self.now) row.old ≡ true → row_of_model (recorded self.now) row.new ≡ true }
    {
        self.domain.enter(row, variable, value)
    }

    /// Whether the row is one of the model's, and if not, why its first wrong entry is refused: there is no such variable, or the value is not
    /// below its size.
    #[tactic(auto, using(crate::proofs::WrongEntries::checked_rows_fit))]
    pub fn check_row(&self, row: &Row) -> Result<(), Refusal>
        ensures answer { result ≡ row_checked (recorded self.now).variables row.now }
        ensures exact { RowsWithoutWrongEntriesFit }
    {
        self.check_entries(row)
    }

    /// The same, entry by entry.
    #[tactic(auto, using(crate::proofs::WrongEntries::passed, crate::proofs::WrongEntries::refused, crate::proofs::WrongEntries::ended))]
    fn check_entries(&self, row: &Row) -> Result<(), Refusal>
        ensures { result ≡ row_checked (recorded self.now).variables row.now }
    {
        for variable in 0..32 {
            if let Err(refusal) = self.check_entry(variable, row.entry(variable)) {
                return Err(refusal);
            }
        }
        Ok(())
    }

    /// Whether the variable may have the entry.
    fn check_entry(&self, variable: usize, entry: Option<u8>) -> Result<(), Refusal>
        ensures { result ≡ value_checked (recorded self.now).variables variable entry }
    {
        let Some(value) = entry else {
            return Ok(());
        };
        match self.size(variable) {
            None => Err(Refusal::NoSuchVariable),
            Some(size) if value < size => Ok(()),
            Some(_) => Err(Refusal::ValueTooLarge),
        }
    }
}
