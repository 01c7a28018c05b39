//! A domain is filled, and rows over its variables are entered and tested.
ghost use Rattle.std.specs.Prelude.{◌≡◌, ◌<◌, true, length, vec_items, IfOk};
ghost use Rattle.model.specs.Drafts.{drafted, ended};
ghost use Rattle.model.specs.Limits.{size_at, size_of, entry_fits, row_fits, complete};
ghost use Rattle.model.specs.Records.{blank};
ghost use Rattle.model.specs.Tables.{table_moves};
ghost use Rattle.model.specs.Writing.{variable_answer, name_variable, move_answer, begin_move, entry_answer, entered, part_of, move_entered, part_answer, enter_part};

use super::Domain;
use crate::in_hand::{Part, WritingEnds};
use crate::moves::Move;
use crate::row::Row;
use crate::table::MoveTable;
use crate::variable::Variable;
use refusal::Refusal;
use std::alloc::{AllocError, Global};

impl Domain {
    /// An empty domain. Filling it asks for no more memory.
    pub(crate) fn with_room(heap: Global) -> Result<Domain, AllocError>
        ensures { IfOk result (λ d. drafted d ≡ blank) }
    {
        let variables = Vec::with_capacity(heap, 32)?;
        let moves = MoveTable::with_room(heap)?;
        Ok(Domain { variables, moves })
    }

    /// Names the next variable. No move is begun before.
    pub(crate) fn name_variable(&mut self, size: u8, name: [u8; 8]) -> Result<(), Refusal>
        requires { length (table_moves self.old.moves) ≡ 0 }
        ensures answer { result ≡ variable_answer (drafted self.old) size }
        ensures after { drafted self.new ≡ name_variable (drafted self.old) size name }
        ensures same_moves { table_moves self.new.moves ≡ table_moves self.old.moves }
    {
        if self.variables.len() >= 32 {
            return Err(Refusal::TooMany);
        }
        if size == 0 || size > 16 {
            return Err(Refusal::SizeOutOfRange);
        }
        self.variables.push_reserved(Variable { name, size });
        Ok(())
    }

    /// Begins the next move.
    pub(crate) fn begin_move(&mut self, name: [u8; 8]) -> Result<(), Refusal>
        ensures answer { result ≡ move_answer (drafted self.old) }
        ensures after { drafted self.new ≡ begin_move (drafted self.old) name }
    {
        self.moves.begin(name)
    }

    /// Enters a value in one of the rows of the move begun last.
    pub(crate) fn enter_part(
        &mut self,
        part: Part,
        variable: usize,
        value: u8,
    ) -> Result<(), Refusal>
        requires { 0 < length (table_moves self.old.moves) }
        ensures answer { result ≡ part_answer part (drafted self.old) variable value }
        ensures after { drafted self.new ≡ enter_part part (drafted self.old) variable value }
        ensures some { 0 < length (table_moves self.new.moves) }
    {
        match self.moves.last() {
            Some(last) => enter_in_move(self.variables.as_slice(), last, part, variable, value),
            None => unreachable(),
        }
    }

    /// Enters a value in a row over the variables.
    pub(crate) fn enter(&self, row: &mut Row, variable: usize, value: u8) -> Result<(), Refusal>
        ensures answer { result ≡ entry_answer (vec_items self.now.variables) row.old variable value }
        ensures after { row.new ≡ entered (vec_items self.now.variables) row.old variable value }
        ensures fits { row_fits (vec_items self.now.variables) row.old ≡ true → row_fits (vec_items self.now.variables) row.new ≡ true }
    {
        enter(self.variables.as_slice(), row, variable, value)
    }

    /// The size of a variable, or none where there is no such variable.
    pub(crate) fn size(&self, variable: usize) -> Option<u8>
        ensures { result ≡ size_of (vec_items self.now.variables) variable }
    {
        self.variables.get(variable).map(|found| found.size)
    }

    /// How many values a variable has: its size, or 0 where there is no such variable.
    pub(crate) fn value_count(&self, variable: usize) -> u8
        ensures { result ≡ size_at (vec_items self.now.variables) variable }
    {
        self.size(variable).unwrap_or(0)
    }

    /// Whether the row gives only its variables, with values below their sizes.
    pub(crate) fn fits(&self, row: &Row) -> bool
        ensures { result ≡ row_fits (vec_items self.now.variables) row.now }
    {
        (0..32).all(|variable| entry_fits(self.value_count(variable), row.entry(variable)))
    }

    /// Whether the row gives every variable.
    pub(crate) fn given_by(&self, row: &Row) -> bool
        ensures { result ≡ complete (vec_items self.now.variables) row.now }
    {
        (0..self.variables.len()).all(|variable| row.gives(variable))
    }

    /// The model whose start and goal are still to be written.
    pub(crate) fn with_open_ends(self) -> WritingEnds
        ensures { ended result ≡ drafted self }
    {
        WritingEnds {
            domain: self,
            start: Row::open(),
            goal: Row::open(),
        }
    }
}

/// Enters the value where the variable is one of these, the value is below its size, and the row leaves it open.
fn enter(variables: &[Variable], row: &mut Row, variable: usize, value: u8) -> Result<(), Refusal>
    ensures answer { result ≡ entry_answer variables.now row.old variable value }
    ensures after { row.new ≡ entered variables.now row.old variable value }
{
    let Some(found) = variables.get(variable) else {
        return Err(Refusal::NoSuchVariable);
    };
    if value >= found.size {
        return Err(Refusal::ValueTooLarge);
    }
    if row.gives(variable) {
        return Err(Refusal::EntryTwice);
    }
    row.set(variable, value);
    Ok(())
}

/// Enters the value in one of the two rows of a move.
fn enter_in_move(
    variables: &[Variable],
    written: &mut Move,
    part: Part,
    variable: usize,
    value: u8,
) -> Result<(), Refusal>
    ensures answer { result ≡ entry_answer variables.now (part_of part written.old) variable value }
    ensures after { written.new ≡ move_entered part variables.now written.old variable value }
{
    match part {
        Part::Conditions => enter(variables, &mut written.conditions, variable, value),
        Part::Effects => enter(variables, &mut written.effects, variable, value),
    }
}

/// Whether the entry is open or a value below the size.
fn entry_fits(size: u8, entry: Option<u8>) -> bool
    ensures { result ≡ entry_fits size entry }
{
    entry.is_none_or(|value| value < size)
}
