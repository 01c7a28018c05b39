//! Rows are made, read, changed and compared.
ghost use Rattle.std.specs.Prelude.{◌≡◌, Some, is_some, Decides};
ghost use Rattle.model.specs.Rows.{at, filled_row, open_row, with_entry, contained, disagree, same_row};
ghost use Rattle.model.specs.RowLaws.{ContainmentIsReflexive, ContainmentIsTransitive, ContainmentIsAntisymmetric};
ghost use Rattle.model.specs.SameRows.{same_row_laws};

use super::Row;
use crate::entry::{entries_differ, entries_same, entry_kept};

impl Row {
    /// The row that gives nothing.
    pub fn open() -> Row
        ensures { result ≡ open_row }
    {
        Row::filled(None)
    }

    /// The row with the same entry everywhere.
    fn filled(entry: Option<u8>) -> Row
        ensures { result ≡ filled_row entry }
    {
        Row {
            entries: [entry; 32],
        }
    }

    /// The entry of a variable: its value, or none where it is open or there is no such variable.
    pub fn entry(&self, variable: usize) -> Option<u8>
        ensures { result ≡ at self.now variable }
    {
        self.entries.get(variable).copied().flatten()
    }

    /// Whether it gives the variable.
    pub fn gives(&self, variable: usize) -> bool
        ensures { result ≡ is_some (at self.now variable) }
    {
        self.entry(variable).is_some()
    }

    /// Gives the variable the value. From the 33rd variable on nothing changes.
    pub fn set(&mut self, variable: usize, value: u8)
        ensures { self.new ≡ with_entry self.old variable (Some value) }
    {
        self.put(variable, Some(value));
    }

    /// Puts an entry in the place of the one that the variable has.
    fn put(&mut self, number: usize, entry: Option<u8>)
        ensures { self.new ≡ with_entry self.old number entry }
    {
        // By the index, since behind `get_mut` a proof knows no more than the length.
        if number < 32 {
            self.entries[number] = entry;
        }
    }

    /// Whether the other row has every entry that this one gives.
    #[tactic(auto, using(crate::proofs::Containment::contained_reflexive, crate::proofs::Containment::contained_transitive, crate::proofs::Containment::contained_antisymmetric))]
    pub fn contained_in(&self, other: &Row) -> bool
        ensures answer { result ≡ contained self.now other.now }
        ensures reflexive { ContainmentIsReflexive }
        ensures transitive { ContainmentIsTransitive }
        ensures antisymmetric { ContainmentIsAntisymmetric }
    {
        self.entries
            .iter()
            .zip(&other.entries)
            .all(|(mine, theirs)| entry_kept(*mine, *theirs))
    }

    /// Whether both rows give some variable, with different values.
    pub fn disagrees(&self, other: &Row) -> bool
        ensures { result ≡ disagree self.now other.now }
    {
        self.entries
            .iter()
            .zip(&other.entries)
            .any(|(mine, theirs)| entries_differ(*mine, *theirs))
    }
}

// By hand, for a derived `==` would promise its answer by no definition.
impl PartialEq for Row {
    ghost eq = { same_row };

    ghost laws = { same_row_laws };

    #[tactic(auto, using(crate::specs::SameRows::same_row_decides))]
    fn eq(&self, other: &Row) -> bool
        ensures answer { result ≡ same_row self.now other.now }
        ensures exact { Decides result (self.now ≡ other.now) }
    {
        same_entries(self, other)
    }
}

/// Whether both rows have the same entries. Entry by entry, since `==` on the arrays goes on behind the first that differs.
fn same_entries(mine: &Row, theirs: &Row) -> bool
    ensures { result ≡ same_row mine.now theirs.now }
{
    mine.entries
        .iter()
        .zip(&theirs.entries)
        .all(|(mine, theirs)| entries_same(*mine, *theirs))
}
