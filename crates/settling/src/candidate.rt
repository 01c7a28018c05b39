//! A candidate and its mark.
ghost use Rattle.std.specs.Prelude.{◌≡◌};
ghost use Rattle.settling.specs.Candidates.{at_start, covers_unmarked, marked_if};

use model::row::Row;

/// A row of the list that is settled, and whether it is marked.
#[derive(Clone, Copy)]
pub(crate) struct Candidate {
    pub(crate) row: Row,
    pub(crate) marked: bool,
}

impl Candidate {
    /// What fills a place that no candidate takes.
    pub(crate) fn blank() -> Candidate {
        Candidate {
            row: Row::open(),
            marked: true,
        }
    }

    /// The row as it enters a settle: marked if it does not disagree with the goal.
    pub(crate) fn at_start(row: &Row, goal: &Row) -> Candidate
        ensures { result ≡ at_start goal.now row.now }
    {
        Candidate {
            row: *row,
            marked: !row.disagrees(goal),
        }
    }

    /// Whether it is unmarked and contained in the row.
    pub(crate) fn covers(&self, row: &Row) -> bool
        ensures { result ≡ covers_unmarked row.now self.now }
    {
        !self.marked && self.row.contained_in(row)
    }

    /// The candidate with one reason more for a mark, if there is one.
    pub(crate) fn marked_if(&self, marks: bool) -> Candidate
        ensures { result ≡ marked_if self.now marks }
    {
        Candidate {
            row: self.row,
            marked: self.marked || marks,
        }
    }
}
