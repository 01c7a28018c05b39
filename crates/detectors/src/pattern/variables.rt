//! The variables of a pattern, and what they leave of rows and moves.
ghost use Rattle.std.specs.Prelude.{◌≡◌, map, IfOk};
ghost use Rattle.detectors.specs.Cuts.{entry_of, cut_of, cut_move};
ghost use Rattle.detectors.specs.PatternMeaning.{given_if_any, gives};

use crate::pattern::cut::{Cut, CutMove};
use model::moves::Move;
use model::row::Row;
use std::alloc::{AllocError, Global};

/// One to three variables of a model.
#[derive(Clone, Copy)]
pub(crate) struct Variables {
    pub(crate) first: usize,
    pub(crate) second: Option<usize>,
    pub(crate) third: Option<usize>,
}

/// The row's entry of a variable, open where there is no variable.
fn entry(row: &Row, variable: Option<usize>) -> Option<u8>
    ensures { result ≡ entry_of row.now variable }
{
    variable.and_then(|variable| row.entry(variable))
}

/// Whether the row gives the variable, if there is one.
fn is_given(row: &Row, variable: Option<usize>) -> bool
    ensures { result ≡ given_if_any row.now variable }
{
    variable.is_none_or(|variable| row.gives(variable))
}

impl Variables {
    /// Whether the row gives all of them.
    pub(crate) fn given_by(&self, row: &Row) -> bool
        ensures { result ≡ gives row.now self.now }
    {
        row.gives(self.first) && is_given(row, self.second) && is_given(row, self.third)
    }

    /// The row cut to them.
    pub(crate) fn cut(&self, row: &Row) -> Cut
        ensures { result ≡ cut_of self.now row.now }
    {
        Cut {
            first: row.entry(self.first),
            second: entry(row, self.second),
            third: entry(row, self.third),
        }
    }

    /// The move with its conditions and effects cut to them.
    fn cut_move(&self, step: &Move) -> CutMove
        ensures { result ≡ cut_move self.now step.now }
    {
        CutMove {
            conditions: self.cut(&step.conditions),
            effects: self.cut(&step.effects),
        }
    }

    /// The moves, each cut to them.
    pub(crate) fn cut_moves(&self, heap: Global, moves: &[Move]) -> Result<Vec<CutMove>, AllocError>
        ensures { IfOk result (λ v. v.items ≡ map (cut_move self.now) moves.now) }
    {
        moves.iter().map(|step| self.cut_move(step)).collect(heap)
    }
}
