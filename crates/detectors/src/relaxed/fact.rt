//! Facts: what is so of one variable.
ghost use Rattle.detectors.specs.Facts.{fact_mark};
ghost use Rattle.detectors.specs.FactMarking.{fact_marking};

use first_come::mark::Mark;

/// A variable with a value.
#[derive(Clone, Copy, Default, PartialEq, Eq)]
pub(crate) struct Fact {
    pub(crate) variable: u8,
    pub(crate) value: u8,
}

/// There are 16 marks for each variable. A fact of a model's row has one.
impl Mark for Fact {
    ghost mark = { fact_mark };

    ghost own = { fact_marking };

    fn mark(&self) -> Option<usize> {
        (self.value < 16).then_some(16 * usize::from(self.variable) + usize::from(self.value))
    }
}
