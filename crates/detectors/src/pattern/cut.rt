//! Rows cut to the variables of a pattern: the entries of the first, second and third, open where there is no such variable.
ghost use Rattle.std.specs.Prelude.{◌≡◌, ◌<◌, ◌≤◌};
ghost use Rattle.detectors.specs.Cuts.{contained_cut, applicable_cut, progression_cut};
ghost use Rattle.detectors.specs.CutMarks.{digit_of, code, cut_mark};
ghost use Rattle.detectors.specs.CutTables.{entry_at, cut_at};
ghost use Rattle.detectors.specs.CutMarking.{cut_marking};

use first_come::mark::Mark;
use model::entry::{entries_differ, entry_kept, next_entry};

/// A row, cut. Three entries with names, since an array of them would say by index which variable each is of.
#[derive(Clone, Copy, Default, PartialEq, Eq)]
pub(crate) struct Cut {
    pub(crate) first: Option<u8>,
    pub(crate) second: Option<u8>,
    pub(crate) third: Option<u8>,
}

/// A move whose conditions and effects are cut.
#[derive(Clone, Copy)]
pub(crate) struct CutMove {
    pub(crate) conditions: Cut,
    pub(crate) effects: Cut,
}

/// An entry as a digit: 0 where it is open, else one more than its value.
fn digit(entry: Option<u8>) -> usize
    ensures digit { result ≡ digit_of entry }
    ensures small { result ≤ 256 }
{
    entry.map_or(0, |value| usize::from(value) + 1)
}

/// The entry that a digit stands for.
fn entry(digit: usize) -> Option<u8>
    requires { digit < 17 }
    ensures { result ≡ entry_at digit }
{
    if digit == 0 {
        None
    } else {
        Some((digit - 1) as u8)
    }
}

impl Cut {
    /// The digits as one number, in base 17.
    pub(crate) fn number(&self) -> usize
        ensures { result ≡ code self.now }
    {
        (digit(self.first) * 17 + digit(self.second)) * 17 + digit(self.third)
    }

    /// The cut that a number stands for.
    pub(crate) fn at(number: usize) -> Cut
        ensures { result ≡ cut_at number }
    {
        Cut {
            first: entry(number / 17 / 17 % 17),
            second: entry(number / 17 % 17),
            third: entry(number % 17),
        }
    }

    /// Whether the other cut has every entry that this one gives.
    pub(crate) fn contained_in(&self, other: &Cut) -> bool
        ensures { result ≡ contained_cut self.now other.now }
    {
        entry_kept(self.first, other.first)
            && entry_kept(self.second, other.second)
            && entry_kept(self.third, other.third)
    }
}

/// A cut has no mark where it gives a value above those of any model.
impl Mark for Cut {
    ghost mark = { cut_mark };

    ghost own = { cut_marking };

    fn mark(&self) -> Option<usize> {
        let is_small = digit(self.first) < 17 && digit(self.second) < 17 && digit(self.third) < 17;
        is_small.then(|| self.number())
    }
}

impl CutMove {
    /// Whether the conditions do not disagree with the cut.
    pub(crate) fn applicable(&self, cut: &Cut) -> bool
        ensures { result ≡ applicable_cut self.now cut.now }
    {
        !(entries_differ(self.conditions.first, cut.first)
            || entries_differ(self.conditions.second, cut.second)
            || entries_differ(self.conditions.third, cut.third))
    }

    /// What the move makes of the cut.
    pub(crate) fn progression(&self, cut: &Cut) -> Cut
        ensures { result ≡ progression_cut self.now cut.now }
    {
        let CutMove {
            conditions,
            effects,
        } = self;
        Cut {
            first: next_entry(effects.first, cut.first, conditions.first),
            second: next_entry(effects.second, cut.second, conditions.second),
            third: next_entry(effects.third, cut.third, conditions.third),
        }
    }
}
