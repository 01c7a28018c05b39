//! What is told of what is learned.
ghost use Rattle.std.specs.Prelude.{◌≡◌};
ghost use Rattle.learning.specs.Learneds.{entries_of_learned, parts_of_learned};

use super::Learned;
use model::row::Row;

impl Learned {
    /// The parts that are learned, in the order of their states.
    pub fn parts(&self) -> &[Row]
        ensures { result.now ≡ parts_of_learned self.now }
    {
        &self.rows[..self.count]
    }

    /// How many entries they regained.
    pub fn entries(&self) -> usize
        ensures { result ≡ entries_of_learned self.now }
    {
        self.entries
    }
}
