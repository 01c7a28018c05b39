//! What is told of what is left.
ghost use Rattle.std.specs.Prelude.{◌≡◌};
ghost use Rattle.settling.specs.Sifteds.{rounds_of_sifted, rows_of_sifted};

use super::Sifted;
use model::row::Row;

impl Sifted {
    /// The candidates that are left, in the order of the list.
    pub fn rows(&self) -> &[Row]
        ensures { result.now ≡ rows_of_sifted self.now }
    {
        &self.rows[..self.count]
    }

    /// How many rounds it took, the last one counted, which marked nothing.
    pub fn rounds(&self) -> usize
        ensures { result ≡ rounds_of_sifted self.now }
    {
        self.rounds
    }
}
