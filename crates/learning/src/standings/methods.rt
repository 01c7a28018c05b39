//! What is known of how a part stands to each move.
ghost use Rattle.std.specs.Prelude.{◌≡◌, ◌≤◌, not, length};
ghost use Rattle.learning.specs.Learns.{keeps_with};
ghost use Rattle.learning.specs.Standings.{AllStand, Grown, none_known, standing_at, with_standing};

use super::Standings;
use crate::standing::{Growth, Standing, look};
use detector::Detector;
use model::moves::Move;
use model::row::Row;

impl Standings {
    /// Nothing is known.
    pub(crate) fn unknown() -> Standings
        ensures { result ≡ none_known }
    {
        Standings {
            by_move: [Standing::Unknown(0); 128],
        }
    }

    /// The standing to a move.
    fn at(&self, number: usize) -> Standing
        ensures { result ≡ standing_at self.now number }
    {
        self.by_move
            .get(number)
            .copied()
            .unwrap_or(Standing::Unknown(0))
    }

    /// Puts a standing in the place of the one to a move.
    fn put(&mut self, number: usize, standing: Standing)
        ensures { self.new ≡ with_standing self.old number standing }
    {
        // By the index, since behind `get_mut` a proof knows no more than the length.
        if number < 128 {
            self.by_move[number] = standing;
        }
    }

    /// Keeps what stays known when a part has grown: whether that is the part itself is told, and the part is given as it is now.
    pub(crate) fn grow(&mut self, moves: &[Move], growth: &Growth, itself: bool, part: &Row)
        ensures { Grown moves.now growth.now itself part.now self.old self.new }
    {
        for (number, step) in moves.iter().enumerate() {
            let standing = self.at(number).after_growth(growth, itself, part, step);
            self.put(number, standing);
        }
    }

    /// Whether the part breaks rule 2: what is not known is looked at, up to the first move that leads out.
    pub(crate) fn breaks_rule_2<D: Detector>(
        &mut self,
        detector: &D,
        rows: &[Row],
        parts: &[Row],
        part: &Row,
    ) -> bool
        requires few { length parts.now ≤ 256 }
        requires right { AllStand (D.carried detector.now) (D.dead detector.now) rows.now parts.now part.now self.old }
        ensures answer { result ≡ not (keeps_with (D.carried detector.now) (D.dead detector.now) rows.now parts.now part.now) }
        ensures right { AllStand (D.carried detector.now) (D.dead detector.now) rows.now parts.now part.now self.new }
    {
        for (number, step) in detector.model().moves().iter().enumerate() {
            let standing = look(detector, rows, parts, part, step, self.at(number));
            self.put(number, standing);
            if standing.leads_out() {
                return true;
            }
        }
        false
    }
}
