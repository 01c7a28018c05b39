//! How all parts stand to all moves.
ghost use Rattle.std.specs.Prelude.{◌≡◌, ◌<◌, ◌≤◌, IfSome, length};
ghost use Rattle.learning.specs.Learns.{first_affected};
ghost use Rattle.learning.specs.Standings.{TableGrown, TableStands};

use crate::standing::Growth;
use crate::standings::Standings;
use detector::Detector;
use model::moves::Move;
use model::row::Row;

/// The place of the lowest part that breaks rule 2 in the rows with all parts. What has to be known of the standings is looked at.
pub(crate) fn first_affected<D: Detector>(
    detector: &D,
    rows: &[Row],
    parts: &[Row],
    table: &mut [Standings],
) -> Option<usize>
    requires few { length parts.now ≤ 256 }
    requires room { length parts.now ≤ length table.old }
    requires right { TableStands (D.carried detector.now) (D.dead detector.now) rows.now parts.now table.old }
    ensures within { IfSome result (λ place. place < length parts.now) }
    ensures lowest { result ≡ first_affected (D.carried detector.now) (D.dead detector.now) rows.now parts.now }
    ensures right { TableStands (D.carried detector.now) (D.dead detector.now) rows.now parts.now table.new }
{
    for (place, part) in parts.iter().enumerate() {
        if table[place].breaks_rule_2(detector, rows, parts, part) {
            return Some(place);
        }
    }
    None
}

/// Keeps what stays known of the standings when a part has grown. The parts are given as they are now.
pub(crate) fn keep_known(moves: &[Move], parts: &[Row], growth: &Growth, table: &mut [Standings])
    requires { length parts.now ≤ length table.old }
    ensures { TableGrown moves.now parts.now growth.now table.old table.new }
{
    for (place, part) in parts.iter().enumerate() {
        table[place].grow(moves, growth, place == growth.place, part);
    }
}
