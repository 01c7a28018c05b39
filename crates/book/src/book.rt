//! A book of rows that are known to be dead, over a detector.
ghost use Rattle.std.specs.Prelude.{◌≡◌, ◌≤◌, true, vec_len, vec_capacity};
ghost use Rattle.std.specs.List.{list_all};
ghost use Rattle.model.specs.Records.{row_of_model};
ghost use Rattle.model.specs.Rows.{same_row};
ghost use Rattle.first_come.specs.Arrivals.{Distinct, distinct_prop};
ghost use Rattle.rules.specs.Rules.{keeps_rules};

use detector::Detector;
use model::row::Row;

pub mod methods;

/// At most 256 rows of the detector's model, no two of them the same, that keep both rules over the detector. The trait bound `D: Detector` stands
/// on the struct, since the rules speak of the detector.
#[derive(Drop)]
pub struct Book<D: Detector> {
    detector: D,
    rows: Vec<Row>,
    ghost few: { vec_len rows ≤ 256 },
    ghost room: { 256 ≤ vec_capacity rows },
    ghost fit: { list_all (row_of_model (D.carried detector)) rows.items ≡ true },
    ghost once: { Distinct same_row rows.items } by { distinct_prop same_row rows.items },
    ghost rules: { keeps_rules (D.carried detector) (D.dead detector) rows.items ≡ true },
}
