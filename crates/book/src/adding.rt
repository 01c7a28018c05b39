//! Rows are added to those of a book.
ghost use Rattle.std.specs.Prelude.{◌≡◌, ◌≤◌, ◌++◌, cond, is_ok, length, Ok, vec_items, vec_len, vec_capacity};
ghost use Rattle.std.specs.Result.{result_and};
ghost use Rattle.model.specs.Rows.{same_row};
ghost use Rattle.first_come.specs.Arrivals.{has};
ghost use Rattle.book.specs.Adding.{fresh, room_checked};

use crate::refused::Refused;
use model::row::Row;
use refusal::Refusal;

/// Whether the row is one of these.
#[tactic(auto, using(crate::proofs::FreshRows::any_same))]
fn holds(rows: &[Row], row: &Row) -> bool
    ensures { result ≡ has same_row rows.now row.now }
{
    rows.iter().any(|own| own == row)
}

/// Adds the rows of the list that are not yet held, each once, or none where they would be too many; how many were added.
pub(crate) fn add_fresh(rows: &mut Vec<Row>, list: &[Row]) -> Result<usize, Refused>
    requires few { vec_len rows.old ≤ 256 }
    requires room { 256 ≤ vec_capacity rows.old }
    ensures answer { result ≡ result_and (room_checked (vec_items rows.old) list.now) (Ok (length (fresh (vec_items rows.old) list.now))) }
    ensures after { vec_items rows.new ≡ cond (is_ok (room_checked (vec_items rows.old) list.now)) (vec_items rows.old ++ fresh (vec_items rows.old) list.now) (vec_items rows.old) }
    ensures few { vec_len rows.new ≤ 256 }
    ensures room { 256 ≤ vec_capacity rows.new }
{
    let before = rows.len();
    for row in list {
        if holds(rows.as_slice(), row) {
            continue;
        }
        if rows.len() >= 256 {
            rows.truncate(before);
            return Err(Refused::from(Refusal::BookFull));
        }
        rows.push_reserved(*row);
    }
    Ok(rows.len() - before)
}
