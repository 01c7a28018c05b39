//! The detector of one row.
ghost use Rattle.std.specs.Prelude.{◌≡◌, true};
ghost use Rattle.model.specs.Drafts.{recorded};
ghost use Rattle.one_row.specs.Standstill.{stands_still};

use model::row::Row;
use model::sealed::Model;

pub mod methods;

/// A model, and a row that disagrees with its goal and that every applicable move keeps.
#[derive(Drop)]
pub struct OneRow {
    model: Model,
    row: Row,
    ghost still: { stands_still (recorded model) row ≡ true },
}
