//! A sealed model can no longer be changed.
ghost use Rattle.std.specs.Prelude.{◌≡◌, true};
ghost use Rattle.model.specs.Limits.{row_fits, complete};

use crate::domain::Domain;
use crate::row::Row;

pub mod methods;

/// A model that keeps the limits, with every value below its variable's size and a start that leaves nothing open.
#[derive(Drop)]
pub struct Model {
    pub(crate) domain: Domain,
    pub(crate) start: Row,
    pub(crate) goal: Row,
    ghost starts: { row_fits domain.variables.items start ≡ true },
    ghost goals: { row_fits domain.variables.items goal ≡ true },
    ghost whole: { complete domain.variables.items start ≡ true },
}
