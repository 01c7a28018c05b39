//! The pattern: a detector that looks at one to three variables of its model.
ghost use Rattle.std.specs.Prelude.{◌≡◌, ◌≤◌};
ghost use Rattle.model.specs.Drafts.{recorded};
ghost use Rattle.detectors.specs.CutTables.{cut_table};
ghost use Rattle.detectors.specs.PatternMeaning.{product_of_sizes};

use model::sealed::Model;
use variables::Variables;

mod cut;
pub mod methods;
pub(crate) mod operands;
mod table;
mod variables;
mod walking;

/// A model, one to three variables, and a table that tells of each cut, by its number, whether it is dead: made once for all rows.
#[derive(Drop)]
pub struct Pattern {
    model: Model,
    variables: Variables,
    dead_cuts: Vec<bool>,
    ghost small: { product_of_sizes (recorded model).variables variables ≤ 512 },
    ghost told: { dead_cuts.items ≡ cut_table (recorded model) variables },
}
