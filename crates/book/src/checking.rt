//! What is asked of a list of rows before anything else.
ghost use Rattle.std.specs.Prelude.{◌≡◌};
ghost use Rattle.model.specs.Drafts.{recorded};
ghost use Rattle.book.specs.Offers.{entries_checked, list_checked};

use crate::refused::Refused;
use model::row::Row;
use model::sealed::Model;
use refusal::Refusal;

/// Whether the list is not too long and has no wrong entry.
pub(crate) fn check_list(model: &Model, list: &[Row]) -> Result<(), Refused>
    ensures { result ≡ list_checked (recorded model.now).variables list.now }
{
    if list.len() > 256 {
        return Err(Refused::from(Refusal::TooMany));
    }
    check_entries(model, list)
}

/// Whether no row of the list has a wrong entry.
#[tactic(auto, using(crate::proofs::Entries::row_refused, crate::proofs::Entries::row_passed, crate::proofs::Entries::rows_ended))]
fn check_entries(model: &Model, list: &[Row]) -> Result<(), Refused>
    ensures { result ≡ entries_checked (recorded model.now).variables 0 list.now }
{
    for (place, row) in list.iter().enumerate() {
        if let Err(refusal) = model.check_row(row) {
            return Err(Refused::for_row(refusal, place));
        }
    }
    Ok(())
}
