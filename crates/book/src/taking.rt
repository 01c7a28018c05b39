//! A state is taken from a row.
ghost use Rattle.std.specs.Prelude.{◌≡◌, true, Ok};
ghost use Rattle.std.specs.Result.{result_and};
ghost use Rattle.model.specs.Drafts.{recorded};
ghost use Rattle.model.specs.Records.{row_of_model};
ghost use Rattle.book.specs.Probes.{given_checked, state_checked};

use model::row::Row;
use model::sealed::Model;
use refusal::Refusal;

/// The row as a state of the model, or why it is none. It is the same row, with its entries taken one by one, so that an open one is met.
pub(crate) fn take_state(model: &Model, row: &Row) -> Result<Row, Refusal>
    ensures { result ≡ result_and (state_checked (recorded model.now).variables row.now) (Ok row.now) }
{
    if let Err(refusal) = model.check_row(row) {
        return Err(refusal);
    }
    take_entries(model, row)
}

/// Takes the entries of a row of the model, one by one, into a state.
fn take_entries(model: &Model, row: &Row) -> Result<Row, Refusal>
    requires { row_of_model (recorded model.now) row.now ≡ true }
    ensures { result ≡ result_and (given_checked (recorded model.now).variables row.now) (Ok row.now) }
{
    let mut state = Row::open();
    for variable in 0..model.variables().len() {
        let Some(value) = row.entry(variable) else {
            return Err(Refusal::OpenEntry);
        };
        state.set(variable, value);
    }
    Ok(state)
}
