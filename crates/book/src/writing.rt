//! Rows are written into a buffer, as the commands of a sheet that enter, list and offer them.
ghost use Rattle.std.specs.Prelude.{◌≡◌, ◌+◌, ◌≤◌, length, nat_le};
ghost use Rattle.std.proofs.Math.Seq.{sets};
ghost use Rattle.book.specs.Written.{entry_written, row_written, rows_written, write_answer, buffer_after};

use model::row::Row;
use refusal::Refusal;

/// Writes the rows at the front of the buffer: each by the commands that enter it and list it, and at the end the one that offers the
/// list. Tells how many bytes that are. A buffer that is too short is left as it was.
#[tactic(auto, using(std::proofs::lemmas::Bool::Decides::nat_tests, lists::proofs::Laying::sets_front))]
pub(crate) fn write_rows(rows: &[Row], buffer: &mut [u8]) -> Result<usize, Refusal>
    ensures answer { result ≡ write_answer buffer.old rows.now }
    ensures after { buffer.new ≡ buffer_after buffer.old rows.now }
{
    if !fits(rows, buffer.len()) {
        return Err(Refusal::BufferTooShort);
    }
    Ok(write_all(rows, buffer))
}

/// Whether what is written of the rows has room in so many bytes.
fn fits(rows: &[Row], room: usize) -> bool
    ensures { result ≡ nat_le (length (rows_written rows.now)) room }
{
    let mut left = room;
    for row in rows {
        let length = row_length(row);
        if left < length {
            return false;
        }
        left -= length;
    }
    // One byte more, for the offer.
    left > 0
}

/// How many bytes are written of a row.
fn row_length(row: &Row) -> usize
    ensures { result ≡ length (row_written row.now) }
{
    let given = (0..32).filter(|variable| row.gives(*variable)).count();
    3 * given + 1
}

/// Writes the rows and the offer into a buffer that has room for them, and tells the place behind them.
fn write_all(rows: &[Row], buffer: &mut [u8]) -> usize
    requires { length (rows_written rows.now) ≤ length buffer.old }
    ensures next { result ≡ length (rows_written rows.now) }
    ensures bytes { buffer.new ≡ sets buffer.old 0 (rows_written rows.now) }
{
    let mut place = 0;
    for row in rows {
        place = write_row(row, buffer, place);
    }
    buffer[place] = b'O';
    place + 1
}

/// Writes a row from a place of the buffer on, and tells the place behind it.
fn write_row(row: &Row, buffer: &mut [u8], start: usize) -> usize
    requires { start + length (row_written row.now) ≤ length buffer.old }
    ensures next { result ≡ start + length (row_written row.now) }
    ensures bytes { buffer.new ≡ sets buffer.old start (row_written row.now) }
{
    let mut place = start;
    for variable in 0..32u8 {
        place = write_entry(variable, row.entry(usize::from(variable)), buffer, place);
    }
    buffer[place] = b'N';
    place + 1
}

/// Writes an entry, if it is given, at a place of the buffer, and tells the place behind it.
fn write_entry(variable: u8, entry: Option<u8>, buffer: &mut [u8], place: usize) -> usize
    requires { place + length (entry_written variable entry) ≤ length buffer.old }
    ensures next { result ≡ place + length (entry_written variable entry) }
    ensures bytes { buffer.new ≡ sets buffer.old place (entry_written variable entry) }
{
    let Some(value) = entry else {
        return place;
    };
    buffer[place] = b'R';
    buffer[place + 1] = variable;
    buffer[place + 2] = value;
    place + 3
}
