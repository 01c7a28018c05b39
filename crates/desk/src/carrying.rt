//! A sheet carried out: what it comes to is written line by line.
ghost use Rattle.std.specs.Prelude.{◌≡◌, [], ◌∷◌, length, OnOk};
ghost use Rattle.std.specs.Io.KnownBytes.{Appends};
ghost use Rattle.sheet.specs.Commands.{commands_from};
ghost use Rattle.session.specs.Turns.{Lent, stops};
ghost use Rattle.session.specs.Sessions.{came, detector_of, lent_of, state_of};
ghost use Rattle.desk.specs.Lines.{line_told, model_line, printed};
ghost use Rattle.detectors.specs.Shipping.{shipped_model};
ghost use Rattle.desk.specs.Carrying.{line_of, lines_of, order_lines};
ghost use Rattle.desk.specs.Openings.{opening};
ghost use Rattle.desk.specs.Promise.{SheetKeepsThePromise};

use crate::lines::Line;
use crate::opening::{Opening, Stop, open_sheet};
use detector::Detector;
use detectors::shipped::Shipped;
use session::outcome::Outcome;
use session::session::Session;
use sheet::command_at;
use std::alloc::Global;
use std::io;

/// Carries out a sheet, and writes the lines that it comes to.
pub fn carry_out<W: io::Write>(heap: Global, sheet: &[u8], out: &mut W) -> io::Result<()>
    ensures printed { OnOk result (Appends (W.contents out.old) (W.contents out.new) (printed (lines_of sheet.now))) }
    ensures promise { OnOk result (SheetKeepsThePromise sheet.now (opening sheet.now) (lines_of sheet.now)) }
{
    match open_sheet(heap, sheet)? {
        Opening::Unsealed(stop) => write_line(out, Line::from(stop)),
        Opening::Unchosen { model, stop } => {
            write_line(out, Line::from(&model))?;
            write_line(out, Line::from(stop))
        }
        Opening::Orders { detector, orders } => {
            write_carried(&detector, out)?;
            let mut session = Session::open(heap, detector)?;
            carry_out_orders(&mut session, sheet, orders, out)
        }
    }
}

/// Writes the line of the model that the detector of a sheet carries.
fn write_carried<W: io::Write>(detector: &Shipped, out: &mut W) -> io::Result<()>
    ensures { OnOk result (Appends (W.contents out.old) (W.contents out.new) (printed (model_line (shipped_model detector.now) ∷ []))) }
{
    write_line(out, Line::from(detector.model()))
}

/// Carries out the commands of the sheet from a place on, and writes the lines that they come to.
fn carry_out_orders<D: Detector, W: io::Write>(
    session: &mut Session<D>,
    sheet: &[u8],
    orders: usize,
    out: &mut W,
) -> io::Result<()>
    ensures { OnOk result (Appends (W.contents out.old) (W.contents out.new) (printed (order_lines (D.carried (detector_of session.old)) (D.dead (detector_of session.old)) (length sheet.now) (state_of session.old) (commands_from sheet.now orders)))) }
{
    let mut place = orders;
    while let Some(found) = command_at(sheet, place) {
        let outcome = session.obey(found.command);
        write_outcome(session, outcome, sheet.len(), found.place, out)?;
        if stops(outcome) {
            return Ok(());
        }
        place = found.next;
    }
    write_line(out, Line::End)
}

/// Writes the line that tells what came of a command at a place of a sheet of `size` bytes, if one is told.
fn write_outcome<D: Detector, W: io::Write>(
    session: &Session<D>,
    outcome: Outcome,
    size: usize,
    place: usize,
    out: &mut W,
) -> io::Result<()>
    ensures { OnOk result (Appends (W.contents out.old) (W.contents out.new) (printed (line_of size place (came (lent_of session.now) outcome)))) }
{
    match outcome {
        Outcome::Quiet => Ok(()),
        Outcome::Answered(answer) => write_line(
            out,
            Line::of_answer(answer, session.plan(), session.buffer()),
        ),
        Outcome::Stopped(refusal) => write_line(out, Line::from(Stop::at(size, place, refusal))),
    }
}

/// Whether the run ends with what came of a command.
fn stops(outcome: Outcome) -> bool
    ensures { (l : Lent) → result ≡ stops (came l outcome) }
{
    matches!(outcome, Outcome::Stopped(_))
}

/// Writes one line with its end.
fn write_line<W: io::Write>(out: &mut W, line: Line) -> io::Result<()>
    ensures { OnOk result (Appends (W.contents out.old) (W.contents out.new) (printed (line_told line.entry ∷ []))) }
{
    writeln!(out, "{line}")
}
