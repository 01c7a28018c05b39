//! The lines that the program prints.
ghost use Rattle.std.specs.Prelude.{◌≡◌, [], Some, take};
ghost use Rattle.std.specs.Fmt.{WritesOnOk};
ghost use Rattle.std.specs.List.{flat_map};
ghost use Rattle.model.specs.Drafts.{recorded};
ghost use Rattle.orders.specs.Orders.{answer_told};
ghost use Rattle.session.specs.Turns.{bytes_told, lent};
ghost use Rattle.desk.specs.Lines.{hex_byte, move_bytes, part_bytes, line_bytes, line_told, model_line, refused_line, stop_line};
ghost use Rattle.desk.specs.Carrying.{answer_line};

use crate::opening::Stop;
use book::probed::Probed;
use book::refused::Refused;
use book::settled::Settled;
use detector::verdict::Verdict;
use model::sealed::Model;
use orders::answer::Answer;
use std::fmt;

/// One line, without its end.
#[derive(Clone, Copy, PartialEq, Eq)]
pub enum Line<'a> {
    /// The model is sealed, with so many variables and moves.
    Model {
        variables: usize,
        moves: usize,
    },
    /// The row in hand is judged.
    Judge(Verdict),
    /// The row in hand is probed, and dead: so many states are listed, so many rows added and so many entries regained.
    ProbeDead {
        states: usize,
        rows: usize,
        entries: usize,
    },
    /// The row in hand is probed: so many states are listed, and these moves are a plan of this length.
    ProbePlan {
        states: usize,
        length: usize,
        moves: &'a [u8],
    },
    /// The list is offered, and so many of its rows are new in the book.
    Offer {
        added: usize,
    },
    /// The list is settled in so many rounds, and so many of its rows are new in the book.
    Settle {
        added: usize,
        rounds: usize,
    },
    /// The book as it is written.
    Write {
        bytes: &'a [u8],
    },
    /// An order is refused, for one of the list's rows and at one of the moves, where these are told.
    Refused {
        number: u8,
        row: Option<usize>,
        step: Option<usize>,
    },
    /// The sheet is refused, at a place. Any number has such a line.
    Stop {
        number: u8,
        place: usize,
    },
    /// All of the sheet is carried out.
    End,
}

impl<'a> Line<'a> {
    /// The line of an answer. The moves of a plan lie at the front of the one buffer, the book as it is written at the front of the other.
    pub fn of_answer(answer: Answer, plan: &'a [u8], buffer: &'a [u8]) -> Line<'a>
        ensures { line_told result ≡ answer_line (answer_told answer) (bytes_told (answer_told answer) (lent [] plan.now buffer.now)) }
    {
        match answer {
            Answer::Judged(verdict) => Line::Judge(verdict),
            Answer::Probed(
                Probed::Dead {
                    states,
                    rows,
                    entries,
                },
            ) => Line::ProbeDead {
                states,
                rows,
                entries,
            },
            Answer::Probed(Probed::Plan { states, length }) => Line::ProbePlan {
                states,
                length,
                moves: front(plan, length),
            },
            Answer::Offered(added) => Line::Offer { added },
            Answer::Settled(Settled { added, rounds }) => Line::Settle { added, rounds },
            Answer::Written(length) => Line::Write {
                bytes: front(buffer, length),
            },
            Answer::Refused(refused) => Line::from(refused),
        }
    }
}

/// So many bytes at the front of the buffer, or all, if it has fewer.
fn front(buffer: &[u8], length: usize) -> &[u8]
    ensures { result.now ≡ take length buffer.now }
{
    &buffer[..length.min(buffer.len())]
}

impl<'a> From<&Model> for Line<'a> {
    ghost from_gives = { λ model line. line_told line ≡ model_line (recorded model.now) };

    fn from(model: &Model) -> Line<'a> {
        Line::Model {
            variables: model.variables().len(),
            moves: model.moves().len(),
        }
    }
}

impl<'a> From<Stop> for Line<'a> {
    ghost from_gives = { λ stop line. line_told line ≡ stop_line stop };

    fn from(stop: Stop) -> Line<'a> {
        Line::Stop {
            number: stop.refusal.number(),
            place: stop.place,
        }
    }
}

impl<'a> From<Refused> for Line<'a> {
    ghost from_gives = { λ refused line. line_told line ≡ refused_line refused };

    fn from(refused: Refused) -> Line<'a> {
        Line::Refused {
            number: refused.refusal.number(),
            row: refused.row,
            step: refused.step,
        }
    }
}

/// A part of a refusal: a number, or a dash where it is not told.
#[derive(Clone, Copy)]
struct OrDash(Option<usize>);

impl fmt::Display for OrDash {
    ghost output = { λ p. Some (part_bytes p.0) };

    fn fmt<W: fmt::Write>(&self, f: &mut fmt::Formatter<W>) -> fmt::Result {
        match self.0 {
            Some(number) => write!(f, "{number}"),
            None => write!(f, "-"),
        }
    }
}

/// Bytes in hexadecimal digits, each behind a space.
#[derive(Clone, Copy)]
struct Hex<'a>(&'a [u8]);

impl<'a> fmt::Display for Hex<'a> {
    ghost output = { λ h. Some (flat_map hex_byte h.0.now) };

    #[tactic(auto, using(crate::proofs::OneMore::hex_more))]
    fn fmt<W: fmt::Write>(&self, f: &mut fmt::Formatter<W>) -> fmt::Result {
        for byte in self.0 {
            write_hex(f, *byte)?;
        }
        Ok(())
    }
}

/// Writes a byte in two hexadecimal digits, behind a space.
fn write_hex<W: fmt::Write>(f: &mut fmt::Formatter<W>, byte: u8) -> fmt::Result
    ensures { WritesOnOk W.write_str_gives f.old result (hex_byte byte) f.new }
{
    write!(f, " {byte:02x}")
}

/// Moves by their numbers, each behind a space.
#[derive(Clone, Copy)]
struct Moves<'a>(&'a [u8]);

impl<'a> fmt::Display for Moves<'a> {
    ghost output = { λ m. Some (flat_map move_bytes m.0.now) };

    #[tactic(auto, using(crate::proofs::OneMore::move_more))]
    fn fmt<W: fmt::Write>(&self, f: &mut fmt::Formatter<W>) -> fmt::Result {
        for step in self.0 {
            write!(f, " {step}")?;
        }
        Ok(())
    }
}

impl<'a> fmt::Display for Line<'a> {
    ghost output = { λ l. Some (line_bytes (line_told l)) };

    fn fmt<W: fmt::Write>(&self, f: &mut fmt::Formatter<W>) -> fmt::Result {
        match *self {
            Line::Model { variables, moves } => write!(f, "model {variables} {moves}"),
            Line::Judge(Verdict::Dead) => write!(f, "judge dead"),
            Line::Judge(Verdict::Silent) => write!(f, "judge silent"),
            Line::ProbeDead {
                states,
                rows,
                entries,
            } => write!(f, "probe dead {states} {rows} {entries}"),
            Line::ProbePlan {
                states,
                length,
                moves,
            } => write!(f, "probe plan {states} {length}{}", Moves(moves)),
            Line::Offer { added } => write!(f, "offer {added}"),
            Line::Settle { added, rounds } => write!(f, "settle {added} {rounds}"),
            Line::Write { bytes } => write!(f, "write{}", Hex(bytes)),
            Line::Refused { number, row, step } => {
                write!(f, "refused {number} {} {}", OrDash(row), OrDash(step))
            }
            Line::Stop { number, place } => write!(f, "stop {number} {place}"),
            Line::End => write!(f, "end"),
        }
    }
}
