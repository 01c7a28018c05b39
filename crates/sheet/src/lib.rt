//! The sheet: commands of one byte with operands of fixed widths.
#![tactic(auto)]

ghost use Rattle.std.specs.Prelude.{◌≡◌, length, nat_le};
ghost use Rattle.std.specs.Option.{option_map};
ghost use Rattle.sheet.specs.Reading.{told, reading};
ghost use Rattle.sheet.specs.Refused.{refusal_of};
ghost use Rattle.sheet.specs.Commands.{item_of, item_found};
ghost use Rattle.sheet.specs.Laws.{ReadingLosesNoByte, CommandsWrittenOutReadBack};

use refusal::Refusal;

/// Why no command can be read.
#[derive(Clone, Copy, Debug, PartialEq, Eq)]
pub enum Fault {
    /// The sheet ends before the command does.
    Cut,
    /// No command has this byte.
    Unknown,
}

impl From<Fault> for Refusal {
    ghost from_gives = { λ fault refusal. refusal ≡ refusal_of fault };

    fn from(fault: Fault) -> Refusal {
        match fault {
            Fault::Cut => Refusal::SheetEnds,
            Fault::Unknown => Refusal::UnknownCommand,
        }
    }
}

/// One command of a sheet. The names are parts of the sheet.
#[derive(Clone, Copy)]
pub enum Command<'a> {
    /// `V`: a variable.
    Variable { size: u8, name: &'a [u8; 8] },
    /// `A`: a move.
    Move { name: &'a [u8; 8] },
    /// `P`: a condition of the move begun last.
    Condition { variable: u8, value: u8 },
    /// `E`: an effect of the move begun last.
    Effect { variable: u8, value: u8 },
    /// `S`: an entry of the start.
    Start { variable: u8, value: u8 },
    /// `G`: an entry of the goal.
    Goal { variable: u8, value: u8 },
    /// `Z`: the model is sealed.
    Seal,
    /// `D`: the detector, by its kind and three variables; bytes as they stand, for which of them are refused is not told here.
    Detector { kind: u8, variables: [u8; 3] },
    /// `R`: an entry of the row in hand.
    Entry { variable: u8, value: u8 },
    /// `N`: the row in hand joins the list.
    Next,
    /// `O`: the list is offered.
    Offer,
    /// `T`: the list is settled.
    Settle,
    /// `J`: the row in hand is judged.
    Judge,
    /// `Q`: the row in hand is probed.
    Probe,
    /// `W`: the book is written.
    Write,
    /// No command can be read here. A case, and no `Result` around it, since every reading answers one thing with what follows.
    Fault(Fault),
}

/// The first command of the sheet, and what follows it. Where there is a fault, the whole sheet is left.
pub fn read<'a>(sheet: &'a [u8]) -> (Command<'a>, &'a [u8])
    ensures { (told result.0, result.1.now) ≡ reading sheet.now }
{
    match sheet {
        &[b'V', size, ref operands @ ..] => match operands.split_first_chunk::<8>() {
            Some((name, rest)) => (Command::Variable { size, name }, rest),
            None => (Command::Fault(Fault::Cut), sheet),
        },
        &[b'A', ref operands @ ..] => match operands.split_first_chunk::<8>() {
            Some((name, rest)) => (Command::Move { name }, rest),
            None => (Command::Fault(Fault::Cut), sheet),
        },
        &[b'P', variable, value, ref rest @ ..] => (Command::Condition { variable, value }, rest),
        &[b'E', variable, value, ref rest @ ..] => (Command::Effect { variable, value }, rest),
        &[b'S', variable, value, ref rest @ ..] => (Command::Start { variable, value }, rest),
        &[b'G', variable, value, ref rest @ ..] => (Command::Goal { variable, value }, rest),
        &[b'Z', ref rest @ ..] => (Command::Seal, rest),
        &[b'D', kind, first, second, third, ref rest @ ..] => {
            let variables = [first, second, third];
            (Command::Detector { kind, variables }, rest)
        }
        &[b'R', variable, value, ref rest @ ..] => (Command::Entry { variable, value }, rest),
        &[b'N', ref rest @ ..] => (Command::Next, rest),
        &[b'O', ref rest @ ..] => (Command::Offer, rest),
        &[b'T', ref rest @ ..] => (Command::Settle, rest),
        &[b'J', ref rest @ ..] => (Command::Judge, rest),
        &[b'Q', ref rest @ ..] => (Command::Probe, rest),
        &[b'W', ref rest @ ..] => (Command::Write, rest),
        [] | [b'V' | b'P' | b'E' | b'S' | b'G' | b'D' | b'R', ..] => (
            Command::Fault(Fault::Cut),
            sheet,
        ),
        _ => (Command::Fault(Fault::Unknown), sheet),
    }
}

/// A command of a sheet, the place of its first byte, and the place of what follows it.
#[derive(Clone, Copy)]
pub struct Placed<'a> {
    pub command: Command<'a>,
    pub place: usize,
    pub next: usize,
}

/// The command that stands at a place of the sheet, or none where the sheet has ended.
#[tactic(auto, using(crate::proofs::WrittenOut::loses_no_byte, crate::proofs::WrittenOut::reads_back))]
pub fn command_at<'a>(sheet: &'a [u8], place: usize) -> Option<Placed<'a>>
    ensures answer { option_map item_of result ≡ item_found sheet.now place }
    ensures no_byte_lost { ReadingLosesNoByte }
    ensures written_reads_back { CommandsWrittenOutReadBack }
{
    if ended(sheet, place) {
        return None;
    }
    let (command, rest) = read(&sheet[place..]);
    let next = sheet.len() - rest.len();
    Some(Placed {
        command,
        place,
        next,
    })
}

/// Whether the sheet has no byte at the place.
fn ended(sheet: &[u8], place: usize) -> bool
    ensures { result ≡ nat_le (length sheet.now) place }
{
    place >= sheet.len()
}
