//! Why a sheet or an order on a book is refused, by cause. The numbers are what the program prints, and are the same for every part.
#![tactic(auto)]

ghost use Rattle.std.specs.Prelude.{◌≡◌};
ghost use Rattle.refusal.specs.Numbers.{refusal_number};

/// The causes for which a sheet, a model, a choice of detector or an order on a book is refused, each with the number by which it is told.
#[derive(Clone, Copy, Debug, PartialEq, Eq)]
pub enum Refusal {
    /// The sheet ends inside a command, or before its detector.
    SheetEnds = 1,
    /// No command has this byte.
    UnknownCommand = 2,
    /// The command does not stand where it may.
    OutOfTurn = 3,
    /// A limit is passed: on variables, on moves, on the rows of a list, or on the bytes of a sheet.
    TooMany = 4,
    /// A variable's size is 0 or above 16.
    SizeOutOfRange = 5,
    /// The model has no such variable.
    NoSuchVariable = 6,
    /// The value is not below the variable's size.
    ValueTooLarge = 7,
    /// The row has an entry for this variable already.
    EntryTwice = 8,
    /// The start leaves a variable open.
    StartIncomplete = 9,
    /// There is no such kind of detector.
    UnknownKind = 10,
    /// The detector's operands are not those that its kind takes.
    WrongOperands = 11,
    /// A row does not disagree with the goal, so that it breaks rule 1.
    MeetsGoal = 12,
    /// A move leads from a row to one that is not called dead and contains no row of the set, so that the row breaks rule 2.
    LeadsOut = 13,
    /// The book would have more than 256 rows.
    BookFull = 14,
    /// A probe is given a row that leaves a variable open, so that it is no state.
    OpenEntry = 15,
    /// A state must be listed, and the work list has no place left.
    WorkListFull = 16,
    /// A plan, or the book as it is written, is longer than the buffer for it.
    BufferTooShort = 17,
}

impl Refusal {
    /// The number by which the refusal is told.
    pub fn number(self) -> u8
        ensures { result ≡ refusal_number self }
    {
        self as u8
    }
}
