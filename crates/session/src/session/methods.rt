//! Commands are carried out, one by one.
ghost use Rattle.std.specs.Prelude.{◌≡◌, [], IfOk};
ghost use Rattle.sheet.specs.Reading.{told};
ghost use Rattle.orders.specs.Orders.{judge, offer, probe, settle, write};
ghost use Rattle.session.specs.Turns.{command_turn, entry_turn, fresh_lent, next_turn, order_turn};
ghost use Rattle.orders.specs.WholeRuns.{EveryRunKeepsThePromise};
ghost use Rattle.session.specs.Sessions.{detector_of, fresh_state, lent_behind, lent_of, state_of, turn};
ghost use Rattle.session.specs.WrittenBook.{WrittenBookReadsBack};

use super::Session;
use crate::outcome::Outcome;
use book::book::Book;
use detector::Detector;
use hand::hand::Gathered;
use model::row::Row;
use orders::answer::Answer;
use refusal::Refusal;
use sheet::Command;
use std::alloc::{AllocError, Global};
use walk::walked::Walked;

/// How many states a probe may list.
const PLACES: usize = 256;

/// How many moves a plan may have.
const MOVES: usize = 256;

/// How many bytes are lent for the book as it is written.
const BYTES: usize = 32_768;

impl<D: Detector + Drop> Session<D> {
    /// A new book over the detector, nothing in hand, and an empty list. All memory that commands can need is taken here. Every run of orders on a new book
    /// keeps the promise over whole runs.
    #[tactic(auto, using(orders::proofs::Promise::every_run_keeps_the_promise))]
    pub fn open(heap: Global, detector: D) -> Result<Session<D>, AllocError>
        ensures fresh { IfOk result (λ s. state_of s ≡ fresh_state) }
        ensures over { IfOk result (λ s. detector_of s ≡ detector) }
        ensures lent { IfOk result (λ s. lent_of s ≡ fresh_lent) }
        ensures every_run { EveryRunKeepsThePromise }
    {
        let unused = Walked {
            state: Row::open(),
            from: 0,
            by: 0,
        };
        Ok(Session {
            book: Book::open(heap, detector)?,
            gathered: Gathered::open(heap)?,
            work_list: vec![in heap; unused; PLACES]?,
            plan: vec![in heap; 0; MOVES]?,
            buffer: vec![in heap; 0; BYTES]?,
        })
    }
}

impl<D: Detector> Session<D> {
    /// Carries out a command. What is written of the book as it stood before the command offers the same rows again when it is read.
    pub fn obey(&mut self, command: Command) -> Outcome
        ensures outcome { turn result self.new ≡ command_turn (D.carried (detector_of self.old)) (D.dead (detector_of self.old)) fresh_lent (state_of self.old) (told command.entry) }
        ensures over { detector_of self.new ≡ detector_of self.old }
        ensures lent { lent_of self.new ≡ lent_behind (D.carried (detector_of self.old)) (D.dead (detector_of self.old)) (lent_of self.old) (state_of self.old) (told command.entry) }
        ensures reads_back { WrittenBookReadsBack (D.carried (detector_of self.old)) (state_of self.old).rows }
    {
        self.carry_out(command)
    }

    /// The same with what it lends itself, and without what is said of reading back.
    fn carry_out(&mut self, command: Command) -> Outcome
        ensures outcome { turn result self.new ≡ command_turn (D.carried (detector_of self.old)) (D.dead (detector_of self.old)) (lent_of self.old) (state_of self.old) (told command.entry) }
        ensures over { detector_of self.new ≡ detector_of self.old }
        ensures lent { lent_of self.new ≡ lent_behind (D.carried (detector_of self.old)) (D.dead (detector_of self.old)) (lent_of self.old) (state_of self.old) (told command.entry) }
    {
        match command {
            Command::Entry { variable, value } => self.enter(variable, value),
            Command::Next => self.next(),
            Command::Judge => self.judge(),
            Command::Probe => self.probe(),
            Command::Offer => self.offer(),
            Command::Settle => self.settle(),
            Command::Write => self.write(),
            Command::Fault(fault) => Outcome::Stopped(fault.into()),
            _ => Outcome::Stopped(Refusal::OutOfTurn),
        }
    }

    /// Enters a value in the row in hand.
    fn enter(&mut self, variable: u8, value: u8) -> Outcome
        ensures outcome { turn result self.new ≡ entry_turn (D.carried (detector_of self.old)) (state_of self.old) variable value }
        ensures over { detector_of self.new ≡ detector_of self.old }
        ensures lent { lent_of self.new ≡ lent_of self.old }
    {
        match self
            .gathered
            .enter(self.book.model(), usize::from(variable), value)
        {
            Ok(()) => Outcome::Quiet,
            Err(refusal) => Outcome::Stopped(refusal),
        }
    }

    /// Moves the row in hand to the list.
    fn next(&mut self) -> Outcome
        ensures outcome { turn result self.new ≡ next_turn (state_of self.old) }
        ensures over { detector_of self.new ≡ detector_of self.old }
        ensures lent { lent_of self.new ≡ lent_of self.old }
    {
        match self.gathered.next() {
            Ok(()) => Outcome::Quiet,
            Err(refusal) => Outcome::Stopped(refusal),
        }
    }

    /// Judges the row in hand, which is dropped then.
    #[tactic(auto, unfolding(orders::specs::Runs::answer, orders::specs::Runs::rows_after, orders::specs::Runs::left_of))]
    fn judge(&mut self) -> Outcome
        ensures outcome { turn result self.new ≡ order_turn (D.carried (detector_of self.old)) (D.dead (detector_of self.old)) (state_of self.old) (judge (state_of self.old).gathered.hand) }
        ensures over { detector_of self.new ≡ detector_of self.old }
        ensures lent { lent_of self.new ≡ lent_of self.old }
    {
        let judged = self.book.judge(self.gathered.row());
        self.gathered.drop_row();
        Outcome::Answered(Answer::judged(judged))
    }

    /// Probes the row in hand, which is dropped then.
    #[tactic(auto, unfolding(orders::specs::Runs::answer, orders::specs::Runs::rows_after, orders::specs::Runs::left_of))]
    fn probe(&mut self) -> Outcome
        ensures outcome { turn result self.new ≡ order_turn (D.carried (detector_of self.old)) (D.dead (detector_of self.old)) (state_of self.old) (probe (state_of self.old).gathered.hand (lent_of self.old).work_list (lent_of self.old).plan) }
        ensures over { detector_of self.new ≡ detector_of self.old }
        ensures lent { lent_of self.new ≡ lent_behind (D.carried (detector_of self.old)) (D.dead (detector_of self.old)) (lent_of self.old) (state_of self.old) (0x51, []) }
    {
        let Session {
            book,
            gathered,
            work_list,
            plan,
            ..
        } = self;
        let probed = book.probe(
            gathered.row(),
            work_list.as_mut_slice(),
            plan.as_mut_slice(),
        );
        gathered.drop_row();
        Outcome::Answered(Answer::probed(probed))
    }

    /// Offers the list, which is dropped then.
    #[tactic(auto, unfolding(orders::specs::Runs::answer, orders::specs::Runs::rows_after, orders::specs::Runs::left_of))]
    fn offer(&mut self) -> Outcome
        ensures outcome { turn result self.new ≡ order_turn (D.carried (detector_of self.old)) (D.dead (detector_of self.old)) (state_of self.old) (offer (state_of self.old).gathered.list) }
        ensures over { detector_of self.new ≡ detector_of self.old }
        ensures lent { lent_of self.new ≡ lent_of self.old }
    {
        let offered = self.book.offer(self.gathered.list());
        self.gathered.drop_list();
        Outcome::Answered(Answer::offered(offered))
    }

    /// Settles the list, which is dropped then.
    #[tactic(auto, unfolding(orders::specs::Runs::answer, orders::specs::Runs::rows_after, orders::specs::Runs::left_of))]
    fn settle(&mut self) -> Outcome
        ensures outcome { turn result self.new ≡ order_turn (D.carried (detector_of self.old)) (D.dead (detector_of self.old)) (state_of self.old) (settle (state_of self.old).gathered.list) }
        ensures over { detector_of self.new ≡ detector_of self.old }
        ensures lent { lent_of self.new ≡ lent_of self.old }
    {
        let settled = self.book.settle(self.gathered.list());
        self.gathered.drop_list();
        Outcome::Answered(Answer::settled(settled))
    }

    /// Writes the book into the buffer.
    #[tactic(auto, unfolding(orders::specs::Runs::answer, orders::specs::Runs::rows_after, orders::specs::Runs::left_of))]
    fn write(&mut self) -> Outcome
        ensures outcome { turn result self.new ≡ order_turn (D.carried (detector_of self.old)) (D.dead (detector_of self.old)) (state_of self.old) (write (lent_of self.old).buffer) }
        ensures over { detector_of self.new ≡ detector_of self.old }
        ensures lent { lent_of self.new ≡ lent_behind (D.carried (detector_of self.old)) (D.dead (detector_of self.old)) (lent_of self.old) (state_of self.old) (0x57, []) }
    {
        let written = self.book.write(self.buffer.as_mut_slice());
        Outcome::Answered(Answer::written(written))
    }

    /// The plan buffer. Behind a probe that was answered with a plan its moves lie at the front, until a plan is found again.
    pub fn plan(&self) -> &[u8]
        ensures { result.now ≡ (lent_of self.now).plan }
    {
        self.plan.as_slice()
    }

    /// The buffer for the book. Behind a write that was not refused the book lies at the front as it is written, until it is written again.
    pub fn buffer(&self) -> &[u8]
        ensures { result.now ≡ (lent_of self.now).buffer }
    {
        self.buffer.as_slice()
    }
}
