//! A book is opened, asked and given orders.
ghost use Rattle.std.specs.Prelude.{◌≡◌, ◌≤◌, true, [], ◌++◌, length, is_ok, IfOk};
ghost use Rattle.std.specs.List.{list_all};
ghost use Rattle.model.specs.Records.{row_of_model, state_of_model};
ghost use Rattle.model.specs.Rows.{same_row};
ghost use Rattle.first_come.specs.Arrivals.{Distinct};
ghost use Rattle.book.specs.Books.{book_rows, book_detector};
ghost use Rattle.book.specs.Laws.{BookIsLawful, NoStateWithARowOfTheSetHasAPlan, PassesExactly, ProbeIsRight, SettlesTheLargestSelection, StaysLawful};
ghost use Rattle.detector.specs.Laws.{Lawful};
ghost use Rattle.book.specs.Offers.{offer_answer, offer_rows, rows_checked};
ghost use Rattle.book.specs.Probes.{learn_answer, learn_rows, probe_outcome, outcome_rows, probe_answer, probe_plan, probe_rows, probe_work_list, probed_told, walk_of};
ghost use Rattle.rules.specs.Rules.{KeepsBothRules, keeps_rules};
ghost use Rattle.walk.specs.Answers.{plan_after, states_of, work_list_after};
ghost use Rattle.book.specs.Settles.{settle_answer, settle_rows};
ghost use Rattle.book.specs.Written.{buffer_after, write_answer};
ghost use Rattle.book.specs.Verdicts.{book_dead, book_within, judge_answer, judged_told};

use super::Book;
use crate::adding::add_fresh;
use crate::checking::check_list;
use crate::probed::Probed;
use crate::refused::Refused;
use crate::settled::Settled;
use crate::taking::take_state;
use crate::writing::write_rows;
use detector::Detector;
use detector::verdict::Verdict;
use learning::parts::learn;
use model::row::Row;
use model::sealed::Model;
use refusal::Refusal;
use rules::set::{covers, first_leading_out, first_meeting_goal};
use settling::rounds::settle;
use std::alloc::{AllocError, Global};
use walk::ended::Ended;
use walk::walked::Walked;
use walk::walking::walk;

impl<D: Detector + Drop> Book<D> {
    /// A book without rows. All memory that it can need is taken here.
    pub fn open(heap: Global, detector: D) -> Result<Book<D>, AllocError>
        ensures empty { IfOk result (λ b. book_rows b ≡ []) }
        ensures over { IfOk result (λ b. book_detector b ≡ detector) }
        ensures lawful { IfOk result (λ b. BookIsLawful (D.carried detector) (D.dead detector) (book_rows b)) }
    {
        let rows = Vec::with_capacity(heap, 256)?;
        Ok(Book { detector, rows })
    }
}

impl<D: Detector> Book<D> {
    /// Its rows, in the order in which they were added.
    pub fn rows(&self) -> &[Row]
        ensures answer { result.now ≡ book_rows self.now }
        ensures few { length result.now ≤ 256 }
        ensures fit { list_all (row_of_model (D.carried (book_detector self.now))) result.now ≡ true }
        ensures once { Distinct same_row result.now }
        ensures rules { KeepsBothRules (D.carried (book_detector self.now)) (D.dead (book_detector self.now)) result.now }
    {
        self.rows.as_slice()
    }

    /// Judges a row: dead or silent, as the book calls it, or refused for its first wrong entry.
    pub fn judge(&self, row: &Row) -> Result<Verdict, Refusal>
        ensures answer { judged_told result ≡ judge_answer (D.carried (book_detector self.now)) (D.dead (book_detector self.now)) (book_rows self.now) row.now }
        ensures no_plan { NoStateWithARowOfTheSetHasAPlan }
        ensures lawful { BookIsLawful (D.carried (book_detector self.now)) (D.dead (book_detector self.now)) (book_rows self.now) }
    {
        self.judged(row)
    }

    fn judged(&self, row: &Row) -> Result<Verdict, Refusal>
        ensures { judged_told result ≡ judge_answer (D.carried (book_detector self.now)) (D.dead (book_detector self.now)) (book_rows self.now) row.now }
    {
        self.model().check_row(row)?;
        Ok(self.verdict(row))
    }

    /// Offers a list of rows, which passes if the book's rows and the list together keep both rules and fit. Those not yet held are added; how many.
    pub fn offer(&mut self, list: &[Row]) -> Result<usize, Refused>
        ensures answer { result ≡ offer_answer (D.carried (book_detector self.old)) (D.dead (book_detector self.old)) (book_rows self.old) list.now }
        ensures rows { book_rows self.new ≡ offer_rows (D.carried (book_detector self.old)) (D.dead (book_detector self.old)) (book_rows self.old) list.now }
        ensures over { book_detector self.new ≡ book_detector self.old }
        ensures passes { PassesExactly (is_ok result) (D.carried (book_detector self.old)) (D.dead (book_detector self.old)) (book_rows self.old) list.now }
        ensures lawful { StaysLawful (D.carried (book_detector self.old)) (D.dead (book_detector self.old)) (book_rows self.old) (book_rows self.new) }
    {
        self.add_offered(list)
    }

    fn add_offered(&mut self, list: &[Row]) -> Result<usize, Refused>
        ensures answer { result ≡ offer_answer (D.carried (book_detector self.old)) (D.dead (book_detector self.old)) (book_rows self.old) list.now }
        ensures rows { book_rows self.new ≡ offer_rows (D.carried (book_detector self.old)) (D.dead (book_detector self.old)) (book_rows self.old) list.now }
        ensures over { book_detector self.new ≡ book_detector self.old }
    {
        if let Err(refused) = self.check_offer(list) {
            return Err(refused);
        }
        add_fresh(&mut self.rows, list)
    }

    /// Whether the list may be offered, but for the room that it takes.
    fn check_offer(&self, list: &[Row]) -> Result<(), Refused>
        ensures { result ≡ rows_checked (D.carried (book_detector self.now)) (D.dead (book_detector self.now)) (book_rows self.now) list.now }
    {
        check_list(self.model(), list)?;
        if let Some(row) = first_meeting_goal(self, list) {
            return Err(Refused::for_row(Refusal::MeetsGoal, row));
        }
        if let Some((row, step)) = first_leading_out(self, list) {
            return Err(Refused::for_step(Refusal::LeadsOut, row, step));
        }
        Ok(())
    }

    /// Settles a list of candidates: marks them until those that are left keep both rules, and adds these as an offer does.
    pub fn settle(&mut self, candidates: &[Row]) -> Result<Settled, Refused>
        ensures answer { result ≡ settle_answer (D.carried (book_detector self.old)) (D.dead (book_detector self.old)) (book_rows self.old) candidates.now }
        ensures rows { book_rows self.new ≡ settle_rows (D.carried (book_detector self.old)) (D.dead (book_detector self.old)) (book_rows self.old) candidates.now }
        ensures over { book_detector self.new ≡ book_detector self.old }
        ensures largest { IfOk result (λ _. SettlesTheLargestSelection (D.carried (book_detector self.old)) (D.dead (book_detector self.old)) (book_rows self.old) candidates.now) }
        ensures lawful { StaysLawful (D.carried (book_detector self.old)) (D.dead (book_detector self.old)) (book_rows self.old) (book_rows self.new) }
    {
        self.add_settled(candidates)
    }

    fn add_settled(&mut self, candidates: &[Row]) -> Result<Settled, Refused>
        ensures answer { result ≡ settle_answer (D.carried (book_detector self.old)) (D.dead (book_detector self.old)) (book_rows self.old) candidates.now }
        ensures rows { book_rows self.new ≡ settle_rows (D.carried (book_detector self.old)) (D.dead (book_detector self.old)) (book_rows self.old) candidates.now }
        ensures over { book_detector self.new ≡ book_detector self.old }
    {
        if let Err(refused) = check_list(self.model(), candidates) {
            return Err(refused);
        }
        let sifted = settle(self, candidates);
        match add_fresh(&mut self.rows, sifted.rows()) {
            Ok(added) => Ok(Settled {
                added,
                rounds: sifted.rounds(),
            }),
            Err(refused) => Err(refused),
        }
    }

    /// Probes a state. A plan, if there is one, lies at the front of the plan buffer then. If there is none the state is dead: the book calls it so at once, or a
    /// walk from it, in at most 256 places of the work list and past all that the book calls dead, has found no way out, and what the walk has listed is
    /// learned. The listed states lie at the front of the work list then, also where the order is refused for want of a place (16), for a plan that is too long
    /// (17), or for want of room in the book (14). A row that is no state is refused (6, 7, 15), which changes nothing.
    pub fn probe(
        &mut self,
        state: &Row,
        work_list: &mut [Walked],
        plan: &mut [u8],
    ) -> Result<Probed, Refusal>
        ensures answer { probed_told result ≡ probe_answer (D.carried (book_detector self.old)) (D.dead (book_detector self.old)) (book_rows self.old) state.now work_list.old plan.old }
        ensures rows { book_rows self.new ≡ probe_rows (D.carried (book_detector self.old)) (D.dead (book_detector self.old)) (book_rows self.old) state.now work_list.old }
        ensures over { book_detector self.new ≡ book_detector self.old }
        ensures work_list { work_list.new ≡ probe_work_list (D.carried (book_detector self.old)) (D.dead (book_detector self.old)) (book_rows self.old) state.now work_list.old }
        ensures plan { plan.new ≡ probe_plan (D.carried (book_detector self.old)) (D.dead (book_detector self.old)) (book_rows self.old) state.now work_list.old plan.old }
        ensures right { Lawful (D.carried (book_detector self.old)) (book_dead (D.carried (book_detector self.old)) (D.dead (book_detector self.old)) (book_rows self.old)) → ProbeIsRight (D.carried (book_detector self.old)) state.now (probed_told result) plan.new }
        ensures lawful { StaysLawful (D.carried (book_detector self.old)) (D.dead (book_detector self.old)) (book_rows self.old) (book_rows self.new) }
    {
        self.probed(state, work_list, plan)
    }

    fn probed(
        &mut self,
        state: &Row,
        work_list: &mut [Walked],
        plan: &mut [u8],
    ) -> Result<Probed, Refusal>
        ensures answer { probed_told result ≡ probe_answer (D.carried (book_detector self.old)) (D.dead (book_detector self.old)) (book_rows self.old) state.now work_list.old plan.old }
        ensures rows { book_rows self.new ≡ probe_rows (D.carried (book_detector self.old)) (D.dead (book_detector self.old)) (book_rows self.old) state.now work_list.old }
        ensures over { book_detector self.new ≡ book_detector self.old }
        ensures work_list { work_list.new ≡ probe_work_list (D.carried (book_detector self.old)) (D.dead (book_detector self.old)) (book_rows self.old) state.now work_list.old }
        ensures plan { plan.new ≡ probe_plan (D.carried (book_detector self.old)) (D.dead (book_detector self.old)) (book_rows self.old) state.now work_list.old plan.old }
    {
        let state = match take_state(self.model(), state) {
            Ok(state) => state,
            Err(refusal) => return Err(refusal),
        };
        if self.calls_dead(&state) {
            return Ok(Probed::Dead {
                states: 0,
                rows: 0,
                entries: 0,
            });
        }
        self.walk_and_learn(&state, work_list, plan)
    }

    /// Walks from a state that is not called dead, and learns what the walk has listed if there is no plan.
    #[tactic(auto, unfolding(crate::specs::Probes::walk_of))]
    fn walk_and_learn(
        &mut self,
        state: &Row,
        work_list: &mut [Walked],
        plan: &mut [u8],
    ) -> Result<Probed, Refusal>
        requires { state_of_model (D.carried (book_detector self.old)) state.now ≡ true }
        ensures answer { probed_told result ≡ probe_outcome (D.carried (book_detector self.old)) (D.dead (book_detector self.old)) (book_rows self.old) (length plan.old) (walk_of (D.carried (book_detector self.old)) (D.dead (book_detector self.old)) (book_rows self.old) state.now work_list.old).listed (walk_of (D.carried (book_detector self.old)) (D.dead (book_detector self.old)) (book_rows self.old) state.now work_list.old).outcome }
        ensures rows { book_rows self.new ≡ outcome_rows (D.carried (book_detector self.old)) (D.dead (book_detector self.old)) (book_rows self.old) (walk_of (D.carried (book_detector self.old)) (D.dead (book_detector self.old)) (book_rows self.old) state.now work_list.old).listed (walk_of (D.carried (book_detector self.old)) (D.dead (book_detector self.old)) (book_rows self.old) state.now work_list.old).outcome }
        ensures over { book_detector self.new ≡ book_detector self.old }
        ensures work_list { work_list.new ≡ work_list_after work_list.old (walk_of (D.carried (book_detector self.old)) (D.dead (book_detector self.old)) (book_rows self.old) state.now work_list.old) }
        ensures plan { plan.new ≡ plan_after plan.old (walk_of (D.carried (book_detector self.old)) (D.dead (book_detector self.old)) (book_rows self.old) state.now work_list.old) }
    {
        match walk(self, state, work_list, plan) {
            Ok(Ended::Plan { states, length }) => Ok(Probed::Plan { states, length }),
            Ok(Ended::NoPlan { states }) => self.learn_listed(&work_list[..states]),
            Err(refusal) => Err(refusal),
        }
    }

    /// Learns the listed states of a walk that found no plan.
    fn learn_listed(&mut self, listed: &[Walked]) -> Result<Probed, Refusal>
        requires few { length listed.now ≤ 256 }
        requires fit { list_all (row_of_model (D.carried (book_detector self.old))) (states_of listed.now) ≡ true }
        requires rules { keeps_rules (D.carried (book_detector self.old)) (D.dead (book_detector self.old)) (book_rows self.old ++ states_of listed.now) ≡ true }
        ensures answer { probed_told result ≡ learn_answer (D.carried (book_detector self.old)) (D.dead (book_detector self.old)) (book_rows self.old) listed.now }
        ensures rows { book_rows self.new ≡ learn_rows (D.carried (book_detector self.old)) (D.dead (book_detector self.old)) (book_rows self.old) listed.now }
        ensures over { book_detector self.new ≡ book_detector self.old }
    {
        let learned = learn(&self.detector, self.rows.as_slice(), listed);
        match add_fresh(&mut self.rows, learned.parts()) {
            Ok(rows) => Ok(Probed::Dead {
                states: listed.len(),
                rows,
                entries: learned.entries(),
            }),
            Err(refused) => Err(refused.refusal),
        }
    }

    /// Writes its rows at the front of the buffer, in their order, as the commands of a sheet that enter, list and offer them; how many bytes that
    /// are. A buffer that is too short is left as it was.
    pub fn write(&self, buffer: &mut [u8]) -> Result<usize, Refusal>
        ensures answer { result ≡ write_answer buffer.old (book_rows self.now) }
        ensures after { buffer.new ≡ buffer_after buffer.old (book_rows self.now) }
        ensures lawful { BookIsLawful (D.carried (book_detector self.now)) (D.dead (book_detector self.now)) (book_rows self.now) }
    {
        write_rows(self.rows.as_slice(), buffer)
    }

    /// Whether the detector calls the row dead, or one of the book's rows is contained in it.
    #[tactic(auto, using(rules::proofs::RuleLaws::either_first))]
    fn calls_dead(&self, row: &Row) -> bool
        ensures { result ≡ book_dead (D.carried (book_detector self.now)) (D.dead (book_detector self.now)) (book_rows self.now) row.now }
    {
        // Its own rows first: a verdict may cost much more.
        self.detector.model().fits(row) && covers(self.rows.as_slice(), row)
            || self.detector.verdict(row).is_dead()
    }
}

impl<D: Detector> Detector for Book<D> {
    ghost carried = { λ b. D.carried (book_detector b) };

    ghost dead = { λ b. book_dead (D.carried (book_detector b)) (D.dead (book_detector b)) (book_rows b) };

    ghost sealed = { λ b. D.sealed (book_detector b) };

    ghost within = { λ b. book_within (D.carried (book_detector b)) (D.dead (book_detector b)) (book_rows b) (D.within (book_detector b)) };

    fn model(&self) -> &Model {
        self.detector.model()
    }

    fn verdict(&self, row: &Row) -> Verdict {
        Verdict::dead_if(self.calls_dead(row))
    }
}
