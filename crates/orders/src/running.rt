//! Orders are run on a new book.
ghost use Rattle.std.specs.Prelude.{◌≡◌, [], map, vec_items, IfOk, IfErr};
ghost use Rattle.detector.specs.Laws.{Lawful};
ghost use Rattle.book.specs.Books.{book_rows, book_detector};
ghost use Rattle.orders.specs.Orders.{brought, answer_told};
ghost use Rattle.orders.specs.Runs.{answer, rows_after, left_of, answers_run, left_run};
ghost use Rattle.orders.specs.WholeRuns.{PromiseOverTheWholeRun};

use crate::answer::Answer;
use crate::order::Order;
use book::book::Book;
use detector::Detector;
use std::alloc::{AllocError, Global};

/// Runs the orders on a new book over the detector, one after another, and answers each. All memory is taken before the first order, so that want of
/// memory leaves them as they were.
pub fn run<D: Detector + Drop>(
    heap: Global,
    detector: D,
    orders: &mut [Order],
) -> Result<Vec<Answer>, AllocError>
    ensures answers { IfOk result (λ v. map answer_told (vec_items v) ≡ answers_run (D.carried detector) (D.dead detector) [] (map brought orders.old)) }
    ensures left { IfOk result (λ _. map brought orders.new ≡ left_run (D.carried detector) (D.dead detector) [] (map brought orders.old)) }
    ensures untouched { IfErr result (λ _. orders.new ≡ orders.old) }
    ensures promise { IfOk result (λ v. Lawful (D.carried detector) (D.dead detector) → PromiseOverTheWholeRun (D.carried detector) (D.dead detector) (map brought orders.old) (map brought orders.new) (map answer_told (vec_items v))) }
{
    run_all(heap, detector, orders)
}

/// The same, without the promise.
fn run_all<D: Detector + Drop>(
    heap: Global,
    detector: D,
    orders: &mut [Order],
) -> Result<Vec<Answer>, AllocError>
    ensures answers { IfOk result (λ v. map answer_told (vec_items v) ≡ answers_run (D.carried detector) (D.dead detector) [] (map brought orders.old)) }
    ensures left { IfOk result (λ _. map brought orders.new ≡ left_run (D.carried detector) (D.dead detector) [] (map brought orders.old)) }
    ensures untouched { IfErr result (λ _. orders.new ≡ orders.old) }
{
    let mut book = Book::open(heap, detector)?;
    let mut answers = Vec::with_capacity(heap, orders.len())?;
    for order in orders.iter_mut() {
        answers.push_reserved(obey(&mut book, order));
    }
    Ok(answers)
}

/// Carries out one order.
#[tactic(auto, unfolding(crate::specs::Runs::answer, crate::specs::Runs::rows_after, crate::specs::Runs::left_of))]
fn obey<D: Detector>(book: &mut Book<D>, order: &mut Order) -> Answer
    ensures answer { answer_told result ≡ answer (D.carried (book_detector book.old)) (D.dead (book_detector book.old)) (book_rows book.old) (brought order.old) }
    ensures rows { book_rows book.new ≡ rows_after (D.carried (book_detector book.old)) (D.dead (book_detector book.old)) (book_rows book.old) (brought order.old) }
    ensures over { book_detector book.new ≡ book_detector book.old }
    ensures left { brought order.new ≡ left_of (D.carried (book_detector book.old)) (D.dead (book_detector book.old)) (book_rows book.old) (brought order.old) }
{
    match order {
        Order::Judge(row) => Answer::judged(book.judge(row)),
        Order::Probe {
            state,
            work_list,
            plan,
        } => Answer::probed(book.probe(state, work_list.as_mut_slice(), plan.as_mut_slice())),
        Order::Offer(list) => Answer::offered(book.offer(list.as_slice())),
        Order::Settle(candidates) => Answer::settled(book.settle(candidates.as_slice())),
        Order::Write(buffer) => Answer::written(book.write(buffer.as_mut_slice())),
    }
}
