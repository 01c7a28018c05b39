//! Orders are run and shown.

use crate::batch::Batch;
use crate::lines::answered::line_of;
use crate::lines::asked::Asked;
use crate::lines::left::Left;
use detector::Detector;
use orders::answer::Answer;
use orders::order::Order;
use orders::running::run;

/// Prints the headline of a part.
pub(crate) fn headline(rt: &impl Print, line: &str) -> anyhow::Result<()> {
    println!(rt; "\n{line}")?;
    Ok(())
}

/// Runs the orders on a new book over the detector, and prints a line for each. The first has the name in front.
pub(crate) fn show<D: Detector + Drop>(
    rt: &(impl Print + AllocGlobal),
    name: &str,
    detector: D,
    batch: Batch,
) -> anyhow::Result<()> {
    let mut orders = batch.orders;
    let answers = run(rt.alloc(), detector, orders.as_mut_slice())?;
    if answers.is_empty() {
        println!(rt; "{name}: no orders")?;
    }
    print_lines(rt, name, orders.as_slice(), answers.as_slice())
}

/// Prints a line for each order.
fn print_lines(
    rt: &impl Print,
    name: &str,
    orders: &[Order],
    answers: &[Answer],
) -> anyhow::Result<()> {
    for (place, (order, answer)) in orders.iter().zip(answers).enumerate() {
        let book = if place == 0 { name } else { "then" };
        print_line(rt, book, order, *answer)?;
    }
    Ok(())
}

/// Prints the line of an order: the book, what is asked, what is answered, and what is left.
fn print_line(rt: &impl Print, book: &str, order: &Order, answer: Answer) -> anyhow::Result<()> {
    let line = line_of(answer, order);
    println!(rt; "{book}: {} -> {line}{}", Asked(order), Left(order))?;
    Ok(())
}
