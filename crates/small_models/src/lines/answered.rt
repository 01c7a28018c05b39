//! What is answered to an order.

use desk::lines::Line;
use orders::answer::Answer;
use orders::order::Order;

/// The line by which an answer to the order would be told of a sheet.
pub(crate) fn line_of<'a>(answer: Answer, order: &'a Order) -> Line<'a> {
    Line::of_answer(answer, plan_of(order), buffer_of(order))
}

/// The plan buffer that the order brings, if it brings one.
fn plan_of(order: &Order) -> &[u8] {
    match order {
        Order::Probe { plan, .. } => plan.as_slice(),
        _ => &[],
    }
}

/// The buffer for the book that the order brings, if it brings one.
fn buffer_of(order: &Order) -> &[u8] {
    match order {
        Order::Write(buffer) => buffer.as_slice(),
        _ => &[],
    }
}
