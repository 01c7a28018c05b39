//! What an order has left in what it brought.

use super::count::Count;
use crate::before::{kept_bytes, kept_places, listed};
use model::row::Row;
use orders::order::Order;
use std::fmt;
use walk::walked::Walked;

/// The values of a state, without their variables.
#[derive(Clone, Copy)]
struct Values<'a>(&'a Row);

impl<'a> fmt::Display for Values<'a> {
    fn fmt<W: fmt::Write>(&self, f: &mut fmt::Formatter<W>) -> fmt::Result {
        for variable in 0..32 {
            if let Some(value) = self.0.entry(variable) {
                write!(f, "{value}")?;
            }
        }
        Ok(())
    }
}

/// What is listed at the front of a work list, if it is not long: each state with the place and the move that it came from.
#[derive(Clone, Copy)]
struct Listed<'a>(&'a [Walked]);

impl<'a> fmt::Display for Listed<'a> {
    fn fmt<W: fmt::Write>(&self, f: &mut fmt::Formatter<W>) -> fmt::Result {
        match listed(self.0) {
            0 => write!(f, " none"),
            count if count > 8 => write!(f, " {}", Count(count, "state")),
            count => write_states(f, self.0, count),
        }
    }
}

/// Writes the states at so many places, each behind a space.
fn write_states<W: fmt::Write>(
    f: &mut fmt::Formatter<W>,
    work_list: &[Walked],
    count: usize,
) -> fmt::Result {
    for walked in work_list.iter().take(count) {
        let Walked { state, from, by } = walked;
        write!(f, " {}({from},{by})", Values(state))?;
    }
    Ok(())
}

/// What an order has left in what it brought.
#[derive(Clone, Copy)]
pub struct Left<'a>(pub &'a Order);

impl<'a> fmt::Display for Left<'a> {
    fn fmt<W: fmt::Write>(&self, f: &mut fmt::Formatter<W>) -> fmt::Result {
        match self.0 {
            Order::Probe {
                work_list,
                plan,
                ..
            } => {
                let states = Listed(work_list.as_slice());
                let places = Count(kept_places(work_list.as_slice()), "place");
                let bytes = Count(kept_bytes(plan.as_slice()), "byte");
                write!(f, ", listed{states}, kept {places}, {bytes}")
            }
            Order::Write(buffer) => write!(
                f,
                ", kept {}",
                Count(kept_bytes(buffer.as_slice()), "byte")
            ),
            Order::Judge(_) | Order::Offer(_) | Order::Settle(_) => Ok(()),
        }
    }
}
