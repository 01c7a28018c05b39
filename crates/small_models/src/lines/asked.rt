//! What an order asks.

use super::count::Count;
use model::row::Row;
use orders::order::Order;
use std::fmt;

/// The entries that a row gives.
#[derive(Clone, Copy)]
struct Entries<'a>(&'a Row);

impl<'a> fmt::Display for Entries<'a> {
    fn fmt<W: fmt::Write>(&self, f: &mut fmt::Formatter<W>) -> fmt::Result {
        let mut gap = "";
        for variable in 0..32 {
            if let Some(value) = self.0.entry(variable) {
                write!(f, "{gap}{variable}={value}")?;
                gap = " ";
            }
        }
        if gap.is_empty() {
            write!(f, "open")?;
        }
        Ok(())
    }
}

/// Rows of a list; of a long one how many, and its ends.
#[derive(Clone, Copy)]
struct List<'a>(&'a [Row]);

impl<'a> fmt::Display for List<'a> {
    fn fmt<W: fmt::Write>(&self, f: &mut fmt::Formatter<W>) -> fmt::Result {
        match self.0 {
            [] => write!(f, "no rows"),
            [first, .., last] if self.0.len() > 6 => {
                let rows = Count(self.0.len(), "row");
                write!(f, "{rows}, from {} to {}", Entries(first), Entries(last))
            }
            [first, others @ ..] => {
                write!(f, "{}", Entries(first))?;
                write_others(f, others)
            }
        }
    }
}

/// Writes rows, each behind a stroke.
fn write_others<W: fmt::Write>(f: &mut fmt::Formatter<W>, rows: &[Row]) -> fmt::Result {
    for row in rows {
        write!(f, " / {}", Entries(row))?;
    }
    Ok(())
}

/// What an order asks, and how much it brings.
#[derive(Clone, Copy)]
pub struct Asked<'a>(pub &'a Order);

impl<'a> fmt::Display for Asked<'a> {
    fn fmt<W: fmt::Write>(&self, f: &mut fmt::Formatter<W>) -> fmt::Result {
        match self.0 {
            Order::Judge(row) => write!(f, "judge {}", Entries(row)),
            Order::Probe {
                state,
                work_list,
                plan,
            } => {
                let places = Count(work_list.len(), "place");
                let bytes = Count(plan.len(), "byte");
                write!(f, "probe {} over {places}, {bytes}", Entries(state))
            }
            Order::Offer(list) => write!(f, "offer {}", List(list.as_slice())),
            Order::Settle(candidates) => write!(f, "settle {}", List(candidates.as_slice())),
            Order::Write(buffer) => write!(f, "write to {}", Count(buffer.len(), "byte")),
        }
    }
}
