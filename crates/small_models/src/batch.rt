//! Orders are gathered for one book.

use crate::before::{buffer, work_list};
use model::row::Row;
use orders::order::Order;
use std::alloc::{AllocError, Global};

/// Orders for one new book.
#[derive(Drop)]
pub struct Batch {
    heap: Global,
    pub orders: Vec<Order>,
}

impl Batch {
    pub(crate) fn new(heap: Global) -> Batch {
        Batch {
            heap,
            orders: Vec::new(heap),
        }
    }

    pub(crate) fn judge(&mut self, row: Row) -> Result<(), AllocError> {
        self.push(Order::Judge(row))
    }

    /// With a work list of so many places, and so many bytes for a plan.
    pub(crate) fn probe(
        &mut self,
        state: Row,
        places: usize,
        bytes: usize,
    ) -> Result<(), AllocError> {
        let work_list = work_list(self.heap, places)?;
        let plan = buffer(self.heap, bytes)?;
        self.push(Order::Probe {
            state,
            work_list,
            plan,
        })
    }

    pub(crate) fn offer(&mut self, list: &[Row]) -> Result<(), AllocError> {
        let list = list.to_vec(self.heap)?;
        self.push(Order::Offer(list))
    }

    pub(crate) fn settle(&mut self, candidates: &[Row]) -> Result<(), AllocError> {
        let candidates = candidates.to_vec(self.heap)?;
        self.push(Order::Settle(candidates))
    }

    /// To a buffer of so many bytes.
    pub(crate) fn write(&mut self, bytes: usize) -> Result<(), AllocError> {
        let buffer = buffer(self.heap, bytes)?;
        self.push(Order::Write(buffer))
    }

    fn push(&mut self, order: Order) -> Result<(), AllocError> {
        self.orders.push(order)?;
        Ok(())
    }
}
