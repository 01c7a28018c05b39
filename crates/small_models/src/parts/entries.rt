//! Rows with wrong entries, and rows that are no states.

use crate::batch::Batch;
use crate::models::{lane, nothing};
use crate::row_lists::four_rows;
use crate::rows::{at_dock, at_lane, position, row_of};
use crate::showing::{headline, show};
use model::row::Row;

pub(crate) fn show_all(rt: &(impl Print + AllocGlobal)) -> anyhow::Result<()> {
    headline(
        rt,
        "6, 7: no such variable, a value too large; the first wrong entry decides",
    )?;
    show_judged(rt)?;
    show_probed(rt)?;
    show_listed(rt)?;
    headline(
        rt,
        "15: a probe of a row that leaves a variable open, behind 6 and 7, before all else",
    )?;
    show_open(rt)?;
    show_no_variables(rt)
}

/// In a row the lowest variable decides.
fn show_judged(rt: &(impl Print + AllocGlobal)) -> anyhow::Result<()> {
    let mut batch = Batch::new(rt.alloc());
    batch.judge(row_of(&[(2, 0)]))?;
    batch.judge(row_of(&[(31, 255)]))?;
    batch.judge(at_lane(3))?;
    batch.judge(position(0, 255))?;
    batch.judge(row_of(&[(1, 3), (2, 0)]))?;
    batch.judge(at_lane(2))?;
    show(rt, "lane", lane(rt.alloc())?, batch)
}

/// Nothing is written where a probe is refused so.
fn show_probed(rt: &(impl Print + AllocGlobal)) -> anyhow::Result<()> {
    let mut batch = Batch::new(rt.alloc());
    batch.probe(row_of(&[(0, 0), (1, 0), (2, 0)]), 3, 2)?;
    batch.probe(position(0, 3), 3, 2)?;
    batch.probe(row_of(&[(0, 0), (1, 3), (2, 0)]), 3, 2)?;
    show(rt, "lane", lane(rt.alloc())?, batch)
}

/// The place of the row in its list is told. The last two are refused so before it is asked whether the first row disagrees with the goal.
fn show_listed(rt: &(impl Print + AllocGlobal)) -> anyhow::Result<()> {
    let mut batch = Batch::new(rt.alloc());
    offer_and_settle(&mut batch, &[at_lane(0), at_lane(3)])?;
    offer_and_settle(&mut batch, &[at_lane(0), row_of(&[(2, 0)])])?;
    offer_and_settle(&mut batch, &[at_lane(0), at_lane(3), row_of(&[(2, 0)])])?;
    offer_and_settle(&mut batch, &[row_of(&[(2, 0)]), at_lane(3)])?;
    offer_and_settle(&mut batch, &[at_lane(0), row_of(&[(1, 3), (2, 0)])])?;
    offer_and_settle(&mut batch, &[at_lane(2), at_lane(3)])?;
    batch.write(1)?;
    show(rt, "lane", lane(rt.alloc())?, batch)
}

/// The same list is offered, and then settled.
fn offer_and_settle(batch: &mut Batch, list: &[Row]) -> anyhow::Result<()> {
    batch.offer(list)?;
    batch.settle(list)?;
    Ok(())
}

/// It is told before the work list is asked for a place, and before the book is asked for the row.
fn show_open(rt: &(impl Print + AllocGlobal)) -> anyhow::Result<()> {
    let mut batch = Batch::new(rt.alloc());
    batch.probe(at_lane(0), 3, 2)?;
    batch.probe(at_dock(2), 3, 2)?;
    batch.probe(Row::open(), 3, 2)?;
    batch.probe(at_lane(3), 3, 2)?;
    batch.probe(row_of(&[(2, 0)]), 3, 2)?;
    batch.probe(at_lane(0), 0, 0)?;
    batch.offer(&four_rows())?;
    batch.judge(at_lane(0))?;
    batch.probe(at_lane(0), 3, 2)?;
    show(rt, "lane", lane(rt.alloc())?, batch)
}

/// A model without variables leaves none open.
fn show_no_variables(rt: &(impl Print + AllocGlobal)) -> anyhow::Result<()> {
    let mut batch = Batch::new(rt.alloc());
    batch.probe(Row::open(), 3, 2)?;
    show(rt, "no variables", nothing(rt.alloc())?, batch)
}
