//! Buffers that are too short, just long enough, and longer than needed.

use crate::batch::Batch;
use crate::models::{free, lane};
use crate::row_lists::four_rows;
use crate::rows::{at_lane, position};
use crate::showing::{headline, show};

pub(crate) fn show_all(rt: &(impl Print + AllocGlobal)) -> anyhow::Result<()> {
    headline(rt, "17: a plan is longer than its buffer")?;
    show_plans(rt)?;
    headline(
        rt,
        "17: the book as it is written is longer than its buffer",
    )?;
    show_written(rt)?;
    headline(rt, "What lies behind the used part is kept")?;
    show_kept_by_plans(rt)?;
    show_kept_by_the_dead(rt)
}

/// 16 comes first, since no plan is found then. An empty plan takes no byte.
fn show_plans(rt: &(impl Print + AllocGlobal)) -> anyhow::Result<()> {
    let mut batch = Batch::new(rt.alloc());
    batch.probe(position(0, 0), 8, 3)?;
    batch.probe(position(0, 0), 8, 4)?;
    batch.probe(position(0, 0), 8, 0)?;
    batch.probe(position(0, 0), 7, 3)?;
    batch.probe(position(1, 2), 1, 0)?;
    batch.probe(position(1, 2), 1, 1)?;
    batch.probe(position(2, 2), 1, 0)?;
    show(rt, "free", free(rt.alloc())?, batch)
}

/// A book without rows is written too, by the one byte that offers nothing.
fn show_written(rt: &(impl Print + AllocGlobal)) -> anyhow::Result<()> {
    let mut batch = Batch::new(rt.alloc());
    batch.write(0)?;
    batch.write(1)?;
    batch.offer(&four_rows())?;
    batch.write(0)?;
    batch.write(16)?;
    batch.write(17)?;
    show(rt, "lane", lane(rt.alloc())?, batch)
}

/// Behind plans and refusals.
fn show_kept_by_plans(rt: &(impl Print + AllocGlobal)) -> anyhow::Result<()> {
    let mut batch = Batch::new(rt.alloc());
    batch.probe(position(0, 0), 12, 6)?;
    batch.probe(position(0, 0), 12, 3)?;
    batch.probe(position(0, 0), 7, 6)?;
    batch.probe(position(2, 2), 12, 6)?;
    batch.probe(position(0, 3), 12, 6)?;
    batch.probe(at_lane(0), 12, 6)?;
    show(rt, "free", free(rt.alloc())?, batch)
}

/// Behind dead states and written books.
fn show_kept_by_the_dead(rt: &(impl Print + AllocGlobal)) -> anyhow::Result<()> {
    let mut batch = Batch::new(rt.alloc());
    batch.write(4)?;
    batch.probe(position(0, 0), 12, 6)?;
    batch.probe(position(0, 0), 12, 6)?;
    batch.write(16)?;
    batch.write(20)?;
    show(rt, "lane", lane(rt.alloc())?, batch)
}
