//! Work lists that are too short, just long enough, and longer than a walk uses.

use crate::batch::Batch;
use crate::models::{eight_switches, free, lane, nine_switches, nothing};
use crate::row_lists::four_rows;
use crate::rows::{dark, position};
use crate::showing::{headline, show};
use model::row::Row;

pub(crate) fn show_all(rt: &(impl Print + AllocGlobal)) -> anyhow::Result<()> {
    headline(
        rt,
        "16: a state must be listed, and the work list has no place left",
    )?;
    show_lane(rt)?;
    show_free(rt)?;
    headline(
        rt,
        "16: no place for the first state, even where it contains the goal, but not where it is dead",
    )?;
    show_no_place(rt)?;
    show_no_variables(rt)?;
    headline(rt, "At most 256 places are used")?;
    show_nine(rt)?;
    show_eight(rt)?;
    show_eight_anew(rt)
}

/// A walk that is refused adds no row to the book.
fn show_lane(rt: &(impl Print + AllocGlobal)) -> anyhow::Result<()> {
    let mut batch = Batch::new(rt.alloc());
    batch.probe(position(0, 0), 1, 4)?;
    batch.probe(position(0, 0), 7, 4)?;
    batch.judge(position(0, 0))?;
    batch.write(1)?;
    batch.probe(position(0, 0), 8, 4)?;
    batch.judge(position(0, 0))?;
    show(rt, "lane", lane(rt.alloc())?, batch)
}

/// The state that contains the goal takes no place, unless the walk begins there.
fn show_free(rt: &(impl Print + AllocGlobal)) -> anyhow::Result<()> {
    let mut batch = Batch::new(rt.alloc());
    batch.probe(position(0, 0), 7, 4)?;
    batch.probe(position(0, 0), 8, 4)?;
    batch.probe(position(0, 2), 1, 4)?;
    batch.probe(position(0, 2), 2, 4)?;
    batch.probe(position(1, 2), 1, 4)?;
    show(rt, "free", free(rt.alloc())?, batch)
}

/// The first state takes a place even where it contains the goal; none is taken where the book calls it dead.
fn show_no_place(rt: &(impl Print + AllocGlobal)) -> anyhow::Result<()> {
    let mut batch = Batch::new(rt.alloc());
    batch.probe(position(2, 2), 0, 4)?;
    batch.probe(position(2, 2), 1, 4)?;
    batch.probe(position(0, 0), 0, 4)?;
    batch.offer(&four_rows())?;
    batch.probe(position(0, 0), 0, 4)?;
    batch.probe(position(2, 2), 0, 4)?;
    show(rt, "lane", lane(rt.alloc())?, batch)
}

/// The same, where the first state is the only one.
fn show_no_variables(rt: &(impl Print + AllocGlobal)) -> anyhow::Result<()> {
    let mut batch = Batch::new(rt.alloc());
    batch.probe(Row::open(), 0, 4)?;
    batch.probe(Row::open(), 1, 4)?;
    show(rt, "no variables", nothing(rt.alloc())?, batch)
}

/// There are more states than places that are used.
fn show_nine(rt: &(impl Print + AllocGlobal)) -> anyhow::Result<()> {
    let mut batch = Batch::new(rt.alloc());
    batch.probe(dark(9, 0), 256, 4)?;
    batch.probe(dark(9, 0), 257, 4)?;
    batch.probe(dark(9, 0), 600, 4)?;
    batch.judge(dark(9, 0))?;
    show(rt, "nine switches", nine_switches(rt.alloc())?, batch)
}

/// There are just as many.
fn show_eight(rt: &(impl Print + AllocGlobal)) -> anyhow::Result<()> {
    let mut batch = Batch::new(rt.alloc());
    batch.probe(dark(8, 0), 255, 4)?;
    batch.probe(dark(8, 0), 256, 4)?;
    batch.probe(dark(8, 0), 300, 4)?;
    batch.write(5)?;
    show(rt, "eight switches", eight_switches(rt.alloc())?, batch)
}

/// On a new book, with more places.
fn show_eight_anew(rt: &(impl Print + AllocGlobal)) -> anyhow::Result<()> {
    let mut batch = Batch::new(rt.alloc());
    batch.probe(dark(8, 0), 300, 4)?;
    show(rt, "eight switches", eight_switches(rt.alloc())?, batch)
}
