//! Offers that break a rule, and books that are full.

use crate::batch::Batch;
use crate::models::{key, lane, nine_switches};
use crate::row_lists::first_switch_on;
use crate::rows::{at_dock, at_lane, dark, gate_and_key, position, row_of};
use crate::showing::{headline, show};
use model::row::Row;

pub(crate) fn show_all(rt: &(impl Print + AllocGlobal)) -> anyhow::Result<()> {
    headline(
        rt,
        "12, 13: a row that does not disagree with the goal, a row from which a move leads out of the set",
    )?;
    show_lane(rt)?;
    show_key(rt)?;
    headline(rt, "14: a book of 256 rows is full")?;
    show_full(rt)
}

/// 12 is looked for in the whole list before 13. A settle leaves out what an offer is refused for.
fn show_lane(rt: &(impl Print + AllocGlobal)) -> anyhow::Result<()> {
    let mut batch = Batch::new(rt.alloc());
    batch.offer(&[at_lane(2)])?;
    batch.offer(&[Row::open()])?;
    batch.offer(&[at_lane(0), at_lane(2)])?;
    batch.offer(&[at_lane(0), at_lane(1)])?;
    batch.offer(&[position(0, 0)])?;
    batch.settle(&[at_lane(0), at_lane(1), at_lane(2)])?;
    batch.settle(&[
        at_lane(0),
        at_lane(1),
        at_lane(2),
        at_dock(0),
        at_dock(1),
        at_dock(2),
    ])?;
    batch.offer(&[at_dock(1), position(0, 0)])?;
    batch.offer(&[at_lane(2)])?;
    batch.write(17)?;
    show(rt, "lane", lane(rt.alloc())?, batch)
}

/// The move may be made from a row that leaves the key open.
fn show_key(rt: &(impl Print + AllocGlobal)) -> anyhow::Result<()> {
    let mut batch = Batch::new(rt.alloc());
    batch.offer(&[row_of(&[(0, 0)])])?;
    batch.offer(&[gate_and_key(0, 0), gate_and_key(0, 0)])?;
    batch.judge(row_of(&[(0, 0)]))?;
    batch.judge(gate_and_key(0, 0))?;
    show(rt, "key", key(rt.alloc())?, batch)
}

/// What a probe would learn does not fit either. 12 and 13 come before, and what the book has already takes no room.
fn show_full(rt: &(impl Print + AllocGlobal)) -> anyhow::Result<()> {
    let held = first_switch_on(rt.alloc())?;
    let lamp_off = row_of(&[(0, 0)]);
    let lamp_on = row_of(&[(0, 1)]);
    let mut batch = Batch::new(rt.alloc());
    batch.offer(held.as_slice())?;
    batch.offer(&[lamp_off])?;
    batch.settle(&[lamp_off])?;
    batch.probe(dark(9, 0), 300, 2)?;
    batch.judge(dark(9, 0))?;
    batch.judge(dark(9, 1))?;
    batch.offer(held.as_slice())?;
    batch.settle(held.as_slice())?;
    batch.offer(&[lamp_off, lamp_on])?;
    batch.offer(&[dark(9, 0)])?;
    batch.write(7936)?;
    show(rt, "nine switches", nine_switches(rt.alloc())?, batch)
}
