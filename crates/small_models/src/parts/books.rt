//! Several orders on one book, and books over other detectors.

use crate::batch::Batch;
use crate::models::{key, lane, lane_over, nothing};
use crate::row_lists::four_rows;
use crate::rows::{at_dock, at_lane, gate_and_key, position, row_of};
use crate::showing::{headline, show};
use book::book::Book;
use model::row::Row;

pub(crate) fn show_all(rt: &(impl Print + AllocGlobal)) -> anyhow::Result<()> {
    headline(rt, "Dead stays dead")?;
    show_learned(rt)?;
    show_key(rt)?;
    headline(rt, "Nothing is asked, or nothing can be")?;
    show(rt, "lane", lane(rt.alloc())?, Batch::new(rt.alloc()))?;
    show_nothing(rt)?;
    headline(rt, "Other detectors: relaxed, a pattern, a book")?;
    show_relaxed(rt)?;
    show_pattern(rt)?;
    show_book(rt)
}

/// What a probe has learned is told of every later row, whatever is refused in between.
fn show_learned(rt: &(impl Print + AllocGlobal)) -> anyhow::Result<()> {
    let mut batch = Batch::new(rt.alloc());
    batch.judge(position(0, 0))?;
    batch.judge(at_lane(0))?;
    batch.probe(position(0, 0), 8, 0)?;
    batch.judge(position(0, 0))?;
    batch.judge(at_lane(0))?;
    batch.judge(at_lane(2))?;
    batch.probe(position(0, 0), 8, 0)?;
    batch.probe(position(2, 1), 8, 0)?;
    batch.probe(position(2, 2), 8, 0)?;
    batch.offer(&[at_lane(2)])?;
    batch.offer(&[at_dock(1), at_lane(0)])?;
    batch.settle(&[at_lane(2), at_dock(1), position(0, 0)])?;
    batch.judge(position(0, 0))?;
    batch.judge(position(0, 1))?;
    batch.write(40)?;
    show(rt, "lane", lane(rt.alloc())?, batch)
}

/// What is learned of the key is learned of both variables.
fn show_key(rt: &(impl Print + AllocGlobal)) -> anyhow::Result<()> {
    let mut batch = Batch::new(rt.alloc());
    batch.probe(gate_and_key(0, 0), 1, 1)?;
    batch.judge(gate_and_key(0, 0))?;
    batch.judge(row_of(&[(0, 0)]))?;
    batch.probe(gate_and_key(0, 1), 1, 1)?;
    batch.write(7)?;
    batch.write(9)?;
    show(rt, "key", key(rt.alloc())?, batch)
}

/// Without variables there is one state, and it contains the goal.
fn show_nothing(rt: &(impl Print + AllocGlobal)) -> anyhow::Result<()> {
    let mut batch = Batch::new(rt.alloc());
    batch.judge(Row::open())?;
    batch.judge(at_lane(0))?;
    batch.offer(&[])?;
    batch.offer(&[Row::open()])?;
    batch.settle(&[])?;
    batch.settle(&[Row::open()])?;
    batch.probe(Row::open(), 2, 2)?;
    batch.probe(at_lane(0), 2, 2)?;
    batch.write(2)?;
    show(rt, "no variables", nothing(rt.alloc())?, batch)
}

/// It calls no state of the lane model dead.
fn show_relaxed(rt: &(impl Print + AllocGlobal)) -> anyhow::Result<()> {
    let relaxed = lane_over(rt.alloc(), 1, [255; 3])?;
    let mut batch = Batch::new(rt.alloc());
    batch.judge(position(0, 0))?;
    batch.probe(position(0, 0), 8, 0)?;
    show(rt, "lane, relaxed", relaxed, batch)
}

/// Over both variables it calls dead what is.
fn show_pattern(rt: &(impl Print + AllocGlobal)) -> anyhow::Result<()> {
    let pattern = lane_over(rt.alloc(), 2, [0, 1, 255])?;
    let mut batch = Batch::new(rt.alloc());
    batch.judge(position(0, 0))?;
    batch.judge(at_lane(3))?;
    batch.probe(position(0, 0), 8, 2)?;
    batch.probe(at_lane(0), 8, 2)?;
    batch.offer(&[position(0, 0)])?;
    batch.settle(&[position(2, 1)])?;
    batch.write(16)?;
    show(rt, "lane, pattern", pattern, batch)
}

/// A book is a detector again. This one lies over a book that has the four rows, and has none of its own at first.
fn show_book(rt: &(impl Print + AllocGlobal)) -> anyhow::Result<()> {
    let mut below = Book::open(rt.alloc(), lane(rt.alloc())?)?;
    let _added = below.offer(&four_rows());
    let mut batch = Batch::new(rt.alloc());
    batch.judge(at_lane(0))?;
    batch.probe(position(0, 0), 0, 0)?;
    batch.settle(&[at_lane(0)])?;
    batch.write(5)?;
    show(rt, "lane, book", below, batch)
}
