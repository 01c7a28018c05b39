//! Lists that are too long, and lists that are just not.

use crate::batch::Batch;
use crate::models::lane;
use crate::row_lists::{all_but, over_and_over};
use crate::rows::{at_lane, row_of};
use crate::showing::{headline, show};

pub(crate) fn show_all(rt: &(impl Print + AllocGlobal)) -> anyhow::Result<()> {
    headline(
        rt,
        "4: a list of 257 rows, whatever they are; 256 rows are asked further",
    )?;
    show_offered(rt)?;
    show_settled(rt)
}

/// That a list is too long is told before anything is asked of its rows.
fn show_offered(rt: &(impl Print + AllocGlobal)) -> anyhow::Result<()> {
    let heap = rt.alloc();
    let wrong = row_of(&[(2, 0)]);
    let mut batch = Batch::new(heap);
    batch.offer(over_and_over(heap, 257)?.as_slice())?;
    batch.offer(all_but(heap, 257, 0, wrong)?.as_slice())?;
    batch.offer(all_but(heap, 256, 0, wrong)?.as_slice())?;
    batch.offer(all_but(heap, 256, 255, at_lane(3))?.as_slice())?;
    batch.offer(over_and_over(heap, 256)?.as_slice())?;
    show(rt, "lane", lane(heap)?, batch)
}

/// The same lists are settled.
fn show_settled(rt: &(impl Print + AllocGlobal)) -> anyhow::Result<()> {
    let heap = rt.alloc();
    let wrong = row_of(&[(2, 0)]);
    let mut batch = Batch::new(heap);
    batch.settle(over_and_over(heap, 257)?.as_slice())?;
    batch.settle(all_but(heap, 257, 0, wrong)?.as_slice())?;
    batch.settle(all_but(heap, 256, 0, wrong)?.as_slice())?;
    batch.settle(all_but(heap, 256, 255, at_lane(3))?.as_slice())?;
    batch.settle(over_and_over(heap, 256)?.as_slice())?;
    show(rt, "lane", lane(heap)?, batch)
}
