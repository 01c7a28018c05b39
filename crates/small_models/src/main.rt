//! Runs orders with short buffers on books over small models, by the library's call, and prints what each order was answered and what it left in its work
//! list and its buffer.
#![tactic(auto)]

mod batch;
mod before;
mod lines;
mod models;
mod parts;
mod row_lists;
mod rows;
mod showing;
mod sketch;

fn main(rt: HostRuntime) -> anyhow::Result<()> {
    parts::show_all(&rt)
}
