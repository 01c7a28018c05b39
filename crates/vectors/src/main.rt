//! Runs the sheets that a table names, and compares what is printed of each with what must be.
#![tactic(auto)]

use desk::carrying::carry_out;
use std::fs;

/// Whether what is printed of a sheet is what stands beside it.
fn agrees(rt: &HostRuntime, name: &str) -> anyhow::Result<bool> {
    let heap = rt.alloc();
    let sheet = fs::read(rt, format!(in heap; "{name}.sheet")?)?;
    let expected = fs::read(rt, format!(in heap; "{name}.out")?)?;
    let mut printed = Vec::new(heap);
    carry_out(heap, sheet.as_slice(), &mut printed)?;
    Ok(printed.as_slice() == expected.as_slice())
}

fn run(rt: &HostRuntime) -> anyhow::Result<()> {
    let table = fs::read_to_string(rt, "table.txt")?;
    let mut differing: usize = 0;
    for name in table.lines() {
        if !agrees(rt, name)? {
            println!(rt; "{name} differs")?;
            differing = differing.saturating_add(1);
        }
    }
    let sheets = table.lines().count();
    println!(rt; "{sheets} sheets, {differing} differ")?;
    Ok(())
}

fn main(rt: HostRuntime) -> anyhow::Result<()> {
    run(&rt)
}
