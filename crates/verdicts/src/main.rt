//! Opens the sheets that a table names, and prints what the detector of each says of its model's start. How long the opening took, in
//! which the detector is made, and how long the verdict, is told on standard error.
#![tactic(auto)]

use anyhow::anyhow;
use desk::opening::{Opening, open_sheet};
use detector::Detector;
use detector::asking::calls_dead;
use detectors::shipped::Shipped;
use std::fs;
use std::time::Instant;

/// The detector of a sheet.
fn read_detector(rt: &HostRuntime, name: &str) -> anyhow::Result<Shipped> {
    let heap = rt.alloc();
    let sheet = fs::read(rt, format!(in heap; "{name}.sheet")?)?;
    match open_sheet(heap, sheet.as_slice())? {
        Opening::Orders { detector, .. } => Ok(detector),
        _ => Err(anyhow!("{name} has no detector")),
    }
}

/// Prints what the detector of a sheet says of the start.
fn tell_verdict(rt: &HostRuntime, name: &str) -> anyhow::Result<()> {
    let begun = Instant::now(rt)?;
    let detector = read_detector(rt, name)?;
    let opening = begun.elapsed(rt)?.as_micros();
    let begun = Instant::now(rt)?;
    let verdict = if calls_dead(&detector, detector.model().start()) {
        "dead"
    } else {
        "silent"
    };
    let took = begun.elapsed(rt)?.as_nanos();
    println!(rt; "{name} {verdict}")?;
    eprintln!(rt; "{name} opened in {opening} us, verdict in {took} ns")?;
    Ok(())
}

fn run(rt: &HostRuntime) -> anyhow::Result<()> {
    let table = fs::read_to_string(rt, "table.txt")?;
    for name in table.lines() {
        tell_verdict(rt, name)?;
    }
    Ok(())
}

fn main(rt: HostRuntime) -> anyhow::Result<()> {
    run(&rt)
}
