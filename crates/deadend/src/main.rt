//! Reads a sheet from standard input, and prints what comes of it.
#![tactic(auto)]

use desk::carrying::carry_out;
use std::io::{BufWriter, Read, Write};
use std::process::ExitCode;

/// One byte more than a sheet may have, so that a longer one is told. No more is read.
const MOST: u64 = 65_537;

fn run(rt: &HostRuntime) -> anyhow::Result<()> {
    let mut sheet = Vec::new(rt.alloc());
    rt.stdin().take(MOST).read_to_end(&mut sheet)?;
    let mut out = BufWriter::new(rt.alloc(), rt.stdout())?;
    carry_out(rt.alloc(), sheet.as_slice(), &mut out)?;
    out.flush()?;
    Ok(())
}

fn main(rt: HostRuntime) -> ExitCode {
    match run(&rt) {
        Ok(()) => ExitCode::SUCCESS,
        Err(error) => {
            // Where even this cannot be written, the status is all that tells.
            let _ = eprintln!(rt; "deadend: {error}");
            ExitCode::FAILURE
        }
    }
}
