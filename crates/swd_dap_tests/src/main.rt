//! Runs each row of `transport.txt`, `probe.txt` and `reports.txt`. Prints the name of a row that doesn't come out, and
//! the place where something else came; and last whether each came out.
#![tactic(auto)]

mod answers;
mod exchange;
mod probe;
mod reports;
mod row;
mod target_line;
mod text_line;
mod transport;

use crate::row::{Wrong, unknown};
use std::alloc::Global;
use std::fs;
use std::process::ExitCode;

// Whose rows a file has.
#[derive(Clone, Copy)]
enum Of {
    Transport,
    Probe,
    Reports,
}

// The numbers of rows, and of those that didn't come out.
#[derive(Clone, Copy, Default)]
struct Count {
    rows: u32,
    wrong: u32,
}

fn came<'t>(alloc: Global, of: Of, lines: &'t str) -> Result<(), Wrong<'t>> {
    if let Some(line) = unknown(lines) {
        return Err(Wrong::Here(line));
    }
    match of {
        Of::Transport => transport::come(alloc, lines),
        Of::Probe => probe::come(alloc, lines),
        Of::Reports => reports::come(alloc, lines),
    }
}

// Runs the paragraphs of a file that are rows.
fn tried(rt: HostRuntime, file: &str, of: Of, count: Count) -> anyhow::Result<Count> {
    let text = fs::read_to_string(&rt, file)?;
    let Count {
        mut rows,
        mut wrong,
    } = count;
    for row in text
        .as_str()
        .split("\n\n")
        .filter(|it| !it.starts_with("#"))
    {
        rows = rows.saturating_add(1);
        let (name, lines) = row.split_once("\n").unwrap_or((row, ""));
        if let Err(fault) = came(rt.alloc(), of, lines) {
            wrong = wrong.saturating_add(1);
            println!(rt; "{file}: {name}\n{}", fault.told())?;
        }
    }
    Ok(Count { rows, wrong })
}

fn main(rt: HostRuntime) -> anyhow::Result<ExitCode> {
    let count = tried(rt, "transport.txt", Of::Transport, Count::default())?;
    let count = tried(rt, "probe.txt", Of::Probe, count)?;
    let count = tried(rt, "reports.txt", Of::Reports, count)?;
    if count.rows == 0 || count.wrong > 0 {
        println!(rt; "{} rows, {} wrong", count.rows, count.wrong)?;
        return Ok(ExitCode::FAILURE);
    }
    println!(rt; "each row comes out as it says")?;
    Ok(ExitCode::SUCCESS)
}
