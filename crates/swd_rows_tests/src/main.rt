//! Runs each row of `rows.txt` over both simulated targets, with each choice of their quirks. Prints what came of a row
//! where that isn't what it says, and last whether each came out.
#![tactic(auto)]

mod came;
mod row;
mod shown;
mod wanted;

use crate::came::came;
use crate::row::{Fault, Row};
use std::alloc::Global;
use std::fs;
use std::process::ExitCode;
use swd_clocked::ClockedBench;
use swd_simulated::{ALL_QUIRKS, Simulated};
use swd_target::{Bench, Memory, Quirks};

// The numbers of runs, and of those that came to something else than their row says.
#[derive(Clone, Copy, Default)]
struct Count {
    runs: u32,
    wrong: u32,
}

// Runs a row over one target. Returns what came of it if that isn't what the row says.
fn differs<S: Simulated + Drop>(
    alloc: Global,
    row: &Row,
    quirks: Quirks,
) -> Result<Option<String>, Fault> {
    let text = came::<S>(alloc, row, quirks)?;
    if wanted::agrees(row.lines, text.as_str()) {
        return Ok(None);
    }
    Ok(Some(text))
}

fn tell(
    rt: HostRuntime,
    row: &Row,
    count: Count,
    different: Option<String>,
) -> anyhow::Result<Count> {
    let runs = count.runs.saturating_add(1);
    let Some(text) = different else {
        return Ok(Count { runs, ..count });
    };
    println!(rt; "{}\n{text}", row.name)?;
    let wrong = count.wrong.saturating_add(1);
    Ok(Count { runs, wrong })
}

fn tried(rt: HostRuntime, text: &str, quirks: Quirks, count: Count) -> anyhow::Result<Count> {
    let row = Row::of(text)?;
    if row.is_late && !quirks.late {
        return Ok(count);
    }
    let different = differs::<Bench<Memory>>(rt.alloc(), &row, quirks)?;
    let count = tell(rt, &row, count, different)?;
    let different = differs::<ClockedBench<Memory>>(rt.alloc(), &row, quirks)?;
    tell(rt, &row, count, different)
}

fn main(rt: HostRuntime) -> anyhow::Result<ExitCode> {
    let text = fs::read_to_string(&rt, "rows.txt")?;
    let mut count = Count::default();
    for row in text
        .as_str()
        .split("\n\n")
        .filter(|it| !it.starts_with("#"))
    {
        for quirks in ALL_QUIRKS {
            count = tried(rt, row, *quirks, count)?;
        }
    }
    if count.runs == 0 || count.wrong > 0 {
        println!(rt; "{} runs, {} wrong", count.runs, count.wrong)?;
        return Ok(ExitCode::FAILURE);
    }
    println!(rt; "each row comes out as it says")?;
    Ok(ExitCode::SUCCESS)
}
