//! What came of a run, in the lines of a row.
use std::alloc::{AllocError, Global};
use swd_host::{End, Report};
use swd_port::{Answer, Transfer};
use swd_trace::Item;

/// Adds as many of the last items as a part of a row tells, and what a report says.
pub fn put_part(
    alloc: Global,
    text: &mut String,
    part: &str,
    items: &[Item],
    report: &Report,
) -> Result<(), AllocError> {
    let told = part.lines().filter(|line| line.starts_with("> ")).count();
    for item in items.iter().skip(items.len().saturating_sub(told)) {
        text.push_str(format!(in alloc; "> {item}\n")?.as_str())?;
    }
    for answer in report.answers.iter() {
        text.push_str(answer_shown(alloc, *answer)?.as_str())?;
    }
    if report.begun > 0 {
        text.push_str(format!(in alloc; "begun {}\n", report.begun)?.as_str())?;
    }
    let ended = format!(in alloc; "end {} {}\n", end_shown(report.ended), report.requests)?;
    text.push_str(ended.as_str())
}

/// Adds what a memory logged.
pub fn put_log(alloc: Global, text: &mut String, log: &[Transfer]) -> Result<(), AllocError> {
    for transfer in log {
        let how = if transfer.read { "r" } else { "w" };
        let line = format!(in alloc; "log {how} {:08x} {:08x}\n", transfer.addr, transfer.word)?;
        text.push_str(line.as_str())?;
    }
    Ok(())
}

fn answer_shown(alloc: Global, answer: Answer) -> Result<String, AllocError> {
    match answer {
        Answer::Value(word) => format!(in alloc; "= {word:08x}\n"),
        Answer::Written => format!(in alloc; "= written\n"),
        Answer::BusFault => format!(in alloc; "= busfault\n"),
    }
}

fn end_shown(end: End) -> &'static str {
    match end {
        End::All => "all",
        End::Lost => "lost",
        End::TriesOut => "tries",
        End::WrongId(_) => "id",
        End::Confused => "confused",
    }
}
