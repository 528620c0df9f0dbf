//! A row of `rows.txt`, and what a run is made of.
ghost use Rattle.std.specs.Prelude.{IfOk};
ghost use Rattle.swd_target.specs.Marks.{IsLegalPlan};

use std::alloc::{AllocError, AllocFailed, Global};
use swd_host::{Bursts, Refused};
use swd_port::Access;
use swd_simulated::are_legal;
use swd_target::{MakeFault, Mark};
use thiserror::Error;

/// The reason why a row isn't run.
#[derive(Clone, Copy, Debug, PartialEq, Eq, Error)]
pub enum Fault {
    /// Out of memory.
    #[error("out of memory")]
    Memory,
    /// The list was refused.
    #[error(transparent)]
    Refused(#[from] Refused),
    /// This is no line of a row.
    #[error("a row has a wrong line: {0}")]
    Line(&'static str),
    /// There is no such memory.
    #[error(transparent)]
    Make(#[from] MakeFault),
    /// A target isn't at rest, or has no such block.
    #[error("a target isn't at rest, or has no such block")]
    Target,
}

impl From<AllocError> for Fault {
    fn from(_error: AllocError) -> Fault {
        Fault::Memory
    }
}

impl<T: Drop> From<AllocFailed<T>> for Fault {
    fn from(_error: AllocFailed<T>) -> Fault {
        Fault::Memory
    }
}

/// A row: its name, its other lines, and what they say of the run.
#[derive(Clone, Copy)]
pub struct Row<'t> {
    pub name: &'t str,
    pub lines: &'t str,
    /// Whether it holds only over a target with late transfers.
    pub is_late: bool,
    /// What is performed in bursts.
    pub bursts: Bursts,
    /// The number of the memory's words, and of the transfers that its log has room for.
    pub memory: (u32, u32),
    pub tries: u32,
    /// The address and the number of words of a block.
    pub block: Option<(u32, u32)>,
}

impl<'t> Row<'t> {
    /// Reads a paragraph.
    pub fn of(text: &'t str) -> Result<Row<'t>, Fault> {
        let (name, lines) = text.split_once("\n").ok_or(Fault::Line("no end"))?;
        Ok(Row {
            name,
            lines,
            is_late: lines.lines().any(|line| line == "late"),
            bursts: bursts_of(lines)?,
            memory: memory_of(lines)?,
            tries: tries_of(lines)?,
            block: block_of(lines)?,
        })
    }
}

// The rest of the first line that begins with these words.
fn said<'t>(lines: &'t str, words: &str) -> Option<&'t str> {
    for line in lines.lines() {
        if let Some(rest) = line.strip_prefix(words) {
            return Some(rest);
        }
    }
    None
}

fn bursts_of(lines: &str) -> Result<Bursts, Fault> {
    match said(lines, "bursts ") {
        None | Some("writes") => Ok(Bursts::Writes),
        Some("reads") => Ok(Bursts::Reads),
        Some("never") => Ok(Bursts::Never),
        Some(_) => Err(Fault::Line("bursts")),
    }
}

fn tries_of(lines: &str) -> Result<u32, Fault> {
    match said(lines, "tries ") {
        None => Ok(8),
        Some(text) => number(text),
    }
}

fn memory_of(lines: &str) -> Result<(u32, u32), Fault> {
    let Some(text) = said(lines, "memory ") else {
        return Ok((16, 16));
    };
    let (words, room) = text.split_once(" ").ok_or(Fault::Line("memory"))?;
    Ok((number(words)?, number(room)?))
}

fn block_of(lines: &str) -> Result<Option<(u32, u32)>, Fault> {
    let Some(text) = said(lines, "block ") else {
        return Ok(None);
    };
    let (addr, count) = text.split_once(" ").ok_or(Fault::Line("block"))?;
    Ok(Some((word(addr)?, number(count)?)))
}

/// A decimal number.
pub fn number(text: &str) -> Result<u32, Fault> {
    text.parse::<u32>().or(Err(Fault::Line("a number")))
}

// A word or an address.
fn word(text: &str) -> Result<u32, Fault> {
    u32::from_str_radix(text, 16).or(Err(Fault::Line("a word")))
}

// A mark as a plan has it.
fn mark_of(text: &str) -> Option<Mark> {
    if let Some(place) = text.strip_prefix("flip ") {
        return Some(Mark::Flip(place.parse::<u8>().ok()?));
    }
    if let Some(place) = text.strip_prefix("mute ") {
        return Some(Mark::Mute(place.parse::<u8>().ok()?));
    }
    match text {
        "wait" => Some(Mark::Wait),
        "deaf" => Some(Mark::Deaf),
        _ => None,
    }
}

/// The plan of a row. Its marks stand in the order of their requests.
pub fn plan_of(alloc: Global, row: &Row) -> Result<Vec<Mark>, Fault>
    ensures { IfOk result (λ plan. IsLegalPlan plan.items) }
{
    let mut plan = Vec::new(alloc);
    for line in row.lines.lines() {
        if let Some(text) = line.strip_prefix("mark ") {
            put_mark(&mut plan, text)?;
        }
    }
    if are_legal(&plan) {
        Ok(plan)
    } else {
        Err(Fault::Line("a mark isn't legal"))
    }
}

fn put_mark(plan: &mut Vec<Mark>, text: &str) -> Result<(), Fault> {
    let (place, mark) = text.split_once(" ").ok_or(Fault::Line("mark"))?;
    let place = number(place)? as usize;
    let mark = mark_of(mark).ok_or(Fault::Line("mark"))?;
    for _ in plan.len().saturating_add(1)..place {
        plan.push(Mark::Clean)?;
    }
    if plan.len().saturating_add(1) != place {
        return Err(Fault::Line("the marks aren't in order"));
    }
    plan.push(mark)?;
    Ok(())
}

/// The accesses of a row.
pub fn accesses_of(alloc: Global, row: &Row) -> Result<Vec<Access>, Fault> {
    let mut accesses = Vec::new(alloc);
    for line in row.lines.lines() {
        if let Some(addr) = line.strip_prefix("r ") {
            accesses.push(Access::Read(word(addr)?))?;
        }
        if let Some(text) = line.strip_prefix("w ") {
            let (addr, written) = text.split_once(" ").ok_or(Fault::Line("w"))?;
            accesses.push(Access::Write(word(addr)?, word(written)?))?;
        }
    }
    Ok(accesses)
}
