//! A server in memory: what a host writes moves the pins of a simulated target, and what it asks for can
//! be read.
ghost use Rattle.std.specs.Prelude.{◌≤◌, IfOk, IsTrue, []};
ghost use Rattle.swd_port.specs.PlainBus.{bus_of};
ghost use Rattle.swd_port.specs.Made.{port_made};
ghost use Rattle.std.specs.FinMap.{empty};
ghost use Rattle.swd_target.specs.Marks.{IsLegalPlan};

use super::expect::expect_eq;
use std::alloc::Global;
use std::cell::RefCell;
use std::io;
use std::io::{ErrorKind, Read, Write};
use std::process::Abort;
use std::test::Fail;
use swd_bitbang::{PinReply, Pins, Trace};
use swd_clocked::{ClockedBench, FaultyClocked};
use swd_ends::ClockedProbe;
use swd_host::{Report, run, run_block, run_over_transport};
use swd_port::{Access, Due, Mark, Story, Transfer, Transport, TransportWire, Wire};
use swd_remote::{Fault, Line, Probe, ProbeTransport, Remote, RemoteStreams, run_over_line};
use swd_target::{Memory, Quirks};

pub(super) const BASE: u32 = 0x2000_0000;

const QUIRKS: Quirks = Quirks {
    wrap: true,
    late: false,
    filler: 0,
    idr: None,
};

/// Any story.
pub(super) struct Untold;

impl Story for Untold {
    ghost at = { λ _. port_made 0 (bus_of (record { words = empty; log = []; room = 0 })) };
}

/// What happens to the line.
#[derive(Clone, Copy)]
pub(super) enum Cut {
    /// Nothing.
    Never,
    /// It ends once so many levels were read.
    Ends(usize),
    /// This byte stands in place of the level after so many.
    Says(usize, u8),
    /// The reader fails there.
    Unread(usize),
    /// The writer fails after so many characters.
    Unsent(usize),
    /// It takes no bytes after so many.
    Full(usize),
}

/// The pins behind the line, and what went over it.
#[derive(Drop)]
pub(super) struct Server {
    pins: Pins<Memory>,
    levels: Vec<u8>,
    read: usize,
    pub(super) taken: usize,
    pub(super) writes: usize,
    pub(super) calls_after: usize,
    cut: Cut,
    failed: bool,
    // How many bytes go by at once, at most.
    piece: usize,
}

/// The host's end of the line.
#[derive(Clone, Copy, Drop)]
pub(super) struct End<'a> {
    pub(super) server: &'a RefCell<Server>,
}

fn broken() -> io::Error {
    io::Error::from(ErrorKind::BrokenPipe)
}

// A count of bytes that is no more than there are.
fn at_most(gone: io::Result<usize>, room: usize) -> io::Result<usize>
    ensures { IfOk result (λ n. n ≤ room) }
{
    match gone {
        Ok(n) => Ok(n.min(room)),
        Err(error) => Err(error),
    }
}

impl Server {
    fn takes(&mut self, byte: u8) -> io::Result<()> {
        self.taken = self.taken.saturating_add(1);
        match self.pins.take(byte) {
            PinReply::Level(level) => self.levels.push(if level { b'1' } else { b'0' })?,
            PinReply::Bad => return Err(broken()),
            PinReply::Silent | PinReply::Quit => {}
        }
        Ok(())
    }

    // How many of so many bytes go by before the line is cut.
    fn before(&self, gone: usize, at: usize, wanted: usize) -> usize {
        at.saturating_sub(gone).min(wanted)
    }

    fn fails(&mut self) -> io::Result<usize> {
        self.failed = true;
        match self.cut {
            Cut::Ends(_) | Cut::Full(_) => Ok(0),
            _ => Err(broken()),
        }
    }

    fn writes(&mut self, buf: &[u8]) -> io::Result<usize> {
        if self.failed {
            self.calls_after = self.calls_after.saturating_add(1);
        }
        self.writes = self.writes.saturating_add(1);
        let wanted = buf.len().min(self.piece);
        let goes = match self.cut {
            Cut::Unsent(at) | Cut::Full(at) => self.before(self.taken, at, wanted),
            _ => wanted,
        };
        if goes == 0 {
            return self.fails();
        }
        for byte in buf.iter().take(goes) {
            self.takes(*byte)?;
        }
        Ok(goes)
    }

    fn reads(&mut self, buf: &mut [u8]) -> io::Result<usize> {
        if self.failed {
            self.calls_after = self.calls_after.saturating_add(1);
        }
        let mut goes = 0usize;
        for place in buf.iter_mut() {
            let Some(level) = self.levels.get(self.read) else {
                break;
            };
            match self.cut {
                Cut::Ends(at) | Cut::Unread(at) if at == self.read => break,
                Cut::Says(at, byte) if at == self.read => {
                    *place = byte;
                    self.failed = true;
                }
                _ => *place = *level,
            }
            self.read = self.read.saturating_add(1);
            goes = goes.saturating_add(1);
            if goes == self.piece {
                break;
            }
        }
        if goes == 0 { self.fails() } else { Ok(goes) }
    }
}

impl Write for End<'_> {
    fn write(&mut self, buf: &[u8]) -> io::Result<usize> {
        match self.server.try_borrow_mut() {
            Ok(mut server) => at_most(server.writes(buf), buf.len()),
            Err(_) => Err(broken()),
        }
    }

    fn flush(&mut self) -> io::Result<()> {
        Ok(())
    }
}

impl Read for End<'_> {
    fn read(&mut self, buf: &mut [u8]) -> io::Result<usize> {
        let room = buf.len();
        match self.server.try_borrow_mut() {
            Ok(mut server) => at_most(server.reads(buf), room),
            Err(_) => Err(broken()),
        }
    }
}

/// What a host does: the accesses, or a block of so many words, and the marks that its requests meet.
#[derive(Clone, Copy)]
pub(super) struct Task<'a> {
    pub(super) accesses: &'a [Access],
    pub(super) block: Option<u32>,
    pub(super) marks: &'a [(usize, Mark)],
}

/// Accesses that nothing disturbs.
pub(super) fn plain(accesses: &[Access]) -> Task<'_> {
    Task {
        accesses,
        block: None,
        marks: &[],
    }
}

// Each mark is legal.
fn are_legal(marks: &[Mark]) -> bool
    ensures { IsTrue result → IsLegalPlan marks.now }
{
    marks.iter().all(|mark| mark.legal())
}

// The plan with these marks, each by the number of its request from 1.
fn plan_of(alloc: Global, marks: &[(usize, Mark)]) -> Result<Vec<Mark>, Fail> {
    let mut plan = Vec::new(alloc);
    for place in 1..=60usize {
        let named = marks.iter().find(|(at, _)| *at == place);
        plan.push(named.map_or(Mark::Clean, |(_, mark)| *mark))?;
    }
    Ok(plan)
}

fn target_of(alloc: Global, task: &Task) -> Result<FaultyClocked<Memory>, Fail> {
    let memory = Memory::new(alloc, BASE, 16, 64)?;
    let plan = plan_of(alloc, task.marks)?;
    if !are_legal(&plan) {
        return Err(Fail::from("a mark is not legal"));
    }
    Ok(FaultyClocked::new(memory, QUIRKS, plan))
}

/// A server at a new target.
pub(super) fn server_of(
    alloc: Global,
    task: &Task,
    cut: Cut,
    piece: usize,
) -> Result<RefCell<Server>, Fail> {
    let target = target_of(alloc, task)?;
    Ok(RefCell::new(Server {
        pins: Pins::new(target, Trace::none(alloc)),
        levels: Vec::new(alloc),
        read: 0,
        taken: 0,
        writes: 0,
        calls_after: 0,
        cut,
        failed: false,
        piece,
    }))
}

// A task over a wire at which nothing is due.
fn report_of<W: Wire>(alloc: Global, wire: &mut W, task: &Task) -> Result<Report, Fail> {
    match wire.due() {
        Due::Nothing => {}
        _ => return Err(Fail::from("the wire isn't new")),
    }
    match task.block {
        Some(count) if count <= 64 => Ok(run_block(alloc, wire, BASE, count, 8)?),
        Some(_) => Err(Fail::from("the block is too long")),
        None => Ok(run(alloc, wire, task.accesses, 8)?),
    }
}

/// The report over a clocked target, and the transfers.
pub(super) fn simulated(alloc: Global, task: &Task) -> Result<(Report, Vec<Transfer>), Fail> {
    let memory = Memory::new(alloc, BASE, 16, 64)?;
    let plan = plan_of(alloc, task.marks)?;
    if !are_legal(&plan) {
        return Err(Fail::from("a mark is not legal"));
    }
    let Ok(mut bench) = ClockedBench::new(alloc, memory, QUIRKS, plan) else {
        return Err(Fail::from("out of memory"));
    };
    let report = report_of(alloc, &mut bench, task)?;
    Ok((report, bench.memory().log().to_vec(alloc)?))
}

/// The report over single clocks, and the transfers.
pub(super) fn clocked(alloc: Global, task: &Task) -> Result<(Report, Vec<Transfer>), Fail> {
    let probe = ClockedProbe::new(target_of(alloc, task)?);
    let mut wire: TransportWire<ProbeTransport<ClockedProbe<Memory>>, Untold> = TransportWire::new(
        ProbeTransport::new(probe),
    );
    let report = report_of(alloc, &mut wire, task)?;
    let target = wire.into_transport().into_probe().into_target();
    Ok((report, target.memory().log().to_vec(alloc)?))
}

/// The report over characters, and why the other end is gone, where it is.
pub(super) fn over(alloc: Global, end: End, task: &Task) -> Result<(Report, Option<Fault>), Fail> {
    let remote = Remote::new(end, end);
    let mut wire: TransportWire<ProbeTransport<Remote<End, End>>, Untold> = TransportWire::new(
        ProbeTransport::new(remote),
    );
    let report = report_of(alloc, &mut wire, task)?;
    let mut remote = wire.into_transport().into_probe();
    if remote.quit().is_ok() != remote.fault().is_none() {
        return Err(Fail::from("quit and the fault disagree"));
    }
    Ok((report, remote.fault()))
}

/// The report of a whole line, and why the other end is gone, where it is.
pub(super) fn whole(alloc: Global, end: End, task: &Task) -> Result<(Report, Option<Fault>), Fail> {
    let ends = Line::characters(end, end);
    let (ran, line) = run_over_line::<Untold, _, _, _>(alloc, ends, task.accesses, 8);
    let RemoteStreams { fault, .. } = line;
    Ok((ran?, fault))
}

/// The transfers of a server's target.
pub(super) fn transfers(alloc: Global, server: RefCell<Server>) -> Result<Vec<Transfer>, Fail> {
    let Server { pins, .. } = server.into_inner();
    let (target, _) = pins.into_parts();
    Ok(target.memory().log().to_vec(alloc)?)
}

/// These transfers took place: whether each is a read, its address and its word.
pub(super) fn were_made<R: Abort>(rt: &R, log: &[Transfer], wanted: &[(bool, u32, u32)]) {
    expect_eq(rt, &log.len(), &wanted.len());
    for (transfer, (read, addr, word)) in log.iter().zip(wanted) {
        let (read, addr, word) = (*read, *addr, *word);
        expect_eq(rt, transfer, &Transfer { read, addr, word });
    }
}
