//! The host over a line of your own: by `run_over_transport` over a probe, and by `run_over_line` over the characters
//! of remote_bitbang.
ghost use Rattle.std.specs.FinMap.{empty};
ghost use Rattle.std.specs.Prelude.{[]};
ghost use Rattle.swd_port.specs.PlainBus.{bus_of};
ghost use Rattle.swd_port.specs.Made.{port_made};

use crate::whole::{BASE, Failure, QUIRKS, TRIES, writes};
use std::alloc::Global;
use swd_clocked::FaultyClocked;
use swd_ends::ClockedProbe;
use swd_host::{End, run_over_transport};
use swd_port::{Access, Answer, Story, TransportWire};
use swd_remote::{Line, ProbeTransport, run_over_line};
use swd_target::Memory;

// An instance of `Story`. Which one is irrelevant: the contracts of both calls are proved for each.
struct Untold;

impl Story for Untold {
    ghost at = { λ _. port_made 0 (bus_of (record { words = empty; log = []; room = 0 })) };
}

/// Loads the image over a probe, here one that clocks a simulated target.
pub fn load(alloc: Global) -> Result<(), Failure> {
    let memory = Memory::new(alloc, BASE, 64, 65_536)?;
    let probe = ClockedProbe::new(FaultyClocked::new(memory, QUIRKS, Vec::new(alloc)));
    let mut wire = TransportWire::<_, Untold>::new(ProbeTransport::new(probe));
    let report = run_over_transport(alloc, &mut wire, writes(alloc)?.as_slice(), TRIES)?;
    // The probe may hold clocks that weren't sent yet, those of the idle cycles after the last access.
    let sent = wire.into_transport().finish();
    if report.ended != End::All || sent.is_err() {
        return Err(Failure::Stopped(report.ended));
    }
    match report
        .answers
        .iter()
        .position(|answer| *answer != Answer::Written)
    {
        Some(index) => Err(Failure::BusFault(index)),
        None => Ok(()),
    }
}

// The levels that a target sent while a word was written and read back.
const LEVELS: &[u8] = b"\
    100111011100010100000000101110101000100100000000000000000000000000000000000100100100000000000000\
    000000000000000011110100100000000000000000000000000000000000100010010100000000000000000110001000\
    100100100000000000000000000000000000000000100100000000000000000000000000000000000100111101110111\
    110110110101011110110";

// The word.
const WORD: u32 = 0xdead_beef;

/// Writes a word and reads it back over a line: a reader of levels and a writer of characters, as the two directions of
/// a connection to a remote_bitbang server. Here the levels were recorded, and the characters are kept.
pub fn write_over_line(alloc: Global) -> Result<(), Failure> {
    let accesses = [Access::Write(BASE, WORD), Access::Read(BASE)];
    let mut sent = Vec::new(alloc);
    let line = Line::characters(LEVELS, &mut sent);
    let (ran, line) = run_over_line::<Untold, _, _, _>(alloc, line, &accesses, TRIES);
    let report = ran?;
    if report.ended != End::All || line.fault.is_some() {
        return Err(Failure::Stopped(report.ended));
    }
    match report.answers.as_slice() {
        [Answer::Written, Answer::Value(WORD)] => Ok(()),
        _ => Err(Failure::Differs(0)),
    }
}
