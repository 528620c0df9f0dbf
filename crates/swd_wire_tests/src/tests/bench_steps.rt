//! Runs of a simulated end of a wire, step by step.

use std::alloc::Global;
use swd_bits::{data_bits, word_of};
use swd_port::{Due, Register, Transfer};
use swd_simulated::{Simulated, are_legal};
use swd_target::{Mark, Memory, Quirks};

#[derive(Clone, Copy)]
pub(super) enum Step {
    // The switch with its line resets, or the line reset of a host that lost its target.
    Reset,
    Recover,
    // A line reset, a DPIDR read, power, and a CSW with auto-increment.
    Up,
    // A request that is read to its end, and its word, or None where its parity is wrong.
    Read(Register, Option<u32>),
    // A request that is written to its end.
    Write(Register, u32),
    // A request alone, and what is seen.
    Ask(Register, u8),
    // A request that is answered WAIT or FAULT, with its turnaround.
    Refused(Register, u8),
    Settle,
    // No acknowledgement was seen.
    Lost,
    // How many transfers were logged.
    Logged(usize),
    // The first transfer that was logged is the write of this word at this address.
    Wrote(u32, u32),
}

// A target with so many words from 20000000 and room for sixteen transfers.
pub(super) fn make<W: Simulated + Drop>(
    alloc: Global,
    words: u32,
    quirks: Quirks,
    marks: &[Mark],
) -> Option<W> {
    if !are_legal(marks) {
        return None;
    }
    let memory = Memory::new(alloc, 0x2000_0000, words, 16).ok()?;
    let plan = Vec::from_slice(alloc, marks).ok()?;
    W::simulate(alloc, memory, quirks, plan).ok()
}

fn ask<W: Simulated + Drop>(wire: &mut W, register: Register) -> Option<u8> {
    match wire.due() {
        Due::Nothing => Some(wire.ask(register.request())),
        _ => None,
    }
}

// The word that is read, where the request is answered OK; None in it where its parity is wrong.
fn read<W: Simulated + Drop>(wire: &mut W, register: Register) -> Option<Option<u32>> {
    let _ = ask(wire, register)?;
    match wire.due() {
        Due::Take => Some(word_of(wire.take())),
        _ => None,
    }
}

fn write<W: Simulated + Drop>(wire: &mut W, register: Register, word: u32) -> bool {
    let _ = ask(wire, register);
    match wire.due() {
        Due::Give => {
            wire.give(data_bits(word));
            true
        }
        _ => false,
    }
}

fn reset<W: Simulated + Drop>(wire: &mut W) -> bool {
    match wire.due() {
        Due::Nothing => {
            wire.lead(56, true, 2);
            true
        }
        _ => false,
    }
}

fn power_up<W: Simulated + Drop>(wire: &mut W) -> bool {
    reset(wire)
        && read(wire, Register::DpidrRead) == Some(Some(0x2ba0_1477))
        && write(wire, Register::CtrlStatWrite, 0x5000_0000)
        && write(wire, Register::CswWrite, 0x2300_0012)
}

fn refused<W: Simulated + Drop>(wire: &mut W, register: Register) -> Option<u8> {
    let seen = ask(wire, register);
    match wire.due() {
        Due::Pass => {
            wire.pass();
            seen
        }
        _ => None,
    }
}

// Whether a step goes as it says.
fn goes<W: Simulated + Drop>(wire: &mut W, step: Step) -> bool {
    match step {
        Step::Reset => reset(wire),
        Step::Recover => {
            wire.lead(100, false, 2);
            true
        }
        Step::Up => power_up(wire),
        Step::Read(register, word) => read(wire, register) == Some(word),
        Step::Write(register, word) => write(wire, register, word),
        Step::Ask(register, seen) => ask(wire, register) == Some(seen),
        Step::Refused(register, seen) => refused(wire, register) == Some(seen),
        Step::Settle => {
            wire.settle();
            true
        }
        Step::Lost => wire.due() == Due::Lost,
        Step::Logged(count) => wire.memory().log().len() == count,
        Step::Wrote(addr, word) => {
            let written = Transfer {
                read: false,
                addr,
                word,
            };
            wire.memory().log().first().copied() == Some(written)
                && wire.memory().word(addr) == Some(word)
        }
    }
}

// The place of the first step that doesn't go as it says.
pub(super) fn failing<W: Simulated + Drop>(wire: &mut W, steps: &[Step]) -> Option<usize> {
    for (index, step) in steps.iter().enumerate() {
        if !goes(wire, *step) {
            return Some(index);
        }
    }
    None
}
