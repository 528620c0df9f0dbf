//! Transactions of serial wire, by the probe itself.
ghost use Rattle.std.specs.Prelude.{ℕ, ◌≡◌, ◌<◌, ◌^◌, Bool, true, false, []};
ghost use Rattle.swd_bits.specs.Phases.{data_phase_word};
ghost use Rattle.swd_sequences.specs.Going.{SequencesGoBy};
ghost use Rattle.swd_dap_probe.specs.Transactions.{ProbeAsks, DapBehind, DapSamples, DapTransaction, DapPersists};
ghost use Rattle.swd_dap_probe.specs.Transactions.{dap_take, dap_give, dap_pass, dap_back_off, dap_value};
ghost use Rattle.swd_dap_probe.specs.Transactions.{dap_word_answer};

use crate::clocks::{drive, hold, release, sample};
use crate::line::ProbeLine;
use crate::settings::Settings;
use swd_bits::{Reg4, Request, data_bits, word_of};

/// The result of transfers that were all OK.
pub(crate) const OK: u8 = 1;

/// A read of RDBUFF.
pub(crate) const RDBUFF: Request = Request {
    ap: false,
    read: true,
    addr: Reg4::RC,
};

/// A write of ABORT.
pub(crate) const ABORT: Request = Request {
    ap: false,
    read: false,
    addr: Reg4::R0,
};

/// How a transaction was answered.
#[derive(Clone, Copy)]
pub(crate) enum Answer {
    /// OK, and the word of a read, whose parity is right; 0 for a write.
    Okay(u32),
    /// OK, and a data phase whose parity is wrong.
    Damaged,
    /// WAIT.
    Wait,
    /// FAULT.
    Fault,
    /// These three bits, which are no acknowledgement.
    Missing(u8),
}

impl Answer {
    /// Returns its number in a reply.
    pub(crate) fn value(self) -> u8
        ensures { result ≡ dap_value self }
    {
        match self {
            Answer::Okay(_) => OK,
            Answer::Wait => 2,
            Answer::Fault => 4,
            Answer::Damaged => 8,
            Answer::Missing(seen) => seen,
        }
    }
}

// Sends a request, and returns the three bits of the acknowledgement.
fn ask<L: ProbeLine>(line: &mut L, settings: &Settings, request: Request) -> u8
    ensures bound { result < 8 }
    ensures asks { ProbeAsks L.clocks settings.now request result line.old line.new }
{
    drive(line, u64::from(request.bits()), 8);
    release(line, settings.turnaround);
    sample(line, 3) as u8
}

// Samples a data phase, and passes the turnaround and the idle cycles.
fn take_bits<L: ProbeLine>(line: &mut L, settings: &Settings) -> u64
    ensures bound { result < 2 ^ 33 }
    ensures takes { DapSamples L.clocks (dap_take settings.now) result line.old line.new }
{
    let sent = sample(line, 33);
    release(line, settings.turnaround);
    hold(line, false, settings.idle);
    sent
}

// Reads a word.
fn take<L: ProbeLine>(line: &mut L, settings: &Settings) -> Answer
    ensures { (sent : ℕ) × DapSamples L.clocks (dap_take settings.now) sent line.old line.new
        × (result ≡ dap_word_answer (data_phase_word sent)) }
{
    let sent = take_bits(line, settings);
    match word_of(sent) {
        Some(word) => Answer::Okay(word),
        None => Answer::Damaged,
    }
}

// Passes the turnaround, and writes a word and the idle cycles.
fn give<L: ProbeLine>(line: &mut L, settings: &Settings, word: u32)
    ensures { SequencesGoBy L.clocks (dap_give settings.now word) [] line.old line.new }
{
    release(line, settings.turnaround);
    drive(line, data_bits(word), 33);
    hold(line, false, settings.idle);
}

// Releases the line for a data phase and for the turnaround.
fn pass_phase<L: ProbeLine>(line: &mut L, settings: &Settings)
    ensures { SequencesGoBy L.clocks (dap_back_off settings.now) [] line.old line.new }
{
    release(line, 33);
    release(line, settings.turnaround);
}

// Passes the turnaround, and drives a data phase low.
fn pass_low<L: ProbeLine>(line: &mut L, settings: &Settings)
    ensures { SequencesGoBy L.clocks (dap_pass settings.now true false) [] line.old line.new }
{
    release(line, settings.turnaround);
    hold(line, false, 33);
}

// Passes the turnaround behind WAIT and FAULT, and the data phase, if there is one.
fn pass<L: ProbeLine>(line: &mut L, settings: &Settings, read: bool)
    ensures { SequencesGoBy L.clocks (dap_pass settings.now settings.now.data_phase read) [] line.old line.new }
{
    match (settings.data_phase, read) {
        (true, true) => pass_phase(line, settings),
        (true, false) => pass_low(line, settings),
        (false, _) => release_turnaround(line, settings),
    }
}

// Passes the turnaround.
fn release_turnaround<L: ProbeLine>(line: &mut L, settings: &Settings)
    ensures { (read : Bool) → SequencesGoBy L.clocks (dap_pass settings.now false read) [] line.old line.new }
{
    release(line, settings.turnaround);
}

// Makes what follows the acknowledgement of these three bits.
fn behind<L: ProbeLine>(
    line: &mut L,
    settings: &Settings,
    request: Request,
    word: u32,
    seen: u8,
) -> Answer
    ensures { DapBehind L.clocks settings.now request word seen result line.old line.new }
{
    match seen {
        1 if request.read => take(line, settings),
        1 => {
            give(line, settings, word);
            Answer::Okay(0)
        }
        2 => {
            pass(line, settings, request.read);
            Answer::Wait
        }
        4 => {
            pass(line, settings, request.read);
            Answer::Fault
        }
        _ => {
            pass_phase(line, settings);
            Answer::Missing(seen)
        }
    }
}

/// Makes one transaction. `word` is that of a write.
pub(crate) fn transact<L: ProbeLine>(
    line: &mut L,
    settings: &Settings,
    request: Request,
    word: u32,
) -> Answer
    ensures { DapTransaction L.clocks settings.now request word result line.old line.new }
{
    let seen = ask(line, settings, request);
    behind(line, settings, request, word, seen)
}

/// Makes a transaction, and again at each WAIT, up to the number of repeats.
pub(crate) fn persist<L: ProbeLine>(
    line: &mut L,
    settings: &Settings,
    request: Request,
    word: u32,
) -> Answer
    ensures { DapPersists L.clocks settings.now request word result line.old line.new }
{
    for place in 0..settings.retries {
        match transact(line, settings, request, word) {
            Answer::Wait => {}
            answer => return answer,
        }
    }
    transact(line, settings, request, word)
}
