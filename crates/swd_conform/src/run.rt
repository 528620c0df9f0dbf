//! A conformance run: the calls of a wire, whose items a check takes.
ghost use Rattle.std.specs.Prelude.{◌≡◌, ◌+◌, ◌*◌, ◌≤◌, ◌<◌, ◌^◌, ◌∷◌, true};
ghost use Rattle.swd_port.specs.Steps.{PortMayStep, IsPortSeen, port_due_once};
ghost use Rattle.swd_port.specs.declared.wire.Due.TheVariants.{Nothing, Take, Give, Pass};
ghost use Rattle.swd_recorder.specs.Calls.{IsRecordedCue, recorded_call_items};
ghost use Rattle.swd_check.specs.Watched.{CheckTakes};
ghost use Rattle.swd_recorder.specs.Items.{recorded_in_hand_by};
ghost use Rattle.swd_port.specs.declared.cue.Cue.TheVariants.{Ask};
ghost use Rattle.swd_conform.specs.Aims.{ConformMayMake, ConformStays, ConformUnrefused, IsConformAim};
ghost use Rattle.swd_conform.specs.Calls.{conform_asked, conform_requests_by, conform_saw, conform_sees};

use crate::aim::{Aim, Bounds, is_transfer};
use crate::plan::{Plan, Step};
use std::alloc::Allocator;
use swd_bits::{Reg4, Request, SWITCH_BITS, data_bits};
use swd_check::{Check, Checked, CheckedItems};
use swd_port::{Call, Cue, Due, NotedCalls, Wire};
use swd_recorder::{InHand, in_hand_once};

// The reads of DPIDR and of CTRL/STAT.
const DPIDR: Request = Request {
    ap: false,
    read: true,
    addr: Reg4::R0,
};

const STATUS: Request = Request {
    ap: false,
    read: true,
    addr: Reg4::R4,
};

// How often a request is sent while it gets WAIT.
const TRIES: u32 = 64;

/// The most requests of one step: 64 tries, each with a read of CTRL/STAT, and as many to bring a lost line back.
pub const REQUESTS_PER_STEP: u64 = 256;

// How often CTRL/STAT is read for the powers, and the idle cycles behind each read.
const READS: u32 = 32;

const PAUSE: u32 = 100;

// The bits of CTRL/STAT that acknowledge the powers: CDBGPWRUPACK and CSYSPWRUPACK.
const POWERS: u64 = 1 << 29 | 1 << 31;

// The ones of a line reset, which also resets inside a transaction.
const ONES: u32 = 100;

// The idle cycles after a line reset, and after the last request.
const ZEROS: u32 = 8;

// The bits of OK and WAIT, the first in time least significant.
const OKAY: u64 = 1;

const WAITS: u64 = 2;

// The bit of a data phase that is the parity.
const PARITY: u64 = 1 << 32;

/// Why a conformance run ended before the last step of its plan, though no item broke a rule.
#[derive(Clone, Copy, Debug, PartialEq, Eq)]
pub enum Stop {
    /// A request was answered WAIT 64 times.
    Waits,
    /// No read of CTRL/STAT acknowledged both powers.
    Power,
}

/// What a conformance run found.
#[derive(Clone, Copy, Debug, PartialEq, Eq)]
pub struct Conformed<'a> {
    /// What the check says of the items that were sent and seen.
    pub checked: Checked,
    /// The number of requests that were sent.
    pub requests: u64,
    /// The number of clocks, at most 2^64 - 1.
    pub clocks: u64,
    /// Whether a request was answered OK.
    pub answered: bool,
    /// Whether a request was answered WAIT.
    pub waited: bool,
    /// Whether a transfer at the address without memory was no bus error.
    pub unrefused: bool,
    /// Why it ended early, if it did.
    pub stop: Option<Stop>,
    /// The rule that the last requests were to reach.
    pub rule: &'a str,
}

// A request of a run.
#[derive(Clone, Copy)]
struct Asked {
    request: Request,
    word: u32,
    damaged: bool,
}

/// A conformance run over a wire.
#[derive(Drop)]
pub struct ConformRun<'a, A: Allocator> {
    pub(crate) plan: Plan<'a>,
    pub(crate) items: CheckedItems<A>,
    in_hand: Option<InHand>,
    pub(crate) bounds: Bounds,
    aim: Aim,
    requests: u64,
    clocks: u64,
    answered: bool,
    waited: bool,
    unrefused: bool,
    stop: Option<Stop>,
    // The three bits that were seen last in answer to a request of a step, and the bits of the data phase of a read.
    answer: u64,
    bits: u64,
    pub(crate) noted: NotedCalls,
    ghost held: { in_hand ≡ recorded_in_hand_by noted.calls },
    ghost bounded: { requests + 256 * plan.left ≤ 512000 },
    ghost counted: { requests ≡ conform_requests_by noted.calls },
    ghost heard: { answered ≡ conform_saw 1 noted.calls },
    ghost denied: { unrefused ≡ true → ∥ ConformUnrefused bounds noted.calls ∥₁ },
    ghost slowed: { waited ≡ conform_saw 2 noted.calls },
    ghost aimed: { ∥ IsConformAim bounds aim noted.calls ∥₁ },
    ghost stays: { ∥ ConformStays bounds noted.calls ∥₁ },
}

impl<'a, A: Allocator + Copy> ConformRun<'a, A> {
    ghost use Rattle.swd_conform.specs.Runs.{ConformBegins, ConformFinds, ConformGoes, ConformMakes};
    ghost use Rattle.swd_conform.specs.Runs.{ConformHasRoom, ConformSpends, conform_run_left};

    /// Returns a run that made no call yet. The check takes the items of what is sent and seen.
    pub fn new(plan: Plan<'a>, check: Check<A>) -> ConformRun<'a, A>
        ensures { ConformBegins plan.entry check result }
    {
        ConformRun {
            plan,
            items: CheckedItems::new(check),
            in_hand: None,
            bounds: plan.bounds,
            aim: Aim::Unpowered,
            requests: 0,
            clocks: 0,
            answered: false,
            waited: false,
            unrefused: false,
            stop: None,
            answer: 0,
            bits: 0,
            noted: NotedCalls::new(),
        }
    }

    /// Sends the next step of the plan to a target that was in its reset state when the run began. After the last step
    /// it sends idle cycles. Returns whether another step follows: not after the last one, not once an item broke a
    /// rule, and not where the rest can't be reached ([`Stop`]).
    pub fn turn<W: Wire>(&mut self, wire: &mut W) -> bool
        ensures goes { ConformGoes W.notes wire.old self.old wire.new self.new }
        ensures bound { ConformSpends self.old self.new }
        ensures falls { result ≡ true → conform_run_left self.new < conform_run_left self.old }
    {
        match self.plan.next() {
            None => {
                self.idle(wire, ZEROS);
                false
            }
            Some(step) => {
                self.send(wire, step);
                !self.items.is_broken() && self.stop.is_none()
            }
        }
    }

    /// Returns what was found so far.
    pub fn conformed(&self) -> Conformed<'a>
        ensures { ConformFinds self.now result }
    {
        Conformed {
            checked: self.items.checked(),
            requests: self.requests,
            clocks: self.clocks,
            answered: self.answered,
            waited: self.waited,
            unrefused: self.unrefused,
            stop: self.stop,
            rule: self.plan.rule,
        }
    }

    // Sends a step.
    fn send<W: Wire>(&mut self, wire: &mut W, step: Step)
        requires { ConformHasRoom 256 self.old }
        ensures { ConformMakes W.notes 256 wire.old self.old wire.new self.new }
    {
        match step {
            Step::Ask {
                request,
                word,
                damaged,
            } => {
                let asked = Asked {
                    request,
                    word,
                    damaged,
                };
                self.ask_live(wire, asked)
            }
            Step::Once(request) => {
                let _ = self.transact(wire, zero_of(request));
            }
            Step::Cut(request) => self.cut(wire, request),
            Step::Reset => self.reset(wire),
            Step::Power => self.power(wire),
        }
    }

    // Sends a request until it doesn't get WAIT. A lost line is brought back before.
    fn ask_live<W: Wire>(&mut self, wire: &mut W, asked: Asked)
        requires { ConformHasRoom 256 self.old }
        ensures { ConformMakes W.notes 256 wire.old self.old wire.new self.new }
    {
        if self.revive(wire) {
            self.ask(wire, asked);
        }
    }

    // Brings a lost line back by a read of DPIDR. Returns whether no item broke a rule.
    fn revive<W: Wire>(&mut self, wire: &mut W) -> bool
        requires { ConformHasRoom 128 self.old }
        ensures { ConformMakes W.notes 128 wire.old self.old wire.new self.new }
    {
        if !is_lost(wire) {
            return true;
        }
        self.ask(wire, zero_of(DPIDR));
        !self.items.is_broken()
    }

    // Sends a request until it doesn't get WAIT.
    fn ask<W: Wire>(&mut self, wire: &mut W, asked: Asked)
        requires { ConformHasRoom 128 self.old }
        ensures { ConformMakes W.notes 128 wire.old self.old wire.new self.new }
    {
        for tried in 0..TRIES {
            if !self.ask_once(wire, asked) {
                return;
            }
        }
        self.stop = Some(Stop::Waits);
    }

    // Reads CTRL/STAT until it acknowledges both powers.
    fn power<W: Wire>(&mut self, wire: &mut W)
        requires { ConformHasRoom 256 self.old }
        ensures { ConformMakes W.notes 256 wire.old self.old wire.new self.new }
    {
        for read in 0..READS {
            if self.reads_powers(wire) {
                return;
            }
        }
        self.stop = Some(Stop::Power);
    }

    // Reads CTRL/STAT, with idle cycles behind it. Returns whether it acknowledges both powers, or nothing more is to
    // be read.
    fn reads_powers<W: Wire>(&mut self, wire: &mut W) -> bool
        requires { ConformHasRoom 1 self.old }
        ensures { ConformMakes W.notes 1 wire.old self.old wire.new self.new }
    {
        let _ = self.transact(wire, zero_of(STATUS));
        if self.answer != OKAY || self.items.is_broken() || self.bits & POWERS == POWERS {
            return true;
        }
        self.idle(wire, PAUSE);
        false
    }

    // Sends a request. After WAIT to a read, READOK is 0: now and then CTRL/STAT is read there. Returns whether the
    // request is to be sent again.
    fn ask_once<W: Wire>(&mut self, wire: &mut W, asked: Asked) -> bool
        requires { ConformHasRoom 2 self.old }
        ensures { ConformMakes W.notes 2 wire.old self.old wire.new self.new }
    {
        let waits = self.transact(wire, asked);
        if !waits || self.items.is_broken() {
            return false;
        }
        if !asked.request.read || self.requests % 3 > 0 {
            return true;
        }
        let _ = self.transact(wire, zero_of(STATUS));
        self.answer = WAITS;
        !is_lost(wire) && !self.items.is_broken()
    }

    // Makes a whole transaction. On a lost line, a line reset comes before it. Returns whether it was answered WAIT.
    fn transact<W: Wire>(&mut self, wire: &mut W, asked: Asked) -> bool
        requires { ConformHasRoom 1 self.old }
        ensures { ConformMakes W.notes 1 wire.old self.old wire.new self.new }
    {
        let waits = self.request(wire, asked.request);
        self.complete(wire, asked);
        waits
    }

    // Returns whether a request asks for no transfer, or for one that may be asked for.
    fn may_ask(&self, request: Request) -> bool
        ensures { result ≡ true → ∥ ConformMayMake self.now.bounds (Ask request) self.now.noted.calls ∥₁ }
    {
        !is_transfer(request) || self.bounds.allows(self.aim)
    }

    // Sends a request, unless its transfer could be at another address than the memory's. On a lost line, a line reset
    // comes before it. Returns whether it was answered WAIT.
    fn request<W: Wire>(&mut self, wire: &mut W, request: Request) -> bool
        requires { ConformHasRoom 1 self.old }
        ensures { ConformMakes W.notes 1 wire.old self.old wire.new self.new }
    {
        self.free(wire);
        if !self.may_ask(request) {
            return false;
        }
        let seen = self.step(wire, Cue::Ask(request));
        self.answer = seen;
        seen == WAITS
    }

    // Completes a transaction, as far as something is due.
    fn complete<W: Wire>(&mut self, wire: &mut W, asked: Asked)
        ensures { ConformMakes W.notes 0 wire.old self.old wire.new self.new }
    {
        if has_read(wire) {
            self.bits = self.step(wire, Cue::Take);
            return;
        }
        if has_write(wire) {
            self.call(wire, Cue::Give(phase_of(asked)));
            return;
        }
        if has_refusal(wire) {
            self.call(wire, Cue::Pass);
        }
    }

    // Sends a write, and a line reset in place of its data phase.
    fn cut<W: Wire>(&mut self, wire: &mut W, request: Request)
        requires { ConformHasRoom 1 self.old }
        ensures { ConformMakes W.notes 1 wire.old self.old wire.new self.new }
    {
        let _ = self.request(wire, request);
        if has_write(wire) {
            self.reset(wire);
            return;
        }
        self.complete(wire, zero_of(request));
    }

    // Sends a line reset if something is due: then the line is lost.
    fn free<W: Wire>(&mut self, wire: &mut W)
        ensures makes { ConformMakes W.notes 0 wire.old self.old wire.new self.new }
        ensures due { (W.port wire.new).link.due ≡ Nothing }
    {
        if is_free(wire) {
            return;
        }
        self.reset(wire);
    }

    // Sends a line reset, whatever is due.
    fn reset<W: Wire>(&mut self, wire: &mut W)
        ensures makes { ConformMakes W.notes 0 wire.old self.old wire.new self.new }
        ensures due { (W.port wire.new).link.due ≡ Nothing }
    {
        let undriven = wire.due().undriven();
        self.call(
            wire,
            Cue::Lead {
                ones: ONES,
                undriven,
                switch: false,
                zeros: ZEROS,
            },
        );
    }

    // Sends so many idle cycles, if nothing is due.
    fn idle<W: Wire>(&mut self, wire: &mut W, zeros: u32)
        requires { zeros ≤ 100 }
        ensures { ConformMakes W.notes 0 wire.old self.old wire.new self.new }
    {
        if is_free(wire) {
            self.call(
                wire,
                Cue::Lead {
                    ones: 0,
                    undriven: 0,
                    switch: false,
                    zeros,
                },
            );
        }
    }

    // Makes a call of the wire at which nothing is asked, whose items the check takes.
    fn call<W: Wire>(&mut self, wire: &mut W, cue: Cue)
        requires may { PortMayStep (W.port wire.old).link.due cue }
        requires sends { IsRecordedCue cue }
        requires none { conform_asked cue ≡ 0 }
        ensures makes { ConformMakes W.notes 0 wire.old self.old wire.new self.new }
        ensures due { (W.port wire.new).link.due ≡ Nothing }
    {
        let _ = self.step(wire, cue);
    }

    // Makes a call of the wire, whose items the check takes. Returns what was seen.
    fn step<W: Wire>(&mut self, wire: &mut W, cue: Cue) -> u64
        requires may { PortMayStep (W.port wire.old).link.due cue }
        requires sends { IsRecordedCue cue }
        requires stays { ∥ ConformMayMake self.old.bounds cue self.old.noted.calls ∥₁ }
        requires room { ConformHasRoom (conform_asked cue) self.old }
        ensures makes { ConformMakes W.notes (conform_asked cue) wire.old self.old wire.new self.new }
        ensures due { (W.port wire.new).link.due ≡ port_due_once cue result }
    {
        let seen = wire.step(cue);
        self.record(cue, seen);
        seen
    }

    // Takes a call, and its items.
    fn record(&mut self, cue: Cue, seen: u64)
        requires may { IsRecordedCue cue }
        requires seen { IsPortSeen cue seen }
        requires stays { ∥ ConformMayMake self.old.bounds cue self.old.noted.calls ∥₁ }
        requires room { ConformHasRoom (conform_asked cue) self.old }
        ensures calls { self.new.noted.calls ≡ record { cue = cue; seen = seen } ∷ self.old.noted.calls }
        ensures takes { CheckTakes (recorded_call_items (recorded_in_hand_by self.old.noted.calls) cue seen)
            self.old.items.check self.new.items.check }
        ensures asked { self.new.requests ≡ self.old.requests + conform_asked cue }
        ensures left { conform_run_left self.new ≡ conform_run_left self.old }
        ensures bounds { self.new.bounds ≡ self.old.bounds }
    {
        self.items.take(self.in_hand, cue, seen);
        self.unrefused = self.aim.denies(cue, seen) | self.unrefused;
        self.aim = self.aim.after(&self.bounds, self.in_hand, cue, seen);
        self.clocks = self.clocks.saturating_add(clocks_of(cue));
        self.requests += requests_of(cue);
        self.answered = sees(OKAY, cue, seen) | self.answered;
        self.waited = sees(WAITS, cue, seen) | self.waited;
        self.in_hand = in_hand_once(cue, seen);
        self.noted = self.noted.and(&Call { cue, seen });
    }
}

// Returns how many requests a call sends.
fn requests_of(cue: Cue) -> u64
    ensures { result ≡ conform_asked cue }
{
    match cue {
        Cue::Ask(_) => 1,
        _ => 0,
    }
}

// Returns whether a call is a request that was answered by these bits.
fn sees(bits: u64, cue: Cue, seen: u64) -> bool
    ensures { result ≡ conform_sees bits cue seen }
{
    match cue {
        Cue::Ask(_) => seen == bits,
        _ => false,
    }
}

// Returns how many clocks a call takes.
fn clocks_of(cue: Cue) -> u64 {
    match cue {
        Cue::Lead {
            ones,
            switch: true,
            zeros,
            ..
        } => 2 * u64::from(ones) + u64::from(SWITCH_BITS) + u64::from(zeros),
        Cue::Lead { ones, zeros, .. } => u64::from(ones) + u64::from(zeros),
        Cue::Ask(_) => 12,
        Cue::Take | Cue::Give(_) => 34,
        Cue::Pass => 1,
    }
}

// Returns whether no acknowledgement was seen last.
fn is_lost<W: Wire>(wire: &W) -> bool {
    matches!(wire.due(), Due::Lost)
}

// Returns whether nothing is due.
fn is_free<W: Wire>(wire: &W) -> bool
    ensures { result ≡ true → (W.port wire.now).link.due ≡ Nothing }
{
    matches!(wire.due(), Due::Nothing)
}

// Returns whether the data phase of a read is due.
fn has_read<W: Wire>(wire: &W) -> bool
    ensures { result ≡ true → (W.port wire.now).link.due ≡ Take }
{
    matches!(wire.due(), Due::Take)
}

// Returns whether the data phase of a write is due.
fn has_write<W: Wire>(wire: &W) -> bool
    ensures { result ≡ true → (W.port wire.now).link.due ≡ Give }
{
    matches!(wire.due(), Due::Give)
}

// Returns whether the turnaround after WAIT or FAULT is due.
fn has_refusal<W: Wire>(wire: &W) -> bool
    ensures { result ≡ true → (W.port wire.now).link.due ≡ Pass }
{
    matches!(wire.due(), Due::Pass)
}

// Returns a request with the word 0.
fn zero_of(request: Request) -> Asked {
    Asked {
        request,
        word: 0,
        damaged: false,
    }
}

// Returns the bits of a write's data phase.
fn phase_of(asked: Asked) -> u64
    ensures { result < 2 ^ 33 }
{
    let bits = data_bits(asked.word);
    if !asked.damaged {
        bits
    } else if bits < PARITY {
        bits + PARITY
    } else {
        bits - PARITY
    }
}
