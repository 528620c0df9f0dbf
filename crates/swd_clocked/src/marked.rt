//! A simulated target, clock by clock, with a plan of fault injections: a target and the wire to it.
ghost use Rattle.swd_port.specs.PlainBus.{bus_of};
ghost use Rattle.std.specs.Prelude.{◌≡◌, ◌-◌, ◌+◌, ◌^◌, ◌<◌, is_some, unwrap_or, true, false, min, IfSome, IfNone};
ghost use Rattle.swd_bits.specs.declared.request.Request.{Request};
ghost use Rattle.swd_port.specs.Made.{port_made_target};
ghost use Rattle.swd_port.specs.declared.mark.Mark.TheVariants.{Clean};
ghost use Rattle.swd_port.specs.Choices.{is_port_deaf, is_port_wait};
ghost use Rattle.swd_target.specs.Marks.{IsLegalPlan, is_legal_mark};
ghost use Rattle.swd_target.specs.Simulations.{simulation_made_with};
ghost use Rattle.swd_target.specs.Plans as plans;
ghost use Rattle.swd_clocked.specs.Frames.{idle_frame, cycles_counted, contended_cycle};
ghost use Rattle.swd_clocked.specs.Damage.{mark_changes_cycle, cycle_bit_turned, IsLastRequestCycle};

use crate::clocked::Clocked;
use crate::frame::Frame;
use std::alloc::{Allocator, Global};
use swd_bits::Request;
use swd_port::{Count, Mark};
use swd_target::port::Plan;
use swd_target::{Device, Memory, Quirks};

// The cycles of a turnaround and an acknowledgement.
const UNSEEN: u8 = 4;

/// A simulated target and the wire to it, clock by clock, for any host. Each request uses the next mark of the plan,
/// which injects its fault; after the plan's end all marks are `Clean`.
///
/// Only eight bits that are a valid request, where the target awaits one, use a mark. The target takes any sequence of
/// cycles.
///
/// ```ignore
/// let mut target = FaultyClocked::new(device, quirks, plan);
/// for _ in 0..50 {
///     target.cycle(Some(true)); // a line reset
/// }
/// target.cycle(Some(false));
/// // then DPIDR's request, bit by bit, and the acknowledgement with None
/// ```
#[derive(Debug, Drop)]
pub struct FaultyClocked<D, A: Allocator = Global> {
    pub(crate) clocked: Clocked<D>,
    pub(crate) plan: Plan<A>,
    // The mark of the last request.
    pub(crate) mark: Mark,
    // The number of further cycles that don't reach the target.
    pub(crate) unseen: u8,
    // The number of requests that used a mark, saturating at 2^64 - 1.
    requests: u64,
    // Whether its debug port has a write buffer.
    buffers: bool,
    // How many writes were given up, for contracts alone.
    given_up: Count,
    ghost legal: { is_legal_mark mark ≡ true },
    ghost counts: { requests ≡ min (plans.plan_tally plan).asked (2 ^ 64 - 1) },
}

// Returns whether the target doesn't see the request.
fn is_deaf(mark: Mark) -> bool
    ensures { result ≡ is_port_deaf mark }
{
    matches!(&mark, Mark::Deaf)
}

// Returns whether WAIT is asked for.
fn is_wait(mark: Mark) -> bool
    ensures { result ≡ is_port_wait mark }
{
    matches!(&mark, Mark::Wait)
}

// Returns the bit, inverted if `change`.
fn turned(change: bool, bit: bool) -> bool
    ensures { result ≡ cycle_bit_turned change bit }
{
    if change { !bit } else { bit }
}

impl<D: Device, A: Allocator> FaultyClocked<D, A> {
    ghost use Rattle.swd_clocked.specs.Clocks.{ClockedSettles};
    ghost use Rattle.swd_clocked.specs.Marked.{marked_clocked_state, marked_clocked_simulation, marked_clocked_frame};
    ghost use Rattle.swd_clocked.specs.Marked.{marked_clocked_mark, marked_clocked_unseen, marked_clocked_plan};
    ghost use Rattle.swd_clocked.specs.Marked.{marked_clocked_tally, marked_clocked_cycles, marked_clocked_contended};
    ghost use Rattle.swd_clocked.specs.Marked.{MarkedCycles, CycleMeetsMark, CycleMisses, CycleReaches, CycleUsesMark};
    ghost use Rattle.swd_clocked.specs.Marked.{CycleKeepsPlan, marked_clocked_device};
    ghost use Rattle.swd_clocked.specs.Giving.{has_marked_clocked_buffer, marked_clocked_given_up, CycleKeepsBuffer};
    ghost use Rattle.swd_clocked.specs.Giving.{RequestGivesUp, LastCycleGivesUp, CycleGivesUp, BufferedCycles};
    ghost use Rattle.swd_clocked.specs.Giving.{DiffersInBuffer};

    /// Creates a target before its first line reset, with this device behind its access port and this plan of marks.
    /// DPIDR reads 2ba01477.
    pub fn new(device: D, quirks: Quirks, plan: Vec<Mark, A>) -> FaultyClocked<D, A>
        requires { IsLegalPlan plan.items }
        ensures state { marked_clocked_state D.bus result ≡ port_made_target 0x2ba0_1477 (D.bus device) }
        ensures exact { marked_clocked_simulation D.bus result ≡ simulation_made_with quirks (D.bus device) }
        ensures device { marked_clocked_device result ≡ device }
        ensures frame { marked_clocked_frame result ≡ idle_frame }
        ensures mark { marked_clocked_mark result ≡ Clean }
        ensures unseen { marked_clocked_unseen result ≡ 0 }
        ensures plan { marked_clocked_plan result ≡ plan.items }
        ensures requests { (marked_clocked_tally result).asked ≡ 0 }
        ensures cycles { marked_clocked_cycles result ≡ 0 }
        ensures contended { marked_clocked_contended result ≡ 0 }
        ensures unbuffered { has_marked_clocked_buffer result ≡ false }
        ensures given_up { marked_clocked_given_up result ≡ 0 }
    {
        FaultyClocked {
            clocked: Clocked::new(device, quirks),
            plan: Plan::new(plan),
            mark: Mark::Clean,
            unseen: 0,
            requests: 0,
            buffers: false,
            given_up: Count::new(),
        }
    }

    /// Returns the target with a debug port that has a write buffer (`buffers`), or has none, as at first.
    ///
    /// A port with a buffer gives up a write that it accepted, where it is still pending and a request comes that can't
    /// wait for it: a read of DPIDR or CTRL/STAT, or a write of ABORT. The write reaches no bus, and WDATAERR is set.
    /// Only with the quirk `late` a write is pending behind its request.
    pub fn with_buffer(self, buffers: bool) -> FaultyClocked<D, A>
        ensures { DiffersInBuffer buffers self result }
    {
        let mut target = self;
        target.buffers = buffers;
        target
    }

    // Consumes the target, and returns its device and all its marks.
    pub(crate) fn into_parts(self) -> (D, Vec<Mark, A>)
        ensures device { result.0 ≡ marked_clocked_device self }
        ensures plan { result.1.items ≡ marked_clocked_plan self }
    {
        (self.clocked.into_device(), self.plan.into_marks())
    }

    /// Returns the device behind the access port.
    pub fn device(&self) -> &D
        ensures { result.now ≡ marked_clocked_device self.now }
    {
        self.clocked.device()
    }

    /// Consumes the target, and returns the device behind the access port.
    pub fn into_device(self) -> D
        ensures { result ≡ marked_clocked_device self }
    {
        self.clocked.into_device()
    }

    /// Returns the number of cycles so far, saturating at `u64::MAX`.
    pub fn cycles(&self) -> u64
        ensures { result ≡ marked_clocked_cycles self.now }
    {
        self.clocked.cycles
    }

    /// Returns the number of requests so far that used a mark, saturating at `u64::MAX`.
    pub fn requests(&self) -> u64
        ensures { result ≡ min (marked_clocked_tally self.now).asked (2 ^ 64 - 1) }
    {
        self.requests
    }

    /// Performs one clock with the bit that the host drives, if any. Returns the bit that the host sees: the target's
    /// where it drives, changed if the mark says so; else the host's own, and 1 where nobody drives.
    #[inline(always)]
    pub fn cycle(&mut self, drive: Option<bool>) -> bool
        ensures cycles { BufferedCycles D.bus drive result self.old self.new }
        ensures count { marked_clocked_cycles self.new ≡ cycles_counted 1 (marked_clocked_cycles self.old) }
        ensures contended { marked_clocked_contended self.new ≡ marked_clocked_contended self.old
            + contended_cycle (marked_clocked_frame self.old) (is_some drive) }
    {
        self.give_up_in_time(drive);
        self.cycle_now(drive)
    }

    // Gives up the pending write, if this cycle is the last one of a request that can't wait for it.
    #[inline(always)]
    fn give_up_in_time(&mut self, drive: Option<bool>)
        ensures { CycleGivesUp D.bus drive self.old self.new }
    {
        if self.buffers && self.unseen == 0 {
            self.give_up_at_last(drive.unwrap_or(true));
        }
    }

    // The same in a cycle with this bit.
    #[inline(never)]
    fn give_up_at_last(&mut self, bit: bool)
        ensures { LastCycleGivesUp D.bus bit self.old self.new }
    {
        if let Some(request) = self.last_of(bit) {
            self.give_up_before(request);
        }
    }

    // Gives up the pending write, if this request can't wait for it and the target is to see it.
    fn give_up_before(&mut self, request: Request)
        ensures { RequestGivesUp D.bus (plans.plan_next_mark self.old.plan) request self.old self.new }
    {
        let mark = self.plan.next_mark();
        if self.clocked.give_up_before(mark, request) {
            self.given_up.tick();
        }
    }

    // The same as `cycle` of a target without a write buffer.
    #[inline(always)]
    pub(crate) fn cycle_now(&mut self, drive: Option<bool>) -> bool
        ensures cycles { MarkedCycles D.bus drive result self.old self.new }
        ensures count { marked_clocked_cycles self.new ≡ cycles_counted 1 (marked_clocked_cycles self.old) }
        ensures contended { marked_clocked_contended self.new ≡ marked_clocked_contended self.old
            + contended_cycle (marked_clocked_frame self.old) (is_some drive) }
        ensures buffer { CycleKeepsBuffer self.old self.new }
    {
        if self.unseen > 0 {
            return self.miss(self.unseen - 1, drive);
        }
        if self.last_of(drive.unwrap_or(true)).is_some() {
            return self.last_bit(drive);
        }
        self.reach(drive)
    }

    // Returns the request whose last bit this is, if any.
    fn last_of(&self, bit: bool) -> Option<Request>
        ensures found { IfSome result (λ q. IsLastRequestCycle (marked_clocked_frame self.now) bit q) }
        ensures none { IfNone result ((q : Request) → IsLastRequestCycle (marked_clocked_frame self.now) bit q → ⊥) }
    {
        match self.clocked.frame {
            Frame::Asks { bits, count: 7 } => Request::of(bits / 2 + u8::from(bit) * 128),
            _ => None,
        }
    }

    // Performs the cycle of a request's last bit, which uses a mark.
    #[inline(never)]
    fn last_bit(&mut self, drive: Option<bool>) -> bool
        requires { self.old.unseen ≡ 0 }
        ensures meets { CycleMeetsMark D.bus drive result self.old self.new }
        ensures count { marked_clocked_cycles self.new ≡ cycles_counted 1 (marked_clocked_cycles self.old) }
        ensures contended { marked_clocked_contended self.new ≡ marked_clocked_contended self.old
            + contended_cycle (marked_clocked_frame self.old) (is_some drive) }
        ensures buffer { CycleKeepsBuffer self.old self.new }
    {
        self.use_mark();
        if is_deaf(self.mark) {
            return self.miss(UNSEEN, drive);
        }
        self.clocked.hold(is_wait(self.mark));
        self.reach(drive)
    }

    fn use_mark(&mut self)
        ensures uses { CycleUsesMark self.new.mark self.old.plan self.new.plan }
        ensures clocked { self.new.clocked ≡ self.old.clocked }
        ensures unseen { self.new.unseen ≡ self.old.unseen }
        ensures buffer { CycleKeepsBuffer self.old self.new }
    {
        self.mark = self.plan.use_mark();
        self.requests = self.requests.saturating_add(1);
    }

    // Performs a cycle that doesn't reach the target; `more` cycles after it won't either.
    #[inline(never)]
    fn miss(&mut self, more: u8, drive: Option<bool>) -> bool
        ensures misses { CycleMisses more drive result self.old self.new }
        ensures keeps { CycleKeepsPlan self.old self.new }
        ensures count { marked_clocked_cycles self.new ≡ cycles_counted 1 (marked_clocked_cycles self.old) }
        ensures contended { marked_clocked_contended self.new ≡ marked_clocked_contended self.old
            + contended_cycle (marked_clocked_frame self.old) (is_some drive) }
        ensures buffer { CycleKeepsBuffer self.old self.new }
    {
        self.unseen = more;
        self.clocked.miss(drive.is_some());
        drive.unwrap_or(true)
    }

    // Performs a cycle that reaches the target.
    #[inline(always)]
    fn reach(&mut self, drive: Option<bool>) -> bool
        requires { self.old.unseen ≡ 0 }
        ensures reaches { CycleReaches D.bus self.old.mark self.old.clocked.waits drive result self.old self.new }
        ensures keeps { CycleKeepsPlan self.old self.new }
        ensures count { marked_clocked_cycles self.new ≡ cycles_counted 1 (marked_clocked_cycles self.old) }
        ensures contended { marked_clocked_contended self.new ≡ marked_clocked_contended self.old
            + contended_cycle (marked_clocked_frame self.old) (is_some drive) }
        ensures buffer { CycleKeepsBuffer self.old self.new }
    {
        let change = self.is_changed(drive.is_some());
        let bit = turned(change, drive.unwrap_or(true));
        turned(change, self.clocked.clock(bit, drive.is_some()))
    }

    // Returns whether the mark changes the bit of this cycle. `driven`: the host drives it.
    fn is_changed(&self, driven: bool) -> bool
        ensures { result ≡ mark_changes_cycle (marked_clocked_frame self.now) self.now.mark driven }
    {
        match (self.mark, self.clocked.frame) {
            (Mark::Mute(place), Frame::Replies { place: now, .. }) => now == place + 1,
            (Mark::Flip(place), Frame::Drives { left, .. }) => left + place == 33,
            (Mark::Flip(place), Frame::Awaits { place: now, .. }) => driven && now == place + 1,
            _ => false,
        }
    }

    /// Completes the pending DRW transfer, if any. Without the quirk `late` no transfer is ever pending.
    pub fn settle(&mut self)
        ensures settles { ClockedSettles D.bus self.old.clocked self.new.clocked }
        ensures keeps { CycleKeepsPlan self.old self.new }
        ensures unseen { marked_clocked_unseen self.new ≡ marked_clocked_unseen self.old }
        ensures cycles { marked_clocked_cycles self.new ≡ marked_clocked_cycles self.old }
        ensures contended { marked_clocked_contended self.new ≡ marked_clocked_contended self.old }
        ensures buffer { CycleKeepsBuffer self.old self.new }
    {
        self.clocked.settle();
    }
}

impl<M: Allocator, A: Allocator> FaultyClocked<Memory<M>, A> {
    ghost use Rattle.swd_clocked.specs.Marked.{marked_clocked_state};

    /// Returns the memory behind the access port.
    pub fn memory(&self) -> &Memory<M>
        ensures { (marked_clocked_state bus_of self.now).memory ≡ bus_of result.now }
    {
        self.device()
    }
}
