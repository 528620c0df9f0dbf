//! A simulated target as a wire, with a plan of fault injections.
ghost use Rattle.std.specs.Prelude.{◌≡◌, ◌<◌, ◌^◌};
ghost use Rattle.swd_port.specs.declared.cue.Cue.TheVariants.{Ask};
ghost use Rattle.swd_port.specs.declared.wire.Due.TheVariants.{Nothing, Take, Give, Pass};
ghost use Rattle.swd_port.specs.Steps.{PortMayStep, IsPortSeen, IsPortStep};
ghost use Rattle.swd_port.specs.Port.{PortTally, port_idle_link};
ghost use Rattle.swd_port.specs.Made.{port_made};
ghost use Rattle.swd_port.specs.PlainBus.{bus_of};
ghost use Rattle.swd_port.specs.Completion.{port_completed};
ghost use Rattle.swd_port.specs.Asking.{PortAsks, PortKeepsOrGivesUp, port_tally_after};
ghost use Rattle.swd_port.specs.Leading.{PortLeadsNow};
ghost use Rattle.swd_port.specs.Moving.{PortTakes, PortTakesNow, PortGives, PortPasses, PortPassesNow};
ghost use Rattle.swd_port.specs.Moving.{port_bits_driven};
ghost use Rattle.swd_target.specs.Marks.{IsLegalPlan};
ghost use Rattle.swd_target.specs.Flips.{target_flip_place, target_awaited_flip};
ghost use Rattle.swd_target.specs.Simulations.{simulation_made_with, simulation_transferred};
ghost use Rattle.swd_port.specs.Choices.{IsPortChoice};

use crate::acknowledgement::seen_under;
use crate::device::Device;
use crate::memory::Memory;
use crate::phase::{bits_on, enter_phase, is_awaiting};
use crate::plan::Plan;
use crate::quirks::Quirks;
use crate::target::Target;
use std::alloc::{Allocator, Global};
use swd_bits::Request;
use swd_port::{AfterAck, Cue, Due, Mark, Register, Wire};

/// A simulated target as a [`Wire`]. Each request uses the next mark of the plan; after its end all marks are `Clean`.
/// DPIDR reads 2ba01477.
///
/// Its quirks make the choices that the standard leaves: when a DRW transfer takes effect, how TAR ends a kilobyte, and
/// what an unknown value reads as. At a bus error TAR keeps its address. The target answers WAIT at a `Wait` mark
/// alone, where it would answer OK otherwise.
///
/// ```ignore
/// let memory = Memory::new(alloc, 0x2000_0000, 16, 16)?;
/// let mut bench = Bench::new(memory, quirks, Vec::new(alloc));
/// bench.lead(56, true, 2);
/// bench.ask(Register::DpidrRead.request()); // 1: OK, and a data phase is due
/// word_of(bench.take()); // Some(0x2ba0_1477)
/// ```
#[derive(Debug, Drop)]
pub struct Bench<D, A: Allocator = Global> {
    target: Target<D>,
    due: Due,
    line: AfterAck,
    plan: Plan<A>,
    ghost driven: { port_bits_driven line < 2 ^ 33 },
    ghost flipped: { target_flip_place (target_awaited_flip line) < 33 },
}

impl<D: Device, A: Allocator> Bench<D, A> {
    ghost use Rattle.swd_target.specs.Benches.{bench_port, bench_link, bench_tally, bench_simulation, bench_plan};
    ghost use Rattle.swd_target.specs.Benches.{bench_choice, bench_next_mark};
    ghost use Rattle.swd_target.specs.Targets.{target_state};
    ghost use Rattle.swd_target.specs.Requests.{target_port_at, TargetAsksUnder};
    ghost use Rattle.swd_target.specs.Giving.{simulation_giving, tally_given};
    ghost use Rattle.swd_target.specs.Stepping.{simulation_led, simulation_given, simulation_seen_at_cue};
    ghost use Rattle.swd_target.specs.Stepping.{simulation_after_cue, simulation_link_at_cue};

    /// Creates a target before its first line reset, with this device behind its access port, such as a [`Memory`].
    pub fn new(device: D, quirks: Quirks, plan: Vec<Mark, A>) -> Bench<D, A>
        requires { IsLegalPlan plan.items }
        ensures port { bench_port D.bus result ≡ port_made 0x2ba0_1477 (D.bus device) }
        ensures exact { bench_simulation D.bus result ≡ simulation_made_with quirks (D.bus device) }
        ensures plan { bench_plan result ≡ plan.items }
    {
        Bench {
            target: Target::new(device, quirks),
            due: Due::Nothing,
            line: AfterAck::Idle,
            plan: Plan::new(plan),
        }
    }

    /// Completes the pending DRW transfer, if any. Without the quirk `late` no transfer is ever pending.
    pub fn settle(&mut self)
        ensures port { bench_port D.bus self.new ≡ port_completed (bench_choice self.old) (bench_port D.bus self.old) }
        ensures choice { IsPortChoice (bench_choice self.old) }
        ensures exact { bench_simulation D.bus self.new ≡ simulation_transferred (bench_simulation D.bus self.old) }
        ensures plan { bench_plan self.new ≡ bench_plan self.old }
    {
        self.target.complete();
    }

    /// Returns the device behind the access port.
    pub fn device(&self) -> &D
        ensures { (bench_port D.bus self.now).target.memory ≡ D.bus result.now }
    {
        self.target.device()
    }

    // Performs a line reset if there are ones. Neither the sixteen bits of the switch nor zeros change the target.
    pub(crate) fn lead_now(&mut self, ones: u32)
        ensures now { PortLeadsNow (bench_port D.bus self.old) ones (bench_port D.bus self.new) }
        ensures exact { bench_simulation D.bus self.new
            ≡ simulation_led ones (bench_link self.old) (bench_simulation D.bus self.old) }
        ensures plan { bench_plan self.new ≡ bench_plan self.old }
    {
        self.due = Due::Nothing;
        if ones > 0 {
            self.target.line_reset(is_awaiting(self.line));
            self.line = AfterAck::Idle;
        }
    }

    // Gives up the pending write, if the next request can't wait for it and the target sees it. Returns whether it did.
    pub(crate) fn give_up_before(&mut self, request: Request) -> bool
        ensures gives { (n : PortTally) → PortKeepsOrGivesUp (bench_next_mark self.old) request
            (target_port_at (bench_link self.old) n (target_state D.bus self.old.target))
            (target_port_at (bench_link self.old) (tally_given result n) (target_state D.bus self.new.target)) }
        ensures exact { bench_simulation D.bus self.new
            ≡ simulation_giving (bench_next_mark self.old) request (bench_simulation D.bus self.old) }
        ensures link { bench_link self.new ≡ bench_link self.old }
        ensures tally { bench_tally self.new ≡ bench_tally self.old }
        ensures plan { bench_plan self.new ≡ bench_plan self.old }
    {
        self.target.give_up_before(self.plan.next_mark(), request)
    }

    // Performs a request under the next mark.
    #[inline(always)]
    pub(crate) fn ask_now(&mut self, request: Request) -> u8
        requires { (bench_port D.bus self.old).link.due ≡ Nothing }
        ensures range { result < 8 }
        ensures step { PortAsks (bench_port D.bus self.old) request result (bench_port D.bus self.new) }
        ensures any { (n : PortTally) → TargetAsksUnder (bench_next_mark self.old)
            (target_port_at (bench_link self.old) n (target_state D.bus self.old.target)) request result
            (target_port_at (bench_link self.new) (port_tally_after (bench_next_mark self.old) n)
            (target_state D.bus self.new.target)) }
        ensures sees { result ≡ simulation_seen_at_cue (bench_next_mark self.old) (Ask request) (bench_link self.old)
            (bench_simulation D.bus self.old) }
        ensures exact { bench_simulation D.bus self.new
            ≡ simulation_after_cue (bench_next_mark self.old) (Ask request) (bench_link self.old)
            (bench_simulation D.bus self.old) }
        ensures link { bench_link self.new
            ≡ simulation_link_at_cue (bench_next_mark self.old) (Ask request) (bench_link self.old)
            (bench_simulation D.bus self.old) }
        ensures tally { bench_tally self.new ≡ port_tally_after (bench_next_mark self.old) (bench_tally self.old) }
        ensures plan { bench_plan self.new ≡ bench_plan self.old }
    {
        let mark = self.plan.use_mark();
        let (reply, phase) = self.target.request_under(mark, request);
        let seen = seen_under(mark, reply);
        self.due = Due::after(request.read, seen);
        enter_phase(&mut self.line, reply, phase);
        seen
    }

    // Returns the data phase of a read.
    #[inline(always)]
    pub(crate) fn take_now(&mut self) -> u64
        requires { (bench_port D.bus self.old).link.due ≡ Take }
        ensures range { result < 2 ^ 33 }
        ensures step { PortTakes (bench_port D.bus self.old) result (bench_port D.bus self.new) }
        ensures now { PortTakesNow (bench_port D.bus self.old) result (bench_port D.bus self.new) }
        ensures exact { bench_simulation D.bus self.new ≡ bench_simulation D.bus self.old }
        ensures plan { bench_plan self.new ≡ bench_plan self.old }
    {
        let bits = bits_on(self.line);
        self.due = Due::Nothing;
        self.line = AfterAck::Idle;
        bits
    }

    // Takes the data phase of a write.
    #[inline(always)]
    pub(crate) fn give_now(&mut self, bits: u64)
        requires due { (bench_port D.bus self.old).link.due ≡ Give }
        requires range { bits < 2 ^ 33 }
        ensures step { PortGives (bench_port D.bus self.old) bits (bench_port D.bus self.new) }
        ensures any { (n : PortTally) → PortGives
            (target_port_at (bench_link self.old) n (target_state D.bus self.old.target)) bits
            (target_port_at port_idle_link n (target_state D.bus self.new.target)) }
        ensures link { bench_link self.new ≡ port_idle_link }
        ensures tally { bench_tally self.new ≡ bench_tally self.old }
        ensures exact { bench_simulation D.bus self.new
            ≡ simulation_given bits (bench_link self.old) (bench_simulation D.bus self.old) }
        ensures plan { bench_plan self.new ≡ bench_plan self.old }
    {
        self.target.arrive_on(self.line, bits);
        self.due = Due::Nothing;
        self.line = AfterAck::Idle;
    }

    // Passes the turnaround after WAIT or FAULT, which doesn't change the target.
    #[inline(always)]
    pub(crate) fn pass_now(&mut self)
        requires { (bench_port D.bus self.old).link.due ≡ Pass }
        ensures step { PortPasses (bench_port D.bus self.old) (bench_port D.bus self.new) }
        ensures now { PortPassesNow (bench_port D.bus self.old) (bench_port D.bus self.new) }
        ensures exact { bench_simulation D.bus self.new ≡ bench_simulation D.bus self.old }
        ensures plan { bench_plan self.new ≡ bench_plan self.old }
    {
        self.due = Due::Nothing;
    }
}

impl<M: Allocator, A: Allocator> Bench<Memory<M>, A> {
    ghost use Rattle.swd_target.specs.Benches.{bench_port};

    /// Returns the memory behind the access port.
    pub fn memory(&self) -> &Memory<M>
        ensures { (bench_port bus_of self.now).target.memory ≡ bus_of result.now }
    {
        self.target.memory()
    }
}

impl<D: Device, A: Allocator> Wire for Bench<D, A> {
    ghost use Rattle.swd_target.specs.Benches.{bench_port, bench_link, bench_tally, bench_simulation, bench_plan};
    ghost use Rattle.swd_target.specs.Benches.{bench_next_mark};
    ghost use Rattle.swd_target.specs.Stepping.{simulation_seen_at_cue, simulation_after_cue, simulation_link_at_cue};
    ghost use Rattle.swd_target.specs.Stepping.{simulation_tally_at_cue, TargetStepsAlone};

    ghost port = { bench_port D.bus };

    ghost plan = { bench_plan };

    fn due(&self) -> Due {
        self.due
    }

    /// Performs the cue. The n-th request uses the n-th mark of the plan, or `Clean` after its end.
    #[inline(always)]
    fn step(&mut self, cue: Cue) -> u64
        requires { PortMayStep (bench_port D.bus self.old).link.due cue }
        ensures seen { IsPortSeen cue result }
        ensures step { IsPortStep cue result (bench_port D.bus self.old) (bench_port D.bus self.new) }
        ensures alone { TargetStepsAlone cue result (bench_port D.bus self.old) (bench_port D.bus self.new) }
        ensures sees { result ≡ simulation_seen_at_cue (bench_next_mark self.old) cue (bench_link self.old)
            (bench_simulation D.bus self.old) }
        ensures exact { bench_simulation D.bus self.new
            ≡ simulation_after_cue (bench_next_mark self.old) cue (bench_link self.old)
            (bench_simulation D.bus self.old) }
        ensures link { bench_link self.new
            ≡ simulation_link_at_cue (bench_next_mark self.old) cue (bench_link self.old)
            (bench_simulation D.bus self.old) }
        ensures tally { bench_tally self.new
            ≡ simulation_tally_at_cue (bench_next_mark self.old) cue (bench_tally self.old) }
        ensures plan { bench_plan self.new ≡ bench_plan self.old }
    {
        match cue {
            Cue::Lead { ones, .. } => self.lead_now(ones),
            Cue::Ask(request) => return u64::from(self.ask_now(request)),
            Cue::Take => return self.take_now(),
            Cue::Give(bits) => self.give_now(bits),
            Cue::Pass => self.pass_now(),
        }
        0
    }
}
