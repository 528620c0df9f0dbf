//! A simulated target, clock by clock, as a wire with a plan of fault injections.
ghost use Rattle.swd_port.specs.PlainBus.{bus_of};
ghost use Rattle.std.specs.Prelude.{◌≡◌, ◌<◌, ◌^◌, true, IfOk, IfErr};
ghost use Rattle.swd_port.specs.declared.wire.Due.TheVariants.{Nothing, Take, Give, Pass};
ghost use Rattle.swd_port.specs.Port.{port_idle_link};
ghost use Rattle.swd_port.specs.Made.{port_made};
ghost use Rattle.swd_port.specs.Completion.{port_completed};
ghost use Rattle.swd_port.specs.Asking.{PortAsks, port_tally_after};
ghost use Rattle.swd_port.specs.Leading.{PortMayLead, MayRelease, PortLeadsNow};
ghost use Rattle.swd_port.specs.Steps.{PortMayStep, IsPortSeen, IsPortStep};
ghost use Rattle.swd_port.specs.declared.cue.Cue.TheVariants.{Ask};
ghost use Rattle.swd_port.specs.Moving.{PortTakesNow, PortGives, PortPassesNow};
ghost use Rattle.swd_target.specs.Marks.{IsLegalPlan};
ghost use Rattle.swd_target.specs.Simulations.{simulation_made_with, simulation_transferred};
ghost use Rattle.swd_target.specs.Stepping.{simulation_led, simulation_given, simulation_seen_at_cue};
ghost use Rattle.swd_target.specs.Stepping.{simulation_after_cue, simulation_link_at_cue, simulation_tally_at_cue};
ghost use Rattle.swd_target.specs.Stepping.{TargetStepsAlone};
ghost use Rattle.swd_port.specs.Choices.{IsPortChoice};
ghost use Rattle.swd_clocked.specs.Frames.{cycles_counted};
ghost use Rattle.swd_clocked.specs.Rests.{frame_fits_due};

use crate::marked::FaultyClocked;
use std::alloc::{Allocator, Global};
use swd_bits::Request;
use swd_port::{Cue, Due, Mark, Wire};
use swd_target::{Device, Memory, Quirks};

/// A [`FaultyClocked`] as a [`Wire`], which performs each call by the target's cycles alone. Each request uses the next
/// mark of the plan; after its end all marks are `Clean`.
///
/// It behaves exactly like a `swd_target::Bench` with the same device, quirks and plan.
///
/// ```ignore
/// let memory = Memory::new(alloc, 0x2000_0000, 16, 16)?;
/// let mut bench = ClockedBench::new(alloc, memory, quirks, Vec::new(alloc))?;
/// bench.lead(56, true, 2);
/// bench.ask(Register::DpidrRead.request()); // 1: OK, and a data phase is due
/// bench.cycles(); // 142
/// ```
#[derive(Debug, Drop)]
pub struct ClockedBench<D, A: Allocator = Global> {
    marked: Box<FaultyClocked<D, A>, A>,
    due: Due,
    ghost resting: { frame_fits_due due marked.value.clocked.frame ≡ true },
    ghost heard: { marked.value.unseen ≡ 0 },
    ghost uncontended: { marked.value.clocked.contended.ticks ≡ 0 },
}

impl<D: Device, A: Allocator> ClockedBench<D, A> {
    ghost use Rattle.swd_clocked.specs.ClockedBenches.{clocked_bench_port, clocked_bench_link, clocked_bench_tally};
    ghost use Rattle.swd_clocked.specs.ClockedBenches.{clocked_bench_simulation, clocked_bench_plan};
    ghost use Rattle.swd_clocked.specs.ClockedBenches.{clocked_bench_next_mark, clocked_bench_device};
    ghost use Rattle.swd_clocked.specs.ClockedBenches.{clocked_bench_choice, clocked_bench_cycles, lead_cycles};

    /// Creates a clocked target before its first line reset, with this device behind its access port.
    ///
    /// # Errors
    ///
    /// Returns the device and the plan if out of memory.
    pub fn new(
        alloc: A,
        device: D,
        quirks: Quirks,
        plan: Vec<Mark, A>,
    ) -> Result<ClockedBench<D, A>, (D, Vec<Mark, A>)>
        requires { IsLegalPlan plan.items }
        ensures port { IfOk result (λ b. clocked_bench_port D.bus b ≡ port_made 0x2ba0_1477 (D.bus device)) }
        ensures exact { IfOk result (λ b. clocked_bench_simulation D.bus b
            ≡ simulation_made_with quirks (D.bus device)) }
        ensures plan { IfOk result (λ b. clocked_bench_plan b ≡ plan.items) }
        ensures cycles { IfOk result (λ b. clocked_bench_cycles b ≡ 0) }
        ensures handed_back { IfErr result (λ e. (e.0 ≡ device) × (e.1.items ≡ plan.items)) }
    {
        match Box::new(alloc, FaultyClocked::new(device, quirks, plan)) {
            Ok(marked) => Ok(ClockedBench {
                marked,
                due: Due::Nothing,
            }),
            Err(refused) => Err(refused.value.into_parts()),
        }
    }

    /// Completes the pending DRW transfer, if any. Without the quirk `late` no transfer is ever pending.
    pub fn settle(&mut self)
        ensures port { clocked_bench_port D.bus self.new
            ≡ port_completed (clocked_bench_choice self.old) (clocked_bench_port D.bus self.old) }
        ensures choice { IsPortChoice (clocked_bench_choice self.old) }
        ensures exact { clocked_bench_simulation D.bus self.new
            ≡ simulation_transferred (clocked_bench_simulation D.bus self.old) }
        ensures plan { clocked_bench_plan self.new ≡ clocked_bench_plan self.old }
        ensures cycles { clocked_bench_cycles self.new ≡ clocked_bench_cycles self.old }
    {
        self.marked.settle();
    }

    /// Returns the device behind the access port.
    pub fn device(&self) -> &D
        ensures { result.now ≡ clocked_bench_device self.now }
    {
        self.marked.device()
    }

    /// Consumes the bench, and returns the device behind the access port.
    pub fn into_device(self) -> D
        ensures { result ≡ clocked_bench_device self }
    {
        Box::into_inner(self.marked).into_device()
    }

    /// Returns the number of cycles so far, saturating at `u64::MAX`.
    pub fn cycles(&self) -> u64
        ensures { result ≡ clocked_bench_cycles self.now }
    {
        self.marked.cycles()
    }

    // Sends ones and zeros, cycle by cycle.
    fn lead_now(&mut self, ones: u32, undriven: u32, switch: bool, zeros: u32)
        requires leads { PortMayLead (clocked_bench_port D.bus self.old).link.due ones switch zeros }
        requires releases { MayRelease (clocked_bench_port D.bus self.old).link.due ones undriven }
        ensures now { PortLeadsNow (clocked_bench_port D.bus self.old) ones (clocked_bench_port D.bus self.new) }
        ensures exact { clocked_bench_simulation D.bus self.new
            ≡ simulation_led ones (clocked_bench_link self.old) (clocked_bench_simulation D.bus self.old) }
        ensures plan { clocked_bench_plan self.new ≡ clocked_bench_plan self.old }
        ensures cycles { clocked_bench_cycles self.new
            ≡ cycles_counted (lead_cycles ones switch zeros) (clocked_bench_cycles self.old) }
    {
        if ones > 0 {
            self.marked.send_reset(ones, undriven, switch);
        }
        self.marked.send_zeros(zeros);
        self.due = Due::Nothing;
    }

    // Performs a request under the next mark.
    fn ask_now(&mut self, request: Request) -> u8
        requires { (clocked_bench_port D.bus self.old).link.due ≡ Nothing }
        ensures range { result < 8 }
        ensures step { PortAsks (clocked_bench_port D.bus self.old) request result (clocked_bench_port D.bus self.new) }
        ensures sees { result ≡ simulation_seen_at_cue (clocked_bench_next_mark self.old) (Ask request)
            (clocked_bench_link self.old) (clocked_bench_simulation D.bus self.old) }
        ensures exact { clocked_bench_simulation D.bus self.new
            ≡ simulation_after_cue (clocked_bench_next_mark self.old) (Ask request) (clocked_bench_link self.old)
            (clocked_bench_simulation D.bus self.old) }
        ensures link { clocked_bench_link self.new
            ≡ simulation_link_at_cue (clocked_bench_next_mark self.old) (Ask request) (clocked_bench_link self.old)
            (clocked_bench_simulation D.bus self.old) }
        ensures tally { clocked_bench_tally self.new
            ≡ port_tally_after (clocked_bench_next_mark self.old) (clocked_bench_tally self.old) }
        ensures plan { clocked_bench_plan self.new ≡ clocked_bench_plan self.old }
        ensures cycles { clocked_bench_cycles self.new ≡ cycles_counted 12 (clocked_bench_cycles self.old) }
    {
        let seen = self.marked.ask_request(request);
        self.due = Due::after(request.read, seen);
        seen
    }

    // Returns the data phase of a read.
    fn take_now(&mut self) -> u64
        requires { (clocked_bench_port D.bus self.old).link.due ≡ Take }
        ensures range { result < 2 ^ 33 }
        ensures now { PortTakesNow (clocked_bench_port D.bus self.old) result (clocked_bench_port D.bus self.new) }
        ensures exact { clocked_bench_simulation D.bus self.new ≡ clocked_bench_simulation D.bus self.old }
        ensures plan { clocked_bench_plan self.new ≡ clocked_bench_plan self.old }
        ensures cycles { clocked_bench_cycles self.new ≡ cycles_counted 34 (clocked_bench_cycles self.old) }
    {
        let bits = self.marked.take_bits();
        self.due = Due::Nothing;
        bits
    }

    // Sends the data phase of a write.
    fn give_now(&mut self, bits: u64)
        requires due { (clocked_bench_port D.bus self.old).link.due ≡ Give }
        requires range { bits < 2 ^ 33 }
        ensures step { PortGives (clocked_bench_port D.bus self.old) bits (clocked_bench_port D.bus self.new) }
        ensures link { clocked_bench_link self.new ≡ port_idle_link }
        ensures tally { clocked_bench_tally self.new ≡ clocked_bench_tally self.old }
        ensures exact { clocked_bench_simulation D.bus self.new
            ≡ simulation_given bits (clocked_bench_link self.old) (clocked_bench_simulation D.bus self.old) }
        ensures plan { clocked_bench_plan self.new ≡ clocked_bench_plan self.old }
        ensures cycles { clocked_bench_cycles self.new ≡ cycles_counted 34 (clocked_bench_cycles self.old) }
    {
        self.marked.give_bits(bits);
        self.due = Due::Nothing;
    }

    // Passes the turnaround after WAIT or FAULT.
    fn pass_now(&mut self)
        requires { (clocked_bench_port D.bus self.old).link.due ≡ Pass }
        ensures now { PortPassesNow (clocked_bench_port D.bus self.old) (clocked_bench_port D.bus self.new) }
        ensures exact { clocked_bench_simulation D.bus self.new ≡ clocked_bench_simulation D.bus self.old }
        ensures plan { clocked_bench_plan self.new ≡ clocked_bench_plan self.old }
        ensures cycles { clocked_bench_cycles self.new ≡ cycles_counted 1 (clocked_bench_cycles self.old) }
    {
        self.marked.pass_by();
        self.due = Due::Nothing;
    }
}

impl<M: Allocator, A: Allocator> ClockedBench<Memory<M>, A> {
    ghost use Rattle.swd_clocked.specs.ClockedBenches.{clocked_bench_port};

    /// Returns the memory behind the access port.
    pub fn memory(&self) -> &Memory<M>
        ensures { (clocked_bench_port bus_of self.now).target.memory ≡ bus_of result.now }
    {
        self.device()
    }
}

impl<D: Device, A: Allocator> Wire for ClockedBench<D, A> {
    ghost use Rattle.swd_clocked.specs.ClockedBenches.{clocked_bench_port, clocked_bench_link, clocked_bench_tally};
    ghost use Rattle.swd_clocked.specs.ClockedBenches.{clocked_bench_simulation, clocked_bench_plan};
    ghost use Rattle.swd_clocked.specs.ClockedBenches.{clocked_bench_next_mark, clocked_bench_cycles, cycles_of_cue};

    ghost port = { clocked_bench_port D.bus };

    ghost plan = { clocked_bench_plan };

    fn due(&self) -> Due {
        self.due
    }

    /// Performs the cue. The n-th request uses the n-th mark of the plan, or `Clean` after its end.
    #[inline(always)]
    fn step(&mut self, cue: Cue) -> u64
        requires { PortMayStep (clocked_bench_port D.bus self.old).link.due cue }
        ensures seen { IsPortSeen cue result }
        ensures step { IsPortStep cue result (clocked_bench_port D.bus self.old) (clocked_bench_port D.bus self.new) }
        ensures alone { TargetStepsAlone cue result (clocked_bench_port D.bus self.old)
            (clocked_bench_port D.bus self.new) }
        ensures sees { result ≡ simulation_seen_at_cue (clocked_bench_next_mark self.old) cue
            (clocked_bench_link self.old) (clocked_bench_simulation D.bus self.old) }
        ensures exact { clocked_bench_simulation D.bus self.new
            ≡ simulation_after_cue (clocked_bench_next_mark self.old) cue (clocked_bench_link self.old)
            (clocked_bench_simulation D.bus self.old) }
        ensures link { clocked_bench_link self.new
            ≡ simulation_link_at_cue (clocked_bench_next_mark self.old) cue (clocked_bench_link self.old)
            (clocked_bench_simulation D.bus self.old) }
        ensures tally { clocked_bench_tally self.new
            ≡ simulation_tally_at_cue (clocked_bench_next_mark self.old) cue (clocked_bench_tally self.old) }
        ensures plan { clocked_bench_plan self.new ≡ clocked_bench_plan self.old }
        ensures cycles { clocked_bench_cycles self.new
            ≡ cycles_counted (cycles_of_cue cue) (clocked_bench_cycles self.old) }
    {
        match cue {
            Cue::Lead {
                ones,
                undriven,
                switch,
                zeros,
            } => self.lead_now(ones, undriven, switch, zeros),
            Cue::Ask(request) => return u64::from(self.ask_now(request)),
            Cue::Take => return self.take_now(),
            Cue::Give(bits) => self.give_now(bits),
            Cue::Pass => self.pass_now(),
        }
        0
    }
}
