//! A simulated target whose debug port has a write buffer.
ghost use Rattle.std.specs.Prelude.{◌≡◌, ◌<◌};
ghost use Rattle.swd_port.specs.declared.cue.Cue.TheVariants.{Ask};
ghost use Rattle.swd_port.specs.declared.wire.Due.TheVariants.{Nothing};
ghost use Rattle.swd_port.specs.Steps.{PortMayStep, IsPortSeen, IsPortStep};
ghost use Rattle.swd_port.specs.Made.{port_made};
ghost use Rattle.swd_port.specs.PlainBus.{bus_of};
ghost use Rattle.swd_port.specs.Choices.{IsPortChoice};
ghost use Rattle.swd_port.specs.Completion.{port_completed};
ghost use Rattle.swd_port.specs.Asking.{PortAsks, PortKeepsOrGivesUp};
ghost use Rattle.swd_target.specs.Marks.{IsLegalPlan};
ghost use Rattle.swd_target.specs.Simulations.{simulation_made_with, simulation_transferred};

use crate::bench::Bench;
use crate::device::Device;
use crate::memory::Memory;
use crate::quirks::Quirks;
use std::alloc::{Allocator, Global};
use swd_bits::Request;
use swd_port::{Count, Cue, Due, Mark, Wire};

/// A [`Bench`] whose debug port gives up a write that it accepted, where it is still pending and a request comes that
/// can't wait for it: a read of DPIDR or CTRL/STAT, or a write of ABORT. The write reaches no bus, and WDATAERR is set.
/// Only with the quirk `late` a write is pending behind its request.
#[derive(Debug, Drop)]
pub struct BufferedBench<D, A: Allocator = Global> {
    bench: Bench<D, A>,
    // How many writes were given up, for contracts alone.
    given_up: Count,
}

impl<D: Device, A: Allocator> BufferedBench<D, A> {
    ghost use Rattle.swd_target.specs.Buffered.{buffered_port, buffered_simulation, buffered_plan};
    ghost use Rattle.swd_target.specs.Buffered.{buffered_choice, buffered_link, buffered_next_mark};
    ghost use Rattle.swd_target.specs.Giving.{simulation_giving};
    ghost use Rattle.swd_target.specs.Stepping.{simulation_seen_at_cue, simulation_after_cue, simulation_link_at_cue};

    /// Creates a target before its first line reset, with this device behind its access port.
    pub fn new(device: D, quirks: Quirks, plan: Vec<Mark, A>) -> BufferedBench<D, A>
        requires { IsLegalPlan plan.items }
        ensures port { buffered_port D.bus result ≡ port_made 0x2ba0_1477 (D.bus device) }
        ensures exact { buffered_simulation D.bus result ≡ simulation_made_with quirks (D.bus device) }
        ensures plan { buffered_plan result ≡ plan.items }
    {
        BufferedBench {
            bench: Bench::new(device, quirks, plan),
            given_up: Count::new(),
        }
    }

    /// Completes the pending DRW transfer, if any.
    pub fn settle(&mut self)
        ensures port { buffered_port D.bus self.new
            ≡ port_completed (buffered_choice self.old) (buffered_port D.bus self.old) }
        ensures choice { IsPortChoice (buffered_choice self.old) }
        ensures exact { buffered_simulation D.bus self.new
            ≡ simulation_transferred (buffered_simulation D.bus self.old) }
        ensures plan { buffered_plan self.new ≡ buffered_plan self.old }
    {
        self.bench.settle();
    }

    /// Returns the device behind the access port.
    pub fn device(&self) -> &D
        ensures { (buffered_port D.bus self.now).target.memory ≡ D.bus result.now }
    {
        self.bench.device()
    }

    // Gives up the pending write, if the next request can't wait for it and the target sees it.
    fn give_up_before(&mut self, request: Request)
        ensures gives { PortKeepsOrGivesUp (buffered_next_mark self.old) request (buffered_port D.bus self.old)
            (buffered_port D.bus self.new) }
        ensures exact { buffered_simulation D.bus self.new
            ≡ simulation_giving (buffered_next_mark self.old) request (buffered_simulation D.bus self.old) }
        ensures link { buffered_link self.new ≡ buffered_link self.old }
        ensures mark { buffered_next_mark self.new ≡ buffered_next_mark self.old }
        ensures plan { buffered_plan self.new ≡ buffered_plan self.old }
    {
        if self.bench.give_up_before(request) {
            self.given_up.tick();
        }
    }

    // Performs a request under the next mark.
    fn ask_now(&mut self, request: Request) -> u8
        requires { (buffered_port D.bus self.old).link.due ≡ Nothing }
        ensures range { result < 8 }
        ensures step { PortAsks (buffered_port D.bus self.old) request result (buffered_port D.bus self.new) }
        ensures sees { result ≡ simulation_seen_at_cue (buffered_next_mark self.old) (Ask request)
            (buffered_link self.old)
            (simulation_giving (buffered_next_mark self.old) request (buffered_simulation D.bus self.old)) }
        ensures exact { buffered_simulation D.bus self.new
            ≡ simulation_after_cue (buffered_next_mark self.old) (Ask request) (buffered_link self.old)
            (simulation_giving (buffered_next_mark self.old) request (buffered_simulation D.bus self.old)) }
        ensures link { buffered_link self.new
            ≡ simulation_link_at_cue (buffered_next_mark self.old) (Ask request) (buffered_link self.old)
            (simulation_giving (buffered_next_mark self.old) request (buffered_simulation D.bus self.old)) }
        ensures plan { buffered_plan self.new ≡ buffered_plan self.old }
    {
        self.give_up_before(request);
        self.bench.ask_now(request)
    }
}

impl<M: Allocator, A: Allocator> BufferedBench<Memory<M>, A> {
    ghost use Rattle.swd_target.specs.Buffered.{buffered_port};

    /// Returns the memory behind the access port.
    pub fn memory(&self) -> &Memory<M>
        ensures { (buffered_port bus_of self.now).target.memory ≡ bus_of result.now }
    {
        self.bench.memory()
    }
}

impl<D: Device, A: Allocator> Wire for BufferedBench<D, A> {
    ghost use Rattle.swd_target.specs.Buffered.{buffered_port, buffered_simulation, buffered_plan};
    ghost use Rattle.swd_target.specs.Buffered.{buffered_link, buffered_next_mark, simulation_giving_at_cue};
    ghost use Rattle.swd_target.specs.Stepping.{simulation_seen_at_cue, simulation_after_cue, simulation_link_at_cue};

    ghost port = { buffered_port D.bus };

    ghost plan = { buffered_plan };

    fn due(&self) -> Due {
        self.bench.due()
    }

    /// Performs the cue. The n-th request uses the n-th mark of the plan, or `Clean` after its end.
    fn step(&mut self, cue: Cue) -> u64
        requires { PortMayStep (buffered_port D.bus self.old).link.due cue }
        ensures seen { IsPortSeen cue result }
        ensures step { IsPortStep cue result (buffered_port D.bus self.old) (buffered_port D.bus self.new) }
        ensures sees { result ≡ simulation_seen_at_cue (buffered_next_mark self.old) cue (buffered_link self.old)
            (simulation_giving_at_cue (buffered_next_mark self.old) cue (buffered_simulation D.bus self.old)) }
        ensures exact { buffered_simulation D.bus self.new
            ≡ simulation_after_cue (buffered_next_mark self.old) cue (buffered_link self.old)
            (simulation_giving_at_cue (buffered_next_mark self.old) cue (buffered_simulation D.bus self.old)) }
        ensures link { buffered_link self.new
            ≡ simulation_link_at_cue (buffered_next_mark self.old) cue (buffered_link self.old)
            (simulation_giving_at_cue (buffered_next_mark self.old) cue (buffered_simulation D.bus self.old)) }
        ensures plan { buffered_plan self.new ≡ buffered_plan self.old }
    {
        match cue {
            Cue::Lead { ones, .. } => self.bench.lead_now(ones),
            Cue::Ask(request) => return u64::from(self.ask_now(request)),
            Cue::Take => return self.bench.take_now(),
            Cue::Give(bits) => self.bench.give_now(bits),
            Cue::Pass => self.bench.pass_now(),
        }
        0
    }
}
