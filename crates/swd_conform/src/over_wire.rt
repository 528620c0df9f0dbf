//! A conformance run over a wire, and as a job over a line.
ghost use Rattle.std.specs.Prelude.{◌≡◌, ◌*◌, ◌<◌, ◌≤◌, true};
ghost use Rattle.swd_port.specs.Outside.{wire_calls};
ghost use Rattle.swd_port.specs.declared.wire.Due.TheVariants.{Nothing};
ghost use Rattle.swd_host.specs.Sent.{HostCalls};
ghost use Rattle.swd_conform.specs.Plans.{conform_steps_left};
ghost use Rattle.swd_conform.specs.Runs.{ConformCame, ConformGoes, ConformReports, conform_run_left};

use crate::plan::Plan;
use crate::run::{ConformRun, Conformed, REQUESTS_PER_STEP};
use std::alloc::Allocator;
use swd_check::Check;
use swd_port::{Story, Tied, Transport, TransportWire, Wire};
use swd_remote::LineJob;

/// Sends the steps of a plan to the target of a wire, up to the first item that breaks a rule. Returns what the check
/// says of the items that were sent and seen, in the words of [`Check::checked`]. A target in its reset state is what
/// `CheckStart::Made` is for.
///
/// It makes at most [`REQUESTS_PER_STEP`] requests for each step. It leaves out a request of a transfer that could be
/// at another address than that of one of the plan's words, or the one without memory.
pub fn conform<'a, W: Wire, A: Allocator + Copy>(
    wire: &mut W,
    plan: Plan<'a>,
    check: Check<A>,
) -> Conformed<'a>
    requires { (W.port wire.old).link.due ≡ Nothing }
    ensures reports { HostCalls W.notes (ConformReports plan.entry.bounds check result) wire.old wire.new }
    ensures bound { result.requests ≤ REQUESTS_PER_STEP * conform_steps_left plan.entry }
{
    let mut run = ConformRun::new(plan, check);
    'steps: loop {
        if !run.turn(wire) {
            return run.conformed();
        }
    }
}

// Over a line whose other end is gone nothing more is sent.
impl<'a, A: Allocator + Copy> LineJob for ConformRun<'a, A> {
    type Answer = Conformed<'a>;

    ghost came = { λ story old new answer calls. ConformCame old answer calls };

    fn perform<T: Transport, S: Story>(
        &mut self,
        wire: TransportWire<T, S, Tied>,
    ) -> (Conformed<'a>, TransportWire<T, S, Tied>) {
        let mut wire = wire;
        'steps: loop {
            if !turn_unless_gone(self, &mut wire) {
                return (self.conformed(), wire);
            }
        }
    }
}

// Sends the next step, unless the other end is gone. Returns whether another step follows.
fn turn_unless_gone<T: Transport, S: Story, A: Allocator + Copy>(
    run: &mut ConformRun<'_, A>,
    wire: &mut TransportWire<T, S, Tied>,
) -> bool
    ensures goes { ConformGoes (λ calls w. wire_calls w ≡ calls) wire.old run.old wire.new run.new }
    ensures falls { result ≡ true → conform_run_left run.new < conform_run_left run.old }
{
    if wire.is_gone() {
        return false;
    }
    run.turn(wire)
}
