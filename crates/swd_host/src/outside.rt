//! A run over a transport of which nothing is proved.
ghost use Rattle.std.specs.Prelude.{◌≡◌, ◌≤◌, [], IfErr, IfOk, length};
ghost use Rattle.swd_port.specs.Outside.{wire_calls};
ghost use Rattle.swd_port.specs.Stories.{port_due_by, port_at, FitsStory};
ghost use Rattle.swd_host.specs.Plain.{AreHostAccesses};
ghost use Rattle.swd_host.specs.declared.task.Bursts.TheVariants.{Writes};
ghost use Rattle.swd_host.specs.Reports.{Closes, HostRefusesList, RunsOver, host_report_of};
ghost use Rattle.swd_host.specs.Sent.{HostReportsCalls};

use crate::outcome::{Refused, Report};
use crate::running::run;
use std::alloc::Allocator;
use swd_port::{Access, Story, Tie, Transport, TransportWire};

/// Performs the accesses in order, over a wire of which no call was made yet.
///
/// Whatever comes back, the run ends within the bounds of [`run`], unless the transport blocks, and its report matches
/// the calls that the wire recorded. The number of requests is exact, and the calls have each answer's access and what
/// confirmed it. For every [`Story`] with which the replies are consistent, a sequence of model states, the report is
/// as [`run`] promises.
///
/// # Errors
///
/// Returns `TooMany`, `Unaligned` and `Memory` as [`run`] does. No call is made in these cases.
pub fn run_over_transport<T: Transport, S: Story, K: Tie, A: Allocator>(
    alloc: A,
    wire: &mut TransportWire<T, S, K>,
    accesses: &[Access],
    tries: u32,
) -> Result<Report<A>, Refused>
    requires { wire_calls wire.old ≡ [] }
    ensures closes { IfOk result (λ report.
        Closes 0 Writes accesses.now tries (host_report_of report) (port_due_by (wire_calls wire.new))) }
    ensures fits { IfOk result (λ report. FitsStory S.at (wire_calls wire.new)
        → RunsOver accesses.now tries (host_report_of report) (port_at S.at []) (port_at S.at (wire_calls wire.new))) }
    ensures told { IfOk result (λ report. HostReportsCalls accesses.now (host_report_of report) (wire_calls wire.new)) }
    ensures accepted { IfOk result (λ report. (length accesses.now ≤ 65536) × AreHostAccesses accesses.now) }
    ensures refused { IfErr result (HostRefusesList accesses.now) }
    ensures untouched { IfErr result (λ refused. wire.new ≡ wire.old) }
{
    run(alloc, wire, accesses, tries)
}
