//! Laws of the clocked target and its bench. A function here does nothing: its contract is the law.
ghost use Rattle.std.specs.Prelude.{◌≡◌, ◌≤◌};
ghost use Rattle.swd_port.specs.MarkCounts.{port_disturbed_among, port_lost_among};
ghost use Rattle.swd_clocked.specs.declared.clocked_bench.ClockedBench.{ClockedBench};
ghost use Rattle.swd_clocked.specs.ClockedBenches.{clocked_bench_port, clocked_bench_plan, clocked_bench_marks};
ghost use Rattle.swd_clocked.specs.ClockedBenches.{clocked_bench_contended};
ghost use Rattle.swd_clocked.specs.Spelled.{RequestsSpell, OnesReset};

use crate::clocked_bench::ClockedBench;
use std::alloc::Allocator;
use swd_port::Wire;
use swd_target::Device;

/// States that a bench counts disturbed and lost requests by the marks that it used. So each count is at most that of
/// its whole plan.
pub fn marks_used<D: Device, A: Allocator>()
    ensures disturbed { (b : ClockedBench D A)
        → (clocked_bench_port D.bus b).tally.disturbed ≡ port_disturbed_among (clocked_bench_marks b) }
    ensures lost { (b : ClockedBench D A)
        → (clocked_bench_port D.bus b).tally.lost ≡ port_lost_among (clocked_bench_marks b) }
    ensures disturbed_most { (b : ClockedBench D A)
        → (clocked_bench_port D.bus b).tally.disturbed ≤ port_disturbed_among (clocked_bench_plan b) }
    ensures lost_most { (b : ClockedBench D A)
        → (clocked_bench_port D.bus b).tally.lost ≤ port_lost_among (clocked_bench_plan b) }
{}

/// States that a bench never drives the line as host where it should release it, after any calls and under any plan. So
/// host and target never drive it in the same cycle, and nobody drives it in a turnaround.
pub fn never_contended<D: Device, A: Allocator>()
    ensures { (b : ClockedBench D A) → clocked_bench_contended b ≡ 0 }
{}

/// States that a request sent between transactions and the cycles after it spell one transaction on the line (IHI 0031,
/// B4). It has the request, the acknowledgement that the port model replies, and the data phase. In the cycles after
/// the request the host drives nothing but a write's data.
pub fn requests_spell<D: Device>()
    ensures { RequestsSpell D.bus }
{}

/// States that fifty ones, driven or not, are a line reset, between transactions and where the target awaits one.
pub fn ones_reset<D: Device>()
    ensures { OnesReset D.bus }
{}

/// States that a bench is always lawful. So the contracts of a run that assume `lawful` hold over a bench
/// unconditionally.
pub fn always_lawful<D: Device, A: Allocator>()
    ensures { (b : ClockedBench D A) → ⟦<ClockedBench<D, A> as Wire>⟧.lawful b }
{}
