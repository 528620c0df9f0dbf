//! Laws of the bench and of peripherals. A function here does nothing: its contract is the law.
ghost use Rattle.std.specs.Prelude.{◌≡◌, ◌≤◌, List};
ghost use Rattle.swd_port.specs.declared.access.Access.{Access};
ghost use Rattle.swd_port.specs.declared.access.Transfer.{Transfer};
ghost use Rattle.swd_port.specs.Bus.{bus_after, bus_log_after};
ghost use Rattle.swd_port.specs.PlainBus.{bus_of};
ghost use Rattle.swd_port.specs.MarkCounts.{port_disturbed_among, port_lost_among};
ghost use Rattle.swd_port.specs.PlainMemory.{PlainMemory};
ghost use Rattle.swd_target.specs.declared.bench.Bench.{Bench};
ghost use Rattle.swd_target.specs.Benches.{bench_device, bench_port, bench_plan, bench_marks_used};
ghost use Rattle.swd_target.specs.Devices.{bus_by};

use crate::bench::Bench;
use crate::device::Device;
use crate::peripheral::Peripheral;
use std::alloc::Allocator;
use swd_port::Wire;

/// States that a bench counts disturbed and lost requests by the marks that it used. So each count is at most that of
/// its whole plan.
pub fn marks_used<D: Device, A: Allocator>()
    ensures disturbed { (b : Bench D A) → (bench_port D.bus b).tally.disturbed
        ≡ port_disturbed_among (bench_marks_used b) }
    ensures lost { (b : Bench D A) → (bench_port D.bus b).tally.lost ≡ port_lost_among (bench_marks_used b) }
    ensures disturbed_most { (b : Bench D A) → (bench_port D.bus b).tally.disturbed
        ≤ port_disturbed_among (bench_plan b) }
    ensures lost_most { (b : Bench D A) → (bench_port D.bus b).tally.lost ≤ port_lost_among (bench_plan b) }
{}

/// States that a bench is always lawful. So the contracts of a run that assume `lawful` hold over a bench
/// unconditionally.
pub fn always_lawful<D: Device, A: Allocator>()
    ensures { (b : Bench D A) → ⟦<Bench<D, A> as Wire>⟧.lawful b }
{}

/// States that the state of the port model determines the memory behind a bench. So a contract that speaks of that
/// state alone says all of the memory.
pub fn memories<A: Allocator>()
    ensures { (b : Bench PlainMemory A) (c : Bench PlainMemory A) → bench_port bus_of b ≡ bench_port bus_of c
        → bench_device b ≡ bench_device c }
{}

/// States that a peripheral's bus after an access is the bus of the peripheral after this access, with the entry of an
/// access that succeeds at the end of the log.
pub fn peripherals<P: Peripheral>()
    ensures { (a : Access) (log : List Transfer) (s : P) → bus_after a (bus_by P.answer P.after log s)
        ≡ bus_by P.answer P.after (bus_log_after a (bus_by P.answer P.after log s)) (P.after a s) }
{}
