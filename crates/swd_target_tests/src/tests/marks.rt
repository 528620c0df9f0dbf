//! Plans of a clocked bench.
ghost use Rattle.std.specs.Prelude.{IsTrue};
ghost use Rattle.swd_target.specs.Marks.{IsLegalPlan};

use super::expect::expect_eq;
use std::alloc::Global;
use std::test::Fail;
use swd_bits::word_of;
use swd_clocked::ClockedBench;
use swd_port::{Due, Register, Wire};
use swd_target::{Mark, Memory, Quirks};

/// Each mark is legal.
pub(super) fn are_legal(marks: &[Mark]) -> bool
    ensures { IsTrue result → IsLegalPlan marks.now }
{
    marks.iter().all(|mark| mark.legal())
}

// A bench with one word, under this plan. None where a mark isn't legal, or when out of memory.
fn bench_of(alloc: Global, plan: Vec<Mark>) -> Option<ClockedBench<Memory>> {
    if !are_legal(&plan) {
        return None;
    }
    let quirks = Quirks {
        wrap: true,
        late: false,
        filler: 0,
        idr: None,
    };
    let memory = Memory::new(alloc, 0x2000_0000, 1, 0).ok()?;
    ClockedBench::new(alloc, memory, quirks, plan).ok()
}

fn reset(bench: &mut ClockedBench<Memory>) {
    if bench.due() == Due::Nothing {
        bench.lead(56, false, 2);
    }
}

// What DPIDR reads. None where it isn't answered OK, or its data is damaged.
fn identification(bench: &mut ClockedBench<Memory>) -> Option<u32> {
    if bench.due() != Due::Nothing {
        return None;
    }
    let _ = bench.ask(Register::DpidrRead.request());
    match bench.due() {
        Due::Take => word_of(bench.take()),
        _ => None,
    }
}

// Each of many requests meets the mark of its number.
#[test]
fn the_last_of_many_marks_is_met(rt: HostRuntime) -> Result<(), Fail> {
    let mut plan = vec![in rt.alloc(); Mark::Wait; 70_000]?;
    plan.push(Mark::Flip(32))?;
    plan.push(Mark::Mute(0))?;
    let Some(mut bench) = bench_of(rt.alloc(), plan) else {
        panic!(rt; "no bench");
    };
    reset(&mut bench);
    for _ in 0..70_000u32 {
        expect_eq(&rt, &identification(&mut bench), &Some(0x2ba0_1477));
    }
    expect_eq(&rt, &identification(&mut bench), &None);
    expect_eq(&rt, &bench.due(), &Due::Nothing);
    expect_eq(&rt, &identification(&mut bench), &None);
    expect_eq(&rt, &bench.due(), &Due::Lost);
    Ok(())
}
