//! Out of memory: a clocked bench.
use super::expect::expect_eq;
use super::marks::are_legal;
use linked_list_allocator::LocalHeap;
use std::alloc::Allocator;
use std::process::Abort;
use std::test::Fail;
use swd_bits::data_bits;
use swd_clocked::ClockedBench;
use swd_port::{Register, Transfer};
use swd_target::port::Target;
use swd_target::{Mark, Memory, Quirks};

const BASE: u32 = 0x2000_0000;

const WORD: u32 = 0xdead_beef;

const QUIRKS: Quirks = Quirks {
    wrap: true,
    late: false,
    filler: 0,
    idr: None,
};

const MARKS: &[Mark] = &[Mark::Wait, Mark::Flip(32), Mark::Mute(2)];

// Sixteen words from 20000000, the first of them written. None when out of memory.
fn written<A: Allocator + Copy>(alloc: A) -> Option<Memory<A>> {
    let memory = Memory::new(alloc, BASE, 16, 16).ok()?;
    let mut target = Target::new(memory, QUIRKS);
    target.arrive(Register::TarWrite, data_bits(BASE));
    target.arrive(Register::DrwWrite, data_bits(WORD));
    Some(target.into_memory())
}

const WORDS: &[(u32, Option<u32>)] = &[
    (BASE, Some(WORD)),
    (0x2000_003c, Some(0)),
    (0x2000_0040, None),
];

fn is_written<R: Abort, A: Allocator>(rt: &R, memory: &Memory<A>) {
    let log = [Transfer {
        read: false,
        addr: BASE,
        word: WORD,
    }];
    expect_eq(rt, &memory.log(), &log.as_slice());
    for (addr, word) in WORDS {
        expect_eq(rt, &memory.word(*addr), word);
    }
}

#[test]
fn memory_and_plan_come_back(rt: HostRuntime) -> Result<(), Fail> {
    let mut refused = 0u32;
    let mut made = 0u32;
    for size in 1..80usize {
        let heap = LocalHeap::new(rt.alloc(), size * 16)?;
        let Some(memory) = written(&heap) else {
            continue;
        };
        let Ok(plan) = Vec::from_slice(&heap, MARKS) else {
            continue;
        };
        assert!(rt; are_legal(&plan));
        match ClockedBench::new(&heap, memory, QUIRKS, plan) {
            Ok(bench) => {
                is_written(&rt, bench.memory());
                expect_eq(&rt, &bench.cycles(), &0);
                made = made.saturating_add(1);
            }
            Err((memory, plan)) => {
                is_written(&rt, &memory);
                expect_eq(&rt, &plan.as_slice(), &MARKS);
                refused = refused.saturating_add(1);
            }
        }
    }
    assert!(rt; refused > 3);
    assert!(rt; made > 3);
    Ok(())
}
