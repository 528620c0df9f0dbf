//! Runs that are resumed at a lost acknowledgement.
use super::expect::{expect_eq, expect_eq_at};
use super::{ONE_WRITE, ended, reported};
use linked_list_allocator::LocalHeap;
use std::alloc::Allocator;
use std::test::Fail;
use swd_host::End;
use swd_run::{EngineFault, Finished, RunFault};

// The DRW request of a first access is the eleventh: nine requests are the opening's, and one is TAR's.
const LOST_WRITE: &[u8] = b".\n.\n.\n.\n.\n.\n.\n.\n.\n.\nmute 0\n";

// A write whose acknowledgement is lost, resumed at most so many times.
fn lost_write_on<A: Allocator + Copy>(
    alloc: A,
    resumes: u32,
    report: &mut Vec<u8>,
) -> Result<Finished, RunFault> {
    let script = b"memory 20000000 16\nroom 8\nw 20000000 deadbeef\n";
    reported(alloc, script, LOST_WRITE, resumes, report)
}

fn is_refused(answer: &Result<Finished, RunFault>) -> bool {
    matches!(answer, Err(RunFault::Engine(EngineFault::Memory)))
}

// Nothing of a call is written where memory is refused for it. Where there is enough to start it, there is enough to
// resume it.
#[test]
fn a_resumed_run_where_memory_ends(rt: HostRuntime) -> Result<(), Fail> {
    let whole = b"resume 0 begun 1\nw 20000000 written\nend all 1\n".as_slice();
    let mut refused = false;
    let mut done = false;
    for size in 1..400usize {
        let heap = LocalHeap::new(rt.alloc(), size * 16)?;
        let mut report = Vec::new(rt.alloc());
        let answer = lost_write_on(&heap, 1, &mut report);
        let mut unresumed = Vec::new(rt.alloc());
        let started = lost_write_on(&heap, 0, &mut unresumed);
        expect_eq(&rt, &is_refused(&answer), &is_refused(&started));
        match answer {
            Ok(
                Finished {
                    ended: End::All,
                    ..
                },
            ) => {
                expect_eq(&rt, &report.as_slice(), &whole);
                done = true;
            }
            Err(RunFault::Engine(EngineFault::Memory)) => {
                assert!(rt; report.is_empty());
                refused = true;
            }
            Err(_) | Ok(_) => assert!(rt; report.is_empty()),
        }
        expect_eq(&rt, &heap.used(), &0);
    }
    assert!(rt; refused && done);
    Ok(())
}

// The first request of each of two calls is lost. The program allows fewer resumptions.
#[test]
fn a_run_is_resumed_as_often_as_may_be(rt: HostRuntime) {
    let name = "twice, where it may be as often as may be";
    let plan = b"deaf\ndeaf\n".as_slice();
    let mut report = Vec::new(rt.alloc());
    let answer = reported(rt.alloc(), ONE_WRITE, plan, u32::MAX, &mut report);
    expect_eq_at(&rt, &name, &answer, &ended(End::All));
    let wanted = b"resume 0 begun 0\nresume 0 begun 0\nw 20000000 written\nend all 1\n".as_slice();
    expect_eq_at(&rt, &name, &report.as_slice(), &wanted);
}
