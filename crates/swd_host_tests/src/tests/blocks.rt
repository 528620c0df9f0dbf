//! Long blocks of reads: each word comes with the request for the next one.
use super::expect::expect_eq_at;
use std::alloc::Global;
use std::process::Abort;
use std::test::Fail;
use swd_clocked::ClockedBench;
use swd_host::{Report, run_block};
use swd_port::{Answer, Due, Transfer};
use swd_simulated::{BASE, QUIRKS, RUN, Run, Simulated, WHOLE, Wanted, target_of};
use swd_target::{Bench, Memory};

const LONGEST: Run = Run {
    words: 65_536,
    room: 65_536,
    ..RUN
};

fn reports<R: Abort>(rt: &R, count: u32, report: &Report, wanted: &Wanted) {
    expect_eq_at(rt, &count, &Wanted::found(report, wanted.log), wanted);
}

fn comes_out<S: Simulated + Drop, R: Abort>(
    rt: &R,
    alloc: Global,
    count: u32,
    wanted: &Wanted,
) -> Result<(), Fail> {
    let mut target = target_of::<S>(alloc, &LONGEST, QUIRKS)?;
    if target.due() != Due::Nothing || count > 65_536 {
        panic!(rt; "{count}: no block to read");
    }
    let report = run_block(alloc, &mut target, BASE, count, LONGEST.tries)?;
    reports(rt, count, &report, wanted);
    expect_eq_at(rt, &count, &target.memory().log(), &wanted.log);
    Ok(())
}

// The number of words, and that of requests.
const LONG: &[(u32, u64)] = &[(101, 9 + 103), (65_536, 9 + 65_536 + 2 * 256)];

// Each kilobyte takes the write of TAR, its reads, and a read of RDBUFF.
#[test]
fn a_block_has_at_most_65536_words(rt: HostRuntime) -> Result<(), Fail> {
    for (count, requests) in LONG {
        let mut answers = Vec::new(rt.alloc());
        let mut log = Vec::new(rt.alloc());
        let mut addr = BASE;
        for _ in 0..*count {
            answers.push(Answer::Value(0))?;
            log.push(Transfer {
                read: true,
                addr,
                word: 0,
            })?;
            addr = addr.saturating_add(4);
        }
        let wanted = Wanted {
            answers: &answers,
            requests: *requests,
            log: &log,
            ..WHOLE
        };
        comes_out::<Bench<Memory>, _>(&rt, rt.alloc(), *count, &wanted)?;
        comes_out::<ClockedBench<Memory>, _>(&rt, rt.alloc(), *count, &wanted)?;
    }
    Ok(())
}
