//! Runs with their traces: writers that fail.
use super::expect::expect_eq;
use super::refusals::traced_on;
use super::{NO_ACCESS, traced, unwritten};
use swd_fakes::ShortWriter;

const NO_ACCESS_REPORT: &[u8] = b"end all 0\n";

// The trace's writer fails, or takes no bytes, at each place: the report stands whole.
#[test]
fn traces_at_each_write_that_fails(rt: HostRuntime) {
    let whole = traced_on(&rt, rt.alloc(), NO_ACCESS, b"");
    expect_eq(&rt, &whole.trace.len(), &566);
    for fails in [false, true] {
        for room in 0..566usize {
            let mut report = Vec::new(rt.alloc());
            let trace = ShortWriter::new(rt.alloc(), room, fails);
            let (answer, trace) = traced(rt.alloc(), NO_ACCESS, b"", &mut report, trace);
            let trace = trace.expect(&rt, "its writer");
            expect_eq(&rt, &answer, &unwritten(room));
            expect_eq(&rt, &report.as_slice(), &NO_ACCESS_REPORT);
            assert!(rt; room <= whole.trace.len());
            assert!(rt; trace.taken() == &whole.trace.as_slice()[..room]);
        }
    }
}

// The report's writer fails at each place: the call is made to its end, and its trace is written.
#[test]
fn a_report_that_fails_leaves_the_trace(rt: HostRuntime) {
    let whole = traced_on(&rt, rt.alloc(), NO_ACCESS, b"");
    for fails in [false, true] {
        for room in 0..NO_ACCESS_REPORT.len() {
            let mut report = ShortWriter::new(rt.alloc(), room, fails);
            let trace = Vec::new(rt.alloc());
            let (answer, trace) = traced(rt.alloc(), NO_ACCESS, b"", &mut report, trace);
            let trace = trace.expect(&rt, "its writer");
            expect_eq(&rt, &answer, &unwritten(room));
            expect_eq(&rt, &report.taken(), &&NO_ACCESS_REPORT[..room]);
            expect_eq(&rt, &trace, &whole.trace);
        }
    }
}
