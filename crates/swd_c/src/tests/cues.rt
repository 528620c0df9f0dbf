//! A run driven by hand.
use super::driver::{ASK, CONFUSED, LOST, NO_RUN, PASS, REST, TAKE, WRONG_ID, plain, read, write};
use super::expect::expect_eq;
use crate::{
    SwdAccess, SwdCue, swd_run_again, swd_run_blocks, swd_run_cue, swd_run_new, swd_run_next,
    swd_run_opened,
};
use swd_bits::data_bits;
use swd_host::OutcomeFields;
use swd_steps::{Run, RunFields};

fn cue(kind: u8) -> SwdCue {
    SwdCue {
        bits: 0,
        ones: 0,
        zeros: 0,
        undriven: 0,
        outcome: plain(0),
        kind,
        request: 0,
        with_switch: 0,
        begun: 0,
    }
}

fn new_run() -> RunFields {
    let mut run = NO_RUN;
    swd_run_new(&mut run, 8);
    run
}

// Passes a reply to a run over no access.
fn next(run: &mut RunFields, reply: u64) -> SwdCue {
    swd_run_next(run, [].as_slice(), [].as_mut_slice(), reply)
}

// Returns a run whose lead was sent.
fn led() -> RunFields {
    let mut run = new_run();
    let _ = next(&mut run, 0);
    run
}

#[test]
fn a_run_begins_with_a_lead_and_the_identification(rt: HostRuntime) {
    let mut run = new_run();
    let mut lead = cue(1);
    lead.ones = 56;
    lead.zeros = 2;
    lead.with_switch = 1;
    expect_eq(&rt, &swd_run_cue(&run), &lead);
    let mut ask = cue(ASK);
    ask.request = 0xa5;
    expect_eq(&rt, &next(&mut run, 0), &ask);
    expect_eq(&rt, &swd_run_cue(&run), &ask);
    expect_eq(&rt, &next(&mut run, 1), &cue(TAKE));
    // ABORT is written, with 0000001e.
    ask.request = 0x81;
    expect_eq(&rt, &next(&mut run, data_bits(0x2ba0_1477)), &ask);
    let mut give = cue(4);
    give.bits = 0x1e;
    expect_eq(&rt, &next(&mut run, 1), &give);
    expect_eq(&rt, &run.requests, &2);
}

#[test]
fn going_on_begins_with_a_longer_lead(rt: HostRuntime) {
    let mut run = led();
    let _ = next(&mut run, 7);
    assert!(rt; swd_run_again(&mut run, 8));
    let mut lead = cue(1);
    lead.ones = 100;
    lead.zeros = 2;
    lead.undriven = 34;
    expect_eq(&rt, &swd_run_cue(&run), &lead);
}

#[test]
fn a_run_stops_at_each_first_answer_but_ok(rt: HostRuntime) {
    for seen in &[0, 3, 5, 6, 7] {
        let mut run = led();
        let mut rest = cue(REST);
        rest.outcome = plain(LOST);
        expect_eq(&rt, &next(&mut run, *seen), &rest);
        expect_eq(&rt, &run.requests, &1);
        expect_eq(&rt, &swd_run_cue(&run), &rest);
    }
    for seen in [2, 4] {
        let mut run = led();
        expect_eq(&rt, &next(&mut run, seen), &cue(PASS));
        let mut rest = cue(REST);
        rest.outcome = plain(CONFUSED);
        expect_eq(&rt, &next(&mut run, 0), &rest);
        expect_eq(&rt, &run.requests, &1);
    }
    let mut run = led();
    let _ = next(&mut run, 1);
    let mut rest = cue(REST);
    rest.outcome = OutcomeFields {
        word: 0x2ba0_1476,
        kind: WRONG_ID,
    };
    expect_eq(&rt, &next(&mut run, data_bits(0x2ba0_1476)), &rest);
}

// The fields in the caller's memory are exactly those of the library's run.
#[test]
fn exports_keep_a_run_of_the_library(rt: HostRuntime) {
    let mut run = new_run();
    expect_eq(&rt, &run.run(), &Some(Run::new(8)));
    swd_run_blocks(&mut run, 3);
    expect_eq(&rt, &run.run(), &Some(Run::blocks(3)));
}

// TAR, DRW, and the next write's DRW, whose data is due when the first write is answered. The list isn't a burst
// behind the second one.
#[test]
fn a_burst_is_gone_on_with(rt: HostRuntime) {
    let accesses: [SwdAccess; 3] = [
        write(0x2000_0000, 1),
        write(0x2000_0004, 2),
        read(0x2000_0000),
    ];
    let mut answers = [plain(0), plain(0), plain(0)];
    let mut run = NO_RUN;
    let mut seen = swd_run_opened(&mut run, accesses.as_slice(), 0, 8);
    expect_eq(&rt, &seen.request, &0x8b);
    for reply in &[1, 0, 1, 0, 1] {
        expect_eq(&rt, &run.answered, &0);
        seen = swd_run_next(&mut run, accesses.as_slice(), &mut answers, *reply);
    }
    expect_eq(&rt, &run.answered, &1);
    expect_eq(&rt, &answers[0], &plain(3));
    expect_eq(&rt, &seen.bits, &data_bits(2));
    expect_eq(&rt, &seen.begun, &1);
}
