//! Lines that fail: the run ends as lost, and the target drops the data phase.
use super::driver::{ALL, LOST, NO_RUN, REFUSED, REST, plain, write};
use super::expect::{expect_at, expect_eq, expect_eq_at};
use crate::{
    SwdAccess, swd_give_rest, swd_run_again, swd_run_cue, swd_run_fail, swd_run_next,
    swd_run_opened,
};
use std::process::Abort;
use swd_bits::data_bits;
use swd_steps::RunFields;

// What a run says whose line fails inside the cue behind so many.
struct Row {
    cues: u32,
    requests: u64,
    answered: u32,
    begun: u8,
}

// A burst of two writes over an open target. Behind TAR and its data phase come DRW and its data phase, DRW of the
// second write and its data phase, RDBUFF and its data phase, and idle cycles. A request counts as sent where the line
// fails in it. Begun is the first access without an answer, from the request of its DRW on: the second write's confirms
// the first one at its OK alone.
const ROWS: &[Row] = &[
    Row {
        cues: 0,
        requests: 1,
        answered: 0,
        begun: 0,
    },
    Row {
        cues: 1,
        requests: 1,
        answered: 0,
        begun: 0,
    },
    Row {
        cues: 2,
        requests: 2,
        answered: 0,
        begun: 1,
    },
    Row {
        cues: 3,
        requests: 2,
        answered: 0,
        begun: 1,
    },
    Row {
        cues: 4,
        requests: 3,
        answered: 0,
        begun: 1,
    },
    Row {
        cues: 5,
        requests: 3,
        answered: 1,
        begun: 1,
    },
    Row {
        cues: 6,
        requests: 4,
        answered: 1,
        begun: 1,
    },
    Row {
        cues: 7,
        requests: 4,
        answered: 1,
        begun: 1,
    },
    Row {
        cues: 8,
        requests: 4,
        answered: 2,
        begun: 0,
    },
];

fn burst() -> [SwdAccess; 2] {
    [write(0x2000_0000, 1), write(0x2000_0004, 2)]
}

// Returns the burst's run behind so many cues: each request gets OK, and RDBUFF's data phase has a word.
fn run_behind(cues: u32) -> RunFields {
    let accesses = burst();
    let mut answers = [plain(0), plain(0)];
    let mut run = NO_RUN;
    let mut cue = swd_run_opened(&mut run, accesses.as_slice(), 0, 8);
    for _ in 0..cues {
        let reply = if cue.kind == 2 { 1 } else { data_bits(0) };
        cue = swd_run_next(&mut run, accesses.as_slice(), &mut answers, reply);
    }
    run
}

#[test]
fn a_line_that_fails_ends_a_run_as_lost(rt: HostRuntime) {
    for row in ROWS {
        let mut run = run_behind(row.cues);
        let cue = swd_run_fail(&mut run);
        expect_eq_at(&rt, &row.cues, &cue, &swd_run_cue(&run));
        expect_eq_at(&rt, &row.cues, &cue.kind, &REST);
        expect_eq_at(&rt, &row.cues, &cue.outcome, &plain(LOST));
        expect_eq_at(&rt, &row.cues, &cue.begun, &row.begun);
        expect_eq_at(&rt, &row.cues, &run.end, &plain(LOST));
        expect_eq_at(&rt, &row.cues, &run.requests, &row.requests);
        expect_eq_at(&rt, &row.cues, &run.answered, &row.answered);
        expect_eq_at(&rt, &row.cues, &run.begun, &row.begun);
        fails_once(&rt, run);
        expect_at(&rt, &row.cues, swd_run_again(&mut run, 8));
        expect_eq_at(&rt, &row.cues, &run.answered, &row.answered);
    }
}

// A run that has ended is refused, and stays as it is.
fn fails_once<R: Abort>(rt: &R, ended: RunFields) {
    let mut run = ended;
    let cue = swd_run_fail(&mut run);
    expect_eq(rt, &cue.kind, &REFUSED);
    expect_eq(rt, &cue.outcome, &plain(1));
    expect_eq(rt, &run, &ended);
}

#[test]
fn a_run_that_ended_doesnt_fail(rt: HostRuntime) {
    let run = run_behind(9);
    expect_eq(&rt, &run.end, &plain(ALL));
    fails_once(&rt, run);
}

// The words of data phases.
const WORDS: &[u32] = &[0, 1, 0xdead_beef, 0x7fff_ffff, 0xffff_ffff, 0x8000_0000];

// Whether the number of ones in the first bits is odd.
fn is_odd(bits: u64, count: u32) -> bool {
    (bits & ((1 << count.min(63)) - 1)).count_ones() % 2 == 1
}

// However many of the clocks that failed were made: a data phase that isn't whole before has wrong parity.
#[test]
fn the_target_drops_a_data_phase_that_is_cut(rt: HostRuntime) {
    for word in WORDS {
        let bits = data_bits(*word);
        for made in 0..33_u32 {
            for failed in 1..5_u32 {
                is_dropped(&rt, bits, made, failed);
            }
        }
        expect_eq_at(&rt, word, &swd_give_rest(bits, 33, 1), &0);
        expect_eq_at(&rt, word, &swd_give_rest(bits, u32::MAX, 1), &0);
    }
}

fn is_dropped<R: Abort>(rt: &R, bits: u64, made: u32, failed: u32) {
    let rest = swd_give_rest(bits, made, failed);
    let left = 33_u32.saturating_sub(made);
    expect_eq_at(rt, &made, &(rest >> left), &0);
    let level = bits >> made.min(63) & 1 == 1;
    for again in 0..failed.min(left.saturating_sub(1)) + 1 {
        let levels = level && again % 2 == 1;
        let odd = is_odd(bits, made) ^ levels ^ is_odd(rest, left - again);
        expect_at(rt, &made, odd);
    }
}

// Bits, how many were made, how many failed, and what is left: one bit makes the parity wrong, and the others are at
// the level of the clock that failed. Of the word ffffffff 10 ones were made, and perhaps one more: 23 or 22 follow.
const RESTS: &[(u64, u32, u32, u64)] = &[
    (0, 0, 1, 0x8000_0000),
    (0, 0, 2, 0x4000_0000),
    (0xffff_ffff, 10, 1, 0x7f_ffff),
    (1, 32, 1, 0),
    (0, 32, 1, 1),
];

#[test]
fn the_rest_of_a_data_phase(rt: HostRuntime) {
    for (bits, made, failed, rest) in RESTS {
        expect_eq_at(&rt, made, &swd_give_rest(*bits, *made, *failed), rest);
    }
}
