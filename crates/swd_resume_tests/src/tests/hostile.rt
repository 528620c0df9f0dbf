//! Every changed bit, every pair of them and every lost acknowledgement, at each request of two lists: a
//! write and a read of a word, and a burst of four writes.
use super::expect::{expect_at, expect_eq_at};
use std::alloc::Global;
use std::fmt::Debug;
use std::process::Abort;
use std::test::Fail;
use swd_clocked::ClockedBench;
use swd_host::{End, Report};
use swd_port::{Access, Answer, Transfer};
use swd_simulated::{
    QUIRKS, READ, READ_WORD, Simulated, WHOLE, WORD, WRITE, WRITTEN, Wanted, report_of, run_of,
    target_of,
};
use swd_target::{Bench, Mark, Memory};

// A list of accesses, and what has to come of it over a wire that loses nothing: at most so many requests where a bit
// of one data phase is changed, and where two data phases are damaged.
#[derive(Clone, Copy)]
struct List {
    name: &'static str,
    accesses: &'static [Access],
    answers: &'static [Answer],
    log: &'static [Transfer],
    most_at_a_bit: u64,
    most_at_two_phases: u64,
}

const PAIR_ANSWERS: &[Answer] = &[Answer::Written, Answer::Value(WORD)];

const PAIR_LOG: &[Transfer] = &[WRITTEN, READ_WORD];

const LISTS: &[List] = &[PAIR, FOUR];

const PAIR: List = List {
    name: "a write and a read of it",
    accesses: &[WRITE, READ],
    answers: PAIR_ANSWERS,
    log: PAIR_LOG,
    most_at_a_bit: 9 + 6 * 2 + 5,
    most_at_two_phases: 9 + 6 * 2 + 5 * 2,
};

const FOUR_ANSWERS: &[Answer] = &[Answer::Written; 4];

const FOUR_LOG: &[Transfer] = &[
    WRITTEN,
    Transfer {
        read: false,
        addr: 0x2000_0004,
        word: 1,
    },
    Transfer {
        read: false,
        addr: 0x2000_0008,
        word: 2,
    },
    Transfer {
        read: false,
        addr: 0x2000_000c,
        word: 3,
    },
];

const FOUR: List = List {
    name: "four writes, at addresses that follow each other",
    accesses: &[
        WRITE,
        Access::Write(0x2000_0004, 1),
        Access::Write(0x2000_0008, 2),
        Access::Write(0x2000_000c, 3),
    ],
    answers: FOUR_ANSWERS,
    log: FOUR_LOG,
    most_at_a_bit: 9 + 6 * 4 + 5,
    most_at_two_phases: 9 + 6 * 4 + 5 * 2,
};

impl List {
    // All of it, with at most so many requests.
    fn whole(self, requests: u64) -> Wanted<'static, 'static> {
        Wanted {
            answers: self.answers,
            requests,
            log: self.log,
            ..WHOLE
        }
    }
}

// Both lists send fifteen requests where nothing happens to them.
const REQUESTS: usize = 15;

// A report is as it is wanted, but that one which is whole may have sent fewer requests.
fn fits<R: Abort, P: Debug>(rt: &R, place: &P, report: &Report, wanted: &Wanted) {
    expect_eq_at(rt, place, &report.ended, &wanted.ended);
    expect_eq_at(rt, place, &report.answers.as_slice(), &wanted.answers);
    expect_eq_at(rt, place, &report.begun, &wanted.begun);
    expect_at(rt, place, report.requests <= wanted.requests);
    expect_at(
        rt,
        place,
        wanted.ended == End::All || report.requests == wanted.requests,
    );
}

// A run is as it is wanted. The list and the first mark say which one went wrong.
fn comes_out<S: Simulated + Drop, R: Abort>(
    rt: &R,
    alloc: Global,
    (list, marks): (&List, &[(usize, Mark)]),
    wanted: &Wanted,
) -> Result<(), Fail> {
    let place = (list.name, marks.first().copied());
    let run = run_of(marks, list.accesses);
    let mut target = target_of::<S>(alloc, &run, QUIRKS)?;
    let report = report_of(alloc, &mut target, &run)?;
    expect_at(rt, &place, !marks.is_empty());
    fits(rt, &place, &report, wanted);
    expect_eq_at(rt, &place, &target.memory().log(), &wanted.log);
    Ok(())
}

// The same over each simulated target.
fn comes_out_over_both<R: Abort>(
    rt: &R,
    alloc: Global,
    list: &List,
    marks: &[(usize, Mark)],
    wanted: &Wanted,
) -> Result<(), Fail> {
    comes_out::<Bench<Memory>, R>(rt, alloc, (list, marks), wanted)?;
    comes_out::<ClockedBench<Memory>, R>(rt, alloc, (list, marks), wanted)
}

// The acknowledgement of one request is lost, in each way.
fn lost_at<R: Abort>(
    rt: &R,
    alloc: Global,
    place: usize,
    list: &List,
    (deaf, mute): (&Wanted, &Wanted),
) -> Result<(), Fail> {
    comes_out_over_both(rt, alloc, list, &[(place, Mark::Deaf)], deaf)?;
    for bit in 0..3u8 {
        comes_out_over_both(rt, alloc, list, &[(place, Mark::Mute(bit))], mute)?;
    }
    Ok(())
}

// Each of the 33 bits of each data phase changed: 495 runs over each target.
#[test]
fn each_list_survives_each_changed_bit(rt: HostRuntime) -> Result<(), Fail> {
    for list in LISTS {
        let wanted = list.whole(list.most_at_a_bit);
        for place in 1..=REQUESTS {
            for bit in 0..33u8 {
                let marks = [(place, Mark::Flip(bit))];
                comes_out_over_both(&rt, rt.alloc(), list, &marks, &wanted)?;
            }
        }
    }
    Ok(())
}

// Two data phases, the later of them also of a request that was sent because of the first: 325 runs over each
// target.
#[test]
fn each_list_survives_two_damaged_phases(rt: HostRuntime) -> Result<(), Fail> {
    for list in LISTS {
        let wanted = list.whole(list.most_at_two_phases);
        for later in 2..=26_usize {
            for earlier in 1..later {
                let marks = [(earlier, Mark::Flip(0)), (later, Mark::Flip(0))];
                comes_out_over_both(&rt, rt.alloc(), list, &marks, &wanted)?;
            }
        }
    }
    Ok(())
}

// The requests from the tenth on: TAR, the write, RDBUFF; TAR, the read, RDBUFF. A write's data are sent after its
// request was seen to be answered, so a lost answer to it leaves no write; a read takes place at its request, if the
// target saw it.
#[test]
fn a_write_and_a_read_stop_at_each_lost_answer(rt: HostRuntime) -> Result<(), Fail> {
    for place in 1..=REQUESTS {
        let answers = if place > 12 { 1 } else { 0 };
        let begun = u8::from(matches!(place, 11 | 12 | 14 | 15));
        let deaf = match place {
            12..=14 => 1,
            15 => 2,
            _ => 0,
        };
        let mute = if place == 14 { 2 } else { deaf };
        let wanted = Wanted {
            ended: End::Lost,
            answers: &PAIR_ANSWERS[..answers],
            begun,
            requests: place as u64,
            log: &PAIR_LOG[..deaf],
        };
        let muted = Wanted {
            log: &PAIR_LOG[..mute],
            ..wanted
        };
        lost_at(&rt, rt.alloc(), place, &PAIR, (&wanted, &muted))?;
    }
    Ok(())
}

// The requests from the tenth on: TAR, four writes, RDBUFF. Each but the first write tells what came of the one before.
#[test]
fn a_burst_stops_at_each_lost_answer(rt: HostRuntime) -> Result<(), Fail> {
    for place in 1..=REQUESTS {
        let wanted = Wanted {
            ended: End::Lost,
            answers: &FOUR_ANSWERS[..place.saturating_sub(12).min(4)],
            begun: u8::from(place > 10),
            requests: place as u64,
            log: &FOUR_LOG[..place.saturating_sub(11).min(4)],
        };
        lost_at(&rt, rt.alloc(), place, &FOUR, (&wanted, &wanted))?;
    }
    Ok(())
}
