//! Plans of a run: what it asks for next as long as each request is answered OK.
use super::driver::{ASK, NO_RUN, read};
use super::expect::{expect_eq, expect_eq_at};
use crate::{
    SwdAccess, SwdPlanned, swd_run_cue, swd_run_fail, swd_run_new, swd_run_next, swd_run_opened,
    swd_run_plan,
};
use std::process::Abort;
use swd_bits::data_bits;
use swd_host::OutcomeFields;
use swd_steps::RunFields;

// An object in which nothing was stored.
const UNUSED: SwdPlanned = SwdPlanned {
    word: 0x5555_5555,
    request: 0x55,
};

const BASE: u32 = 0x2000_0000;

fn planned(request: u8, word: u32) -> SwdPlanned {
    SwdPlanned { word, request }
}

// A burst of two writes, which RDBUFF confirms; a read at another address, and one at the next, by RDBUFF each.
const LIST: &[SwdAccess] = &[
    SwdAccess {
        addr: BASE,
        word: 5,
        write: 1,
    },
    SwdAccess {
        addr: BASE + 4,
        word: 6,
        write: 1,
    },
    SwdAccess {
        addr: BASE,
        word: 0,
        write: 0,
    },
    SwdAccess {
        addr: BASE + 4,
        word: 0,
        write: 0,
    },
];

const LIST_PLANNED: &[SwdPlanned] = &[
    SwdPlanned {
        word: BASE,
        request: 0x8b,
    },
    SwdPlanned {
        word: 5,
        request: 0xbb,
    },
    SwdPlanned {
        word: 6,
        request: 0xbb,
    },
    SwdPlanned {
        word: 0,
        request: 0xbd,
    },
    SwdPlanned {
        word: BASE,
        request: 0x8b,
    },
    SwdPlanned {
        word: 0,
        request: 0x9f,
    },
    SwdPlanned {
        word: 0,
        request: 0xbd,
    },
    SwdPlanned {
        word: 0,
        request: 0x9f,
    },
    SwdPlanned {
        word: 0,
        request: 0xbd,
    },
];

const NO_ANSWER: OutcomeFields = OutcomeFields { word: 0, kind: 0 };

// Ends the test where a run over the list plans anything else, with this much room.
fn plans<R: Abort>(rt: &R, run: &RunFields, wanted: &[SwdPlanned], room: usize) {
    let mut plan = [UNUSED; 16];
    let count = swd_run_plan(run, LIST, &mut plan[..room.min(16)]) as usize;
    expect_eq_at(rt, &room, &count, &wanted.len());
    for (place, next) in plan.iter().enumerate() {
        let told = wanted.get(place).copied().unwrap_or(UNUSED);
        expect_eq_at(rt, &place, next, &told);
    }
}

#[test]
fn a_run_asks_for_what_it_planned_whatever_words_are_read(rt: HostRuntime) {
    for word in &[0, 0xffff_ffff] {
        let mut run = NO_RUN;
        let mut answers = [NO_ANSWER; 4];
        let _ = swd_run_opened(&mut run, LIST, 0, 8);
        for place in 0..LIST_PLANNED.len() {
            plans(&rt, &run, &LIST_PLANNED[place..], 16);
            let cue = swd_run_cue(&run);
            expect_eq_at(&rt, &place, &cue.kind, &ASK);
            expect_eq_at(&rt, &place, &cue.request, &LIST_PLANNED[place].request);
            let _ = swd_run_next(&mut run, LIST, &mut answers, 1);
            // A data phase is due, which is no request.
            plans(&rt, &run, &[], 16);
            let _ = swd_run_next(&mut run, LIST, &mut answers, data_bits(*word));
        }
        plans(&rt, &run, &[], 16);
    }
}

#[test]
fn a_plan_has_no_more_than_there_is_room_for(rt: HostRuntime) {
    let mut run = NO_RUN;
    let _ = swd_run_opened(&mut run, LIST, 0, 8);
    for room in 0..LIST_PLANNED.len() {
        plans(&rt, &run, &LIST_PLANNED[..room], room);
    }
}

// In the opening a word decides: this is planned then, and then this word is read.
const OPENING: &[(&[SwdPlanned], u32)] = &[
    (
        &[SwdPlanned {
            word: 0,
            request: 0xa5,
        }],
        0x2ba0_1477,
    ),
    (
        &[
            SwdPlanned {
                word: 0x1e,
                request: 0x81,
            },
            SwdPlanned {
                word: 0,
                request: 0x8d,
            },
        ],
        0,
    ),
    (
        &[
            SwdPlanned {
                word: 0,
                request: 0xb1,
            },
            SwdPlanned {
                word: 0x5000_0000,
                request: 0xa9,
            },
            SwdPlanned {
                word: 0,
                request: 0x8d,
            },
        ],
        0xf000_0000,
    ),
    (
        &[
            SwdPlanned {
                word: 0x2300_0012,
                request: 0xa3,
            },
            SwdPlanned {
                word: 0,
                request: 0x87,
            },
            SwdPlanned {
                word: 0,
                request: 0xbd,
            },
        ],
        0x2300_0052,
    ),
    (LIST_PLANNED, 0),
];

#[test]
fn an_opening_is_planned_up_to_each_word_that_decides(rt: HostRuntime) {
    let mut run = NO_RUN;
    let mut answers = [NO_ANSWER; 4];
    swd_run_new(&mut run, 8);
    // The line reset is no request.
    plans(&rt, &run, &[], 16);
    let _ = swd_run_next(&mut run, LIST, &mut answers, 0);
    for (planned, word) in OPENING {
        plans(&rt, &run, planned, 16);
        for _ in 0..planned.len() {
            let _ = swd_run_next(&mut run, LIST, &mut answers, 1);
            let _ = swd_run_next(&mut run, LIST, &mut answers, data_bits(*word));
        }
    }
}

#[test]
fn a_long_list_is_planned_up_to_128_transactions(rt: HostRuntime) {
    let list = [read(BASE); 200];
    let mut plan = [UNUSED; 200];
    let mut run = NO_RUN;
    let _ = swd_run_opened(&mut run, &list, 0, 8);
    expect_eq(&rt, &swd_run_plan(&run, &list, &mut plan), &128);
    expect_eq(&rt, &plan[127], &planned(0x9f, 0));
    expect_eq(&rt, &plan[128], &UNUSED);
}

#[test]
fn nothing_is_planned_for_fields_of_no_run(rt: HostRuntime) {
    plans(&rt, &NO_RUN, &[], 16);
    let mut run = NO_RUN;
    let _ = swd_run_opened(&mut run, LIST, 0, 8);
    run.answered = 65_537;
    plans(&rt, &run, &[], 16);
    run.answered = 0;
    let _ = swd_run_fail(&mut run);
    plans(&rt, &run, &[], 16);
}
