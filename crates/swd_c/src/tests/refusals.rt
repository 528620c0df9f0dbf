//! What the exports refuse, with the caller's memory unchanged.
use super::driver::{ASK, NO_RUN, REFUSED, plain, read, write};
use super::expect::{expect_eq, expect_eq_at};
use crate::{
    SwdAccess, SwdCue, swd_run_again, swd_run_cue, swd_run_fail, swd_run_new, swd_run_next,
};
use std::process::Abort;
use swd_host::OutcomeFields;
use swd_steps::RunFields;

fn is_refused<R: Abort>(rt: &R, fields: RunFields) {
    expect_eq(rt, &swd_run_cue(&fields), &SwdCue::refusal());
    expect_eq(rt, &SwdCue::refusal().kind, &REFUSED);
    let mut now = fields;
    let cue = swd_run_next(&mut now, [].as_slice(), [].as_mut_slice(), 0);
    expect_eq(rt, &cue, &SwdCue::refusal());
    expect_eq(rt, &swd_run_fail(&mut now), &SwdCue::refusal());
    assert!(rt; !swd_run_again(&mut now, 8));
    expect_eq(rt, &now, &fields);
}

// Each of these fields of the engine in turn is invalid.
#[test]
fn fields_of_no_run_are_refused(rt: HostRuntime) {
    is_refused(&rt, NO_RUN);
    let mut fields = new_run();
    fields.engine.state.kind = 4;
    is_refused(&rt, fields);
    let mut fields = new_run();
    fields.engine.state.phase = 1;
    is_refused(&rt, fields);
    let mut fields = new_run();
    fields.engine.state.job.place = 1;
    is_refused(&rt, fields);
    let mut fields = new_run();
    fields.engine.bursts = 4;
    is_refused(&rt, fields);
    let mut fields = new_run();
    fields.engine.ahead = 4;
    is_refused(&rt, fields);
    let mut fields = new_run();
    fields.engine.stray = 255;
    is_refused(&rt, fields);
}

fn new_run() -> RunFields {
    let mut fields = NO_RUN;
    swd_run_new(&mut fields, 8);
    fields
}

// A run with the list that is passed to it, and room for `room` answers.
#[derive(Clone, Copy)]
struct Shown<'a> {
    run: RunFields,
    accesses: &'a [SwdAccess],
    room: usize,
}

fn with_room(run: RunFields, accesses: &[SwdAccess]) -> Shown {
    Shown {
        run,
        accesses,
        room: 3,
    }
}

// Checks that the call is refused for this reason: the kind and the word of the cue's outcome.
fn is_refused_for<R: Abort>(rt: &R, name: &str, shown: Shown, reply: u64, why: OutcomeFields) {
    let mut run = shown.run;
    let mut room = [plain(77), plain(77), plain(77)];
    let most = shown.room.min(3);
    let cue = swd_run_next(&mut run, shown.accesses, &mut room[..most], reply);
    expect_eq_at(rt, &name, &cue.kind, &REFUSED);
    expect_eq_at(rt, &name, &cue.outcome, &why);
    expect_eq_at(rt, &name, &run, &shown.run);
    for answer in room {
        expect_eq_at(rt, &name, &answer, &plain(77));
    }
}

const fn why(kind: u8, word: u32) -> OutcomeFields {
    OutcomeFields { word, kind }
}

#[test]
fn calls_of_a_run_are_refused(rt: HostRuntime) {
    let aligned = [read(0x2000_0000), write(0x2000_0004, 1)];
    let unaligned = [read(0x2000_0000), read(0x2000_0004), write(0x2000_0006, 1)];
    let mut asking = new_run();
    let mut room = [plain(0), plain(0), plain(0)];
    let first = swd_run_next(&mut asking, &aligned, &mut room, 0);
    expect_eq(&rt, &first.kind, &ASK);
    let mut taking = asking;
    let _ = swd_run_next(&mut taking, &aligned, &mut room, 1);
    let mut ended = asking;
    let _ = swd_run_next(&mut ended, &aligned, &mut room, 7);
    let mut further = asking;
    further.answered = 3;
    let mut staged = new_run();
    staged.stage = 4;
    let mut begun = new_run();
    begun.begun = 1;
    let mut counted = new_run();
    counted.requests = 1;
    for (name, run, reply, why) in [
        ("zeros", NO_RUN, 0, why(0, 0)),
        ("a stage that there isn't", staged, 0, why(0, 0)),
        ("another number of accesses begun", begun, 0, why(0, 0)),
        ("another number of requests", counted, 0, why(0, 0)),
        ("an acknowledgement of four bits", asking, 8, why(2, 0)),
        ("a data phase of 34 bits", taking, 1 << 33, why(2, 0)),
        ("a run that has ended", ended, 0, why(1, 0)),
        ("fewer accesses than are answered", further, 0, why(5, 0)),
    ] {
        is_refused_for(&rt, name, with_room(run, &aligned), reply, why);
    }
    is_refused_for(
        &rt,
        "an address between words",
        with_room(new_run(), &unaligned),
        0,
        why(4, 2),
    );
    let mut short = with_room(asking, &aligned);
    short.room = 1;
    is_refused_for(&rt, "no room for the second answer", short, 0, why(6, 0));
    expect_eq(&rt, &swd_run_cue(&NO_RUN), &SwdCue::refusal());
    let mut many = ended;
    many.answered = 65_536;
    assert!(rt; swd_run_cue(&many).kind != REFUSED);
    many.answered = 65_537;
    expect_eq(&rt, &swd_run_cue(&many), &SwdCue::refusal());
    let mut none = NO_RUN;
    assert!(rt; !swd_run_again(&mut none, 8));
    expect_eq(&rt, &none, &NO_RUN);
    let mut going = asking;
    assert!(rt; !swd_run_again(&mut going, 8));
    expect_eq(&rt, &going, &asking);
}
