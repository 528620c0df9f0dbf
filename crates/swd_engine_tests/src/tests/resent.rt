//! RESEND and bus errors in blocks of reads: an engine driven by hand.
use super::engine::{opened, passed, seen, taken};
use super::expect::expect_eq;
use swd_host::{End, Engine, Outcome};
use swd_port::{Access, Answer, Cue};
use swd_simulated::BASE;

// A reply to a request: OK, with this word where it is read, or with the word 0 and its first place
// changed; or FAULT.
#[derive(Clone, Copy)]
enum Reply {
    Okay(u32),
    Damaged,
    Fault,
}

fn replied(engine: &mut Engine, reply: Reply) {
    match reply {
        Reply::Okay(word) => {
            seen(engine, 1);
            taken(engine, word);
            if let Some(Cue::Give(_)) = engine.cue() {
                engine.done();
            }
        }
        Reply::Damaged => {
            seen(engine, 1);
            if let Some(Cue::Take) = engine.cue() {
                engine.taken(1);
            }
        }
        Reply::Fault => {
            seen(engine, 4);
            passed(engine);
        }
    }
}

fn begins(engine: &mut Engine, access: Access, following: Option<Access>) {
    if let Some(Outcome::Opened | Outcome::Answered(_)) = engine.finished() {
        engine.start(access, following);
    }
}

// A read whose word is damaged, and whose RESEND meets the bus error of the next one.
const MISSED: &[Reply] = &[
    Reply::Okay(0),
    Reply::Okay(0),
    Reply::Damaged,
    Reply::Fault,
    Reply::Okay(0xf000_0060),
    Reply::Okay(0),
    Reply::Okay(0xf000_0040),
    Reply::Okay(5),
];

// Two reads, and the one after them.
const PAIRS: &[(Access, Access, Option<Access>)] = &[
    (
        Access::Read(BASE),
        Access::Read(0x2000_0004),
        Some(Access::Read(0x2000_0008)),
    ),
    (Access::Read(0x2000_0008), Access::Read(0x2000_000c), None),
];

#[test]
fn a_resend_meets_one_bus_error_in_each_access(rt: HostRuntime) {
    let mut engine = opened(Engine::blocks(8), 0x2300_0052);
    for (first, second, after) in PAIRS {
        begins(&mut engine, *first, Some(*second));
        for reply in MISSED {
            replied(&mut engine, *reply);
        }
        expect_eq(
            &rt,
            &engine.finished(),
            &Some(Outcome::Answered(Answer::Value(5))),
        );
        expect_eq(&rt, &engine.begun(), &1);
        begins(&mut engine, *second, *after);
        expect_eq(
            &rt,
            &engine.finished(),
            &Some(Outcome::Answered(Answer::BusFault)),
        );
        expect_eq(&rt, &engine.begun(), &0);
    }
    expect_eq(&rt, &engine.requests(), &25);
}

#[test]
fn a_second_fault_for_a_resend_confuses_an_engine(rt: HostRuntime) {
    let mut engine = opened(Engine::blocks(8), 0x2300_0052);
    begins(
        &mut engine,
        Access::Read(BASE),
        Some(Access::Read(0x2000_0004)),
    );
    for reply in &MISSED[..7] {
        replied(&mut engine, *reply);
    }
    replied(&mut engine, Reply::Fault);
    replied(&mut engine, Reply::Okay(0xf000_0060));
    expect_eq(
        &rt,
        &engine.finished(),
        &Some(Outcome::Stopped(End::Confused)),
    );
}
