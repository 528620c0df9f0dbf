//! An engine driven by hand.
use super::expect::{expect_at, expect_eq, expect_eq_at};
use std::alloc::Global;
use std::process::Abort;
use std::test::Fail;
use swd_bits::{Reg4, Request, data_bits};
use swd_host::{End, Engine, Outcome};
use swd_port::{Access, Answer, Cue, Due, Wire};
use swd_simulated::{QUIRKS, READ, RUN, WRITE, target_of};
use swd_target::{Bench, Memory};

/// What is seen after the request that is its cue.
pub(super) fn seen(engine: &mut Engine, seen: u8) {
    if let Some(Cue::Ask(_)) = engine.cue() {
        engine.seen(seen % 8);
    }
}

/// The word that is read, where its cue is to take one.
pub(super) fn taken(engine: &mut Engine, word: u32) {
    if let Some(Cue::Take) = engine.cue() {
        engine.taken(data_bits(word));
    }
}

/// The turnaround, where that is its cue.
pub(super) fn passed(engine: &mut Engine) {
    if let Some(Cue::Pass) = engine.cue() {
        engine.done();
    }
}

fn lead(engine: &mut Engine) {
    if let Some(Cue::Lead { .. }) = engine.cue() {
        engine.done();
    }
}

// The request that is its cue is answered OK, a read with this word.
fn answered(engine: &mut Engine, word: u32) {
    seen(engine, 1);
    match engine.cue() {
        Some(Cue::Take) => engine.taken(data_bits(word)),
        Some(Cue::Give(_)) => engine.done(),
        _ => {}
    }
}

// The words of an opening up to CSW's: DPIDR's, and CTRL/STAT's once power is there; those that are written count as 0.
const OPENING_WORDS: &[u32] = &[0x2ba0_1477, 0, 0, 0, 0, 0xf000_0000, 0, 0];

/// The engine once its opening was answered OK, with this word for CSW.
pub(super) fn opened(new: Engine, csw: u32) -> Engine {
    let mut engine = new;
    lead(&mut engine);
    for word in OPENING_WORDS {
        answered(&mut engine, *word);
    }
    answered(&mut engine, csw);
    engine
}

/// Begins the access, where the engine may.
pub(super) fn starts(engine: &mut Engine, access: Access, following: Option<Access>) -> bool {
    match engine.finished() {
        Some(Outcome::Opened | Outcome::Answered(_)) => {
            engine.start(access, following);
            true
        }
        _ => false,
    }
}

// The byte of the request that is its cue; 0 where it has another one.
fn asked(engine: &Engine) -> u8 {
    match engine.cue() {
        Some(Cue::Ask(request)) => request.bits(),
        _ => 0,
    }
}

// A word with wrong parity, where its cue is to take one.
fn damaged(engine: &mut Engine) -> bool {
    let takes = engine.cue() == Some(Cue::Take);
    if let Some(Cue::Take) = engine.cue() {
        engine.taken(0x1_0000_0000);
    }
    takes
}

// The word of the data phase that is due.
fn moves(engine: &mut Engine, word: u32) -> bool {
    match engine.cue() {
        Some(Cue::Take) => {
            engine.taken(data_bits(word));
            true
        }
        Some(Cue::Give(bits)) => {
            engine.done();
            bits == data_bits(word)
        }
        _ => false,
    }
}

fn word_in(text: &str) -> Option<u32> {
    u32::from_str_radix(text, 16).ok()
}

// The byte of a request, as `dp 4 read`.
fn byte_in(text: &str) -> Option<u8> {
    let (port, rest) = text.split_once(" ")?;
    let (addr, way) = rest.split_once(" ")?;
    let request = Request {
        ap: port == "ap",
        read: way == "read",
        addr: match addr {
            "0" => Reg4::R0,
            "4" => Reg4::R4,
            "8" => Reg4::R8,
            "c" => Reg4::RC,
            _ => return None,
        },
    };
    Some(request.bits())
}

// An access, as `r 20000000` or `w 20000000 5`.
fn access_in(text: &str) -> Option<Access> {
    let (way, rest) = text.split_once(" ")?;
    if way == "r" {
        return Some(Access::Read(word_in(rest)?));
    }
    let (addr, word) = rest.split_once(" ")?;
    Some(Access::Write(word_in(addr)?, word_in(word)?))
}

fn outcome_in(text: &str) -> Option<Outcome> {
    match text {
        "opened" => Some(Outcome::Opened),
        "written" => Some(Outcome::Answered(Answer::Written)),
        "busfault" => Some(Outcome::Answered(Answer::BusFault)),
        "lost" => Some(Outcome::Stopped(End::Lost)),
        "tries" => Some(Outcome::Stopped(End::TriesOut)),
        "confused" => Some(Outcome::Stopped(End::Confused)),
        _ => {
            let id = word_in(text.strip_prefix("id ")?)?;
            Some(Outcome::Stopped(End::WrongId(id)))
        }
    }
}

// The request that a turn names is the engine's cue, and is answered as the turn says.
fn meets(engine: &mut Engine, turn: &str) -> Option<bool> {
    let (request, said) = turn.rsplit_once(" ")?;
    let is_cue = byte_in(request)? == asked(engine);
    seen(
        engine,
        match said {
            "faults" => 4,
            "waits" => 2,
            _ => 1,
        },
    );
    passed(engine);
    let went = match said {
        "faults" | "waits" => true,
        "damaged" => damaged(engine),
        _ => moves(engine, word_in(said)?),
    };
    Some(is_cue && went)
}

// What an engine is told with a number.
fn is_told(engine: &mut Engine, verb: &str, text: &str) -> Option<bool> {
    let word = word_in(text)?;
    match verb {
        "seen" => seen(engine, (word % 8) as u8),
        "taken" => taken(engine, word),
        "answered" => answered(engine, word),
        "opened" => *engine = opened(*engine, word),
        _ => return None,
    }
    Some(true)
}

// What an engine says, or an access that it begins.
fn says(engine: &mut Engine, verb: &str, text: &str) -> Option<bool> {
    match verb {
        "asks" => Some(byte_in(text)? == asked(engine)),
        "comes" => Some(Some(outcome_in(text.strip_prefix("to ")?)?) == engine.finished()),
        "begun" => Some(text.parse::<u8>().ok()? == engine.begun()),
        "requests" => Some(text.parse::<u64>().ok()? == engine.requests()),
        "starts" => Some(starts(engine, access_in(text)?, None)),
        "tries" => {
            *engine = Engine::new(text.parse::<u32>().ok()?);
            Some(true)
        }
        _ => None,
    }
}

// Whether a turn goes as it says; none where it says nothing.
fn goes(engine: &mut Engine, turn: &str) -> Option<bool> {
    match turn {
        "led" => lead(engine),
        "passed" => passed(engine),
        "leads" => return Some(engine.cue() == Some(LEAD)),
        "takes" => return Some(engine.cue() == Some(Cue::Take)),
        "passes" => return Some(engine.cue() == Some(Cue::Pass)),
        "idle" => return Some(engine.cue().is_none()),
        "unfinished" => return Some(engine.finished().is_none()),
        _ => {
            let (verb, text) = turn.split_once(" ")?;
            return match verb {
                "dp" | "ap" => meets(engine, turn),
                "seen" | "taken" | "answered" | "opened" => is_told(engine, verb, text),
                _ => says(engine, verb, text),
            };
        }
    }
    Some(true)
}

/// The engine of each row takes its turns, and says what it has to.
///
/// A row is a line, its name, and lines that begin with `- `: its turns, with commas between. `@NAME` stands for those
/// of the line `= NAME: `. A turn is
///
///   tries N           another engine, with so many tries; else it has 8
///   REQUEST WORD      the request is its cue and answered OK, and this word is read, or written
///   REQUEST damaged|faults|waits    it is its cue, and a word is read with wrong parity, or it is answered so
///   led, passed       its lead was sent; the turnaround, where that is its cue
///   seen N, taken WORD, answered WORD    an acknowledgement, a word, or both with OK, where its cue is that
///   opened WORD       its lead was sent and its opening answered OK, with this word for CSW
///   starts ACCESS     the access is begun
///   leads, takes, passes, idle, asks REQUEST    its cue; idle: it has none
///   comes to OUTCOME, unfinished, begun N, requests N    what it says
pub(super) fn all_go<R: Abort>(rt: &R, rows: &str) {
    let mut engine = Engine::new(8);
    for line in rows
        .lines()
        .filter(|it| !it.starts_with("#") && !it.starts_with("= "))
    {
        let Some(turns) = line.strip_prefix("- ") else {
            engine = Engine::new(8);
            continue;
        };
        for turn in turns.split(", ") {
            for part in parts(rows, turn).split(", ") {
                expect_at(rt, &(line, part), goes(&mut engine, part) == Some(true));
            }
        }
    }
}

// The turns that a name stands for; else the turn.
fn parts<'t>(rows: &'t str, turn: &'t str) -> &'t str {
    let Some(name) = turn.strip_prefix("@") else {
        return turn;
    };
    for line in rows.lines().filter_map(|it| it.strip_prefix("= ")) {
        match line.split_once(": ") {
            Some((found, turns)) if found == name => return turns,
            _ => {}
        }
    }
    turn
}

const LEAD: Cue = Cue::Lead {
    ones: 56,
    undriven: 0,
    switch: true,
    zeros: 2,
};

const ROWS: &str = "\
# An engine that stopped at its first request.
= lost at once: comes to lost, idle, begun 0, requests 1
# An engine that has a turnaround to send, and then stops at its first request.
= confused at once: passes, unfinished, passed, comes to confused, idle, begun 0, requests 1
= opened: comes to opened, requests 9
= confused by csw: comes to confused, requests 9
# A write whose confirming request was answered FAULT. CTRL/STAT is read next.
= refused: opened 23000052, starts w 20000000 deadbeef, answered 0, answered 0, seen 4, passed
= confused in a write: comes to confused, idle, begun 1
# An engine that clears a flag.
= clears in a write: unfinished, asks dp 0 write, begun 1
an engine begins with the lead and DPIDR
- leads, led, asks dp 0 read, unfinished, requests 0
an engine stops where an acknowledgement of 0 is seen first
- led, seen 0, @lost at once
an engine stops where an acknowledgement of 3 is seen first
- led, seen 3, @lost at once
an engine stops where an acknowledgement of 5 is seen first
- led, seen 5, @lost at once
an engine stops where an acknowledgement of 6 is seen first
- led, seen 6, @lost at once
an engine stops where an acknowledgement of 7 is seen first
- led, seen 7, @lost at once
an engine stops where WAIT is seen first
- led, seen 2, @confused at once
an engine stops where FAULT is seen first
- led, seen 4, @confused at once
an engine goes on where OK is seen first
- led, seen 1, takes, unfinished, requests 1
an identification whose bit 0 is 0 is wrong
- led, seen 1, taken 2ba01476, comes to id 2ba01476, idle, begun 0, requests 1
an identification whose bit 0 is 1 is right
- led, seen 1, taken 2ba01477, unfinished, asks dp 0 write
an opening ends by the fields of CSW
- opened 23000052, @opened
an opening ends by no other field of CSW
- opened 52, @opened
an opening that finds an access port of bytes confuses
- opened 23000050, @confused by csw
an opening that finds no increment confuses
- opened 23000042, @confused by csw
an opening that finds packed increment confuses
- opened 23000062, @confused by csw
an opening that finds a device that isn't enabled confuses
- opened 23000012, @confused by csw
a fault of no flag confuses
- @refused, answered f0000000, @confused in a write
a fault of both flags confuses
- @refused, answered f00000a0, @confused in a write
a fault of a bus error is cleared
- @refused, answered f0000020, @clears in a write
a fault of damaged data is cleared
- @refused, answered f0000080, @clears in a write";

#[test]
fn an_engine_does_what_each_reply_asks_for(rt: HostRuntime) {
    all_go(&rt, ROWS);
}

/// One call of the wire, as the engine asks for it. False where it asks for none.
pub(super) fn goes_on(wire: &mut Bench<Memory>, engine: &mut Engine) -> bool {
    match (engine.cue(), wire.due()) {
        (
            Some(
                Cue::Lead {
                    ones: 56,
                    undriven: 0,
                    switch: true,
                    zeros: 2,
                },
            ),
            Due::Nothing,
        ) => {
            wire.lead(56, true, 2);
            engine.done();
        }
        (Some(Cue::Ask(request)), Due::Nothing) => {
            let number = wire.ask(request);
            engine.seen(number);
        }
        (Some(Cue::Take), Due::Take) => {
            let bits = wire.take();
            engine.taken(bits);
        }
        (Some(Cue::Give(bits)), Due::Give) => {
            wire.give(bits);
            engine.done();
        }
        (Some(Cue::Pass), Due::Pass) => {
            wire.pass();
            engine.done();
        }
        _ => return false,
    }
    true
}

// Goes on to an outcome, and keeps the number of requests and what is begun where that changes.
fn changes(
    alloc: Global,
    wire: &mut Bench<Memory>,
    engine: &mut Engine,
) -> Result<Vec<(u64, u8)>, Fail> {
    let mut changes = Vec::new(alloc);
    for _ in 0..100u8 {
        let before = engine.begun();
        if !goes_on(wire, engine) {
            break;
        }
        if engine.begun() != before {
            changes.push((engine.requests(), engine.begun()))?;
        }
    }
    Ok(changes)
}

// An access and the one after it; the requests and what is begun at its start; the same where what is begun changes;
// and its answer.
type Begins = (
    Access,
    Option<Access>,
    (u64, u8),
    &'static [(u64, u8)],
    Answer,
);

const BEGINS: &[Begins] = &[
    (
        WRITE,
        Some(READ),
        (9, 0),
        &[(11, 1), (12, 0)],
        Answer::Written,
    ),
    (
        READ,
        None,
        (12, 0),
        &[(14, 1), (15, 0)],
        Answer::Value(0xdead_beef),
    ),
];

#[test]
fn an_access_is_begun_from_its_drw_request_to_its_answer(rt: HostRuntime) -> Result<(), Fail> {
    let mut bench = target_of::<Bench<Memory>>(rt.alloc(), &RUN, QUIRKS)?;
    let mut engine = Engine::new(8);
    let opening = changes(rt.alloc(), &mut bench, &mut engine)?;
    assert!(rt; opening.is_empty());
    expect_eq(&rt, &engine.finished(), &Some(Outcome::Opened));
    expect_eq(&rt, &(engine.requests(), engine.begun()), &(9, 0));
    for (access, following, at_start, begun, answer) in BEGINS {
        expect_at(&rt, access, starts(&mut engine, *access, *following));
        let found = (engine.requests(), engine.begun());
        expect_eq_at(&rt, access, &found, at_start);
        let changed = changes(rt.alloc(), &mut bench, &mut engine)?;
        expect_eq_at(&rt, access, &changed.as_slice(), begun);
        let outcome = Outcome::Answered(*answer);
        expect_eq_at(&rt, access, &engine.finished(), &Some(outcome));
    }
    Ok(())
}
