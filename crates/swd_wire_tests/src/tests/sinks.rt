//! Answers that are handed on as they come.
ghost use Rattle.std.specs.Vec.{vec_capacity};

use super::expect::expect_eq_at;
use super::transports::{Bridge, behind};
use std::cell::Cell;
use std::test::Fail;
use swd_host::{AnswerSink, Bursts, End, Ending, Refused, run_to};
use swd_port::{Access, Answer, Cue, Disconnected, Transport, TransportWire};
use swd_simulated::{Untold, WRITE};

// A target whose calls are counted.
#[derive(Drop)]
struct Watched<'a> {
    bridge: Bridge,
    calls: &'a Cell<u64>,
}

impl Transport for Watched<'_> {
    fn step(&mut self, cue: Cue) -> Result<u64, Disconnected> {
        self.calls.set(self.calls.get().saturating_add(1));
        self.bridge.step(cue)
    }
}

// The answers, and after how many calls the first four came.
#[derive(Drop)]
struct Moments<'a> {
    calls: &'a Cell<u64>,
    answers: Vec<Answer>,
    moments: [u64; 4],
}

impl AnswerSink for Moments<'_> {
    ghost taken = { λ sink. sink.answers.items };

    ghost most = { λ sink. vec_capacity sink.answers };

    ghost keeps = { λ _ _. Unit {0} };

    fn count(&self) -> usize {
        self.answers.len()
    }

    fn take(&mut self, answer: Answer) {
        let index = self.answers.len();
        if index < 4 {
            self.moments[index] = self.calls.get();
        }
        self.answers.push(answer).unwrap();
    }

    ghost keeps_all = { λ a. tt };

    ghost keeps_on = { λ a b c first next. tt };
}

// A row: its name, how many calls reach the target, the accesses, and what has to come: the answers with the number of
// calls after which each came, 0 where none did, and the end.
type Row = (
    &'static str,
    u64,
    &'static [Access],
    &'static [Answer],
    [u64; 4],
    Result<End, Refused>,
);

const FAR: Access = Access::Write(0x2000_0020, 7);

// The opening is a lead and nine requests, each with a data phase: 19 calls. An access takes requests of TAR, DRW and
// RDBUFF: six calls, and four where TAR has its address, which is incremented after each access. In a burst of writes
// the OK of the next DRW request confirms a write, before its own data phase.
const ROWS: &[Row] = &[
    (
        "a write, and a read of the next word",
        100,
        &[WRITE, Access::Read(0x2000_0004)],
        &[Answer::Written, Answer::Value(0)],
        [25, 29, 0, 0],
        Ok(End::All),
    ),
    (
        "a burst of two writes",
        100,
        &[WRITE, Access::Write(0x2000_0004, 7)],
        &[Answer::Written, Answer::Written],
        [24, 27, 0, 0],
        Ok(End::All),
    ),
    (
        "two writes at addresses apart",
        100,
        &[WRITE, FAR],
        &[Answer::Written, Answer::Written],
        [25, 31, 0, 0],
        Ok(End::All),
    ),
    (
        "the call that would confirm the second write is lost",
        29,
        &[WRITE, FAR],
        &[Answer::Written],
        [25, 0, 0, 0],
        Ok(End::Lost),
    ),
    (
        "nothing reaches the target",
        0,
        &[WRITE],
        &[],
        [0; 4],
        Ok(End::Lost),
    ),
    (
        "an address between words",
        100,
        &[WRITE, Access::Read(2)],
        &[],
        [0; 4],
        Err(Refused::Unaligned { index: 1 }),
    ),
];

fn ended(answer: Result<Ending, Refused>) -> Result<End, Refused> {
    match answer {
        Ok(ending) => Ok(ending.ended),
        Err(refused) => Err(refused),
    }
}

#[test]
fn answers_come_when_their_access_is_confirmed(rt: HostRuntime) -> Result<(), Fail> {
    let alloc = rt.alloc();
    for (name, reaching, accesses, answers, moments, end) in ROWS {
        let calls = Cell::new(0);
        let bridge = behind(alloc, *reaching)?;
        let mut wire: TransportWire<Watched, Untold> = TransportWire::new(Watched {
            bridge,
            calls: &calls,
        });
        let mut sink = Moments {
            calls: &calls,
            answers: Vec::with_capacity(alloc, accesses.len())?,
            moments: [0; 4],
        };
        let ran = run_to(&mut wire, accesses, Bursts::Writes, 8, &mut sink);
        expect_eq_at(&rt, name, &ended(ran), end);
        expect_eq_at(&rt, name, &sink.answers.as_slice(), answers);
        expect_eq_at(&rt, name, &sink.moments, moments);
    }
    Ok(())
}
