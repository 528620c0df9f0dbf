//! An engine driven through a write and a read, and given each other reply at each of their requests.
use super::engine::{goes_on, passed, seen, starts, taken};
use super::expect::expect_eq_at;
use std::alloc::Global;
use std::test::Fail;
use swd_host::{End, Engine, Outcome};
use swd_port::Cue;
use swd_simulated::{QUIRKS, READ, RUN, WRITE, target_of};
use swd_target::{Bench, Memory};

// The two accesses send fifteen requests.
const REQUESTS: u64 = 15;

// Whether the request with this number is one that is never answered WAIT or FAULT: DPIDR, ABORT, CTRL/STAT.
fn is_exempt(place: u64) -> bool {
    matches!(place, 1 | 2 | 3 | 6)
}

// An engine whose next cue is the request with this number. None where it never comes to it.
fn engine_at(alloc: Global, place: u64) -> Result<Option<Engine>, Fail> {
    let mut bench = target_of::<Bench<Memory>>(alloc, &RUN, QUIRKS)?;
    let mut engine = Engine::new(8);
    let mut accesses = [WRITE, READ].into_iter();
    for _ in 0..100u8 {
        if matches!(engine.cue(), Some(Cue::Ask(_)))
            && engine.requests().saturating_add(1) >= place
        {
            return Ok(Some(engine));
        }
        if goes_on(&mut bench, &mut engine) {
            continue;
        }
        let Some(access) = accesses.next() else {
            return Ok(None);
        };
        if !starts(&mut engine, access, None) {
            return Ok(None);
        }
    }
    Ok(None)
}

const REPLIES: &[(u8, End)] = &[
    (0, End::Lost),
    (3, End::Lost),
    (5, End::Lost),
    (6, End::Lost),
    (7, End::Lost),
    (2, End::Confused),
    (4, End::Confused),
];

// Neither an acknowledgement, nor one that the request may get, nor a FAULT for which CTRL/STAT has a flag.
#[test]
fn each_reply_that_no_target_gives_stops_an_engine_at_each_request(
    rt: HostRuntime,
) -> Result<(), Fail> {
    for place in 1..=REQUESTS {
        for (number, end) in REPLIES {
            let Some(mut engine) = engine_at(rt.alloc(), place)? else {
                panic!(rt; "no request {place}");
            };
            let number = *number;
            if !is_exempt(place) && number == 2 {
                continue;
            }
            let is_looked_into = !is_exempt(place) && number == 4;
            seen(&mut engine, number);
            passed(&mut engine);
            if is_looked_into {
                expect_eq_at(&rt, &(place, number), &engine.finished(), &None);
                seen(&mut engine, 1);
                taken(&mut engine, 0xf000_0000);
            }
            let requests = place.saturating_add(u64::from(is_looked_into));
            let ended = Some(Outcome::Stopped(*end));
            expect_eq_at(&rt, &(place, number), &engine.finished(), &ended);
            expect_eq_at(&rt, &(place, number), &engine.requests(), &requests);
            expect_eq_at(&rt, &(place, number), &engine.cue(), &None);
        }
    }
    Ok(())
}
