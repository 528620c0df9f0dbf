//! Loads, dumps and verifications at targets that break the protocol.
ghost use Rattle.std.specs.FinMap.{empty};
ghost use Rattle.std.specs.Prelude.{[]};
ghost use Rattle.swd_port.specs.PlainBus.{bus_of};
ghost use Rattle.swd_port.specs.Made.{port_made};

use super::expect::expect_eq_at;
use super::{BASE, dump_at, load_at, verify_at};
use std::test::Fail;
use swd_host::End;
use swd_image::ImageFault;
use swd_port::{Cue, Disconnected, Story, Transport, TransportWire};

// Any story.
struct Untold;

impl Story for Untold {
    ghost at = { λ _. port_made 0 (bus_of (record { words = empty; log = []; room = 0 })) };
}

// A target that gives each request this answer, and each read these 33 bits. It counts the requests.
#[derive(Drop)]
struct Always {
    answer: u64,
    bits: u64,
    requests: u64,
}

impl Transport for Always {
    fn step(&mut self, cue: Cue) -> Result<u64, Disconnected> {
        match cue {
            Cue::Ask(_) => {
                self.requests = self.requests.saturating_add(1);
                Ok(self.answer)
            }
            Cue::Take => Ok(self.bits),
            _ => Ok(0),
        }
    }
}

const ANSWERS: &[(u64, End)] = &[(2, End::Confused), (4, End::Confused), (1, End::WrongId(0))];

const JOBS: &[&str] = &["load", "dump", "verify"];

// The read of DPIDR is answered WAIT or FAULT, or its word isn't an identification. No further request is sent.
#[test]
fn an_image_stops_at_the_first_request(rt: HostRuntime) -> Result<(), Fail> {
    let bytes = b"12345".as_slice();
    for (answer, end) in ANSWERS {
        let stopped = Some(ImageFault::Stopped(*end));
        for job in JOBS {
            let job = *job;
            let mut wire: TransportWire<Always, Untold> = TransportWire::new(Always {
                answer: *answer,
                bits: 0,
                requests: 0,
            });
            let fault = match job {
                "load" => load_at(rt.alloc(), &mut wire, BASE + 1, bytes, 3).and_then(Result::err),
                "dump" => dump_at(rt.alloc(), &mut wire, BASE + 1, 5, 3).and_then(Result::err),
                _ => verify_at(rt.alloc(), &mut wire, BASE + 1, bytes, 3).and_then(Result::err),
            };
            expect_eq_at(&rt, &(job, answer), &fault, &stopped);
            let requests = wire.into_transport().requests;
            expect_eq_at(&rt, &(job, answer), &requests, &1);
        }
    }
    Ok(())
}
