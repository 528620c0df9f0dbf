//! Scripts at targets that answer the first request as none does, or have another identification: the run ends there,
//! nothing more is sent, and no other call is made.
use super::expect::expect_eq_at;
use super::limits;
use super::memory_server::Untold;
use std::process::Abort;
use std::test::Fail;
use swd_ends::{RemoteRan, run_remote};
use swd_host::End;
use swd_port::{Cue, Disconnected, Transport, TransportWire};
use swd_remote::Line;
use swd_run::{Finished, Records, run_batches};
use swd_script::read_script;

// The first request is a read of DPIDR, which no target answers WAIT or FAULT. Bit 0 of an identification is 1.
struct Row {
    name: &'static str,
    // The acknowledgement, and the data phase after it.
    acknowledgement: u64,
    data: u64,
    // The same as levels, the first one in time first.
    levels: &'static [u8],
    ended: End,
    report: &'static [u8],
}

const ROWS: &[Row] = &[
    Row {
        name: "WAIT",
        acknowledgement: 2,
        data: 0,
        levels: b"010",
        ended: End::Confused,
        report: b"end confused 0 begun 0\n",
    },
    Row {
        name: "FAULT",
        acknowledgement: 4,
        data: 0,
        levels: b"001",
        ended: End::Confused,
        report: b"end confused 0 begun 0\n",
    },
    // 2ba01476 has thirteen ones, so that its parity is 1.
    Row {
        name: "another identification",
        acknowledgement: 1,
        data: 0x1_2ba0_1476,
        levels: b"100011011100010100000000101110101001",
        ended: End::WrongId(0x2ba0_1476),
        report: b"end id 2ba01476\n",
    },
];

const SCRIPT: &[u8] = b"memory 20000000 16\nw 20000000 deadbeef\nnext\nr 20000000\n";

// Returns the result of a run that ended so.
fn finished(ended: End) -> Finished {
    Finished {
        ended,
        never_came: false,
        differs: None,
        bus_fault: false,
        full: None,
    }
}

// A target that answers its first request so, and no further one. It counts the calls.
#[derive(Drop)]
struct Answering {
    acknowledgement: u64,
    data: u64,
    asked: u32,
    given: u32,
}

impl Transport for Answering {
    fn step(&mut self, cue: Cue) -> Result<u64, Disconnected> {
        match cue {
            Cue::Ask(_) => {
                self.asked = self.asked.saturating_add(1);
                Ok(self.acknowledgement)
            }
            Cue::Take => Ok(self.data),
            Cue::Give(_) => {
                self.given = self.given.saturating_add(1);
                Ok(0)
            }
            _ => Ok(0),
        }
    }
}

#[test]
fn batches_stop_where_no_target_answers_so(rt: HostRuntime) -> Result<(), Fail> {
    for row in ROWS {
        let mut text = SCRIPT;
        let Ok(script) = read_script(rt.alloc(), &mut text) else {
            return Err(Fail::from("the script is not valid"));
        };
        for traced in [false, true] {
            let wire: TransportWire<Answering, Untold> = TransportWire::new(Answering {
                acknowledgement: row.acknowledgement,
                data: row.data,
                asked: 0,
                given: 0,
            });
            let mut records = Records {
                trace: traced.then(|| Vec::new(rt.alloc())),
                accesses: None,
                printer: (),
                progress: (),
            };
            let mut report = Vec::new(rt.alloc());
            let (answer, wire) = run_batches(
                rt.alloc(),
                wire,
                script.batches.as_slice(),
                limits(1),
                &mut report,
                &mut records,
            );
            let target = wire.into_transport();
            let at = (row.name, traced);
            expect_eq_at(&rt, &at, &answer, &Ok(finished(row.ended)));
            expect_eq_at(&rt, &at, &report.as_slice(), &row.report);
            expect_eq_at(&rt, &at, &(target.asked, target.given), &(1, 0));
        }
    }
    Ok(())
}

// Were there a further request, its levels would be missing.
#[test]
fn a_remote_run_stops_where_no_target_answers_so(rt: HostRuntime) {
    for row in ROWS {
        let mut sent = Vec::new(rt.alloc());
        let mut report = Vec::new(rt.alloc());
        let mut script = SCRIPT;
        let RemoteRan { answer, line, .. } = run_remote::<Untold, _, _, _, _, _, _, _, _>(
            rt.alloc(),
            &mut script,
            Line::characters(row.levels, &mut sent),
            limits(1),
            &mut report,
            Records::<Vec<u8>>::none(),
        );
        expect_eq_at(&rt, &row.name, &answer, &Ok(finished(row.ended)));
        expect_eq_at(&rt, &row.name, &line.fault, &None);
        expect_eq_at(&rt, &row.name, &report.as_slice(), &row.report);
        expect_ended(&rt, row.name, sent.as_slice());
    }
}

// The last character says that the host is done.
fn expect_ended<R: Abort>(rt: &R, name: &'static str, sent: &[u8]) {
    expect_eq_at(rt, &name, &sent.last(), &Some(&b'Q'));
}
