//! Reads that wait for a word: of a memory that stays, and of a target whose words change.
ghost use Rattle.std.specs.FinMap.{empty};
ghost use Rattle.std.specs.Prelude.{[]};
ghost use Rattle.swd_port.specs.PlainBus.{bus_of};
ghost use Rattle.swd_port.specs.Made.{port_made};

use super::expect::{expect_eq, expect_eq_at};
use super::{limits, reported, unwritten};
use linked_list_allocator::LocalHeap;
use std::alloc::Global;
use std::test::Fail;
use swd_fakes::ShortWriter;
use swd_host::End;
use swd_port::{Cue, Disconnected, Due, Register, Story, Transport, TransportWire, Wire};
use swd_run::{EngineFault, Finished, QUIRKS, Records, run_batches};
use swd_script::read_script;
use swd_target::{Bench, Memory};

// A target whose reads of words give these in turn, and then what its memory has. The word of a read of DRW is that of
// the request for RDBUFF after it.
#[derive(Drop)]
struct Changing {
    bench: Bench<Memory>,
    words: &'static [u32],
    given: usize,
    posted: bool,
    returned: bool,
}

impl Transport for Changing {
    fn step(&mut self, cue: Cue) -> Result<u64, Disconnected> {
        if let Cue::Ask(request) = cue {
            self.returned = self.posted && request == Register::RdbuffRead.request();
            self.posted = request == Register::DrwRead.request();
        }
        let seen = passed_on(&mut self.bench, cue)?;
        if cue != Cue::Take || !self.returned {
            return Ok(seen);
        }
        let word = self.words.get(self.given);
        self.given = self.given.saturating_add(1);
        match word {
            Some(word) => Ok(u64::from(word.count_ones() % 2) << 32 | u64::from(*word)),
            None => Ok(seen),
        }
    }
}

// The call, where the target can take it.
fn passed_on(bench: &mut Bench<Memory>, cue: Cue) -> Result<u64, Disconnected> {
    match (bench.due(), cue) {
        (
            Due::Nothing,
            Cue::Lead {
                ones,
                switch,
                zeros,
                ..
            },
        ) if ones >= 50 && zeros >= 2 => bench.lead(ones, switch, zeros),
        (
            Due::Nothing,
            Cue::Lead {
                ones: 0,
                switch: false,
                zeros,
                ..
            },
        ) => bench.idle(zeros),
        (Due::Nothing, Cue::Ask(request)) => return Ok(u64::from(bench.ask(request))),
        (Due::Take, Cue::Take) => return Ok(bench.take()),
        (Due::Give, Cue::Give(bits)) if bits < 0x2_0000_0000 => bench.give(bits),
        (Due::Pass, Cue::Pass) => bench.pass(),
        _ => return Err(Disconnected),
    }
    Ok(0)
}

// Any story.
struct Untold;

impl Story for Untold {
    ghost at = { λ _. port_made 0 (bus_of (record { words = empty; log = []; room = 0 })) };
}

// The calls of a script at a target whose reads give these words, and their report.
fn run_at(
    alloc: Global,
    script: &[u8],
    words: &'static [u32],
) -> Result<(Result<Finished, EngineFault>, Vec<u8>), Fail> {
    let mut text = script;
    let Ok(script) = read_script(alloc, &mut text) else {
        return Err(Fail::from("the script is not valid"));
    };
    let memory = Memory::new(alloc, 0x2000_0000, 16, 64)?;
    let changing = Changing {
        bench: Bench::new(memory, QUIRKS, Vec::new(alloc)),
        words,
        given: 0,
        posted: false,
        returned: false,
    };
    let wire: TransportWire<Changing, Untold> = TransportWire::new(changing);
    let batches = script.batches.as_slice();
    let mut report = Vec::new(alloc);
    let (answer, _) = run_batches(
        alloc,
        wire,
        batches,
        limits(0),
        &mut report,
        &mut Records::<Vec<u8>>::none(),
    );
    Ok((answer, report))
}

// A script at such a target, whether its word never came, and its report.
type Changed = (
    &'static str,
    &'static [u8],
    &'static [u32],
    bool,
    &'static [u8],
);

const CHANGED: &[Changed] = &[
    (
        "the word comes at the third read, and a further call is made",
        b"memory 20000000 16\nuntil 20000004 1 1 5\nr 20000004\n",
        &[0, 2, 3],
        false,
        b"r 20000004 00000003 reads 3\nend all 1\nr 20000004 00000000\nend all 1\n",
    ),
    (
        "at the last read that is allowed",
        b"memory 20000000 16\nuntil 20000004 80000000 80000000 3\n",
        &[0x7fff_ffff, 0, 0xffff_ffff],
        false,
        b"r 20000004 ffffffff reads 3\nend all 1\n",
    ),
    (
        "one read too late",
        b"memory 20000000 16\nuntil 20000004 1 1 2\nr 20000004\n",
        &[0, 2, 3],
        true,
        b"r 20000004 00000002 reads 2\nend until 1\n",
    ),
    (
        "it was there before the first read alone",
        b"memory 20000000 16\nr 20000004\nuntil 20000004 f 1 3\n",
        &[1, 2, 3, 5, 1],
        true,
        b"r 20000004 00000001\nend all 1\nr 20000004 00000005 reads 3\nend until 1\n",
    ),
    (
        "two that wait, the second for the bit to clear",
        b"memory 20000000 16\nuntil 20000004 10000 10000 9\nuntil 20000004 10000 0 9\n",
        &[0, 0x1_0000, 0x1_0000, 0x1_0001, 0xfffe_ffff],
        false,
        b"r 20000004 00010000 reads 2\nend all 1\nr 20000004 fffeffff reads 3\nend all 1\n",
    ),
    (
        "after the tenth read the number has two digits",
        b"memory 20000000 16\nuntil 20000004 ff ff 1000\n",
        &[0, 1, 2, 3, 4, 5, 6, 7, 8, 9, 0xff],
        false,
        b"r 20000004 000000ff reads 11\nend all 1\n",
    ),
];

#[test]
fn a_word_that_comes_is_awaited(rt: HostRuntime) -> Result<(), Fail> {
    for (name, script, words, never_came, report) in CHANGED {
        let (answer, text) = run_at(rt.alloc(), script, words)?;
        expect_eq_at(&rt, name, &text.as_slice(), report);
        let wanted = Finished {
            ended: End::All,
            never_came: *never_came,
            differs: None,
            bus_fault: false,
            full: None,
        };
        expect_eq_at(&rt, name, &answer, &Ok(wanted));
    }
    Ok(())
}

const AWAITED: &[u8] = b"memory 20000000 1\nr 20000000\nuntil 20000000 1 1 3\n";

const AWAITED_REPORT: &[u8] =
    b"r 20000000 00000000\nend all 1\nr 20000000 00000000 reads 3\nend until 1\n";

// A writer that fails after so many bytes has exactly the first ones.
#[test]
fn a_writer_that_fails_has_the_first_bytes(rt: HostRuntime) {
    for room in 0..AWAITED_REPORT.len() {
        let mut writer = ShortWriter::new(rt.alloc(), room, true);
        let answer = reported(rt.alloc(), AWAITED, b"", 0, &mut writer);
        expect_eq(&rt, &answer, &unwritten(room));
        expect_eq(&rt, &writer.taken(), &&AWAITED_REPORT[..room]);
    }
}

// Where memory is refused for a read, the reports before it are written, and nothing of its own.
#[test]
fn an_until_where_memory_ends(rt: HostRuntime) -> Result<(), Fail> {
    let mut refused = false;
    let mut done = false;
    for size in 1..400usize {
        let heap = LocalHeap::new(rt.alloc(), size * 16)?;
        let script = b"memory 20000000 16\nroom 8\nuntil 20000000 1 1 3\n";
        let mut report = Vec::new(rt.alloc());
        let answer = reported(&heap, script, b"", 0, &mut report);
        match answer {
            Ok(finished) => {
                assert!(rt; finished.never_came);
                expect_eq(
                    &rt,
                    &report.as_slice(),
                    &b"r 20000000 00000000 reads 3\nend until 1\n".as_slice(),
                );
                done = true;
            }
            Err(_) => {
                assert!(rt; report.is_empty());
                refused = true;
            }
        }
        expect_eq(&rt, &heap.used(), &0);
    }
    assert!(rt; refused && done);
    Ok(())
}
