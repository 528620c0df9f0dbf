//! The exported clocked target beside that of Rattle, cycle by cycle. The host uses only the exports, and its caller
//! has a bus of sixteen words.
use super::driver::{
    ALL, BUS_FAULT, NO_RUN, REFUSED, REST, VALUE, WRITTEN, plain, read, value, write,
};
use super::expect::{expect_at, expect_eq, expect_eq_at};
use crate::{
    SwdAccess, SwdCue, swd_run_cue, swd_run_new, swd_run_next, swd_target_cycle, swd_target_hold,
    swd_target_new, swd_target_settle, swd_target_wants,
};
use std::process::Abort;
use std::test::Fail;
use swd_clocked::{Clocked, ClockedFields, FrameFields, LineFields};
use swd_host::OutcomeFields;
use swd_target::{ContentFields, Memory, PendingFields, Quirks, TargetFields};

const BASE: u32 = 0x2000_0000;

const NO_CONTENT: ContentFields = ContentFields { word: 0, known: 0 };

const NO_TARGET: ClockedFields = ClockedFields {
    cycles: 0,
    frame: FrameFields {
        line: LineFields {
            bits: 0,
            kind: 0,
            register: 0,
            flips: 0,
            flip: 0,
        },
        kind: 0,
        place: 0,
        byte: 0,
        reply: 0,
    },
    target: TargetFields {
        tar: NO_CONTENT,
        buffer: NO_CONTENT,
        last_returned: NO_CONTENT,
        pending: PendingFields { word: 0, kind: 0 },
        filler: 0,
        wrap: 0,
        late: 0,
        reset: 0,
        sticky_error: 0,
        write_error: 0,
        read_ok: 0,
        debug_power: 0,
        system_power: 0,
        power_up: 0,
        apsel: 0,
        apbanksel: 0,
        dpbanksel: 0,
        increments: 0,
        csw_upper: 0,
    },
    waits: 0,
};

fn new_target() -> ClockedFields {
    let mut target = NO_TARGET;
    swd_target_new(&mut target, 1, 0);
    target
}

// An exported target with the caller's bus, and the same target in Rattle over a memory.
#[derive(Drop)]
struct Pair {
    target: ClockedFields,
    words: [u32; 16],
    transfers: u32,
    twin: Clocked<Memory>,
    // Transfers are made as soon as they are wanted, and not as late as allowed.
    at_once: bool,
    alike: bool,
}

impl Pair {
    // Makes the wanted transfer on the bus, and passes its result to the target.
    fn transfer(&mut self) -> bool {
        let wanted = swd_target_wants(&self.target);
        let place = (wanted.addr.wrapping_sub(BASE) / 4) as usize;
        if place >= self.words.len() || wanted.addr % 4 != 0 {
            return swd_target_settle(&mut self.target, BUS_FAULT, 0);
        }
        self.transfers = self.transfers.saturating_add(1);
        if wanted.kind == 1 {
            let word = self.words[place];
            return swd_target_settle(&mut self.target, VALUE, word);
        }
        self.words[place] = wanted.word;
        swd_target_settle(&mut self.target, WRITTEN, 0)
    }

    // Performs one clock of both.
    fn cycle(&mut self, drive: Option<bool>) -> bool {
        let number = match drive {
            Some(bit) => u8::from(bit),
            None => 2,
        };
        let mut line = swd_target_cycle(&mut self.target, number);
        if line == 2 {
            self.alike &= self.transfer();
            line = swd_target_cycle(&mut self.target, number);
        }
        let seen = self.twin.cycle(drive);
        if self.at_once && swd_target_wants(&self.target).kind != 0 {
            self.alike &= self.transfer();
            self.twin.settle();
        }
        self.alike &= line == u8::from(seen) && self.target.cycles == self.twin.fields().cycles;
        seen
    }

    fn send(&mut self, bits: u64, count: u32) {
        let mut rest = bits;
        for _ in 0..count {
            let _ = self.cycle(Some(rest % 2 == 1));
            rest /= 2;
        }
    }

    fn leave(&mut self, count: u32) {
        for _ in 0..count {
            let _ = self.cycle(None);
        }
    }

    // Samples `count` bits; the last one is in bit 63.
    fn see(&mut self, count: u32) -> u64 {
        let mut seen = 0u64;
        for _ in 0..count {
            seen = seen >> 1 | u64::from(self.cycle(None)) << 63;
        }
        seen
    }

    fn ones(&mut self, cue: SwdCue) {
        let left = cue.undriven.min(cue.ones);
        self.leave(left);
        for _ in left..cue.ones {
            let _ = self.cycle(Some(true));
        }
    }

    // Performs a cue, and returns the reply.
    fn reply(&mut self, cue: SwdCue) -> u64 {
        match cue.kind {
            1 => {
                self.ones(cue);
                if cue.with_switch != 0 {
                    self.send(0xe79e, 16);
                    self.ones(cue);
                }
                self.send(0, cue.zeros);
                0
            }
            2 => {
                self.send(u64::from(cue.request), 8);
                self.leave(1);
                self.see(3) >> 61
            }
            3 => {
                let bits = self.see(33) >> 31;
                self.leave(1);
                bits
            }
            4 => {
                self.leave(1);
                self.send(cue.bits, 33);
                0
            }
            _ => {
                self.leave(1);
                0
            }
        }
    }

    // Performs a new run over these accesses. Returns the kind of its end.
    fn perform(&mut self, accesses: &[SwdAccess], answers: &mut [OutcomeFields]) -> u8 {
        let mut run = NO_RUN;
        swd_run_new(&mut run, 8);
        let mut cue = swd_run_cue(&run);
        for _ in 0..1_000u32 {
            if cue.kind == REST || cue.kind == REFUSED {
                break;
            }
            let reply = self.reply(cue);
            cue = swd_run_next(&mut run, accesses, answers, reply);
        }
        cue.outcome.kind
    }
}

fn is_alike<R: Abort>(rt: &R, name: &str, pair: &Pair) {
    expect_at(rt, &name, pair.alike);
    let memory = pair.twin.memory();
    expect_eq_at(rt, &name, &memory.log().len(), &(pair.transfers as usize));
    for (place, word) in pair.words.iter().enumerate() {
        expect_eq_at(
            rt,
            &name,
            &memory.word(BASE + 4 * place as u32),
            &Some(*word),
        );
    }
}

// The levels, counts and words agree, whether transfers are made at once or as late as allowed.
#[test]
fn accesses_over_the_exported_target(rt: HostRuntime) -> Result<(), Fail> {
    let accesses = [
        write(0x2000_0004, 0xdead_beef),
        write(0x2000_0008, 0x0123_4567),
        write(0x2000_000c, 0x89ab_cdef),
        read(0x2000_0004),
        read(0x2000_0040),
        read(0x2000_0008),
        write(0x1fff_fffc, 1),
        read(0x2000_000c),
    ];
    let answers = [
        plain(WRITTEN),
        plain(WRITTEN),
        plain(WRITTEN),
        value(0xdead_beef),
        plain(BUS_FAULT),
        value(0x0123_4567),
        plain(BUS_FAULT),
        value(0x89ab_cdef),
    ];
    for (name, at_once) in &[("at once", true), ("late", false)] {
        let quirks = Quirks {
            wrap: true,
            late: true,
            filler: 0,
            idr: None,
        };
        let memory = Memory::new(rt.alloc(), BASE, 16, 16)?;
        let mut pair = Pair {
            target: new_target(),
            words: [0; 16],
            transfers: 0,
            twin: Clocked::new(memory, quirks),
            at_once: *at_once,
            alike: true,
        };
        let mut told = [plain(0); 8];
        expect_eq_at(&rt, &name, &pair.perform(&accesses, &mut told), &ALL);
        expect_eq_at(&rt, &name, &told, &answers);
        is_alike(&rt, name, &pair);
    }
    Ok(())
}

// Checks the wanted transfer and the results that it can't have. Then WAIT is answered while a transfer is pending.
#[test]
fn a_slow_bus_is_waited_for(rt: HostRuntime) -> Result<(), Fail> {
    let quirks = Quirks {
        wrap: true,
        late: true,
        filler: 0,
        idr: None,
    };
    let memory = Memory::new(rt.alloc(), BASE, 16, 16)?;
    let mut pair = Pair {
        target: new_target(),
        words: [7; 16],
        transfers: 0,
        twin: Clocked::new(memory, quirks),
        at_once: false,
        alike: true,
    };
    expect_eq(&rt, &pair.perform(&[], &mut []), &ALL);
    assert!(rt; !swd_target_settle(&mut pair.target, VALUE, 7));
    // TAR, and a read of DRW.
    for (request, data) in &[(0x8b, Some(0x2000_0004u64)), (0x9f, None)] {
        pair.send(*request, 8);
        pair.leave(1);
        expect_eq(&rt, &(pair.see(3) >> 61), &1);
        pair.leave(1);
        match data {
            Some(word) => pair.send(*word | (u64::from(word.count_ones()) % 2) << 32, 33),
            None => pair.leave(33),
        }
    }
    let wanted = swd_target_wants(&pair.target);
    expect_eq(
        &rt,
        &(wanted.kind, wanted.addr, wanted.word),
        &(1, 0x2000_0004, 0),
    );
    // RDBUFF is answered WAIT while the target is busy.
    assert!(rt; swd_target_hold(&mut pair.target, 1));
    pair.twin.hold(true);
    pair.send(0xbd, 8);
    pair.leave(1);
    expect_eq(&rt, &(pair.see(3) >> 61), &2);
    pair.leave(1);
    assert!(rt; swd_target_hold(&mut pair.target, 0));
    pair.twin.hold(false);
    // The result of a read can't be `WRITTEN` or another kind.
    for kind in &[0, 1, WRITTEN, 5, 255] {
        assert!(rt; !swd_target_settle(&mut pair.target, *kind, 7));
    }
    assert!(rt; swd_target_settle(&mut pair.target, VALUE, 0));
    expect_eq(&rt, &swd_target_wants(&pair.target).kind, &0);
    pair.twin.settle();
    pair.send(0xbd, 8);
    pair.leave(1);
    expect_eq(&rt, &(pair.see(3) >> 61), &1);
    expect_eq(&rt, &(pair.see(33) >> 31), &0);
    assert!(rt; pair.alike);
    Ok(())
}

fn refuses<R: Abort>(rt: &R, fields: ClockedFields) {
    let mut now = fields;
    expect_eq(rt, &swd_target_cycle(&mut now, 1), &255);
    assert!(rt; !swd_target_hold(&mut now, 1));
    assert!(rt; !swd_target_settle(&mut now, BUS_FAULT, 0));
    expect_eq(rt, &now, &fields);
}

// What the exports refuse, with the caller's memory unchanged.
#[test]
fn numbers_of_no_target_are_refused(rt: HostRuntime) {
    refuses(&rt, NO_TARGET);
    let mut now = new_target();
    let whole = now;
    for drive in [3, 4, 255] {
        expect_eq(&rt, &swd_target_cycle(&mut now, drive), &255);
    }
    expect_eq(&rt, &now, &whole);
    now.target.late = 0;
    refuses(&rt, now);
    let mut now = whole;
    now.frame.place = 8;
    refuses(&rt, now);
    let mut now = whole;
    now.target.reset = 4;
    refuses(&rt, now);
    let mut now = whole;
    now.waits = 2;
    refuses(&rt, now);
}
