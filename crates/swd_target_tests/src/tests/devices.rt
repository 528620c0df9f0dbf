//! Targets over registers that each access changes.
ghost use Rattle.std.specs.Prelude.{◌≡◌, ◌+◌, ◌%◌, ◌^◌, ◌==◌, Some, None, if◌then◌else◌};

use super::expect::{expect_at, expect_eq_at};
use super::registers::{
    ABORT, CONTROL, CSW, DPIDR, DRW, DRW_READ, FILLER, IDENTIFICATION, RDBUFF, STATUS, TAR, read,
    reply, write,
};
use std::process::Abort;
use swd_port::{Access, Reply};
use swd_target::port::Target;
use swd_target::{Attached, Peripheral, Quirks};

// A register that counts its accesses, also those that are a bus error. Every third one is.
#[derive(Debug, Drop)]
struct Counter {
    count: u32,
}

impl Counter {
    // Counts an access, and returns what it was answered.
    fn count(&mut self) -> Option<u32>
        ensures answer { result ≡ (if self.old.count % 3 == 2 then None else Some self.old.count) }
        ensures after { self.new ≡ record { count = (self.old.count + 1) % 2 ^ 32 } }
    {
        let count = self.count;
        self.count = count.wrapping_add(1);
        if count % 3 == 2 { None } else { Some(count) }
    }
}

impl Peripheral for Counter {
    ghost answer = { λ access s. if s.count % 3 == 2 then None else Some s.count };

    ghost after = { λ access s. record { count = (s.count + 1) % 2 ^ 32 } };

    fn read(&mut self, _addr: u32) -> Option<u32> {
        self.count()
    }

    fn write(&mut self, _addr: u32, _word: u32) -> bool {
        self.count().is_some()
    }

    fn would_succeed(&self, _access: Access) -> bool {
        self.count % 3 != 2
    }
}

// The writes that make the debug port and the access port ready for transfers.
const OPENING: &[(u8, u32)] = &[
    (CONTROL, 0x5000_0000),
    (CSW, 0x2300_0002),
    (TAR, 0x4000_0000),
];

// A target over the register, with its debug port and its access port ready for transfers.
fn ready<R: Abort>(rt: &R, late: bool) -> Target<Attached<Counter>> {
    let quirks = Quirks {
        wrap: true,
        late,
        filler: FILLER,
        idr: None,
    };
    let mut target = Target::new(Attached::new(Counter { count: 0 }), quirks);
    target.line_reset(false);
    expect_eq_at(rt, &late, &read(&mut target, DPIDR), &Some(IDENTIFICATION));
    for (byte, word) in OPENING {
        expect_at(rt, &(late, *byte), write(&mut target, *byte, *word, None));
    }
    target
}

fn counted(target: &Target<Attached<Counter>>) -> u32 {
    target.device().peripheral().count
}

// Whether a transfer takes effect at once or late, each is one access: a write, a read that is posted, and a write that
// is a bus error.
#[test]
fn each_transfer_is_one_access(rt: HostRuntime) {
    for late in [false, true] {
        let mut target = ready(&rt, late);
        expect_eq_at(&rt, &late, &counted(&target), &0);
        expect_at(&rt, &late, write(&mut target, DRW, 7, None));
        expect_eq_at(&rt, &late, &counted(&target), &u32::from(!late));
        expect_eq_at(&rt, &late, &read(&mut target, DRW_READ), &Some(FILLER));
        // The second access finds that one came before it.
        expect_eq_at(&rt, &late, &read(&mut target, RDBUFF), &Some(1));
        expect_eq_at(&rt, &late, &counted(&target), &2);
        expect_at(&rt, &late, write(&mut target, DRW, 9, None));
        expect_eq_at(
            &rt,
            &late,
            &reply(&mut target, RDBUFF, false),
            &Some(Reply::Faults),
        );
        expect_eq_at(&rt, &late, &counted(&target), &3);
        expect_eq_at(&rt, &late, &read(&mut target, STATUS), &Some(0xf000_0020));
        // After the error the next transfer succeeds.
        expect_at(&rt, &late, write(&mut target, ABORT, 4, None));
        expect_at(&rt, &late, write(&mut target, DRW, 9, None));
        expect_eq_at(
            &rt,
            &late,
            &reply(&mut target, RDBUFF, false),
            &Some(Reply::Okay),
        );
        expect_eq_at(&rt, &late, &counted(&target), &4);
    }
}

// A transfer that would succeed is left pending by WAIT, and isn't made. WAIT doesn't replace the FAULT of a bus error.
#[test]
fn wait_makes_no_access(rt: HostRuntime) {
    let mut target = ready(&rt, true);
    for count in 0..2u32 {
        expect_at(&rt, &count, write(&mut target, DRW, 7, None));
        for _ in 0..3u32 {
            expect_eq_at(
                &rt,
                &count,
                &reply(&mut target, RDBUFF, true),
                &Some(Reply::Waits),
            );
            expect_eq_at(&rt, &count, &counted(&target), &count);
        }
        expect_eq_at(
            &rt,
            &count,
            &reply(&mut target, RDBUFF, false),
            &Some(Reply::Okay),
        );
    }
    expect_at(&rt, &2, write(&mut target, DRW, 7, None));
    expect_eq_at(&rt, &2, &counted(&target), &2);
    expect_eq_at(
        &rt,
        &2,
        &reply(&mut target, RDBUFF, true),
        &Some(Reply::Faults),
    );
    expect_eq_at(&rt, &2, &counted(&target), &3);
}
