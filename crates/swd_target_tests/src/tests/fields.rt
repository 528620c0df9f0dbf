//! A clocked target goes by its numbers alone.
use super::cycle_texts::{Part, failing};
use super::expect::{expect_at, expect_eq};
use super::recorded::RUN;
use std::alloc::Global;
use std::process::Abort;
use swd_clocked::{Clocked, ClockedFields};
use swd_target::{Memory, Quirks};

fn new_target() -> Clocked<Memory> {
    let quirks = Quirks {
        wrap: true,
        late: true,
        filler: 0,
        idr: None,
    };
    Clocked::new(Memory::<Global>::window(0, None), quirks)
}

// The target of these numbers has them, too.
fn again<R: Abort>(rt: &R, fields: ClockedFields) -> Clocked<Memory> {
    let Some(target) = fields.clocked(Memory::<Global>::window(0, None)) else {
        panic!(rt; "these are the numbers of no target");
    };
    expect_eq(rt, &target.fields(), &fields);
    target
}

// After each part of the run the target is made anew of its numbers.
#[test]
fn a_run_goes_on_by_numbers(rt: HostRuntime) {
    let mut target = new_target();
    for part in RUN {
        expect_eq(&rt, &failing(&mut target, &[*part]), &None);
        target = again(&rt, target.fields());
    }
}

// In each cycle of a request and its data, too.
#[test]
fn every_frame_has_numbers_of_its_own(rt: HostRuntime) {
    let mut target = new_target();
    for part in RUN {
        let (bits, driven) = match part {
            Part::Sent(bits) => (*bits, true),
            Part::Seen(bits) => (*bits, false),
            Part::Ones(_) => (b"".as_slice(), true),
        };
        for bit in bits {
            let bit = *bit == b'1';
            let drive = if driven { Some(bit) } else { None };
            expect_eq(&rt, &target.cycle(drive), &bit);
            target = again(&rt, target.fields());
        }
    }
}

// A number of a target that is changed.
#[derive(Clone, Copy, Debug)]
enum Wrong {
    Kind,
    Place,
    Bits,
    Waits,
    Reset,
    Pending,
}

const WRONG: &[Wrong] = &[
    Wrong::Kind,
    Wrong::Place,
    Wrong::Bits,
    Wrong::Waits,
    Wrong::Reset,
    Wrong::Pending,
];

fn changed(fields: ClockedFields, wrong: Wrong) -> ClockedFields {
    let mut fields = fields;
    match wrong {
        Wrong::Kind => fields.frame.kind = 9,
        Wrong::Place => fields.frame.place = 8,
        Wrong::Bits => fields.frame.line.bits = 1,
        Wrong::Waits => fields.waits = 2,
        Wrong::Reset => fields.target.reset = 0,
        Wrong::Pending => fields.target.pending.word = 1,
    }
    fields
}

// One number after the other is none that a target has.
#[test]
fn numbers_of_no_target_are_refused(rt: HostRuntime) {
    for wrong in WRONG {
        let fields = changed(new_target().fields(), *wrong);
        let target = fields.clocked(Memory::<Global>::window(0, None));
        expect_at(&rt, wrong, target.is_none());
    }
}
