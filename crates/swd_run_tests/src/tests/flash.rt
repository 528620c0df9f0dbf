//! A script that programs flash, over a controller with keys, a busy flag and errors, also where the target says WAIT
//! or a bit of a data phase is corrupted.
ghost use Rattle.std.specs.Prelude.{IfOk};
ghost use Rattle.swd_port.specs.Choices.{IsPortMark};
ghost use Rattle.swd_target.specs.Marks.{IsLegalPlan};

use super::expect::{expect_eq, expect_eq_at};
use super::{ended_with, limits};
use std::alloc::{AllocError, Global};
use std::process::Abort;
use std::test::Fail;
use swd_devices::{Flash, Lock, Seen};
use swd_host::End;
use swd_port::Mark;
use swd_run::{QUIRKS, Records, run_batches};
use swd_script::read_script;
use swd_target::{Attached, Bench};

const SCRIPT: &[u8] = b"memory 0x40022000 16
until 0x40022010 0x50000 0 1000
w 0x40022008 0x45670123
w 0x40022008 0xcdef89ab
until 0x40022014 0x80000000 0 1
w 0x40022010 0xc3fb
w 0x40022014 0x52
w 0x40022014 0x10052
until 0x40022010 0x50000 0 100000
w 0x40022014 0x1
w 0x08005000 0xdeadbeef
w 0x08005004 0x00c0ffee
until 0x40022010 0x50000 0 1000
w 0x40022014 0x80000000
verify 0x08005000 0xdeadbeef
verify 0x08005004 0x00c0ffee
";

// The controller is busy for three reads of its status after it erased, and after it programmed.
const WORK: u32 = 3;

const REPORT: &[u8] = b"r 40022010 00000000 reads 1
end all 1
w 40022008 written
w 40022008 written
end all 2
r 40022014 00000000 reads 1
end all 1
w 40022010 written
w 40022014 written
w 40022014 written
end all 3
r 40022010 00000000 reads 4
end all 1
w 40022014 written
w 08005000 written
w 08005004 written
end all 3
r 40022010 00000000 reads 4
end all 1
w 40022014 written
r 08005000 deadbeef
r 08005004 00c0ffee
end all 3
";

// The controller once all was done, each access once.
const PROGRAMMED: Flash = Flash {
    lock: Lock::Locked,
    busy: 0,
    work: WORK,
    failed: false,
    command: 0x8000_0000,
    half: None,
    low: 0xdead_beef,
    high: 0x00c0_ffee,
    keys_seen: Seen {
        reads: 0,
        writes: 2,
    },
    control_seen: Seen {
        reads: 1,
        writes: 4,
    },
    page_seen: Seen {
        reads: 2,
        writes: 2,
    },
};

// More requests than the script takes.
const PLACES: usize = 240;

// Returns a plan with this mark at one request.
fn plan(alloc: Global, place: usize, mark: Mark) -> Result<Vec<Mark>, AllocError>
    requires { IsPortMark mark }
    ensures { IfOk result (λ plan. IsLegalPlan plan.items) }
{
    let mut plan = Vec::with_capacity(alloc, PLACES)?;
    for now in 0..PLACES {
        plan.push(if now == place { mark } else { Mark::Clean })?;
    }
    Ok(plan)
}

// Runs the script at a page that has other words before.
fn programs_under<R: Abort>(rt: &R, alloc: Global, place: usize, mark: Mark) -> Result<(), Fail>
    requires { IsPortMark mark }
{
    let mut text = SCRIPT;
    let Ok(script) = read_script(alloc, &mut text) else {
        return Err(Fail::from("the script is not valid"));
    };
    let device = Attached::new(Flash::new(0, 0x1234_5678, WORK));
    let bench = Bench::new(device, QUIRKS, plan(alloc, place, mark)?);
    let mut report = Vec::new(alloc);
    let (answer, bench) = run_batches(
        alloc,
        bench,
        script.batches.as_slice(),
        limits(0),
        &mut report,
        &mut Records::<Vec<u8>>::none(),
    );
    expect_eq_at(rt, &(place, mark), &answer, &ended_with(End::All, REPORT));
    expect_eq_at(rt, &(place, mark), &report.as_slice(), &REPORT);
    expect_eq_at(rt, &(place, mark), bench.device().peripheral(), &PROGRAMMED);
    Ok(())
}

#[test]
fn flash_is_programmed_once_under_each_mark(rt: HostRuntime) -> Result<(), Fail> {
    for place in 0..PLACES {
        for mark in [Mark::Wait, Mark::Flip(0), Mark::Flip(31), Mark::Flip(32)] {
            programs_under(&rt, rt.alloc(), place, mark)?;
        }
    }
    Ok(())
}

// A key that comes a second time shuts the controller, so that the script's first command fails.
#[test]
fn a_key_that_is_written_twice_shows(rt: HostRuntime) {
    let mut flash = Attached::new(Flash::new(0, 0, WORK));
    expect_eq(
        &rt,
        &swd_target::Device::write(&mut flash, Flash::KEYS, 0x4567_0123),
        &true,
    );
    expect_eq(
        &rt,
        &swd_target::Device::write(&mut flash, Flash::KEYS, 0x4567_0123),
        &true,
    );
    expect_eq(
        &rt,
        &swd_target::Device::write(&mut flash, Flash::KEYS, 0xcdef_89ab),
        &true,
    );
    expect_eq(
        &rt,
        &swd_target::Device::write(&mut flash, Flash::CONTROL, 0x52),
        &false,
    );
}
