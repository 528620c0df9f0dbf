//! Reports that are written while their calls go on. Each read of address 0 is three requests after the nine of the
//! opening, and its line has 20 bytes.
ghost use Rattle.std.specs.Prelude.{IfOk};
ghost use Rattle.swd_target.specs.Marks.{IsLegalPlan};

use super::expect::expect_eq_at;
use super::limits;
use std::alloc::Global;
use std::cell::Cell;
use std::io;
use std::io::Write;
use std::test::Fail;
use swd_host::End;
use swd_port::{Cue, Due, Mark, Wire};
use swd_run::{EngineFault, Finished, QUIRKS, Records, run_batches};
use swd_script::{read_plan, read_script};
use swd_target::{Bench, Memory};

// A wire whose requests are counted.
#[derive(Drop)]
pub(super) struct Asked<'a, W> {
    pub(super) wire: W,
    pub(super) asked: &'a Cell<u64>,
}

impl<'a, W: Wire> Wire for Asked<'a, W> {
    ghost port = { λ asked. W.port asked.wire };

    ghost plan = { λ asked. W.plan asked.wire };

    ghost lawful = { λ asked. W.lawful asked.wire };

    fn due(&self) -> Due {
        self.wire.due()
    }

    fn step(&mut self, cue: Cue) -> u64 {
        if let Cue::Ask(_) = cue {
            self.asked.set(self.asked.get().saturating_add(1));
        }
        self.wire.step(cue)
    }
}

// Notes at each write how many requests there were, and how many bytes it was given. Fails at one write, and takes all
// at the others.
#[derive(Drop)]
pub(super) struct Watching<'a> {
    pub(super) asked: &'a Cell<u64>,
    pub(super) writes: Vec<(u64, usize)>,
    pub(super) taken: Vec<u8>,
    pub(super) fails_at: usize,
}

impl Write for Watching<'_> {
    fn write(&mut self, buf: &[u8]) -> io::Result<usize> {
        let write = self.writes.len();
        self.writes.push((self.asked.get(), buf.len()))?;
        if write == self.fails_at {
            return Err(io::Error::from(io::ErrorKind::BrokenPipe));
        }
        self.taken.extend_from_slice(buf)?;
        Ok(buf.len())
    }

    fn flush(&mut self) -> io::Result<()> {
        Ok(())
    }
}

// What the calls of a script came to.
#[derive(Drop)]
struct Streamed {
    answer: Result<Finished, EngineFault>,
    writes: Vec<(u64, usize)>,
    taken: Vec<u8>,
    requests: u64,
}

// The marks of a plan.
pub(super) fn marks_of(alloc: Global, plan: &[u8]) -> Result<Vec<Mark>, Fail>
    ensures { IfOk result (λ marks. IsLegalPlan marks.items) }
{
    let mut text = plan;
    match read_plan(alloc, &mut text) {
        Ok(marks) => Ok(marks),
        Err(_) => Err(Fail::from("the plan is not valid")),
    }
}

// Runs a script at a target under this plan. The writer fails at this write.
fn run_at(
    alloc: Global,
    script: &[u8],
    plan: &[u8],
    resumes: u32,
    fails_at: usize,
) -> Result<Streamed, Fail> {
    let mut text = script;
    let Ok(script) = read_script(alloc, &mut text) else {
        return Err(Fail::from("the script is not valid"));
    };
    let marks = marks_of(alloc, plan)?;
    let asked = Cell::new(0u64);
    let memory = Memory::new(alloc, 0, 1, 4096)?;
    let wire = Asked {
        wire: Bench::new(memory, QUIRKS, marks),
        asked: &asked,
    };
    let mut report = Watching {
        asked: &asked,
        writes: Vec::new(alloc),
        taken: Vec::new(alloc),
        fails_at,
    };
    let (answer, _) = run_batches(
        alloc,
        wire,
        script.batches.as_slice(),
        limits(resumes),
        &mut report,
        &mut Records::<Vec<u8>>::none(),
    );
    let Watching { writes, taken, .. } = report;
    Ok(Streamed {
        answer,
        writes,
        taken,
        requests: asked.get(),
    })
}

// A script of so many reads, and then another text.
pub(super) fn reads(alloc: Global, count: usize, rest: &[u8]) -> Result<Vec<u8>, Fail> {
    let mut script = Vec::new(alloc);
    script.extend_from_slice(b"memory 0 1\n")?;
    for _ in 0..count {
        script.extend_from_slice(b"r 0\n")?;
    }
    script.extend_from_slice(rest)?;
    Ok(script)
}

// A plan with no fault for so many requests, and then a lost acknowledgement.
pub(super) fn lost_after(alloc: Global, clean: usize) -> Result<Vec<u8>, Fail> {
    let mut plan = Vec::new(alloc);
    for _ in 0..clean {
        plan.extend_from_slice(b".\n")?;
    }
    plan.extend_from_slice(b"deaf\n")?;
    Ok(plan)
}

// How many reads a call has, and its writes: after how many requests, and of how many bytes.
type Row = (&'static str, usize, &'static [(u64, usize)]);

const ROWS: &[Row] = &[
    ("no read", 0, &[(9, 10)]),
    ("one less than wait", 1023, &[(3078, 20473)]),
    ("as many as wait", 1024, &[(3081, 20480), (3081, 13)]),
    ("one more", 1025, &[(3081, 20480), (3084, 33)]),
    ("many", 2500, &[(3081, 20480), (6153, 20480), (7509, 9053)]),
];

#[test]
fn the_lines_of_1024_answers_are_written_while_the_call_goes_on(
    rt: HostRuntime,
) -> Result<(), Fail> {
    for (name, count, writes) in ROWS {
        let script = reads(rt.alloc(), *count, b"".as_slice())?;
        let run = run_at(rt.alloc(), script.as_slice(), b"".as_slice(), 0, 100)?;
        expect_eq_at(&rt, name, &run.answer, &super::ended(End::All));
        expect_eq_at(&rt, name, &run.writes.as_slice(), writes);
    }
    Ok(())
}

const RESUMED_WRITES: &[(u64, usize)] = &[(3081, 20480), (3320, 1553)];

// 26 answers more, and "end lost 1050 begun 1".
const LOST_WRITES: &[(u64, usize)] = &[(3081, 20480), (3161, 542)];

// The acknowledgement of the DRW request of the read at index 1050 is lost. The call is resumed with an opening, and
// with this read.
#[test]
fn a_resumed_call_is_written_while_it_goes_on(rt: HostRuntime) -> Result<(), Fail> {
    let script = reads(rt.alloc(), 1100, b"".as_slice())?;
    let plan = lost_after(rt.alloc(), 3160)?;
    let run = run_at(rt.alloc(), script.as_slice(), plan.as_slice(), 1, 100)?;
    let name = "resumed";
    expect_eq_at(&rt, &name, &run.answer, &super::ended(End::All));
    expect_eq_at(&rt, &name, &run.writes.as_slice(), &RESUMED_WRITES);
    let run = run_at(rt.alloc(), script.as_slice(), plan.as_slice(), 0, 100)?;
    let name = "not resumed";
    expect_eq_at(&rt, &name, &run.answer, &super::ended(End::Lost));
    expect_eq_at(&rt, &name, &run.writes.as_slice(), &LOST_WRITES);
    Ok(())
}

// The write that fails, and how many bytes were written before.
const FAILING: &[(usize, u64)] = &[(0, 0), (1, 20480), (2, 40960)];

// The call is made to its end, and no other one. Nothing is written after that write.
#[test]
fn a_writer_that_fails_in_a_call(rt: HostRuntime) -> Result<(), Fail> {
    let script = reads(rt.alloc(), 2500, b"next\nr 0\n".as_slice())?;
    for (fails_at, written) in FAILING {
        let (fails_at, written) = (*fails_at, *written);
        let run = run_at(rt.alloc(), script.as_slice(), b"".as_slice(), 0, fails_at)?;
        let fault = EngineFault::Write { written };
        expect_eq_at(&rt, &fails_at, &run.answer, &Err(fault));
        expect_eq_at(&rt, &fails_at, &run.requests, &7509);
        expect_eq_at(
            &rt,
            &fails_at,
            &run.writes.len(),
            &fails_at.saturating_add(1),
        );
        expect_eq_at(&rt, &fails_at, &(run.taken.len() as u64), &written);
        let line = b"r 00000000 00000000".as_slice();
        let lines = run
            .taken
            .split(|byte| *byte == b'\n')
            .filter(|found| *found == line)
            .count();
        expect_eq_at(&rt, &fails_at, &(lines as u64), &(written / 20));
    }
    Ok(())
}
