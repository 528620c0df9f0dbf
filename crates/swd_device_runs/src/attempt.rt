//! One run under a plan, resumed until it ends, and what the registers have seen of it.
ghost use Rattle.std.specs.Prelude.{◌≡◌, ◌≤◌, length, IfOk};
ghost use Rattle.swd_host.specs.Plain.{AreHostAccesses};
ghost use Rattle.swd_host.specs.Reports.{host_report_of};
ghost use Rattle.swd_port.specs.declared.wire.Due.TheVariants.{Nothing};
ghost use Rattle.swd_target.specs.Marks.{IsLegalPlan};

use crate::simulated::Simulated;
use std::alloc::{AllocError, Global};
use swd_devices::{Key, Registers, Seen};
use swd_host::{End, Refused, Report, resume, run};
use swd_port::{Access, Answer};
use swd_target::{Mark, Quirks};
use thiserror::Error;

/// The reads of the status that find it not ready.
const READS: u32 = 2;

/// The events that the opening or an access may meet.
const TRIES: u32 = 8;

const FIRST_WORD: u32 = 0xdead_beef;

const SECOND_WORD: u32 = 0x0000_0001;

const ACCESSES: [Access; 8] = [
    Access::Write(Registers::KEY, Registers::OPENING),
    Access::Read(Registers::STATUS),
    Access::Write(Registers::FIFO, FIRST_WORD),
    Access::Write(Registers::FIFO, SECOND_WORD),
    Access::Read(Registers::FIFO),
    Access::Read(Registers::STATUS),
    Access::Write(Registers::FLAG, 1),
    Access::Read(Registers::FIFO),
];

/// What the accesses are answered where each was made once.
const ANSWERS: [Answer; 8] = [
    Answer::Written,
    Answer::Value(0),
    Answer::Written,
    Answer::Written,
    Answer::Value(FIRST_WORD),
    Answer::Value(0),
    Answer::Written,
    Answer::Value(SECOND_WORD),
];

/// What the registers are then.
const ONCE: Registers = Registers {
    left: 0,
    key: Key::Open,
    first: None,
    second: None,
    flag: false,
    status_seen: Seen {
        reads: 2,
        writes: 0,
    },
    key_seen: Seen {
        reads: 0,
        writes: 1,
    },
    fifo_seen: Seen {
        reads: 2,
        writes: 2,
    },
    flag_seen: Seen {
        reads: 0,
        writes: 1,
    },
};

/// The reason why an attempt wasn't made.
#[derive(Clone, Copy, Debug, PartialEq, Eq, Error)]
pub enum Fault {
    /// Out of memory.
    #[error("out of memory")]
    Memory,
    /// The list was refused.
    #[error(transparent)]
    Refused(#[from] Refused),
}

impl From<AllocError> for Fault {
    fn from(_error: AllocError) -> Fault {
        Fault::Memory
    }
}

// A target, the report so far, and how often each access was in flight where a run ended.
#[derive(Drop)]
struct Stage<S> {
    target: S,
    report: Report,
    in_flight: [u32; 8],
}

/// Makes the run at registers of which nothing was read or written yet, and resumes it until every access is answered.
/// A plan loses at most as many acknowledgements as it has marks, here two. Returns whether the registers saw each
/// access once, and once more at most for each resumption at which it was in flight; and, where none was, whether
/// answers and registers are exactly those of accesses that are made once.
pub fn is_once<S: Simulated + Drop>(
    alloc: Global,
    late: bool,
    plan: Vec<Mark>,
) -> Result<bool, Fault>
    requires { IsLegalPlan plan.items }
{
    let quirks = Quirks {
        wrap: true,
        late,
        filler: 0,
        idr: None,
    };
    let target = S::simulate(alloc, Registers::new(READS), quirks, plan)?;
    let stage = begun(alloc, &ACCESSES, target)?;
    let stage = resumed(alloc, &ACCESSES, stage)?;
    let stage = resumed(alloc, &ACCESSES, stage)?;
    Ok(ends_once(stage))
}

fn begun<S: Simulated + Drop>(
    alloc: Global,
    accesses: &[Access],
    target: S,
) -> Result<Stage<S>, Fault>
    requires { (S.Wire.port target).link.due ≡ Nothing }
    ensures accepted { IfOk result (λ stage. (length accesses.now ≤ 65536) × AreHostAccesses accesses.now) }
    ensures answered { IfOk result (λ stage. length (host_report_of stage.report).answers ≤ length accesses.now) }
{
    let mut target = target;
    let report = run(alloc, &mut target, accesses, TRIES)?;
    Ok(Stage {
        target,
        report,
        in_flight: [0; 8],
    })
}

// Resumes a run that ended early.
fn resumed<S: Simulated + Drop>(
    alloc: Global,
    accesses: &[Access],
    stage: Stage<S>,
) -> Result<Stage<S>, Fault>
    requires accepted { (length accesses.now ≤ 65536) × AreHostAccesses accesses.now }
    requires answered { length (host_report_of stage.report).answers ≤ length accesses.now }
    ensures { IfOk result (λ stage. length (host_report_of stage.report).answers ≤ length accesses.now) }
{
    if let End::All = stage.report.ended {
        return Ok(stage);
    }
    let Stage {
        mut target,
        report,
        mut in_flight,
    } = stage;
    if report.begun > 0 {
        if let Some(count) = in_flight.get_mut(report.answers.len()) {
            *count = count.saturating_add(1);
        }
    }
    let report = resume(alloc, &mut target, accesses, &report, TRIES)?;
    Ok(Stage {
        target,
        report,
        in_flight,
    })
}

// Returns whether every access is answered, and was made once, or once more for each time that it was in flight.
fn ends_once<S: Simulated + Drop>(stage: Stage<S>) -> bool {
    let Stage {
        mut target,
        report,
        in_flight,
    } = stage;
    target.settle();
    let registers = target.registers();
    if !matches!(&report.ended, End::All) || !are_seen(&registers, &in_flight) {
        return false;
    }
    let is_repeated = in_flight.iter().any(|count| *count > 0);
    is_repeated || (registers == ONCE && report.answers.as_slice() == ANSWERS.as_slice())
}

// Returns whether each register saw each access of the list, and no other but one that was in flight.
fn are_seen(registers: &Registers, in_flight: &[u32; 8]) -> bool {
    let [
        key,
        status,
        put,
        put_next,
        take,
        status_again,
        clear,
        take_next,
    ] = *in_flight;
    is_seen(registers.key_seen, (0, 0), (1, key))
        && is_seen(
            registers.status_seen,
            (2, status.saturating_add(status_again)),
            (0, 0),
        )
        && is_seen(
            registers.fifo_seen,
            (2, take.saturating_add(take_next)),
            (2, put.saturating_add(put_next)),
        )
        && is_seen(registers.flag_seen, (0, 0), (1, clear))
}

// Returns whether a register was read and written at least so often, and at most so often more.
fn is_seen(seen: Seen, reads: (u32, u32), writes: (u32, u32)) -> bool {
    is_between(seen.reads, reads) && is_between(seen.writes, writes)
}

fn is_between(count: u32, (least, more): (u32, u32)) -> bool {
    least <= count && count <= least.saturating_add(more)
}
