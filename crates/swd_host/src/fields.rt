//! An engine as a struct of integers, for callers that store it themselves, such as programs in C.
ghost use Rattle.std.specs.Prelude.{◌≡◌, IfSome};
ghost use Rattle.swd_host.specs.declared.engine.Engine.{Engine as EngineType};
ghost use Rattle.swd_host.specs.Fields.{engine_ahead_number, bursts_number, fields_of_engine, engine_job_fields};
ghost use Rattle.swd_host.specs.Fields.{engine_outcome_fields, engine_phase_number};
ghost use Rattle.swd_host.specs.Fields.{engine_place_number, engine_state_fields, engine_tar_fields, task_fields};
ghost use Rattle.swd_host.specs.FieldsRead.{engine_ahead_from, bursts_at, engine_at, engine_job_from};
ghost use Rattle.swd_host.specs.FieldsRead.{engine_outcome_from, engine_phase_from, engine_place_from};
ghost use Rattle.swd_host.specs.FieldsRead.{engine_state_from, engine_tar_from, engine_task_from};

use crate::engine::{Ahead, Engine, Phase, State};
use crate::flags::Flags;
use crate::outcome::{End, Outcome};
use crate::request::{HostStep, Job};
use crate::task::{Bursts, Task};
use swd_port::Answer;

/// The state of an engine as integers, laid out as in C. [`Engine::fields`] returns it, and
/// [`engine`](EngineFields::engine) restores the engine. Any values are safe: `engine` rejects those of no engine, such
/// as zeros.
///
/// `requests` is the number of requests sent. The meaning of the other fields is private to this crate.
#[repr(C)]
#[derive(Clone, Copy, Debug, PartialEq, Eq)]
pub struct EngineFields {
    pub requests: u64,
    pub state: StateFields,
    pub task: TaskFields,
    pub tar: TarFields,
    pub tries: u32,
    pub events: u32,
    pub aims: u8,
    pub bursts: u8,
    pub ahead: u8,
    pub begun: u8,
    pub stray: u8,
}

/// The state of an engine within its sequence, as integers.
#[repr(C)]
#[derive(Clone, Copy, Debug, PartialEq, Eq)]
pub struct StateFields {
    pub outcome: OutcomeFields,
    pub job: JobFields,
    pub kind: u8,
    pub phase: u8,
}

/// The outcome of an engine, as integers. `kind` 0 is no outcome, 1 opened, 2 a read of `word`, 3 written, 4 a bus
/// error. The others are stops: 5 all answered, 6 lost acknowledgement, 7 retries ran out, 8 wrong identification
/// `word`, 9 confused. `word` is 0 for the other kinds.
#[repr(C)]
#[derive(Clone, Copy, Debug, PartialEq, Eq)]
pub struct OutcomeFields {
    pub word: u32,
    pub kind: u8,
}

/// A request that an engine sends, with its reason, as integers.
#[repr(C)]
#[derive(Clone, Copy, Debug, PartialEq, Eq)]
pub struct JobFields {
    pub kind: u8,
    pub place: u8,
    pub error: u8,
    pub damaged: u8,
}

/// The current access, as integers.
#[repr(C)]
#[derive(Clone, Copy, Debug, PartialEq, Eq)]
pub struct TaskFields {
    pub addr: u32,
    pub word: u32,
    pub kind: u8,
}

/// The known value of TAR, if any, as integers.
#[repr(C)]
#[derive(Clone, Copy, Debug, PartialEq, Eq)]
pub struct TarFields {
    pub word: u32,
    pub known: u8,
}

fn number_of_place(place: HostStep) -> u8
    ensures { result ≡ engine_place_number place }
{
    match place {
        HostStep::Identify => 1,
        HostStep::WriteAbort => 2,
        HostStep::CheckCtrlStat => 3,
        HostStep::Select => 4,
        HostStep::Power => 5,
        HostStep::Powered => 6,
        HostStep::Configure => 7,
        HostStep::ReadCsw => 8,
        HostStep::Configured => 9,
        HostStep::WriteTar => 10,
        HostStep::Transfer => 11,
        HostStep::Confirm => 12,
        HostStep::Behind => 13,
    }
}

// Here and below, invalid numbers may give any result: `EngineFields::engine` rejects an engine whose own fields
// differ.
fn place_with(number: u8) -> HostStep
    ensures { result ≡ engine_place_from number }
{
    match number {
        1 => HostStep::Identify,
        2 => HostStep::WriteAbort,
        3 => HostStep::CheckCtrlStat,
        4 => HostStep::Select,
        5 => HostStep::Power,
        6 => HostStep::Powered,
        7 => HostStep::Configure,
        8 => HostStep::ReadCsw,
        9 => HostStep::Configured,
        10 => HostStep::WriteTar,
        11 => HostStep::Transfer,
        12 => HostStep::Confirm,
        _ => HostStep::Behind,
    }
}

fn number_of_phase(phase: Phase) -> u8
    ensures { result ≡ engine_phase_number phase }
{
    match phase {
        Phase::Ask => 1,
        Phase::Data => 2,
        Phase::Waited => 3,
        Phase::Faulted => 4,
    }
}

fn phase_with(number: u8) -> Phase
    ensures { result ≡ engine_phase_from number }
{
    match number {
        1 => Phase::Ask,
        2 => Phase::Data,
        3 => Phase::Waited,
        _ => Phase::Faulted,
    }
}

fn number_of_ahead(ahead: Ahead) -> u8
    ensures { result ≡ engine_ahead_number ahead }
{
    match ahead {
        Ahead::Unsent => 1,
        Ahead::Sent => 2,
        Ahead::Failed => 3,
    }
}

fn ahead_with(number: u8) -> Ahead
    ensures { result ≡ engine_ahead_from number }
{
    match number {
        1 => Ahead::Unsent,
        2 => Ahead::Sent,
        _ => Ahead::Failed,
    }
}

fn number_of_bursts(bursts: Bursts) -> u8
    ensures { result ≡ bursts_number bursts }
{
    match bursts {
        Bursts::Writes => 1,
        Bursts::Reads => 2,
        Bursts::Never => 3,
    }
}

fn bursts_with(number: u8) -> Bursts
    ensures { result ≡ bursts_at number }
{
    match number {
        1 => Bursts::Writes,
        3 => Bursts::Never,
        _ => Bursts::Reads,
    }
}

impl OutcomeFields {
    /// No outcome.
    pub const NONE: OutcomeFields = OutcomeFields { word: 0, kind: 0 };

    /// Returns the fields of an outcome.
    pub fn of(outcome: Outcome) -> OutcomeFields
        ensures { result ≡ engine_outcome_fields outcome }
    {
        let (kind, word) = match outcome {
            Outcome::Opened => (1, 0),
            Outcome::Answered(Answer::Value(word)) => (2, word),
            Outcome::Answered(Answer::Written) => (3, 0),
            Outcome::Answered(Answer::BusFault) => (4, 0),
            Outcome::Stopped(End::All) => (5, 0),
            Outcome::Stopped(End::Lost) => (6, 0),
            Outcome::Stopped(End::TriesOut) => (7, 0),
            Outcome::Stopped(End::WrongId(word)) => (8, word),
            Outcome::Stopped(End::Confused) => (9, 0),
        };
        OutcomeFields { word, kind }
    }

    fn outcome(self) -> Outcome
        ensures { result ≡ engine_outcome_from self }
    {
        match self.kind {
            1 => Outcome::Opened,
            2 => Outcome::Answered(Answer::Value(self.word)),
            3 => Outcome::Answered(Answer::Written),
            4 => Outcome::Answered(Answer::BusFault),
            5 => Outcome::Stopped(End::All),
            6 => Outcome::Stopped(End::Lost),
            7 => Outcome::Stopped(End::TriesOut),
            8 => Outcome::Stopped(End::WrongId(self.word)),
            _ => Outcome::Stopped(End::Confused),
        }
    }
}

const NO_FLAGS: Flags = Flags {
    error: false,
    damaged: false,
};

impl JobFields {
    const NONE: JobFields = JobFields {
        kind: 0,
        place: 0,
        error: 0,
        damaged: 0,
    };

    fn of(job: Job) -> JobFields
        ensures { result ≡ engine_job_fields job }
    {
        let (kind, place, flags) = match job {
            Job::At(place) => (1, number_of_place(place), NO_FLAGS),
            Job::Resend(place) => (2, number_of_place(place), NO_FLAGS),
            Job::Status(place) => (3, number_of_place(place), NO_FLAGS),
            Job::LastStatus => (4, 0, NO_FLAGS),
            Job::Clear(place, owed) => (5, number_of_place(place), owed),
            Job::Check(place, owed) => (6, number_of_place(place), owed),
        };
        JobFields {
            kind,
            place,
            error: u8::from(flags.error),
            damaged: u8::from(flags.damaged),
        }
    }

    fn job(self) -> Job
        ensures { result ≡ engine_job_from self }
    {
        let place = place_with(self.place);
        let flags = Flags {
            error: self.error == 1,
            damaged: self.damaged == 1,
        };
        match self.kind {
            1 => Job::At(place),
            2 => Job::Resend(place),
            3 => Job::Status(place),
            4 => Job::LastStatus,
            5 => Job::Clear(place, flags),
            _ => Job::Check(place, flags),
        }
    }
}

impl StateFields {
    fn of(state: State) -> StateFields
        ensures { result ≡ engine_state_fields state }
    {
        let (kind, job, phase, outcome) = match state {
            State::Leading => (1, JobFields::NONE, 0, OutcomeFields::NONE),
            State::Doing(job, phase) => {
                let job = JobFields::of(job);
                (2, job, number_of_phase(phase), OutcomeFields::NONE)
            }
            State::Resting(outcome) => (3, JobFields::NONE, 0, OutcomeFields::of(outcome)),
        };
        StateFields {
            outcome,
            job,
            kind,
            phase,
        }
    }

    fn state(self) -> State
        ensures { result ≡ engine_state_from self }
    {
        match self.kind {
            1 => State::Leading,
            2 => State::Doing(self.job.job(), phase_with(self.phase)),
            _ => State::Resting(self.outcome.outcome()),
        }
    }
}

impl TaskFields {
    fn of(task: Task) -> TaskFields
        ensures { result ≡ task_fields task }
    {
        let (kind, addr, word) = match task {
            Task::Read(addr) => (1, addr, 0),
            Task::BurstRead(addr) => (2, addr, 0),
            Task::Write(addr, word) => (3, addr, word),
            Task::BurstWrite(addr, word) => (4, addr, word),
        };
        TaskFields { addr, word, kind }
    }

    fn task(self) -> Task
        ensures { result ≡ engine_task_from self }
    {
        match self.kind {
            1 => Task::Read(self.addr),
            2 => Task::BurstRead(self.addr),
            3 => Task::Write(self.addr, self.word),
            _ => Task::BurstWrite(self.addr, self.word),
        }
    }
}

impl TarFields {
    fn of(tar: Option<u32>) -> TarFields
        ensures { result ≡ engine_tar_fields tar }
    {
        match tar {
            Some(word) => TarFields { word, known: 1 },
            None => TarFields { word: 0, known: 0 },
        }
    }

    fn tar(self) -> Option<u32>
        ensures { result ≡ engine_tar_from self }
    {
        if self.known == 1 {
            Some(self.word)
        } else {
            None
        }
    }
}

impl EngineFields {
    /// Returns the engine with these fields, or `None` if no engine has them.
    pub fn engine(&self) -> Option<Engine>
        ensures found { (engine : EngineType) → fields_of_engine engine ≡ self.now → result ≡ Some engine }
        ensures same { IfSome result (λ engine. fields_of_engine engine ≡ self.now) }
    {
        let engine = self.read();
        if engine.fields() == *self {
            Some(engine)
        } else {
            None
        }
    }

    fn read(&self) -> Engine
        ensures { result ≡ engine_at self.now }
    {
        Engine {
            state: self.state.state(),
            task: self.task.task(),
            aims: self.aims == 1,
            tar: self.tar.tar(),
            bursts: bursts_with(self.bursts),
            ahead: ahead_with(self.ahead),
            tries: self.tries,
            events: self.events,
            begun: self.begun,
            requests: self.requests,
            stray: self.stray == 1,
        }
    }
}

impl Engine {
    /// Returns the fields of the engine.
    pub fn fields(&self) -> EngineFields
        ensures { result ≡ fields_of_engine self.now }
    {
        EngineFields {
            requests: self.requests,
            state: StateFields::of(self.state),
            task: TaskFields::of(self.task),
            tar: TarFields::of(self.tar),
            tries: self.tries,
            events: self.events,
            aims: u8::from(self.aims),
            bursts: number_of_bursts(self.bursts),
            ahead: number_of_ahead(self.ahead),
            begun: self.begun,
            stray: u8::from(self.stray),
        }
    }
}
