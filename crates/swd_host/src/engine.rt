//! The engine: a state machine without I/O, which returns what to send next from what was seen so far.
ghost use Rattle.std.specs.Prelude.{◌≡◌, ◌+◌, ◌<◌, ◌≤◌, ◌*◌, ◌^◌, true, false, None, IfSome, is_some};
ghost use Rattle.swd_port.specs.declared.wire.Due.TheVariants.{Nothing};
ghost use Rattle.swd_bits.specs.Phases.{data_phase_word};
ghost use Rattle.swd_port.specs.Port.{Port};
ghost use Rattle.swd_port.specs.Steps.{IsPortSeen, is_port_ask};
ghost use Rattle.swd_port.specs.CueKinds.{is_port_send, is_port_take};
ghost use Rattle.swd_host.specs.Events.{EngineMeets, EngineMeetsRead, EngineMeetsSent};
ghost use Rattle.swd_host.specs.Early.{AckKeepsResumedOpening, DataKeepsResumedOpening, CueKeepsResumedOpening};
ghost use Rattle.swd_host.specs.Engines.{engine_lead_cue, engine_cue, engine_outcome, engine_is_ahead, engine_begun};
ghost use Rattle.swd_host.specs.Engines.{engine_job, EngineHasCue, IsEnginePhaseCue, engine_may_start};
ghost use Rattle.swd_host.specs.Engines.{engine_bursts, engine_count_more, engine_requests, engine_tries};
ghost use Rattle.swd_host.specs.Progress.{engine_job_is_of, engine_open_requests};
ghost use Rattle.swd_host.specs.Replies.{EngineTookReply};
ghost use Rattle.swd_host.specs.Standing.{EngineIsOpened};
ghost use Rattle.swd_host.specs.Steps.{EngineGoesTo, EngineRestsWith, engine_ahead_to, engine_after_read};
ghost use Rattle.swd_host.specs.Steps.{EngineRestsAtTar, engine_after_cue, engine_is_at_data, engine_tar_to};
ghost use Rattle.swd_host.specs.Steps.{engine_word_decides};
ghost use Rattle.swd_host.specs.Tasks.{resumed_bursts};
ghost use Rattle.swd_host.specs.Bursts.{event_requests};
ghost use Rattle.swd_host.specs.Turns.{EngineIsNew, EngineStarts, EngineSeesAck, engine_first_state, engine_lands_from};
ghost use Rattle.swd_host.specs.Tracks.{EngineDueFits, EngineHasReadData, EngineHasSentCue, EngineHearsAck};
ghost use Rattle.swd_host.specs.Tracks.{EngineCallKeeps, engine_state_after_ack};

use crate::outcome::{End, Outcome};
use crate::request::{HostStep, Job};
use crate::task::{Bursts, Task, address_of};
use std::fmt::{self, Debug, Formatter};
use swd_bits::{Ack, Request, data_bits, word_of};
use swd_port::{Access, Answer, Cue};

/// The phase of a request.
#[derive(Clone, Copy, PartialEq, Eq)]
pub(crate) enum Phase {
    /// It has to be sent.
    Ask,
    /// It was answered OK: its data phase follows.
    Data,
    /// It was answered WAIT: a turnaround follows.
    Waited,
    /// It was answered FAULT: a turnaround follows.
    Faulted,
}

/// The state of the next access of a block of reads, where an engine rests.
#[derive(Clone, Copy, PartialEq, Eq)]
pub(crate) enum Ahead {
    /// Its DRW read wasn't sent.
    Unsent,
    /// Its DRW read was answered OK.
    Sent,
    /// It was a bus error, and its flag is cleared.
    Failed,
}

/// The state of an engine.
#[derive(Clone, Copy, PartialEq, Eq)]
pub(crate) enum State {
    /// The line reset has to be sent.
    Leading,
    /// A request, or its data phase or turnaround, comes next.
    Doing(Job, Phase),
    /// The opening or the access has reached this outcome.
    Resting(Outcome),
}

/// The host without I/O: it returns as cues what to send next, first the opening, then an access for each `start`. It
/// allocates no memory, and it reaches an outcome whatever is seen.
///
/// ```text
/// while let Some(cue) = engine.cue() {
///     let reply = match cue {
///         Cue::Lead { ones, undriven, switch, zeros } => {
///             /* drive them, but leave the line released for the first `undriven` of the ones */
///             0
///         }
///         Cue::Ask(request) => /* send it, and see three bits */,
///         Cue::Take => /* clock 33 bits in */,
///         Cue::Give(bits) => { /* clock them out */ 0 }
///         Cue::Pass => { /* one cycle */ 0 }
///     };
///     engine.next(reply);
/// }
/// /* `engine.finished()` is the outcome: start the next access, or stop */
/// ```
///
/// Release the line in the undriven cycles of a lead: the target may be driving it there.
#[derive(Clone, Copy, PartialEq, Eq)]
pub struct Engine {
    pub(crate) state: State,
    // The current access, or the last one; unused in the opening.
    pub(crate) task: Task,
    // TAR has to be written for the current access.
    pub(crate) aims: bool,
    // The address that TAR is known to hold, where the engine rests.
    pub(crate) tar: Option<u32>,
    pub(crate) bursts: Bursts,
    pub(crate) ahead: Ahead,
    pub(crate) tries: u32,
    pub(crate) events: u32,
    // How many unanswered accesses had their DRW request sent: the current one, and in a block the next one.
    pub(crate) begun: u8,
    pub(crate) requests: u64,
    // A transfer that an earlier run left pending may still turn out to be a bus error. Clearing its flag once is no
    // event.
    pub(crate) stray: bool,
}

/// Writes what an engine shows: its number of requests, its cue, and its outcome. [`Engine::fields`] has the rest.
impl Debug for Engine {
    fn fmt<W: fmt::Write>(&self, f: &mut Formatter<W>) -> fmt::Result {
        f.debug_struct("Engine")
            .field("requests", &self.requests)
            .field("cue", &self.cue())
            .field("finished", &self.finished())
            .finish_non_exhaustive()
    }
}

impl Engine {
    /// Creates an engine at the start of the opening. The opening, and each access, may meet up to `tries` events.
    pub fn new(tries: u32) -> Engine
        ensures new { EngineIsNew Bursts.Writes false tries result }
        ensures open { engine_open_requests result ≤ 9 + event_requests Bursts.Writes * (tries + 1) }
        ensures fits { (s : Port) → s.link.due ≡ Nothing → EngineDueFits result s }
    {
        Engine {
            state: State::Leading,
            task: Task::Read(0),
            aims: true,
            tar: None,
            bursts: Bursts::Writes,
            ahead: Ahead::Unsent,
            tries,
            events: 0,
            begun: 0,
            requests: 0,
            stray: false,
        }
    }

    /// Creates an engine for blocks of reads: its bursts are of reads instead of writes. In a burst the DRW read of the
    /// next access returns the word of a read.
    pub fn blocks(tries: u32) -> Engine
        ensures new { EngineIsNew Bursts.Reads false tries result }
        ensures open { engine_open_requests result ≤ 9 + event_requests Bursts.Reads * (tries + 1) }
        ensures fits { (s : Port) → s.link.due ≡ Nothing → EngineDueFits result s }
    {
        Engine::opening(Bursts::Reads, tries)
    }

    /// Creates an engine for bursts of this kind, at the start of the opening.
    pub fn opening(bursts: Bursts, tries: u32) -> Engine
        ensures new { EngineIsNew bursts false tries result }
        ensures open { engine_open_requests result ≤ 9 + event_requests bursts * (tries + 1) }
        ensures fits { (s : Port) → s.link.due ≡ Nothing → EngineDueFits result s }
    {
        let mut engine = Engine::new(tries);
        engine.bursts = bursts;
        engine
    }

    /// Creates an engine that resumes a run of [`new`](Engine::new) or of [`blocks`](Engine::blocks), as
    /// [`resuming`](Engine::resuming) does with `Bursts::Writes`.
    pub fn again(tries: u32) -> Engine
        ensures again { EngineIsNew Bursts.Writes true tries result }
        ensures open { engine_open_requests result ≤ 9 + event_requests Bursts.Writes * (tries + 2) }
        ensures fits { (s : Port) → EngineDueFits result s }
    {
        Engine::resuming(Bursts::Writes, tries)
    }

    /// Creates an engine that resumes after a lost acknowledgement, at the start of a new opening. It performs writes
    /// in bursts with `Bursts::Writes`, and else no accesses.
    ///
    /// Its line reset has 100 ones, of which the first 34 are undriven. In them a data phase that the target may be in
    /// can pass (IHI 0031, B4, protocol error response). A transfer that was left pending may turn out to be a bus
    /// error: its flag is cleared once, and that is no event.
    ///
    /// Start with the first unanswered access. Each time that a run is resumed, an access in flight may take effect
    /// again.
    pub fn resuming(bursts: Bursts, tries: u32) -> Engine
        ensures again { EngineIsNew (resumed_bursts bursts) true tries result }
        ensures open { engine_open_requests result ≤ 9 + event_requests (resumed_bursts bursts) * (tries + 2) }
        ensures fits { (s : Port) → EngineDueFits result s }
    {
        let mut engine = Engine::new(tries);
        engine.bursts = bursts.resumed();
        engine.stray = true;
        engine
    }

    /// Creates an engine that resumes the run of this one, as [`resuming`](Engine::resuming) does with its kind of
    /// bursts.
    pub fn resumed(&self, tries: u32) -> Engine
        ensures again { EngineIsNew (resumed_bursts (engine_bursts self.now)) true tries result }
        ensures open { engine_open_requests result ≤ 9
            + event_requests (resumed_bursts (engine_bursts self.now)) * (tries + 2) }
        ensures fits { (s : Port) → EngineDueFits result s }
    {
        Engine::resuming(self.bursts, tries)
    }

    /// Creates an engine for a list over a target that is open: powered, at rest and without a flag, as a run leaves it
    /// that ended [`All`](End::All). It starts at the outcome `Opened`, so it sends no opening. It writes TAR before
    /// its first access, whatever the calls before left there.
    pub fn opened(bursts: Bursts, tries: u32) -> Engine
        ensures opened { EngineIsOpened bursts tries result }
        ensures fits { (s : Port) → s.link.due ≡ Nothing → EngineDueFits result s }
    {
        let mut engine = Engine::new(tries);
        engine.state = State::Resting(Outcome::Opened);
        engine.task = Task::Read(0);
        engine.tar = None;
        engine.ahead = Ahead::Unsent;
        engine.bursts = bursts;
        engine
    }

    /// Starts an access. Pass the following access too: where it continues the burst, its request confirms this access,
    /// and it has to be started next.
    ///
    /// A write continues a burst of writes at the next address in the same kilobyte. For an engine of
    /// [`blocks`](Engine::blocks) bursts are of reads; there an access may be answered at once.
    pub fn start(&mut self, access: Access, following: Option<Access>)
        requires rests { engine_may_start (engine_outcome self.old) ≡ true }
        ensures starts { EngineStarts access following self.old self.new }
        ensures open { engine_open_requests self.new ≤ 9
            + event_requests (engine_bursts self.old) * (engine_tries self.old + 1) }
    {
        let given = self.is_ahead();
        let failed = !given && matches!(&self.ahead, Ahead::Failed);
        self.aims = !given && self.tar != Some(address_of(access));
        self.state = self.first_state(given);
        // This access's DRW request confirmed the one before.
        self.begun = u8::from(self.task.is_burst() && !failed);
        // After a bus error no request of the next one was sent.
        let following = if failed { None } else { following };
        self.task = Task::new(self.bursts, access, following);
        self.ahead = Ahead::Unsent;
        self.events = 0;
        self.stray = false;
    }

    // Returns the state in which the next access starts. `given`: the data of its DRW write is due.
    fn first_state(&self, given: bool) -> State
        ensures { result ≡ engine_first_state given self.now.ahead self.now.aims }
    {
        if given {
            return State::Doing(Job::At(HostStep::Transfer), Phase::Data);
        }
        match self.ahead {
            Ahead::Failed => State::Resting(Outcome::Answered(Answer::BusFault)),
            Ahead::Sent => State::Doing(Job::At(HostStep::Confirm), Phase::Ask),
            Ahead::Unsent if self.aims => State::Doing(Job::At(HostStep::WriteTar), Phase::Ask),
            Ahead::Unsent => State::Doing(Job::At(HostStep::Transfer), Phase::Ask),
        }
    }

    // Returns whether the OK to the next access's DRW write has answered the current access. The data of that write is
    // due then.
    pub(crate) fn is_ahead(&self) -> bool
        ensures { result ≡ engine_is_ahead self.now }
    {
        match self.task {
            Task::BurstWrite(_, _) => {
                matches!(
                    self.state,
                    State::Doing(Job::At(HostStep::Confirm), Phase::Data)
                )
            }
            _ => false,
        }
    }

    /// Returns what to send next, or `None` where the engine rests.
    pub fn cue(&self) -> Option<Cue>
        ensures cue { result ≡ engine_cue self.now }
        ensures range { IfSome result IsEnginePhaseCue }
    {
        match self.state {
            State::Leading => Some(lead(self.stray)),
            State::Doing(job, Phase::Ask) => Some(Cue::Ask(job.request(self.task))),
            State::Doing(job, Phase::Data) => self.data_cue(job),
            State::Doing(_, Phase::Waited | Phase::Faulted) => Some(Cue::Pass),
            State::Resting(_) => None,
        }
    }

    fn data_cue(&self, job: Job) -> Option<Cue>
        requires { self.now.state ≡ State.Doing job Phase.Data }
        ensures cue { result ≡ engine_cue self.now }
        ensures range { IfSome result IsEnginePhaseCue }
    {
        if self.is_ahead() {
            return None;
        }
        match job.word(self.task) {
            Some(word) => Some(Cue::Give(data_bits(word))),
            None => Some(Cue::Take),
        }
    }

    /// Returns the outcome that the engine has reached, or `None` where it has a cue.
    pub fn finished(&self) -> Option<Outcome>
        ensures { result ≡ engine_outcome self.now }
    {
        if self.is_ahead() {
            return Some(Outcome::Answered(Answer::Written));
        }
        match self.state {
            State::Resting(outcome) => Some(outcome),
            _ => None,
        }
    }

    /// Returns how many unanswered accesses had their DRW request sent: the current one, and for an engine of
    /// [`blocks`](Engine::blocks) the next one too. Between two writes of a burst it is 0.
    pub fn begun(&self) -> u8
        ensures { result ≡ engine_begun self.now }
    {
        if self.is_ahead() { 0 } else { self.begun }
    }

    /// Returns how many requests were sent, saturating at `u64::MAX`.
    pub fn requests(&self) -> u64
        ensures { result ≡ engine_requests self.now }
    {
        self.requests
    }

    /// Passes the reply to the cue to the engine. The reply is the three bits seen after a request, the 33 bits of a
    /// read's data phase, and 0 for other cues. The first bit in time is the least significant. Calls
    /// [`seen`](Engine::seen), [`taken`](Engine::taken) or [`done`](Engine::done).
    pub fn next(&mut self, reply: u64)
        requires { EngineHasCue (λ cue. IsPortSeen cue reply) (engine_cue self.old) }
        ensures { IfSome (engine_cue self.old) (λ cue. EngineTookReply cue reply self.old self.new) }
    {
        match self.cue() {
            Some(Cue::Ask(_)) => self.seen(reply as u8),
            Some(Cue::Take) => self.taken(reply),
            Some(Cue::Lead { .. } | Cue::Give(_) | Cue::Pass) => self.done(),
            None => {}
        }
    }

    /// Passes the three bits seen after a request to the engine, the first in time least significant.
    pub fn seen(&mut self, seen: u8)
        requires range { seen < 8 }
        requires cue { EngineHasCue (λ cue. is_port_ask cue ≡ true) (engine_cue self.old) }
        ensures open { engine_open_requests self.new + 1 ≤ engine_open_requests self.old }
        ensures requests { engine_requests self.new ≡ engine_count_more (engine_requests self.old) }
        ensures sees { EngineSeesAck seen self.old self.new }
        ensures tracks { EngineCallKeeps (EngineHearsAck seen) self.old self.new }
        ensures early { AckKeepsResumedOpening seen self.old self.new }
        ensures meets { EngineMeets false None self.old self.new }
    {
        let State::Doing(job, _) = self.state else {
            unreachable!()
        };
        self.requests = self.requests.saturating_add(1);
        self.begun = self.begun.max(job.begins(self.task));
        self.state = after_ack(job, seen);
    }

    /// Notes that the cue was sent: a lead, the data phase of a write, or a turnaround.
    #[inline(always)]
    pub fn done(&mut self)
        requires { EngineHasCue (λ cue. is_port_send cue ≡ true) (engine_cue self.old) }
        ensures lands { engine_lands_from self.old self.new }
        ensures tracks { EngineCallKeeps EngineHasSentCue self.old self.new }
        ensures early { CueKeepsResumedOpening self.old self.new }
        ensures meets { EngineMeetsSent self.old self.new }
        ensures goes { EngineGoesTo (engine_after_cue self.old.state self.old.task) self.new.state }
        ensures on { engine_is_at_data self.old.state ≡ true
            → self.new.state ≡ engine_after_cue self.old.state self.old.task }
    {
        let State::Doing(job, phase) = self.state else {
            self.state = State::Doing(Job::At(HostStep::Identify), Phase::Ask);
            return;
        };
        match phase {
            Phase::Data => self.follow_write(job),
            Phase::Waited => self.take_wait(job),
            Phase::Faulted => self.take_fault(job),
            Phase::Ask => unreachable!(),
        }
    }

    /// Passes the 33 bits of a read's data phase to the engine, the first in time least significant.
    #[inline(always)]
    pub fn taken(&mut self, bits: u64)
        requires range { bits < 2 ^ 33 }
        requires cue { EngineHasCue (λ cue. is_port_take cue ≡ true) (engine_cue self.old) }
        ensures lands { engine_lands_from self.old self.new }
        ensures tracks { EngineCallKeeps (EngineHasReadData (data_phase_word bits)) self.old self.new }
        ensures early { DataKeepsResumedOpening (data_phase_word bits) self.old self.new }
        ensures meets { EngineMeetsRead (data_phase_word bits) self.old self.new }
        ensures goes { engine_job_is_of false (engine_job self.old.state) ≡ true
            → EngineGoesTo (engine_after_read (engine_job self.old.state) (data_phase_word bits) self.old.task
            self.old.aims self.old.bursts) self.new.state }
        ensures rests { EngineRestsWith (engine_ahead_to (engine_job self.old.state) self.old.task) self.new.state
            self.new.ahead }
        ensures on { is_some (data_phase_word bits) ≡ true → engine_word_decides (engine_job self.old.state) ≡ false
            → self.new.state ≡ engine_after_read (engine_job self.old.state) (data_phase_word bits) self.old.task
            self.old.aims self.old.bursts }
        ensures tar { is_some (data_phase_word bits) ≡ true → engine_word_decides (engine_job self.old.state) ≡ false
            → EngineRestsAtTar (engine_tar_to (engine_job self.old.state) self.old.task) self.new.state self.new.tar }
    {
        let State::Doing(job, _) = self.state else {
            unreachable!()
        };
        match word_of(bits) {
            Some(word) => self.take_word(job, word),
            None => self.take_damage(job),
        }
    }
}

// Returns the line reset. Where a data phase may be due, the line is released for 34 ones first, in which the data
// phase can pass.
fn lead(inside: bool) -> Cue
    ensures cue { result ≡ engine_lead_cue inside }
    ensures range { IsEnginePhaseCue result }
{
    Cue::Lead {
        ones: if inside { 100 } else { 56 },
        undriven: if inside { 34 } else { 0 },
        switch: !inside,
        zeros: 2,
    }
}

// Returns the state after an acknowledgement was seen.
fn after_ack(job: Job, seen: u8) -> State
    requires { seen < 8 }
    ensures { result ≡ engine_state_after_ack job seen }
{
    match Ack::of(seen) {
        Some(Ack::Ok) => State::Doing(job, Phase::Data),
        Some(Ack::Wait) => State::Doing(job, Phase::Waited),
        Some(Ack::Fault) => State::Doing(job, Phase::Faulted),
        None => State::Resting(Outcome::Stopped(End::Lost)),
    }
}
