//! Drives an engine over a wire.
ghost use Rattle.std.specs.Prelude.{◌≡◌, ◌≢◌, ◌<◌, ◌≤◌, Some, true, false, IfOk, IfErr, IfNone, IfSome};
ghost use Rattle.std.specs.Prelude.{◌+◌, ◌∷◌, length, List, []};
ghost use Rattle.std.specs.Vec.{vec_capacity};
ghost use Rattle.swd_port.specs.declared.wire.Due.TheVariants.{Nothing};
ghost use Rattle.swd_port.specs.Leading.{PortLeads};
ghost use Rattle.swd_host.specs.Calls.{EngineTurns, EngineTurnsFrom, host_idle_call};
ghost use Rattle.swd_host.specs.Plain.{AreHostAccesses, host_access_is_aligned};
ghost use Rattle.swd_host.specs.Accepting.{HostAccessHasRanges};
ghost use Rattle.swd_host.specs.Engines.{engine_outcome, engine_is_resting, engine_may_start, engine_requests};
ghost use Rattle.swd_host.specs.Progress.{engine_calls_left, engine_open_requests};
ghost use Rattle.swd_host.specs.Tracks.{EngineDueFits};
ghost use Rattle.swd_host.specs.Turns.{EngineWorks, EngineAccessWorks, EngineGoesWithPort, EngineAccessGoes};
ghost use Rattle.swd_host.specs.Turns.{EngineContinuesBurst, EngineIsNew, engine_answer_outcome};
ghost use Rattle.swd_host.specs.Turns.{engine_state_opened_as};
ghost use Rattle.swd_host.specs.Reports.{Closes, HostRefusesList, RunsOver, RunsWithin, host_report_of};
ghost use Rattle.swd_host.specs.Standing.{HostNextAccess};
ghost use Rattle.swd_host.specs.Fields.{host_report_to};
ghost use Rattle.swd_host.specs.declared.outcome.Refused.TheVariants.{Memory};
ghost use Rattle.swd_port.specs.declared.access.Answer.{Answer as AnswerType};
ghost use Rattle.swd_host.specs.Sent.{HostCalls, HostReportsCalls};
ghost use Rattle.swd_host.specs.Confirming.{HostConfirms};
ghost use Rattle.swd_host.specs.Stages.{EngineListCalls};
ghost use Rattle.swd_host.specs.Standing.{EngineDoes, EngineHasOpened, EnginePerforms, engine_report};

use crate::coming::announce;
use crate::engine::Engine;
use crate::outcome::{End, Ending, Outcome, Refused, Report};
use crate::sink::AnswerSink;
use crate::task::Bursts;
use std::alloc::Allocator;
use swd_port::{Access, Answer, Cue, MOST_ACCESSES, Pieces, Wire};

impl Engine {
    /// Makes the one call of the wire that the engine's cue asks for, and passes the reply to the engine. Does nothing
    /// where the engine rests.
    ///
    /// What is due on the wire must be what the engine expects. That holds for a new engine over a wire on which
    /// nothing is due, after each turn, and after each `start`.
    ///
    /// To drive an engine to its next outcome:
    ///
    /// ```text
    /// loop {
    ///     match engine.finished() {
    ///         Some(outcome) => return outcome,
    ///         None => engine.turn(wire),
    ///     }
    /// }
    /// ```
    pub fn turn<W: Wire>(&mut self, wire: &mut W)
        requires { EngineDueFits self.old (W.port wire.old) }
        ensures due { EngineDueFits self.new (W.port wire.new) }
        ensures rests { engine_is_resting self.old ≡ true → (self.new ≡ self.old) × (wire.new ≡ wire.old) }
        ensures falls { engine_is_resting self.old ≡ false → engine_calls_left self.new < engine_calls_left self.old }
        ensures spends { engine_requests self.new + engine_open_requests self.new ≤ engine_requests self.old
            + engine_open_requests self.old }
        ensures goes { W.lawful wire.new → W.lawful wire.old
            × EngineGoesWithPort self.old (W.port wire.old) self.new (W.port wire.new) }
        ensures plan { W.plan wire.new ≡ W.plan wire.old }
        ensures made { HostCalls W.notes (λ calls. EngineTurns self.old calls self.new) wire.old wire.new }
    {
        if self.finished().is_none() {
            turn(wire, self);
        }
    }
}

// Makes the call of the wire that the engine asks for.
#[inline(always)]
fn turn<W: Wire>(wire: &mut W, engine: &mut Engine)
    requires due { EngineDueFits engine.old (W.port wire.old) }
    requires goes_on { engine_is_resting engine.old ≡ false }
    ensures due { EngineDueFits engine.new (W.port wire.new) }
    ensures works { EngineWorks engine.old engine.new }
    ensures goes { W.lawful wire.new → W.lawful wire.old
        × EngineGoesWithPort engine.old (W.port wire.old) engine.new (W.port wire.new) }
    ensures falls { engine_calls_left engine.new < engine_calls_left engine.old }
    ensures plan { W.plan wire.new ≡ W.plan wire.old }
    ensures made { HostCalls W.notes (λ calls. EngineTurns engine.old calls engine.new) wire.old wire.new }
{
    let Some(cue) = engine.cue() else {
        return;
    };
    match cue {
        Cue::Lead { .. } => {
            let _ = wire.step(cue);
            engine.done();
        }
        Cue::Ask(request) => {
            let seen = wire.step(Cue::Ask(request));
            engine.seen(seen as u8);
        }
        Cue::Take => {
            let bits = wire.step(Cue::Take);
            engine.taken(bits);
        }
        Cue::Give(bits) => {
            let _ = wire.step(Cue::Give(bits));
            engine.done();
        }
        Cue::Pass => {
            let _ = wire.step(Cue::Pass);
            engine.done();
        }
    }
}

// Drives the engine to its next outcome. `after` are the accesses after the current one.
#[inline(always)]
fn drive<W: Wire>(wire: &mut W, engine: &mut Engine, after: &[Access]) -> Outcome
    requires { EngineDueFits engine.old (W.port wire.old) }
    ensures due { EngineDueFits engine.new (W.port wire.new) }
    ensures works { EngineWorks engine.old engine.new }
    ensures goes { W.lawful wire.new → W.lawful wire.old
        × EngineGoesWithPort engine.old (W.port wire.old) engine.new (W.port wire.new) }
    ensures finished { engine_outcome engine.new ≡ Some result }
    ensures plan { W.plan wire.new ≡ W.plan wire.old }
    ensures made { HostCalls W.notes (λ calls. EngineTurns engine.old calls engine.new) wire.old wire.new }
{
    loop {
        if let Some(outcome) = engine.finished() {
            return outcome;
        }
        announce(wire, engine, after);
        turn(wire, engine);
    }
}

// Returns whether the address is a multiple of 4.
fn is_aligned(access: Access) -> bool
    ensures aligned { result ≡ host_access_is_aligned access }
    ensures ranges { HostAccessHasRanges access }
{
    let (Access::Read(addr) | Access::Write(addr, _)) = access;
    addr % 4 == 0
}

// Returns why a list is refused, if it is.
pub(crate) fn refusal(accesses: &[Access]) -> Option<Refused>
    ensures none { IfNone result ((length accesses.now ≤ 65536) × AreHostAccesses accesses.now) }
    ensures refused { IfSome result (HostRefusesList accesses.now) }
    ensures memory { IfSome result (λ refused. refused ≢ Memory) }
{
    if accesses.len() > MOST_ACCESSES as usize {
        return Some(Refused::TooMany);
    }
    for (index, access) in accesses.iter().enumerate() {
        if !is_aligned(*access) {
            return Some(Refused::Unaligned { index });
        }
    }
    None
}

// Performs the opening.
pub(crate) fn open<W: Wire>(wire: &mut W, engine: &mut Engine) -> Result<(), End>
    requires due { EngineDueFits engine.old (W.port wire.old) }
    requires new { EngineIsNew engine.old.bursts engine.old.stray engine.old.tries engine.old }
    ensures due { EngineDueFits engine.new (W.port wire.new) }
    ensures works { EngineWorks engine.old engine.new }
    ensures goes { W.lawful wire.new → W.lawful wire.old
        × EngineGoesWithPort engine.old (W.port wire.old) engine.new (W.port wire.new) }
    ensures finished { engine.new.state ≡ engine_state_opened_as result }
    ensures plan { W.plan wire.new ≡ W.plan wire.old }
    ensures made { HostCalls W.notes (λ calls. EngineTurns engine.old calls engine.new) wire.old wire.new }
{
    match drive(wire, engine, &[]) {
        Outcome::Stopped(end) => Err(end),
        _ => Ok(()),
    }
}

// Returns how many accesses a piece of a list has. Where a wire makes several transactions by one exchange, a burst
// ends with its piece, so that one exchange can hold it; `None` where a list is one piece.
fn piece_of(bursts: Bursts, held: Option<Pieces>) -> Option<usize> {
    let held = held?;
    match bursts {
        Bursts::Writes => Some(held.writes),
        Bursts::Reads => Some(held.reads),
        Bursts::Never => None,
    }
}

// Returns where the piece of a list ends that has the access at this index.
#[inline(always)]
fn piece_end(index: usize, count: usize, piece: Option<usize>) -> usize {
    match piece {
        Some(length) if length > 0 => count.min(index.saturating_add(length - index % length)),
        _ => count,
    }
}

// Returns the access after the one at this index, unless its piece ends there.
#[inline(always)]
fn following(accesses: &[Access], index: usize, end: usize) -> Option<Access>
    requires { index < length accesses.now }
    ensures { IfSome result (HostNextAccess index accesses.now) }
{
    if index + 1 == end {
        return None;
    }
    accesses.get(index + 1).copied()
}

// Performs one access. `after` are the accesses after it; the wire may be told of them.
#[inline(always)]
fn access<W: Wire>(
    wire: &mut W,
    engine: &mut Engine,
    access: Access,
    following: Option<Access>,
    after: &[Access],
) -> Result<Answer, End>
    requires due { EngineDueFits engine.old (W.port wire.old) }
    requires rests { engine_may_start (engine_outcome engine.old) ≡ true }
    requires chain { EngineContinuesBurst engine.old access }
    ensures due { EngineDueFits engine.new (W.port wire.new) }
    ensures works { EngineAccessWorks access following engine.old engine.new }
    ensures goes { W.lawful wire.new → W.lawful wire.old
        × EngineAccessGoes access following engine.old (W.port wire.old) engine.new (W.port wire.new) }
    ensures finished { engine_outcome engine.new ≡ Some (engine_answer_outcome result) }
    ensures plan { W.plan wire.new ≡ W.plan wire.old }
    ensures made { HostCalls W.notes (λ calls. EngineTurnsFrom access following engine.old calls engine.new) wire.old
        wire.new }
{
    engine.start(access, following);
    match drive(wire, engine, after) {
        Outcome::Answered(answer) => Ok(answer),
        Outcome::Stopped(end) => Err(end),
        Outcome::Opened => unreachable!(),
    }
}

// Sends eight idle cycles, in which the last transfer of a list can complete.
fn idle<W: Wire>(wire: &mut W)
    requires { (W.port wire.old).link.due ≡ Nothing }
    ensures due { (W.port wire.new).link.due ≡ Nothing }
    ensures step { W.lawful wire.new → W.lawful wire.old × PortLeads (W.port wire.old) 0 (W.port wire.new) }
    ensures plan { W.plan wire.new ≡ W.plan wire.old }
    ensures made { HostCalls W.notes (λ calls. calls ≡ host_idle_call ∷ []) wire.old wire.new }
{
    let _ = wire.step(Cue::Lead {
        ones: 0,
        undriven: 0,
        switch: false,
        zeros: 8,
    });
}

// Performs a list over a target that the engine has opened, and hands each answer on once it is certain. Sends eight
// idle cycles after a whole list.
pub(crate) fn perform<W: Wire, K: AnswerSink>(
    wire: &mut W,
    engine: &mut Engine,
    accesses: &[Access],
    sink: &mut K,
) -> End
    requires opened { EngineHasOpened engine.old }
    requires due { (W.port wire.old).link.due ≡ Nothing }
    requires few { length accesses.now ≤ 65536 }
    requires room { length (K.taken sink.old) + length accesses.now ≤ K.most sink.old }
    ensures performs { EnginePerforms accesses.now engine.old engine.new (K.taken sink.old) (K.taken sink.new) result
        (W.port wire.new).link.due }
    ensures does { W.lawful wire.new → W.lawful wire.old
        × EngineDoes accesses.now engine.old engine.new (K.taken sink.old) (K.taken sink.new) result
        (W.port wire.old) (W.port wire.new) }
    ensures plan { W.plan wire.new ≡ W.plan wire.old }
    ensures told { HostCalls W.notes (EngineListCalls accesses.now engine.old engine.new (K.taken sink.old)
        (K.taken sink.new) result)
        wire.old wire.new }
    ensures most { K.most sink.old ≤ K.most sink.new }
    ensures keeps { K.keeps sink.old sink.new }
{
    let piece = piece_of(engine.bursts, wire.looks_ahead());
    for (index, next) in accesses.iter().enumerate() {
        let end = piece_end(index, accesses.len(), piece);
        let following = following(accesses, index, end);
        let after = accesses.get(index + 1..end).unwrap_or(&[]);
        match access(wire, engine, *next, following, after) {
            Ok(answer) => sink.take(answer),
            Err(end) => return end,
        }
    }
    idle(wire);
    End::All
}

/// Performs the accesses in order over a target at rest.
///
/// Over a target that conforms to the model, each access answered with a word or as `Written` reached the target's bus
/// exactly once, and one answered `BusFault` changes no plain memory. The answers are those of the bus to the first
/// accesses of the list. The run stops early only at a lost acknowledgement or after more than `tries` disturbed
/// requests; [`resume`](crate::resume) continues from both. A whole run sends eight idle cycles at its end, and leaves
/// the target at rest with power on. What it writes besides is the same whatever the other end sends: to CSW 23000012,
/// to CTRL/STAT 50000000, to SELECT 0, to ABORT bits of 0000001e, to TAR the address of an access (`HostMakes`).
///
/// A simulated target that was just made is at rest, and so is a target after a run that ended `All`. Flags, power, CSW
/// and TAR may have any values. `tries` is the number of events that the opening, and each access, may meet.
///
/// Whatever the other end sends, the run ends after at most `10 + 5 * tries` requests for the opening and
/// `6 + 5 * tries` for each access.
///
/// # Errors
///
/// Returns `TooMany` for more than 65,536 accesses, `Unaligned` for the first address that isn't a multiple of 4, and
/// `Memory` if allocating the answers fails. Nothing is sent in these cases.
pub fn run<W: Wire, A: Allocator>(
    alloc: A,
    wire: &mut W,
    accesses: &[Access],
    tries: u32,
) -> Result<Report<A>, Refused>
    requires { (W.port wire.old).link.due ≡ Nothing }
    ensures closes { IfOk result (λ report.
        Closes 0 Bursts.Writes accesses.now tries (host_report_of report) (W.port wire.new).link.due) }
    ensures fits { IfOk result (λ report. W.lawful wire.new → W.lawful wire.old
        × RunsOver accesses.now tries (host_report_of report) (W.port wire.old) (W.port wire.new)) }
    ensures accepted { IfOk result (λ report. (length accesses.now ≤ 65536) × AreHostAccesses accesses.now) }
    ensures refused { IfErr result (HostRefusesList accesses.now) }
    ensures untouched { IfErr result (λ refused. wire.new ≡ wire.old) }
    ensures plan { W.plan wire.new ≡ W.plan wire.old }
    ensures told { IfOk result (λ report.
        HostCalls W.notes (HostReportsCalls accesses.now (host_report_of report)) wire.old wire.new) }
{
    if let Some(refused) = refusal(accesses) {
        return Err(refused);
    }
    let Ok(answers) = Vec::with_capacity(alloc, accesses.len()) else {
        return Err(Refused::Memory);
    };
    Ok(conduct(wire, Engine::new(tries), accesses, answers))
}

/// Performs the accesses in order over a target at rest, with the guarantees of [`run`], and hands each answer on once
/// it is certain. It allocates no memory.
///
/// The answers that the sink has taken are at each moment the first ones of the report: those that it would have if the
/// next acknowledgement were lost. With `Bursts::Reads` it reads as [`run_block`](crate::run_block) does: a report may
/// have up to two accesses in flight.
///
/// Whatever the other end sends, the run ends after at most as many requests as [`run`], with `Bursts::Never` after at
/// most `10 + 6 * tries` for the opening and `6 + 6 * tries` for each access.
///
/// # Errors
///
/// Returns `TooMany` for more than 65,536 accesses, and `Unaligned` for the first address that isn't a multiple of 4.
/// Nothing is sent then, and the sink takes nothing.
pub fn run_to<W: Wire, K: AnswerSink>(
    wire: &mut W,
    accesses: &[Access],
    bursts: Bursts,
    tries: u32,
    sink: &mut K,
) -> Result<Ending, Refused>
    requires due { (W.port wire.old).link.due ≡ Nothing }
    requires none { K.taken sink.old ≡ [] }
    requires room { length accesses.now ≤ K.most sink.old }
    ensures closes { IfOk result (λ ending. Closes 0 bursts accesses.now tries
        (host_report_to (K.taken sink.new) ending) (W.port wire.new).link.due) }
    ensures fits { IfOk result (λ ending. W.lawful wire.new → W.lawful wire.old
        × RunsWithin bursts accesses.now tries (host_report_to (K.taken sink.new) ending)
        (W.port wire.old) (W.port wire.new)) }
    ensures accepted { IfOk result (λ ending. (length accesses.now ≤ 65536) × AreHostAccesses accesses.now) }
    ensures refused { IfErr result (HostRefusesList accesses.now) }
    ensures memory { IfErr result (λ refused. refused ≢ Memory) }
    ensures untouched { IfErr result (λ refused. (wire.new ≡ wire.old) × (sink.new ≡ sink.old)) }
    ensures keeps { K.keeps sink.old sink.new }
    ensures most { K.most sink.old ≤ K.most sink.new }
    ensures plan { W.plan wire.new ≡ W.plan wire.old }
    ensures told { IfOk result (λ ending.
        HostCalls W.notes (HostReportsCalls accesses.now (host_report_to (K.taken sink.new) ending)) wire.old
        wire.new) }
    ensures confirms { IfOk result (λ ending. HostCalls W.notes (HostConfirms bursts) wire.old wire.new) }
{
    match refusal(accesses) {
        Some(refused) => Err(refused),
        None => Ok(conduct_to(wire, Engine::opening(bursts, tries), accesses, sink)),
    }
}

// Opens the target with a new engine, and performs the list.
pub(crate) fn conduct<W: Wire, A: Allocator>(
    wire: &mut W,
    engine: Engine,
    accesses: &[Access],
    answers: Vec<Answer, A>,
) -> Report<A>
    requires due { (W.port wire.old).link.due ≡ Nothing }
    requires new { EngineIsNew engine.bursts false engine.tries engine }
    requires accepted { (length accesses.now ≤ 65536) × AreHostAccesses accesses.now }
    requires none { answers.items ≡ [] }
    requires room { length accesses.now ≤ vec_capacity answers }
    ensures closes { Closes 0 engine.bursts accesses.now engine.tries (host_report_of result)
        (W.port wire.new).link.due }
    ensures fits { W.lawful wire.new → W.lawful wire.old
        × RunsWithin engine.bursts accesses.now engine.tries (host_report_of result)
        (W.port wire.old) (W.port wire.new) }
    ensures plan { W.plan wire.new ≡ W.plan wire.old }
    ensures told { HostCalls W.notes (HostReportsCalls accesses.now (host_report_of result)) wire.old wire.new }
{
    let mut answers = answers;
    let ending = conduct_to(wire, engine, accesses, &mut answers);
    ending.with(answers)
}

// The same, with the answers handed on.
pub(crate) fn conduct_to<W: Wire, K: AnswerSink>(
    wire: &mut W,
    engine: Engine,
    accesses: &[Access],
    sink: &mut K,
) -> Ending
    requires due { (W.port wire.old).link.due ≡ Nothing }
    requires new { EngineIsNew engine.bursts false engine.tries engine }
    requires accepted { (length accesses.now ≤ 65536) × AreHostAccesses accesses.now }
    requires none { K.taken sink.old ≡ [] }
    requires room { length accesses.now ≤ K.most sink.old }
    ensures closes { Closes 0 engine.bursts accesses.now engine.tries
        (host_report_to (K.taken sink.new) result)
        (W.port wire.new).link.due }
    ensures fits { W.lawful wire.new → W.lawful wire.old
        × RunsWithin engine.bursts accesses.now engine.tries (host_report_to (K.taken sink.new) result)
        (W.port wire.old) (W.port wire.new) }
    ensures plan { W.plan wire.new ≡ W.plan wire.old }
    ensures told { HostCalls W.notes (HostReportsCalls accesses.now (host_report_to (K.taken sink.new) result)) wire.old
        wire.new }
    ensures confirms { HostCalls W.notes (HostConfirms engine.bursts) wire.old wire.new }
    ensures most { K.most sink.old ≤ K.most sink.new }
    ensures keeps { K.keeps sink.old sink.new }
{
    let mut engine = engine;
    if let Err(end) = open(wire, &mut engine) {
        return engine.ending(end);
    }
    let ended = perform(wire, &mut engine, accesses, sink);
    engine.ending(ended)
}

impl Engine {
    // Returns the report of a run without its answers.
    pub(crate) fn ending(&self, ended: End) -> Ending
        ensures { (answers : List AnswerType) → host_report_to answers result ≡ engine_report answers self.now ended }
    {
        Ending {
            begun: self.begun(),
            requests: self.requests(),
            ended,
        }
    }
}
