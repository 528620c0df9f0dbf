//! A run as a state machine without I/O: it returns what to send next, and takes the replies.
ghost use Rattle.std.specs.Prelude.{◌≡◌, ◌+◌, ◌≤◌, [], length, List, true, false, ◌++◌, IfOk, IfErr, IfNone, IfSome};
ghost use Rattle.std.specs.Prelude.{Some, None, slice_get, ℕ};
ghost use Rattle.swd_steps.specs.declared.run.Run.{Run as RunType};
ghost use Rattle.swd_port.specs.declared.access.Access.{Access as AccessType};
ghost use Rattle.swd_port.specs.Steps.{IsPortSeen};
ghost use Rattle.swd_host.specs.declared.engine.Ahead.TheVariants.{Unsent};
ghost use Rattle.swd_host.specs.declared.task.Bursts.TheVariants.{Reads, Writes};
ghost use Rattle.swd_host.specs.Engines.{EngineHasCue, IsEnginePhaseCue, engine_begun, engine_bursts, engine_cue};
ghost use Rattle.swd_host.specs.Engines.{engine_is_ahead, engine_is_resting, engine_may_start, engine_outcome};
ghost use Rattle.swd_host.specs.Engines.{engine_requests};
ghost use Rattle.swd_host.specs.Plain.{AreHostAccesses, host_access_is_aligned};
ghost use Rattle.swd_host.specs.Accepting.{HostAccessHasRanges};
ghost use Rattle.swd_host.specs.Turns.{EngineStarts};
ghost use Rattle.swd_steps.specs.Failing.{SteppedFails};
ghost use Rattle.swd_steps.specs.Runs.{SteppedExtends, SteppedRefusalReason, SteppedListFits, SteppedLeaves};
ghost use Rattle.swd_steps.specs.Runs.{SteppedMakesCall, SteppedRan, stepped_again, stepped_anew, stepped_answers};
ghost use Rattle.swd_steps.specs.Runs.{stepped_opened};
ghost use Rattle.swd_steps.specs.Runs.{stepped_run_end, stepped_cue_is_lead, stepped_answer_list, stepped_may_resume};
ghost use Rattle.swd_steps.specs.Runs.{stepped_run_cue, stepped_seen};

use crate::accesses::Accesses;
use swd_host::{Bursts, End, Engine, Outcome};
use swd_port::{Access, Answer, Cue, MOST_ACCESSES};

// The three bits of an acknowledgement on a line that nobody drives.
const SILENCE: u64 = 7;

/// The stage of a run.
#[derive(Clone, Copy, Debug, PartialEq, Eq)]
pub(crate) enum Stage {
    /// The engine has a cue.
    Driving,
    /// No access is in progress: the next one starts, or the eight idle cycles follow if all are answered.
    Between,
    /// The run has ended.
    Ended(End),
}

/// The answers of one call, in order: mostly one or none. In a block of reads there may be two, where the next access
/// was a bus error that was found before the answer of the current one.
#[derive(Clone, Copy, Debug, PartialEq, Eq)]
pub struct Answers {
    pub first: Option<Answer>,
    /// `None` unless there is a first one.
    pub second: Option<Answer>,
}

/// The reason why a call was refused. The run is unchanged.
#[derive(Clone, Copy, Debug, PartialEq, Eq)]
pub enum Refusal {
    /// The run has ended.
    Ended,
    /// The reply has too many bits for the cue.
    Reply,
    /// There are more than 65,536 accesses.
    TooMany,
    /// The first access whose address isn't a multiple of 4.
    Unaligned { index: usize },
    /// The list has fewer accesses than are answered: it isn't that of the calls before.
    TooFew,
}

/// A run of the host over a list of accesses. It returns what to send next, and takes the replies. The caller passes
/// the same list to each call.
///
/// ```text
/// let mut run = Run::new(tries);
/// while let Some(cue) = run.cue() {
///     let first = run.answered();
///     let reply = /* perform the cue; what was seen */;
///     let answers = run.next(&accesses, reply)?;
///     /* store the answers from index `first` on */
/// }
/// /* `run.ended()` is the end */
/// ```
#[derive(Clone, Copy, Debug, PartialEq, Eq)]
pub struct Run {
    pub(crate) engine: Engine,
    pub(crate) stage: Stage,
    // The number of answered accesses, including those of earlier runs that this one resumes.
    pub(crate) answered: u32,
}

impl Run {
    /// Creates a run at the start of the opening. The opening, and each access, may meet up to `tries` events. Writes
    /// next to each other are sent in bursts.
    pub fn new(tries: u32) -> Run
        ensures { (list : List AccessType) → SteppedRan (stepped_anew Writes tries) list [] result [] }
    {
        Run::beginning(Engine::new(tries), 0)
    }

    /// Creates a run at the start of the opening, with bursts of this kind.
    pub fn opening(bursts: Bursts, tries: u32) -> Run
        ensures { (list : List AccessType) → SteppedRan (stepped_anew bursts tries) list [] result [] }
    {
        Run::beginning(Engine::opening(bursts, tries), 0)
    }

    /// Creates a run for a block of reads: its bursts are of reads instead of writes. The request for the next word
    /// returns the word of a read.
    pub fn blocks(tries: u32) -> Run
        ensures { (list : List AccessType) → SteppedRan (stepped_anew Reads tries) list [] result [] }
    {
        Run::beginning(Engine::blocks(tries), 0)
    }

    /// Creates a run over a target that is open already, as a run leaves it that ended `All`: it sends no opening. The
    /// bursts are of this kind, for this list alone. Pass the same list to each call of [`next`](Run::next).
    ///
    /// # Errors
    ///
    /// Returns `TooMany` or `Unaligned` if the list isn't valid.
    pub fn opened<L: Accesses>(accesses: &L, bursts: Bursts, tries: u32) -> Result<Run, Refusal>
        ensures ran { IfOk result (λ run. SteppedRan (stepped_opened bursts tries) (L.list accesses.now) [] run []) }
        ensures refused { IfErr result (λ refusal. (run : RunType) (reply : ℕ)
            → SteppedRefusalReason run (L.list accesses.now) reply refusal) }
    {
        let count = accesses.count();
        if count > MOST_ACCESSES as usize {
            return Err(Refusal::TooMany);
        }
        if let Some(refusal) = unaligned(accesses, count) {
            return Err(refusal);
        }
        let mut run = Run::beginning(Engine::opened(bursts, tries), 0);
        run.begin(accesses);
        Ok(run)
    }

    /// Creates a run that resumes this one over the same list, from the first unanswered access on. Returns `None` if
    /// this one didn't end `Lost` or `TriesOut`. Accesses in flight may take effect again. `requests` and
    /// `begun` are those of the new run alone. It sends writes in bursts if this one does, and confirms each read by
    /// itself.
    pub fn again(&self, tries: u32) -> Option<Run>
        ensures again { IfSome result (λ run.
            (list : List AccessType)
            → SteppedRan (stepped_again (engine_bursts self.now.engine) self.now.answered tries) list [] run []) }
        ensures none { IfNone result (stepped_may_resume self.now.stage ≡ false) }
        ensures some { IfSome result (λ run. stepped_may_resume self.now.stage ≡ true) }
    {
        match self.stage {
            Stage::Ended(End::Lost | End::TriesOut) => {
                Some(Run::beginning(self.engine.resumed(tries), self.answered))
            }
            _ => None,
        }
    }

    /// Returns the run that ended `Lost` since the line failed inside this cue, with the answers so far. A request
    /// counts as sent, since the target may have seen it. Returns `None` if there is no cue.
    pub fn failed(&self) -> Option<Run>
        ensures fails { IfSome result (λ run.
            EngineHasCue (λ cue. SteppedFails cue self.now run) (stepped_run_cue self.now)) }
        ensures none { IfNone result (stepped_run_cue self.now ≡ None) }
    {
        let cue = self.cue()?;
        let mut failed = *self;
        failed.stage = Stage::Ended(End::Lost);
        if let Cue::Ask(_) = cue {
            failed.engine.next(SILENCE);
            return Some(failed);
        }
        Some(failed)
    }

    fn beginning(engine: Engine, answered: u32) -> Run
        ensures engine { result.engine ≡ engine }
        ensures stage { result.stage ≡ Stage.Driving }
        ensures answered { result.answered ≡ answered }
    {
        Run {
            engine,
            stage: Stage::Driving,
            answered,
        }
    }

    /// Returns what to send next, or `None` once the run has ended.
    pub fn cue(&self) -> Option<Cue>
        ensures cue { result ≡ stepped_run_cue self.now }
        ensures range { IfSome result IsEnginePhaseCue }
    {
        match self.stage {
            Stage::Driving => self.engine.cue(),
            Stage::Between => Some(Cue::Lead {
                ones: 0,
                undriven: 0,
                switch: false,
                zeros: 8,
            }),
            Stage::Ended(_) => None,
        }
    }

    /// Returns the end of the run, or `None` before it.
    pub fn ended(&self) -> Option<End>
        ensures { result ≡ stepped_run_end self.now }
    {
        match self.stage {
            Stage::Ended(end) => Some(end),
            _ => None,
        }
    }

    /// Returns the number of answered accesses, including those of earlier runs.
    pub fn answered(&self) -> u32
        ensures { result ≡ self.now.answered }
    {
        self.answered
    }

    /// Returns the number of unanswered accesses whose DRW request this run sent.
    pub fn begun(&self) -> u8
        ensures { result ≡ engine_begun self.now.engine }
    {
        self.engine.begun()
    }

    /// Returns how many requests this run sent, saturating at `u64::MAX`.
    pub fn requests(&self) -> u64
        ensures { result ≡ engine_requests self.now.engine }
    {
        self.engine.requests()
    }

    /// Takes the reply to the cue. It is the three bits seen after a request, or the 33 bits of a read's data phase.
    /// The first bit in time is the least significant. For other cues the number is ignored. Then starts the next
    /// access if one was answered, and after the last one asks for eight idle cycles. Returns the answers that came
    /// with this reply. The first one is that of the access at index `answered()` before the call.
    ///
    /// The whole list is checked only at the first cue.
    ///
    /// # Errors
    ///
    /// Returns `Ended` once the run has ended. Returns `Reply` if the number isn't below 8 after a request, or below
    /// 2^33 for a read's data phase. Returns `TooMany`, `Unaligned` or `TooFew` if the list isn't valid. The run is
    /// unchanged then.
    pub fn next<L: Accesses>(&mut self, accesses: &L, reply: u64) -> Result<Answers, Refusal>
        ensures goes { IfOk result (λ came. EngineHasCue (λ cue.
            SteppedExtends cue reply (L.list accesses.now) self.old (stepped_answers came) self.new)
            (stepped_run_cue self.old)) }
        ensures counted { IfOk result (λ came. (self.new.answered ≡ self.old.answered + length (stepped_answers came))
            × (self.new.answered ≤ length (L.list accesses.now))) }
        ensures refused { IfErr result (SteppedRefusalReason self.old (L.list accesses.now) reply) }
        ensures same { IfErr result (λ refusal. self.new ≡ self.old) }
    {
        let Some(cue) = self.cue() else {
            return Err(Refusal::Ended);
        };
        if let Some(refusal) = self.refusal(accesses) {
            return Err(refusal);
        }
        let Some(seen) = seen(cue, reply) else {
            return Err(Refusal::Reply);
        };
        let mut next = *self;
        let came = next.turn(accesses, seen);
        if next.answered as usize > accesses.count() {
            return Err(Refusal::TooFew);
        }
        *self = next;
        Ok(came)
    }
}

impl Run {
    // Returns why this list is refused, if it is.
    fn refusal<L: Accesses>(&self, accesses: &L) -> Option<Refusal>
        ensures none { IfNone result (SteppedListFits (L.list accesses.now) self.now) }
        ensures some { IfSome result (λ refusal. (reply : ℕ)
            → SteppedRefusalReason self.now (L.list accesses.now) reply refusal) }
    {
        let count = accesses.count();
        if count > MOST_ACCESSES as usize {
            return Some(Refusal::TooMany);
        }
        if self.answered as usize > count {
            return Some(Refusal::TooFew);
        }
        if self.is_first() {
            unaligned(accesses, count)
        } else {
            None
        }
    }

    // Returns whether the line reset comes next.
    fn is_first(&self) -> bool
        ensures { result ≡ stepped_cue_is_lead (engine_cue self.now.engine) }
    {
        matches!(self.engine.cue(), Some(Cue::Lead { .. }))
    }

    // Takes a valid reply to the cue.
    fn turn<L: Accesses>(&mut self, accesses: &L, seen: u64) -> Answers
        requires cue { EngineHasCue (λ cue. IsPortSeen cue seen × IsEnginePhaseCue cue) (stepped_run_cue self.old) }
        requires few { self.old.answered ≤ 65536 }
        ensures turns { EngineHasCue (λ cue. SteppedMakesCall cue seen (L.list accesses.now) self.old
            (stepped_answers result) self.new)
            (stepped_run_cue self.old) }
        ensures counted { self.new.answered ≡ self.old.answered + length (stepped_answers result) }
        ensures drives { self.new.stage ≡ Stage.Driving → engine_is_resting self.new.engine ≡ false }
    {
        if let Stage::Between = self.stage {
            self.stage = Stage::Ended(End::All);
            return Answers::of(None, None);
        }
        self.engine.next(seen);
        let first = self.follow(accesses);
        let second = self.follow(accesses);
        Answers::of(first, second)
    }

    // Takes the outcome of the engine, if it has reached one.
    fn follow<L: Accesses>(&mut self, accesses: &L) -> Option<Answer>
        requires few { self.old.answered ≤ 65537 }
        ensures follows { SteppedLeaves (L.list accesses.now) self.old (stepped_answer_list result) self.new }
        ensures counted { self.new.answered ≡ self.old.answered + length (stepped_answer_list result) }
        ensures more { self.new.answered ≤ self.old.answered + 1 }
        ensures same { engine_is_resting self.old.engine ≡ false → self.new ≡ self.old }
        ensures driven { self.new.stage ≡ Stage.Driving → self.old.stage ≡ Stage.Driving }
        ensures calm { engine_is_resting self.old.engine ≡ true → self.new.stage ≡ Stage.Driving
            → (self.new.engine.ahead ≡ Unsent) × (engine_is_ahead self.new.engine ≡ false) }
        ensures drives { self.old.engine.ahead ≡ Unsent → engine_is_ahead self.old.engine ≡ false
            → self.new.stage ≡ Stage.Driving → engine_is_resting self.new.engine ≡ false }
    {
        let Stage::Driving = self.stage else {
            return None;
        };
        match self.engine.finished() {
            None => None,
            Some(Outcome::Stopped(end)) => {
                self.stage = Stage::Ended(end);
                None
            }
            Some(Outcome::Opened) => {
                self.begin(accesses);
                None
            }
            Some(Outcome::Answered(answer)) => {
                self.answered += 1;
                self.begin(accesses);
                Some(answer)
            }
        }
    }

    // Starts the next access, if there is one.
    fn begin<L: Accesses>(&mut self, accesses: &L)
        requires rests { engine_may_start (engine_outcome self.old.engine) ≡ true }
        requires few { self.old.answered ≤ 65538 }
        ensures starts { (a : AccessType) → slice_get (L.list accesses.now) self.old.answered ≡ Some a
            → EngineStarts a (slice_get (L.list accesses.now) (self.old.answered + 1)) self.old.engine self.new.engine }
        ensures drives { (a : AccessType) → slice_get (L.list accesses.now) self.old.answered ≡ Some a
            → self.new.stage ≡ Stage.Driving }
        ensures none { slice_get (L.list accesses.now) self.old.answered ≡ None
            → (self.new.engine ≡ self.old.engine) × (self.new.stage ≡ Stage.Between) }
        ensures answered { self.new.answered ≡ self.old.answered }
    {
        let index = self.answered as usize;
        match accesses.access(index) {
            Some(access) => {
                self.engine.start(access, accesses.access(index + 1));
                self.stage = Stage::Driving;
            }
            None => self.stage = Stage::Between,
        }
    }
}

impl Answers {
    fn of(first: Option<Answer>, second: Option<Answer>) -> Answers
        ensures { stepped_answers result ≡ stepped_answer_list first ++ stepped_answer_list second }
    {
        match first {
            Some(_) => Answers { first, second },
            None => Answers {
                first: second,
                second: None,
            },
        }
    }
}

// Returns what was seen at a cue, or `None` if the reply has too many bits.
fn seen(cue: Cue, reply: u64) -> Option<u64>
    ensures some { IfSome result (λ seen. (seen ≡ stepped_seen cue reply) × IsPortSeen cue seen) }
    ensures none { IfNone result (IsPortSeen cue (stepped_seen cue reply) → ⊥) }
{
    match cue {
        Cue::Ask(_) if reply >= 8 => None,
        Cue::Take if reply >= 1 << 33 => None,
        Cue::Ask(_) | Cue::Take => Some(reply),
        Cue::Lead { .. } | Cue::Give(_) | Cue::Pass => Some(0),
    }
}

// Returns a refusal for the first access whose address isn't a multiple of 4, if there is one.
fn unaligned<L: Accesses>(accesses: &L, count: usize) -> Option<Refusal>
    requires count { count ≡ length (L.list accesses.now) }
    requires few { length (L.list accesses.now) ≤ 65536 }
    ensures none { IfNone result (AreHostAccesses (L.list accesses.now)) }
    ensures some { IfSome result (λ refusal.
        (run : RunType) (reply : ℕ) → SteppedRefusalReason run (L.list accesses.now) reply refusal) }
{
    for index in 0..count {
        if let Some(access) = accesses.access(index) {
            if !is_aligned(access) {
                return Some(Refusal::Unaligned { index });
            }
        }
    }
    None
}

// Returns whether the address is a multiple of 4.
fn is_aligned(access: Access) -> bool
    ensures aligned { result ≡ host_access_is_aligned access }
    ensures ranges { HostAccessHasRanges access }
{
    let (Access::Read(addr) | Access::Write(addr, _)) = access;
    addr % 4 == 0
}
