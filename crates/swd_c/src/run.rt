//! A whole run of the host in the caller's memory.
ghost use Rattle.std.specs.Prelude.{◌≡◌, ◌≢◌, ◌+◌, ◌≤◌, ◌<◌, true, false, [], List, Some, length};
ghost use Rattle.swd_port.specs.declared.access.Access.{Access as AccessType};
ghost use Rattle.swd_port.specs.declared.access.Answer.{Answer as AnswerType};
ghost use Rattle.swd_host.specs.declared.outcome.Outcome.TheVariants.{Answered};
ghost use Rattle.swd_host.specs.declared.task.Bursts.TheVariants.{Reads, Writes};
ghost use Rattle.swd_host.specs.Engines.{EngineHasCue, engine_bursts};
ghost use Rattle.swd_steps.specs.declared.run.Run.{Run as RunType};
ghost use Rattle.swd_steps.specs.Failing.{SteppedFails};
ghost use Rattle.swd_steps.specs.Fields.{stepped_fields};
ghost use Rattle.swd_steps.specs.Runs.{SteppedRan, stepped_again, stepped_anew, stepped_answers, stepped_may_resume};
ghost use Rattle.swd_steps.specs.Runs.{stepped_opened, stepped_run_cue};
ghost use Rattle.swd_c.specs.Cues.{c_api_refusal};
ghost use Rattle.swd_c.specs.Runs.{CApiHasNoRun, CApiHasRun, CApiRefusalIndexIsSmall, CApiRunStoresAnswers};
ghost use Rattle.swd_c.specs.Runs.{CApiFailRefusal, CApiRunRefusal, c_api_accesses, c_api_refusal_for};
ghost use Rattle.swd_c.specs.Runs.{CApiListRefusal, c_api_bursts, c_api_refusal_with, c_api_run_cue};
ghost use Rattle.swd_c.specs.Runs.{c_api_stored_answers};

use crate::access::{SwdAccess, access_at};
use crate::cue::SwdCue;
use swd_host::{Bursts, Outcome, OutcomeFields};
use swd_port::{Access, MOST_ACCESSES};
use swd_steps::{Accesses, Answers, Refusal, Run, RunFields};

// The reason of a refusal: the run has ended.
const ENDED: u8 = 1;

// The reason of a refusal by this crate: there isn't room for all answers.
const NO_ROOM: u8 = 6;

// The accesses of a list.
#[derive(Clone, Copy)]
pub(crate) struct AccessArray<'a> {
    pub(crate) accesses: &'a [SwdAccess],
}

impl Accesses for AccessArray<'_> {
    ghost list = { λ listed. c_api_accesses listed.accesses.now };

    fn count(&self) -> usize {
        self.accesses.len()
    }

    fn access(&self, index: usize) -> Option<Access> {
        access_at(self.accesses, index)
    }
}

/// Makes a run at the start of the opening. The opening, and each access, may meet up to `tries` events.
#[unsafe(no_mangle)]
pub extern "C" fn swd_run_new(run: &mut RunFields, tries: u32)
    ensures { CApiHasRun run.new (λ now. (list : List AccessType)
        → SteppedRan (stepped_anew Writes tries) list [] now []) }
{
    *run = Run::new(tries).fields();
}

/// Makes a run for a block of reads. The request for the next word returns the word of a read.
#[unsafe(no_mangle)]
pub extern "C" fn swd_run_blocks(run: &mut RunFields, tries: u32)
    ensures { CApiHasRun run.new (λ now. (list : List AccessType)
        → SteppedRan (stepped_anew Reads tries) list [] now []) }
{
    *run = Run::blocks(tries).fields();
}

/// Makes a run over a target that is open already, as a run leaves it that ended `All`: it sends no opening, and its
/// first cue, which is returned, is that of the first access. `blocks` isn't 0 for a block of reads. Pass the same list
/// to each call of `swd_run_next`.
///
/// Refuses the call, and leaves the fields unchanged, only if the list isn't valid.
#[unsafe(no_mangle)]
pub extern "C" fn swd_run_opened(
    run: &mut RunFields,
    accesses: &[SwdAccess],
    blocks: u8,
    tries: u32,
) -> SwdCue
    ensures opened { result.kind ≢ 255 → CApiHasRun run.new (λ now.
        SteppedRan (stepped_opened (c_api_bursts blocks) tries) (c_api_accesses accesses.now) [] now []
        × (result ≡ c_api_run_cue now)) }
    ensures refused { result.kind ≡ 255 → CApiListRefusal accesses.now result }
    ensures same { result.kind ≡ 255 → run.new ≡ run.old }
{
    match Run::opened(&AccessArray { accesses }, bursts_of(blocks), tries) {
        Err(refusal) => SwdCue::refused_for(refusal),
        Ok(now) => {
            *run = now.fields();
            SwdCue::of_run(&now)
        }
    }
}

// Returns the bursts of a run, by whether it is for blocks of reads.
fn bursts_of(blocks: u8) -> Bursts
    ensures { result ≡ c_api_bursts blocks }
{
    if blocks == 0 {
        Bursts::Writes
    } else {
        Bursts::Reads
    }
}

/// Makes the run that resumes this one over the same list, from the first unanswered access on. Returns whether it did.
/// Returns false, and leaves the fields unchanged, if they are those of no run, or the run didn't end `Lost` or
/// `TriesOut`.
#[unsafe(no_mangle)]
pub extern "C" fn swd_run_again(run: &mut RunFields, tries: u32) -> bool
    ensures again { (before : RunType) → stepped_fields before ≡ run.old → result ≡ true
        → CApiHasRun run.new (λ now. (list : List AccessType)
        → SteppedRan (stepped_again (engine_bursts before.engine) before.answered tries) list [] now []) }
    ensures told { (before : RunType) → stepped_fields before ≡ run.old → result ≡ stepped_may_resume before.stage }
    ensures refused { CApiHasNoRun run.old → result ≡ false }
    ensures same { result ≡ false → run.new ≡ run.old }
{
    let Some(before) = run.run() else {
        return false;
    };
    let Some(now) = before.again(tries) else {
        return false;
    };
    *run = now.fields();
    true
}

/// Returns what to send next. Refuses fields of no run, and those that have more answers than a list has accesses.
#[unsafe(no_mangle)]
pub extern "C" fn swd_run_cue(run: &RunFields) -> SwdCue
    ensures cue { (now : RunType) → stepped_fields now ≡ run.now → now.answered ≤ 65536
        → result ≡ c_api_run_cue now }
    ensures refused { CApiHasNoRun run.now → result ≡ c_api_refusal }
    ensures many { 65536 < run.now.answered → result ≡ c_api_refusal }
{
    if run.answered > MOST_ACCESSES {
        return SwdCue::refusal();
    }
    match run.run() {
        Some(run) => SwdCue::of_run(&run),
        None => SwdCue::refusal(),
    }
}

/// Takes the reply to the cue, and returns the next cue. The reply is the three bits seen after a request, or the 33
/// bits of a read's data phase. The first bit in time is the least significant. For other cues the number is ignored.
/// Starts the next access of the list if one was answered, and stores the answers at the indices of their accesses.
///
/// Refuses the call only for one of these reasons: the fields are those of no run; the run has ended; the reply has too
/// many bits; the list isn't valid; there is room for fewer answers than accesses. Fields and answers are unchanged
/// then.
#[unsafe(no_mangle)]
pub extern "C" fn swd_run_next(
    run: &mut RunFields,
    accesses: &[SwdAccess],
    answers: &mut [OutcomeFields],
    reply: u64,
) -> SwdCue
    ensures goes { (before : RunType) → stepped_fields before ≡ run.old → result.kind ≢ 255
        → EngineHasCue (λ cue. CApiHasRun run.new (λ now. (more : List AnswerType)
        × CApiRunStoresAnswers cue reply accesses.now before answers.old now answers.new more
        × (result ≡ c_api_run_cue now)))
        (stepped_run_cue before) }
    ensures refused { result.kind ≡ 255 → CApiRunRefusal run.old accesses.now reply (length answers.old) result }
    ensures same { result.kind ≡ 255 → (run.new ≡ run.old) × (answers.new ≡ answers.old) }
{
    let Some(mut now) = run.run() else {
        return SwdCue::refusal();
    };
    if answers.len() < accesses.len() {
        return SwdCue::refused(NO_ROOM, 0);
    }
    let first = now.answered() as usize;
    match now.next(&AccessArray { accesses }, reply) {
        Err(refusal) => SwdCue::refused_for(refusal),
        Ok(came) => {
            store(answers, first, came);
            *run = now.fields();
            SwdCue::of_run(&now)
        }
    }
}

/// Ends the run as lost, since the line failed inside the cue, and returns the outcome. The answers so far stand. A
/// request counts as sent, since the target may have seen it.
///
/// Refuses the call, and leaves the fields unchanged, only if they are those of no run, or the run has ended.
#[unsafe(no_mangle)]
pub extern "C" fn swd_run_fail(run: &mut RunFields) -> SwdCue
    ensures fails { (before : RunType) → stepped_fields before ≡ run.old → result.kind ≢ 255
        → EngineHasCue (λ cue. CApiHasRun run.new (λ now. SteppedFails cue before now
        × (result ≡ c_api_run_cue now)))
        (stepped_run_cue before) }
    ensures refused { result.kind ≡ 255 → CApiFailRefusal run.old result }
    ensures same { result.kind ≡ 255 → run.new ≡ run.old }
{
    let Some(before) = run.run() else {
        return SwdCue::refusal();
    };
    let Some(now) = before.failed() else {
        return SwdCue::refused(ENDED, 0);
    };
    *run = now.fields();
    SwdCue::of_run(&now)
}

// Stores the answers that came, from this index on.
fn store(answers: &mut [OutcomeFields], first: usize, came: Answers)
    requires { first + length (stepped_answers came) ≤ length answers.old }
    ensures { answers.new ≡ c_api_stored_answers first (stepped_answers came) answers.old }
{
    let mut index = first;
    if let Some(answer) = came.first {
        answers[index] = OutcomeFields::of(Outcome::Answered(answer));
        index += 1;
    }
    if let Some(answer) = came.second {
        answers[index] = OutcomeFields::of(Outcome::Answered(answer));
    }
}

impl SwdCue {
    // Returns the cue of a run.
    fn of_run(run: &Run) -> SwdCue
        ensures { result ≡ c_api_run_cue run.now }
    {
        let mut cue = SwdCue::told(run.cue(), run.ended().map(Outcome::Stopped));
        cue.begun = run.begun();
        cue
    }

    // Returns the cue of a refused call of a run, with the reason and the index of the access.
    fn refused(why: u8, index: u32) -> SwdCue
        ensures { result ≡ c_api_refusal_with why index }
    {
        let mut cue = SwdCue::refusal();
        cue.outcome = OutcomeFields {
            word: index,
            kind: why,
        };
        cue
    }

    fn refused_for(refusal: Refusal) -> SwdCue
        requires { CApiRefusalIndexIsSmall refusal }
        ensures { result ≡ c_api_refusal_for refusal }
    {
        match refusal {
            Refusal::Ended => SwdCue::refused(ENDED, 0),
            Refusal::Reply => SwdCue::refused(2, 0),
            Refusal::TooMany => SwdCue::refused(3, 0),
            Refusal::Unaligned { index } => SwdCue::refused(4, index as u32),
            Refusal::TooFew => SwdCue::refused(5, 0),
        }
    }
}
