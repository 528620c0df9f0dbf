//! Resumes a run after a lost acknowledgement, or after its retries ran out.
ghost use Rattle.std.specs.Prelude.{◌≡◌, ◌≤◌, ◌-◌, IfOk, IfErr, IfSome, List, length};
ghost use Rattle.swd_port.specs.declared.access.Answer.{Answer as AnswerType};
ghost use Rattle.std.specs.Vec.{vec_capacity};
ghost use Rattle.swd_host.specs.Plain.{AreHostAccesses};
ghost use Rattle.swd_host.specs.Sent.{HostCalls};
ghost use Rattle.swd_host.specs.Reports.{host_report_of};
ghost use Rattle.swd_host.specs.Fields.{host_report_to};
ghost use Rattle.swd_host.specs.Again.{ResumeCloses, ResumesOver, ResumeReportsCalls};
ghost use Rattle.swd_host.specs.Resuming.{resume_report};
ghost use Rattle.swd_host.specs.Confirming.{HostConfirms};
ghost use Rattle.swd_host.specs.Tasks.{resumed_bursts};
ghost use Rattle.swd_host.specs.declared.outcome.Refused.TheVariants.{Memory};

use crate::engine::Engine;
use crate::outcome::{End, Ending, Refused, Report};
use crate::running::{open, perform};
use crate::sink::AnswerSink;
use crate::task::Bursts;
use std::alloc::Allocator;
use swd_port::{Access, Answer, Wire};

/// Resumes a run of these accesses over this wire that ended `Lost` or `TriesOut`, or a `resume` that did, from the
/// first unanswered access on. The report covers the whole list, except that `requests` counts this call alone.
///
/// The call is a run over the rest of the list. It starts from the bus as it is, or as a transfer that was left
/// pending leaves it. It performs the accesses in flight again, which may have taken effect before. `begun` of its
/// report covers all unanswered accesses that this call or an earlier one started. [`laws::resumptions`] states what
/// follows for successive calls.
///
/// The call starts with a line reset of 100 ones, and the opening. During the first 34 ones a data phase that the
/// target may be in can pass (IHI 0031, B4, protocol error response). A transfer that was left pending may now turn out
/// to be a bus error: its flag is cleared once, and that is no event.
///
/// # Errors
///
/// Returns `Memory` if allocating the answers fails. Nothing is sent in this case.
pub fn resume<W: Wire, A: Allocator>(
    alloc: A,
    wire: &mut W,
    accesses: &[Access],
    report: &Report<A>,
    tries: u32,
) -> Result<Report<A>, Refused>
    requires accepted { (length accesses.now ≤ 65536) × AreHostAccesses accesses.now }
    requires reported { length (host_report_of report.now).answers ≤ length accesses.now }
    ensures continues { IfOk result (λ told. ResumeCloses Bursts.Writes accesses.now tries (host_report_of report.now)
        (host_report_of told)
        (W.port wire.new).link.due) }
    ensures fits { IfOk result (λ told. W.lawful wire.new → W.lawful wire.old
        × ResumesOver Bursts.Writes accesses.now tries (host_report_of report.now) (host_report_of told)
        (W.port wire.old) (W.port wire.new)) }
    ensures refused { IfErr result (λ refused. refused ≡ Memory) }
    ensures untouched { IfErr result (λ refused. wire.new ≡ wire.old) }
    ensures plan { W.plan wire.new ≡ W.plan wire.old }
    ensures told { IfOk result (λ told.
        HostCalls W.notes (ResumeReportsCalls accesses.now (host_report_of report.now) (host_report_of told)) wire.old
        wire.new) }
{
    let Some(mut answers) = copy_answers(alloc, &report.answers, accesses.len()) else {
        return Err(Refused::Memory);
    };
    let ending = resume_to(
        wire,
        accesses,
        report.ending(),
        Bursts::Writes,
        tries,
        &mut answers,
    );
    Ok(ending.with(answers))
}

/// Resumes a run as [`resume`] does, and hands each further answer on once it is certain. The sink has the answers so
/// far. Returns the report without its answers: `begun` as that of `resume`, and the requests of this call alone. With
/// `Bursts::Writes` writes are performed in bursts, as `resume` does, and else no accesses. It allocates no memory.
pub fn resume_to<W: Wire, K: AnswerSink>(
    wire: &mut W,
    accesses: &[Access],
    earlier: Ending,
    bursts: Bursts,
    tries: u32,
    sink: &mut K,
) -> Ending
    requires accepted { (length accesses.now ≤ 65536) × AreHostAccesses accesses.now }
    requires reported { length (K.taken sink.old) ≤ length accesses.now }
    requires room { length accesses.now ≤ K.most sink.old }
    ensures continues { ResumeCloses bursts accesses.now tries (host_report_to (K.taken sink.old) earlier)
        (host_report_to (K.taken sink.new) result) (W.port wire.new).link.due }
    ensures fits { W.lawful wire.new → W.lawful wire.old
        × ResumesOver bursts accesses.now tries (host_report_to (K.taken sink.old) earlier)
        (host_report_to (K.taken sink.new) result)
        (W.port wire.old) (W.port wire.new) }
    ensures keeps { K.keeps sink.old sink.new }
    ensures most { K.most sink.old ≤ K.most sink.new }
    ensures plan { W.plan wire.new ≡ W.plan wire.old }
    ensures told { HostCalls W.notes (ResumeReportsCalls accesses.now (host_report_to (K.taken sink.old) earlier)
        (host_report_to (K.taken sink.new) result)) wire.old wire.new }
    ensures confirms { HostCalls W.notes (HostConfirms (resumed_bursts bursts)) wire.old wire.new }
{
    let answered = sink.count();
    let mut engine = Engine::resuming(bursts, tries);
    if let Err(end) = open(wire, &mut engine) {
        return since(engine.ending(end), earlier, 0);
    }
    let ended = perform(wire, &mut engine, &accesses[answered..], sink);
    since(engine.ending(ended), earlier, sink.count() - answered)
}

// Copies the answers to a list with room for `most`.
fn copy_answers<A: Allocator>(alloc: A, answers: &[Answer], most: usize) -> Option<Vec<Answer, A>>
    requires { length answers.now ≤ most }
    ensures kept { IfSome result (λ kept. kept.items ≡ answers.now) }
    ensures room { IfSome result (λ kept. most ≤ vec_capacity kept) }
{
    let mut kept = Vec::with_capacity(alloc, most).ok()?;
    kept.extend_from_slice(answers).ok()?;
    Some(kept)
}

// Adds to the report of this call, which has `more` answers, the unanswered accesses that earlier calls started.
fn since(ending: Ending, earlier: Ending, more: usize) -> Ending
    ensures { (before after : List AnswerType) → more ≡ length after - length before
        → host_report_to after result ≡ resume_report (host_report_to after ending) (host_report_to before earlier) }
{
    let begun = match ending.ended {
        End::All => 0,
        _ => ending.begun.max(still_open(earlier.begun, more)),
    };
    Ending { begun, ..ending }
}

// Returns how many of the accesses that earlier calls left in flight are unanswered after `more` answers.
fn still_open(begun: u8, more: usize) -> u8
    ensures { result ≡ begun - more }
{
    if more < begun as usize {
        begun - more as u8
    } else {
        0
    }
}
