//! A run that is resumed after lost acknowledgements.
ghost use Rattle.std.specs.Prelude.{◌≡◌, ◌≤◌, [], false, IfNone, IfOk, IfSome, List, OnErr, length};
ghost use Rattle.swd_port.specs.declared.wire.Due.TheVariants.{Nothing};
ghost use Rattle.swd_script.specs.Readers.{script_batch_listed};
ghost use Rattle.swd_script.specs.Laws.{IsScriptBatch};
ghost use Rattle.swd_host.specs.Plain.{AreHostAccesses};
ghost use Rattle.swd_host.specs.Fields.{host_report_to};
ghost use Rattle.swd_host.specs.Sent.{HostCalls, HostReportsCalls};
ghost use Rattle.swd_run.specs.declared.going_on.Stop.{Stop as StopType};
ghost use Rattle.swd_run.specs.GoingOn.{script_resumed_bursts};
ghost use Rattle.swd_run.specs.Sessions.{RunsBatch, RunsBatchFrom, IsBatchRefused, script_run_of, batch_bursts};
ghost use Rattle.swd_run.specs.Starts.{ScriptCallCloses, ScriptCallFits};

use crate::limits::Limits;
use crate::options::CallOptions;
use crate::run_sink::{KeptAnswers, RunSink};
use std::alloc::Allocator;
use swd_host::{AnswerSink, Bursts, End, Ending, Report, resume_to, run_open_to, run_to};
use swd_port::Wire;
use swd_script::Batch;

/// The place where a run was resumed: the report of the call that ended there, at a lost acknowledgement.
#[derive(Clone, Copy, Debug, PartialEq, Eq)]
pub struct Stop {
    /// The number of accesses answered so far.
    pub answered: usize,
    /// The number of accesses in flight after these.
    pub begun: u8,
    /// The number of requests that this call sent.
    pub requests: u64,
}

/// The result of a run that may have been resumed.
#[derive(Debug, Drop)]
pub struct Resumed<A: Allocator> {
    /// The places where it was resumed, in order.
    pub stops: Vec<Stop, A>,
    /// The report of the last call, with the answers of all calls.
    pub report: Report<A>,
}

// Returns which accesses of a batch are performed in bursts.
fn bursts_of<A: Allocator>(batch: &Batch<A>, limits: Limits) -> Bursts
    ensures kind { result ≡ batch_bursts limits.bursts (script_batch_listed batch.now) }
{
    match batch.block {
        Some(_) => Bursts::Reads,
        None if limits.bursts => Bursts::Writes,
        None => Bursts::Never,
    }
}

// Returns how a call of this kind is resumed: the rest of a block has no writes.
fn resumed_bursts(bursts: Bursts) -> Bursts
    ensures { result ≡ script_resumed_bursts bursts }
{
    match bursts {
        Bursts::Reads => Bursts::Writes,
        other => other,
    }
}

// Performs the accesses of a batch once: over the open target, or opens it first.
fn begin<W: Wire, K: AnswerSink, A: Allocator>(
    wire: &mut W,
    batch: &Batch<A>,
    options: CallOptions,
    sink: &mut K,
) -> Ending
    requires batch { IsScriptBatch (script_batch_listed batch.now) }
    requires due { (W.port wire.old).link.due ≡ Nothing }
    requires none { K.taken sink.old ≡ [] }
    requires room { length (script_batch_listed batch.now).accesses ≤ K.most sink.old }
    ensures accepted { (length (script_batch_listed batch.now).accesses ≤ 65536)
        × AreHostAccesses (script_batch_listed batch.now).accesses }
    ensures closes { ScriptCallCloses options.opened
        (batch_bursts options.limits.bursts (script_batch_listed batch.now)) (script_batch_listed batch.now).accesses
        options.limits.tries (host_report_to (K.taken sink.new) result) (W.port wire.new).link.due }
    ensures fits { W.lawful wire.new → W.lawful wire.old
        × ScriptCallFits options.opened (batch_bursts options.limits.bursts (script_batch_listed batch.now))
        (script_batch_listed batch.now).accesses options.limits.tries (host_report_to (K.taken sink.new) result)
        (W.port wire.old) (W.port wire.new) }
    ensures told { HostCalls W.notes (HostReportsCalls (script_batch_listed batch.now).accesses
        (host_report_to (K.taken sink.new) result)) wire.old wire.new }
    ensures keeps { K.keeps sink.old sink.new }
    ensures most { K.most sink.old ≤ K.most sink.new }
    ensures plan { W.plan wire.new ≡ W.plan wire.old }
{
    let accesses = batch.accesses.as_slice();
    let bursts = bursts_of(batch, options.limits);
    if options.opened {
        return match run_open_to(wire, accesses, bursts, options.limits.tries, sink) {
            Ok(ending) => ending,
            Err(_) => unreachable!(),
        };
    }
    match run_to(wire, accesses, bursts, options.limits.tries, sink) {
        Ok(ending) => ending,
        Err(_) => unreachable!(),
    }
}

/// Makes a call as [`run_on_to`] does, with these options.
pub(crate) fn make_call_to<W: Wire, K: RunSink, A: Allocator>(
    wire: &mut W,
    batch: &Batch<A>,
    options: CallOptions,
    sink: &mut K,
) -> Result<Ending, K::Refusal>
    requires batch { IsScriptBatch (script_batch_listed batch.now) }
    requires due { (W.port wire.old).link.due ≡ Nothing }
    requires none { K.taken sink.old ≡ [] }
    requires room { length (script_batch_listed batch.now).accesses ≤ K.most sink.old }
    ensures goes { IfOk result (λ ending. (stops : List StopType) × K.follows sink.old stops sink.new
        × RunsBatchFrom W.Wire options.opened (batch_bursts options.limits.bursts (script_batch_listed batch.now))
        options.limits (script_batch_listed batch.now) wire.old
        (record { stops = stops; told = host_report_to (K.taken sink.new) ending }) wire.new) }
    ensures refused { OnErr result (IsBatchRefused W.Wire options.opened
        (batch_bursts options.limits.bursts (script_batch_listed batch.now)) options.limits
        (script_batch_listed batch.now) wire.old wire.new) }
    ensures plan { W.plan wire.new ≡ W.plan wire.old }
{
    let mut ending = begin(wire, batch, options, sink);
    let accesses = batch.accesses.as_slice();
    let bursts = resumed_bursts(bursts_of(batch, options.limits));
    for done in 0..options.limits.resumes {
        let End::Lost = ending.ended else {
            return Ok(ending);
        };
        sink.stop(Stop {
            answered: sink.count(),
            begun: ending.begun,
            requests: ending.requests,
        })?;
        ending = resume_to(wire, accesses, ending, bursts, options.limits.tries, sink);
    }
    Ok(ending)
}

/// Performs the accesses of a batch over a wire, and resumes the run after a lost acknowledgement, at most
/// `limits.resumes` times. Hands each answer on once it is certain, and the place where the run is resumed before the
/// next call. Allocates no memory itself.
///
/// # Errors
///
/// The reason why the sink doesn't take such a place. The run isn't resumed there.
pub fn run_on_to<W: Wire, K: RunSink, A: Allocator>(
    wire: &mut W,
    batch: &Batch<A>,
    limits: Limits,
    sink: &mut K,
) -> Result<Ending, K::Refusal>
    requires batch { IsScriptBatch (script_batch_listed batch.now) }
    requires due { (W.port wire.old).link.due ≡ Nothing }
    requires none { K.taken sink.old ≡ [] }
    requires room { length (script_batch_listed batch.now).accesses ≤ K.most sink.old }
    ensures goes { IfOk result (λ ending. (stops : List StopType) × K.follows sink.old stops sink.new
        × RunsBatch W.Wire (batch_bursts limits.bursts (script_batch_listed batch.now)) limits
        (script_batch_listed batch.now) wire.old
        (record { stops = stops; told = host_report_to (K.taken sink.new) ending }) wire.new) }
    ensures refused { OnErr result (IsBatchRefused W.Wire false
        (batch_bursts limits.bursts (script_batch_listed batch.now)) limits
        (script_batch_listed batch.now) wire.old wire.new) }
    ensures plan { W.plan wire.new ≡ W.plan wire.old }
{
    let options = CallOptions {
        limits,
        opened: false,
    };
    make_call_to(wire, batch, options, sink)
}

/// Makes a call as [`run_on`] does, with these options.
pub(crate) fn make_call<W: Wire, A: Allocator + Copy>(
    alloc: A,
    wire: &mut W,
    batch: &Batch<A>,
    options: CallOptions,
) -> Option<Resumed<A>>
    requires batch { IsScriptBatch (script_batch_listed batch.now) }
    requires due { (W.port wire.old).link.due ≡ Nothing }
    ensures goes { IfSome result (λ resumed. RunsBatchFrom W.Wire options.opened
        (batch_bursts options.limits.bursts (script_batch_listed batch.now)) options.limits
        (script_batch_listed batch.now) wire.old (script_run_of resumed) wire.new) }
    ensures refused { IfNone result (IsBatchRefused W.Wire options.opened
        (batch_bursts options.limits.bursts (script_batch_listed batch.now)) options.limits
        (script_batch_listed batch.now) wire.old wire.new) }
    ensures plan { W.plan wire.new ≡ W.plan wire.old }
{
    let Ok(answers) = Vec::with_capacity(alloc, batch.accesses.len()) else {
        return None;
    };
    let mut kept = KeptAnswers {
        answers,
        stops: Vec::new(alloc),
    };
    let Ok(ending) = make_call_to(wire, batch, options, &mut kept) else {
        return None;
    };
    let KeptAnswers { answers, stops } = kept;
    Some(Resumed {
        stops,
        report: ending.with(answers),
    })
}

/// Performs the accesses of a batch over a wire, and resumes the run after a lost acknowledgement, at most
/// `limits.resumes` times. Returns `None` if an allocation fails, before the first bit is sent or when the run is to be
/// resumed.
pub fn run_on<W: Wire, A: Allocator + Copy>(
    alloc: A,
    wire: &mut W,
    batch: &Batch<A>,
    limits: Limits,
) -> Option<Resumed<A>>
    requires batch { IsScriptBatch (script_batch_listed batch.now) }
    requires due { (W.port wire.old).link.due ≡ Nothing }
    ensures goes { IfSome result (λ resumed. RunsBatch W.Wire
        (batch_bursts limits.bursts (script_batch_listed batch.now)) limits
        (script_batch_listed batch.now) wire.old (script_run_of resumed) wire.new) }
    ensures refused { IfNone result (IsBatchRefused W.Wire false
        (batch_bursts limits.bursts (script_batch_listed batch.now)) limits
        (script_batch_listed batch.now) wire.old wire.new) }
    ensures plan { W.plan wire.new ≡ W.plan wire.old }
{
    let options = CallOptions {
        limits,
        opened: false,
    };
    make_call(alloc, wire, batch, options)
}
