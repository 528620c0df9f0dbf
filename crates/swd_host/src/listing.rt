//! Calls over a target that is open already, and the one that opens it. A list or a block over an open target is a run
//! without its opening.
ghost use Rattle.std.specs.Prelude.{◌≡◌, ◌≢◌, ◌≤◌, ◌<◌, ◌+◌, ◌*◌, ◌^◌, ◌++◌, [], length, drop, IfOk, IfErr};
ghost use Rattle.std.specs.Vec.{vec_capacity};
ghost use Rattle.swd_port.specs.declared.wire.Due.TheVariants.{Nothing};
ghost use Rattle.swd_port.specs.PlainAnswers.{plain_reads};
ghost use Rattle.swd_host.specs.Plain.{AreHostAccesses};
ghost use Rattle.swd_host.specs.declared.outcome.Refused.TheVariants.{Memory};
ghost use Rattle.swd_host.specs.Reports.{Closes, HostRefusesList, RunsOver, host_report_of};
ghost use Rattle.swd_host.specs.OpenLists.{ListCloses, ListsWithin};
ghost use Rattle.swd_host.specs.Fields.{host_report_to};
ghost use Rattle.swd_host.specs.Sent.{HostCalls, HostReportsCalls};
ghost use Rattle.swd_host.specs.Confirming.{HostConfirms};
ghost use Rattle.swd_host.specs.Sessions.{HostOpens};

use crate::block::{reads_of, refusal as block_refusal};
use crate::engine::Engine;
use crate::outcome::{Ending, Refused, Report};
use crate::running::{conduct_to, perform, refusal};
use crate::sink::{AnswerSink, OneAnswer};
use crate::task::Bursts;
use std::alloc::Allocator;
use swd_port::{Access, Answer, Wire};

/// Opens a target at rest: a run of no accesses. If it ends [`All`](crate::End::All), the target is open, with its
/// memory as it was: [`run_open`], [`run_open_to`] and [`run_open_block`] may follow.
///
/// Whatever the other end sends, the call ends after at most `10 + 5 * tries` requests.
pub fn open_target<W: Wire>(wire: &mut W, tries: u32) -> Ending
    requires { (W.port wire.old).link.due ≡ Nothing }
    ensures closes { Closes 0 Bursts.Writes [] tries (host_report_to [] result) (W.port wire.new).link.due }
    ensures fits { W.lawful wire.new → W.lawful wire.old
        × RunsOver [] tries (host_report_to [] result) (W.port wire.old) (W.port wire.new) }
    ensures opens { W.lawful wire.new → HostOpens result.ended (W.port wire.old) (W.port wire.new) }
    ensures plan { W.plan wire.new ≡ W.plan wire.old }
    ensures told { HostCalls W.notes (HostReportsCalls [] (host_report_to [] result)) wire.old wire.new }
{
    let mut none = OneAnswer { answer: None };
    conduct_to(wire, Engine::new(tries), &[], &mut none)
}

/// Performs the accesses in order over an open target, with the guarantees of [`run`](crate::run), and sends no
/// opening. A target is open after each call that ended [`All`](crate::End::All).
///
/// An access that nothing disturbs takes three requests, and a write within a burst one. After an early end the target
/// may be no longer open: [`resume`](crate::resume) continues the list.
///
/// Whatever the other end sends, the call ends after at most `6 + 5 * tries` requests for each access.
///
/// # Errors
///
/// Returns `TooMany` for more than 65,536 accesses, `Unaligned` for the first address that isn't a multiple of 4, and
/// `Memory` if allocating the answers fails. Nothing is sent in these cases, and the target stays open.
pub fn run_open<W: Wire, A: Allocator>(
    alloc: A,
    wire: &mut W,
    accesses: &[Access],
    tries: u32,
) -> Result<Report<A>, Refused>
    requires { (W.port wire.old).link.due ≡ Nothing }
    ensures closes { IfOk result (λ report.
        ListCloses Bursts.Writes accesses.now tries (host_report_of report) (W.port wire.new).link.due) }
    ensures fits { IfOk result (λ report. W.lawful wire.new → W.lawful wire.old
        × ListsWithin Bursts.Writes accesses.now tries (host_report_of report) (W.port wire.old) (W.port wire.new)) }
    ensures accepted { IfOk result (λ report. (length accesses.now ≤ 65536) × AreHostAccesses accesses.now) }
    ensures refused { IfErr result (HostRefusesList accesses.now) }
    ensures untouched { IfErr result (λ refused. wire.new ≡ wire.old) }
    ensures plan { W.plan wire.new ≡ W.plan wire.old }
    ensures told { IfOk result (λ report.
        HostCalls W.notes (HostReportsCalls accesses.now (host_report_of report)) wire.old wire.new) }
{
    if let Some(refused) = refusal(accesses) {
        return Err(refused);
    }
    let Ok(answers) = Vec::with_capacity(alloc, accesses.len()) else {
        return Err(Refused::Memory);
    };
    Ok(report_open(wire, accesses, Bursts::Writes, tries, answers))
}

/// Reads `count` words at `addr`, `addr + 4` and so on, over an open target, with the guarantees of
/// [`run_block`](crate::run_block), and sends no opening.
///
/// # Errors
///
/// Returns `TooMany` for more than 65,536 words, and `Unaligned { index: 0 }` if `addr` isn't a multiple of 4 and
/// `count` isn't 0. Returns `Memory` if allocating the reads or the answers fails. Nothing is sent in these cases.
pub fn run_open_block<W: Wire, A: Allocator + Copy>(
    alloc: A,
    wire: &mut W,
    addr: u32,
    count: u32,
    tries: u32,
) -> Result<Report<A>, Refused>
    requires due { (W.port wire.old).link.due ≡ Nothing }
    requires range { addr + 4 * count ≤ 2 ^ 32 }
    ensures closes { IfOk result (λ report.
        ListCloses Bursts.Reads (plain_reads addr count) tries (host_report_of report) (W.port wire.new).link.due) }
    ensures fits { IfOk result (λ report. W.lawful wire.new → W.lawful wire.old
        × ListsWithin Bursts.Reads (plain_reads addr count) tries (host_report_of report)
        (W.port wire.old) (W.port wire.new)) }
    ensures accepted { IfOk result (λ report. (count ≤ 65536) × AreHostAccesses (plain_reads addr count)) }
    ensures refused { IfErr result (HostRefusesList (plain_reads addr count)) }
    ensures untouched { IfErr result (λ refused. wire.new ≡ wire.old) }
    ensures plan { W.plan wire.new ≡ W.plan wire.old }
    ensures told { IfOk result (λ report.
        HostCalls W.notes (HostReportsCalls (plain_reads addr count) (host_report_of report)) wire.old wire.new) }
{
    if let Some(refused) = block_refusal(addr, count) {
        return Err(refused);
    }
    let Ok(accesses) = reads_of(alloc, addr, count) else {
        return Err(Refused::Memory);
    };
    let Ok(answers) = Vec::with_capacity(alloc, accesses.len()) else {
        return Err(Refused::Memory);
    };
    Ok(report_open(wire, &accesses, Bursts::Reads, tries, answers))
}

/// Performs the accesses in order over an open target as [`run_open`] does, and hands each answer on once it is
/// certain, as [`run_to`](crate::run_to) does. The kind of bursts is chosen for this list alone. It allocates no
/// memory.
///
/// The sink may have the answers of earlier lists: those of this one come after them.
///
/// Whatever the other end sends, the call ends after at most as many requests as [`run_open`], with `Bursts::Never`
/// after at most `6 + 6 * tries` for each access.
///
/// # Errors
///
/// Returns `TooMany` for more than 65,536 accesses, and `Unaligned` for the first address that isn't a multiple of 4.
/// Nothing is sent then, the target stays open, and the sink takes nothing.
pub fn run_open_to<W: Wire, K: AnswerSink>(
    wire: &mut W,
    accesses: &[Access],
    bursts: Bursts,
    tries: u32,
    sink: &mut K,
) -> Result<Ending, Refused>
    requires due { (W.port wire.old).link.due ≡ Nothing }
    requires room { length (K.taken sink.old) + length accesses.now ≤ K.most sink.old }
    ensures added { K.taken sink.new ≡ K.taken sink.old ++ drop (length (K.taken sink.old)) (K.taken sink.new) }
    ensures closes { IfOk result (λ ending. ListCloses bursts accesses.now tries
        (host_report_to (drop (length (K.taken sink.old)) (K.taken sink.new)) ending) (W.port wire.new).link.due) }
    ensures fits { IfOk result (λ ending. W.lawful wire.new → W.lawful wire.old
        × ListsWithin bursts accesses.now tries
        (host_report_to (drop (length (K.taken sink.old)) (K.taken sink.new)) ending)
        (W.port wire.old) (W.port wire.new)) }
    ensures accepted { IfOk result (λ ending. (length accesses.now ≤ 65536) × AreHostAccesses accesses.now) }
    ensures refused { IfErr result (HostRefusesList accesses.now) }
    ensures memory { IfErr result (λ refused. refused ≢ Memory) }
    ensures untouched { IfErr result (λ refused. (wire.new ≡ wire.old) × (sink.new ≡ sink.old)) }
    ensures keeps { K.keeps sink.old sink.new }
    ensures most { K.most sink.old ≤ K.most sink.new }
    ensures plan { W.plan wire.new ≡ W.plan wire.old }
    ensures told { IfOk result (λ ending. HostCalls W.notes (HostReportsCalls accesses.now
        (host_report_to (drop (length (K.taken sink.old)) (K.taken sink.new)) ending)) wire.old wire.new) }
    ensures confirms { IfOk result (λ ending. HostCalls W.notes (HostConfirms bursts) wire.old wire.new) }
{
    match refusal(accesses) {
        Some(refused) => Err(refused),
        None => Ok(conduct_open(wire, accesses, bursts, tries, sink)),
    }
}

// Performs the list over a target that is open. The sink may have earlier answers: those of the list come after them.
pub(crate) fn conduct_open<W: Wire, K: AnswerSink>(
    wire: &mut W,
    accesses: &[Access],
    bursts: Bursts,
    tries: u32,
    sink: &mut K,
) -> Ending
    requires due { (W.port wire.old).link.due ≡ Nothing }
    requires accepted { (length accesses.now ≤ 65536) × AreHostAccesses accesses.now }
    requires room { length (K.taken sink.old) + length accesses.now ≤ K.most sink.old }
    ensures added { K.taken sink.new ≡ K.taken sink.old ++ drop (length (K.taken sink.old)) (K.taken sink.new) }
    ensures closes { ListCloses bursts accesses.now tries
        (host_report_to (drop (length (K.taken sink.old)) (K.taken sink.new)) result) (W.port wire.new).link.due }
    ensures fits { W.lawful wire.new → W.lawful wire.old
        × ListsWithin bursts accesses.now tries
        (host_report_to (drop (length (K.taken sink.old)) (K.taken sink.new)) result)
        (W.port wire.old) (W.port wire.new) }
    ensures plan { W.plan wire.new ≡ W.plan wire.old }
    ensures told { HostCalls W.notes (HostReportsCalls accesses.now
        (host_report_to (drop (length (K.taken sink.old)) (K.taken sink.new)) result)) wire.old wire.new }
    ensures confirms { HostCalls W.notes (HostConfirms bursts) wire.old wire.new }
    ensures most { K.most sink.old ≤ K.most sink.new }
    ensures keeps { K.keeps sink.old sink.new }
{
    let mut engine = Engine::opened(bursts, tries);
    let ended = perform(wire, &mut engine, accesses, sink);
    engine.ending(ended)
}

// Performs the list over a target that is open, and returns its report.
fn report_open<W: Wire, A: Allocator>(
    wire: &mut W,
    accesses: &[Access],
    bursts: Bursts,
    tries: u32,
    answers: Vec<Answer, A>,
) -> Report<A>
    requires due { (W.port wire.old).link.due ≡ Nothing }
    requires accepted { (length accesses.now ≤ 65536) × AreHostAccesses accesses.now }
    requires none { answers.items ≡ [] }
    requires room { length accesses.now ≤ vec_capacity answers }
    ensures closes { ListCloses bursts accesses.now tries (host_report_of result)
        (W.port wire.new).link.due }
    ensures fits { W.lawful wire.new → W.lawful wire.old
        × ListsWithin bursts accesses.now tries (host_report_of result)
        (W.port wire.old) (W.port wire.new) }
    ensures plan { W.plan wire.new ≡ W.plan wire.old }
    ensures told { HostCalls W.notes (HostReportsCalls accesses.now (host_report_of result)) wire.old wire.new }
{
    let mut answers = answers;
    let ending = conduct_open(wire, accesses, bursts, tries, &mut answers);
    ending.with(answers)
}
