//! A session: lists and blocks over a target that is opened once.
ghost use Rattle.std.specs.Prelude.{◌≡◌, ◌≤◌, ◌+◌, ◌*◌, ◌^◌, ◌++◌, length, drop, true, false, IfOk, IfErr, []};
ghost use Rattle.swd_port.specs.declared.wire.Due.TheVariants.{Nothing};
ghost use Rattle.swd_port.specs.PlainAnswers.{plain_reads};
ghost use Rattle.swd_host.specs.Plain.{AreHostAccesses};
ghost use Rattle.swd_host.specs.Again.{ResumeCloses, ResumesOver, ResumeReportsCalls};
ghost use Rattle.swd_host.specs.Resuming.{host_end_is_all};
ghost use Rattle.swd_host.specs.Reports.{Closes, HostRefusesList, RunsOver, host_report_of};
ghost use Rattle.swd_host.specs.OpenLists.{ListCloses, ListsWithin};
ghost use Rattle.swd_host.specs.Fields.{host_report_to};
ghost use Rattle.swd_host.specs.Sent.{HostCalls, HostReportsCalls};
ghost use Rattle.swd_host.specs.Confirming.{HostConfirms};
ghost use Rattle.swd_host.specs.Sessions.{HostOpens};
ghost use Rattle.swd_host.specs.declared.outcome.Refused.TheVariants.{Memory};

use crate::listing::{open_target, run_open, run_open_block, run_open_to};
use crate::outcome::{End, Ending, Refused, Report};
use crate::resuming::resume;
use crate::sink::AnswerSink;
use crate::task::Bursts;
use std::alloc::Allocator;
use swd_port::{Access, Due, Wire};

/// A target at the other end of a wire, which is opened once for any number of lists and blocks.
///
/// ```text
/// let mut session = Session::new(&mut wire, tries);
/// session.open();
/// while session.is_open() {
///     let report = session.run(alloc, &[Access::Read(status)])?;
///     /* look at report.answers */
/// }
/// ```
///
/// The session is open after each call that ended [`All`](End::All), and closed after an early end. From there
/// [`resume`](Session::resume) continues the list, and opens the session again if it ends `All`.
#[derive(Drop)]
pub struct Session<'w, W> {
    pub(crate) wire: &'w mut W,
    pub(crate) tries: u32,
    pub(crate) ready: bool,
}

impl<'w, W: Wire> Session<'w, W> {
    /// Creates a session over a wire. It is closed. The opening, and each access, may meet up to `tries` events.
    pub fn new(wire: &'w mut W, tries: u32) -> Session<'w, W>
        ensures wire { result.wire.ghost_name ≡ wire.entry.ghost_name }
        ensures same { result.wire.now ≡ wire.old }
        ensures tries { result.tries ≡ tries }
        ensures ready { result.ready ≡ false }
    {
        Session {
            wire,
            tries,
            ready: false,
        }
    }

    /// Returns whether the target is open for a list.
    pub fn is_open(&self) -> bool
        ensures ready { result ≡ true → self.now.ready ≡ true }
        ensures due { result ≡ true → (W.port self.now.wire.now).link.due ≡ Nothing }
        ensures shut { result ≡ false → (W.port self.now.wire.now).link.due ≡ Nothing → self.now.ready ≡ false }
    {
        self.ready && matches!(&self.wire.due(), Due::Nothing)
    }

    /// Opens the target, which is at rest, as [`open_target`] does.
    pub fn open(&mut self) -> Ending
        requires { (W.port self.old.wire.now).link.due ≡ Nothing }
        ensures wire { self.new.wire.ghost_name ≡ self.old.wire.ghost_name }
        ensures tries { self.new.tries ≡ self.old.tries }
        ensures ready { self.new.ready ≡ host_end_is_all result.ended }
        ensures closes { Closes 0 Bursts.Writes [] self.old.tries (host_report_to [] result)
            (W.port self.new.wire.now).link.due }
        ensures fits { W.lawful self.new.wire.now → W.lawful self.old.wire.now
            × RunsOver [] self.old.tries (host_report_to [] result) (W.port self.old.wire.now)
            (W.port self.new.wire.now) }
        ensures opens { W.lawful self.new.wire.now
            → HostOpens result.ended (W.port self.old.wire.now) (W.port self.new.wire.now) }
        ensures plan { W.plan self.new.wire.now ≡ W.plan self.old.wire.now }
        ensures told { HostCalls W.notes (HostReportsCalls [] (host_report_to [] result)) self.old.wire.now
            self.new.wire.now }
    {
        let ending = open_target(self.wire, self.tries);
        self.note(ending.ended);
        ending
    }

    /// Performs the accesses in order over the open target, as [`run_open`] does.
    ///
    /// # Errors
    ///
    /// Returns `TooMany`, `Unaligned` and `Memory` as [`run_open`] does. Nothing is sent in these cases, and the
    /// session stays open.
    pub fn run<A: Allocator>(&mut self, alloc: A, accesses: &[Access]) -> Result<Report<A>, Refused>
        requires ready { self.old.ready ≡ true }
        requires due { (W.port self.old.wire.now).link.due ≡ Nothing }
        ensures wire { self.new.wire.ghost_name ≡ self.old.wire.ghost_name }
        ensures tries { self.new.tries ≡ self.old.tries }
        ensures ready { IfOk result (λ report. self.new.ready ≡ host_end_is_all report.ended) }
        ensures closes { IfOk result (λ report. ListCloses Bursts.Writes accesses.now self.old.tries
            (host_report_of report) (W.port self.new.wire.now).link.due) }
        ensures fits { IfOk result (λ report. W.lawful self.new.wire.now → W.lawful self.old.wire.now
            × ListsWithin Bursts.Writes accesses.now self.old.tries (host_report_of report)
            (W.port self.old.wire.now) (W.port self.new.wire.now)) }
        ensures accepted { IfOk result (λ report. (length accesses.now ≤ 65536) × AreHostAccesses accesses.now) }
        ensures refused { IfErr result (HostRefusesList accesses.now) }
        ensures untouched { IfErr result (λ refused. (self.new.wire.now ≡ self.old.wire.now)
            × (self.new.ready ≡ true)) }
        ensures plan { W.plan self.new.wire.now ≡ W.plan self.old.wire.now }
        ensures told { IfOk result (λ report. HostCalls W.notes (HostReportsCalls accesses.now (host_report_of report))
            self.old.wire.now self.new.wire.now) }
    {
        let report = run_open(alloc, self.wire, accesses, self.tries)?;
        self.note(report.ended);
        Ok(report)
    }

    /// Performs the accesses in order over the open target, and hands each answer on, as [`run_open_to`] does.
    ///
    /// # Errors
    ///
    /// Returns `TooMany` and `Unaligned` as [`run_open_to`] does. Nothing is sent then, the session stays open, and the
    /// sink takes nothing.
    pub fn run_to<K: AnswerSink>(
        &mut self,
        accesses: &[Access],
        bursts: Bursts,
        sink: &mut K,
    ) -> Result<Ending, Refused>
        requires ready { self.old.ready ≡ true }
        requires due { (W.port self.old.wire.now).link.due ≡ Nothing }
        requires room { length (K.taken sink.old) + length accesses.now ≤ K.most sink.old }
        ensures wire { self.new.wire.ghost_name ≡ self.old.wire.ghost_name }
        ensures tries { self.new.tries ≡ self.old.tries }
        ensures ready { IfOk result (λ ending. self.new.ready ≡ host_end_is_all ending.ended) }
        ensures added { K.taken sink.new ≡ K.taken sink.old ++ drop (length (K.taken sink.old)) (K.taken sink.new) }
        ensures closes { IfOk result (λ ending. ListCloses bursts accesses.now self.old.tries
            (host_report_to (drop (length (K.taken sink.old)) (K.taken sink.new)) ending)
            (W.port self.new.wire.now).link.due) }
        ensures fits { IfOk result (λ ending. W.lawful self.new.wire.now → W.lawful self.old.wire.now
            × ListsWithin bursts accesses.now self.old.tries
            (host_report_to (drop (length (K.taken sink.old)) (K.taken sink.new)) ending)
            (W.port self.old.wire.now) (W.port self.new.wire.now)) }
        ensures accepted { IfOk result (λ ending. (length accesses.now ≤ 65536) × AreHostAccesses accesses.now) }
        ensures refused { IfErr result (HostRefusesList accesses.now) }
        ensures untouched { IfErr result (λ refused. (self.new.wire.now ≡ self.old.wire.now)
            × (self.new.ready ≡ true) × (sink.new ≡ sink.old)) }
        ensures keeps { K.keeps sink.old sink.new }
        ensures most { K.most sink.old ≤ K.most sink.new }
        ensures plan { W.plan self.new.wire.now ≡ W.plan self.old.wire.now }
        ensures told { IfOk result (λ ending. HostCalls W.notes (HostReportsCalls accesses.now
            (host_report_to (drop (length (K.taken sink.old)) (K.taken sink.new)) ending))
            self.old.wire.now self.new.wire.now) }
        ensures confirms { IfOk result (λ ending.
            HostCalls W.notes (HostConfirms bursts) self.old.wire.now self.new.wire.now) }
    {
        let ending = run_open_to(self.wire, accesses, bursts, self.tries, sink)?;
        self.note(ending.ended);
        Ok(ending)
    }

    /// Reads `count` words at `addr`, `addr + 4` and so on, over the open target, as [`run_open_block`] does.
    ///
    /// # Errors
    ///
    /// Returns `TooMany`, `Unaligned` and `Memory` as [`run_open_block`] does. Nothing is sent in these cases, and the
    /// session stays open.
    pub fn run_block<A: Allocator + Copy>(
        &mut self,
        alloc: A,
        addr: u32,
        count: u32,
    ) -> Result<Report<A>, Refused>
        requires ready { self.old.ready ≡ true }
        requires due { (W.port self.old.wire.now).link.due ≡ Nothing }
        requires range { addr + 4 * count ≤ 2 ^ 32 }
        ensures wire { self.new.wire.ghost_name ≡ self.old.wire.ghost_name }
        ensures tries { self.new.tries ≡ self.old.tries }
        ensures ready { IfOk result (λ report. self.new.ready ≡ host_end_is_all report.ended) }
        ensures closes { IfOk result (λ report. ListCloses Bursts.Reads (plain_reads addr count) self.old.tries
            (host_report_of report) (W.port self.new.wire.now).link.due) }
        ensures fits { IfOk result (λ report. W.lawful self.new.wire.now → W.lawful self.old.wire.now
            × ListsWithin Bursts.Reads (plain_reads addr count) self.old.tries (host_report_of report)
            (W.port self.old.wire.now) (W.port self.new.wire.now)) }
        ensures accepted { IfOk result (λ report. (count ≤ 65536) × AreHostAccesses (plain_reads addr count)) }
        ensures refused { IfErr result (HostRefusesList (plain_reads addr count)) }
        ensures untouched { IfErr result (λ refused. (self.new.wire.now ≡ self.old.wire.now)
            × (self.new.ready ≡ true)) }
        ensures plan { W.plan self.new.wire.now ≡ W.plan self.old.wire.now }
        ensures told { IfOk result (λ report. HostCalls W.notes
            (HostReportsCalls (plain_reads addr count) (host_report_of report)) self.old.wire.now self.new.wire.now) }
    {
        let report = run_open_block(alloc, self.wire, addr, count, self.tries)?;
        self.note(report.ended);
        Ok(report)
    }

    /// Resumes a list or a block of this session that ended `Lost` or `TriesOut`, as [`resume`] does.
    ///
    /// # Errors
    ///
    /// Returns `Memory` if allocating the answers fails. Nothing is sent in this case.
    pub fn resume<A: Allocator>(
        &mut self,
        alloc: A,
        accesses: &[Access],
        report: &Report<A>,
    ) -> Result<Report<A>, Refused>
        requires accepted { (length accesses.now ≤ 65536) × AreHostAccesses accesses.now }
        requires reported { length (host_report_of report.now).answers ≤ length accesses.now }
        ensures wire { self.new.wire.ghost_name ≡ self.old.wire.ghost_name }
        ensures tries { self.new.tries ≡ self.old.tries }
        ensures ready { IfOk result (λ told. self.new.ready ≡ host_end_is_all told.ended) }
        ensures continues { IfOk result (λ told. ResumeCloses Bursts.Writes accesses.now self.old.tries
            (host_report_of report.now) (host_report_of told) (W.port self.new.wire.now).link.due) }
        ensures fits { IfOk result (λ told. W.lawful self.new.wire.now → W.lawful self.old.wire.now
            × ResumesOver Bursts.Writes accesses.now self.old.tries (host_report_of report.now) (host_report_of told)
            (W.port self.old.wire.now) (W.port self.new.wire.now)) }
        ensures refused { IfErr result (λ refused. refused ≡ Memory) }
        ensures untouched { IfErr result (λ refused. (self.new.wire.now ≡ self.old.wire.now)
            × (self.new.ready ≡ self.old.ready)) }
        ensures plan { W.plan self.new.wire.now ≡ W.plan self.old.wire.now }
        ensures told { IfOk result (λ told. HostCalls W.notes
            (ResumeReportsCalls accesses.now (host_report_of report.now) (host_report_of told))
            self.old.wire.now self.new.wire.now) }
    {
        let told = resume(alloc, self.wire, accesses, report, self.tries)?;
        self.note(told.ended);
        Ok(told)
    }

    // Notes whether the target is open, by how a call ended.
    fn note(&mut self, ended: End)
        ensures wire { self.new.wire ≡ self.old.wire }
        ensures tries { self.new.tries ≡ self.old.tries }
        ensures ready { self.new.ready ≡ host_end_is_all ended }
    {
        self.ready = matches!(&ended, End::All);
    }
}
