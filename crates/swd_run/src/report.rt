//! The text of a run's report.
ghost use Rattle.std.specs.Prelude.{◌≡◌, ◌+◌, ◌≤◌, ◌++◌, Option, None, take, drop};
ghost use Rattle.std.specs.Fmt.{decimal};
ghost use Rattle.arrayvec.specs.ArrayString.{array_string_len};
ghost use Rattle.swd_host.specs.Reports.{host_report_of};
ghost use Rattle.swd_io.specs.Blocks.{BlockQueues};
ghost use Rattle.swd_script.specs.Readers.{script_batch_listed};
ghost use Rattle.swd_run.specs.Reports.{report_answer_line, report_answer_lines, report_end_line, report_last_line};
ghost use Rattle.swd_run.specs.Reports.{report_lines_from, report_text, report_resume_line, script_run_report};
ghost use Rattle.swd_run.specs.Reports.{report_shown_reads, report_stop_text, report_with_reads, ReportWritesOn};
ghost use Rattle.swd_run.specs.Sessions.{script_run_of};

use crate::going_on::{Resumed, Stop};
use crate::performing::{Performed, never_came};
use arrayvec::ArrayString;
use std::alloc::Allocator;
use std::io::Write;
use swd_bits::push_word;
use swd_host::{End, Report};
use swd_io::Block;
use swd_port::{Access, Answer};
use swd_script::{Batch, Until};

/// A line of a report.
pub type ReportLine = ArrayString<48>;

/// Returns the line of an answered access without its line feed, such as `r 20000000 deadbeef`, `w 20000000 written` or
/// `r 30000000 busfault`.
pub fn answer_line(access: &Access, answer: &Answer) -> ReportLine
    ensures bytes { result.bytes ≡ report_answer_line access.now answer.now }
    ensures len { array_string_len result ≤ 19 }
{
    let mut text = ReportLine::new();
    match access {
        Access::Read(addr) => {
            text.push_str("r ");
            push_word(&mut text, *addr);
        }
        Access::Write(addr, _) => {
            text.push_str("w ");
            push_word(&mut text, *addr);
        }
    }
    text.push_str(" ");
    match answer {
        Answer::Value(word) => push_word(&mut text, *word),
        Answer::Written => text.push_str("written"),
        Answer::BusFault => text.push_str("busfault"),
    }
    text
}

/// Returns the line for the end of a run with these numbers of answers and of accesses in flight, without its line
/// feed. Examples are `end all 4`, `end lost 0 begun 1`, `end tries 0 begun 1`, `end id 2ba01476` and
/// `end confused 0 begun 0`.
pub fn last_line(ended: End, answered: usize, begun: u8) -> ReportLine
    ensures bytes { result.bytes ≡ report_last_line ended answered begun }
    ensures len { array_string_len result ≤ 48 }
{
    let mut text = ReportLine::new();
    match ended {
        End::All => {
            text.push_str("end all ");
            push_count(&mut text, answered);
        }
        End::Lost => {
            text.push_str("end lost ");
            push_stop(&mut text, answered, begun);
        }
        End::TriesOut => {
            text.push_str("end tries ");
            push_stop(&mut text, answered, begun);
        }
        End::WrongId(word) => {
            text.push_str("end id ");
            push_word(&mut text, word);
        }
        End::Confused => {
            text.push_str("end confused ");
            push_stop(&mut text, answered, begun);
        }
    }
    text
}

// Returns the line for the end of a run. `never` says that it is the read of an `until` whose word never came.
fn end_line<A: Allocator>(never: bool, report: &Report<A>) -> ReportLine
    ensures { result.bytes ≡ report_end_line never (host_report_of report.now) }
{
    let answered = report.answers.len();
    if !never {
        return last_line(report.ended, answered, report.begun);
    }
    let mut text = ReportLine::new();
    text.push_str("end until ");
    push_count(&mut text, answered);
    text
}

// Returns an answer's line with the number of reads, if it is that of an `until`.
fn with_reads(line: ReportLine, reads: Option<u32>) -> ReportLine
    requires { array_string_len line ≤ 19 }
    ensures { result.bytes ≡ report_with_reads reads line.bytes }
{
    let Some(reads) = reads else {
        return line;
    };
    let mut text = line;
    text.push_str(" reads ");
    push_count(&mut text, reads as usize);
    text
}

/// Returns the line of a place where a run was resumed, without its line feed, such as `resume 3 begun 1`.
pub fn resume_line(stop: &Stop) -> ReportLine
    ensures bytes { result.bytes ≡ report_resume_line stop.now }
    ensures len { array_string_len result ≤ 48 }
{
    let mut text = ReportLine::new();
    text.push_str("resume ");
    push_stop(&mut text, stop.answered, stop.begun);
    text
}

// Appends the number of answered accesses and of those in flight.
fn push_stop(text: &mut ReportLine, answered: usize, begun: u8)
    requires { array_string_len text.old ≤ 13 }
    ensures bytes { text.new.bytes ≡ text.old.bytes ++ report_stop_text answered begun }
    ensures len { array_string_len text.new ≤ array_string_len text.old + 30 }
{
    push_count(text, answered);
    text.push_str(" begun ");
    let mut digits = itoa::Buffer::new();
    text.push_str(digits.format(begun));
}

fn push_count(text: &mut ReportLine, count: usize)
    requires { array_string_len text.old ≤ 28 }
    ensures bytes { text.new.bytes ≡ text.old.bytes ++ decimal count }
    ensures len { array_string_len text.new ≤ array_string_len text.old + 20 }
{
    let mut digits = itoa::Buffer::new();
    text.push_str(digits.format(count));
}

// Returns the items from one index to another, as far as they exist.
fn between<T>(items: &[T], from: usize, to: usize) -> &[T]
    ensures { result.now ≡ drop from (take to items.now) }
{
    let end = to.min(items.len());
    let start = from.min(end);
    &items[start..end]
}

// Also queues the lines of the accesses that have answers. `reads` is the number of reads of an `until`.
fn put_answers<W: Write>(
    block: &mut Block<'_, W>,
    accesses: &[Access],
    answers: &[Answer],
    reads: Option<u32>,
)
    ensures sends { BlockQueues W.contents (report_answer_lines reads accesses.now answers.now) block.old block.new }
    ensures writer { block.new.writer.ghost_name ≡ block.old.writer.ghost_name }
{
    for (access, answer) in accesses.iter().zip(answers.iter()) {
        let line = with_reads(answer_line(access, answer), reads);
        block.put_line(line.as_str().as_bytes());
    }
}

// Also queues these lines, with those of the places where the run was resumed.
fn put_lines<W: Write>(
    block: &mut Block<'_, W>,
    accesses: &[Access],
    stops: &[Stop],
    answers: &[Answer],
    reads: Option<u32>,
)
    ensures sends { BlockQueues W.contents (report_lines_from reads 0 stops.now accesses.now answers.now) block.old
        block.new }
    ensures writer { block.new.writer.ghost_name ≡ block.old.writer.ghost_name }
{
    let mut from = 0;
    for stop in stops {
        let done = between(accesses, from, stop.answered);
        let told = between(answers, from, stop.answered);
        put_answers(block, done, told, reads);
        block.put_line(resume_line(stop).as_str().as_bytes());
        from = stop.answered;
    }
    let rest = between(accesses, from, accesses.len());
    let last = between(answers, from, answers.len());
    put_answers(block, rest, last, reads);
}

// Also queues the report of a run of these accesses. For an `until` it has the number of its reads, and `never` says
// that its word never came.
fn put_report<W: Write, A: Allocator>(
    block: &mut Block<'_, W>,
    accesses: &[Access],
    run: &Resumed<A>,
    reads: Option<u32>,
    never: bool,
)
    ensures sends { BlockQueues W.contents
        (report_text reads never accesses.now run.now.stops.items (host_report_of run.now.report)) block.old block.new }
    ensures writer { block.new.writer.ghost_name ≡ block.old.writer.ghost_name }
{
    let report = &run.report;
    put_lines(
        block,
        accesses,
        run.stops.as_slice(),
        report.answers.as_slice(),
        reads,
    );
    let last = end_line(never, report);
    block.put_line(last.as_str().as_bytes());
}

// Returns the number of reads that the report shows: that of an `until`.
fn shown_reads(until: Option<Until>, reads: u32) -> Option<u32>
    ensures { result ≡ report_shown_reads until reads }
{
    match until {
        Some(_) => Some(reads),
        None => None,
    }
}

/// Writes the report of a batch, which is that of its last run. Returns the number of its bytes, at most 2^64 - 1.
/// Allocates no memory.
///
/// # Errors
///
/// If the writer failed or took no bytes: how many bytes of the report were written, at most 2^64 - 1. They are exactly
/// its first ones, and not all. Nothing is retried.
pub(crate) fn write_run<W: Write, A: Allocator>(
    writer: &mut W,
    batch: &Batch<A>,
    performed: &Performed<A>,
) -> Result<u64, u64>
    ensures { ReportWritesOn result (W.contents writer.old) (W.contents writer.new)
        (script_run_report (script_batch_listed batch.now) performed.now.runs (script_run_of performed.now.last)) }
{
    let mut block = Block::new(writer, 0);
    let accesses = batch.accesses.as_slice();
    let last = &performed.last;
    let reads = shown_reads(batch.until, performed.runs);
    let never = never_came(batch.until, &last.report);
    put_report(&mut block, accesses, last, reads, never);
    block.flush()
}
