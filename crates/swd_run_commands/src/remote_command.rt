//! Performs `swd run --remote`: a run at a remote target on the standard streams.
ghost use Rattle.std.specs.Prelude.{◌≡◌, IfErr, false};
ghost use Rattle.swd_capture_text.specs.Captures.{accesses_printed};
ghost use Rattle.swd_script.specs.Laws.{IsScriptRunnable};
ghost use Rattle.swd_script.specs.Readers.{read_script_meaning};
ghost use Rattle.swd_run.specs.Records.{run_files_of};
ghost use Rattle.swd_console.specs.Verdicts.{command_status_of_session};
ghost use Rattle.swd_run_commands.specs.Remotes.{PerformsRemoteCommand, RunsRemoteScript, remote_command_status};
ghost use Rattle.swd_run_commands.specs.Runs.{AreRunCommandFiles};

use crate::records::{cut_off_records, give_up_records, open_records, paced};
use crate::run_command::limits_of;
use crate::unread::unread_script_status;
use std::alloc::Allocator;
use std::io::{Read, Write};
use swd_capture_text::AccessesPrinter;
use swd_check::Checked;
use swd_command_line::RunLine;
use swd_console::{
    Clock, Console, Destination, ERRORS, FAULT, Files, InUse, KeepsError, Stream, TrackedReader,
    Watched, WriteRole, advice_on, at_the_target, cannot_open, cut_off, gone_status, line_streams,
    name_or_nothing, run_status, session_status, tell, tell_failure,
};
use swd_ends::RunJob;
use swd_host::End;
use swd_port::Story;
use swd_remote::RemoteStreams;
use swd_run::{EngineFault, Finished, Records};
use swd_script::{Script, read_script};

// Opens the file of the report, which isn't truncated yet. `-` is standard error. At an error it prints a line and
// returns the status 2.
fn open_report<A, F: Files, C, E: Write>(
    name: &str,
    in_use: &mut InUse,
    console: &mut Console<'_, A, F, C, E>,
) -> Result<Destination<F::Made>, u8>
    ensures { IfErr result (λ status. status ≡ 2) }
{
    if name == "-" {
        return match console.files.standard_error() {
            Ok(identity) => {
                in_use.report = identity;
                Ok(Destination::Errors)
            }
            Err(why) => Err(cannot_open(console.errors, name, &why)),
        };
    }
    match in_use.open_write(name, WriteRole::Report, console) {
        Ok(opened) => Ok(Destination::File(opened.file)),
        Err(status) => Err(status),
    }
}

// Gives up the file of a report that isn't written: one that was created for it is removed.
fn give_up_report<A, F: Files, C, E>(
    name: &str,
    report: Destination<F::Made>,
    console: &Console<'_, A, F, C, E>,
) {
    if let Destination::File(file) = report {
        let mut file = file;
        console.files.give_up(name, &mut file);
    }
}

// Truncates the file of a report. At an error it prints a line and returns the status 2.
fn cut_off_report<A, F: Files, C, E: Write>(
    name: &str,
    report: &Destination<F::Made>,
    console: &mut Console<'_, A, F, C, E>,
) -> Result<(), u8>
    ensures { IfErr result (λ status. status ≡ 2) }
{
    match report {
        Destination::File(file) => cut_off(name, file, console),
        Destination::Errors => Ok(()),
    }
}

/// Opens the report's file, and those of the trace and the accesses if they are named, and reads the script. Then
/// truncates these files, and runs the script at the target behind the streams. Returns the status, and the streams
/// with the error that ended the connection, if any. If a file can't be opened, or the script has an error, the streams
/// weren't used, and the files have what they had.
pub(crate) fn perform_remote<
    P: Story,
    S: Read + KeepsError + Drop,
    I: Read + KeepsError + Drop,
    O: Write + KeepsError + Drop,
    A: Allocator + Copy,
    F: Files,
    C: Clock,
    E: Write,
>(
    run: &RunLine,
    script: TrackedReader<'_, S>,
    in_use: InUse,
    input: I,
    output: O,
    console: &mut Console<'_, A, F, C, E>,
) -> (u8, RemoteStreams<I, O>)
    ensures { PerformsRemoteCommand P.at run.now result.0 I.remaining O.contents (O.contents output) (I.remaining input)
        result.1 (S.remaining script.entry.reader) }
{
    let mut in_use = in_use;
    let Some(name) = &run.report else {
        let status = tell(
            console.errors,
            "--remote or --probe and --report FILE go together",
        );
        return (status, RemoteStreams::unused(input, output));
    };
    let report = match open_report(name.as_str(), &mut in_use, console) {
        Ok(report) => report,
        Err(status) => return (status, RemoteStreams::unused(input, output)),
    };
    let records = match open_records(run, false, &mut in_use, console) {
        Ok(records) => records,
        Err(status) => {
            give_up_report(name.as_str(), report, console);
            return (status, RemoteStreams::unused(input, output));
        }
    };
    let mut script = script;
    let read = match read_script(console.alloc, &mut script) {
        Ok(read) => read,
        Err(unread) => {
            give_up_report(name.as_str(), report, console);
            give_up_records(run, records, console);
            let status = unread_script_status(console.errors, unread, &script);
            return (status, RemoteStreams::unused(input, output));
        }
    };
    if let Err(status) = cut_off_report(name.as_str(), &report, console) {
        return (status, RemoteStreams::unused(input, output));
    }
    if let Err(status) = cut_off_records(run, &records, console) {
        return (status, RemoteStreams::unused(input, output));
    }
    let ends = (input, output);
    match report {
        Destination::File(file) => {
            report_to_file::<P, _, _, _, _, _, _, _, _>(run, &read, ends, file, records, console)
        }
        Destination::Errors => {
            report_to_errors::<P, _, _, _, _, _, _, _>(run, &read, ends, records, console)
        }
    }
}

// A run at a remote target: its result, its connection, the verdict on its session if that was checked, its report, and
// its other files.
#[derive(Drop)]
struct ScriptRan<'a, R, W, T> {
    answer: Result<Finished, EngineFault>,
    line: RemoteStreams<R, W>,
    verdict: Option<Checked>,
    report: Stream<'a>,
    records: Records<T, AccessesPrinter>,
}

// Runs the script, and writes its report to a file.
pub(crate) fn report_to_file<
    P: Story,
    I: Read + KeepsError + Drop,
    O: Write + KeepsError + Drop,
    M: Write + Drop,
    T: Write + KeepsError + Drop,
    A: Allocator + Copy,
    F,
    C: Clock,
    E: Write,
>(
    run: &RunLine,
    script: &Script<A>,
    ends: (I, O),
    file: M,
    records: Records<T, AccessesPrinter>,
    console: &mut Console<'_, A, F, C, E>,
) -> (u8, RemoteStreams<I, O>)
    requires script { IsScriptRunnable (read_script_meaning script.now) }
    requires files { AreRunCommandFiles run.now false (run_files_of T.contents accesses_printed records) }
    ensures { RunsRemoteScript P.at run.now result.0 I.remaining O.contents (O.contents ends.1)
        (I.remaining ends.0) result.1 (read_script_meaning script.now).batches }
{
    let alloc = console.alloc;
    let mut job = RunJob {
        alloc,
        script,
        limits: limits_of(run),
        report: Watched::new(file),
        records: paced(run, records, &mut *console.errors, console.clock),
    };
    let (answer, line, verdict) = at_the_target::<P, _, _, _, _>(
        alloc, &mut job, run.probe, run.check, ends,
    );
    let RunJob {
        report,
        records,
        ..
    } = job;
    let ran = ScriptRan {
        answer,
        line,
        verdict,
        report: Stream::written(name_or_nothing(&run.report), &report),
        records: records.with_progress(()),
    };
    ended(run, ran, console)
}

// Runs the script, and writes its report to standard error, which then has no lines that say how far the run is.
fn report_to_errors<
    P: Story,
    I: Read + KeepsError + Drop,
    O: Write + KeepsError + Drop,
    T: Write + KeepsError + Drop,
    A: Allocator + Copy,
    F,
    C,
    E: Write,
>(
    run: &RunLine,
    script: &Script<A>,
    ends: (I, O),
    records: Records<T, AccessesPrinter>,
    console: &mut Console<'_, A, F, C, E>,
) -> (u8, RemoteStreams<I, O>)
    requires script { IsScriptRunnable (read_script_meaning script.now) }
    requires files { AreRunCommandFiles run.now false (run_files_of T.contents accesses_printed records) }
    ensures { RunsRemoteScript P.at run.now result.0 I.remaining O.contents (O.contents ends.1)
        (I.remaining ends.0) result.1 (read_script_meaning script.now).batches }
{
    let alloc = console.alloc;
    let mut job = RunJob {
        alloc,
        script,
        limits: limits_of(run),
        report: Watched::new(&mut *console.errors),
        records,
    };
    let (answer, line, verdict) = at_the_target::<P, _, _, _, _>(
        alloc, &mut job, run.probe, run.check, ends,
    );
    let RunJob {
        report,
        records,
        ..
    } = job;
    let written = Stream::written(ERRORS, &report);
    drop(report);
    let ran = ScriptRan {
        answer,
        line,
        verdict,
        report: written,
        records,
    };
    ended(run, ran, console)
}

// Prints how a run ended, and the verdict on its session if that was checked. Returns the status, and the connection.
fn ended<
    I: Read + KeepsError,
    O: Write + KeepsError,
    T: Write + KeepsError + Drop,
    A,
    F,
    C,
    E: Write,
>(
    run: &RunLine,
    ran: ScriptRan<'_, I, O, T>,
    console: &mut Console<'_, A, F, C, E>,
) -> (u8, RemoteStreams<I, O>)
    ensures line { result.1 ≡ ran.entry.line }
    ensures status { result.0 ≡ command_status_of_session ran.entry.verdict
        (remote_command_status run.now.strict ran.entry.line.fault ran.entry.answer) }
{
    let ScriptRan {
        answer,
        line,
        verdict,
        report,
        records,
    } = ran;
    let streams = remote_streams(run, report, &records);
    let status = reached_status(console.errors, run, answer, &line, streams.as_slice());
    (session_status(console.errors, &verdict, status), line)
}

// Returns the streams of a remote run beside its connection, in the order of their lines.
fn remote_streams<'a, T: KeepsError>(
    run: &'a RunLine,
    report: Stream<'a>,
    records: &Records<T, AccessesPrinter>,
) -> [Stream<'a>; 3] {
    [
        report,
        Stream::record(&run.trace, &records.trace),
        Stream::record(&run.accesses, &records.accesses),
    ]
}

// What is said of a run with bursts that ended as one at a debug port with a write buffer does.
const BUFFERED: &str =
    "a debug port with a write buffer ends so with --bursts, and its report may be false";

// Prints how a run ended that ended early.
fn tell_early<E: Write>(errors: &mut E, bursts: bool, answer: &Result<Finished, EngineFault>) {
    if let Ok(finished) = answer
        && finished.ended != End::All
    {
        let ended = finished.ended;
        let _ = writeln!(
            errors,
            "swd: the run ended early: {ended}{}",
            advice_on(ended)
        );
        if bursts && ended == End::Confused {
            let _ = writeln!(errors, "swd: {BUFFERED}");
        }
    }
}

// Returns the status of a run over a line: 1 if a report was made but the other end is gone, else the run's status.
// `streams` are those beside the connection.
fn reached_status<R: KeepsError, W: KeepsError, E: Write>(
    errors: &mut E,
    run: &RunLine,
    answer: Result<Finished, EngineFault>,
    line: &RemoteStreams<R, W>,
    streams: &[Stream<'_>],
) -> u8
    ensures { result ≡ remote_command_status run.now.strict line.now.fault answer }
{
    if answer.is_err() && tell_failure(errors, streams) {
        return FAULT;
    }
    let reached = answer.is_ok();
    if line.fault.is_none() {
        tell_early(errors, run.bursts, &answer);
    }
    let status = run_status(errors, answer, run.strict);
    match line.fault {
        Some(fault) if reached => gone_status(errors, fault, line_streams(line).as_slice()),
        _ => status,
    }
}
