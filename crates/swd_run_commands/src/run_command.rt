//! Performs `swd run`.
ghost use Rattle.std.specs.Prelude.{◌≡◌, ◌≢◌, codes, false, is_some, true};
ghost use Rattle.std.specs.String.{string_bytes};
ghost use Rattle.swd_capture_text.specs.Captures.{accesses_printed};
ghost use Rattle.swd_script.specs.Laws.{IsScriptRunnable};
ghost use Rattle.swd_script.specs.Readers.{read_script_meaning};
ghost use Rattle.swd_target.specs.Marks.{IsLegalPlan};
ghost use Rattle.swd_run.specs.Records.{run_files_of};
ghost use Rattle.swd_console.specs.Statuses.{command_status_of_run};
ghost use Rattle.swd_console.specs.Streams.{CommandEndsOver, CommandReadsFile};
ghost use Rattle.swd_run_commands.specs.Runs.{AreRunCommandFiles, PerformsRunCommand, PerformsRunCommandUnder};
ghost use Rattle.swd_run_commands.specs.Runs.{PerformsRunCommandWhere, RunsCommandScript, run_command_limits};

use crate::records::{cut_off_records, give_up_records, open_records, paced};
use crate::remote_command::perform_remote;
use crate::unread::unread_status;
use std::alloc::Allocator;
use std::io::{Read, Write};
use swd_capture_text::AccessesPrinter;
use swd_command_line::RunLine;
use swd_console::{
    Clock, Console, FAULT, Files, INPUT, InUse, KeepsError, ReadRole, Stream, StreamsInUse,
    TrackedReader, Untold, Watched, named_file_of, run_status, status_after, tell, tell_failure,
    tell_session,
};
use swd_run::{EngineFault, Finished, Limits, Records, Texts, read_texts, run_script};

/// Returns how each call of a run is made, and what it may meet, as the arguments say.
pub(crate) fn limits_of(run: &RunLine) -> Limits
    ensures { result ≡ run_command_limits run.now }
{
    Limits {
        tries: run.tries,
        resumes: run.resumes,
        bursts: run.remote.is_none() || run.bursts,
    }
}

/// Runs a script, from its file or from standard input, at a simulated target or at one behind the streams. Returns the
/// status.
pub fn perform_run<
    I: Read + KeepsError,
    O: Write + KeepsError,
    A: Allocator + Copy,
    F: Files,
    C: Clock,
    E: Write,
>(run: &RunLine, input: &mut I, output: &mut O, console: &mut Console<'_, A, F, C, E>) -> u8
    ensures standard { string_bytes run.now.script ≡ codes "-" → CommandEndsOver (O.kept output.new)
        (λ status. PerformsRunCommandWhere (is_some run.now.remote) run.now status (I.remaining input.old)
        (O.contents output.old) (O.contents output.new)) result }
    ensures file { string_bytes run.now.script ≢ codes "-" → is_some run.now.remote ≡ false
        → CommandReadsFile (F.opens console.old.files.now (string_bytes run.now.script)) F.File.Read.remaining
        (O.kept output.new) (λ status text left. PerformsRunCommand run.now.plan run.now status text) result
        (O.contents output.old) (O.contents output.new) }
{
    let Some(name) = named_file_of(run.script.as_str()) else {
        let own = run_standard_input(run, input, output, console);
        return status_after(output.kept_error(), own);
    };
    let mut in_use = InUse::new(if run.remote.is_some() {
        StreamsInUse::Both
    } else {
        StreamsInUse::Output
    });
    let script = match in_use.open_read(name, ReadRole::Script, console) {
        Ok(opened) => opened.file,
        Err(status) => return status,
    };
    let mut script = TrackedReader::new(name, Watched::new(script));
    if run.remote.is_some() {
        let (status, line) = perform_remote::<Untold, _, _, _, _, _, _, _>(
            run, script, in_use, input, output, console,
        );
        tell_session(console.errors, status, &line);
        return status;
    }
    let own = run_planned(run, &mut script, in_use, output, console);
    status_after(output.kept_error(), own)
}

// Runs the script on standard input, which a run at a remote target has for that target.
fn run_standard_input<
    I: Read + KeepsError,
    O: Write + KeepsError,
    A: Allocator + Copy,
    F: Files,
    C: Clock,
    E: Write,
>(run: &RunLine, input: &mut I, output: &mut O, console: &mut Console<'_, A, F, C, E>) -> u8
    ensures { PerformsRunCommandWhere (is_some run.now.remote) run.now result (I.remaining input.old) (O.contents
        output.old)
        (O.contents output.new) }
{
    if run.remote.is_some() {
        return tell(
            console.errors,
            "with --remote or --probe SCRIPT has to be a file, not standard input",
        );
    }
    let mut script = TrackedReader::new(INPUT, input);
    let in_use = InUse::new(StreamsInUse::Both);
    run_planned(run, &mut script, in_use, output, console)
}

// Opens the plan, and runs the script under it. Without a plan no faults are injected.
fn run_planned<
    S: Read + KeepsError,
    O: Write + KeepsError,
    A: Allocator + Copy,
    F: Files,
    C: Clock,
    E: Write,
>(
    run: &RunLine,
    script: &mut TrackedReader<'_, S>,
    in_use: InUse,
    output: &mut O,
    console: &mut Console<'_, A, F, C, E>,
) -> u8
    ensures { PerformsRunCommand run.now.plan run.now result (S.remaining script.old.reader) (O.contents output.old)
        (O.contents output.new) }
{
    let mut in_use = in_use;
    let Some(name) = &run.plan else {
        let mut nothing = TrackedReader::new("", Watched::new([].as_slice()));
        return run_under(run, script, &mut nothing, in_use, output, console);
    };
    match in_use.open_read(name.as_str(), ReadRole::Plan, console) {
        Ok(opened) => {
            let mut plan = TrackedReader::new(name.as_str(), Watched::new(opened.file));
            run_under(run, script, &mut plan, in_use, output, console)
        }
        Err(status) => status,
    }
}

// Opens the files of the trace and the accesses, if they are named, and runs the script under the plan. At an error of
// the script or the plan these files have what they had.
fn run_under<
    S: Read + KeepsError,
    P: Read + KeepsError,
    O: Write + KeepsError,
    A: Allocator + Copy,
    F: Files,
    C: Clock,
    E: Write,
>(
    run: &RunLine,
    script: &mut TrackedReader<'_, S>,
    plan: &mut TrackedReader<'_, P>,
    in_use: InUse,
    output: &mut O,
    console: &mut Console<'_, A, F, C, E>,
) -> u8
    ensures { PerformsRunCommandUnder run.now result (S.remaining script.old.reader) (P.remaining plan.old.reader)
        (O.contents output.old) (O.contents output.new) }
{
    let mut in_use = in_use;
    let records = match open_records(run, true, &mut in_use, console) {
        Ok(records) => records,
        Err(status) => return status,
    };
    let texts = match read_texts(console.alloc, script, plan) {
        Ok(texts) => texts,
        Err(fault) => {
            give_up_records(run, records, console);
            return unread_status(console.errors, fault, script, plan);
        }
    };
    match cut_off_records(run, &records, console) {
        Ok(()) => run_to(run, texts, output, records, console),
        Err(status) => status,
    }
}

// Runs a script that was read, and writes its report to `output`.
fn run_to<
    O: Write + KeepsError,
    T: Write + KeepsError + Drop,
    A: Allocator + Copy,
    F,
    C: Clock,
    E: Write,
>(
    run: &RunLine,
    texts: Texts<A>,
    output: &mut O,
    records: Records<T, AccessesPrinter>,
    console: &mut Console<'_, A, F, C, E>,
) -> u8
    requires script { IsScriptRunnable (read_script_meaning texts.script) }
    requires plan { IsLegalPlan texts.plan.items }
    requires files { AreRunCommandFiles run.now true (run_files_of T.contents accesses_printed records) }
    ensures { RunsCommandScript run.now result (read_script_meaning texts.script) texts.plan.items
        (O.contents output.old) (O.contents output.new) }
{
    let Texts { script, plan } = texts;
    let limits = limits_of(run);
    let mut records = paced(run, records, &mut *console.errors, console.clock);
    let answer = run_script(console.alloc, &script, plan, limits, output, &mut records);
    let Records {
        trace,
        accesses,
        ..
    } = records;
    let streams = [
        Stream::output(output),
        Stream::record(&run.trace, &trace),
        Stream::record(&run.accesses, &accesses),
    ];
    answer_status(console.errors, answer, run.strict, streams.as_slice())
}

// Prints what went wrong in a run, and returns the status.
fn answer_status<E: Write>(
    errors: &mut E,
    answer: Result<Finished, EngineFault>,
    strict: bool,
    streams: &[Stream<'_>],
) -> u8
    ensures { result ≡ command_status_of_run strict answer }
{
    if answer.is_err() && tell_failure(errors, streams) {
        return FAULT;
    }
    run_status(errors, answer, strict)
}
