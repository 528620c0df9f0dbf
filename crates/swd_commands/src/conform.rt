//! `swd conform`: sends the requests of a conformance run to a port, and writes the verdict on what came.
ghost use Rattle.std.specs.Prelude.{◌≡◌};
ghost use Rattle.swd_commands.specs.Conversions.{command_status_of_conform as status_of};

use crate::check::{checked_status, plain_memory};
use crate::target::{TargetCommand, lead_to};
use std::alloc::{Allocator, Global};
use std::fmt;
use std::fmt::{Display, Formatter};
use std::io::{Read, Write};
use swd_check::{Check, CheckOptions, Checked};
use swd_checker::CheckStart;
use swd_command_line::{ConformLine, ProbeLine};
use swd_conform::{
    ConformRun, Conformed, LEAST_WORDS, MOST_STEPS, Plan, StepFault, StepTrouble, Steps, Stop,
    Without,
};
use swd_console::{
    Clock, Console, Escaped, FAULT, Files, KeepsError, STOPPED, Stream, Untold, Watched,
    at_the_target, cannot_open, cannot_use, gone_status, line_streams, name_or_nothing,
    named_file_of, status_after, tell, tell_failure_or, unnamed_file,
};
use swd_image_ends::{FileFault, read_file};
use swd_io::Unread;

// The most bytes of a file of steps.
const MOST_BYTES: u64 = 1 << 20;

/// Carries out `swd conform`, over the files that lead to its target, or over the standard streams. The verdict goes to
/// standard output; where that is the target's, it goes to standard error.
pub(crate) fn carry_out_conform<
    I: Read + KeepsError,
    O: Write + KeepsError,
    F: Files,
    C: Clock,
    E: Write,
>(
    conform: &ConformLine,
    input: &mut I,
    output: &mut O,
    console: &mut Console<'_, Global, F, C, E>,
) -> u8 {
    let bytes = match steps_file(conform, console) {
        Ok(bytes) => bytes,
        Err(status) => return status,
    };
    let steps = match steps_in(conform, &bytes, console.errors) {
        Ok(steps) => steps,
        Err(status) => return status,
    };
    let mut command = match begun(conform, steps, console) {
        Ok(command) => command,
        Err(status) => return status,
    };
    let (lead, to_probe) = (conform.remote.as_str(), conform.probe.is_some());
    let status = lead_to(
        TargetCommand::Conform(&mut command),
        Some(lead),
        to_probe,
        input,
        output,
        console,
    );
    let Some(checked) = command.found else {
        return status;
    };
    if named_file_of(lead).is_none() {
        let _ = writeln!(console.errors, "{}", checked.line().as_str());
        return status;
    }
    if writeln!(output, "{}", checked.line().as_str()).is_err() {
        let streams = [Stream::output(output)];
        let status = tell_failure_or(console.errors, streams.as_slice(), "write failed");
        return status_after(output.kept_error(), status);
    }
    status
}

/// A run at its target, and the verdict, unless the other end is gone.
#[derive(Drop)]
pub(crate) struct Conforming<'a> {
    probe: Option<ProbeLine>,
    without: Without,
    run: ConformRun<'a, Global>,
    found: Option<Checked>,
}

impl Conforming<'_> {
    /// Performs the run at the target to which these streams lead, and returns the status.
    pub(crate) fn perform<I: Read + KeepsError, O: Write + KeepsError, F, C, E: Write>(
        &mut self,
        input: &mut I,
        output: &mut O,
        console: &mut Console<'_, Global, F, C, E>,
    ) -> u8 {
        let (probe, ends) = (self.probe, (input, output));
        let (conformed, line, _) = at_the_target::<Untold, _, _, _, _>(
            console.alloc,
            &mut self.run,
            probe,
            false,
            ends,
        );
        tell_sent(&conformed, console.errors);
        if let Some(fault) = line.fault {
            let _ = gone_status(console.errors, fault, line_streams(&line).as_slice());
            return FAULT;
        }
        tell_run(self.without, &conformed, console.errors);
        self.found = Some(conformed.checked);
        conformed_status(&conformed)
    }
}

// Returns the contents of the file of steps, if one is named. At an error it prints a line and returns the status 2.
fn steps_file<A: Allocator + Copy, F: Files, C, E: Write>(
    conform: &ConformLine,
    console: &mut Console<'_, A, F, C, E>,
) -> Result<Option<Vec<u8, A>>, u8> {
    let Some(name) = &conform.steps else {
        return Ok(None);
    };
    let name = name.as_str();
    if named_file_of(name).is_none() {
        return Err(cannot_open(console.errors, name, &unnamed_file()));
    }
    let mut reader = match console.files.open(name) {
        Ok(opened) => Watched::new(opened.file),
        Err(why) => return Err(cannot_open(console.errors, name, &why)),
    };
    match read_file(console.alloc, &mut reader, MOST_BYTES) {
        Ok(bytes) => Ok(Some(bytes)),
        Err(Unread::Consumer(FileFault::TooLong)) => {
            Err(cannot_use(console.errors, name, &"it has more than 1 MiB"))
        }
        Err(_) => {
            let streams = [Stream::read(name, &reader)];
            Err(tell_failure_or(console.errors, streams.as_slice(), "no memory"))
        }
    }
}

// Returns the steps of these contents of a file, or without a file those of this project's plan. At an error it prints
// a line and returns the status 2.
fn steps_in<'a, A: Allocator, E: Write>(
    conform: &ConformLine,
    bytes: &'a Option<Vec<u8, A>>,
    errors: &mut E,
) -> Result<Steps<'a>, u8> {
    let Some(bytes) = bytes else {
        return Ok(Steps::own());
    };
    let name = name_or_nothing(&conform.steps);
    let Ok(text) = str::from_utf8(bytes.as_slice()) else {
        return Err(cannot_use(errors, name, &"it is not UTF-8"));
    };
    match Steps::of(text) {
        Ok(steps) => Ok(steps),
        Err(fault) => Err(cannot_use(errors, name, &StepWhy(fault))),
    }
}

// Why a file is no plan, and in which line.
#[derive(Clone, Copy)]
struct StepWhy<'a>(StepFault<'a>);

impl Display for StepWhy<'_> {
    fn fmt<W: fmt::Write>(&self, f: &mut Formatter<W>) -> fmt::Result {
        let StepFault { line, trouble } = self.0;
        write!(f, "line {line}: ")?;
        match trouble {
            StepTrouble::Line(word) => {
                let word = Escaped(word);
                write!(f, "'{word}' is none of #, needs, first, second and send")
            }
            StepTrouble::Needs(word) => {
                let word = Escaped(word);
                write!(f, "'{word}' is none of hole, page and kilobyte")
            }
            StepTrouble::Word(word) => {
                let word = Escaped(word);
                write!(f, "'{word}' is no step here: see swd conform --help")
            }
            StepTrouble::Unsent => f.write_str("a line send with a step is missing"),
            StepTrouble::TooMany => write!(f, "more than {MOST_STEPS} steps"),
        }
    }
}

// Returns a run of these steps for the memory of the arguments, and prints that the memory is overwritten. At an error
// it prints a line and returns the status 2.
fn begun<'a, F, C, E: Write>(
    conform: &ConformLine,
    steps: Steps<'a>,
    console: &mut Console<'_, Global, F, C, E>,
) -> Result<Conforming<'a>, u8> {
    let (base, words) = (conform.plain.base, conform.plain.words);
    let Some(plan) = Plan::of(steps, base, words, conform.hole) else {
        let _ = if words < LEAST_WORDS {
            writeln!(
                console.errors,
                "swd: --plain has to name at least {LEAST_WORDS} words of memory"
            )
        } else {
            writeln!(
                console.errors,
                "swd: --hole has to be a multiple of 4, and no word of --plain"
            )
        };
        return Err(FAULT);
    };
    let Ok(plain) = plain_memory(console.alloc, &[conform.plain]) else {
        return Err(tell(console.errors, "no memory"));
    };
    let options = CheckOptions {
        start: CheckStart::Made,
        clean: conform.clean,
        exact_registers: false,
        overrun: false,
    };
    let _ = writeln!(
        console.errors,
        "swd: overwrites {words} words from {base:08x} on"
    );
    let check = Check::new(options, plain).with_untold(conform.probe.is_some());
    Ok(Conforming {
        probe: conform.probe,
        without: plan.without(),
        run: ConformRun::new(plan, check),
        found: None,
    })
}

// Prints how many requests and clocks were sent.
fn tell_sent<E: Write>(conformed: &Conformed<'_>, errors: &mut E) {
    let (requests, clocks) = (conformed.requests, conformed.clocks);
    let _ = writeln!(errors, "swd: {requests} requests, {clocks} clocks");
}

// Prints what the run couldn't reach.
fn tell_run<E: Write>(without: Without, conformed: &Conformed<'_>, errors: &mut E) {
    if !conformed.answered {
        let _ = writeln!(
            errors,
            "swd: not reached: anything, since the port answered no request"
        );
        return;
    }
    tell_stop(conformed, errors);
    if !conformed.waited {
        let _ = writeln!(
            errors,
            "swd: not reached: WAIT, which the port never answered"
        );
    }
    if !has_faults(&conformed.checked) {
        let _ = writeln!(errors, "swd: not reached: damage and loss on the line");
    }
    if conformed.unrefused {
        let _ = writeln!(errors, "swd: a transfer at HOLE was no bus error");
    }
    tell_without(without, errors);
    tell_rule(conformed, errors);
}

// Prints what the last requests were to reach, where the port broke a rule at one of them.
fn tell_rule<E: Write>(conformed: &Conformed<'_>, errors: &mut E) {
    if let Checked::Breaks(_) = &conformed.checked {
        let rule = conformed.rule;
        let _ = writeln!(errors, "swd: the last requests were for: {rule}");
    }
}

// Prints why the run ended early, if it did, and from which rule on the port wasn't tried.
fn tell_stop<E: Write>(conformed: &Conformed<'_>, errors: &mut E) {
    let why = match conformed.stop {
        None => return,
        Some(Stop::Waits) => "a request was answered WAIT 64 times",
        Some(Stop::Power) => "CTRL/STAT never acknowledged both powers",
    };
    let rule = conformed.rule;
    let _ = writeln!(
        errors,
        "swd: not decided: {why}; not reached: this rule, and those that follow: {rule}"
    );
}

// Returns whether requests were damaged or lost.
fn has_faults(checked: &Checked) -> bool {
    match checked {
        Checked::Fits { faults, .. } => *faults > 0,
        _ => false,
    }
}

// Returns the status of a run whose other end stayed: that of the verdict, but for `fits` 1 where a transfer at HOLE
// was no bus error, and else 2 where no request was answered, or the run ended early.
fn conformed_status(conformed: &Conformed<'_>) -> u8
    ensures { result ≡ status_of conformed.now.answered conformed.now.unrefused conformed.now.stop
        conformed.now.checked }
{
    match &conformed.checked {
        Checked::Fits { .. } if !conformed.answered => FAULT,
        Checked::Fits { .. } if conformed.unrefused => STOPPED,
        Checked::Fits { .. } if conformed.stop.is_some() => FAULT,
        checked => checked_status(checked),
    }
}

// Prints what the plan leaves out.
fn tell_without<E: Write>(without: Without, errors: &mut E) {
    if without.errors {
        let _ = writeln!(errors, "swd: not reached: bus errors, without --hole");
    }
    if without.page {
        let _ = writeln!(errors, "swd: not reached: TAR at an end of 256 bytes");
    }
    if without.kilobyte {
        let _ = writeln!(errors, "swd: not reached: TAR at an end of a kilobyte");
    }
}
