//! Carries out the program's arguments.
ghost use Rattle.std.specs.Prelude.{◌≡◌, ◌≢◌, ◌⊎◌, IsSomeAnd, codes, is_some};
ghost use Rattle.std.specs.Option.{option_map};
ghost use Rattle.std.specs.String.{string_bytes};
ghost use Rattle.swd_console.specs.Statuses.{CommandNotOpened};
ghost use Rattle.swd_console.specs.Streams.{CommandEndsOver};
ghost use Rattle.swd_run_commands.specs.Runs.{PerformsRunCommandWhere};
ghost use Rattle.swd_commands.specs.Inputs.{CommandHasLine, CommandReadsStdin, command_served_file};
ghost use Rattle.swd_commands.specs.Statuses.{PerformsCommand};

use crate::conform::carry_out_conform;
use crate::conversion::{Conversion, convert, decode_conversion, draw_conversion};
use crate::probes::carry_out_probes;
use crate::target::{TargetCommand, lead_to};
use crate::usage::tell_usage;
use clap::Error;
use std::alloc::Global;
use std::io::{Read, Write};
use swd_command_line::{CommandLine, ImageLine, RunLine, ServedMemory, TargetLine};
use swd_console::{
    Clock, Console, DONE, FAULT, Files, KeepsError, Stream, Watched, cannot_open, named_file_of,
    status_after, tell, tell_failure, unnamed_file,
};
use swd_run_commands::{perform_run, perform_target};
use swd_words::{LineFault, line};

/// Carries out the arguments, the program's name first, and returns the status. Standard output gets the requested
/// text and nothing else. The lines on standard error that say how far a run is are spaced by the clock.
///
/// | Status | Meaning |
/// |---|---|
/// | 0 | all was done |
/// | 1 | a call ended early, a word differs or never came, a byte differs, a strict run or an image met a bus error |
/// | 1 | a trace breaks a rule |
/// | 2 | a usage, input, I/O or out-of-memory error: one line on standard error, or the lines of `clap` |
/// | 2 | a verdict isn't decided |
/// | 141 | the reader of standard output is gone, and a command writes its result there: no line on standard error |
pub fn run_words<I: Read, O: Write, F: Files, C: Clock, E: Write>(
    words: &[&str],
    input: &mut I,
    output: &mut O,
    console: &mut Console<'_, Global, F, C, E>,
) -> u8 {
    let (mut input, mut output) = (Watched::new(input), Watched::new(output));
    match line(console.alloc, words) {
        Ok(line) => carry_out(&line, &mut input, &mut output, console),
        Err(fault) => refuse(fault, words, &mut output, console),
    }
}

// Prints why the arguments are no command, or the help or the version, and returns the status.
fn refuse<O: Write + KeepsError, F, C, E: Write>(
    fault: LineFault,
    words: &[&str],
    output: &mut O,
    console: &mut Console<'_, Global, F, C, E>,
) -> u8
    ensures memory { fault ≡ LineFault.Memory → result ≡ 2 }
    ensures clap { (fault ≡ LineFault.Memory)
        ⊎ CommandEndsOver (O.kept output.new) (λ status. (status ≡ 0) ⊎ (status ≡ 2)) result }
{
    match fault {
        LineFault::Clap(error) => answer_by_clap(&error, words, output, console),
        LineFault::Memory => tell(console.errors, "no memory"),
    }
}

// Prints the help or the version, or the usage error.
fn answer_by_clap<O: Write + KeepsError, F, C, E: Write>(
    error: &Error,
    words: &[&str],
    output: &mut O,
    console: &mut Console<'_, Global, F, C, E>,
) -> u8
    ensures { CommandEndsOver (O.kept output.new) (λ status. (status ≡ 0) ⊎ (status ≡ 2)) result }
{
    let status = if error.use_stderr() {
        tell_usage(console.alloc, console.errors, error, words)
    } else {
        print_help(error, output, console.errors)
    };
    status_after(output.kept_error(), status)
}

// Prints the help or the version. Returns the status: 0 or 2.
fn print_help<O: Write + KeepsError, E: Write>(error: &Error, output: &mut O, errors: &mut E) -> u8
    ensures { (result ≡ 0) ⊎ (result ≡ 2) }
{
    if write!(output, "{error}").is_ok() {
        return DONE;
    }
    tell_failure(errors, [Stream::output(output)].as_slice());
    FAULT
}

// Returns an argument that may not be given.
fn given(argument: &Option<String>) -> Option<&str>
    ensures { option_map (λ s. s.now) result ≡ option_map string_bytes argument.now }
{
    match argument {
        Some(text) => Some(text.as_str()),
        None => None,
    }
}

// Performs the command.
fn carry_out<I: Read + KeepsError, O: Write + KeepsError, F: Files, C: Clock, E: Write>(
    line: &CommandLine,
    input: &mut I,
    output: &mut O,
    console: &mut Console<'_, Global, F, C, E>,
) -> u8
    ensures reads { CommandReadsStdin line.now → CommandEndsOver (O.kept output.new)
        (λ status. PerformsCommand line.now status (I.remaining input.old) (I.remaining input.new)
        (O.contents output.old) (O.contents output.new)) result }
    ensures line { CommandHasLine line.now → (I.remaining input.new ≡ I.remaining input.old)
        × (O.contents output.new ≡ O.contents output.old) }
{
    match line {
        CommandLine::One(file) => convert(Conversion::One, file, input, output, console),
        CommandLine::Encode(file) => convert(Conversion::Encode, file, input, output, console),
        CommandLine::Decode(decode) => {
            let conversion = decode_conversion(decode);
            convert(conversion, &decode.file, input, output, console)
        }
        CommandLine::Draw(draw) => {
            let conversion = draw_conversion(draw);
            convert(conversion, &draw.file, input, output, console)
        }
        CommandLine::Check(check) => {
            convert(
                Conversion::Check(check),
                &check.file,
                input,
                output,
                console,
            )
        }
        CommandLine::Run(run) => carry_out_run(run, input, output, console),
        CommandLine::Target(target) => carry_out_target(target, input, output, console),
        CommandLine::Image(image) => carry_out_image(image, input, output, console),
        CommandLine::Conform(conform) => carry_out_conform(conform, input, output, console),
        CommandLine::Info(info) => {
            let (command, lead) = (TargetCommand::Info(info), Some(info.remote.as_str()));
            lead_to(command, lead, info.probe.is_some(), input, output, console)
        }
        CommandLine::Core(core) => {
            let (command, run) = (TargetCommand::Core(core), &core.run);
            let lead = given(&run.remote);
            lead_to(command, lead, run.probe.is_some(), input, output, console)
        }
        CommandLine::Probes => carry_out_probes(output, console),
    }
}

// Performs a run. Where its script is standard input, nothing leads to another target.
fn carry_out_run<I: Read + KeepsError, O: Write + KeepsError, F: Files, C: Clock, E: Write>(
    run: &RunLine,
    input: &mut I,
    output: &mut O,
    console: &mut Console<'_, Global, F, C, E>,
) -> u8
    ensures reads { string_bytes run.now.script ≡ codes "-" → CommandEndsOver (O.kept output.new)
        (λ status. PerformsRunCommandWhere (is_some run.now.remote) run.now status (I.remaining input.old)
        (O.contents output.old) (O.contents output.new)) result }
    ensures line { IsSomeAnd (option_map string_bytes run.now.remote) (λ files. files ≢ codes "-")
        → string_bytes run.now.script ≢ codes "-"
        → (I.remaining input.new ≡ I.remaining input.old) × (O.contents output.new ≡ O.contents output.old) }
{
    if named_file_of(run.script.as_str()).is_none() {
        return perform_run(run, input, output, console);
    }
    let (command, lead) = (TargetCommand::Run(run), given(&run.remote));
    lead_to(command, lead, run.probe.is_some(), input, output, console)
}

// Performs `swd target`. Standard input is the debugger's, so the memory is in a file.
fn carry_out_target<I: Read + KeepsError, O: Write + KeepsError, F: Files, C, E: Write>(
    target: &TargetLine,
    input: &mut I,
    output: &mut O,
    console: &mut Console<'_, Global, F, C, E>,
) -> u8
    ensures { command_served_file target.now.memory ≡ codes "-"
        → CommandEndsOver (O.kept output.new)
        (λ status. CommandNotOpened status (O.contents output.old) (O.contents output.new)) result }
{
    let name = match &target.memory {
        ServedMemory::Script(texts) => texts.script.as_str(),
        ServedMemory::File(memory) => memory.file.as_str(),
    };
    if named_file_of(name).is_some() {
        return perform_target(target, input, output, console);
    }
    let status = match &target.memory {
        ServedMemory::Script(_) => {
            let why = "SCRIPT has to be a file: standard input is the debugger's";
            tell(console.errors, why)
        }
        ServedMemory::File(_) => cannot_open(console.errors, name, &unnamed_file()),
    };
    status_after(output.kept_error(), status)
}

// Performs a command over an image, which is in a file.
fn carry_out_image<I: Read + KeepsError, O: Write + KeepsError, F: Files, C: Clock, E: Write>(
    image: &ImageLine,
    input: &mut I,
    output: &mut O,
    console: &mut Console<'_, Global, F, C, E>,
) -> u8
    ensures reads { string_bytes image.now.file ≡ codes "-"
        → CommandEndsOver (O.kept output.new)
        (λ status. CommandNotOpened status (O.contents output.old) (O.contents output.new)) result }
    ensures line { IsSomeAnd (option_map string_bytes image.now.remote) (λ files. files ≢ codes "-")
        → string_bytes image.now.file ≢ codes "-"
        → (I.remaining input.new ≡ I.remaining input.old) × (O.contents output.new ≡ O.contents output.old) }
{
    if named_file_of(image.file.as_str()).is_some() {
        let (command, lead) = (TargetCommand::Image(image), given(&image.remote));
        return lead_to(command, lead, image.probe.is_some(), input, output, console);
    }
    let status = match &image.memory {
        Some(_) => cannot_open(console.errors, "-", &unnamed_file()),
        None => tell(
            console.errors,
            "with --remote or --probe FILE has to be a file, not standard input",
        ),
    };
    status_after(output.kept_error(), status)
}
