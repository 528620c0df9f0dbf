//! Performs `swd core`: runs the script of what is done at a core, and says what was found.
ghost use Rattle.std.specs.Prelude.{◌≡◌, ◌⊎◌, IfOk, IfSome, Ok};
ghost use Rattle.swd_script.specs.Readers.{read_script_meaning};
ghost use Rattle.swd_script.specs.Scripts.{script_of};
ghost use Rattle.swd_console.specs.Streams.{CommandEndsOver};
ghost use Rattle.swd_run_commands.specs.Cores.{CoreEndsAs, PerformsCore, PrintsCore, PrintsText, core_line_text};

use crate::records::{cut_off_records, open_records};
use crate::remote_command::report_to_file;
use std::alloc::{AllocError, Allocator};
use std::io::{Read, Write};
use swd_command_line::CoreLine;
use swd_console::{
    Clock, Console, DONE, FAULT, Files, InUse, KeepsError, STOPPED, Stream, StreamsInUse,
    status_after, tell, tell_failure, tell_session,
};
use swd_core::{CoreAction, CoreRegister, LOCKED, identity_of, script_text, steps_of, trouble_of};
use swd_io::send;
use swd_port::Story;
use swd_remote::RemoteStreams;
use swd_script::{Script, hex_of, read_script};

const NO_MEMORY: &str = "no memory";

// Returns the script of what the arguments have done at the core.
fn text_of<A: Allocator + Copy>(alloc: A, core: &CoreLine) -> Result<Vec<u8, A>, AllocError>
    ensures { IfOk result (λ text. text.items ≡ core_line_text core.now) }
{
    let steps = steps_of(alloc, &core.action, core.halts)?;
    script_text(alloc, steps.as_slice())
}

// Returns that script as it is read, or `None` if memory ran out.
fn script_in<A: Allocator + Copy>(alloc: A, core: &CoreLine) -> Option<Script<A>>
    ensures { IfSome result (λ script. script_of (core_line_text core.now) ≡ Ok (read_script_meaning script)) }
{
    let text = text_of(alloc, core).ok()?;
    let mut reader = text.as_slice();
    read_script(alloc, &mut reader).ok()
}

/// Prints the script of what the arguments have done at the core, and returns the status.
pub fn print_core<O: Write + KeepsError, A: Allocator + Copy, F, C, E: Write>(
    core: &CoreLine,
    output: &mut O,
    console: &mut Console<'_, A, F, C, E>,
) -> u8
    ensures { CommandEndsOver (O.kept output.new) (λ status. PrintsCore core.now status (O.contents output.old)
        (O.contents output.new)) result }
{
    let status = match text_of(console.alloc, core) {
        Ok(text) => print_text(text.as_slice(), output, console.errors),
        Err(_) => tell(console.errors, NO_MEMORY),
    };
    status_after(output.kept_error(), status)
}

// Writes a text to standard output, and returns the status.
fn print_text<O: Write + KeepsError, E: Write>(text: &[u8], output: &mut O, errors: &mut E) -> u8
    ensures { PrintsText text.now result (O.contents output.old) (O.contents output.new) }
{
    if send(output, text).is_ok() {
        return DONE;
    }
    tell_failure(errors, [Stream::output(output)].as_slice());
    FAULT
}

/// Does at the core behind the streams what the arguments say, and prints what was found. Returns the status, and the
/// streams with the error that ended the connection, if any. If the trace's file can't be opened, the streams weren't
/// used.
pub fn perform_core<
    P: Story,
    I: Read + KeepsError + Drop,
    O: Write + KeepsError + Drop,
    A: Allocator + Copy,
    F: Files,
    C: Clock,
    E: Write,
>(
    core: &CoreLine,
    input: I,
    output: O,
    console: &mut Console<'_, A, F, C, E>,
) -> (u8, RemoteStreams<I, O>)
    ensures { PerformsCore P.at core.now result.0 I.remaining O.contents (O.contents output) (I.remaining input)
        result.1 }
{
    let Some(script) = script_in(console.alloc, core) else {
        let status = tell(console.errors, NO_MEMORY);
        return (status, RemoteStreams::unused(input, output));
    };
    run_core::<P, _, _, _, _, _, _>(core, &script, input, output, console)
}

// Runs the script at the target behind the streams, and prints what was found. Returns the status.
fn run_core<
    P: Story,
    I: Read + KeepsError + Drop,
    O: Write + KeepsError + Drop,
    A: Allocator + Copy,
    F: Files,
    C: Clock,
    E: Write,
>(
    core: &CoreLine,
    script: &Script<A>,
    input: I,
    output: O,
    console: &mut Console<'_, A, F, C, E>,
) -> (u8, RemoteStreams<I, O>)
    requires { script_of (core_line_text core.now) ≡ Ok (read_script_meaning script.now) }
    ensures { PerformsCore P.at core.now result.0 I.remaining O.contents (O.contents output) (I.remaining input)
        result.1 }
{
    let run = &core.run;
    let mut in_use = InUse::new(StreamsInUse::Both);
    let records = match open_records(run, false, &mut in_use, console) {
        Ok(records) => records,
        Err(status) => return (status, RemoteStreams::unused(input, output)),
    };
    if let Err(status) = cut_off_records(run, &records, console) {
        return (status, RemoteStreams::unused(input, output));
    }
    let mut report = Vec::new(console.alloc);
    let (ran, line) = report_to_file::<P, _, _, _, _, _, _, _, _>(
        run,
        script,
        (input, output),
        &mut report,
        records,
        console,
    );
    tell_session(console.errors, ran, &line);
    let status = tell_found(core, ran, report.as_slice(), console.errors);
    (status, line)
}

// A read of a report: its address, and its word, or `None` for a bus error.
#[derive(Clone, Copy)]
struct FoundRead {
    addr: u32,
    word: Option<u32>,
}

// Returns the read that a line of a report has, if it has one.
fn read_in(line: &str) -> Option<FoundRead> {
    let mut words = line.split_ascii_whitespace();
    if words.next()? != "r" {
        return None;
    }
    let addr = hex_of(words.next()?.as_bytes())?;
    let word = hex_of(words.next()?.as_bytes());
    Some(FoundRead { addr, word })
}

// What was found by the reads of a report.
#[derive(Clone, Copy)]
struct Found<'a> {
    report: &'a str,
}

const CPUID: u32 = 0xe000_ed00;

const DHCSR: u32 = 0xe000_edf0;

const DCRDR: u32 = 0xe000_edf8;

impl Found<'_> {
    // Returns the word of the last read of an address, if there is one.
    fn last(&self, addr: u32) -> Option<u32> {
        let mut found = None;
        for line in self.report.lines() {
            if let Some(read) = read_in(line)
                && read.addr == addr
            {
                found = read.word;
            }
        }
        found
    }

    // Returns whether an access was a bus error.
    fn has_bus_error(&self) -> bool {
        self.report.lines().any(|line| line.ends_with(" busfault"))
    }

    // Returns whether a register didn't have the word that was waited for.
    fn never_came(&self) -> bool {
        self.report
            .lines()
            .any(|line| line.starts_with("end until "))
    }
}

// Prints what was found, or why it wasn't. Returns the status: that of the run, or 1 if no core was identified.
fn tell_found<E: Write>(core: &CoreLine, status: u8, report: &[u8], errors: &mut E) -> u8
    ensures { CoreEndsAs core.now.action status result }
{
    let Ok(report) = str::from_utf8(report) else {
        return status;
    };
    let found = Found { report };
    if status == DONE {
        return tell_done(core, found, errors);
    }
    if status == STOPPED {
        tell_trouble(core, found, errors);
    }
    status
}

// Prints why an action wasn't done, if the target says so.
fn tell_trouble<E: Write>(core: &CoreLine, found: Found<'_>, errors: &mut E) {
    if found.has_bus_error() {
        let _ = writeln!(errors, "swd: a debug register is a bus error: {LOCKED}");
    } else if found.never_came()
        && let Some(dhcsr) = found.last(DHCSR)
    {
        let trouble = trouble_of(&core.action, core.halts, dhcsr);
        let _ = writeln!(errors, "swd: DHCSR is {dhcsr:08x}: {trouble}");
    }
}

// Prints what an action found that was done. Returns the status.
fn tell_done<E: Write>(core: &CoreLine, found: Found<'_>, errors: &mut E) -> u8
    ensures { CoreEndsAs core.now.action 0 result }
{
    let _ = match &core.action {
        CoreAction::Id => return tell_identity(found.last(CPUID).unwrap_or(0), errors),
        CoreAction::Regs(registers) => {
            tell_registers(registers.as_slice(), found, errors);
            return DONE;
        }
        CoreAction::Halt => writeln!(errors, "swd: the core is halted"),
        CoreAction::Resume => writeln!(errors, "swd: the core runs"),
        CoreAction::Step => writeln!(errors, "swd: the core made a step, and is halted"),
        CoreAction::Reset if core.halts => {
            writeln!(errors, "swd: the core was reset, and is halted")
        }
        CoreAction::Reset => writeln!(errors, "swd: the core was reset, and runs"),
        CoreAction::Set(writes) => {
            let count = writes.len();
            writeln!(errors, "swd: registers written: {count}")
        }
    };
    DONE
}

// Prints the name of a core. Returns the status: 1 if no core has this word in CPUID.
fn tell_identity<E: Write>(cpuid: u32, errors: &mut E) -> u8
    ensures { (result ≡ 0) ⊎ (result ≡ 1) }
{
    if cpuid == 0 || cpuid == 0xffff_ffff {
        let _ = writeln!(errors, "swd: cpuid {cpuid:08x} is no core's: {LOCKED}");
        return STOPPED;
    }
    let identity = identity_of(cpuid);
    let _ = writeln!(errors, "swd: cpuid {cpuid:08x}: {identity}");
    DONE
}

// Prints registers with their words, in the order of the reads.
fn tell_registers<E: Write>(registers: &[CoreRegister], found: Found<'_>, errors: &mut E) {
    let mut reads = found.report.lines();
    for register in registers {
        for line in reads.by_ref() {
            if let Some(read) = read_in(line)
                && read.addr == DCRDR
                && let Some(word) = read.word
            {
                let _ = writeln!(
                    errors,
                    "swd: {} {:08x}",
                    register.name,
                    register.in_word(word)
                );
                break;
            }
        }
    }
}
