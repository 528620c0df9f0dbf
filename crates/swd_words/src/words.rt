//! Parses the arguments of the command line.
ghost use Rattle.std.specs.Prelude.{◌≡◌, ◌↔◌, IfOk, IfErr, Some, [], map, true, false, codes, if◌then◌else◌};
ghost use Rattle.std.specs.Str.{bytes_eq};
ghost use Rattle.std.specs.Option.{option_map};
ghost use Rattle.std.specs.String.{string_bytes};
ghost use Rattle.clap.specs.Words.{app_of, found_of, rows_of, subcommand_of, subcommand_rows_of};
ghost use Rattle.clap.specs.Words.{fault_of, first_of, kind_of};
ghost use Rattle.clap.specs.declared.builder.command.Command.TheViews.{out-Command};
ghost use Rattle.swd_words.specs.Commands.{arguments_spelled_out, remote_spelled_out};
ghost use Rattle.swd_words.specs.Commands.{bare_args_app, swd_app};
ghost use Rattle.swd_words.specs.Commands.{IsLineOfArguments, IsNumberArgument};
ghost use Rattle.swd_words.specs.Commands.{IsArgumentsErrorKind, AreRunArguments, IsArgumentsRefusal};

use crate::argument::{Argument, CommandRow, Form, with_commands};
use crate::check_words::{CHECK, check_line};
use crate::conform_words::{CONFORM, conform_line};
use crate::core_words::{CORE, core_line};
use crate::decode_words::{DECODE, decode_line};
use crate::draw_words::{DRAW, ITEMS, draw_line};
use crate::fault::LineFault;
use crate::image_words::{DUMP, LOAD, VERIFY, image_line};
use crate::info_words::{INFO, info_line};
use crate::lead_words::{FRAMED, PROBE, REMOTE, SPEED, is_local, lead_in};
use crate::target_words::{SIMULATED_PROBE, TARGET, probe_line, target_line};
use clap::error::ErrorKind;
use clap::{ArgMatches, Command, Error};
use std::alloc::{AllocError, Global};
use swd_command_line::{CommandLine, RunLine};

const VERSION: &str = "0.1.0";

const ABOUT: &str =
    "Serial Wire Debug (SWD): runs accesses at a target, decodes and encodes traces";

const AFTER: &str = "\
A trace has a character 0 or 1 for each bit on the line, in time order. Blanks,
line ends and comments, from # to the line's end, are ignored.

A listing has one line an item:
  reset N              a line reset: N ones, at least 50
  switch               the JTAG-to-SWD switch sequence, directly after a reset
  idle N               N idle cycles: zeros
  dp 0 read ok WORD    a transaction: dp or ap; the register's address: 0, 4, 8
                       or c; read or write; and its result. ok: ACK OK, and a
                       word with correct parity
  dp 0 read bad WORD   ACK OK, and a word with wrong parity
  dp 0 read wait       ACK WAIT
  dp 0 read fault      ACK FAULT
  dp 0 read none N     no ACK: the three bits were 0, 3, 5, 6 or 7
  junk B               a stray bit, part of no other item
  cut BITS             the end of a truncated trace
WORD is 8 hexadecimal digits, N a decimal number.

FILE may be - for standard input; a file of that name is ./-

swd levels prints the trace of a logic analyser's capture, a CSV or VCD file. It
is a program beside this one, with a --help of its own:
  swd levels capture.csv | swd decode

Status: 0 success; 1 a run that stopped early or that its script fails, a byte
that differs, or a rule that is broken; 2 a usage, input, I/O or out-of-memory
error, with a line on standard error, or a verdict that isn't decided; 141 the
reader of standard output closed it, as if by SIGPIPE, without a line.

Example, a read of DPIDR, the debug port's identification register:
  echo '10100101 1 100 11101110001010000000010111010100 0 1' | swd decode
  dp 0 read ok 2ba01477";

const RUN_AFTER: &str = "\
SCRIPT may be - for standard input. The plan, the trace and the accesses must be
files, not -. The plan must be another file than the script. The trace and the
accesses must be two files, and none of the script, the plan, the report and a
standard stream that is in use. Nothing is overwritten before that is known.

With --remote the standard streams connect to a server of OpenOCD's
remote_bitbang protocol for SWD, such as swd target. The report goes to the file
that --report names, which is overwritten; with - it is appended to standard
error. SCRIPT must be a file. There is no plan, and memory, room and core in it
are ignored. For a server on a socket, by the relay that comes with swd:
  swd-line localhost:4711 -- swd run SCRIPT --remote --report FILE
With --remote=IN,OUT these files take the place of the standard streams, such as
two fifos; with --remote=DEVICE one file is both, such as a serial device that
stty set raw. Each is opened for reading and writing, so opening one waits for
no other end. If the server goes away the run waits until a signal ends it.

--probe=FILE leads to a CMSIS-DAP probe in place of a server, such as
/dev/hidraw0: swd probes lists those of this machine. Each packet is a report of
one size. --probe=IN,OUT are two files with such reports. With --framed a packet
has its length before it, two bytes, the first least significant. What is said
of --remote holds of --probe. The report goes up to where a probe went away.

With --remote a read of RDBUFF confirms each write. With --bursts the next write
confirms it, if that is at the next address in the same kilobyte: a word takes
one request, not two. At a debug port with a write buffer the report may then be
false: the port may answer OK to the next write before it has made this one, and
discard it later. Without --remote a run always has bursts.

A script has one command per line; # begins a comment. BASE, ADDR, VALUE and
MASK are 1 to 8 hexadecimal digits, which may follow 0x, and addresses multiples
of 4. WORDS, N and COUNT are 1 to 10 decimal digits.
  memory BASE WORDS  the first command: the target's memory, 1 to 65536 words
                     from BASE on, all zero, none past ffffffff
  room N             once, before the first access or next: the target does N
                     transfers, 0 to 65536, and answers each later one with a
                     bus error. The default is 65536
  core ADDR          once, before the first access or next: beside the memory
                     the target has the debug registers of an Armv7-M core that
                     executes nothing, from e0000000 to e00fffff. Its vector
                     table is in the memory at ADDR, a multiple of 4
  w ADDR VALUE       writes a word
  r ADDR             reads a word
  rn ADDR COUNT      reads COUNT words, at least 1, each by its own access
  block ADDR COUNT   reads COUNT words as a block, with one request per word. It
                     must be the only access of its call
  verify ADDR VALUE  reads a word and compares it with VALUE
  until ADDR MASK VALUE N
                     reads a word, at most N times, 1 to 1000000, until its
                     bits under MASK are VALUE. Each read is a call of its own,
                     and so are the accesses after it
  next               begins another call at the same target, with at most 65536
                     accesses, which only runs if the call before it ended
                     all. The first call connects for all of them

A plan has one mark per line, for the first request, the second and so on.
Requests after its last line are undisturbed.
  .        undisturbed
  wait     the target is busy: it answers WAIT, or acknowledges power-up later
  flip P   bit P of the data phase is inverted: 0 to 31, and 32 for its parity
  deaf     the target does not see the request
  mute P   bit P of the acknowledgement is inverted: 0 to 2

The report of a call is written while it goes on, before the next one starts.
It has one line per answer, in the script's order:
  r ADDR WORD        the word that was read. Of until only the last read has a
                     line, with the number of reads: r ADDR WORD reads N
  w ADDR written     the word was written: once, unless a line resume came while
                     the access was in flight, and if the target conforms to
                     the port model (docs/PROTOCOL.md)
  r ADDR busfault    bus error. A simulated target has no memory at ADDR, or no
                     room left, which a line on standard error says. In a plain
                     memory nothing is read or written then
  w ADDR busfault    the same of a write
  resume K begun B   no acknowledgement was seen after K answers, and --resume
                     continued the call. The accesses in flight, B at most, may
                     have taken effect, and are made again
and then one line for the end of the call, after K answers. At most B of the
accesses after these were in flight, and may have taken effect:
  end all K              every access was answered
  end until K            the word of until did not come in N reads, or a read
                         met a bus error. No further call is made
  end lost K begun B     no acknowledgement was seen
  end tries K begun B    the retries of an access ran out: see --tries
  end id WORD            the target's DPIDR is invalid: WORD
  end confused K begun B the target doesn't conform, or it wasn't at rest before

With --progress a line on standard error says how many accesses are done, at
most one line a second, and none in the first second:
  swd: 12288 of 1048576 accesses, 4096 a second
The second number is of all calls of the script; an until counts as one access.
An access is done when its line is in the report, which is written after every
1024 answers of a call and at its end. The third number is the rate since the
line before, rounded down. --progress can't be combined with --report -.

With --check and --remote the session is checked while it goes on. At the end a
line on standard error has the verdict: that of swd check --rest of its trace.
If it is breaks, the target doesn't conform to the port model, or it wasn't at
rest before, and the status is 1 in place of 0. A probe doesn't tell which bits
of a word arrived damaged: the verdict is outside there, and the check begins
anew at the next line reset.

The trace has every bit on the line, one item per line: see swd decode. The
accesses are those of the target's memory that the trace shows, one per line:
what swd decode --accesses --made prints of the trace, with --remote without
--made. The trace is written while the run goes on, the accesses after the last
call. Once the other end of --remote went away, the trace also has the bits that
were to be sent to it.

Status: 0 if each call ended all, 1 if one ended otherwise, or if the other end
of --remote went away, 2 at an error. A bus error is an answer, and fails the
run only with --strict: status 1. The status is also 1 if the word of until
never came, and if a word to verify differed or met a bus error. A line on
standard error then names the first word to verify, with its line in the script,
and both words, or says that an until's never came. An error in a script or plan
is printed with its line, counted from 1, and with what was expected there:
  word            an unknown command or mark, or one in the wrong place
  number          not a number of 32 bits
  range           a number out of its range
  no memory line  an access, room or core before memory
  memory          out of memory at this line";

const PROBES_AFTER: &str = "\
Lists the probes that speak CMSIS-DAP over reports, one a line on standard
output: the file for --probe, the serial number, - if it has none, and the name:
  /dev/hidraw0 0240000034544e45 ARM DAPLink CMSIS-DAP
It looks at hidraw0 to hidraw63 in /sys/class/hidraw. A line on standard error
says why a file can't be opened. Users may open it once this line is in a file
such as /etc/udev/rules.d/60-swd.rules, and the probe was plugged in again:
  SUBSYSTEM==\"hidraw\", MODE=\"0660\", TAG+=\"uaccess\"

Status: 0 if there is a probe, 1 if there is none, 2 if standard output can't be
written.";

// The greatest number of an option.
const MOST: i64 = 1000;

/// An option with a number up to 1,000.
#[derive(Clone, Copy)]
pub(crate) struct NumberOption {
    /// The option, and how `clap` names it.
    pub(crate) word: &'static str,
    pub(crate) shown: &'static str,
    /// What is said of a number that is too small or too large.
    pub(crate) range: &'static str,
    /// The number without the option.
    pub(crate) default: u32,
}

// The number of events that an access may meet.
const TRIES_NUMBER: NumberOption = NumberOption {
    word: "--tries",
    shown: "--tries <N>",
    range: "it is not in 0..=1000",
    default: 8,
};

// How often a call is resumed.
const RESUME_NUMBER: NumberOption = NumberOption {
    word: "--resume",
    shown: "--resume <N>",
    range: "it is not in 0..=1000",
    default: 0,
};

/// What is said of a value that isn't a hexadecimal number.
pub(crate) const HEX_FORM: &str = "it is not 1 to 8 hexadecimal digits";

// What the option for a remote target is short for without a value.
const REMOTE_STREAMS: &str = "--remote=-";

// Returns a value as an owned string.
fn owned(alloc: Global, text: Option<&str>) -> Result<Option<String>, AllocError>
    ensures { IfOk result (λ o. option_map string_bytes o ≡ option_map (λ s. s.now) text.entry) }
{
    match text {
        Some(text) => Ok(Some(String::from_str(alloc, text)?)),
        None => Ok(None),
    }
}

/// Returns the first value of an argument, if it has one.
pub(crate) fn value_in<'a>(matches: &ArgMatches<'a>, name: &str) -> Option<&'a str>
    ensures { option_map (λ s. s.now) result ≡ first_of name.now (rows_of (found_of matches.now)) }
{
    matches.get_str(name)
}

/// Returns the same value as an owned string.
pub(crate) fn text_in(
    alloc: Global,
    matches: &ArgMatches<'_>,
    name: &str,
) -> Result<Option<String>, LineFault>
    ensures { IfOk result (λ text. option_map string_bytes text
        ≡ first_of name.now (rows_of (found_of matches.now))) }
{
    match owned(alloc, value_in(matches, name)) {
        Ok(text) => Ok(text),
        Err(_) => Err(LineFault::Memory),
    }
}

// The file that a command reads. Without it the command reads standard input.
pub(crate) const FILE: Argument = Argument {
    name: "FILE",
    form: Form::Place(false),
    help: "The file to read; standard input without it, or for -",
};

// The file of the script.
const SCRIPT: Argument = Argument {
    name: "SCRIPT",
    form: Form::Place(true),
    help: "The script to run; - for standard input",
};

/// The file of the plan.
pub(crate) const PLAN: Argument = Argument {
    name: "plan",
    form: Form::Value("FILE"),
    help: "Inject faults by the plan in FILE",
};

/// The file of the trace.
pub(crate) const TRACE: Argument = Argument {
    name: "trace",
    form: Form::Value("FILE"),
    help: "Write the trace to FILE (overwrites it)",
};

// The file of the accesses.
const ACCESSES: Argument = Argument {
    name: "accesses",
    form: Form::Value("FILE"),
    help: "Write the accesses to FILE (overwrites it)",
};

// Whether bus errors fail the run.
const STRICT: Argument = Argument {
    name: "strict",
    form: Form::Flag,
    help: "Exit with status 1 if an access met a bus error",
};

// The file of the report.
const REPORT: Argument = Argument {
    name: "report",
    form: Form::Value("FILE"),
    help: "With --remote: write the report to FILE, - is stderr",
};

/// Whether lines on standard error say how far the run is.
pub(crate) const PROGRESS: Argument = Argument {
    name: "progress",
    form: Form::Flag,
    help: "Print progress to stderr, at most once a second",
};

/// Whether a session with a remote target is checked.
pub(crate) const SESSION: Argument = Argument {
    name: "check",
    form: Form::Flag,
    help: "With --remote: check the session as swd check --rest",
};

/// Whether writes next to each other are sent to a remote target in bursts.
pub(crate) const BURSTS: Argument = Argument {
    name: "bursts",
    form: Form::Flag,
    help: "With --remote: send writes next to each other in bursts",
};

/// The number of events that an access may meet.
pub(crate) const TRIES: Argument = Argument {
    name: "tries",
    form: Form::Number(0, "8"),
    help: "Retries per access, from 0 to 1000",
};

/// How often a call is resumed.
pub(crate) const RESUME: Argument = Argument {
    name: "resume",
    form: Form::Number(0, "0"),
    help: "Resumptions per call, from 0 to 1000",
};

// The command `one`.
const ONE: CommandRow = CommandRow {
    name: "one",
    about: "Decode a trace of exactly one transaction",
    after: None,
    arguments: &[FILE],
};

// The command `encode`.
const ENCODE: CommandRow = CommandRow {
    name: "encode",
    about: "Encode a listing to a trace, one line an item",
    after: None,
    arguments: &[FILE],
};

// The command `run`.
const RUN: CommandRow = CommandRow {
    name: "run",
    about: "Run a script's accesses at a target",
    after: Some(RUN_AFTER),
    arguments: &[
        SCRIPT, PLAN, TRIES, RESUME, TRACE, ACCESSES, STRICT, REMOTE, PROBE, SPEED, FRAMED, REPORT,
        PROGRESS, SESSION, BURSTS,
    ],
};

// The command `probes`.
const PROBES: CommandRow = CommandRow {
    name: "probes",
    about: "List the CMSIS-DAP probes of this machine",
    after: Some(PROBES_AFTER),
    arguments: &[],
};

// The commands, in the order of the help.
const COMMANDS: [CommandRow; 15] = [
    ONE,
    DECODE,
    ENCODE,
    RUN,
    TARGET,
    SIMULATED_PROBE,
    DRAW,
    CHECK,
    INFO,
    CORE,
    CONFORM,
    LOAD,
    VERIFY,
    DUMP,
    PROBES,
];

// Returns the program without its commands. One of them is required.
fn bare_command<'a>(alloc: Global) -> Command<'a>
    ensures app { app_of result ≡ bare_args_app }
    ensures local { (out-Command result).has_globals ≡ false }
{
    Command::new(alloc, "swd")
        .about(ABOUT)
        .version(VERSION)
        .after_help(AFTER)
        .subcommand_required(true)
}

// Returns the program with its commands.
pub(crate) fn swd_command<'a>(alloc: Global) -> Result<Command<'a>, AllocError>
    ensures app { IfOk result (λ c. app_of c ≡ swd_app) }
    ensures local { IfOk result (λ c. (out-Command c).has_globals ≡ false) }
{
    with_commands(alloc, bare_command(alloc), COMMANDS.as_slice())
}

// Returns the error of arguments that `clap` accepted and that aren't allowed.
pub(crate) fn refused(alloc: Global, kind: ErrorKind, why: &str) -> LineFault
    ensures { IsArgumentsErrorKind kind result }
{
    let mut command = Command::new(alloc, "swd");
    match command.error(kind, why) {
        Ok(error) => LineFault::Clap(error),
        Err(_) => LineFault::Memory,
    }
}

// Returns the error of this kind of a value that an argument can't have, in the form of `clap`'s own errors.
fn invalid(alloc: Global, kind: ErrorKind, value: &str, argument: &str, why: &str) -> LineFault
    ensures { IsArgumentsErrorKind kind result }
{
    match format!(in alloc; "invalid value '{value}' for '{argument}': {why}") {
        Ok(text) => refused(alloc, kind, text.as_str()),
        Err(_) => LineFault::Memory,
    }
}

/// Returns the error of a value that isn't one of this argument.
pub(crate) fn unfit(alloc: Global, value: &str, argument: &str, why: &str) -> LineFault {
    invalid(alloc, ErrorKind::InvalidValue, value, argument, why)
}

pub(crate) fn unknown(alloc: Global) -> LineFault {
    refused(alloc, ErrorKind::InvalidSubcommand, "unknown command")
}

// Returns the first of these options that a negative number follows, and that number. `clap` reports it as an unknown
// option.
fn negative_of<'a>(words: &[&'a str], options: &[NumberOption]) -> Option<(NumberOption, &'a str)> {
    for option in options {
        for pair in words.windows(2) {
            if pair[0] == option.word && pair[1].parse::<i64>().is_ok_and(|number| number < 0) {
                return Some((*option, pair[1]));
            }
        }
    }
    None
}

// Returns the negative number of these arguments, and the option with a number of their command that it follows.
fn negative_in<'a>(words: &[&'a str]) -> Option<(NumberOption, &'a str)> {
    let name = words.get(1)?;
    match *name {
        "run" | "info" | "core" | "load" | "verify" | "dump" => {
            negative_of(words, [TRIES_NUMBER, RESUME_NUMBER].as_slice())
        }
        "draw" => negative_of(words, [ITEMS].as_slice()),
        _ => None,
    }
}

// Returns the error for a mistake that `clap` found. For a negative number it names the range.
fn line_fault(alloc: Global, words: &[&str], fault: Error) -> LineFault
    ensures { IsArgumentsErrorKind (kind_of fault) result }
{
    match negative_in(words) {
        Some((option, number)) if fault.kind() == ErrorKind::UnknownArgument => {
            invalid(alloc, fault.kind(), number, option.shown, option.range)
        }
        _ => LineFault::Clap(fault),
    }
}

/// Returns the number of an option's value, at most 1,000.
pub(crate) fn number_in(
    alloc: Global,
    word: Option<&str>,
    option: NumberOption,
) -> Result<u32, LineFault>
    ensures { IfOk result (λ number. IsNumberArgument option.default number (option_map (λ s. s.now) word.entry)) }
{
    let Some(word) = word else {
        return Ok(option.default);
    };
    match word.parse::<i64>() {
        Ok(number) if 0 <= number && number <= MOST => Ok(number as u32),
        _ => Err(unfit(alloc, word, option.shown, option.range)),
    }
}

/// Returns the number of tries, and how often a call is resumed.
pub(crate) fn numbers_in(alloc: Global, matches: &ArgMatches<'_>) -> Result<(u32, u32), LineFault>
    ensures tries { IfOk result (λ found. IsNumberArgument 8 found.0
        (first_of (codes "tries") (rows_of (found_of matches.now)))) }
    ensures resumes { IfOk result (λ found. IsNumberArgument 0 found.1
        (first_of (codes "resume") (rows_of (found_of matches.now)))) }
{
    let tries = number_in(alloc, value_in(matches, "tries"), TRIES_NUMBER)?;
    let resumes = number_in(alloc, value_in(matches, "resume"), RESUME_NUMBER)?;
    Ok((tries, resumes))
}

// Returns whether the value of an argument is that of a flag that is set.
fn is_asked_for(word: Option<&str>) -> bool
    ensures { (result ≡ true) ↔ (option_map (λ s. s.now) word.entry ≡ Some (codes "true")) }
{
    word == Some("true")
}

/// Returns whether a flag is set.
pub(crate) fn is_set(matches: &ArgMatches<'_>, name: &str) -> bool
    ensures { (result ≡ true) ↔ (first_of name.now (rows_of (found_of matches.now)) ≡ Some (codes "true")) }
{
    is_asked_for(value_in(matches, name))
}

// Returns the arguments of `swd run`. Rejects options that can't be combined.
fn run_line(alloc: Global, matches: &ArgMatches<'_>) -> Result<RunLine, LineFault>
    ensures { IfOk result (λ run. AreRunArguments run (rows_of (found_of matches.now))) }
{
    let numbers = numbers_in(alloc, matches)?;
    if let Some(why) = why_unmatched(matches) {
        return Err(refused(alloc, ErrorKind::ArgumentConflict, why));
    }
    let Some(script) = text_in(alloc, matches, "SCRIPT")? else {
        return Err(LineFault::Memory);
    };
    let plan = text_in(alloc, matches, "plan")?;
    let trace = text_in(alloc, matches, "trace")?;
    let accesses = text_in(alloc, matches, "accesses")?;
    let report = text_in(alloc, matches, "report")?;
    let lead = lead_in(alloc, matches)?;
    Ok(RunLine {
        script,
        plan,
        tries: numbers.0,
        resumes: numbers.1,
        trace,
        accesses,
        strict: is_set(matches, "strict"),
        check: is_set(matches, "check"),
        remote: lead.0,
        probe: lead.1,
        report,
        progress: is_set(matches, "progress"),
        bursts: is_set(matches, "bursts"),
    })
}

// Returns why the options of `swd run` can't be combined, if they can't.
fn why_unmatched(matches: &ArgMatches<'_>) -> Option<&'static str> {
    let remote = !is_local(matches);
    if remote != matches.get_str("report").is_some() {
        Some("--remote or --probe and --report FILE go together")
    } else if remote && matches.get_str("plan").is_some() {
        Some("with --remote or --probe there is no --plan")
    } else {
        why_unwatched(matches)
    }
}

/// Returns why a session can't be checked, or a command can't say how far it is, if it can't: only a session with a
/// remote target is checked, and a report on standard error is not to be mixed with progress.
pub(crate) fn why_unwatched(matches: &ArgMatches<'_>) -> Option<&'static str> {
    if is_set(matches, "check") && is_local(matches) {
        Some("--check goes with --remote or --probe")
    } else if is_set(matches, "progress") && matches.get_str("report") == Some("-") {
        Some("with --report - there is no --progress")
    } else {
        None
    }
}

// Returns the command that was matched.
fn line_of(alloc: Global, matches: &ArgMatches<'_>) -> Result<CommandLine, LineFault>
    ensures { IfOk result (λ l. IsLineOfArguments l (subcommand_rows_of matches.now)) }
{
    let Some((name, rest)) = matches.subcommand() else {
        return Err(unknown(alloc));
    };
    match name {
        "one" => Ok(CommandLine::One(text_in(alloc, rest, "FILE")?)),
        "decode" => Ok(CommandLine::Decode(decode_line(alloc, rest)?)),
        "draw" => Ok(CommandLine::Draw(draw_line(alloc, rest)?)),
        "check" => Ok(CommandLine::Check(check_line(alloc, rest)?)),
        "encode" => Ok(CommandLine::Encode(text_in(alloc, rest, "FILE")?)),
        "run" => Ok(CommandLine::Run(run_line(alloc, rest)?)),
        "target" => Ok(CommandLine::Target(target_line(alloc, rest)?)),
        "probe" => Ok(CommandLine::Target(probe_line(alloc, rest)?)),
        "info" => Ok(CommandLine::Info(info_line(alloc, rest)?)),
        "core" => Ok(CommandLine::Core(core_line(alloc, rest)?)),
        "conform" => Ok(CommandLine::Conform(conform_line(alloc, rest)?)),
        "probes" => Ok(CommandLine::Probes),
        _ => Ok(CommandLine::Image(image_line(alloc, name, rest)?)),
    }
}

// Returns whether there are no options after an argument.
fn ends_options(word: &str) -> bool
    ensures { result ≡ bytes_eq word.now (codes "--") }
{
    matches!(word.as_bytes(), b"--")
}

// Returns whether an argument is the option for a remote target, without a value.
fn is_remote(word: &str) -> bool
    ensures { result ≡ bytes_eq word.now (codes "--remote") }
{
    word == "--remote"
}

// Returns an argument as the parser gets it. One after `--` is unchanged.
fn spelled<'a>(word: &'a str, escaped: bool) -> &'a str
    ensures { result.now ≡ (if escaped then word.entry.now else remote_spelled_out word.entry.now) }
{
    if !escaped && is_remote(word) {
        REMOTE_STREAMS
    } else {
        word
    }
}

// Returns the arguments, of which `--remote` alone is spelled out.
fn spelled_out<'a>(alloc: Global, words: &[&'a str]) -> Result<Vec<&'a str>, AllocError>
    ensures { IfOk result (λ spelled. map (λ w. w.now) spelled.items
        ≡ arguments_spelled_out (map (λ w. w.now) words.now)) }
{
    let mut result = Vec::new(alloc);
    let mut escaped = false;
    for word in words {
        escaped |= ends_options(*word);
        result.push(spelled(*word, escaped))?;
    }
    Ok(result)
}

// Parses arguments that are spelled out.
fn parsed<'a>(alloc: Global, words: &'a [&'a str]) -> Result<CommandLine, LineFault>
    ensures line { IfOk result (λ l. IsLineOfArguments l (subcommand_of swd_app (map (λ w. w.now) words.entry.now))) }
    ensures right { IfOk result (λ _. fault_of swd_app (map (λ w. w.now) words.entry.now) ≡ []) }
    ensures wrong { IfErr result (IsArgumentsRefusal (fault_of swd_app (map (λ w. w.now) words.entry.now))) }
{
    let Ok(command) = swd_command(alloc) else {
        return Err(LineFault::Memory);
    };
    match command.try_get_matches_from(words) {
        Ok(matches) => line_of(alloc, &matches),
        Err(fault) => Err(line_fault(alloc, words, fault)),
    }
}

/// Parses the arguments, the program's name first.
///
/// Returns the command that they mean by the rules of `clap`, where `--remote` stands for `--remote=-`. By these rules
/// the arguments then have no error.
///
/// # Errors
///
/// - `Clap`: a usage error, the help or the version. If `clap`'s rules find errors, its kind is one of theirs.
/// - `Memory`: out of memory.
pub fn line(alloc: Global, words: &[&str]) -> Result<CommandLine, LineFault>
    ensures line { IfOk result (λ l. IsLineOfArguments l
        (subcommand_of swd_app (arguments_spelled_out (map (λ w. w.now) words.now)))) }
    ensures right { IfOk result (λ _.
        fault_of swd_app (arguments_spelled_out (map (λ w. w.now) words.now)) ≡ []) }
    ensures wrong { IfErr result
        (IsArgumentsRefusal (fault_of swd_app (arguments_spelled_out (map (λ w. w.now) words.now)))) }
{
    match spelled_out(alloc, words) {
        Ok(spelled) => parsed(alloc, spelled.as_slice()),
        Err(_) => Err(LineFault::Memory),
    }
}
