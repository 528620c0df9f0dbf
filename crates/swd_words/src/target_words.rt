//! The arguments of `swd target` and `swd probe`.
ghost use Rattle.std.specs.Prelude.{◌≡◌, IfOk, None};
ghost use Rattle.std.specs.Option.{option_map};
ghost use Rattle.clap.specs.Words.{found_of, rows_of};
ghost use Rattle.swd_words.specs.Commands.{AreServedArguments, AreTargetArguments, IsIdrArgument};
ghost use Rattle.swd_words.specs.Commands.{AreProbeArguments, IsSizeArgument};

use crate::argument::{Argument, CommandRow, Form};
use crate::fault::LineFault;
use crate::memory_words::{BASE, is_missing, memory_line};
use crate::words::{HEX_FORM, PLAN, TRACE, is_set, refused, text_in, unfit, value_in};
use clap::ArgMatches;
use clap::error::ErrorKind;
use std::alloc::Global;
use swd_command_line::{ScriptLine, ServedMemory, TargetLine};
use swd_script::{decimal_of, hex_of};

const TARGET_AFTER: &str = "\
The debugger speaks OpenOCD's remote_bitbang protocol for SWD: d to g set the
pins, c samples SWDIO, O and o drive or release it, Q ends. To listen on a
socket:
  socat TCP-LISTEN:4711,nodelay EXEC:'swd target memory.script',nofork

SCRIPT or --memory names the target's memory. SCRIPT has only the lines memory,
room and core of swd run, and can't be standard input. Its words are all zero.

With --memory the memory has the words of FILE from --base on, the least
significant byte first. Once the session has ended, FILE is replaced by a new
file with the memory, so that the next session continues with it. If that fails,
or a signal ends the program, FILE is unchanged. Until then it is locked, so
that another session at it ends with status 2. FILE must be another file than
the plan, the log, the trace and the standard streams. In a session the target
does at least 16 transfers for each word and 65536 more. It answers each later
one with a bus error, which a line on standard error says.

The plan is one of swd run, with a mark for each request.

pyOCD and probe-rs look for an access port by its IDR. With --idr 04770031 the
target has an AHB-AP and no ROM table: AP bank F reads WORD at address c, and
BASE, at 8, reads ffffffff. Otherwise both read 0.

With --buffer the debug port has a write buffer: a transfer that it accepted
waits until the next request that may wait. Where DPIDR or CTRL/STAT is read or
ABORT is written before that, a write is discarded, and WDATAERR set. One that
still waits at the end is not made. A host that takes OK for a write for its end
then reports words that never reached the memory.

The log has a line for each transfer that took effect, and the numbers of cycles
and requests. The trace has every bit on the line. Both are written during the
session.

Status: 0 if the session ended by Q or by the end of the input, and each level
that the debugger asked for was written, 2 at an error.";

const PROBE_AFTER: &str = "\
Simulates a debug probe that speaks CMSIS-DAP, before the target of swd target:
SCRIPT, --memory, the plan, the log, the trace, --idr and --buffer are the same.
The host is one of CMSIS-DAP, such as swd run --probe, pyOCD and OpenOCD.

Each packet has its length before it, in two bytes, the first least significant,
and so has its reply, as with --framed of swd run. Over two fifos:
  mkfifo there back
  swd probe memory.script <there >back &
  swd info --probe=back,there --framed

The host is told that packets have N bytes, 64 to 512. Any packet of at most 512
is performed whose reply has at most N. One that is malformed, or whose reply
might be longer, is answered with its command and ff, and makes no clock; an
unknown command, and a packet of no bytes, with ff alone. DAP_TransferAbort has
no reply. A longer packet ends the session.

Status: 0 if the session ended by the end of the input, after a whole packet,
and each reply was written, 2 at an error.";

const SIZE_OPTION: &str = "--size <N>";

const SIZE_RANGE: &str = "it is not in 64..=512";

const NO_MEMORY: &str = "the memory is missing: give SCRIPT or --memory FILE";

const TWO_MEMORIES: &str = "SCRIPT and --memory FILE are two memories: give one of them";

const NO_BASE: &str = "--base ADDR goes with --memory FILE";

// The script of the target.
const SCRIPT: Argument = Argument {
    name: "SCRIPT",
    form: Form::Place(false),
    help: "The script with the memory's size",
};

// The file of the memory.
const MEMORY: Argument = Argument {
    name: "memory",
    form: Form::Value("FILE"),
    help: "In place of SCRIPT: FILE has the memory (overwrites it)",
};

// The file of the log.
const LOG: Argument = Argument {
    name: "log",
    form: Form::Value("FILE"),
    help: "Write the log to FILE (overwrites it)",
};

// The IDR of the access port.
const IDR: Argument = Argument {
    name: "idr",
    form: Form::Value("WORD"),
    help: "IDR of the access port, hexadecimal; else 0",
};

// The size of packets that the host is told.
const SIZE: Argument = Argument {
    name: "size",
    form: Form::Value("N"),
    help: "Packet size that the host is told, 64 to 512; else 64",
};

// Whether the debug port has a write buffer.
const BUFFER: Argument = Argument {
    name: "buffer",
    form: Form::Flag,
    help: "The debug port has a write buffer",
};

/// The command `target`.
pub(crate) const TARGET: CommandRow = CommandRow {
    name: "target",
    about: "Simulate a target for a debugger on the standard streams",
    after: Some(TARGET_AFTER),
    arguments: &[SCRIPT, MEMORY, BASE, PLAN, LOG, TRACE, IDR, BUFFER],
};

/// The command `probe`.
pub(crate) const SIMULATED_PROBE: CommandRow = CommandRow {
    name: "probe",
    about: "Simulate a CMSIS-DAP probe and its target on the standard streams",
    after: Some(PROBE_AFTER),
    arguments: &[SCRIPT, MEMORY, BASE, PLAN, LOG, TRACE, IDR, BUFFER, SIZE],
};

// Returns the memory that the arguments name.
fn served_memory(alloc: Global, matches: &ArgMatches<'_>) -> Result<ServedMemory, LineFault>
    ensures { IfOk result (λ memory. AreServedArguments memory (rows_of (found_of matches.now))) }
{
    let Some(script) = text_in(alloc, matches, "SCRIPT")? else {
        return match memory_line(alloc, matches, NO_MEMORY) {
            Ok(memory) => Ok(ServedMemory::File(memory)),
            Err(fault) => Err(fault),
        };
    };
    if !is_missing(matches, "memory") {
        return Err(refused(alloc, ErrorKind::ArgumentConflict, TWO_MEMORIES));
    }
    if !is_missing(matches, "base") {
        return Err(refused(alloc, ErrorKind::ArgumentConflict, NO_BASE));
    }
    let plan = text_in(alloc, matches, "plan")?;
    Ok(ServedMemory::Script(ScriptLine { script, plan }))
}

/// Returns the word of an option for IDR or another word.
pub(crate) fn idr_in(
    alloc: Global,
    word: Option<&str>,
    option: &str,
) -> Result<Option<u32>, LineFault>
    ensures { IfOk result (λ idr. IsIdrArgument idr (option_map (λ s. s.now) word.entry)) }
{
    match word {
        Some(word) => match hex_of(word.as_bytes()) {
            Some(idr) => Ok(Some(idr)),
            None => Err(unfit(alloc, word, option, HEX_FORM)),
        },
        None => Ok(None),
    }
}

/// Returns the arguments of `swd target`.
pub(crate) fn target_line(alloc: Global, matches: &ArgMatches<'_>) -> Result<TargetLine, LineFault>
    ensures arguments { IfOk result (λ target. AreTargetArguments target (rows_of (found_of matches.now))) }
    ensures characters { IfOk result (λ target. target.packet_size ≡ None) }
{
    let memory = served_memory(alloc, matches)?;
    let idr = idr_in(alloc, value_in(matches, "idr"), "--idr <WORD>")?;
    let log = text_in(alloc, matches, "log")?;
    let trace = text_in(alloc, matches, "trace")?;
    Ok(TargetLine {
        memory,
        log,
        trace,
        idr,
        buffers: is_set(matches, "buffer"),
        packet_size: None,
    })
}

// Returns the size of packets, 64 without an argument.
fn size_in(alloc: Global, word: Option<&str>) -> Result<u32, LineFault>
    ensures { IfOk result (λ size. IsSizeArgument size (option_map (λ s. s.now) word.entry)) }
{
    match word {
        Some(word) => match decimal_of(word.as_bytes()) {
            Some(size) if 64 <= size && size <= 512 => Ok(size),
            _ => Err(unfit(alloc, word, SIZE_OPTION, SIZE_RANGE)),
        },
        None => Ok(64),
    }
}

/// Returns the arguments of `swd probe`.
pub(crate) fn probe_line(alloc: Global, matches: &ArgMatches<'_>) -> Result<TargetLine, LineFault>
    ensures { IfOk result (λ target. AreProbeArguments target (rows_of (found_of matches.now))) }
{
    let size = size_in(alloc, value_in(matches, "size"))?;
    let target = target_line(alloc, matches)?;
    Ok(TargetLine {
        packet_size: Some(size),
        ..target
    })
}
