//! The arguments of `swd core`.
ghost use Rattle.std.specs.Prelude.{◌≡◌, IfOk, IfSome, Some, codes};
ghost use Rattle.clap.specs.Words.{first_of, found_of, rows_of};
ghost use Rattle.swd_words.specs.Commands.{AreCoreArguments, core_action_word};

use crate::argument::{Argument, CommandRow, Form};
use crate::fault::LineFault;
use crate::lead_words::{FRAMED, PROBE, REMOTE, SPEED, is_local, lead_in};
use crate::words::{RESUME, TRACE, TRIES, is_set, numbers_in, refused, text_in, unfit, value_in};
use clap::ArgMatches;
use clap::error::ErrorKind;
use std::alloc::Global;
use swd_command_line::{CoreLine, RunLine};
use swd_core::{CoreAction, CoreRegister, CoreWrite, EACH, named};
use swd_script::hex_of;

const CORE_AFTER: &str = "\
Works at a core of Armv6-M, Armv7-M or Armv8-M by its debug registers, in the
memory of access port 0. ACTION is
  id                names the core by CPUID
  halt              halts it
  resume            has a halted core run on from its pc
  step              has it execute one instruction, with interrupts masked
  reset             resets the system by AIRCR.SYSRESETREQ; the core runs then.
                    With --halt it is halted before its first instruction
  regs [NAME]..     prints registers of a halted core: those named, else r0 to
                    r12, sp, lr, pc, xpsr, msp, psp, primask and control
  set NAME=WORD..   writes registers of a halted core: WORD is 1 to 8
                    hexadecimal digits, which may follow 0x
With --halt, resume, step, regs and set halt the core first if it isn't halted.
NAME is r0 to r15, sp, lr, pc, xpsr, msp, psp, fpscr, s0 to s31, in Armv8-M also
msp_s, msp_ns, psp_s, psp_ns, msplim_s, msplim_ns, psplim_s and psplim_ns. cfbp
is the word of control, faultmask, basepri and primask, a byte each from the
highest on; each of these is read alone, and written as part of cfbp. In Armv8-M
cfbp_s and cfbp_ns are those of a security state, as is control_s.

Each action is a script that swd run runs; --script prints it, and does nothing.
What is found is printed on standard error, a line each:
  swd: cpuid 410fc241: Cortex-M4 r0p1
  swd: pc 20000100
A register that a core doesn't have reads as any word. DEMCR is 0 after a reset,
so no vector catch is left. Some chips reset their debug port with the core:
then --resume 1 opens the target again.

--remote and --probe are as for swd run. A try without a board, with the server
swd target examples/core.script over two fifos:
  mkfifo there back
  swd target examples/core.script <there >back &
  swd core reset --halt --remote=back,there

Status: 0 if it was done, 1 if the core isn't halted, doesn't halt, or can't be
debugged, a line says which, or if the run ended early or the other end went
away, 2 at any other error.";

const NO_TARGET: &str = "the target is missing: give --remote, --probe FILE or --script";

const TWO_ENDS: &str = "--script prints the script, and takes no target";

const NO_NAMES: &str = "this action takes no NAME";

const NO_WRITE: &str = "give NAME=WORD for each register to write";

const ACTION_FORM: &str = "it is none of id, halt, resume, step, reset, regs and set";

const NAME_FORM: &str = "no core register has this name";

const WRITE_FORM: &str = "it is no NAME=WORD of a whole register and 1 to 8 hexadecimal digits";

/// The command `core`.
pub(crate) const CORE: CommandRow = CommandRow {
    name: "core",
    about: "Halt, step or reset a core, or read its registers",
    after: Some(CORE_AFTER),
    arguments: &[
        Argument {
            name: "ACTION",
            form: Form::Place(true),
            help: "id, halt, resume, step, reset, regs or set",
        },
        Argument {
            name: "NAME",
            form: Form::Places,
            help: "Registers to read, or NAME=WORD to write",
        },
        Argument {
            name: "halt",
            form: Form::Flag,
            help: "Halt the core first; with reset, before it runs",
        },
        Argument {
            name: "script",
            form: Form::Flag,
            help: "Print the script, and do nothing",
        },
        TRIES,
        RESUME,
        TRACE,
        REMOTE,
        PROBE,
        SPEED,
        FRAMED,
    ],
};

// Returns the registers of these names.
fn registers_in(alloc: Global, names: &[&str]) -> Result<Vec<CoreRegister>, LineFault> {
    let mut registers = Vec::new(alloc);
    for name in names {
        let Some(register) = named(*name) else {
            return Err(unfit(alloc, *name, "[NAME]...", NAME_FORM));
        };
        if registers.push(register).is_err() {
            return Err(LineFault::Memory);
        }
    }
    Ok(registers)
}

// Returns the write that an argument asks for, of a whole register.
fn write_in(argument: &str) -> Option<CoreWrite> {
    let (name, word) = argument.split_once('=')?;
    let register = named(name)?;
    let word = hex_of(word.as_bytes())?;
    if register.is_whole {
        Some(CoreWrite { register, word })
    } else {
        None
    }
}

// Returns the writes of these arguments.
fn writes_in(alloc: Global, arguments: &[&str]) -> Result<Vec<CoreWrite>, LineFault> {
    let mut writes = Vec::new(alloc);
    for argument in arguments {
        let Some(write) = write_in(*argument) else {
            return Err(unfit(alloc, *argument, "[NAME]...", WRITE_FORM));
        };
        if writes.push(write).is_err() {
            return Err(LineFault::Memory);
        }
    }
    Ok(writes)
}

// Returns an action without registers, or `None` for another word.
fn plain_action(word: &str) -> Option<CoreAction>
    ensures { IfSome result (λ action. core_action_word action ≡ word.now) }
{
    match word {
        "id" => Some(CoreAction::Id),
        "halt" => Some(CoreAction::Halt),
        "resume" => Some(CoreAction::Resume),
        "step" => Some(CoreAction::Step),
        "reset" => Some(CoreAction::Reset),
        _ => None,
    }
}

// Returns an action without registers. No names may be given with it.
fn plain_in(alloc: Global, word: &str, names: &[&str]) -> Result<CoreAction, LineFault>
    ensures { IfOk result (λ action. core_action_word action ≡ word.now) }
{
    match plain_action(word) {
        Some(action) if names.is_empty() => Ok(action),
        Some(_) => Err(refused(alloc, ErrorKind::ArgumentConflict, NO_NAMES)),
        None => Err(unfit(alloc, word, "<ACTION>", ACTION_FORM)),
    }
}

// Returns what this word has done at the core, with these names.
fn action_of(alloc: Global, word: &str, names: &[&str]) -> Result<CoreAction, LineFault>
    ensures { IfOk result (λ action. core_action_word action ≡ word.now) }
{
    match word {
        "regs" => {
            let names = if names.is_empty() { EACH } else { names };
            Ok(CoreAction::Regs(registers_in(alloc, names)?))
        }
        "set" if names.is_empty() => {
            Err(refused(alloc, ErrorKind::MissingRequiredArgument, NO_WRITE))
        }
        "set" => Ok(CoreAction::Set(writes_in(alloc, names)?)),
        _ => plain_in(alloc, word, names),
    }
}

// Returns what this word has done at the core, with the names that the arguments have.
fn named_action(
    alloc: Global,
    word: &str,
    matches: &ArgMatches<'_>,
) -> Result<CoreAction, LineFault>
    ensures { IfOk result (λ action. core_action_word action ≡ word.now) }
{
    match matches.get_strs("NAME") {
        Some(names) => action_of(alloc, word, names),
        None => action_of(alloc, word, &[]),
    }
}

// Returns what the arguments have done at the core.
fn action_in(alloc: Global, matches: &ArgMatches<'_>) -> Result<CoreAction, LineFault>
    ensures { IfOk result (λ action. first_of (codes "ACTION") (rows_of (found_of matches.now))
        ≡ Some (core_action_word action)) }
{
    let Some(word) = value_in(matches, "ACTION") else {
        return Err(LineFault::Memory);
    };
    let action = named_action(alloc, word, matches)?;
    Ok(action)
}

/// Returns the arguments of `swd core`. Rejects those without a target, unless the script is printed, and both.
pub(crate) fn core_line(alloc: Global, matches: &ArgMatches<'_>) -> Result<CoreLine, LineFault>
    ensures { IfOk result (λ core. AreCoreArguments core (rows_of (found_of matches.now))) }
{
    let script = is_set(matches, "script");
    let has_target = !is_local(matches);
    if script && has_target {
        return Err(refused(alloc, ErrorKind::ArgumentConflict, TWO_ENDS));
    }
    if !script && !has_target {
        let kind = ErrorKind::MissingRequiredArgument;
        return Err(refused(alloc, kind, NO_TARGET));
    }
    let action = action_in(alloc, matches)?;
    let numbers = numbers_in(alloc, matches)?;
    let lead = lead_in(alloc, matches)?;
    let trace = text_in(alloc, matches, "trace")?;
    Ok(CoreLine {
        action,
        halts: is_set(matches, "halt"),
        script,
        run: RunLine {
            script: String::new(alloc),
            plan: None,
            tries: numbers.0,
            resumes: numbers.1,
            trace,
            accesses: None,
            strict: true,
            check: false,
            remote: lead.0,
            probe: lead.1,
            report: None,
            progress: false,
            bursts: false,
        },
    })
}
