//! The arguments of `swd check`.
ghost use Rattle.std.specs.Prelude.{◌≡◌, ◌++◌, List, IfOk, codes, map, unwrap_or, []};
ghost use Rattle.clap.specs.Words.{all_of, found_of, rows_of};
ghost use Rattle.swd_command_line.specs.declared.command.PlainWords.{PlainWords};
ghost use Rattle.swd_words.specs.Commands.{AreCheckArguments, ArePlainArguments, IsPlainArgument};

use crate::argument::{Argument, CommandRow, Form};
use crate::decode_words::TWO_STARTS;
use crate::fault::LineFault;
use crate::memory_words::address_in;
use crate::words::{FILE, is_set, refused, text_in, unfit};
use clap::ArgMatches;
use clap::error::ErrorKind;
use std::alloc::Global;
use swd_command_line::{CheckLine, PlainWords};
use swd_script::decimal_of;

const CHECK_AFTER: &str = "\
Prints the verdict, one line:
  fits N                 a target that keeps the rules may show these N items
  breaks @P ITEM: WHY    none may show the items up to the one at bit P. WHY has
                         the rule, what was expected, and since which item
  crowded @P             not decided from bit P on: too many states are
                         possible, or, at @0, there was not enough to begin
  outside @P: WHY        not decided from bit P on: there the session leaves the
                         model, and the target may keep the standard
Behind fits N there may be:
  from @P                it was checked from bit P on
  faults F               at least F requests were damaged or lost
  gaps G                 G times stray bits hid all up to the next line reset

The rules are those of the port model (docs/PROTOCOL.md). Some are this
project's choice, so that good silicon may break them (docs/CONFORMANCE.md). Any
memory fits, and so does damage on the line. So a target that acknowledges a
write and drops it fits, unless --plain says that there is memory.

Without --made and --rest the target's first state is unknown. It is checked
from where the trace shows enough of it: with --rest from the first read of
CTRL/STAT on, else from the first OK behind a write of SELECT.

With --plain WORDS words from BASE on are memory: each has the word that was
written to it last, and no access to it is a bus error. BASE is 1 to 8
hexadecimal digits, after an optional 0x, and a multiple of 4. WORDS is decimal.

--resync and --overrun are as for swd decode. --overrun has --resync in it. The
transaction directly before skipped bits belongs to the gap, and isn't checked.

Status: 0 fits, 1 breaks, 2 crowded, outside or an error.";

const PLAIN_OPTION: &str = "--plain <BASE> <WORDS>";

const PLAIN_WORDS: &str = "it is not a number of words, at least 1 and none past ffffffff";

/// How many bytes there are below the address `1_0000_0000`.
const BYTES: u64 = 1 << 32;

/// The flag for a line without damage.
pub(crate) const CLEAN: Argument = Argument {
    name: "clean",
    form: Form::Flag,
    help: "Nothing is damaged or lost, as in a simulation",
};

/// The option for words of plain memory.
pub(crate) const PLAIN: Argument = Argument {
    name: "plain",
    form: Form::Repeated(&["BASE", "WORDS"]),
    help: "There is memory: WORDS words from BASE on",
};

/// The command `check`.
pub(crate) const CHECK: CommandRow = CommandRow {
    name: "check",
    about: "Check whether a trace's target conforms to the model",
    after: Some(CHECK_AFTER),
    arguments: &[
        FILE,
        Argument {
            name: "made",
            form: Form::Flag,
            help: "The target begins in its reset state",
        },
        Argument {
            name: "rest",
            form: Form::Flag,
            help: "It begins at rest: SELECT is 0, nothing is pending",
        },
        CLEAN,
        PLAIN,
        Argument {
            name: "exact-registers",
            form: Form::Flag,
            help: "CSW and CTRL/STAT are those of swd target",
        },
        Argument {
            name: "resync",
            form: Form::Flag,
            help: "The capture begins in mid-session or lost bits",
        },
        Argument {
            name: "overrun",
            form: Form::Flag,
            help: "As --resync; WAIT and FAULT have a data phase",
        },
    ],
};

// Returns the words of plain memory of one use of `--plain`.
fn words_in(alloc: Global, address: &str, count: &str) -> Result<PlainWords, LineFault>
    ensures { IfOk result (λ plain. IsPlainArgument plain address.now count.now) }
{
    let base = address_in(alloc, address, PLAIN_OPTION)?;
    match decimal_of(count.as_bytes()) {
        Some(words) if words > 0 && u64::from(base) + 4 * u64::from(words) <= BYTES => {
            Ok(PlainWords { base, words })
        }
        _ => Err(unfit(alloc, count, PLAIN_OPTION, PLAIN_WORDS)),
    }
}

// Adds the words of plain memory of these values, two for each use of `--plain`.
fn add_plain(alloc: Global, values: &[&str], plain: &mut Vec<PlainWords>) -> Result<(), LineFault>
    ensures { IfOk result (λ _. (more : List PlainWords) × (plain.new.items ≡ plain.old.items ++ more)
        × ArePlainArguments more (map (λ v. v.now) values.now)) }
{
    match values {
        [] => Ok(()),
        [base, words, rest @ ..] => {
            let found = words_in(alloc, *base, *words)?;
            if plain.push(found).is_err() {
                return Err(LineFault::Memory);
            }
            add_plain(alloc, rest, plain)
        }
        [..] => Err(unfit(alloc, "", PLAIN_OPTION, PLAIN_WORDS)),
    }
}

/// Returns the words of plain memory that the arguments have.
pub(crate) fn plain_in(
    alloc: Global,
    matches: &ArgMatches<'_>,
) -> Result<Vec<PlainWords>, LineFault>
    ensures { IfOk result (λ plain. ArePlainArguments plain.items
        (unwrap_or (all_of (codes "plain") (rows_of (found_of matches.now))) [])) }
{
    let mut plain = Vec::new(alloc);
    match matches.get_strs("plain") {
        Some(values) => match add_plain(alloc, values, &mut plain) {
            Ok(()) => Ok(plain),
            Err(fault) => Err(fault),
        },
        None => Ok(plain),
    }
}

/// Returns the arguments of `swd check`. Rejects two starts, and words of plain memory that no address space has.
pub(crate) fn check_line(alloc: Global, matches: &ArgMatches<'_>) -> Result<CheckLine, LineFault>
    ensures { IfOk result (λ check. AreCheckArguments check (rows_of (found_of matches.now))) }
{
    let made = is_set(matches, "made");
    let rest = is_set(matches, "rest");
    let clean = is_set(matches, "clean");
    let exact_registers = is_set(matches, "exact-registers");
    let resync = is_set(matches, "resync");
    let overrun = is_set(matches, "overrun");
    if made && rest {
        return Err(refused(alloc, ErrorKind::ArgumentConflict, TWO_STARTS));
    }
    let plain = plain_in(alloc, matches)?;
    let file = text_in(alloc, matches, "FILE")?;
    Ok(CheckLine {
        file,
        made,
        rest,
        clean,
        plain,
        exact_registers,
        resync,
        overrun,
    })
}
