//! The arguments of `swd decode`.
ghost use Rattle.std.specs.Prelude.{◌≡◌, false, IfOk, None, true};
ghost use Rattle.clap.specs.Words.{found_of, rows_of};
ghost use Rattle.swd_words.specs.Commands.{AreDecodeArguments};

use crate::argument::{Argument, CommandRow, Form};
use crate::fault::LineFault;
use crate::words::{FILE, is_set, refused, text_in};
use clap::ArgMatches;
use clap::error::ErrorKind;
use std::alloc::Global;
use swd_command_line::DecodeLine;

const DECODE_AFTER: &str = "\
With --places each line begins with @N, the number of bits before the item.

With --names registers are printed by name where the trace shows SELECT:
  dp ctrl/stat read ok 000000a0 sticky_err wdata_err
  ap csw write ok 23000012
  ap 1 bank f idr read wait
The access port and the bank precede the name unless they are 0. A word of
ABORT, CTRL/STAT or CSW with correct parity is followed by its set flags, except
in a read of an access port, which returns the word of the read before it. After
a line reset or a stray bit SELECT is unknown until it is written: registers are
then numbers, as without --names.

With --count there is no listing, but a line for each kind of item at the end,
with its count first:
  1042 ap c write ok
  3 dp 4 read wait
  2 reset
  96 idle
Of idle, junk and cut the bits are counted. An invalid trace has no counts.

With --accesses there is a line for each access of the target's memory, with the
place of its request, if the target conforms to the port model:
  @590 w 20000000 deadbeef      took effect, once
  @787 w 20000000 deadbeef may  took effect once or not at all: not shown
  @925 r 30000000 ???????? not  met a bus error, or never reached the bus
  @990 gap                      stray bits from here, which may hide accesses
????????: the trace doesn't show this address or word. Give --made if the trace
begins with the target in its reset state, or --rest if it begins in mid-session
where SELECT is 0 and nothing is pending; without them the state is unknown.
FAULT alone shows nothing: not wants a read of CTRL/STAT with the error's flag.
A line is printed once the transaction after the one that decides it is read.

With --resync the trace may begin in mid-session and lose bits. What can be read
is listed, and the bits between have one line:
  skip 26                       26 bits that belong to nothing
Behind it SELECT is unknown. --count counts these bits, and for --accesses they
are a gap, with the transaction before them. With overrun detection a data phase
follows WAIT and FAULT too, so these transactions have 46 bits. Writes of
CTRL/STAT are followed, and lengths; --overrun says that the host uses it from
the first bit on.";

const COUNT_ALONE: &str = "--count goes with neither --places nor --names";

const ACCESSES_ALONE: &str = "--accesses goes with none of --places, --names and --count";

const MADE_WITH_ACCESSES: &str = "--made goes with --accesses";

const REST_WITH_ACCESSES: &str = "--rest goes with --accesses";

/// What is said where `--made` and `--rest` stand together.
pub(crate) const TWO_STARTS: &str = "--made goes without --rest";

/// What is said where `--overrun` stands alone.
pub(crate) const OVERRUN_WITH_RESYNC: &str = "--overrun goes with --resync";

// Whether lines begin with the place of their item.
const PLACES: Argument = Argument {
    name: "places",
    form: Form::Flag,
    help: "Begin each line with the item's place in the trace",
};

/// Whether registers are printed by name.
pub(crate) const NAMES: Argument = Argument {
    name: "names",
    form: Form::Flag,
    help: "Print names of registers, and of flags that are set",
};

// Whether items are counted instead of listed.
const COUNT: Argument = Argument {
    name: "count",
    form: Form::Flag,
    help: "Count each kind of item, with no listing",
};

// Whether accesses are listed, with their effect, instead of items.
const ACCESSES: Argument = Argument {
    name: "accesses",
    form: Form::Flag,
    help: "List the accesses of memory, with their effect",
};

// Whether the target begins in its reset state.
const MADE: Argument = Argument {
    name: "made",
    form: Form::Flag,
    help: "With --accesses: the target begins in its reset state",
};

// Whether the target begins at rest.
const REST: Argument = Argument {
    name: "rest",
    form: Form::Flag,
    help: "With --accesses: SELECT is 0, nothing is pending at first",
};

/// Whether the trace may begin in mid-session and lose bits.
pub(crate) const RESYNC: Argument = Argument {
    name: "resync",
    form: Form::Flag,
    help: "Read a capture that begins in mid-session or lost bits",
};

/// Whether there is overrun detection at the beginning.
pub(crate) const OVERRUN: Argument = Argument {
    name: "overrun",
    form: Form::Flag,
    help: "With --resync, WAIT and FAULT have a data phase at first",
};

/// The command `decode`.
pub(crate) const DECODE: CommandRow = CommandRow {
    name: "decode",
    about: "Decode a trace to a listing, one line an item",
    after: Some(DECODE_AFTER),
    arguments: &[
        FILE, PLACES, NAMES, COUNT, ACCESSES, MADE, REST, RESYNC, OVERRUN,
    ],
};

// Returns what is said of flags that exclude each other, or of one without the one that it needs. `None`: nothing is.
fn clash(decode: &DecodeLine) -> Option<(ErrorKind, &'static str)>
    ensures { result ≡ None → decode.now.made ≡ true → decode.now.rest ≡ false }
{
    if decode.count && (decode.places || decode.names) {
        return Some((ErrorKind::ArgumentConflict, COUNT_ALONE));
    }
    if decode.accesses && (decode.places || decode.names || decode.count) {
        return Some((ErrorKind::ArgumentConflict, ACCESSES_ALONE));
    }
    if decode.made && !decode.accesses {
        return Some((ErrorKind::MissingRequiredArgument, MADE_WITH_ACCESSES));
    }
    if decode.rest && !decode.accesses {
        return Some((ErrorKind::MissingRequiredArgument, REST_WITH_ACCESSES));
    }
    if decode.overrun && !decode.resync {
        return Some((ErrorKind::MissingRequiredArgument, OVERRUN_WITH_RESYNC));
    }
    if decode.made && decode.rest {
        return Some((ErrorKind::ArgumentConflict, TWO_STARTS));
    }
    None
}

/// Returns the arguments of `swd decode`. Rejects flags that exclude each other, and a flag without the one that it
/// needs.
pub(crate) fn decode_line(alloc: Global, matches: &ArgMatches<'_>) -> Result<DecodeLine, LineFault>
    ensures { IfOk result (λ decode. AreDecodeArguments decode (rows_of (found_of matches.now))) }
{
    let decode = DecodeLine {
        file: text_in(alloc, matches, "FILE")?,
        places: is_set(matches, "places"),
        names: is_set(matches, "names"),
        count: is_set(matches, "count"),
        accesses: is_set(matches, "accesses"),
        made: is_set(matches, "made"),
        rest: is_set(matches, "rest"),
        resync: is_set(matches, "resync"),
        overrun: is_set(matches, "overrun"),
    };
    match clash(&decode) {
        Some((kind, why)) => Err(refused(alloc, kind, why)),
        None => Ok(decode),
    }
}
