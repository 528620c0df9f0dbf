//! The arguments of `swd conform`.
ghost use Rattle.std.specs.Prelude.{◌≡◌, ◌∷◌, [], IfOk, IfSome};
ghost use Rattle.clap.specs.Words.{found_of, rows_of};
ghost use Rattle.swd_words.specs.Commands.{AreConformArguments};

use crate::argument::{Argument, CommandRow, Form};
use crate::check_words::{CLEAN, plain_in};
use crate::fault::LineFault;
use crate::lead_words::{FRAMED, PROBE, REMOTE, SPEED, remote_in};
use crate::target_words::idr_in;
use crate::words::{is_set, refused, text_in, value_in};
use clap::ArgMatches;
use clap::error::ErrorKind;
use std::alloc::Global;
use swd_command_line::{ConformLine, PlainWords};

const CONFORM_AFTER: &str = "\
Sends some 1,800 requests that reach each rule to a port in its reset state, and
prints the verdict on what came, as swd check --made does. It stops at the first
item that breaks a rule.

It overwrites the memory that --plain names, once and at least 80 words. BASE is
1 to 8 hexadecimal digits, after an optional 0x, and a multiple of 4. WORDS is
decimal. It also writes CTRL/STAT, SELECT, CSW and TAR, and the same addresses
in other banks and in access port ff, where it reads address c of bank f, too.
Of access port 1 it reads 0, 4 and 8. It ends without power.

With --hole there are bus errors, at ADDR, 1 to 8 hexadecimal digits, a multiple
of 4 and no word of the memory; without, this part is left out. All other
transfers of access port 0 are in the memory, if the port conforms: one is left
out where an event on the line leaves open at which address it would be.

--remote and --probe are as for swd run. With --remote alone standard output is
the line's, and the verdict is on standard error. For a server on a socket:
  swd-line localhost:4711 -- swd conform --remote ..
Lines on standard error say how many requests and clocks were sent, and what was
not reached: WAIT, if the port never answered it, and damage on the line. It
ends early, undecided, where a request gets WAIT 64 times, or 32 reads of
CTRL/STAT, 100 clocks apart, don't acknowledge both powers.

With --steps the requests are those of FILE, at most 2,000 steps, in paragraphs:
  # RULE             what they try; a line on standard error names it if the run
                     ended there
  needs hole         the next send is left out without --hole; or: needs page,
                     needs kilobyte, where no end of 256 bytes, or of a
                     kilobyte, is in the memory
  first STEP ..      send is repeated with each of these in place of 1,
  second STEP ..     and with each of these in place of 2
  send STEP ..       sends these steps
A step is a read, dpidr, ctrl/stat, resend, rdbuff, csw, tar, ap-8 or drw; a
write of abort, ctrl/stat, select, dp-c, csw, tar, ap-8 or drw: tar=W, tar=!W
with wrong parity, tar=cut with a line reset in place of its data phase; a
request that is sent once, also where it is not answered, tar? or tar=0?; reset,
a line reset; or power, reads of CTRL/STAT until both powers are acknowledged.
W is hexadecimal; memory, page or kilobyte, the address of the first word, or of
the last word of 256 bytes or of a kilobyte, or such an address and bytes, as
memory+4 or kilobyte-4; hole; or fresh, another word each time.

Status: 0 fits; 1 breaks, or a transfer at ADDR was no bus error; 2 crowded, an
error, the other end went away, the port answered no request, or it ended
early.";

const ONE_MEMORY: &str = "give the memory that may be overwritten: --plain BASE WORDS, once";

// The memory of a run.
const MEMORY: Argument = Argument {
    name: "plain",
    form: Form::Repeated(&["BASE", "WORDS"]),
    help: "Memory to overwrite: WORDS words, 80 or more",
};

/// The command `conform`.
pub(crate) const CONFORM: CommandRow = CommandRow {
    name: "conform",
    about: "Check whether a port conforms to the model, by requests",
    after: Some(CONFORM_AFTER),
    arguments: &[
        REMOTE,
        PROBE,
        SPEED,
        FRAMED,
        MEMORY,
        Argument {
            name: "hole",
            form: Form::Value("ADDR"),
            help: "There is no memory at ADDR, hexadecimal",
        },
        Argument {
            name: "steps",
            form: Form::Value("FILE"),
            help: "Send the steps of FILE in place of these requests",
        },
        CLEAN,
    ],
};

/// Returns the arguments of `swd conform`. Rejects those without a target, and without `--plain` or with several.
pub(crate) fn conform_line(
    alloc: Global,
    matches: &ArgMatches<'_>,
) -> Result<ConformLine, LineFault>
    ensures { IfOk result (λ conform. AreConformArguments conform (rows_of (found_of matches.now))) }
{
    let lead = remote_in(alloc, matches)?;
    let hole = idr_in(alloc, value_in(matches, "hole"), "--hole <ADDR>")?;
    let steps = text_in(alloc, matches, "steps")?;
    let clean = is_set(matches, "clean");
    let all = plain_in(alloc, matches)?;
    let Some(plain) = only_one(all.as_slice()) else {
        let kind = ErrorKind::MissingRequiredArgument;
        return Err(refused(alloc, kind, ONE_MEMORY));
    };
    Ok(ConformLine {
        remote: lead.0,
        probe: lead.1,
        plain,
        hole,
        steps,
        clean,
    })
}

// Returns the one use of `--plain`, or `None` if there is none or there are several.
fn only_one(plain: &[PlainWords]) -> Option<PlainWords>
    ensures { IfSome result (λ one. plain.now ≡ one ∷ []) }
{
    match plain {
        [one] => Some(*one),
        _ => None,
    }
}
