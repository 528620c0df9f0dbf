//! The arguments of `swd load`, `swd verify` and `swd dump`.
ghost use Rattle.std.specs.Prelude.{◌≡◌, IfOk, IfSome, IsSomeAnd, Some, codes};
ghost use Rattle.std.specs.Option.{option_and_then, option_map};
ghost use Rattle.std.specs.String.{string_bytes};
ghost use Rattle.clap.specs.Words.{first_of, found_of, rows_of};
ghost use Rattle.swd_script.specs.Numerals.{is_script_hex_prefix, script_hex_number};
ghost use Rattle.swd_words.specs.Commands.{IsActionArgument};
ghost use Rattle.swd_words.specs.Commands.{AreBytesInUnits, AreFormatArguments, AreImageArguments, IsBytesArgument};

use crate::argument::{Argument, CommandRow, Form};
use crate::fault::LineFault;
use crate::format_words::{READ_FORMAT, WRITTEN_FORMAT, formats_in};
use crate::lead_words::{FRAMED, PROBE, REMOTE, SPEED, lead_in};
use crate::memory_words::{BASE, MEMORY, target_in};
use crate::words::{
    BURSTS, HEX_FORM, PLAN, PROGRESS, RESUME, SESSION, TRIES, is_set, numbers_in, refused, text_in,
    unfit, unknown, value_in, why_unwatched,
};
use clap::ArgMatches;
use clap::error::ErrorKind;
use std::alloc::Global;
use swd_command_line::{ImageAction, ImageLine};
use swd_image_files::{ElfChoice, Format};
use swd_script::{decimal_of, hex_of};

// The bytes that a `k` and an `M` behind a number stand for.
const KILO: u32 = 1024;

const MEGA: u32 = 1024 * 1024;

const LOAD_AFTER: &str = "\
FILE is ELF (elf) if it begins with 7f 45 4c 46. Otherwise it is Intel HEX (hex)
if its name ends in .hex, .ihex or .ihx, and S-records (srec) if it ends in
.srec, .s19, .s28, .s37 or .mot. Under any other name it is hex or srec if its
first line is a record with a right checksum, and else the bytes themselves
(bin). --format overrides its content and its name. A FILE without bytes is
refused.

Of an ELF file, a 32-bit little-endian executable for Arm, the bytes of each
PT_LOAD segment are taken, at the segment's physical address.

ADDR is 1 to 8 hexadecimal digits, after an optional 0x, and need not be a
multiple of 4. It is the address of a bin file. It is added to each address of
a hex, srec or elf file, so 0 leaves these as they are. With another ADDR a line
on standard error says so.

The pieces of FILE are loaded in its order, over one connection. The bytes of a
word are the least significant first. Words of which FILE has only some bytes
are read first, so that their other bytes keep their values.

With --remote the standard streams connect to a server of OpenOCD's
remote_bitbang protocol for SWD, such as swd target. For a server on a socket:
  swd-line localhost:4711 -- swd load ADDR FILE --remote
--remote=IN,OUT, --probe and --bursts are as for swd run.

With --memory the target is simulated. The memory's FILE has its bytes from
--base on, a multiple of 4 of them, the byte at the lowest address first. A load
locks it, and replaces it once the run has ended, however that was. If that
fails, or a signal ends the program, it is unchanged. The plan is one of swd
run, and injects faults.

--report FILE has the lines of swd run for each access of the load: the reads of
the partial words, and then up to 65,536 writes in a call. FILE is overwritten,
and written while the load goes on. So after a load with --remote that was
killed it shows which words were certainly written, if the target conforms to
the port model; with --memory none were. With - it is appended to standard
error.

--progress is as for swd run, but counts the words that are written:
  swd: 12288 of 16384 words, 4096 a second

With --check and --remote the session is checked while it goes on. At the end a
line on standard error has the verdict: that of swd check --rest of its items.
If it is breaks, the target doesn't conform to the port model, or it wasn't at
rest before.

A line on standard error has the result, or the first error of FILE:
  swd: loaded 65536 bytes at 20000000
  swd: loaded 1234 bytes in 3 pieces
  swd: image.hex: line 3: wrong checksum
  swd: a.elf: ELF: machine 62, not 40 (Arm)

Status: 0 if all was loaded, 1 if the run ended early, an access met a bus error
or the other end went away, 2 at an error. With --check it is 1 in place of 0 if
the verdict is breaks.";

const VERIFY_AFTER: &str = "\
FILE and ADDR are as for swd load, and so are --remote, --probe and --memory,
whose FILE is only read. The pieces of FILE are read and compared in its order,
up to the first one that differs.

--report FILE is as for swd load, and so is --check. A call has up to 65,536
reads. --progress counts the words that are read.

A line on standard error has the result, or the first byte that differs:
  swd: verified 65536 bytes at 20000000
  swd: verified 1234 bytes in 3 pieces
  swd: 20000010 has 3f, not 00

Status: 0 if all bytes are equal, 1 if a byte differs, the run ended early, an
access met a bus error or the other end went away, 2 at an error. With --check
it is 1 in place of 0 if the verdict is breaks.";

const DUMP_AFTER: &str = "\
BYTES is 1 to 10 decimal digits, which k (1024 bytes) or M (1048576 bytes) may
follow, or 1 to 8 hexadecimal digits after 0x. ADDR is 1 to 8 hexadecimal
digits, after an optional 0x. --remote, --probe and --memory are as for swd
load, and so is --check; the memory's FILE is only read. --report and --progress
are as for swd verify. FILE is hex, srec or bin by its name, as for swd load, or
by --format. Without that a name in .elf or .axf is refused: a dump is never
ELF. In a hex or srec file the addresses are the target's.

FILE is replaced once all bytes are read, by a new file beside it that gets its
name. At an error it is unchanged, or isn't created. A line on standard error
has the result:
  swd: dumped 65536 bytes at 20000000

Status: 0 if all was dumped, 1 if the run ended early, an access met a bus error
or the other end went away, 2 at an error. With --check it is 1 in place of 0 if
the verdict is breaks.";

const BYTES_FORM: &str =
    "it is not a number below 2^32: decimal, as 64k or 1M, or hexadecimal behind 0x";

// The number of bytes.
const BYTES: Argument = Argument {
    name: "BYTES",
    form: Form::Place(true),
    help: "The number of bytes, such as 65536, 64k, 1M or 0x10000",
};

// The address of a file that is read, and the file.
const READ_ADDR: Argument = Argument {
    name: "ADDR",
    form: Form::Place(true),
    help: "The address of the first byte, or an offset; hexadecimal",
};

const READ_FILE: Argument = Argument {
    name: "FILE",
    form: Form::Place(true),
    help: "The file of the bytes",
};

// The address of a file that is written, and the file.
const WRITTEN_ADDR: Argument = Argument {
    name: "ADDR",
    form: Form::Place(true),
    help: "The address of the first byte, hexadecimal",
};

const WRITTEN_FILE: Argument = Argument {
    name: "FILE",
    form: Form::Place(true),
    help: "The file to write (overwrites it)",
};

// The file of the reports.
const REPORT: Argument = Argument {
    name: "report",
    form: Form::Value("FILE"),
    help: "Write the report of the calls to FILE, - is stderr",
};

/// The command `load`.
pub(crate) const LOAD: CommandRow = CommandRow {
    name: "load",
    about: "Load a file into a target's memory",
    after: Some(LOAD_AFTER),
    arguments: &[
        READ_ADDR,
        READ_FILE,
        READ_FORMAT,
        TRIES,
        RESUME,
        REPORT,
        PROGRESS,
        REMOTE,
        PROBE,
        SPEED,
        FRAMED,
        SESSION,
        MEMORY,
        BASE,
        PLAN,
        BURSTS,
    ],
};

/// The command `verify`.
pub(crate) const VERIFY: CommandRow = CommandRow {
    name: "verify",
    about: "Compare a target's memory with a file",
    after: Some(VERIFY_AFTER),
    arguments: &[
        READ_ADDR,
        READ_FILE,
        READ_FORMAT,
        TRIES,
        RESUME,
        REPORT,
        PROGRESS,
        REMOTE,
        PROBE,
        SPEED,
        FRAMED,
        SESSION,
        MEMORY,
        BASE,
        PLAN,
    ],
};

/// The command `dump`.
pub(crate) const DUMP: CommandRow = CommandRow {
    name: "dump",
    about: "Dump a target's memory to a file",
    after: Some(DUMP_AFTER),
    arguments: &[
        WRITTEN_ADDR,
        BYTES,
        WRITTEN_FILE,
        WRITTEN_FORMAT,
        TRIES,
        RESUME,
        REPORT,
        PROGRESS,
        REMOTE,
        PROBE,
        SPEED,
        FRAMED,
        SESSION,
        MEMORY,
        BASE,
        PLAN,
    ],
};

// Returns the address of an argument.
fn addr_in(alloc: Global, word: Option<&str>) -> Result<u32, LineFault>
    ensures { IfOk result (λ addr. Some addr
        ≡ option_and_then (λ text. script_hex_number text) (option_map (λ s. s.now) word.entry)) }
{
    let Some(word) = word else {
        return Err(LineFault::Memory);
    };
    match hex_of(word.as_bytes()) {
        Some(addr) => Ok(addr),
        None => Err(unfit(alloc, word, "<ADDR>", HEX_FORM)),
    }
}

// Returns the number of bytes of an argument, or `None` if it isn't one below 2^32.
fn count_in(word: Option<&str>) -> Option<u32>
    ensures { IfSome result (λ count. IsSomeAnd (option_map (λ s. s.now) word.entry) (IsBytesArgument count)) }
{
    match word {
        Some(word) => count_of(word.as_bytes()),
        None => None,
    }
}

// Returns the number of bytes that a word is, or `None` if it isn't one below 2^32.
fn count_of(word: &[u8]) -> Option<u32>
    ensures { IfSome result (λ count. IsBytesArgument count word.now) }
{
    let Some((last, digits)) = word.split_last() else {
        return None;
    };
    match *last {
        b'k' => units_of(digits, KILO),
        b'M' => units_of(digits, MEGA),
        _ => bytes_of(word),
    }
}

// Returns the number of bytes that a word without a unit is, or `None` if it isn't one below 2^32.
fn bytes_of(word: &[u8]) -> Option<u32>
    ensures { IfSome result (λ count. IsBytesArgument count word.now) }
{
    match word {
        [first, second, _digits @ ..] if is_prefix(*first, *second) => hex_of(word),
        _ => decimal_of(word),
    }
}

// Returns whether these are `0x` or `0X`.
fn is_prefix(first: u8, second: u8) -> bool
    ensures { result ≡ is_script_hex_prefix first second }
{
    first == b'0' && (second == b'x' || second == b'X')
}

// Returns the number of bytes of so many units of this size, or `None` if it isn't below 2^32.
fn units_of(digits: &[u8], size: u32) -> Option<u32>
    ensures { IfSome result (λ count. AreBytesInUnits count size digits.now) }
{
    decimal_of(digits)?.checked_mul(size)
}

// Returns what the command of this name does with an image.
fn action_of(alloc: Global, name: &str, matches: &ArgMatches<'_>) -> Result<ImageAction, LineFault>
    ensures { IfOk result (λ action. IsActionArgument action name.now (rows_of (found_of matches.now))) }
{
    match name {
        "load" => Ok(ImageAction::Load),
        "verify" => Ok(ImageAction::Verify),
        "dump" => {
            let bytes = value_in(matches, "BYTES");
            match count_in(bytes) {
                Some(count) => Ok(ImageAction::Dump(count)),
                None => Err(unfit(alloc, bytes.unwrap_or(""), "<BYTES>", BYTES_FORM)),
            }
        }
        _ => Err(unknown(alloc)),
    }
}

// Returns the format of the file, and whether it is ELF.
fn formats_of(
    alloc: Global,
    action: ImageAction,
    matches: &ArgMatches<'_>,
) -> Result<(Format, ElfChoice), LineFault>
    ensures { IfOk result (λ found. IsSomeAnd (first_of (codes "FILE") (rows_of (found_of matches.now)))
        (λ file. AreFormatArguments action found.0 found.1 file
        (first_of (codes "format") (rows_of (found_of matches.now))))) }
{
    let Some(file) = value_in(matches, "FILE") else {
        return Err(LineFault::Memory);
    };
    formats_in(alloc, action, value_in(matches, "format"), file)
}

// Returns the file, and the file of the reports.
fn names_in(alloc: Global, matches: &ArgMatches<'_>) -> Result<(String, Option<String>), LineFault>
    ensures file { IfOk result (λ names. Some (string_bytes names.0)
        ≡ first_of (codes "FILE") (rows_of (found_of matches.now))) }
    ensures report { IfOk result (λ names. option_map string_bytes names.1
        ≡ first_of (codes "report") (rows_of (found_of matches.now))) }
{
    let Some(file) = text_in(alloc, matches, "FILE")? else {
        return Err(LineFault::Memory);
    };
    let report = text_in(alloc, matches, "report")?;
    Ok((file, report))
}

/// Returns the arguments of the command of this name, which is `load`, `verify` or `dump`.
pub(crate) fn image_line(
    alloc: Global,
    name: &str,
    matches: &ArgMatches<'_>,
) -> Result<ImageLine, LineFault>
    ensures { IfOk result (λ image. AreImageArguments image name.now (rows_of (found_of matches.now))) }
{
    let action = action_of(alloc, name, matches)?;
    let addr = addr_in(alloc, value_in(matches, "ADDR"))?;
    let numbers = numbers_in(alloc, matches)?;
    if let Some(why) = why_unwatched(matches) {
        return Err(refused(alloc, ErrorKind::ArgumentConflict, why));
    }
    let lead = lead_in(alloc, matches)?;
    let memory = target_in(alloc, matches)?;
    let formats = formats_of(alloc, action, matches)?;
    let names = names_in(alloc, matches)?;
    Ok(ImageLine {
        action,
        addr,
        file: names.0,
        format: formats.0,
        elf: formats.1,
        tries: numbers.0,
        resumes: numbers.1,
        report: names.1,
        progress: is_set(matches, "progress"),
        check: is_set(matches, "check"),
        remote: lead.0,
        probe: lead.1,
        memory,
        bursts: is_set(matches, "bursts"),
    })
}
