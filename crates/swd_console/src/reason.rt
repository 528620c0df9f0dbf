//! Says why a line of a script or a plan is refused.
ghost use Rattle.std.specs.Prelude.{◌≡◌};

use crate::noted::{Seen, SeenLine};
use crate::report::{FAULT, tell};
use std::fmt;
use std::fmt::{Display, Formatter};
use std::io::Write;
use swd_run::TextsFault;
use swd_script::{ScriptFault, decimal_of, hex_of};

// The commands of a script, with their arguments.
const COMMANDS: [&str; 10] = [
    "memory ADDR WORDS",
    "room COUNT",
    "core ADDR",
    "r ADDR",
    "w ADDR VALUE",
    "rn ADDR COUNT",
    "block ADDR COUNT",
    "verify ADDR VALUE",
    "until ADDR MASK VALUE COUNT",
    "next",
];

/// Returns the first word of a line.
pub(crate) fn first_of(text: &str) -> &str {
    text.split_ascii_whitespace().next().unwrap_or("")
}

// Returns the command of a script that has this name, with its arguments.
fn form_of(name: &str) -> Option<&'static str> {
    COMMANDS.iter().copied().find(|form| first_of(form) == name)
}

// Returns the number that a word is, as an argument of this name.
fn number_of(argument: &str, word: &str) -> Option<u32> {
    match argument {
        "ADDR" | "MASK" | "VALUE" => hex_of(word.as_bytes()),
        _ => decimal_of(word.as_bytes()),
    }
}

// Returns the number of a line's argument of this name, or 0 if there is none.
fn argument(form: &str, text: &str, name: &str) -> u32 {
    let pairs = form
        .split_ascii_whitespace()
        .zip(text.split_ascii_whitespace());
    for (argument, word) in pairs {
        if argument == name {
            return number_of(argument, word).unwrap_or(0);
        }
    }
    0
}

// Displays where a command may stand.
fn place<W: fmt::Write>(f: &mut Formatter<W>, name: &str) -> fmt::Result {
    f.write_str(match name {
        "memory" => "there is one memory already",
        "room" => "room comes once, before the first access and before next",
        "core" => "core comes once, before the first access and before next",
        _ => "a block is the only access of its call, and next starts another",
    })
}

// Displays which argument is no number.
fn number<W: fmt::Write>(f: &mut Formatter<W>, form: &str, text: &str) -> fmt::Result {
    let pairs = form
        .split_ascii_whitespace()
        .zip(text.split_ascii_whitespace());
    for (argument, word) in pairs.skip(1) {
        if number_of(argument, word).is_some() {
            continue;
        }
        let digits = match argument {
            "ADDR" | "MASK" | "VALUE" => "hexadecimal",
            _ => "decimal",
        };
        return write!(
            f,
            "'{word}' is no {digits} number below 2^32; expected {form}"
        );
    }
    write!(f, "expected {form}")
}

// Displays which argument is out of its range.
fn range<W: fmt::Write>(f: &mut Formatter<W>, form: &str, text: &str) -> fmt::Result {
    let addr = argument(form, text, "ADDR");
    if addr % 4 != 0 {
        return write!(f, "ADDR {addr:08x} is no multiple of 4");
    }
    let (words, count) = (argument(form, text, "WORDS"), argument(form, text, "COUNT"));
    match first_of(form) {
        "memory" if words == 0 || words > 65_536 => write!(f, "WORDS is 1 to 65536, not {words}"),
        "memory" => f.write_str("no address is past ffffffff"),
        "room" => write!(f, "COUNT is at most 65536, not {count}"),
        "rn" | "block" if count == 0 => f.write_str("COUNT is at least 1"),
        "rn" | "block" if u64::from(addr) + 4 * u64::from(count) > 1 << 32 => {
            f.write_str("no address is past ffffffff")
        }
        "until" if argument(form, text, "VALUE") & !argument(form, text, "MASK") != 0 => {
            f.write_str("VALUE has no bit outside MASK")
        }
        "until" => write!(f, "COUNT is 1 to 1000000, not {count}"),
        _ => f.write_str("a call has at most 65536 accesses, and next starts another"),
    }
}

/// Displays what is wrong with a byte that no line may have.
pub(crate) fn odd<W: fmt::Write>(f: &mut Formatter<W>, byte: u8) -> fmt::Result {
    match byte {
        0xef => f.write_str("a byte that isn't ASCII, as of a byte order mark"),
        b'\r' => f.write_str("a carriage return that no line feed follows"),
        _ => write!(
            f,
            "byte {byte:02x} is neither printable ASCII nor a space or a tab"
        ),
    }
}

// Why a line of a script is refused.
#[derive(Drop)]
struct ScriptReason {
    fault: ScriptFault,
    line: SeenLine,
}

impl ScriptReason {
    // Displays why the words of the line are no command here.
    fn words<W: fmt::Write>(&self, f: &mut Formatter<W>) -> fmt::Result {
        if let Some(byte) = self.line.odd_byte() {
            return odd(f, byte);
        }
        let text = self.line.text();
        let name = first_of(text);
        let Some(form) = form_of(name) else {
            return write!(
                f,
                "'{name}' is no command; the commands are memory, room, core, r, w, rn, block, verify, until and next"
            );
        };
        if text.split_ascii_whitespace().count() == form.split_ascii_whitespace().count() {
            place(f, name)
        } else {
            write!(f, "expected {form}")
        }
    }
}

impl Display for ScriptReason {
    fn fmt<W: fmt::Write>(&self, f: &mut Formatter<W>) -> fmt::Result {
        let text = self.line.text();
        match (self.fault, form_of(first_of(text))) {
            (ScriptFault::Word { .. }, _) => self.words(f),
            (ScriptFault::Number { .. }, Some(form)) => number(f, form, text),
            (ScriptFault::Range { .. }, Some(form)) => range(f, form, text),
            (ScriptFault::NoMemoryLine { .. }, _) => {
                f.write_str("memory ADDR WORDS has to come first")
            }
            (ScriptFault::Memory { .. }, _) => f.write_str("out of memory"),
            (_, None) => f.write_str("no such number"),
        }
    }
}

// Why a line of a plan is refused.
#[derive(Drop)]
struct PlanReason {
    fault: ScriptFault,
    line: SeenLine,
}

impl PlanReason {
    // Displays why the words of the line are no mark.
    fn words<W: fmt::Write>(&self, f: &mut Formatter<W>) -> fmt::Result {
        if let Some(byte) = self.line.odd_byte() {
            return odd(f, byte);
        }
        let name = first_of(self.line.text());
        match name {
            "." | "wait" | "deaf" => write!(f, "expected {name} alone"),
            "flip" | "mute" => write!(f, "expected {name} BIT"),
            _ => write!(
                f,
                "'{name}' isn't a mark; the marks are ., wait, deaf, flip BIT and mute BIT"
            ),
        }
    }

    // Returns the bit that the line names.
    fn bit(&self) -> &str {
        let mut words = self.line.text().split_ascii_whitespace();
        let _ = words.next();
        words.next().unwrap_or("")
    }
}

impl Display for PlanReason {
    fn fmt<W: fmt::Write>(&self, f: &mut Formatter<W>) -> fmt::Result {
        match self.fault {
            ScriptFault::Word { .. } => self.words(f),
            ScriptFault::Number { .. } => write!(f, "'{}' is no decimal number", self.bit()),
            ScriptFault::Range { .. } => {
                let most = match first_of(self.line.text()) {
                    "flip" => 32,
                    _ => 2,
                };
                write!(f, "BIT is at most {most}, not {}", self.bit())
            }
            ScriptFault::NoMemoryLine { .. } | ScriptFault::Memory { .. } => {
                f.write_str("out of memory")
            }
        }
    }
}

// Returns the number of the line that has this error.
fn line_of(fault: ScriptFault) -> u64 {
    match fault {
        ScriptFault::Word { line }
        | ScriptFault::Number { line }
        | ScriptFault::Range { line }
        | ScriptFault::NoMemoryLine { line }
        | ScriptFault::Memory { line } => line,
    }
}

/// Prints the error of a script, and why its line is refused. Returns the status 2.
pub fn script_status<E: Write>(errors: &mut E, fault: ScriptFault, script: &Seen) -> u8
    ensures { result ≡ 2 }
{
    let line = script.line(line_of(fault));
    let why = ScriptReason { fault, line };
    let _ = writeln!(errors, "swd: script {fault}: {why}");
    FAULT
}

/// Prints the error of a plan, and why its line is refused. Returns the status 2.
pub(crate) fn plan_status<E: Write>(errors: &mut E, fault: ScriptFault, plan: &Seen) -> u8
    ensures { result ≡ 2 }
{
    let line = plan.line(line_of(fault));
    let why = PlanReason { fault, line };
    let _ = writeln!(errors, "swd: plan {fault}: {why}");
    FAULT
}

/// Prints the error of a script or a plan, and why its line is refused. Returns the status 2.
pub fn texts_status<E: Write>(errors: &mut E, fault: TextsFault, script: &Seen, plan: &Seen) -> u8
    ensures { result ≡ 2 }
{
    match fault {
        TextsFault::Script(fault) => script_status(errors, fault, script),
        TextsFault::Plan(fault) => plan_status(errors, fault, plan),
        TextsFault::Read => tell(errors, "read failed"),
    }
}
