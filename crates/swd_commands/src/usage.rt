//! Prints a usage error.
ghost use Rattle.std.specs.Prelude.{◌≡◌};

use clap::Error;
use clap::error::ErrorKind;
use std::alloc::Global;
use std::fmt;
use std::fmt::{Display, Formatter};
use std::io::Write;
use swd_console::{Escaped, FAULT, tell};
use swd_words::{commands_line, usage_line};

// What `clap` prints of a command that isn't named, and of a number.
const BARE_USAGE: &str = "Usage: swd";

const NO_DIGIT: &str = "invalid digit found in string";

const TOO_LARGE: &str = "number too large to fit in target type";

const TOO_SMALL: &str = "number too small to fit in target type";

// What `clap` prints before a tip of its own, and the tip for an option that a command doesn't have.
const TIP: &str = "  tip: ";

const AS_VALUE: &str = "  tip: to pass '--";

// What `clap` prints of a command without its file.
const NO_FILE: &str = "were not provided:\n  <FILE>\n";

const VERSION: &str = "swd --version prints the version";

// The text of a usage error: control characters are escaped, and the usage is that of the command.
#[derive(Drop)]
struct UsageText<'a> {
    text: &'a str,
    usage: Option<String>,
    // The commands, for a word that is none and like none.
    commands: Option<String>,
    // What to do, in place of what `clap` says.
    tip: Option<&'static str>,
}

// Returns what to do about these arguments, where `clap` can't know it.
fn tip_for(words: &[&str], text: &str) -> Option<&'static str> {
    let name = words.get(1)?;
    match *name {
        "version" | "-v" | "-version" => Some(VERSION),
        name if name.starts_with("vers") || name.starts_with("veri") && name.ends_with("on") => {
            Some(VERSION)
        }
        "load" | "verify" if text.contains(NO_FILE) => {
            Some("ADDR comes before FILE, also for one with its own addresses: ADDR 0 adds nothing")
        }
        "levels" => Some("./swd and the swd of a release run it, a program beside this one"),
        "help" => Some("swd --help prints the help, and swd COMMAND --help that of a command"),
        "one" | "decode" | "encode" | "draw" | "check" if names_output(words) => {
            Some("the result goes to standard output: >FILE writes it to a file")
        }
        "run" | "info" | "load" | "verify" | "dump" if names_server(words) => {
            Some("--remote takes no address: swd-line connects it to a socket, see --help")
        }
        "run" | "info" | "load" | "verify" | "dump" if names_files(words) => {
            Some("the files of --remote follow =, as in --remote=IN,OUT")
        }
        _ if text.contains(AS_VALUE) => Some("swd COMMAND --help lists the options of a command"),
        _ => None,
    }
}

// Returns whether these arguments name an output.
fn names_output(words: &[&str]) -> bool {
    words
        .iter()
        .any(|word| *word == "-o" || word.starts_with("--out"))
}

// Returns whether these arguments name the address of a server.
fn names_server(words: &[&str]) -> bool {
    words.iter().any(|word| is_server(*word))
        || words
            .windows(2)
            .any(|pair| pair[0] == "--remote" && pair[1].contains(':'))
}

// Returns whether an argument has the address of a server as the files that lead to a target.
fn is_server(word: &str) -> bool {
    match word.strip_prefix("--remote=") {
        Some(files) => files.contains(':') && !files.contains('/'),
        None => false,
    }
}

// Returns whether these arguments name the files that lead to a target without `=`.
fn names_files(words: &[&str]) -> bool {
    words.windows(2).any(|pair| {
        pair[0] == "--remote" && (pair[1].contains(',') || pair[1].starts_with("/dev/"))
    })
}

impl UsageText<'_> {
    // Displays what follows the first lines, before an empty one.
    fn more<W: fmt::Write>(&self, f: &mut Formatter<W>) -> fmt::Result {
        if let Some(commands) = &self.commands {
            writeln!(f, "{}", commands.as_str())?;
        }
        match self.tip {
            Some(tip) => writeln!(f, "\n{TIP}{tip}"),
            None => Ok(()),
        }
    }

    // Displays a line.
    fn line<W: fmt::Write>(&self, f: &mut Formatter<W>, line: &str) -> fmt::Result {
        if let Some(usage) = &self.usage
            && line == BARE_USAGE
        {
            return writeln!(f, "{}", Escaped(usage.as_str()));
        }
        for (end, said) in [
            (NO_DIGIT, "it is no decimal number"),
            (TOO_LARGE, "it is too large"),
            (TOO_SMALL, "it is too small"),
        ] {
            if let Some(start) = line.strip_suffix(end) {
                return writeln!(f, "{}{said}", Escaped(start));
            }
        }
        writeln!(f, "{}", Escaped(line))
    }
}

impl Display for UsageText<'_> {
    fn fmt<W: fmt::Write>(&self, f: &mut Formatter<W>) -> fmt::Result {
        let (mut is_told, mut is_tip) = (false, false);
        let text = self.text.strip_suffix('\n').unwrap_or(self.text);
        for line in text.split('\n') {
            // A tip of `clap`, and the empty line behind it.
            let was_tip = is_tip;
            is_tip = self.tip.is_some() && line.starts_with(TIP);
            if is_tip || was_tip && line.is_empty() {
                continue;
            }
            if line.is_empty() && !is_told {
                self.more(f)?;
                is_told = true;
            }
            self.line(f, line)?;
        }
        if is_told { Ok(()) } else { self.more(f) }
    }
}

/// Prints a usage error of these arguments, and returns the status 2.
pub(crate) fn tell_usage<E: Write>(
    alloc: Global,
    errors: &mut E,
    error: &Error,
    words: &[&str],
) -> u8
    ensures { result ≡ 2 }
{
    let Ok(text) = format!(in alloc; "{error}") else {
        return tell(errors, "no memory");
    };
    let text = text.as_str();
    // Then the lines of the text can't be told from those of the arguments.
    if words.iter().any(|word| word.contains('\n')) {
        let _ = writeln!(errors, "{}", Escaped(text));
        return FAULT;
    }
    let tip = tip_for(words, text);
    let is_unknown = matches!(error.kind(), ErrorKind::InvalidSubcommand) && tip.is_none();
    let commands = if is_unknown && !text.contains("tip:") {
        commands_line(alloc)
    } else {
        None
    };
    let said = UsageText {
        text,
        usage: usage_line(alloc, words),
        commands,
        tip,
    };
    let _ = write!(errors, "{said}");
    FAULT
}
