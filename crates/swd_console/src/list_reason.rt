//! Says why a line of a listing is refused.
ghost use Rattle.std.specs.Prelude.{◌≡◌};

use crate::noted::{Seen, SeenLine};
use crate::reason::{first_of, odd};
use crate::report::FAULT;
use std::fmt;
use std::fmt::{Display, Formatter};
use std::io::Write;

// How the lines of a listing begin, and what follows.
const FORMS: [(&str, &str); 7] = [
    ("reset", "reset N, with at most 2^64 - 1 bits in all lines"),
    ("switch", "switch"),
    ("idle", "idle N, with at most 2^64 - 1 bits in all lines"),
    ("junk", "junk B"),
    ("cut", "cut BITS"),
    ("dp", "dp ADDR read RESULT or dp ADDR write RESULT"),
    ("ap", "ap ADDR read RESULT or ap ADDR write RESULT"),
];

// Returns what a line that begins with this word has to be.
fn form_of(word: &str) -> Option<&'static str> {
    for (begins, form) in FORMS {
        if begins == word {
            return Some(form);
        }
    }
    None
}

// A line that isn't one of a listing.
#[derive(Drop)]
struct BadLine(SeenLine);

impl Display for BadLine {
    fn fmt<W: fmt::Write>(&self, f: &mut Formatter<W>) -> fmt::Result {
        if let Some(byte) = self.0.odd_byte() {
            return odd(f, byte);
        }
        if self.0.is_returned() {
            return f.write_str("it ends with a carriage return; tr -d '\\r' drops these");
        }
        let text = self.0.text();
        match form_of(first_of(text)) {
            Some(form) => write!(f, "'{text}' isn't exactly {form}: see swd --help"),
            None if text.is_empty() => f.write_str(
                "there is no item: a listing has one on each line",
            ),
            None => write!(
                f,
                "'{text}' is no item; these begin with dp, ap, reset, switch, idle, junk and cut"
            ),
        }
    }
}

/// Prints that a line of a listing isn't one of an item, and why. Returns the status 2.
pub fn list_line_status<E: Write>(errors: &mut E, line: u64, list: &Seen) -> u8
    ensures { result ≡ 2 }
{
    let why = BadLine(list.line(line));
    let _ = writeln!(errors, "swd: list line {line}: bad line: {why}");
    FAULT
}
