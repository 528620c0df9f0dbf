//! What rows are made of.

use std::alloc::{AllocError, AllocFailed};

/// The reason why a row doesn't come out.
#[derive(Clone, Copy)]
pub enum Wrong<'t> {
    /// Out of memory.
    Memory,
    /// Something else came than this says, or it can't be read.
    Here(&'t str),
}

impl<'t> Wrong<'t> {
    /// Returns what is printed of it.
    pub fn told(self) -> &'t str {
        match self {
            Wrong::Memory => "out of memory",
            Wrong::Here(line) => line,
        }
    }
}

impl<'t> From<AllocError> for Wrong<'t> {
    fn from(_error: AllocError) -> Wrong<'t> {
        Wrong::Memory
    }
}

impl<'t, T: Drop> From<AllocFailed<T>> for Wrong<'t> {
    fn from(_error: AllocFailed<T>) -> Wrong<'t> {
        Wrong::Memory
    }
}

// What the lines behind a row's name begin with.
const BEGINNINGS: &[&str] = &[
    ">",
    "<",
    "~ ",
    "+",
    "* ",
    "size ",
    "over a target",
    "framed",
    "sent ",
    "reply ",
];

/// Returns a line that begins as none does, if there is one.
pub fn unknown(lines: &str) -> Option<&str> {
    lines.lines().find(|line| !BEGINNINGS.iter().any(|words| line.starts_with(*words)))
}

/// Returns the rest of the first line that begins with these words.
pub fn said<'t>(lines: &'t str, words: &str) -> Option<&'t str> {
    for line in lines.lines() {
        if let Some(rest) = line.strip_prefix(words) {
            return Some(rest);
        }
    }
    None
}

/// Returns whether a row has this line.
pub fn has(lines: &str, wanted: &str) -> bool {
    lines.lines().any(|line| line == wanted)
}

/// Adds the bytes that a text has, two hexadecimal digits each.
pub fn put_bytes<'t>(bytes: &mut Vec<u8>, text: &'t str) -> Result<(), Wrong<'t>> {
    for digits in text.split_ascii_whitespace() {
        let Ok(byte) = u8::from_str_radix(digits, 16) else {
            return Err(Wrong::Here(text));
        };
        bytes.push(byte)?;
    }
    Ok(())
}

/// Ends a row where this doesn't hold.
pub fn want<'t>(line: &'t str, holds: bool) -> Result<(), Wrong<'t>> {
    if holds {
        Ok(())
    } else {
        Err(Wrong::Here(line))
    }
}
