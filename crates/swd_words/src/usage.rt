//! Finds the line that `clap` prints of a command's arguments, and the list of the commands.

use crate::words::swd_command;
use std::alloc::Global;

// Returns the first line with this start that `clap` prints for these arguments, if there is one.
fn printed_line(alloc: Global, words: &[&str], start: &str) -> Option<String> {
    let Err(error) = swd_command(alloc).ok()?.try_get_matches_from(words) else {
        return None;
    };
    let text = format!(in alloc; "{error}").ok()?;
    for line in text.as_str().split('\n') {
        if line.starts_with(start) {
            return String::from_str(alloc, line).ok();
        }
    }
    None
}

/// Returns the line of a command's arguments, as `Usage: swd one [FILE]`, or `None` when out of memory.
///
/// `words` are the arguments, the program's name first. Without a command the line is the program's.
pub fn usage_line(alloc: Global, words: &[&str]) -> Option<String> {
    match words.get(1) {
        Some(name) => printed_line(alloc, ["swd", *name, "--help"].as_slice(), "Usage: "),
        None => printed_line(alloc, ["swd", "--help"].as_slice(), "Usage: "),
    }
}

/// Returns the line with the names of all commands, or `None` when out of memory.
pub fn commands_line(alloc: Global) -> Option<String> {
    printed_line(alloc, ["swd"].as_slice(), "  [subcommands: ")
}
