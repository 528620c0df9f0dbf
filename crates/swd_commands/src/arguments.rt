//! Takes the program's arguments as the system gives them.
ghost use Rattle.std.specs.Prelude.{◌≡◌, IfErr};

use crate::program::run_words;
use std::alloc::{AllocError, Allocator, Global};
use std::io;
use std::io::{ErrorKind, Read, Write};
use swd_console::{Clock, Console, Files, tell};

/// Carries out the arguments behind the program's name, as [`run_words`] does, or prints why they could not be read.
/// Returns the status.
///
/// The help calls the program `swd`, whatever the name of its file. `list` is the allocator of the list of words; all
/// else is allocated in the console's.
pub fn run_arguments<A: Allocator, I: Read, O: Write, F: Files, C: Clock, E: Write>(
    list: A,
    arguments: io::Result<Vec<String>>,
    input: &mut I,
    output: &mut O,
    console: &mut Console<'_, Global, F, C, E>,
) -> u8
    ensures unread { IfErr arguments (λ _. result ≡ 2) }
{
    let arguments = match arguments {
        Ok(arguments) => arguments,
        Err(error) if error.kind() == ErrorKind::InvalidData => {
            let why = "an argument is not UTF-8: rename the file, or link to it";
            return tell(console.errors, why);
        }
        Err(_) => return tell(console.errors, "no memory"),
    };
    match words_of(list, arguments.as_slice()) {
        Ok(words) => run_words(words.as_slice(), input, output, console),
        Err(_) => tell(console.errors, "no memory"),
    }
}

// The words of the command line.
fn words_of<'a, A: Allocator>(
    alloc: A,
    arguments: &'a [String],
) -> Result<Vec<&'a str, A>, AllocError> {
    let mut words = Vec::new(alloc);
    words.push("swd")?;
    for argument in arguments {
        words.push(argument.as_str())?;
    }
    Ok(words)
}
