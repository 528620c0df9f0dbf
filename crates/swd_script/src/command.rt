//! The commands of a script.
ghost use Rattle.std.specs.Prelude.{◌≡◌};
ghost use Rattle.swd_script.specs.Scripts.{script_bare_command, script_command_of, script_long_command};
ghost use Rattle.swd_script.specs.Scripts.{script_short_command, script_until_command};
ghost use Rattle.swd_script.specs.Words.{texts};

use crate::numeral::{decimal_of, hex_of};
use crate::words::Word;

/// A command of a script. `None` stands for an argument that isn't a valid number.
#[derive(Clone, Copy)]
pub(crate) enum Command {
    /// The memory: the address of its first word, and its number of words.
    Memory {
        base: Option<u32>,
        words: Option<u32>,
    },
    /// The number of transfers that fit in the memory's log.
    Room {
        count: Option<u32>,
    },
    /// A core beside the memory: the address of its vector table.
    Core {
        table: Option<u32>,
    },
    /// A read.
    Read {
        addr: Option<u32>,
    },
    /// A write.
    Write {
        addr: Option<u32>,
        value: Option<u32>,
    },
    /// Reads at an address, at the address plus 4, and so on.
    ReadMany {
        addr: Option<u32>,
        count: Option<u32>,
    },
    /// The same reads as one block.
    Block {
        addr: Option<u32>,
        count: Option<u32>,
    },
    /// A read, and the word that it is expected to return.
    Verify {
        addr: Option<u32>,
        value: Option<u32>,
    },
    /// A read that is made again until its word under a mask is a value, at most `most` times.
    Until {
        addr: Option<u32>,
        mask: Option<u32>,
        value: Option<u32>,
        most: Option<u32>,
    },
    /// The start of a further call.
    Next,
}

/// Returns the command of a line's first words. Returns `None` if the command is unknown, or has a wrong
/// number of arguments.
pub(crate) fn command_of(words: &[Word]) -> Option<Command>
    ensures { result ≡ script_command_of (texts words.now) }
{
    match words {
        [name] => bare_command(name.as_slice()),
        [name, first] => short_command(name.as_slice(), first.as_slice()),
        [name, first, second] => {
            long_command(name.as_slice(), first.as_slice(), second.as_slice())
        }
        [name, addr, mask, value, most] => until_command(
            name.as_slice(),
            addr.as_slice(),
            mask.as_slice(),
            value.as_slice(),
            most.as_slice(),
        ),
        _ => None,
    }
}

// Returns the command without arguments that has this name.
fn bare_command(name: &[u8]) -> Option<Command>
    ensures { result ≡ script_bare_command name.now }
{
    if name == b"next".as_slice() {
        Some(Command::Next)
    } else {
        None
    }
}

// Returns the command with one argument that has this name.
fn short_command(name: &[u8], first: &[u8]) -> Option<Command>
    ensures { result ≡ script_short_command name.now first.now }
{
    if name == b"room".as_slice() {
        return Some(Command::Room {
            count: decimal_of(first),
        });
    }
    if name == b"r".as_slice() {
        return Some(Command::Read {
            addr: hex_of(first),
        });
    }
    if name == b"core".as_slice() {
        return Some(Command::Core {
            table: hex_of(first),
        });
    }
    None
}

// Returns the command with two arguments that has this name.
fn long_command(name: &[u8], first: &[u8], second: &[u8]) -> Option<Command>
    ensures { result ≡ script_long_command name.now first.now second.now }
{
    if name == b"memory".as_slice() {
        return Some(Command::Memory {
            base: hex_of(first),
            words: decimal_of(second),
        });
    }
    if name == b"w".as_slice() {
        return Some(Command::Write {
            addr: hex_of(first),
            value: hex_of(second),
        });
    }
    if name == b"rn".as_slice() {
        return Some(Command::ReadMany {
            addr: hex_of(first),
            count: decimal_of(second),
        });
    }
    if name == b"block".as_slice() {
        return Some(Command::Block {
            addr: hex_of(first),
            count: decimal_of(second),
        });
    }
    if name == b"verify".as_slice() {
        return Some(Command::Verify {
            addr: hex_of(first),
            value: hex_of(second),
        });
    }
    None
}

// Returns the command with four arguments that has this name.
fn until_command(
    name: &[u8],
    addr: &[u8],
    mask: &[u8],
    value: &[u8],
    most: &[u8],
) -> Option<Command>
    ensures { result ≡ script_until_command name.now addr.now mask.now value.now most.now }
{
    if name == b"until".as_slice() {
        return Some(Command::Until {
            addr: hex_of(addr),
            mask: hex_of(mask),
            value: hex_of(value),
            most: decimal_of(most),
        });
    }
    None
}
