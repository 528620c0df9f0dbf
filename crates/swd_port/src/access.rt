//! Accesses of a bus, their answers, and the transfers in its log.
ghost use Rattle.std.specs.Prelude.{◌≡◌, ◌+◌, ◌*◌, ◌≤◌, ◌<◌, ◌^◌, ◌++◌, OnErr, OnOk, ℕ};
ghost use Rattle.swd_port.specs.PlainAnswers.{plain_reads};

use std::alloc::{AllocError, Allocator};
use std::fmt;

/// The maximum number of accesses in one call of a host.
pub const MOST_ACCESSES: u32 = 65_536;

/// One access of the bus behind the access port: a word at a byte address that is a multiple of 4.
#[derive(Clone, Copy, Debug, PartialEq, Eq)]
pub enum Access {
    /// A read of the word at this address.
    Read(u32),
    /// A write at this address of this word.
    Write(u32, u32),
}

/// The result of an access.
#[derive(Clone, Copy, Debug, PartialEq, Eq)]
pub enum Answer {
    /// The word that was read.
    Value(u32),
    /// The word was written.
    Written,
    /// A bus error. A plain memory is then as it was before; another bus may have changed.
    BusFault,
}

/// A transfer that succeeded, as logged by the bus.
#[derive(Clone, Copy, Debug, PartialEq, Eq)]
pub struct Transfer {
    /// Whether it was a read, not a write.
    pub read: bool,
    /// The address, in bytes.
    pub addr: u32,
    /// The word that was read or written.
    pub word: u32,
}

/// Writes the access as a line of a script: `r 20000000` or `w 20000000 deadbeef`, in hexadecimal.
impl fmt::Display for Access {
    fn fmt<W: fmt::Write>(&self, f: &mut fmt::Formatter<W>) -> fmt::Result {
        match self {
            Access::Read(addr) => write!(f, "r {addr:08x}"),
            Access::Write(addr, word) => write!(f, "w {addr:08x} {word:08x}"),
        }
    }
}

/// Writes the answer as a report has it: the word in hexadecimal, `written` or `busfault`.
impl fmt::Display for Answer {
    fn fmt<W: fmt::Write>(&self, f: &mut fmt::Formatter<W>) -> fmt::Result {
        match self {
            Answer::Value(word) => write!(f, "{word:08x}"),
            Answer::Written => f.write_str("written"),
            Answer::BusFault => f.write_str("busfault"),
        }
    }
}

/// Appends the reads of a block to a list: `count` words at `addr`, `addr + 4` and so on.
///
/// # Errors
///
/// Returns `AllocError` if out of memory. The first of the reads were appended then, or none.
pub fn push_reads<A: Allocator>(
    list: &mut Vec<Access, A>,
    addr: u32,
    count: u32,
) -> Result<(), AllocError>
    requires { addr + 4 * count ≤ 2 ^ 32 }
    ensures whole { OnOk result (list.new.items ≡ list.old.items ++ plain_reads addr count) }
    ensures part { OnErr result ((done : ℕ) × (done < count)
        × (list.new.items ≡ list.old.items ++ plain_reads addr done)) }
{
    for index in 0..count {
        list.push(Access::Read(addr + 4 * index))?;
    }
    Ok(())
}
