//! The accesses of a script that works at a core.
ghost use Rattle.std.specs.Prelude.{◌≡◌, ◌≤◌, ◌+◌, ◌++◌, codes};
ghost use Rattle.std.specs.Fmt.{decimal};
ghost use Rattle.arrayvec.specs.ArrayString.{array_string_len};
ghost use Rattle.swd_bits.specs.Listing.{hex8};
ghost use Rattle.swd_core.specs.Steps.{core_step_line};

use arrayvec::ArrayString;
use swd_bits::push_word;
use swd_script::Until;

/// The most reads of a register that is waited for.
pub(crate) const MOST_READS: u32 = 1000;

pub(crate) const CPUID: u32 = 0xe000_ed00;

pub(crate) const AIRCR: u32 = 0xe000_ed0c;

pub(crate) const DFSR: u32 = 0xe000_ed30;

pub(crate) const DHCSR: u32 = 0xe000_edf0;

pub(crate) const DCRSR: u32 = 0xe000_edf4;

pub(crate) const DCRDR: u32 = 0xe000_edf8;

pub(crate) const DEMCR: u32 = 0xe000_edfc;

/// An access of a script.
#[derive(Clone, Copy, Debug, PartialEq, Eq)]
pub enum CoreStep {
    /// A read of a byte address.
    Read(u32),
    /// A write of a word to a byte address.
    Write(u32, u32),
    /// A read that is made again until its word comes.
    Until(Until),
}

// A line of a script.
pub(crate) type StepLine = ArrayString<64>;

// Appends a space and the digits of a word.
fn push_next(line: &mut StepLine, word: u32)
    requires { array_string_len line.old + 9 ≤ 64 }
    ensures bytes { line.new.bytes ≡ line.old.bytes ++ codes " " ++ hex8 word }
    ensures len { array_string_len line.new ≡ array_string_len line.old + 9 }
{
    line.push_str(" ");
    push_word(line, word);
}

// Appends a space and the decimal digits of a number.
fn push_count(line: &mut StepLine, count: u32)
    requires { array_string_len line.old ≤ 48 }
    ensures { line.new.bytes ≡ line.old.bytes ++ codes " " ++ decimal count }
{
    let mut digits = itoa::Buffer::new();
    line.push_str(" ");
    line.push_str(digits.format(count));
}

impl CoreStep {
    /// Returns the line of a script for it, without its line feed.
    pub(crate) fn line(&self) -> StepLine
        ensures { result.bytes ≡ core_step_line self.now }
    {
        let mut line = StepLine::new();
        match *self {
            CoreStep::Read(addr) => {
                line.push_str("r");
                push_next(&mut line, addr);
            }
            CoreStep::Write(addr, word) => {
                line.push_str("w");
                push_next(&mut line, addr);
                push_next(&mut line, word);
            }
            CoreStep::Until(until) => {
                line.push_str("until");
                push_next(&mut line, until.addr);
                push_next(&mut line, until.mask);
                push_next(&mut line, until.value);
                push_count(&mut line, until.most);
            }
        }
        line
    }
}
