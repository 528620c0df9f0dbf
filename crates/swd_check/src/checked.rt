//! The verdict on a trace, in one line.
ghost use Rattle.std.specs.Prelude.{◌≡◌, ◌+◌, ◌<◌, ◌≤◌, ◌++◌, ℕ, List, length};
ghost use Rattle.std.specs.Fmt.{decimal};
ghost use Rattle.arrayvec.specs.ArrayString.{array_string_len};
ghost use Rattle.swd_check.specs.Lines.{check_line, check_broken, check_counted, check_from, check_outside};

use crate::leaving::Leaving;
use crate::why::{Broken, LONGEST_WHY};
use arrayvec::ArrayString;
use swd_trace::{Item, LONGEST_LINE};

/// The most bytes of a verdict's line.
pub const LONGEST_CHECKED: usize = 100 + LONGEST_LINE + LONGEST_WHY;

/// What a check says of the items that it took.
#[derive(Clone, Copy, Debug, PartialEq, Eq)]
pub enum Checked {
    /// Some run of the port model explains them.
    Fits {
        /// The number of items.
        items: u64,
        /// The place from which on they were checked, if that isn't the beginning.
        from: Option<u64>,
        /// The least number of requests that were damaged or lost.
        faults: u64,
        /// The number of gaps, which weren't checked.
        gaps: u64,
    },
    /// No run explains the items up to this one.
    Breaks(Broken),
    /// It isn't decided: at this place there were more worlds than a checker holds.
    Crowded {
        place: u64,
    },
    /// It isn't decided: at this place the session left the model, though the target may keep the standard.
    Outside {
        place: u64,
        why: Leaving,
    },
}

impl Checked {
    /// Returns the line, without the line feed.
    pub fn line(&self) -> ArrayString<LONGEST_CHECKED>
        ensures bytes { (why : List ℕ) × (result.bytes ≡ check_line self.now why) }
        ensures len { array_string_len result < LONGEST_CHECKED }
    {
        let mut line = ArrayString::new();
        match self {
            Checked::Fits {
                items,
                from,
                faults,
                gaps,
            } => {
                line.push_str("fits ");
                push_count(&mut line, *items);
                push_from(&mut line, *from);
                push_counted(&mut line, " faults ", *faults);
                push_counted(&mut line, " gaps ", *gaps);
            }
            Checked::Breaks(broken) => push_broken(&mut line, broken),
            Checked::Crowded { place } => {
                line.push_str("crowded @");
                push_count(&mut line, *place);
            }
            Checked::Outside { place, why } => push_outside(&mut line, *place, why),
        }
        line
    }
}

type Line = ArrayString<LONGEST_CHECKED>;

// Appends a number.
fn push_count(line: &mut Line, count: u64)
    requires { array_string_len line.old + 20 ≤ LONGEST_CHECKED }
    ensures bytes { line.new.bytes ≡ line.old.bytes ++ decimal count }
    ensures len { array_string_len line.new ≤ array_string_len line.old + 20 }
{
    let mut digits = itoa::Buffer::new();
    line.push_str(digits.format(count));
}

// Appends the place from which on items were checked.
fn push_from(line: &mut Line, from: Option<u64>)
    requires { array_string_len line.old + 27 ≤ LONGEST_CHECKED }
    ensures bytes { line.new.bytes ≡ line.old.bytes ++ check_from from }
    ensures len { array_string_len line.new ≤ array_string_len line.old + 27 }
{
    if let Some(place) = from {
        line.push_str(" from @");
        push_count(line, place);
    }
}

// Appends a count and its name, if it isn't 0.
fn push_counted(line: &mut Line, name: &str, count: u64)
    requires { array_string_len line.old + length name.now + 20 ≤ LONGEST_CHECKED }
    ensures bytes { line.new.bytes ≡ line.old.bytes ++ check_counted name.now count }
    ensures len { array_string_len line.new ≤ array_string_len line.old + length name.now + 20 }
{
    if count > 0 {
        line.push_str(name);
        push_count(line, count);
    }
}

// Appends where the session left the model, and why.
fn push_outside(line: &mut Line, place: u64, left: &Leaving)
    requires { array_string_len line.old ≤ 0 }
    ensures bytes { (why : List ℕ) × (line.new.bytes ≡ line.old.bytes ++ check_outside place why) }
    ensures len { array_string_len line.new < LONGEST_CHECKED }
{
    line.push_str("outside @");
    push_count(line, place);
    line.push_str(": ");
    line.push_str(left.text().as_str());
}

// Appends the item that breaks a rule, and why.
fn push_broken(line: &mut Line, broken: &Broken)
    requires { array_string_len line.old ≤ 0 }
    ensures bytes { (why : List ℕ) × (line.new.bytes ≡ line.old.bytes ++ check_broken broken.now why) }
    ensures len { array_string_len line.new < LONGEST_CHECKED }
{
    line.push_str("breaks @");
    push_count(line, broken.place);
    line.push_str(" ");
    Item::Tx(broken.tx).push_line(line);
    line.push_str(": ");
    line.push_str(broken.why.text().as_str());
}
