//! Plans: a mark for each request.
ghost use Rattle.std.specs.Prelude.{◌≡◌, [], ℕ, List, Ok, OnOk, IfErr, IfOk, IfSome, option_copied};
ghost use Rattle.swd_io.specs.Pieces.{IsReaderText, IsUnreadByConsumer};
ghost use Rattle.swd_script.specs.Numerals.{script_decimal_number as decimal_in};
ghost use Rattle.swd_script.specs.Plans.{plan_file_bare_mark, plan_file_mark, plan_file_place, plan_file_placed_mark};
ghost use Rattle.swd_script.specs.Plans.{plan_file_line, plan_of};
ghost use Rattle.swd_script.specs.Readers.{IsScriptLineFault, IsPlanFileFault};
ghost use Rattle.swd_script.specs.Words.{texts_of, texts};

use crate::fault::{LineFault, ScriptFault};
use crate::line_reader::{LineReader, LineSink, read_lines};
use crate::numeral::decimal_of;
use crate::words::{FirstWords, Word};
use std::alloc::Allocator;
use std::io::Read;
use swd_io::Unread;
use swd_port::Mark;

/// A reader of a plan, which takes the file in pieces (`Consumer::take`). It returns the marks of the whole
/// file.
pub type PlanReader<A> = LineReader<Vec<Mark, A>>;

impl<A: Allocator> LineReader<Vec<Mark, A>> {
    ghost use Rattle.swd_script.specs.Readers.{ReadsScriptLines, TookPlanFileLines};

    /// Returns a reader before the first byte.
    pub fn new(alloc: A) -> PlanReader<A>
        ensures { ReadsScriptLines TookPlanFileLines result [] }
    {
        LineReader::over(Vec::new(alloc))
    }
}

impl<A: Allocator> LineSink for Vec<Mark, A> {
    ghost use Rattle.swd_script.specs.Readers.{TookPlanFileLines};

    type Whole = Vec<Mark, A>;

    ghost took = { TookPlanFileLines };

    ghost says = { λ text marks. plan_of text ≡ Ok marks.items };

    ghost refuses = { IsPlanFileFault };

    fn add_line(&mut self, _number: u64, words: Option<&FirstWords>) -> Result<(), LineFault> {
        add_mark(self, words)
    }

    fn whole(self, _last: u64) -> Result<Vec<Mark, A>, ScriptFault> {
        Ok(self)
    }
}

/// Reads a plan to its end or to the first error, and returns its marks. Nothing is retried.
///
/// # Errors
///
/// The first error of the file, or `Memory` if memory ran out for the marks. `Reader` if the reader failed,
/// or didn't end within 2^64 - 1 reads.
pub fn read_plan<R: Read, A: Allocator>(
    alloc: A,
    reader: &mut R,
) -> Result<Vec<Mark, A>, Unread<ScriptFault>>
    ensures ok { IfOk result (λ marks.
        (text : List ℕ) × IsReaderText (R.remaining reader.old) text × (plan_of text ≡ Ok marks.items)) }
    ensures err { IfErr result (λ unread. IfSome (R.remaining reader.old) (IsUnreadByConsumer IsPlanFileFault unread)) }
{
    read_lines(Vec::new(alloc), reader)
}

// Adds the mark of a line with these first words. `None` stands for a line with an invalid byte. A line
// without words has no mark.
fn add_mark<A: Allocator>(
    marks: &mut Vec<Mark, A>,
    words: Option<&FirstWords>,
) -> Result<(), LineFault>
    ensures ok { OnOk result (plan_file_line marks.old.items (texts_of (option_copied words.entry))
        ≡ Ok marks.new.items) }
    ensures err { IfErr result (λ fault. IsScriptLineFault fault
        (plan_file_line marks.old.items (texts_of (option_copied words.entry)))) }
{
    let Some(words) = words else {
        return Err(LineFault::Word);
    };
    if words.is_empty() {
        return Ok(());
    }
    match marks.push(mark_of(words.as_slice())?) {
        Ok(()) => Ok(()),
        Err(_) => Err(LineFault::Memory),
    }
}

// Returns the mark of a line's first words.
fn mark_of(words: &[Word]) -> Result<Mark, LineFault>
    ensures { result ≡ plan_file_mark (texts words.now) }
{
    match words {
        [name] => bare_mark(name.as_slice()),
        [name, place] => placed_mark(name.as_slice(), place.as_slice()),
        _ => Err(LineFault::Word),
    }
}

// Returns the mark without argument that has this name.
fn bare_mark(name: &[u8]) -> Result<Mark, LineFault>
    ensures { result ≡ plan_file_bare_mark name.now }
{
    if name == b".".as_slice() {
        return Ok(Mark::Clean);
    }
    if name == b"wait".as_slice() {
        return Ok(Mark::Wait);
    }
    if name == b"deaf".as_slice() {
        return Ok(Mark::Deaf);
    }
    Err(LineFault::Word)
}

// Returns the mark with this name and bit: one of the 33 bits of a data phase, or of the three of an
// acknowledgement.
fn placed_mark(name: &[u8], place: &[u8]) -> Result<Mark, LineFault>
    ensures { result ≡ plan_file_placed_mark name.now place.now }
{
    if name == b"flip".as_slice() {
        return Ok(Mark::Flip(place_below(33, place)?));
    }
    if name == b"mute".as_slice() {
        return Ok(Mark::Mute(place_below(3, place)?));
    }
    Err(LineFault::Word)
}

// Parses a bit number below a limit.
fn place_below(limit: u8, place: &[u8]) -> Result<u8, LineFault>
    ensures { result ≡ plan_file_place limit (decimal_in place.now) }
{
    let Some(place) = decimal_of(place) else {
        return Err(LineFault::Number);
    };
    if place < u32::from(limit) {
        Ok(place as u8)
    } else {
        Err(LineFault::Range)
    }
}
