//! Prints the parts of a capture one after another.
ghost use Rattle.std.specs.Prelude.{◌≡◌, ℕ, ◌+◌, ◌-◌, ◌^◌, ◌<◌, ◌≤◌, ◌++◌, ◌∷◌, [], List, length, min};
ghost use Rattle.arrayvec.specs.ArrayString.{array_string_len};
ghost use Rattle.swd_resync.specs.declared.part.Part.{Part};
ghost use Rattle.swd_resync.specs.AsItems.{resync_part_items};
ghost use Rattle.swd_trace.specs.Texts.{bits_of_items};
ghost use Rattle.swd_capture.specs.declared.printed.Printed.{Printed};
ghost use Rattle.swd_capture.specs.Names.{capture_select_from};
ghost use Rattle.swd_capture.specs.Printing.{capture_line_if, capture_part_line, capture_place_if};

use crate::junk_line::Tens;
use crate::names::{LONGEST_NAMED, push_named, selected_after};
use crate::printed::{LineForm, Printed};
use crate::table::{ROWS, Table};
use crate::watching::{LONGEST_SHOWN, Watching};
use arrayvec::ArrayString;
use swd_bits::TxBits;
use swd_observer::TraceObserver;
use swd_port::Select;
use swd_resync::{PHASE_BITS, Part};
use swd_trace::{Item, LONGEST_LINE};

// The most bytes of a place.
const LONGEST_PLACE: usize = 22;

/// The most bytes printed for one part, or for one row at the end: the lines of a transaction that waited, and of the
/// part. A line with a place is shorter.
pub const LONGEST_ENTRY: usize = 2 * LONGEST_SHOWN;

/// The most junk bits that one call takes.
pub const MOST_JUNK: u8 = 8;

/// A printer of the parts of a capture. It takes one part after another, and appends the output of each to a text. It
/// allocates nothing.
#[derive(Drop)]
pub struct Teller {
    telling: Telling,
}

// What a teller keeps, by what it prints.
#[derive(Drop)]
enum Telling {
    Lines(PartLines),
    Counts(Table),
    Accesses(Watching),
}

// What the lines of parts depend on.
#[derive(Drop)]
struct PartLines {
    form: LineForm,
    // The number of bits of the parts so far, at most 2^64 - 1.
    place: u64,
    // How the places of junk bits begin.
    tens: Tens,
    // What is known of SELECT.
    select: Option<Select>,
}

// Appends a place, if lines begin with it.
fn push_place<const N: usize>(text: &mut ArrayString<N>, places: bool, place: u64)
    requires { array_string_len text.old + LONGEST_PLACE ≤ N }
    ensures bytes { text.new.bytes ≡ text.old.bytes ++ capture_place_if places place }
    ensures len { array_string_len text.new ≤ array_string_len text.old + LONGEST_PLACE }
{
    if !places {
        return;
    }
    let mut digits = itoa::Buffer::new();
    text.push_str("@");
    text.push_str(digits.format(place));
    text.push_str(" ");
}

// Appends an item's line without the line feed, with names if `names`.
fn push_item_line<const N: usize>(
    text: &mut ArrayString<N>,
    names: bool,
    select: Option<Select>,
    item: &Item,
)
    requires { array_string_len text.old + LONGEST_LINE ≤ N }
    ensures bytes { text.new.bytes ≡ text.old.bytes ++ capture_line_if names select item.now }
    ensures len { array_string_len text.new ≤ array_string_len text.old + LONGEST_LINE }
{
    if names && let Item::Tx(tx) = item {
        push_named(text, select, tx);
    } else {
        item.push_line(text);
    }
}

// Appends a part's line without the line feed.
fn push_part_line<const N: usize>(
    text: &mut ArrayString<N>,
    names: bool,
    select: Option<Select>,
    part: &Part,
)
    requires { array_string_len text.old + LONGEST_LINE ≤ N }
    ensures bytes { text.new.bytes ≡ text.old.bytes ++ capture_part_line names select part.now }
    ensures len { array_string_len text.new ≤ array_string_len text.old + LONGEST_LINE }
{
    match part {
        Part::Item(item) => push_item_line(text, names, select, item),
        Part::Phased(tx) => push_item_line(text, names, select, &Item::Tx(*tx)),
        Part::Skip(_) => part.push_line(text),
    }
}

// Returns what is known of SELECT after a part.
fn selected_behind(select: Option<Select>, part: &Part) -> Option<Select>
    ensures { result ≡ capture_select_from select (resync_part_items part.now) }
{
    match part {
        Part::Item(item) => selected_after(select, item),
        Part::Phased(tx) => selected_after(select, &Item::Tx(*tx)),
        Part::Skip(count) => { if *count == 0 { select } else { None } }
    }
}

/// Returns the number of bits before the next part, at most 2^64 - 1.
pub(crate) fn place_behind_part(place: u64, part: &Part) -> u64
    ensures { result ≡ min (place + length (bits_of_items (resync_part_items part.now))) (2 ^ 64 - 1) }
{
    match part {
        Part::Item(item) => place.saturating_add(item.bit_count()),
        Part::Phased(tx) => place
            .saturating_add(Item::Tx(*tx).bit_count())
            .saturating_add(u64::from(PHASE_BITS)),
        Part::Skip(count) => place.saturating_add(*count),
    }
}

impl PartLines {
    ghost use Rattle.swd_bits.specs.BitLists.{tx_bits_of};
    ghost use Rattle.swd_capture.specs.Printing.{capture_junk_parts, capture_printed_entry, capture_printed_parts};
    ghost use Rattle.swd_capture.specs.declared.printed.Printed.TheVariants.{Lines};
    ghost use Rattle.swd_capture.specs.Tellers.{AreCaptureLinesAfter};

    // Returns the state before the first part.
    fn new(form: LineForm) -> PartLines
        ensures form { result.form ≡ form }
        ensures after { AreCaptureLinesAfter [] result }
    {
        PartLines {
            form,
            place: 0,
            tens: Tens::new(),
            select: None,
        }
    }

    // Appends the lines of junk bits, and updates place and SELECT once.
    fn tell_junk<const N: usize>(&mut self, junk: TxBits, text: &mut ArrayString<N>)
        requires few { junk.len ≤ MOST_JUNK }
        requires room { array_string_len text.old + LONGEST_ENTRY ≤ N }
        ensures form { self.new.form ≡ self.old.form }
        ensures after { (parts : List Part) → AreCaptureLinesAfter parts self.old
            → AreCaptureLinesAfter (parts ++ capture_junk_parts (tx_bits_of junk)) self.new }
        ensures bytes { (parts : List Part) → AreCaptureLinesAfter parts self.old
            → (more : List ℕ) × (text.new.bytes ≡ text.old.bytes ++ more)
            × (capture_printed_parts (Lines self.old.form) (parts ++ capture_junk_parts (tx_bits_of junk))
            ≡ capture_printed_parts (Lines self.old.form) parts ++ more) }
        ensures len { array_string_len text.new ≤ array_string_len text.old + LONGEST_ENTRY }
    {
        let mut place = self.place;
        let mut bits = junk.bits;
        let mut left = junk.len;
        while left > 0 {
            self.tens
                .push_junk(self.form.places, place, bits % 2 == 1, text);
            place = place.saturating_add(1);
            bits /= 2;
            left -= 1;
        }
        self.place = place;
        // They count as bits that were skipped.
        let skipped = Part::Skip(u64::from(junk.len));
        self.select = selected_behind(self.select, &skipped);
    }

    // Appends the part's line, and updates place and SELECT.
    fn tell<const N: usize>(&mut self, part: &Part, text: &mut ArrayString<N>)
        requires { array_string_len text.old + LONGEST_ENTRY ≤ N }
        ensures form { self.new.form ≡ self.old.form }
        ensures after { (parts : List Part) → AreCaptureLinesAfter parts self.old
            → AreCaptureLinesAfter (parts ++ part.now ∷ []) self.new }
        ensures bytes { (parts : List Part) → AreCaptureLinesAfter parts self.old
            → text.new.bytes ≡ text.old.bytes ++ capture_printed_entry (Lines self.old.form) parts part.now }
        ensures len { array_string_len text.new ≤ array_string_len text.old + LONGEST_ENTRY }
    {
        push_place(text, self.form.places, self.place);
        push_part_line(text, self.form.names, self.select, part);
        text.push_str("\n");
        self.place = place_behind_part(self.place, part);
        self.select = selected_behind(self.select, part);
    }
}

impl Teller {
    ghost use Rattle.swd_bits.specs.BitLists.{tx_bits_of};
    ghost use Rattle.swd_capture.specs.Printing.{capture_end_row_printed, capture_printed_entry, capture_junk_parts};
    ghost use Rattle.swd_capture.specs.Printing.{capture_row_count, capture_printed_parts};
    ghost use Rattle.swd_capture.specs.Tellers.{IsCaptureTellerAfter};

    /// Returns a teller that was given no parts.
    pub fn new(printed: Printed) -> Teller
        ensures { IsCaptureTellerAfter printed [] result }
    {
        let telling = match printed {
            Printed::Lines(form) => Telling::Lines(PartLines::new(form)),
            Printed::Counts => Telling::Counts(Table::new()),
            Printed::Accesses { start } => {
                Telling::Accesses(Watching::new(TraceObserver::of(start)))
            }
        };
        Teller { telling }
    }

    /// Takes the next part, and appends its output to `text`.
    pub fn tell<const N: usize>(&mut self, part: &Part, text: &mut ArrayString<N>)
        requires { array_string_len text.old + LONGEST_ENTRY ≤ N }
        ensures after { (printed : Printed) (parts : List Part)
            → IsCaptureTellerAfter printed parts self.old
            → IsCaptureTellerAfter printed (parts ++ part.now ∷ []) self.new }
        ensures bytes { (printed : Printed) (parts : List Part)
            → IsCaptureTellerAfter printed parts self.old
            → text.new.bytes ≡ text.old.bytes ++ capture_printed_entry printed parts part.now }
        ensures len { array_string_len text.new ≤ array_string_len text.old + LONGEST_ENTRY }
    {
        match &mut self.telling {
            Telling::Lines(lines) => lines.tell(part, text),
            Telling::Counts(table) => table.add(part),
            Telling::Accesses(watching) => watching.watch(part, text),
        }
    }

    /// Takes junk bits, each of them the next part of a trace, and appends their output to `text`. `tell` does the same
    /// for one of them; this call is faster.
    pub fn tell_junk<const N: usize>(&mut self, junk: TxBits, text: &mut ArrayString<N>)
        requires few { junk.len ≤ MOST_JUNK }
        requires room { array_string_len text.old + LONGEST_ENTRY ≤ N }
        ensures after { (printed : Printed) (parts : List Part)
            → IsCaptureTellerAfter printed parts self.old
            → IsCaptureTellerAfter printed (parts ++ capture_junk_parts (tx_bits_of junk)) self.new }
        ensures bytes { (printed : Printed) (parts : List Part)
            → IsCaptureTellerAfter printed parts self.old
            → (more : List ℕ) × (text.new.bytes ≡ text.old.bytes ++ more)
            × (capture_printed_parts printed (parts ++ capture_junk_parts (tx_bits_of junk))
            ≡ capture_printed_parts printed parts ++ more) }
        ensures len { array_string_len text.new ≤ array_string_len text.old + LONGEST_ENTRY }
    {
        match &mut self.telling {
            Telling::Lines(lines) => lines.tell_junk(junk, text),
            Telling::Counts(table) => table.add_junk(junk.len),
            Telling::Accesses(watching) => {
                if junk.len > 0 {
                    // After the first of them nothing is known of the target.
                    watching.flush(text);
                    watching.lose(u64::from(junk.len), text);
                }
            }
        }
    }

    /// Returns how many rows are printed at the end.
    pub fn rows(&self) -> usize
        ensures count { (printed : Printed) (parts : List Part)
            → IsCaptureTellerAfter printed parts self.now
            → result ≡ capture_row_count printed }
        ensures most { result ≤ ROWS }
    {
        match &self.telling {
            Telling::Lines(_) => 0,
            Telling::Counts(_) => ROWS,
            Telling::Accesses(_) => 2,
        }
    }

    /// Appends a row of the end to `text`.
    pub fn push_row<const N: usize>(&self, row: usize, text: &mut ArrayString<N>)
        requires row { row < ROWS }
        requires room { array_string_len text.old + LONGEST_ENTRY ≤ N }
        ensures bytes { (printed : Printed) (parts : List Part)
            → IsCaptureTellerAfter printed parts self.now
            → text.new.bytes ≡ text.old.bytes ++ capture_end_row_printed printed parts row }
        ensures len { array_string_len text.new ≤ array_string_len text.old + LONGEST_ENTRY }
    {
        match &self.telling {
            Telling::Lines(_) => {}
            Telling::Counts(table) => table.push_row(row, text),
            Telling::Accesses(watching) => {
                if row == 0 {
                    watching.push_held(text);
                } else {
                    watching.push_last(text);
                }
            }
        }
    }
}
