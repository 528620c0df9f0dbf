//! Counts the parts of each kind.
ghost use Rattle.std.specs.Prelude.{◌≡◌, ◌+◌, ◌-◌, ◌/◌, ◌%◌, ◌^◌, ◌<◌, ◌≤◌, ◌++◌, ◌∷◌, [], length, Bool, List};
ghost use Rattle.arrayvec.specs.ArrayString.{array_string_len};
ghost use Rattle.swd_resync.specs.declared.part.Part.{Part};
ghost use Rattle.swd_trace.specs.declared.item.Item.TheVariants.{Tx as TxItem};
ghost use Rattle.swd_capture.specs.Tables.{capture_row_addr, capture_addr_rows, capture_direction_rows};
ghost use Rattle.swd_capture.specs.Tables.{capture_row_end, capture_tx_end_row, capture_item_row, capture_item_weight};
ghost use Rattle.swd_capture.specs.Tables.{capture_row_other, capture_port_rows, capture_row_line, capture_row_name};
ghost use Rattle.swd_capture.specs.Tables.{capture_part_row, capture_part_weight};

use arrayvec::ArrayString;
use swd_bits::{Reg4, Tx, TxEnd};
use swd_resync::Part;
use swd_trace::Item;

/// The number of rows of a table: one for each port, address, direction and result of a transaction, and for six other
/// kinds.
pub const ROWS: usize = 86;

// The number of rows of transactions.
const TRANSACTION_ROWS: usize = 80;

// The row of junk bits.
const JUNK_ROW: usize = 83;

/// The most bytes of a row's line, with its line feed.
pub(crate) const LONGEST_ROW: usize = 40;

/// The count of each kind of part, at most 2^64 - 1.
#[derive(Drop)]
pub(crate) struct Table {
    counts: [u64; ROWS],
}

fn row_of_end(end: TxEnd) -> usize
    ensures row { result ≡ capture_tx_end_row end }
    ensures within { result < 5 }
{
    match end {
        TxEnd::Moved { parity_ok, .. } => { if parity_ok { 0 } else { 1 } }
        TxEnd::Wait => 2,
        TxEnd::Fault => 3,
        TxEnd::NoAck(_) => 4,
    }
}

fn rows_of_port(ap: bool) -> usize
    ensures row { result ≡ capture_port_rows ap }
    ensures within { result ≤ 40 }
{
    if ap { 40 } else { 0 }
}

fn rows_of_addr(addr: Reg4) -> usize
    ensures row { result ≡ capture_addr_rows addr }
    ensures within { result ≤ 30 }
{
    match addr {
        Reg4::R0 => 0,
        Reg4::R4 => 10,
        Reg4::R8 => 20,
        Reg4::RC => 30,
    }
}

fn rows_of_direction(read: bool) -> usize
    ensures row { result ≡ capture_direction_rows read }
    ensures within { result ≤ 5 }
{
    if read { 0 } else { 5 }
}

fn row_of_tx(tx: &Tx) -> usize
    ensures row { result ≡ capture_item_row (TxItem tx.now) }
    ensures within { result < 80 }
{
    rows_of_port(tx.request.ap)
        + rows_of_addr(tx.request.addr)
        + rows_of_direction(tx.request.read)
        + row_of_end(tx.result)
}

// Returns the row in which an item is counted.
fn row_of_item(item: &Item) -> usize
    ensures row { result ≡ capture_item_row item.now }
    ensures within { result < ROWS }
{
    match item {
        Item::Tx(tx) => row_of_tx(tx),
        Item::Reset(_) => 80,
        Item::Switch => 81,
        Item::Idle(_) => 82,
        Item::Junk(_) => JUNK_ROW,
        Item::Cut(_) => 84,
    }
}

// Returns the row in which a part is counted.
fn row_of_part(part: &Part) -> usize
    ensures row { result ≡ capture_part_row part.now }
    ensures within { result < ROWS }
{
    match part {
        Part::Item(item) => row_of_item(item),
        Part::Phased(tx) => row_of_item(&Item::Tx(*tx)),
        Part::Skip(_) => 85,
    }
}

// Returns what an item adds to its row: a number of bits for idle cycles and cut ends, otherwise 1.
fn weight_of_item(item: &Item) -> u64
    ensures { result ≡ capture_item_weight item.now }
{
    match item {
        Item::Idle(count) => *count,
        Item::Cut(bits) => u64::from(bits.len),
        Item::Tx(_) | Item::Reset(_) | Item::Switch | Item::Junk(_) => 1,
    }
}

// Returns what a part adds to its row.
fn weight_of_part(part: &Part) -> u64
    ensures { result ≡ capture_part_weight part.now }
{
    match part {
        Part::Item(item) => weight_of_item(item),
        Part::Phased(tx) => weight_of_item(&Item::Tx(*tx)),
        Part::Skip(count) => *count,
    }
}

fn end_text(end: usize) -> &'static str
    ensures bytes { result.now ≡ capture_row_end end }
    ensures len { length result.now ≤ 6 }
{
    match end {
        0 => "ok",
        1 => "bad",
        2 => "wait",
        3 => "fault",
        _ => "none",
    }
}

fn other_text(row: usize) -> &'static str
    ensures bytes { result.now ≡ capture_row_other row }
    ensures len { length result.now ≤ 6 }
{
    match row {
        80 => "reset",
        81 => "switch",
        82 => "idle",
        83 => "junk",
        84 => "cut",
        _ => "skip",
    }
}

fn addr_text(number: usize) -> &'static str
    ensures bytes { result.now ≡ capture_row_addr number }
    ensures len { length result.now ≤ 2 }
{
    match number {
        0 => "0 ",
        1 => "4 ",
        2 => "8 ",
        _ => "c ",
    }
}

// Appends a row's name.
fn push_row_name<const N: usize>(text: &mut ArrayString<N>, row: usize)
    requires { array_string_len text.old + 17 ≤ N }
    ensures bytes { text.new.bytes ≡ text.old.bytes ++ capture_row_name row }
    ensures len { array_string_len text.new ≤ array_string_len text.old + 17 }
{
    if row < TRANSACTION_ROWS {
        text.push_str(if row / 40 == 0 { "dp " } else { "ap " });
        text.push_str(addr_text(row / 10 % 4));
        text.push_str(if row / 5 % 2 == 0 { "read " } else { "write " });
        text.push_str(end_text(row % 5));
    } else {
        text.push_str(other_text(row));
    }
}

// Appends a row's line and its line feed. Appends nothing if the count is 0.
fn push_row_line<const N: usize>(text: &mut ArrayString<N>, count: u64, row: usize)
    requires { array_string_len text.old + LONGEST_ROW ≤ N }
    ensures bytes { text.new.bytes ≡ text.old.bytes ++ capture_row_line count (capture_row_name row) }
    ensures len { array_string_len text.new ≤ array_string_len text.old + LONGEST_ROW }
{
    if count == 0 {
        return;
    }
    let mut digits = itoa::Buffer::new();
    text.push_str(digits.format(count));
    text.push_str(" ");
    push_row_name(text, row);
    text.push_str("\n");
}

impl Table {
    ghost use Rattle.swd_capture.specs.Printing.{capture_junk_parts};
    ghost use Rattle.swd_capture.specs.Tables.{IsCaptureTableOf, capture_row_printed};

    /// Returns an empty table.
    pub(crate) fn new() -> Table
        ensures { IsCaptureTableOf [] result }
    {
        Table { counts: [0; ROWS] }
    }

    /// Counts a part in its row.
    pub(crate) fn add(&mut self, part: &Part)
        ensures { (parts : List Part) → IsCaptureTableOf parts self.old
            → IsCaptureTableOf (parts ++ part.now ∷ []) self.new }
    {
        let row = row_of_part(part);
        self.counts[row] = self.counts[row].saturating_add(weight_of_part(part));
    }

    /// Counts junk bits, each of them a part.
    pub(crate) fn add_junk(&mut self, count: u8)
        ensures { (parts : List Part) (bits : List Bool) → length bits ≡ count → IsCaptureTableOf parts self.old
            → IsCaptureTableOf (parts ++ capture_junk_parts bits) self.new }
    {
        self.counts[JUNK_ROW] = self.counts[JUNK_ROW].saturating_add(u64::from(count));
    }

    /// Appends a row's line and its line feed. Appends nothing if the count is 0.
    pub(crate) fn push_row<const N: usize>(&self, row: usize, text: &mut ArrayString<N>)
        requires row { row < ROWS }
        requires room { array_string_len text.old + LONGEST_ROW ≤ N }
        ensures bytes { (parts : List Part) → IsCaptureTableOf parts self.now
            → text.new.bytes ≡ text.old.bytes ++ capture_row_printed parts row }
        ensures len { array_string_len text.new ≤ array_string_len text.old + LONGEST_ROW }
    {
        push_row_line(text, self.counts[row], row);
    }
}
