//! Prints registers by name, as far as SELECT is known.
ghost use Rattle.std.specs.Prelude.{◌≡◌, ◌+◌, ◌-◌, ◌<◌, ◌≤◌, ◌++◌, ◌∷◌, [], length};
ghost use Rattle.arrayvec.specs.ArrayString.{array_string_len};
ghost use Rattle.swd_bits.specs.Listing.{tx_line_address, tx_line_direction, tx_hex_digit, tx_line_outcome};
ghost use Rattle.swd_capture.specs.Names.{capture_ap_number, capture_ap_name, capture_bank_name};
ghost use Rattle.swd_capture.specs.Names.{capture_dp_4_name, capture_dp_bank_name, capture_dp_name};
ghost use Rattle.swd_capture.specs.Names.{capture_mem_ap_name, capture_register_name, capture_select_after};
ghost use Rattle.swd_capture.specs.Names.{capture_select_by_tx, capture_writes_select};
ghost use Rattle.swd_capture.specs.Printing.{capture_named_tx};

use crate::flags::{LONGEST_FLAGS, flagged_by, push_flags};
use arrayvec::ArrayString;
use swd_bits::{LONGEST_TX_LINE, Reg4, Request, Tx, TxEnd};
use swd_port::Select;
use swd_trace::Item;

// The most bytes of a register's name.
const LONGEST_REGISTER: usize = 30;

// The number of bytes of a listing line before the direction.
const BEHIND_ADDRESS: usize = 5;

/// The most bytes of a transaction's line with names.
pub(crate) const LONGEST_NAMED: usize = 3 + LONGEST_REGISTER + LONGEST_TX_LINE + LONGEST_FLAGS;

// Returns whether a request writes SELECT.
fn is_select_write(request: Request) -> bool
    ensures { result ≡ capture_writes_select request }
{
    match request.addr {
        Reg4::R8 => !request.ap && !request.read,
        Reg4::R0 | Reg4::R4 | Reg4::RC => false,
    }
}

// Returns what is known of SELECT after a transaction.
fn selected_by(select: Option<Select>, request: Request, end: TxEnd) -> Option<Select>
    ensures { result ≡ capture_select_by_tx select request end }
{
    match end {
        TxEnd::Moved { word, parity_ok } => {
            if !is_select_write(request) {
                select
            } else if parity_ok {
                Some(Select::of(word))
            } else {
                None
            }
        }
        TxEnd::Wait | TxEnd::Fault => select,
        TxEnd::NoAck(_) => None,
    }
}

/// Returns what is known of SELECT after an item.
pub(crate) fn selected_after(select: Option<Select>, item: &Item) -> Option<Select>
    ensures { result ≡ capture_select_after select item.now }
{
    match item {
        Item::Tx(tx) => selected_by(select, tx.request, tx.result),
        Item::Idle(_) => select,
        Item::Reset(_) | Item::Switch | Item::Junk(_) | Item::Cut(_) => None,
    }
}

fn banked_text(number: u8) -> &'static str
    ensures bytes { result.now ≡ capture_dp_bank_name number }
    ensures len { length result.now ≤ 10 }
{
    match number {
        0 => "ctrl/stat ",
        1 => "dlcr ",
        2 => "targetid ",
        3 => "dlpidr ",
        4 => "eventstat ",
        _ => "4 ",
    }
}

fn address_text(addr: Reg4) -> &'static str
    ensures bytes { result.now ≡ tx_line_address addr }
    ensures len { length result.now ≤ 10 }
{
    match addr {
        Reg4::R0 => "0 ",
        Reg4::R4 => "4 ",
        Reg4::R8 => "8 ",
        Reg4::RC => "c ",
    }
}

// Returns the name of a MEM-AP register, by bank and address.
fn mem_ap_text(number: u8, addr: Reg4) -> &'static str
    ensures bytes { result.now ≡ capture_mem_ap_name number addr }
    ensures len { length result.now ≤ 10 }
{
    match (number, addr) {
        (0, Reg4::R0) => "csw ",
        (0, Reg4::R4) => "tar ",
        (0, Reg4::R8) => "tar_high ",
        (0, Reg4::RC) => "drw ",
        (1, Reg4::R0) => "bd0 ",
        (1, Reg4::R4) => "bd1 ",
        (1, Reg4::R8) => "bd2 ",
        (1, Reg4::RC) => "bd3 ",
        (2, Reg4::R0) => "mbt ",
        (15, Reg4::R0) => "base_high ",
        (15, Reg4::R4) => "cfg ",
        (15, Reg4::R8) => "base ",
        (15, Reg4::RC) => "idr ",
        (_, addr) => address_text(addr),
    }
}

// Appends the number of an access port, unless it is 0.
fn push_ap_number<const N: usize>(text: &mut ArrayString<N>, number: u8)
    requires { array_string_len text.old + 4 ≤ N }
    ensures bytes { text.new.bytes ≡ text.old.bytes ++ capture_ap_number number }
    ensures len { array_string_len text.new ≤ array_string_len text.old + 4 }
{
    if number == 0 {
        return;
    }
    let mut digits = itoa::Buffer::new();
    text.push_str(digits.format(number));
    text.push_str(" ");
}

fn digit_text(digit: u8) -> &'static str
    requires { digit < 16 }
    ensures { result.now ≡ tx_hex_digit digit ∷ [] }
{
    match digit {
        0 => "0",
        1 => "1",
        2 => "2",
        3 => "3",
        4 => "4",
        5 => "5",
        6 => "6",
        7 => "7",
        8 => "8",
        9 => "9",
        10 => "a",
        11 => "b",
        12 => "c",
        13 => "d",
        14 => "e",
        _ => "f",
    }
}

// Appends the number of a bank as a hexadecimal digit, unless it is 0.
fn push_bank<const N: usize>(text: &mut ArrayString<N>, number: u8)
    requires { array_string_len text.old + 7 ≤ N }
    ensures bytes { text.new.bytes ≡ text.old.bytes ++ capture_bank_name number }
    ensures len { array_string_len text.new ≤ array_string_len text.old + 7 }
{
    if number == 0 {
        return;
    }
    text.push_str("bank ");
    text.push_str(digit_text(number % 16));
    text.push_str(" ");
}

// Appends the debug port's register at address 4.
fn push_banked<const N: usize>(text: &mut ArrayString<N>, select: Option<Select>)
    requires { array_string_len text.old + LONGEST_REGISTER ≤ N }
    ensures bytes { text.new.bytes ≡ text.old.bytes ++ capture_dp_4_name select }
    ensures len { array_string_len text.new ≤ array_string_len text.old + LONGEST_REGISTER }
{
    let Some(select) = select else {
        text.push_str("4 ");
        return;
    };
    push_bank(text, select.dpbanksel);
    text.push_str(banked_text(select.dpbanksel));
}

// Appends a register of the debug port.
fn push_dp_register<const N: usize>(
    text: &mut ArrayString<N>,
    select: Option<Select>,
    addr: Reg4,
    read: bool,
)
    requires { array_string_len text.old + LONGEST_REGISTER ≤ N }
    ensures bytes { text.new.bytes ≡ text.old.bytes ++ capture_dp_name select addr read }
    ensures len { array_string_len text.new ≤ array_string_len text.old + LONGEST_REGISTER }
{
    match addr {
        Reg4::R0 => text.push_str(if read { "dpidr " } else { "abort " }),
        Reg4::R4 => push_banked(text, select),
        Reg4::R8 => text.push_str(if read { "resend " } else { "select " }),
        Reg4::RC => text.push_str(if read { "rdbuff " } else { "targetsel " }),
    }
}

// Appends a register of an access port.
fn push_ap_register<const N: usize>(text: &mut ArrayString<N>, select: Option<Select>, addr: Reg4)
    requires { array_string_len text.old + LONGEST_REGISTER ≤ N }
    ensures bytes { text.new.bytes ≡ text.old.bytes ++ capture_ap_name select addr }
    ensures len { array_string_len text.new ≤ array_string_len text.old + LONGEST_REGISTER }
{
    let Some(select) = select else {
        text.push_str(address_text(addr));
        return;
    };
    push_ap_number(text, select.apsel);
    push_bank(text, select.apbanksel);
    text.push_str(mem_ap_text(select.apbanksel, addr));
}

// Appends the register of a request.
fn push_register<const N: usize>(
    text: &mut ArrayString<N>,
    select: Option<Select>,
    request: Request,
)
    requires { array_string_len text.old + LONGEST_REGISTER ≤ N }
    ensures bytes { text.new.bytes ≡ text.old.bytes ++ capture_register_name select request }
    ensures len { array_string_len text.new ≤ array_string_len text.old + LONGEST_REGISTER }
{
    if request.ap {
        push_ap_register(text, select, request.addr);
    } else {
        push_dp_register(text, select, request.addr, request.read);
    }
}

// Appends the rest of the listing line, after the address.
fn push_ending<const N: usize>(text: &mut ArrayString<N>, tx: &Tx)
    requires { array_string_len text.old + LONGEST_TX_LINE ≤ N }
    ensures bytes { text.new.bytes
        ≡ text.old.bytes ++ (tx_line_direction tx.now.request.read ++ tx_line_outcome tx.now.result) }
    ensures len { array_string_len text.new ≤ array_string_len text.old + LONGEST_TX_LINE }
{
    let line = tx.line();
    text.push_str(&line.as_str()[BEHIND_ADDRESS..]);
}

/// Appends a transaction's line with the register's name and the flags of its word, without the line feed.
pub(crate) fn push_named<const N: usize>(text: &mut ArrayString<N>, select: Option<Select>, tx: &Tx)
    requires { array_string_len text.old + LONGEST_NAMED ≤ N }
    ensures bytes { text.new.bytes ≡ text.old.bytes ++ capture_named_tx select tx.now }
    ensures len { array_string_len text.new ≤ array_string_len text.old + LONGEST_NAMED }
{
    text.push_str(if tx.request.ap { "ap " } else { "dp " });
    push_register(text, select, tx.request);
    push_ending(text, tx);
    push_flags(text, flagged_by(select, tx.request), tx.result);
}
