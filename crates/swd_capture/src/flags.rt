//! Prints the flags of a transaction's word.
ghost use Rattle.std.specs.Prelude.{◌≡◌, ◌+◌, ◌<◌, ◌≤◌, ◌++◌, length};
ghost use Rattle.arrayvec.specs.ArrayString.{array_string_len};
ghost use Rattle.swd_capture.specs.Flags.{capture_abort_flags, capture_csw_flags, capture_flag_name};
ghost use Rattle.swd_capture.specs.Flags.{capture_flagged_register, capture_word_flags, capture_tx_flags};
ghost use Rattle.swd_capture.specs.Flags.{capture_flags_in_bank, capture_ap_flagged, capture_dp_flagged};
ghost use Rattle.swd_capture.specs.Flags.{capture_power_flags, capture_sticky_flags};

use arrayvec::ArrayString;
use swd_bits::{Reg4, Request, TxEnd};
use swd_port::Select;

/// The most bytes of a word's flags.
pub(crate) const LONGEST_FLAGS: usize = 160;

/// A register whose word has flags.
#[derive(Clone, Copy)]
pub(crate) enum Flagged {
    Abort,
    CtrlStat,
    Csw,
    /// Any other register.
    Nothing,
}

// Returns the register if the bank is 0.
fn in_first_bank(bank: u8, which: Flagged) -> Flagged
    ensures { result ≡ capture_flags_in_bank bank which }
{
    if bank == 0 { which } else { Flagged::Nothing }
}

// Returns the debug port's register at an address.
fn of_debug_port(select: Option<Select>, addr: Reg4, read: bool) -> Flagged
    ensures { result ≡ capture_dp_flagged select addr read }
{
    match addr {
        Reg4::R0 => {
            if read {
                Flagged::Nothing
            } else {
                Flagged::Abort
            }
        }
        Reg4::R4 => match select {
            Some(select) => in_first_bank(select.dpbanksel, Flagged::CtrlStat),
            None => Flagged::Nothing,
        },
        Reg4::R8 | Reg4::RC => Flagged::Nothing,
    }
}

// Returns the access port's register at an address.
fn of_access_port(select: Option<Select>, addr: Reg4, read: bool) -> Flagged
    ensures { result ≡ capture_ap_flagged select addr read }
{
    let Some(select) = select else {
        return Flagged::Nothing;
    };
    match addr {
        Reg4::R0 => {
            if read {
                Flagged::Nothing
            } else {
                in_first_bank(select.apbanksel, Flagged::Csw)
            }
        }
        Reg4::R4 | Reg4::R8 | Reg4::RC => Flagged::Nothing,
    }
}

/// Returns the register whose flags the word of a transaction with this request has.
pub(crate) fn flagged_by(select: Option<Select>, request: Request) -> Flagged
    ensures { result ≡ capture_flagged_register select request }
{
    if request.ap {
        of_access_port(select, request.addr, request.read)
    } else {
        of_debug_port(select, request.addr, request.read)
    }
}

// Appends a space and a flag's name if its bit is set.
fn push_flag<const N: usize>(text: &mut ArrayString<N>, word: u32, place: u8, name: &'static str)
    requires place { place < 32 }
    requires room { array_string_len text.old + (1 + length name.now) ≤ N }
    ensures bytes { text.new.bytes ≡ text.old.bytes ++ capture_flag_name place name.now word }
    ensures len { array_string_len text.new ≤ array_string_len text.old + (1 + length name.now) }
{
    if word >> place & 1 == 1 {
        text.push_str(" ");
        text.push_str(name);
    }
}

fn push_abort_flags<const N: usize>(text: &mut ArrayString<N>, word: u32)
    requires { array_string_len text.old + LONGEST_FLAGS ≤ N }
    ensures bytes { text.new.bytes ≡ text.old.bytes ++ capture_abort_flags word }
    ensures len { array_string_len text.new ≤ array_string_len text.old + LONGEST_FLAGS }
{
    push_flag(text, word, 0, "dapabort");
    push_flag(text, word, 1, "stkcmpclr");
    push_flag(text, word, 2, "stkerrclr");
    push_flag(text, word, 3, "wderrclr");
    push_flag(text, word, 4, "orunerrclr");
}

fn push_sticky_flags<const N: usize>(text: &mut ArrayString<N>, word: u32)
    requires { array_string_len text.old + 70 ≤ N }
    ensures bytes { text.new.bytes ≡ text.old.bytes ++ capture_sticky_flags word }
    ensures len { array_string_len text.new ≤ array_string_len text.old + 70 }
{
    push_flag(text, word, 0, "orun_detect");
    push_flag(text, word, 1, "sticky_orun");
    push_flag(text, word, 4, "sticky_cmp");
    push_flag(text, word, 5, "sticky_err");
    push_flag(text, word, 6, "read_ok");
    push_flag(text, word, 7, "wdata_err");
}

fn push_power_flags<const N: usize>(text: &mut ArrayString<N>, word: u32)
    requires { array_string_len text.old + 80 ≤ N }
    ensures bytes { text.new.bytes ≡ text.old.bytes ++ capture_power_flags word }
    ensures len { array_string_len text.new ≤ array_string_len text.old + 80 }
{
    push_flag(text, word, 26, "cdbgrstreq");
    push_flag(text, word, 27, "cdbgrstack");
    push_flag(text, word, 28, "cdbgpwrupreq");
    push_flag(text, word, 29, "cdbgpwrupack");
    push_flag(text, word, 30, "csyspwrupreq");
    push_flag(text, word, 31, "csyspwrupack");
}

fn push_csw_flags<const N: usize>(text: &mut ArrayString<N>, word: u32)
    requires { array_string_len text.old + LONGEST_FLAGS ≤ N }
    ensures bytes { text.new.bytes ≡ text.old.bytes ++ capture_csw_flags word }
    ensures len { array_string_len text.new ≤ array_string_len text.old + LONGEST_FLAGS }
{
    push_flag(text, word, 6, "device_en");
    push_flag(text, word, 7, "tr_in_prog");
    push_flag(text, word, 23, "spiden");
    push_flag(text, word, 31, "dbg_sw_enable");
}

// Appends the set flags of a register's word.
fn push_flags_in<const N: usize>(text: &mut ArrayString<N>, which: Flagged, word: u32)
    requires { array_string_len text.old + LONGEST_FLAGS ≤ N }
    ensures bytes { text.new.bytes ≡ text.old.bytes ++ capture_word_flags which word }
    ensures len { array_string_len text.new ≤ array_string_len text.old + LONGEST_FLAGS }
{
    match which {
        Flagged::Abort => push_abort_flags(text, word),
        Flagged::CtrlStat => {
            push_sticky_flags(text, word);
            push_power_flags(text, word);
        }
        Flagged::Csw => push_csw_flags(text, word),
        Flagged::Nothing => {}
    }
}

/// Appends the set flags of a transaction's word. Appends nothing without a word or if its parity is wrong.
pub(crate) fn push_flags<const N: usize>(text: &mut ArrayString<N>, which: Flagged, end: TxEnd)
    requires { array_string_len text.old + LONGEST_FLAGS ≤ N }
    ensures bytes { text.new.bytes ≡ text.old.bytes ++ capture_tx_flags which end }
    ensures len { array_string_len text.new ≤ array_string_len text.old + LONGEST_FLAGS }
{
    if let TxEnd::Moved {
        word,
        parity_ok: true,
    } = end
    {
        push_flags_in(text, which, word);
    }
}
