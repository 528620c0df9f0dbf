//! The listing line of a transaction, on the stack.
ghost use Rattle.std.specs.Prelude.{◌≡◌, ◌+◌, ◌<◌, ◌≤◌, ◌++◌, ◌∷◌, []};
ghost use Rattle.std.specs.Fmt.{decimal};
ghost use Rattle.arrayvec.specs.ArrayString.{array_string_len};
ghost use Rattle.swd_bits.specs.Listing.{tx_hex_digit, hex2, hex8, tx_line};

use crate::request::Reg4;
use crate::tx::{Tx, TxEnd};
use arrayvec::ArrayString;
use std::fmt;

/// The maximum length of a transaction's listing line in bytes, without its line feed.
pub const LONGEST_TX_LINE: usize = 32;

/// The listing line of a transaction, with room for a line feed.
pub type TxLine = ArrayString<40>;

fn digit_text(digit: u8) -> &'static str
    requires { digit < 16 }
    ensures { result.now ≡ tx_hex_digit digit ∷ [] }
{
    match digit {
        0 => "0",
        1 => "1",
        2 => "2",
        3 => "3",
        4 => "4",
        5 => "5",
        6 => "6",
        7 => "7",
        8 => "8",
        9 => "9",
        10 => "a",
        11 => "b",
        12 => "c",
        13 => "d",
        14 => "e",
        _ => "f",
    }
}

#[tactic(auto, unfolding(crate::specs::Listing::hex2))]
fn push_byte<const N: usize>(text: &mut ArrayString<N>, byte: u8)
    requires { array_string_len text.old + 2 ≤ N }
    ensures bytes { text.new.bytes ≡ text.old.bytes ++ hex2 byte }
    ensures len { array_string_len text.new ≡ array_string_len text.old + 2 }
{
    text.push_str(digit_text(byte / 16));
    text.push_str(digit_text(byte % 16));
}

/// Appends the eight lower-case hexadecimal digits of a word.
#[tactic(auto, unfolding(crate::specs::Listing::hex8))]
pub fn push_word<const N: usize>(text: &mut ArrayString<N>, word: u32)
    requires { array_string_len text.old + 8 ≤ N }
    ensures bytes { text.new.bytes ≡ text.old.bytes ++ hex8 word }
    ensures len { array_string_len text.new ≡ array_string_len text.old + 8 }
{
    push_byte(text, (word >> 24) as u8);
    push_byte(text, ((word >> 16) % 256) as u8);
    push_byte(text, ((word >> 8) % 256) as u8);
    push_byte(text, (word % 256) as u8);
}

fn push_count<const N: usize>(text: &mut ArrayString<N>, n: u8)
    requires { array_string_len text.old + 3 ≤ N }
    ensures bytes { text.new.bytes ≡ text.old.bytes ++ decimal n }
    ensures len { array_string_len text.new ≤ array_string_len text.old + 3 }
{
    let mut digits = itoa::Buffer::new();
    text.push_str(digits.format(n));
}

impl Tx {
    /// Returns the listing line of the transaction, without its line feed: `PORT A DIR RESULT`, as in
    /// `dp 0 read ok 2ba01477` or `ap c write none 7`.
    ///
    /// `Display` writes the same bytes. This call can't fail, and its contract states the bytes.
    pub fn line(&self) -> TxLine
        ensures bytes { result.bytes ≡ tx_line self.now }
        ensures len { array_string_len result ≤ LONGEST_TX_LINE }
    {
        let mut text = TxLine::new();
        self.push_line(&mut text);
        text
    }

    /// Appends that line to a string.
    pub fn push_line<const N: usize>(&self, text: &mut ArrayString<N>)
        requires { array_string_len text.old + LONGEST_TX_LINE ≤ N }
        ensures bytes { text.new.bytes ≡ text.old.bytes ++ tx_line self.now }
        ensures len { array_string_len text.new ≤ array_string_len text.old + LONGEST_TX_LINE }
    {
        text.push_str(if self.request.ap { "ap " } else { "dp " });
        text.push_str(match self.request.addr {
            Reg4::R0 => "0 ",
            Reg4::R4 => "4 ",
            Reg4::R8 => "8 ",
            Reg4::RC => "c ",
        });
        text.push_str(if self.request.read { "read " } else { "write " });
        match self.result {
            TxEnd::Moved { word, parity_ok } => {
                text.push_str(if parity_ok { "ok " } else { "bad " });
                push_word(text, word);
            }
            TxEnd::Wait => text.push_str("wait"),
            TxEnd::Fault => text.push_str("fault"),
            TxEnd::NoAck(seen) => {
                text.push_str("none ");
                push_count(text, seen);
            }
        }
    }
}

impl fmt::Display for Tx {
    ghost use Rattle.std.specs.Prelude.{Some};

    ghost output = { λ tx. Some (tx_line tx) };

    fn fmt<W: fmt::Write>(&self, f: &mut fmt::Formatter<W>) -> fmt::Result {
        f.write_str(self.line().as_str())
    }
}
