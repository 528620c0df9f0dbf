//! Queues the line of a transaction directly in the output block.
//!
//! Most of a listing's time is spent here. So pieces have constant length, and no branch depends on what the
//! branch predictor can't predict.
ghost use Rattle.std.specs.Prelude.{◌≡◌, ◌==◌, ◌+◌, ◌-◌, ◌/◌, ◌%◌, ◌<◌, ◌≤◌, ◌++◌, ◌∷◌, [], take};
ghost use Rattle.swd_io.specs.Blocks.{BlockQueues};
ghost use Rattle.swd_bits.specs.Bits.{low_bits};
ghost use Rattle.swd_bits.specs.BitLists.{tx_bits_of, IsWellFormedTxBits};
ghost use Rattle.swd_bits.specs.Listing.{hex2, hex8, tx_line_parity, tx_line};
ghost use Rattle.swd_bits.specs.Transactions.{SpellsTx};
ghost use Rattle.swd_bits.specs.declared.tx.Tx.{Tx};
ghost use Rattle.swd_text.specs.TxLines.{tx_line_request_at, tx_line_request_text};

use std::io::Write;
use swd_bits::{MOVED_BITS, REFUSED_BITS, Tx, TxBits};
use swd_io::Block;

// The two hexadecimal digits of each byte. A pair is loaded at once.
static DIGITS: [[u8; 2]; 256] = [
    *b"00", *b"01", *b"02", *b"03", *b"04", *b"05", *b"06", *b"07", *b"08", *b"09", *b"0a", *b"0b",
    *b"0c", *b"0d", *b"0e", *b"0f", *b"10", *b"11", *b"12", *b"13", *b"14", *b"15", *b"16", *b"17",
    *b"18", *b"19", *b"1a", *b"1b", *b"1c", *b"1d", *b"1e", *b"1f", *b"20", *b"21", *b"22", *b"23",
    *b"24", *b"25", *b"26", *b"27", *b"28", *b"29", *b"2a", *b"2b", *b"2c", *b"2d", *b"2e", *b"2f",
    *b"30", *b"31", *b"32", *b"33", *b"34", *b"35", *b"36", *b"37", *b"38", *b"39", *b"3a", *b"3b",
    *b"3c", *b"3d", *b"3e", *b"3f", *b"40", *b"41", *b"42", *b"43", *b"44", *b"45", *b"46", *b"47",
    *b"48", *b"49", *b"4a", *b"4b", *b"4c", *b"4d", *b"4e", *b"4f", *b"50", *b"51", *b"52", *b"53",
    *b"54", *b"55", *b"56", *b"57", *b"58", *b"59", *b"5a", *b"5b", *b"5c", *b"5d", *b"5e", *b"5f",
    *b"60", *b"61", *b"62", *b"63", *b"64", *b"65", *b"66", *b"67", *b"68", *b"69", *b"6a", *b"6b",
    *b"6c", *b"6d", *b"6e", *b"6f", *b"70", *b"71", *b"72", *b"73", *b"74", *b"75", *b"76", *b"77",
    *b"78", *b"79", *b"7a", *b"7b", *b"7c", *b"7d", *b"7e", *b"7f", *b"80", *b"81", *b"82", *b"83",
    *b"84", *b"85", *b"86", *b"87", *b"88", *b"89", *b"8a", *b"8b", *b"8c", *b"8d", *b"8e", *b"8f",
    *b"90", *b"91", *b"92", *b"93", *b"94", *b"95", *b"96", *b"97", *b"98", *b"99", *b"9a", *b"9b",
    *b"9c", *b"9d", *b"9e", *b"9f", *b"a0", *b"a1", *b"a2", *b"a3", *b"a4", *b"a5", *b"a6", *b"a7",
    *b"a8", *b"a9", *b"aa", *b"ab", *b"ac", *b"ad", *b"ae", *b"af", *b"b0", *b"b1", *b"b2", *b"b3",
    *b"b4", *b"b5", *b"b6", *b"b7", *b"b8", *b"b9", *b"ba", *b"bb", *b"bc", *b"bd", *b"be", *b"bf",
    *b"c0", *b"c1", *b"c2", *b"c3", *b"c4", *b"c5", *b"c6", *b"c7", *b"c8", *b"c9", *b"ca", *b"cb",
    *b"cc", *b"cd", *b"ce", *b"cf", *b"d0", *b"d1", *b"d2", *b"d3", *b"d4", *b"d5", *b"d6", *b"d7",
    *b"d8", *b"d9", *b"da", *b"db", *b"dc", *b"dd", *b"de", *b"df", *b"e0", *b"e1", *b"e2", *b"e3",
    *b"e4", *b"e5", *b"e6", *b"e7", *b"e8", *b"e9", *b"ea", *b"eb", *b"ec", *b"ed", *b"ee", *b"ef",
    *b"f0", *b"f1", *b"f2", *b"f3", *b"f4", *b"f5", *b"f6", *b"f7", *b"f8", *b"f9", *b"fa", *b"fb",
    *b"fc", *b"fd", *b"fe", *b"ff",
];

// The listing of a request, by its port, direction and address bits. It has one character more for a read.
static REQUESTS: [[u8; 12]; 16] = [
    *b"dp 0 write  ",
    *b"ap 0 write  ",
    *b"dp 0 read   ",
    *b"ap 0 read   ",
    *b"dp 4 write  ",
    *b"ap 4 write  ",
    *b"dp 4 read   ",
    *b"ap 4 read   ",
    *b"dp 8 write  ",
    *b"ap 8 write  ",
    *b"dp 8 read   ",
    *b"ap 8 read   ",
    *b"dp c write  ",
    *b"ap c write  ",
    *b"dp c read   ",
    *b"ap c read   ",
];

// The listing of a data phase's parity: right for an even number of ones, wrong for an odd one. It has one
// character more for an even number.
static PARITIES: [[u8; 4]; 2] = [*b"ok  ", *b"bad "];

// Returns the two digits of a byte.
#[inline(always)]
fn digits(byte: u8) -> [u8; 2]
    ensures { result ≡ hex2 byte }
{
    DIGITS[usize::from(byte)]
}

// Returns the eight digits of a word, and a line feed.
#[inline(always)]
fn word_line(word: u32) -> [u8; 9]
    ensures { result ≡ hex8 word ++ 10 ∷ [] }
{
    let first = digits((word >> 24) as u8);
    let second = digits(((word >> 16) % 256) as u8);
    let third = digits(((word >> 8) % 256) as u8);
    let fourth = digits((word % 256) as u8);
    [
        first[0], first[1], second[0], second[1], third[0], third[1], fourth[0], fourth[1], b'\n',
    ]
}

#[inline(always)]
fn request_text(asked: usize) -> &'static [u8; 12]
    requires { asked < 16 }
    ensures { take (11 - asked / 2 % 2) result.now ≡ tx_line_request_text (tx_line_request_at asked) }
{
    &REQUESTS[asked]
}

#[inline(always)]
fn parity_text(odd: usize) -> &'static [u8; 4]
    requires { odd < 2 }
    ensures { take (3 + odd) result.now ≡ tx_line_parity (odd == 0) }
{
    &PARITIES[odd]
}

// Also queues the line of the transaction with these 46 bits, which moved a word.
#[inline(always)]
fn put_moved<W: Write>(block: &mut Block<'_, W>, bits: u64)
    requires { (tx : Tx) × SpellsTx tx (low_bits 46 bits) }
    ensures sends { (tx : Tx) → SpellsTx tx (low_bits 46 bits)
        → BlockQueues W.contents (tx_line tx ++ 10 ∷ []) block.old block.new }
    ensures writer { block.new.writer.ghost_name ≡ block.old.writer.ghost_name }
{
    let asked = (bits / 2 % 16) as usize;
    let read = asked / 2 % 2;
    let phase = (bits >> (13 - read)) % (1 << 33);
    let odd = (phase.count_ones() % 2) as usize;
    block.put_three(
        request_text(asked),
        11 - read,
        parity_text(odd),
        3 + odd,
        &word_line((phase % (1 << 32)) as u32),
    );
}

// Also queues the line of the transaction with these 13 bits, which was answered WAIT or FAULT.
#[inline(always)]
fn put_refused<W: Write>(block: &mut Block<'_, W>, bits: u64)
    requires { (tx : Tx) × SpellsTx tx (low_bits 13 bits) }
    ensures sends { (tx : Tx) → SpellsTx tx (low_bits 13 bits)
        → BlockQueues W.contents (tx_line tx ++ 10 ∷ []) block.old block.new }
    ensures writer { block.new.writer.ghost_name ≡ block.old.writer.ghost_name }
{
    let asked = (bits / 2 % 16) as usize;
    block.put_first(request_text(asked), 11 - asked / 2 % 2);
    if (bits >> 10) % 2 == 1 {
        block.put(b"wait\n");
    } else {
        block.put(b"fault\n");
    }
}

// Also queues the line of any transaction.
#[inline(never)]
fn put_any_tx<W: Write>(block: &mut Block<'_, W>, tx: Tx)
    ensures sends { BlockQueues W.contents (tx_line tx ++ 10 ∷ []) block.old block.new }
    ensures writer { block.new.writer.ghost_name ≡ block.old.writer.ghost_name }
{
    block.put_line(tx.line().as_str().as_bytes());
}

/// Also queues the line of the transaction with these bits.
#[inline(always)]
pub(crate) fn put_tx<W: Write>(block: &mut Block<'_, W>, spelled: TxBits)
    requires whole { IsWellFormedTxBits spelled }
    requires short { spelled.len ≤ 46 }
    requires found { (tx : Tx) × SpellsTx tx (tx_bits_of spelled) }
    ensures sends { (tx : Tx) → SpellsTx tx (tx_bits_of spelled)
        → BlockQueues W.contents (tx_line tx ++ 10 ∷ []) block.old block.new }
    ensures writer { block.new.writer.ghost_name ≡ block.old.writer.ghost_name }
{
    if spelled.len == MOVED_BITS {
        put_moved(block, spelled.bits);
    } else if spelled.len == REFUSED_BITS {
        put_refused(block, spelled.bits);
    } else {
        let Some(tx) = Tx::of(spelled) else {
            unreachable!();
        };
        put_any_tx(block, tx);
    }
}
