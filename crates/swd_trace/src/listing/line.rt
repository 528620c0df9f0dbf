//! Parses one line of a listing.
ghost use Rattle.std.specs.Prelude.{◌≡◌, ℕ, ◌++◌, List, Bool, Some, IfSome, IsSomeAnd};
ghost use Rattle.std.specs.Fmt.{decimal};
ghost use Rattle.swd_bits.specs.Listing.{tx_line_port, tx_line_address, tx_line_direction, tx_line_outcome, tx_line};
ghost use Rattle.swd_bits.specs.Transactions.{IsTxEnd, IsTx};
ghost use Rattle.swd_bits.specs.declared.request.Reg4.{Reg4};
ghost use Rattle.swd_bits.specs.declared.tx.Tx.{Tx};
ghost use Rattle.swd_bits.specs.declared.tx.TxEnd.{TxEnd};
ghost use Rattle.swd_trace.specs.declared.item.Item.{Item};
ghost use Rattle.swd_trace.specs.Listed.{IsLegalItem, IsItemLine};
ghost use Rattle.swd_trace.specs.Texts.{item_line};

use crate::item::Item;
use crate::listing::word::{bits_in, count_in, seen_in, word_in};
use swd_bits::{Reg4, Request, Tx, TxEnd};

/// Returns the item whose line, without the line feed, is exactly this. Returns `None` if there is no such
/// item: leading zeros, upper case and extra spaces are rejected.
pub(crate) fn item_of(line: &[u8]) -> Option<Item>
    ensures found { IfSome result (λ item. IsItemLine line.now item) }
    ensures only { (item : Item) → IsItemLine line.now item → result ≡ Some item }
{
    let item = candidate(line)?;
    // accepts only the exact line of the item
    let text = item.line();
    if text.as_str().as_bytes() == line {
        Some(item)
    } else {
        None
    }
}

// Returns the item of its line. Of any other line it may return some item.
fn candidate(line: &[u8]) -> Option<Item>
    ensures legal { IfSome result IsLegalItem }
    ensures found { (item : Item) → IsLegalItem item → line.now ≡ item_line item → result ≡ Some item }
{
    if line == b"switch".as_slice() {
        return Some(Item::Switch);
    }
    if let Some(digits) = line.strip_prefix(b"reset ") {
        return Some(Item::Reset(count_in(digits)?));
    }
    if let Some(digits) = line.strip_prefix(b"idle ") {
        return Some(Item::Idle(count_in(digits)?));
    }
    if let Some(digit) = line.strip_prefix(b"junk ") {
        return Some(Item::Junk(digit == b"1".as_slice()));
    }
    if let Some(digits) = line.strip_prefix(b"cut ") {
        return Some(Item::Cut(bits_in(digits)?));
    }
    Some(Item::Tx(transaction_of(line)?))
}

// Returns the transaction of its line. Of any other line it may return some transaction.
fn transaction_of(line: &[u8]) -> Option<Tx>
    ensures legal { IfSome result IsTx }
    ensures found { (tx : Tx) → IsTx tx → line.now ≡ tx_line tx → result ≡ Some tx }
{
    let (ap, line) = port_of(line)?;
    let (addr, line) = address_of(line)?;
    let (read, line) = direction_of(line)?;
    let result = result_of(line)?;
    Some(Tx {
        request: Request { ap, read, addr },
        result,
    })
}

// Returns whether the port is the AP, and the rest.
fn port_of(line: &[u8]) -> Option<(bool, &[u8])>
    ensures { (ap : Bool) (rest : List ℕ) → line.now ≡ tx_line_port ap ++ rest
        → IsSomeAnd result (λ r. (r.0 ≡ ap) × (r.1.now ≡ rest)) }
{
    if let Some(rest) = line.strip_prefix(b"ap ") {
        return Some((true, rest));
    }
    Some((false, line.strip_prefix(b"dp ")?))
}

// Returns the register address, and the rest.
fn address_of(line: &[u8]) -> Option<(Reg4, &[u8])>
    ensures { (addr : Reg4) (rest : List ℕ) → line.now ≡ tx_line_address addr ++ rest
        → IsSomeAnd result (λ r. (r.0 ≡ addr) × (r.1.now ≡ rest)) }
{
    if let Some(rest) = line.strip_prefix(b"0 ") {
        return Some((Reg4::R0, rest));
    }
    if let Some(rest) = line.strip_prefix(b"4 ") {
        return Some((Reg4::R4, rest));
    }
    if let Some(rest) = line.strip_prefix(b"8 ") {
        return Some((Reg4::R8, rest));
    }
    Some((Reg4::RC, line.strip_prefix(b"c ")?))
}

// Returns whether the direction is a read, and the rest.
fn direction_of(line: &[u8]) -> Option<(bool, &[u8])>
    ensures { (read : Bool) (rest : List ℕ) → line.now ≡ tx_line_direction read ++ rest
        → IsSomeAnd result (λ r. (r.0 ≡ read) × (r.1.now ≡ rest)) }
{
    if let Some(rest) = line.strip_prefix(b"read ") {
        return Some((true, rest));
    }
    Some((false, line.strip_prefix(b"write ")?))
}

// Returns the result with this name. Of any other bytes it may return some result.
fn result_of(text: &[u8]) -> Option<TxEnd>
    ensures legal { IfSome result IsTxEnd }
    ensures found { (end : TxEnd) → IsTxEnd end → text.now ≡ tx_line_outcome end → result ≡ Some end }
{
    if text == b"wait".as_slice() {
        return Some(TxEnd::Wait);
    }
    if text == b"fault".as_slice() {
        return Some(TxEnd::Fault);
    }
    if let Some(digits) = text.strip_prefix(b"none ") {
        return no_ack_of(digits);
    }
    if let Some(digits) = text.strip_prefix(b"ok ") {
        return Some(TxEnd::Moved {
            word: word_in(digits)?,
            parity_ok: true,
        });
    }
    Some(TxEnd::Moved {
        word: word_in(text.strip_prefix(b"bad ")?)?,
        parity_ok: false,
    })
}

// Returns the result for the number of three bits that aren't OK, WAIT or FAULT.
fn no_ack_of(digits: &[u8]) -> Option<TxEnd>
    ensures legal { IfSome result IsTxEnd }
    ensures found { (seen : ℕ) → IsTxEnd (TxEnd.NoAck seen) → digits.now ≡ decimal seen
        → result ≡ Some (TxEnd.NoAck seen) }
{
    match seen_in(digits) {
        Some(seen) if matches!(seen, 0 | 3 | 5 | 6 | 7) => Some(TxEnd::NoAck(seen)),
        _ => None,
    }
}
