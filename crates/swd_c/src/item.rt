//! The items of a trace as integers.
ghost use Rattle.std.specs.Prelude.{◌≡◌, ◌<◌, ◌≤◌, ◌^◌, Some, None, IfSome};
ghost use Rattle.swd_trace.specs.declared.item.Item.{Item as ItemType};
ghost use Rattle.swd_trace.specs.Listed.{IsEncodableItem};
ghost use Rattle.swd_c.specs.Items.{c_api_item_of_kind, c_api_item, c_api_tx_item};
ghost use Rattle.swd_c.specs.Items.{c_api_end_from, c_api_tx_by, c_api_item_by, CApiReadsTransaction, CApiReadsCut};

use crate::cue::bits_of;
use swd_bits::{Request, Tx, TxBits, TxEnd};
use swd_trace::Item;

/// An item of a trace, by `kind`: 1 a line reset; 2 the switch from JTAG to serial wire; 3 idle cycles; 4 a
/// transaction; 5 a stray bit; 6 an incomplete line reset or transaction at the end of the trace. Fields that aren't
/// listed for a kind are 0.
#[repr(C)]
#[derive(Clone, Copy, Debug, PartialEq, Eq)]
pub struct SwdItem {
    /// For kinds 1, 3 and 6: the number of bits.
    pub count: u64,
    /// For kinds 5 and 6: the bits, the first in time least significant.
    pub bits: u64,
    /// For kind 4 with `ack` 1: the word.
    pub word: u32,
    /// The kind.
    pub kind: u8,
    /// For kind 4: the eight bits of the request, the first in time least significant.
    pub request: u8,
    /// For kind 4: the three bits of the acknowledgement, the first in time least significant. 1 is OK, 2 WAIT, 4
    /// FAULT, any other number no ACK.
    pub ack: u8,
    /// For kind 4 with `ack` 1: 1 if the word's parity is correct, else 0.
    pub parity_ok: u8,
}

impl SwdItem {
    /// Returns an item as integers.
    pub fn of(item: &Item) -> SwdItem
        ensures { result ≡ c_api_item item.now }
    {
        match *item {
            Item::Reset(count) => SwdItem::counted(1, count, 0),
            Item::Switch => SwdItem::plain(2),
            Item::Idle(count) => SwdItem::counted(3, count, 0),
            Item::Tx(tx) => SwdItem::transaction(tx),
            Item::Junk(bit) => SwdItem::counted(5, 0, u64::from(bit)),
            Item::Cut(cut) => SwdItem::counted(6, u64::from(cut.len), cut.bits),
        }
    }

    fn plain(kind: u8) -> SwdItem
        ensures { result ≡ c_api_item_of_kind kind }
    {
        SwdItem {
            count: 0,
            bits: 0,
            word: 0,
            kind,
            request: 0,
            ack: 0,
            parity_ok: 0,
        }
    }

    fn counted(kind: u8, count: u64, bits: u64) -> SwdItem
        ensures { result ≡ record (c_api_item_of_kind kind) { count = count; bits = bits } }
    {
        let mut item = SwdItem::plain(kind);
        item.count = count;
        item.bits = bits;
        item
    }

    fn transaction(tx: Tx) -> SwdItem
        ensures { result ≡ c_api_tx_item tx.request tx.result }
    {
        let mut item = SwdItem::plain(4);
        item.request = bits_of(tx.request);
        match tx.result {
            TxEnd::Moved { word, parity_ok } => {
                item.ack = 1;
                item.word = word;
                item.parity_ok = u8::from(parity_ok);
            }
            TxEnd::Wait => item.ack = 2,
            TxEnd::Fault => item.ack = 4,
            TxEnd::NoAck(seen) => item.ack = seen,
        }
        item
    }

    /// Returns the item with these integers, or `None` if no item has them: none of the kinds, a number that isn't 0
    /// where the kind has none, eight bits that are no request, an acknowledgement of more than three bits, or an
    /// incomplete item of more than 49 bits.
    pub fn item(&self) -> Option<Item>
        ensures found { (item : ItemType) → IsEncodableItem item → c_api_item item ≡ self.now → result ≡ Some item }
        ensures same { IfSome result (λ item. IsEncodableItem item × (c_api_item item ≡ self.now)) }
    {
        let item = self.read()?;
        if SwdItem::of(&item) == *self {
            Some(item)
        } else {
            None
        }
    }

    // Returns an item of this kind. One of other integers may be any item: `item` rejects it.
    fn read(&self) -> Option<Item>
        ensures found { (item : ItemType) → IsEncodableItem item → c_api_item item ≡ self.now → result ≡ Some item }
        ensures is { IfSome result IsEncodableItem }
    {
        self.read_as(self.read_transaction(), cut_of(self.count, self.bits))
    }

    // The same where this is what it is as a transaction, and as an incomplete item.
    fn read_as(&self, transaction: Option<Item>, cut: Option<Item>) -> Option<Item>
        ensures { result ≡ c_api_item_by self.now transaction cut }
    {
        match self.kind {
            1 => Some(Item::Reset(self.count)),
            2 => Some(Item::Switch),
            3 => Some(Item::Idle(self.count)),
            4 => transaction,
            5 => Some(Item::Junk(self.bits == 1)),
            6 => cut,
            _ => None,
        }
    }

    fn read_transaction(&self) -> Option<Item>
        ensures found { CApiReadsTransaction self.now result }
        ensures is { IfSome result IsEncodableItem }
    {
        transaction_of(
            Request::of(self.request),
            end_of(self.ack, self.word, self.parity_ok),
        )
    }
}

// Returns the transaction of a request with this end, if there are both.
fn transaction_of(request: Option<Request>, end: Option<TxEnd>) -> Option<Item>
    ensures { result ≡ c_api_tx_by request end }
{
    match (request, end) {
        (Some(request), Some(result)) => Some(Item::Tx(Tx { request, result })),
        _ => None,
    }
}

// Returns the end of a transaction with these three bits, this word and this flag of its parity.
fn end_of(ack: u8, word: u32, parity_ok: u8) -> Option<TxEnd>
    ensures { result ≡ c_api_end_from ack word parity_ok }
{
    match ack {
        1 => Some(TxEnd::Moved {
            word,
            parity_ok: parity_ok == 1,
        }),
        2 => Some(TxEnd::Wait),
        4 => Some(TxEnd::Fault),
        0 | 3 | 5 | 6 | 7 => Some(TxEnd::NoAck(ack)),
        _ => None,
    }
}

// Returns the incomplete item of these bits, if there are fewer than fifty, and none is set behind them.
fn cut_of(count: u64, bits: u64) -> Option<Item>
    ensures none { result ≡ None → count ≤ 49 → bits < 2 ^ count → ⊥ }
    ensures some { CApiReadsCut count bits result }
{
    if count > 49 || bits >> count != 0 {
        return None;
    }
    Some(Item::Cut(TxBits {
        len: count as u8,
        bits,
    }))
}
