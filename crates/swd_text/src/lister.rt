//! Lists the items of bits.
ghost use Rattle.std.specs.Prelude.{◌≡◌, ℕ, ◌+◌, ◌-◌, ◌^◌, ◌<◌, ◌≤◌, List, Bool, ◌∷◌, ◌++◌};
ghost use Rattle.std.specs.Prelude.{[], map, Option};
ghost use Rattle.swd_io.specs.Blocks.{BlockBufferSends, BlockQueues};
ghost use Rattle.swd_trace.specs.declared.item.Item;
ghost use Rattle.swd_trace.specs.Reading.{reading_of};
ghost use Rattle.swd_trace.specs.Texts.{item_line, listing};
ghost use Rattle.swd_bits.specs.Bits.{low_bits};
ghost use Rattle.swd_bits.specs.BitLists.{tx_bits_of, IsWellFormedTxBits};
ghost use Rattle.swd_bits.specs.Listing.{tx_line};
ghost use Rattle.swd_bits.specs.Transactions.{SpellsTx};
ghost use Rattle.swd_bits.specs.declared.tx.Tx.{Tx};
ghost use Rattle.swd_trace.specs.Held.{decoder_fed, decoder_rest, idle_items, IsDecoderSettled};
ghost use Rattle.swd_trace.specs.Decided.{DecidesNoItem};
ghost use Rattle.swd_text.specs.Listers.{DecodeTextLists, ListerHasTaken, ListerPuts, ListerStops, ListerTakes};
ghost use Rattle.swd_text.specs.Sinks.{LeadsSinkOn, LeadsSinkToStop, sink_takes_nothing, sink_leads_join};

use crate::reader::BitSink;
use crate::tx_line::put_tx;
use arrayvec::ArrayString;
use std::io::Write;
use swd_bits::TxBits;
use swd_io::Block;
use swd_trace::{Decoder, FoundTx, Item, LONGEST_LINE};

// Room for the longest line and its line feed.
const ROOM: usize = LONGEST_LINE + 1;

/// A sink of the bits of a trace text. It writes the line of each item as soon as no later bits can change the item.
#[derive(Drop)]
pub(crate) struct Lister {
    decoder: Decoder,
    // A buffer for one line. It is kept, since a new one for each line takes time.
    line: ArrayString<ROOM>,
}

// Also queues the line of an item. A junk bit seldom comes alone, so its line takes the short path.
#[inline(always)]
fn put_line<W: Write>(block: &mut Block<'_, W>, line: &mut ArrayString<ROOM>, item: &Item)
    ensures sends { BlockQueues W.contents (item_line item.now ++ 10 ∷ []) block.old block.new }
    ensures writer { block.new.writer.ghost_name ≡ block.old.writer.ghost_name }
{
    match item {
        Item::Junk(bit) => block.put(junk_line(*bit)),
        _ => put_any_line(block, line, item),
    }
}

fn junk_line(bit: bool) -> &'static [u8; 7]
    ensures { result.now ≡ item_line (Item.Junk bit) ++ 10 ∷ [] }
{
    if bit { b"junk 1\n" } else { b"junk 0\n" }
}

// Returns the lines of four junk bits, the first one least significant.
fn junk_lines(bits: u8) -> &'static [u8; 28]
    requires { bits < 16 }
    ensures { result.now ≡ listing (map Item.Junk (low_bits 4 bits)) }
{
    match bits {
        0 => b"junk 0\njunk 0\njunk 0\njunk 0\n",
        1 => b"junk 1\njunk 0\njunk 0\njunk 0\n",
        2 => b"junk 0\njunk 1\njunk 0\njunk 0\n",
        3 => b"junk 1\njunk 1\njunk 0\njunk 0\n",
        4 => b"junk 0\njunk 0\njunk 1\njunk 0\n",
        5 => b"junk 1\njunk 0\njunk 1\njunk 0\n",
        6 => b"junk 0\njunk 1\njunk 1\njunk 0\n",
        7 => b"junk 1\njunk 1\njunk 1\njunk 0\n",
        8 => b"junk 0\njunk 0\njunk 0\njunk 1\n",
        9 => b"junk 1\njunk 0\njunk 0\njunk 1\n",
        10 => b"junk 0\njunk 1\njunk 0\njunk 1\n",
        11 => b"junk 1\njunk 1\njunk 0\njunk 1\n",
        12 => b"junk 0\njunk 0\njunk 1\njunk 1\n",
        13 => b"junk 1\njunk 0\njunk 1\njunk 1\n",
        14 => b"junk 0\njunk 1\njunk 1\njunk 1\n",
        _ => b"junk 1\njunk 1\njunk 1\njunk 1\n",
    }
}

// Also queues the lines of junk bits.
#[inline(never)]
fn put_junk<W: Write>(block: &mut Block<'_, W>, junk: TxBits)
    ensures sends { BlockQueues W.contents (listing (map Item.Junk (tx_bits_of junk))) block.old block.new }
    ensures writer { block.new.writer.ghost_name ≡ block.old.writer.ghost_name }
{
    let mut bits = junk.bits;
    let mut left = junk.len;
    while left > 0 {
        let count = left.min(4);
        block.put_first(junk_lines((bits % 16) as u8), 7 * usize::from(count));
        bits >>= count;
        left -= count;
    }
}

// Also queues the line of a transaction that was found whole, after that of the idle cycles before it, if
// there are any.
#[inline(always)]
fn put_found<W: Write>(block: &mut Block<'_, W>, line: &mut ArrayString<ROOM>, found: FoundTx)
    requires whole { IsWellFormedTxBits found.tx }
    requires short { found.tx.len ≤ 46 }
    requires spells { (tx : Tx) × SpellsTx tx (tx_bits_of found.tx) }
    ensures sends { (tx : Tx) → SpellsTx tx (tx_bits_of found.tx) → (start : Option (List ℕ)) (all : List ℕ)
        → BlockBufferSends W.contents start block.old all
        → BlockBufferSends W.contents start block.new
        ((all ++ listing (idle_items found.idle)) ++ (tx_line tx ++ 10 ∷ [])) }
    ensures writer { block.new.writer.ghost_name ≡ block.old.writer.ghost_name }
{
    put_idle(block, line, found.idle);
    put_tx(block, found.tx);
}

// Also queues the line of a transaction that was held. Most are found whole, so this is outlined from the
// path of junk bits.
#[inline(never)]
fn put_held_tx<W: Write>(block: &mut Block<'_, W>, spelled: TxBits)
    requires whole { IsWellFormedTxBits spelled }
    requires short { spelled.len ≤ 46 }
    requires found { (tx : Tx) × SpellsTx tx (tx_bits_of spelled) }
    ensures sends { (tx : Tx) → SpellsTx tx (tx_bits_of spelled)
        → BlockQueues W.contents (tx_line tx ++ 10 ∷ []) block.old block.new }
    ensures writer { block.new.writer.ghost_name ≡ block.old.writer.ghost_name }
{
    put_tx(block, spelled);
}

// Also queues the line of idle cycles, if there are any.
#[inline(always)]
fn put_idle<W: Write>(block: &mut Block<'_, W>, line: &mut ArrayString<ROOM>, count: u64)
    ensures sends { BlockQueues W.contents (listing (idle_items count)) block.old block.new }
    ensures writer { block.new.writer.ghost_name ≡ block.old.writer.ghost_name }
{
    if count == 0 {
        return;
    }
    if count < 10 {
        block.put(&idle_line(count as u8));
    } else {
        put_any_line(block, line, &Item::Idle(count));
    }
}

#[inline(always)]
fn idle_line(count: u8) -> [u8; 7]
    requires { count < 10 }
    ensures { result ≡ item_line (Item.Idle count) ++ 10 ∷ [] }
{
    [b'i', b'd', b'l', b'e', b' ', b'0' + count, b'\n']
}

// Also queues the line of any item.
#[inline(never)]
fn put_any_line<W: Write>(block: &mut Block<'_, W>, line: &mut ArrayString<ROOM>, item: &Item)
    ensures sends { BlockQueues W.contents (item_line item.now ++ 10 ∷ []) block.old block.new }
    ensures writer { block.new.writer.ghost_name ≡ block.old.writer.ghost_name }
{
    line.clear();
    item.push_line(line);
    line.push_str("\n");
    block.put(line.as_str().as_bytes());
}

impl Lister {
    pub(crate) fn new() -> Lister
        ensures settled { IsDecoderSettled result.decoder }
        ensures law { (more : List Bool) → decoder_rest result.decoder more ≡ reading_of more }
        ensures fed { decoder_fed result.decoder ≡ 0 }
    {
        Lister {
            decoder: Decoder::new(),
            line: ArrayString::new(),
        }
    }

    // Also queues the lines of the transactions that are due before any other item.
    #[inline(always)]
    fn put_txs<W: Write>(&mut self, block: &mut Block<'_, W>)
        ensures { ListerPuts W.contents self.old.decoder self.new.decoder block.old block.new }
    {
        while let Some(spelled) = self.decoder.due_tx() {
            put_held_tx(block, spelled);
        }
    }

    // Also queues the lines of the junk bits that are due.
    #[inline(always)]
    fn put_lost<W: Write>(&mut self, block: &mut Block<'_, W>)
        ensures { ListerPuts W.contents self.old.decoder self.new.decoder block.old block.new }
    {
        if let Some(junk) = self.decoder.due_junk() {
            put_junk(block, junk);
        }
    }

    // Also queues the lines of the items that are due.
    fn put_due<W: Write>(&mut self, block: &mut Block<'_, W>)
        ensures puts { ListerPuts W.contents self.old.decoder self.new.decoder block.old block.new }
        ensures settled { IsDecoderSettled self.new.decoder }
        ensures undecided { DecidesNoItem (decoder_rest self.new.decoder) }
    {
        self.put_txs(block);
        self.put_lost(block);
        while let Some(item) = self.decoder.due() {
            put_line(block, &mut self.line, &item);
        }
    }

    // Takes one or more of the lowest `count` bits, and returns how many: a whole transaction at their front,
    // or what else is there.
    #[inline(always)]
    fn bits_at_once<W: Write>(&mut self, block: &mut Block<'_, W>, bits: u64, count: u8) -> u8
        requires settled { IsDecoderSettled self.old.decoder }
        requires some { 0 < count }
        requires within { count ≤ 64 }
        requires room { decoder_fed self.old.decoder + count < 2 ^ 64 }
        ensures most { result ≤ count }
        ensures takes { ListerTakes W.contents result bits self.old.decoder self.new.decoder block.old block.new }
    {
        if let Some(found) = self.decoder.take_tx(bits, count) {
            put_found(block, &mut self.line, found);
            return found.taken;
        }
        self.held_bits(block, bits, count)
    }

    // Does the same where the bits are held first. This path is long, so it is outlined from the short one.
    #[inline(never)]
    fn held_bits<W: Write>(&mut self, block: &mut Block<'_, W>, bits: u64, count: u8) -> u8
        requires settled { IsDecoderSettled self.old.decoder }
        requires some { 0 < count }
        requires within { count ≤ 64 }
        requires room { decoder_fed self.old.decoder + count < 2 ^ 64 }
        ensures most { result ≤ count }
        ensures takes { ListerTakes W.contents result bits self.old.decoder self.new.decoder block.old block.new }
    {
        let taken = self.decoder.take_bits(bits, count);
        self.put_due(block);
        taken
    }

    /// Also queues the lines of the items that the end of the trace decides.
    pub(crate) fn put_last<W: Write>(&mut self, block: &mut Block<'_, W>)
        ensures sends { (start : Option (List ℕ)) (bits : List Bool) (items : List Item)
            → DecodeTextLists W.contents start self.old.decoder block.old bits items
            → BlockBufferSends W.contents start block.new (listing (reading_of bits)) }
        ensures writer { block.new.writer.ghost_name ≡ block.old.writer.ghost_name }
    {
        while let Some(item) = self.decoder.last() {
            put_line(block, &mut self.line, &item);
        }
    }
}

impl<'a, W: Write> BitSink<Block<'a, W>> for Lister {
    ghost ready = { λ lister. IsDecoderSettled lister.decoder };

    ghost fed = { λ lister. decoder_fed lister.decoder };

    ghost led = { LeadsSinkOn (ListerHasTaken W.contents) };

    ghost stops = { LeadsSinkToStop (ListerHasTaken W.contents) (ListerStops W.contents) };

    #[inline(always)]
    fn fed(&self) -> u64 {
        self.decoder.fed()
    }

    fn take_bit(&mut self, block: &mut Block<'a, W>, bit: bool) {
        self.decoder.take(bit);
        self.put_due(block);
    }

    #[inline(always)]
    fn take_bits(&mut self, block: &mut Block<'a, W>, bits: u64, count: u8) -> u8 {
        self.bits_at_once(block, bits, count)
    }

    fn pause(&mut self, block: &mut Block<'a, W>) -> Result<(), u64> {
        match block.flush() {
            Ok(_) => Ok(()),
            Err(written) => Err(written),
        }
    }

    ghost led_nowhere = { sink_takes_nothing (ListerHasTaken W.contents) };

    ghost led_on = { sink_leads_join (ListerHasTaken W.contents) };
}
