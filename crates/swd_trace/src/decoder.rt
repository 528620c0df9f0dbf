//! Decodes a trace bit by bit.
ghost use Rattle.std.specs.Prelude.{◌≡◌, ◌+◌, ◌^◌, ◌<◌, ◌≤◌, List, Bool};
ghost use Rattle.swd_trace.specs.Holding.{DecoderHolds};

mod fields;

use crate::found_tx::FoundTx;
use crate::front::Front;
use crate::grammar::{acknowledged, front_of};
use crate::item::{Item, RESET_ONES};
use crate::mode::Mode;
use arrayvec::ArrayVec;
pub use fields::DecoderFields;
use swd_bits::{MOVED_BITS, SWITCH, SWITCH_BITS, Tx, TxBits, TxEnd};

/// A decoder of traces. It takes one or more bits at a time, and returns each item as soon as no later bits
/// can change it. How the bits are divided into calls makes no difference.
///
/// `feed` and `finish` return the items as lists. Where speed matters, call `take` with one bit, or
/// `take_bits` with many, and then `due` until it returns `None`. At the end, call `last` until it returns
/// `None`.
///
/// It allocates nothing: it holds a count of equal bits and at most 50 further bits.
///
/// ```
/// let mut decoder = Decoder::new();
/// let none = decoder.feed(false); // more idle cycles may follow
/// assert!(rt; none.is_empty());
/// let idle = decoder.feed(true);
/// assert_eq!(rt; idle.as_slice(), [Item::Idle(1)].as_slice());
/// let cut = TxBits { len: 1, bits: 1 }; // the start bit of a transaction
/// assert_eq!(rt; decoder.finish().as_slice(), [Item::Cut(cut)].as_slice());
/// ```
#[derive(Debug, Drop)]
pub struct Decoder {
    mode: Mode,
    // the run at the front of the held bits: `run` ones if `one`, else `run` zeros
    one: bool,
    run: u64,
    // the `len` bits after the run, the first one least significant
    len: u8,
    bits: u64,
    // with fewer than `next` of these bits nothing is decided
    next: u8,
    fed: u64,
    ghost holds: { DecoderHolds mode one run len bits next fed },
}

impl Decoder {
    ghost use Rattle.std.specs.Prelude.{ℕ, ◌==◌, ◌/◌, ◌%◌, true, false, ◌++◌, [], ◌∷◌, ◌-◌, IfSome, IfNone, replicate};
    ghost use Rattle.std.specs.Prelude.{map};
    ghost use Rattle.swd_bits.specs.Bits.{low_bits};
    ghost use Rattle.swd_trace.specs.Reading.{reading, reading_of, trace_all_ones};
    ghost use Rattle.swd_trace.specs.Decided.{DecidesNoItem, IsDecided};
    ghost use Rattle.arrayvec.specs.ArrayVec.{array_vec_len};
    ghost use Rattle.swd_bits.specs.declared.tx.Tx.{Tx};
    ghost use Rattle.swd_bits.specs.BitLists.{tx_bits_of};
    ghost use Rattle.swd_bits.specs.Transactions.{SpellsTx};
    ghost use Rattle.swd_trace.specs.Stands.{Whole, stands};
    ghost use Rattle.swd_trace.specs.Spelled.{AreTraceTransactions};
    ghost use Rattle.swd_trace.specs.Texts.{bits_of_items};
    ghost use Rattle.swd_trace.specs.declared.mode.Mode;
    ghost use Rattle.swd_trace.specs.declared.item.Item;
    ghost use Rattle.swd_trace.specs.Held.{decoder_rest, DecoderHasRead, decoder_held, decoder_fed, decoder_held_len};
    ghost use Rattle.swd_trace.specs.Held.{decoder_places, IsDecoderSettled, IsDecoderOpen, IsTraceOpenAt, GivesItem};
    ghost use Rattle.swd_trace.specs.Held.{GivesTxItem, DecoderWaits, DecidesItem, DecoderCloses, ClosesWithItem};
    ghost use Rattle.swd_trace.specs.Held.{DecoderTakesMany, DecoderTakesTx, GivesJunkItems, idle_items};

    /// Returns a decoder that was fed no bits.
    pub fn new() -> Decoder
        ensures law { (more : List Bool) → decoder_rest result more ≡ reading_of more }
        ensures read { DecoderHasRead result [] [] }
        ensures fed { decoder_fed result ≡ 0 }
        ensures settled { IsDecoderSettled result }
    {
        Decoder {
            mode: Mode::Synced,
            one: false,
            run: 0,
            len: 0,
            bits: 0,
            next: 1,
            fed: 0,
        }
    }

    /// Returns how many bits it was fed.
    pub fn fed(&self) -> u64
        ensures { result ≡ decoder_fed self.now }
    {
        self.fed
    }

    /// Takes a bit, and returns the items that it decides, at most 64. Together with the items returned
    /// before, they are exactly the items that no later bits can change.
    pub fn feed(&mut self, bit: bool) -> ArrayVec<Item, 64>
        requires { decoder_fed self.old < 2 ^ 64 - 1 }
        ensures law { (more : List Bool) → result.items ++ decoder_rest self.new more
            ≡ decoder_rest self.old (bit ∷ more) }
        ensures undecided { DecidesNoItem (decoder_rest self.new) }
        ensures read { (bits : List Bool) (items : List Item) → DecoderHasRead self.old bits items
            → DecoderHasRead self.new (bits ++ bit ∷ []) (items ++ result.items) }
        ensures decided { (bits : List Bool) (items : List Item) → DecoderHasRead self.old bits items
            → IsDecided (bits ++ bit ∷ []) (items ++ result.items) }
        ensures settled { IsDecoderSettled self.new }
        ensures held { decoder_held_len self.new < 50 }
        ensures fed { decoder_fed self.new ≡ decoder_fed self.old + 1 }
    {
        let mut items = ArrayVec::new();
        self.drain(&mut items);
        self.take(bit);
        self.drain(&mut items);
        items
    }

    /// Ends the trace, and returns the remaining items, at most 64. Together with the items returned before,
    /// they are the reading of all the bits.
    pub fn finish(self) -> ArrayVec<Item, 64>
        ensures law { result.items ≡ decoder_rest self [] }
        ensures read { (bits : List Bool) (items : List Item) → DecoderHasRead self bits items
            → items ++ result.items ≡ reading_of bits }
        // The bits of all the items decode to the same items.
        ensures again { (bits : List Bool) (items : List Item) → DecoderHasRead self bits items
            → reading_of (bits_of_items (items ++ result.items)) ≡ items ++ result.items }
        // A trace that consists of acknowledged transactions decodes to exactly these.
        ensures transactions { (txs : List Tx) (bits : List Bool) (items : List Item) → AreTraceTransactions txs bits
            → DecoderHasRead self bits items → items ++ result.items ≡ map Item.Tx txs }
    {
        let mut decoder = self;
        let mut items = ArrayVec::new();
        while let Some(item) = decoder.last() {
            items.push(item);
        }
        items
    }

    // Appends every item that is due.
    fn drain(&mut self, items: &mut ArrayVec<Item, 64>)
        requires { array_vec_len items.old + decoder_places self.old < 64 }
        ensures law { (more : List Bool)
            → items.new.items ++ decoder_rest self.new more ≡ items.old.items ++ decoder_rest self.old more }
        ensures undecided { DecidesNoItem (decoder_rest self.new) }
        ensures settled { IsDecoderSettled self.new }
        ensures room { array_vec_len items.new + decoder_places self.new ≤ array_vec_len items.old
            + decoder_places self.old }
        ensures fed { decoder_fed self.new ≡ decoder_fed self.old }
    {
        while let Some(item) = self.due() {
            items.push(item);
        }
    }

    /// Takes a bit. Take every item that is due first: call `due` until it returns `None`.
    #[inline]
    pub fn take(&mut self, bit: bool)
        requires settled { IsDecoderSettled self.old }
        requires count { decoder_fed self.old < 2 ^ 64 - 1 }
        ensures law { (more : List Bool) → decoder_rest self.new more ≡ decoder_rest self.old (bit ∷ more) }
        ensures read { (bits : List Bool) (items : List Item) → DecoderHasRead self.old bits items
            → DecoderHasRead self.new (bits ++ bit ∷ []) items }
        ensures places { decoder_places self.new ≤ decoder_places self.old + 1 }
        ensures fed { decoder_fed self.new ≡ decoder_fed self.old + 1 }
    {
        self.fed += 1;
        if self.run > 0 && self.one == bit {
            self.run += 1;
        } else {
            self.bits |= u64::from(bit) << self.len;
            self.len += 1;
        }
    }

    /// Takes one or more of the lowest `count` bits of `bits`, from the least significant one, which is first
    /// in time. Returns how many.
    ///
    /// With a run of equal bits held, it takes at least all the bits that continue the run. Without one, and
    /// with fewer than 46 bits held, it takes all of them, or as many as make 46 held bits, the longest
    /// transaction. Take every item that is due first.
    #[inline(always)]
    pub fn take_bits(&mut self, bits: u64, count: u8) -> u8
        requires settled { IsDecoderSettled self.old }
        requires some { 0 < count }
        requires within { count ≤ 64 }
        requires room { decoder_fed self.old + count < 2 ^ 64 }
        ensures law { (more : List Bool) → decoder_rest self.new more
            ≡ decoder_rest self.old (low_bits result bits ++ more) }
        ensures read { (before : List Bool) (items : List Item) → DecoderHasRead self.old before items
            → DecoderHasRead self.new (before ++ low_bits result bits) items }
        ensures some { 0 < result }
        ensures most { result ≤ count }
        ensures many { DecoderTakesMany self.old bits count result }
        ensures places { decoder_places self.new ≤ decoder_places self.old + result }
        ensures fed { decoder_fed self.new ≡ decoder_fed self.old + result }
    {
        if self.run > 0 {
            return self.continue_run(bits, count);
        }
        if self.len >= MOVED_BITS {
            self.take(bits % 2 == 1);
            return 1;
        }
        let taken = count.min(MOVED_BITS - self.len);
        self.append_bits(bits & ((1 << taken) - 1), taken);
        taken
    }

    // Takes the bits that continue the held run, or the one bit that ends it.
    fn continue_run(&mut self, bits: u64, count: u8) -> u8
        requires settled { IsDecoderSettled self.old }
        requires run { 0 < self.old.run }
        requires some { 0 < count }
        requires within { count ≤ 64 }
        requires room { decoder_fed self.old + count < 2 ^ 64 }
        ensures law { (more : List Bool) → decoder_rest self.new more
            ≡ decoder_rest self.old (low_bits result bits ++ more) }
        ensures some { 0 < result }
        ensures most { result ≤ count }
        ensures many { (n : ℕ) → n ≤ count → low_bits n bits ≡ replicate n self.old.one → n ≤ result }
        ensures places { decoder_places self.new ≤ decoder_places self.old + result }
        ensures fed { decoder_fed self.new ≡ decoder_fed self.old + result }
    {
        let others = if self.one { !bits } else { bits };
        let same = others.trailing_zeros().min(u32::from(count)) as u8;
        if same == 0 {
            self.take(bits % 2 == 1);
            return 1;
        }
        self.extend_run(self.one, u64::from(same));
        same
    }

    // Appends bits to the held ones, where no run is held.
    fn append_bits(&mut self, bits: u64, count: u8)
        requires run { self.old.run ≡ 0 }
        requires some { 0 < count }
        requires short { self.old.len + count ≤ 50 }
        requires whole { bits < 2 ^ count }
        requires room { decoder_fed self.old + count < 2 ^ 64 }
        ensures law { (more : List Bool) → decoder_rest self.new more
            ≡ decoder_rest self.old (low_bits count bits ++ more) }
        ensures places { decoder_places self.new ≡ decoder_places self.old + count }
        ensures fed { decoder_fed self.new ≡ decoder_fed self.old + count }
    {
        self.bits = bits << self.len | self.bits;
        self.len += count;
        self.next = 1;
        self.fed += u64::from(count);
    }

    /// Takes one or more of `count` bits that all equal `bit`, and returns how many. It takes all of them if
    /// every held bit equals `bit` and at least one is held. Take every item that is due first.
    pub fn take_run(&mut self, bit: bool, count: u64) -> u64
        requires settled { IsDecoderSettled self.old }
        requires some { 0 < count }
        requires room { decoder_fed self.old + count < 2 ^ 64 }
        ensures law { (more : List Bool) → decoder_rest self.new more
            ≡ decoder_rest self.old (replicate result bit ++ more) }
        ensures read { (bits : List Bool) (items : List Item) → DecoderHasRead self.old bits items
            → DecoderHasRead self.new (bits ++ replicate result bit) items }
        ensures some { 0 < result }
        ensures most { result ≤ count }
        ensures all { (n : ℕ) → 0 < n → decoder_held self.old ≡ replicate n bit → result ≡ count }
        ensures places { decoder_places self.new ≤ decoder_places self.old + result }
        ensures fed { decoder_fed self.new ≡ decoder_fed self.old + result }
    {
        if self.holds_run_of(bit) {
            self.extend_run(bit, count);
            count
        } else {
            self.take(bit);
            1
        }
    }

    // Returns whether the held bits are a run of `bit` alone.
    fn holds_run_of(&self, bit: bool) -> bool
        requires { IsDecoderSettled self.now }
        ensures run { result ≡ true → (n : ℕ) × (0 < n) × (decoder_held self.now ≡ replicate n bit) }
        ensures none { result ≡ false → (n : ℕ) → 0 < n → decoder_held self.now ≡ replicate n bit → ⊥ }
    {
        if self.run > 0 {
            return self.one == bit;
        }
        if self.len == 0 {
            return false;
        }
        if bit {
            self.bits == (1 << self.len) - 1
        } else {
            self.bits == 0
        }
    }

    // Takes `count` more bits of the held run.
    fn extend_run(&mut self, bit: bool, count: u64)
        requires settled { IsDecoderSettled self.old }
        requires some { 0 < count }
        requires room { decoder_fed self.old + count < 2 ^ 64 }
        requires run { (n : ℕ) × (0 < n) × (decoder_held self.old ≡ replicate n bit) }
        ensures law { (more : List Bool) → decoder_rest self.new more
            ≡ decoder_rest self.old (replicate count bit ++ more) }
        ensures places { decoder_places self.new ≤ decoder_places self.old + count }
        ensures fed { decoder_fed self.new ≡ decoder_fed self.old + count }
    {
        self.run += u64::from(self.len) + count;
        self.one = bit;
        self.len = 0;
        self.bits = 0;
        self.next = 1;
        self.fed += count;
        if !bit {
            // The switch doesn't begin with two zeros.
            self.mode = Mode::Synced;
        }
    }

    /// Takes a whole transaction, and the idle cycles before it, from the lowest `count` bits of `bits`. The
    /// least significant bit is first in time. Idle cycles that were held are added to these. `None` says
    /// nothing about the bits, and changes nothing.
    ///
    /// `take_bits` and `due` find the same items. This call is faster where many whole transactions come,
    /// since it holds no bits.
    #[inline(always)]
    pub fn take_tx(&mut self, bits: u64, count: u8) -> Option<FoundTx>
        requires within { count ≤ 64 }
        requires room { decoder_fed self.old + count < 2 ^ 64 }
        ensures tx { IfSome result (λ found. DecoderTakesTx self.old self.new bits count found) }
        ensures read { IfSome result (λ found. (tx : Tx) (before : List Bool) (items : List Item)
            → SpellsTx tx (tx_bits_of found.tx) → DecoderHasRead self.old before items
            → DecoderHasRead self.new (before ++ low_bits found.taken bits)
            (items ++ (idle_items found.idle ++ Item.Tx tx ∷ []))) }
        ensures none { IfNone result (self.new ≡ self.old) }
    {
        if bits == 0 || !self.holds_idle_alone() {
            return None;
        }
        let zeros = bits.trailing_zeros() as u8;
        let Some(tx) = acknowledged(bits >> zeros) else {
            return None;
        };
        let taken = zeros + tx.len;
        if taken > count {
            return None;
        }
        let idle = self.run + u64::from(zeros);
        self.run = 0;
        self.next = 1;
        self.fed += u64::from(taken);
        Some(FoundTx { idle, taken, tx })
    }

    // Returns whether nothing is held but idle cycles, if anything, and the mode is synced.
    #[inline(always)]
    fn holds_idle_alone(&self) -> bool
        ensures mode { result ≡ true → self.now.mode ≡ Mode.Synced }
        ensures alone { result ≡ true → self.now.len ≡ 0 }
        ensures idle { result ≡ true → 0 < self.now.run → self.now.one ≡ false }
    {
        let Mode::Synced = self.mode else {
            return false;
        };
        self.len == 0 && (self.run == 0 || !self.one)
    }

    /// Returns the bits of the next decided item, if this call finds a transaction there. `None` says nothing
    /// about what is due, and changes nothing.
    ///
    /// `due` returns the same item. This call is faster where the transaction is needed as a number.
    #[inline(always)]
    pub fn due_tx(&mut self) -> Option<TxBits>
        ensures tx { IfSome result (λ spelled. GivesTxItem self.old self.new spelled) }
        ensures read { IfSome result (λ spelled. (tx : Tx) (bits : List Bool) (items : List Item)
            → SpellsTx tx (tx_bits_of spelled) → DecoderHasRead self.old bits items
            → DecoderHasRead self.new bits (items ++ Item.Tx tx ∷ [])) }
        ensures none { IfNone result (self.new ≡ self.old) }
    {
        if self.len < self.next || self.run > 0 || self.bits % 2 == 0 {
            return None;
        }
        let Mode::Synced = self.mode else {
            return None;
        };
        let Front::Whole(tx, len) = front_of(self.bits, self.len) else {
            return None;
        };
        let spelled = TxBits {
            len,
            bits: self.bits & ((1 << len) - 1),
        };
        self.drop_tx(tx, len);
        Some(spelled)
    }

    // Removes the transaction at the front.
    #[inline(always)]
    fn drop_tx(&mut self, tx: Tx, len: u8)
        requires run { self.old.run ≡ 0 }
        requires mode { self.old.mode ≡ Mode.Synced }
        requires stands { stands (low_bits self.old.len self.old.bits) ≡ Whole tx len }
        requires some { 12 ≤ len }
        ensures { GivesItem self.old self.new (Item.Tx tx) }
    {
        self.bits >>= len;
        self.len -= len;
        self.next = 1;
        if let TxEnd::NoAck(_) = tx.result {
            self.mode = Mode::Lost;
        }
    }

    /// Returns held bits that are the next items, each of them junk, at most 50 bits. Ones at the end of the
    /// held bits are never among them, since a line reset may begin with them. `None` says nothing about what
    /// is due, and changes nothing.
    ///
    /// `due` returns the same items one by one. This call is faster where there are many.
    #[inline(always)]
    pub fn due_junk(&mut self) -> Option<TxBits>
        ensures junk { IfSome result (λ found. GivesJunkItems self.old self.new found) }
        ensures read { IfSome result (λ found. (bits : List Bool) (items : List Item)
            → DecoderHasRead self.old bits items
            → DecoderHasRead self.new bits (items ++ map Item.Junk (tx_bits_of found))) }
        ensures none { IfNone result (self.new ≡ self.old) }
    {
        let Mode::Lost = self.mode else {
            return None;
        };
        if self.run > 0 {
            return None;
        }
        let count = self.before_ones();
        if count == 0 {
            return None;
        }
        let found = TxBits {
            len: count,
            bits: self.bits & ((1 << count) - 1),
        };
        self.bits >>= count;
        self.len -= count;
        self.next = 1;
        Some(found)
    }

    // Returns how many of the bits after the run come before the ones at their end.
    #[inline(always)]
    fn before_ones(&self) -> u8
        ensures within { result ≤ self.now.len }
        ensures zero { 0 < result → self.now.bits + 2 ^ (result - 1) < 2 ^ self.now.len }
    {
        let zeros = (1 << self.len) - 1 - self.bits;
        (u64::BITS - zeros.leading_zeros()) as u8
    }

    /// Returns the next decided item: one that no later bits can change. Returns `None` if there is no such
    /// item.
    #[inline(always)]
    pub fn due(&mut self) -> Option<Item>
        ensures item { IfSome result (λ item. (more : List Bool)
            → decoder_rest self.old more ≡ item ∷ decoder_rest self.new more) }
        ensures read { IfSome result (λ item. (bits : List Bool) (items : List Item)
            → DecoderHasRead self.old bits items → DecoderHasRead self.new bits (items ++ item ∷ [])) }
        ensures fewer { IfSome result (λ item. decoder_places self.new < decoder_places self.old) }
        ensures none { IfNone result ((more : List Bool) → decoder_rest self.old more ≡ decoder_rest self.new more) }
        ensures decided { IfNone result ((bits : List Bool) (items : List Item) → DecoderHasRead self.old bits items
            → DecoderHasRead self.new bits items × IsDecided bits items) }
        ensures undecided { IfNone result (DecidesNoItem (decoder_rest self.new)) }
        ensures settled { IfNone result (IsDecoderSettled self.new) }
        ensures places { IfNone result (decoder_places self.new ≤ decoder_places self.old) }
        ensures fed { decoder_fed self.new ≡ decoder_fed self.old }
    {
        if self.len < self.next {
            return None;
        }
        self.decide()
    }

    // Returns the next decided item, by all held bits.
    #[inline(always)]
    fn decide(&mut self) -> Option<Item>
        ensures { DecidesItem self.old self.new result }
    {
        if self.run > 0 {
            if self.len == 0 {
                return None;
            }
            if !self.one || self.run >= RESET_ONES {
                return Some(self.end_run());
            }
            self.unpack();
        }
        self.decide_bits()
    }

    // Ends the run, and returns it as an item.
    fn end_run(&mut self) -> Item
        requires run { 0 < self.old.run }
        requires long { self.old.one ≡ true → 50 ≤ self.old.run }
        ensures law { 0 < self.old.len → (more : List Bool)
            → decoder_rest self.old more ≡ result ∷ decoder_rest self.new more }
        ensures last { self.old.len ≡ 0 → decoder_rest self.old [] ≡ result ∷ decoder_rest self.new [] }
        ensures fewer { decoder_places self.new < decoder_places self.old }
        ensures fed { decoder_fed self.new ≡ decoder_fed self.old }
    {
        let run = self.run;
        self.run = 0;
        if self.one {
            self.mode = Mode::AfterReset;
            Item::Reset(run)
        } else {
            Item::Idle(run)
        }
    }

    // Holds a run that is too short for a line reset as bits.
    fn unpack(&mut self)
        requires run { 0 < self.old.run }
        requires ones { self.old.one ≡ true }
        requires few { self.old.run < 50 }
        requires ended { 0 < self.old.len }
        ensures law { (more : List Bool) → decoder_rest self.old more ≡ decoder_rest self.new more }
        ensures run { self.new.run ≡ 0 }
        ensures places { decoder_places self.new ≡ decoder_places self.old }
        ensures fed { decoder_fed self.new ≡ decoder_fed self.old }
    {
        let run = self.run as u8;
        self.bits = self.bits << run | ((1 << run) - 1);
        self.len += run;
        self.run = 0;
    }

    // Holds the bits, which are all equal, as a run.
    fn pack(&mut self, bit: bool)
        requires run { self.old.run ≡ 0 }
        requires some { 0 < self.old.len }
        requires same { low_bits self.old.len self.old.bits ≡ replicate self.old.len bit }
        requires idle { bit ≡ false → self.old.mode ≡ Mode.Synced }
        ensures { DecoderWaits self.old self.new }
    {
        self.run = u64::from(self.len);
        self.one = bit;
        self.len = 0;
        self.bits = 0;
        self.next = 1;
    }

    // Returns the next decided item of the held bits, without a run.
    #[inline(always)]
    fn decide_bits(&mut self) -> Option<Item>
        requires { self.old.run ≡ 0 }
        ensures { DecidesItem self.old self.new result }
    {
        self.next = 1;
        if self.len == 0 {
            return None;
        }
        if self.bits == (1 << self.len) - 1 {
            self.pack(true);
            return None;
        }
        match self.mode {
            Mode::Synced => self.synced(),
            Mode::AfterReset => self.after_reset(),
            Mode::AfterSwitch | Mode::Lost => Some(self.junk()),
        }
    }

    // Returns the first held bit as junk.
    fn junk(&mut self) -> Item
        requires run { self.old.run ≡ 0 }
        requires some { 0 < self.old.len }
        requires first { (more : List Bool)
            → reading self.old.mode (low_bits self.old.len self.old.bits ++ more)
            ≡ Item.Junk (self.old.bits % 2 == 1)
            ∷ reading Mode.Lost (low_bits (self.old.len - 1) (self.old.bits / 2) ++ more) }
        ensures { GivesItem self.old self.new result }
    {
        let bit = self.bits % 2 == 1;
        self.bits /= 2;
        self.len -= 1;
        self.next = 1;
        self.mode = Mode::Lost;
        Item::Junk(bit)
    }

    // Decides idle cycles, a transaction or its beginning, or junk.
    #[inline(always)]
    fn synced(&mut self) -> Option<Item>
        requires run { self.old.run ≡ 0 }
        requires some { 0 < self.old.len }
        requires mode { self.old.mode ≡ Mode.Synced }
        requires zero { trace_all_ones (low_bits self.old.len self.old.bits) ≡ false }
        ensures { DecidesItem self.old self.new result }
    {
        if self.bits % 2 == 0 {
            return self.idle();
        }
        match front_of(self.bits, self.len) {
            Front::Begun(next) => {
                self.next = next;
                None
            }
            Front::Whole(tx, len) => {
                self.drop_tx(tx, len);
                Some(Item::Tx(tx))
            }
            Front::Broken => Some(self.junk()),
        }
    }

    // Returns idle cycles if a one ends them; otherwise more may follow.
    fn idle(&mut self) -> Option<Item>
        requires run { self.old.run ≡ 0 }
        requires some { 0 < self.old.len }
        requires mode { self.old.mode ≡ Mode.Synced }
        requires first { self.old.bits % 2 ≡ 0 }
        ensures { DecidesItem self.old self.new result }
    {
        if self.bits == 0 {
            self.pack(false);
            return None;
        }
        let zeros = self.bits.trailing_zeros() as u8;
        self.bits >>= zeros;
        self.len -= zeros;
        self.next = 1;
        Some(Item::Idle(u64::from(zeros)))
    }

    // Decides a switch, its beginning, or what else follows a line reset.
    fn after_reset(&mut self) -> Option<Item>
        requires run { self.old.run ≡ 0 }
        requires some { 0 < self.old.len }
        requires mode { self.old.mode ≡ Mode.AfterReset }
        requires zero { trace_all_ones (low_bits self.old.len self.old.bits) ≡ false }
        ensures { DecidesItem self.old self.new result }
    {
        let seen = self.len.min(SWITCH_BITS);
        let mask = (1 << seen) - 1;
        if self.bits & mask != SWITCH & mask {
            self.next = 1;
            self.mode = Mode::Synced;
            return self.synced();
        }
        if self.len < SWITCH_BITS {
            self.next = self.len + 1;
            return None;
        }
        self.bits >>= SWITCH_BITS;
        self.len -= SWITCH_BITS;
        self.next = 1;
        self.mode = Mode::AfterSwitch;
        Some(Item::Switch)
    }

    /// Returns the next item of a trace that ends here. Returns `None` if all items were returned.
    #[inline]
    pub fn last(&mut self) -> Option<Item>
        ensures item { IfSome result (λ item. decoder_rest self.old [] ≡ item ∷ decoder_rest self.new []) }
        ensures fewer { IfSome result (λ item. decoder_places self.new < decoder_places self.old) }
        ensures none { IfNone result (decoder_rest self.old [] ≡ []) }
        ensures fed { decoder_fed self.new ≡ decoder_fed self.old }
    {
        match self.decide() {
            Some(item) => Some(item),
            None => self.close(),
        }
    }

    // Returns the item that the end of the trace makes of undecided bits.
    fn close(&mut self) -> Option<Item>
        requires { IsDecoderOpen self.old }
        ensures { DecoderCloses self.old self.new result }
    {
        if self.run > 0 {
            return Some(self.close_run());
        }
        if self.len == 0 {
            return None;
        }
        Some(self.close_bits())
    }

    // Does the same for a run.
    fn close_run(&mut self) -> Item
        requires run { 0 < self.old.run }
        requires alone { self.old.len ≡ 0 }
        ensures { ClosesWithItem self.old self.new result }
    {
        if !self.one || self.run >= RESET_ONES {
            return self.end_run();
        }
        if let Mode::Lost = self.mode {
            self.run -= 1;
            return Item::Junk(true);
        }
        let cut = TxBits {
            len: self.run as u8,
            bits: (1 << self.run) - 1,
        };
        self.run = 0;
        Item::Cut(cut)
    }

    // Does the same for other bits.
    fn close_bits(&mut self) -> Item
        requires run { self.old.run ≡ 0 }
        requires some { 0 < self.old.len }
        requires open_end { IsTraceOpenAt self.old.mode (low_bits self.old.len self.old.bits) }
        ensures { ClosesWithItem self.old self.new result }
    {
        self.next = 1;
        if let Mode::AfterReset = self.mode {
            // The beginning of a switch: a zero, and ones after it.
            self.bits /= 2;
            self.len -= 1;
            self.mode = Mode::Synced;
            return Item::Idle(1);
        }
        let cut = TxBits {
            len: self.len,
            bits: self.bits,
        };
        self.len = 0;
        self.bits = 0;
        Item::Cut(cut)
    }
}
