//! Decodes a capture bit by bit.
ghost use Rattle.swd_resync.specs.Fed.{IsResyncFed};
ghost use Rattle.swd_resync.specs.Fronts.{IsResyncFront};
ghost use Rattle.swd_resync.specs.Holding.{resync_held};

use crate::held::HeldBits;
use crate::look::whole_tx;
use crate::moves::{followed_step, is_acknowledged, next_move};
use crate::overrun::Overrun;
use crate::part::{FollowedPart, Part};
use crate::stage::{RemovalStage, Step, WholeTx};
use swd_bits::MOVED_BITS;

/// A decoder of captures. It takes one bit at a time, and returns parts that no later bits can change. How
/// the bits are divided into calls makes no difference.
///
/// Call `take` with a bit, and then `due` until it returns `None`. At the end, call `last` until it returns
/// `None`.
///
/// It allocates nothing: it holds at most 142 bits, a count of zeros among them, a count of bits before them, and what
/// it saw at their front.
///
/// ```
/// let mut decoder = CaptureDecoder::new(false);
/// for bit in [true, true, false] {
///     decoder.take(bit);
///     assert!(rt; decoder.due().is_none()); // the beginning of a transaction, perhaps
/// }
/// let cut = TxBits { len: 3, bits: 3 };
/// assert_eq!(rt; decoder.last(), Some(Part::Item(Item::Cut(cut))));
/// ```
#[derive(Debug, Drop)]
pub struct CaptureDecoder {
    over: Overrun,
    stage: RemovalStage,
    // The transaction at the front of the held bits, if the last step saw it.
    front: Option<WholeTx>,
    held: HeldBits,
    fed: u64,
    ghost fed_so: { IsResyncFed stage held fed },
    ghost front_so: { IsResyncFront over.phases front (resync_held held) },
}

impl CaptureDecoder {
    ghost use Rattle.std.specs.Prelude.{◌≡◌, ◌+◌, ◌-◌, ◌*◌, ◌^◌, ◌<◌, ◌≤◌, List, Bool, [], ◌∷◌, ◌++◌};
    ghost use Rattle.std.specs.Prelude.{length, drop, IfSome, IfNone};
    ghost use Rattle.swd_resync.specs.Parts.{resync_parts_of};
    ghost use Rattle.swd_resync.specs.Sights.{SightMore};
    ghost use Rattle.swd_resync.specs.Stages.{ResyncMove, resync_with_part};
    ghost use Rattle.swd_resync.specs.Holding.{ResyncTakesMany};
    ghost use Rattle.swd_resync.specs.Decoding.{resync_rest, ResyncHasRead, resync_fed, resync_steps_left};
    ghost use Rattle.swd_resync.specs.Decoding.{ResyncSettled, resync_held_len, IsResyncDecoderStep, ResyncEnds};
    ghost use Rattle.swd_resync.specs.Decoding.{ResyncTakesTx, IsResyncAlone};
    ghost use Rattle.swd_bits.specs.Bits.{low_bits};
    ghost use Rattle.swd_resync.specs.declared.part.Part;

    /// Returns a decoder that was fed no bits. `over` says that at the beginning of the capture the host uses overrun
    /// detection (IHI 0031, B4), so that a data phase follows WAIT and FAULT. From there on the decoder follows the
    /// writes of CTRL/STAT, and the lengths of what WAIT and FAULT ended.
    pub fn new(over: bool) -> CaptureDecoder
        ensures law { (more : List Bool) → resync_rest result more ≡ resync_parts_of over more }
        ensures read { ResyncHasRead over result [] [] }
        ensures fed { resync_fed result ≡ 0 }
        ensures settled { ResyncSettled result }
        ensures held { resync_held_len result ≡ 0 }
    {
        CaptureDecoder {
            over: Overrun::at_start(over),
            stage: RemovalStage::Start(0),
            front: None,
            held: HeldBits::new(),
            fed: 0,
        }
    }

    /// Returns how many bits it was fed.
    pub fn fed(&self) -> u64
        ensures { result ≡ resync_fed self.now }
    {
        self.fed
    }

    /// Takes a bit. Take every part that is due first: call `due` until it returns `None`.
    pub fn take(&mut self, bit: bool)
        requires settled { ResyncSettled self.old }
        requires count { resync_fed self.old < 2 ^ 64 - 1 }
        ensures law { (more : List Bool) → resync_rest self.new more ≡ resync_rest self.old (bit ∷ more) }
        ensures read { (over : Bool) (bits : List Bool) (parts : List Part) → ResyncHasRead over self.old bits parts
            → ResyncHasRead over self.new (bits ++ bit ∷ []) parts }
        ensures left { resync_steps_left self.new ≤ resync_steps_left self.old + 8 }
        ensures fed { resync_fed self.new ≡ resync_fed self.old + 1 }
    {
        self.held.push(bit);
        self.fed += 1;
    }

    /// Takes one or more of the lowest `count` bits of `bits`, from the least significant one, which is first in time.
    /// Returns how many.
    ///
    /// With fewer than 92 bits held it takes all of them, or as many as make 92. With 92 held it takes at least the
    /// zeros at their front, which it counts. In any other case it takes all of them, or as many as make 155 held
    /// bits. Take every part that is due first.
    pub fn take_bits(&mut self, bits: u64, count: u8) -> u8
        requires settled { ResyncSettled self.old }
        requires some { 0 < count }
        requires within { count ≤ 64 }
        requires room { resync_fed self.old + count < 2 ^ 64 }
        ensures law { (more : List Bool) → resync_rest self.new more
            ≡ resync_rest self.old (low_bits result bits ++ more) }
        ensures read { (over : Bool) (before : List Bool) (parts : List Part) → ResyncHasRead over self.old before parts
            → ResyncHasRead over self.new (before ++ low_bits result bits) parts }
        ensures some { 0 < result }
        ensures most { result ≤ count }
        ensures many { ResyncTakesMany (resync_held_len self.old) bits count result }
        ensures held { resync_held_len self.new ≤ 155 }
        ensures left { resync_steps_left self.new ≤ resync_steps_left self.old + 8 * result }
        ensures fed { resync_fed self.new ≡ resync_fed self.old + result }
    {
        let taken = self.held.push_many(bits, count);
        self.fed += u64::from(taken);
        taken
    }

    /// Takes a whole transaction from the lowest `count` bits of `bits`, the least significant of which is first in
    /// time, where it holds nothing but a transaction. Returns that one, which is the next part, as no later bits can
    /// change it. `None` says nothing about the bits, and changes nothing.
    ///
    /// `take_bits` and `due` find the same parts. This call is faster where whole transactions follow one another.
    pub fn take_tx(&mut self, bits: u64, count: u8) -> Option<FollowedPart>
        requires within { count ≤ 64 }
        requires room { resync_fed self.old + count < 2 ^ 64 }
        ensures part { IfSome result (λ found. ResyncTakesTx self.old self.new bits count found) }
        ensures read { IfSome result (λ found. (over : Bool) (before : List Bool) (parts : List Part)
            → ResyncHasRead over self.old before parts
            → ResyncHasRead over self.new (before ++ low_bits found.taken bits) (parts ++ found.part ∷ [])) }
        ensures none { IfNone result (self.new ≡ self.old) }
    {
        let Some(front) = self.held_alone() else {
            return None;
        };
        let Some(follower) = whole_tx(bits, count) else {
            return None;
        };
        let step = followed_step(self.over, &front, follower);
        let Some(part) = step.next.part else {
            return None;
        };
        let taken = follower.len;
        self.held = HeldBits::of(bits, taken);
        self.over = step.next.over;
        self.stage = step.next.stage;
        self.front = step.behind;
        self.fed += u64::from(taken);
        Some(FollowedPart { part, taken })
    }

    /// Returns how many bits `take_bits` is best given next, 1 to 64. With these, where transactions follow one
    /// another, a whole one comes to be held alone, as `take_tx` wants it.
    pub fn wanted_bits(&self) -> u8
        ensures some { 0 < result }
        ensures most { result ≤ 64 }
    {
        let Some(front) = self.front else {
            return 64;
        };
        let behind = self.held.len_behind(front.len);
        if behind > 0 && behind < MOVED_BITS {
            MOVED_BITS - behind
        } else {
            64
        }
    }

    // Returns the transaction that it holds, if it was acknowledged and no other bits are held.
    fn held_alone(&self) -> Option<WholeTx>
        ensures { IfSome result (λ front. IsResyncAlone self.now front) }
    {
        let RemovalStage::Stretch(0) = self.stage else {
            return None;
        };
        let Some(front) = self.front else {
            return None;
        };
        if is_acknowledged(&front.tx) && self.held.has_len(front.len) {
            Some(front)
        } else {
            None
        }
    }

    /// Returns the next part, which no later bits can change. Returns `None` if it needs more bits. Fewer
    /// than 142 bits are then held, apart from a count of zeros.
    pub fn due(&mut self) -> Option<Part>
        ensures part { IfSome result (λ part. (more : List Bool)
            → resync_rest self.old more ≡ part ∷ resync_rest self.new more) }
        ensures read { IfSome result (λ part. (over : Bool) (bits : List Bool) (parts : List Part)
            → ResyncHasRead over self.old bits parts → ResyncHasRead over self.new bits (parts ++ part ∷ [])) }
        ensures fewer { IfSome result (λ part. resync_steps_left self.new < resync_steps_left self.old) }
        ensures none { IfNone result ((more : List Bool) → resync_rest self.old more ≡ resync_rest self.new more) }
        ensures same { IfNone result ((over : Bool) (bits : List Bool) (parts : List Part)
            → ResyncHasRead over self.old bits parts → ResyncHasRead over self.new bits parts) }
        ensures settled { IfNone result (ResyncSettled self.new) }
        ensures held { IfNone result (resync_held_len self.new < 142) }
        ensures fed { resync_fed self.new ≡ resync_fed self.old }
    {
        self.next(false)
    }

    /// Returns the next part of a capture that ends here. Returns `None` if all parts were returned: together
    /// they are the reading of all the bits.
    pub fn last(&mut self) -> Option<Part>
        ensures part { IfSome result (λ part. resync_rest self.old [] ≡ part ∷ resync_rest self.new []) }
        ensures fewer { IfSome result (λ part. resync_steps_left self.new < resync_steps_left self.old) }
        ensures none { IfNone result (resync_rest self.old [] ≡ []) }
        ensures read { IfNone result ((over : Bool) (bits : List Bool) (parts : List Part)
            → ResyncHasRead over self.old bits parts → parts ≡ resync_parts_of over bits) }
        ensures fed { resync_fed self.new ≡ resync_fed self.old }
    {
        self.next(true)
    }

    // Returns the next part.
    fn next(&mut self, ended: bool) -> Option<Part>
        ensures part { IfSome result (λ part. (more : List Bool) → SightMore ended more
            → resync_rest self.old more ≡ part ∷ resync_rest self.new more) }
        ensures fewer { IfSome result (λ part. resync_steps_left self.new < resync_steps_left self.old) }
        ensures same { IfNone result ((more : List Bool) → SightMore ended more
            → resync_rest self.old more ≡ resync_rest self.new more) }
        ensures none { IfNone result (ResyncEnds ended self.new) }
        ensures fed { resync_fed self.new ≡ resync_fed self.old }
    {
        while let Some(step) = next_move(self.over, ended, self.stage, self.front, &self.held) {
            self.go(&step);
            if let Some(part) = step.next.part {
                return Some(part);
            }
        }
        None
    }

    // Removes the bits of a step.
    fn go(&mut self, step: &Step)
        requires moves { (ended : Bool)
            × ResyncMove self.old.over ended self.old.stage (resync_held self.old.held) step.now.next }
        requires behind { IsResyncFront step.now.next.over.phases step.now.behind
            (drop step.now.next.count (resync_held self.old.held)) }
        ensures { IsResyncDecoderStep self.old step.now.next self.new }
    {
        self.held = self.held.without(step.next.count);
        self.over = step.next.over;
        self.stage = step.next.stage;
        self.front = step.behind;
    }
}
