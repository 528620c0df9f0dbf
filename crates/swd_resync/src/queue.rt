//! A queue of bits that counts one run of zeros.
ghost use Rattle.std.specs.Prelude.{◌≡◌, ◌+◌, ◌-◌, ◌%◌, ◌^◌, ◌<◌, ◌≤◌, [], ◌∷◌, ◌++◌, drop, replicate, false};
ghost use Rattle.swd_bits.specs.Bits.{low_bits};
ghost use Rattle.swd_resync.specs.Queues.{resync_queued, IsResyncQueue, IsResyncQueueFull, ResyncQueueEndsRun};
ghost use Rattle.swd_resync.specs.Queues.{IsResyncHeld};

/// How many bits are held one by one before a run of zeros is counted: those of a transaction, and of another
/// one that begins inside it.
pub(crate) const FRONT_BITS: u8 = 92;

/// How many bits are held at most behind the run of zeros.
pub(crate) const BACK_BITS: u8 = 63;

/// Bits in time order: the front, then a run of zeros, then the bits after it. In numbers the first bit is
/// least significant.
#[derive(Clone, Copy, Debug)]
pub(crate) struct Queue {
    pub(crate) front: u128,
    pub(crate) front_len: u8,
    pub(crate) zeros: u64,
    pub(crate) back: u64,
    pub(crate) back_len: u8,
}

impl Queue {
    /// Returns an empty queue.
    pub(crate) fn new() -> Queue
        ensures bits { resync_queued result ≡ [] }
        ensures held { IsResyncHeld result }
        ensures room { result.back_len ≡ 0 }
    {
        Queue {
            front: 0,
            front_len: 0,
            zeros: 0,
            back: 0,
            back_len: 0,
        }
    }

    /// Returns the queue with one more bit at its end.
    pub(crate) fn with(self, bit: bool) -> Queue
        requires held { IsResyncHeld self }
        requires room { self.back_len < 63 }
        requires count { self.zeros < 2 ^ 64 - 1 }
        ensures bits { resync_queued result ≡ resync_queued self ++ bit ∷ [] }
        ensures held { IsResyncHeld result }
        ensures room { result.back_len ≤ self.back_len + 1 }
    {
        if self.front_len < FRONT_BITS {
            Queue {
                front: u128::from(bit) << self.front_len | self.front,
                front_len: self.front_len + 1,
                ..self
            }
        } else if self.back_len == 0 && !bit {
            Queue {
                zeros: self.zeros + 1,
                ..self
            }
        } else {
            Queue {
                back: u64::from(bit) << self.back_len | self.back,
                back_len: self.back_len + 1,
                ..self
            }
        }
    }

    /// Returns the queue with the lowest `count` bits at the end of the front. Nothing may be behind the front.
    pub(crate) fn with_front(self, bits: u128, count: u8) -> Queue
        requires held { IsResyncHeld self }
        requires alone { self.zeros + self.back_len ≡ 0 }
        requires room { self.front_len + count ≤ 92 }
        ensures bits { resync_queued result ≡ resync_queued self ++ low_bits count bits }
        ensures held { IsResyncHeld result }
        ensures room { result.back_len ≡ self.back_len }
    {
        let taken = bits & ((1 << count) - 1);
        Queue {
            front: taken << self.front_len | self.front,
            front_len: self.front_len + count,
            ..self
        }
    }

    /// Returns the queue with `count` more zeros in the run. No bits may be behind the run.
    pub(crate) fn with_more_zeros(self, count: u8) -> Queue
        requires held { IsResyncHeld self }
        requires full { self.front_len ≡ 92 }
        requires alone { self.back_len ≡ 0 }
        requires count { self.zeros + count < 2 ^ 64 }
        ensures bits { resync_queued result ≡ resync_queued self ++ replicate count false }
        ensures held { IsResyncHeld result }
        ensures room { result.back_len ≡ self.back_len }
    {
        Queue {
            zeros: self.zeros + u64::from(count),
            ..self
        }
    }

    /// Returns the queue with the lowest `count` bits behind the run. The first bit behind it is a one.
    pub(crate) fn with_back(self, bits: u64, count: u8) -> Queue
        requires held { IsResyncHeld self }
        requires full { self.front_len ≡ 92 }
        requires room { self.back_len + count ≤ 63 }
        requires one { self.back_len ≡ 0 → bits % 2 ≡ 1 }
        ensures bits { resync_queued result ≡ resync_queued self ++ low_bits count bits }
        ensures held { IsResyncHeld result }
        ensures room { result.back_len ≡ self.back_len + count }
    {
        let taken = bits & ((1 << count) - 1);
        Queue {
            back: taken << self.back_len | self.back,
            back_len: self.back_len + count,
            ..self
        }
    }

    /// Returns the bits after the first `count` ones.
    pub(crate) fn shifted(self, count: u8) -> Queue
        requires held { IsResyncHeld self }
        requires within { count ≤ self.front_len }
        ensures bits { resync_queued result ≡ drop count (resync_queued self) }
        ensures held { IsResyncHeld result }
        ensures room { result.back_len ≤ self.back_len }
    {
        let others = Queue {
            front: self.front >> count,
            front_len: self.front_len - count,
            ..self
        };
        if others.zeros == 0 && others.back_len == 0 {
            return others;
        }
        others.with_zeros().with_bits().with_run()
    }

    // Fills the front with zeros of the run.
    fn with_zeros(self) -> Queue
        requires { IsResyncQueue self }
        ensures queue { IsResyncQueue result }
        ensures bits { resync_queued result ≡ resync_queued self }
        ensures full { 0 < result.zeros → result.front_len ≡ 92 }
        ensures back { result.back ≡ self.back }
        ensures back_len { result.back_len ≡ self.back_len }
    {
        let count = self.zeros.min(u64::from(FRONT_BITS - self.front_len));
        Queue {
            front_len: self.front_len + count as u8,
            zeros: self.zeros - count,
            ..self
        }
    }

    // Fills the front with the bits after the run, if the run is empty.
    fn with_bits(self) -> Queue
        requires queue { IsResyncQueue self }
        requires full { 0 < self.zeros → self.front_len ≡ 92 }
        requires ends { ResyncQueueEndsRun self }
        ensures queue { IsResyncQueue result }
        ensures bits { resync_queued result ≡ resync_queued self }
        ensures full { IsResyncQueueFull result }
        ensures ends { 0 < result.zeros → ResyncQueueEndsRun result }
        ensures room { result.back_len ≤ self.back_len }
    {
        if self.zeros > 0 {
            return self;
        }
        let count = self.back_len.min(FRONT_BITS - self.front_len);
        let moved = self.back & ((1 << count) - 1);
        Queue {
            front: u128::from(moved) << self.front_len | self.front,
            front_len: self.front_len + count,
            zeros: 0,
            back: self.back >> count,
            back_len: self.back_len - count,
        }
    }

    // Counts the zeros at the front of the bits after the run, if the run is empty.
    fn with_run(self) -> Queue
        requires queue { IsResyncQueue self }
        requires full { IsResyncQueueFull self }
        requires ends { 0 < self.zeros → ResyncQueueEndsRun self }
        ensures bits { resync_queued result ≡ resync_queued self }
        ensures held { IsResyncHeld result }
        ensures room { result.back_len ≤ self.back_len }
    {
        if self.zeros > 0 {
            return self;
        }
        let count = (self.back.trailing_zeros() as u8).min(self.back_len);
        Queue {
            zeros: u64::from(count),
            back: self.back >> count,
            back_len: self.back_len - count,
            ..self
        }
    }
}
