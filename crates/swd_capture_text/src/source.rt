//! Decodes bits to parts, by either reading.
use crate::reading::Reading;
use swd_bits::TxBits;
use swd_resync::{CaptureDecoder, FollowedPart, Part};
use swd_trace::Decoder;

/// A decoder for either reading. The parts of a trace are its items.
#[derive(Drop)]
pub enum Source {
    /// Of a trace.
    Trace(Decoder),
    /// Of a capture.
    Capture(CaptureDecoder),
}

impl Source {
    ghost use Rattle.std.specs.Prelude.{◌≡◌, ◌+◌, ◌-◌, ◌^◌, ◌<◌, ◌≤◌, List, Bool, [], ◌∷◌, ◌++◌, IfSome, IfNone};
    ghost use Rattle.swd_bits.specs.Bits.{low_bits};
    ghost use Rattle.swd_bits.specs.BitLists.{tx_bits_of};
    ghost use Rattle.swd_resync.specs.declared.part.Part;
    ghost use Rattle.swd_capture.specs.Printing.{capture_junk_parts};
    ghost use Rattle.swd_capture_text.specs.declared.reading.Reading;
    ghost use Rattle.swd_capture_text.specs.Readings.{SourceDecides, source_reading_parts};
    ghost use Rattle.swd_capture_text.specs.Sources.{SourceEndsAt, SourceHas, IsSourceReady, source_fed};
    ghost use Rattle.swd_capture_text.specs.Sources.{source_steps_left};

    /// Returns a decoder that was fed no bits.
    pub fn new(reading: Reading) -> Source
        ensures has { SourceHas reading result [] [] }
        ensures decides { SourceDecides reading [] [] }
        ensures ready { IsSourceReady result }
        ensures fed { source_fed result ≡ 0 }
    {
        match reading {
            Reading::Trace => Source::Trace(Decoder::new()),
            Reading::Capture { over } => Source::Capture(CaptureDecoder::new(over)),
        }
    }

    /// Returns how many bits it was fed.
    #[inline(always)]
    pub fn fed(&self) -> u64
        ensures { result ≡ source_fed self.now }
    {
        match self {
            Source::Trace(decoder) => decoder.fed(),
            Source::Capture(decoder) => decoder.fed(),
        }
    }

    /// Takes a bit. Take every part that is due first: call `due` until it returns `None`.
    #[inline(always)]
    pub fn take(&mut self, bit: bool)
        requires ready { IsSourceReady self.old }
        requires count { source_fed self.old < 2 ^ 64 - 1 }
        ensures has { (reading : Reading) (bits : List Bool) (parts : List Part) → SourceHas reading self.old bits parts
            → SourceHas reading self.new (bits ++ bit ∷ []) parts }
        ensures fed { source_fed self.new ≡ source_fed self.old + 1 }
    {
        match self {
            Source::Trace(decoder) => decoder.take(bit),
            Source::Capture(decoder) => decoder.take(bit),
        }
    }

    /// Takes one or more of the lowest `count` bits, the least significant first, and returns how many. Take every part
    /// that is due first.
    #[inline(always)]
    pub(crate) fn take_bits(&mut self, bits: u64, count: u8) -> u8
        requires ready { IsSourceReady self.old }
        requires some { 0 < count }
        requires within { count ≤ 64 }
        requires room { source_fed self.old + count < 2 ^ 64 }
        ensures has { (reading : Reading) (before : List Bool) (parts : List Part)
            → SourceHas reading self.old before parts
            → SourceHas reading self.new (before ++ low_bits result bits) parts }
        ensures some { 0 < result }
        ensures most { result ≤ count }
        ensures fed { source_fed self.new ≡ source_fed self.old + result }
    {
        match self {
            Source::Trace(decoder) => decoder.take_bits(bits, count),
            Source::Capture(decoder) => {
                let wanted = decoder.wanted_bits().min(count);
                decoder.take_bits(bits, wanted)
            }
        }
    }

    /// Takes a whole transaction from the lowest `count` bits, and returns the part before it, if that is decided by it
    /// alone. `None` says nothing about the bits, and changes nothing. `take_bits` and `due` find the same parts.
    #[inline(always)]
    pub(crate) fn take_tx(&mut self, bits: u64, count: u8) -> Option<FollowedPart>
        requires within { count ≤ 64 }
        requires room { source_fed self.old + count < 2 ^ 64 }
        ensures has { IfSome result (λ found. (reading : Reading) (before : List Bool) (parts : List Part)
            → SourceHas reading self.old before parts
            → SourceHas reading self.new (before ++ low_bits found.taken bits) (parts ++ found.part ∷ [])
            × SourceDecides reading (before ++ low_bits found.taken bits) (parts ++ found.part ∷ [])) }
        ensures most { IfSome result (λ found. found.taken ≤ count) }
        ensures ready { IfSome result (λ found. IsSourceReady self.new) }
        ensures fed { IfSome result (λ found. source_fed self.new ≡ source_fed self.old + found.taken) }
        ensures none { IfNone result (self.new ≡ self.old) }
    {
        match self {
            Source::Trace(_) => None,
            Source::Capture(decoder) => decoder.take_tx(bits, count),
        }
    }

    /// Returns the next part, which no later bits can change. Returns `None` if it needs more bits.
    #[inline(always)]
    pub fn due(&mut self) -> Option<Part>
        ensures part { IfSome result (λ part. (reading : Reading) (bits : List Bool) (parts : List Part)
            → SourceHas reading self.old bits parts → SourceHas reading self.new bits (parts ++ part ∷ [])) }
        ensures fewer { IfSome result (λ part. source_steps_left self.new < source_steps_left self.old) }
        ensures none { IfNone result ((reading : Reading) (bits : List Bool) (parts : List Part)
            → SourceHas reading self.old bits parts → SourceHas reading self.new bits parts
            × SourceDecides reading bits parts) }
        ensures ready { IfNone result (IsSourceReady self.new) }
        ensures fed { source_fed self.new ≡ source_fed self.old }
    {
        match self {
            Source::Trace(decoder) => match decoder.due() {
                Some(item) => Some(Part::Item(item)),
                None => None,
            },
            Source::Capture(decoder) => decoder.due(),
        }
    }

    /// Returns junk bits that are the next parts of a trace, each of them one. `None` says nothing about what is due,
    /// and changes nothing. `due` returns the same parts one by one.
    #[inline(always)]
    pub(crate) fn due_junk(&mut self) -> Option<TxBits>
        ensures junk { IfSome result (λ found. (reading : Reading) (bits : List Bool) (parts : List Part)
            → SourceHas reading self.old bits parts
            → SourceHas reading self.new bits (parts ++ capture_junk_parts (tx_bits_of found))) }
        ensures none { IfNone result (self.new ≡ self.old) }
        ensures fed { source_fed self.new ≡ source_fed self.old }
    {
        match self {
            Source::Trace(decoder) => decoder.due_junk(),
            Source::Capture(_) => None,
        }
    }

    /// Returns the next part of bits that end here. Returns `None` if all parts were returned: together they are the
    /// reading of all the bits.
    pub fn last(&mut self) -> Option<Part>
        ensures part { IfSome result (λ part. (reading : Reading) (bits : List Bool) (parts : List Part)
            → SourceEndsAt reading self.old bits parts → SourceEndsAt reading self.new bits (parts ++ part ∷ [])) }
        ensures fewer { IfSome result (λ part. source_steps_left self.new < source_steps_left self.old) }
        ensures none { IfNone result ((reading : Reading) (bits : List Bool) (parts : List Part)
            → SourceEndsAt reading self.old bits parts → parts ≡ source_reading_parts reading bits) }
    {
        match self {
            Source::Trace(decoder) => match decoder.last() {
                Some(item) => Some(Part::Item(item)),
                None => None,
            },
            Source::Capture(decoder) => decoder.last(),
        }
    }
}
