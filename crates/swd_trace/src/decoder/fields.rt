//! A decoder as a struct of numbers, for callers that keep it in their own memory, such as C programs.
ghost use Rattle.std.specs.Prelude.{◌≡◌, ℕ, Bool, List, IsSome, IfSome, IsTrue};
ghost use Rattle.swd_trace.specs.Holding.{DecoderHolds};
ghost use Rattle.swd_trace.specs.Modes.{IsDecoderRun, decoder_mode_at, decoder_mode_number};

use super::Decoder;
use crate::mode::Mode;

/// The state of a decoder as numbers, with the layout of C. `Decoder::fields` returns them, and `decoder`
/// restores a decoder that behaves the same. Any values are allowed: `decoder` rejects those that no decoder
/// has, such as all zeros.
///
/// `fed` is how many bits the decoder was fed. The other fields are private to this crate.
#[repr(C)]
#[derive(Clone, Copy, Debug, PartialEq, Eq)]
pub struct DecoderFields {
    pub fed: u64,
    pub run: u64,
    pub bits: u64,
    pub mode: u8,
    pub one: u8,
    pub len: u8,
}

fn number_of_mode(mode: Mode) -> u8
    ensures { result ≡ decoder_mode_number mode }
{
    match mode {
        Mode::Synced => 1,
        Mode::AfterReset => 2,
        Mode::AfterSwitch => 3,
        Mode::Lost => 4,
    }
}

// Any other number gives some mode, and `DecoderFields::decoder` then rejects it, since that mode has another
// number.
fn mode_with(number: u8) -> Mode
    ensures { result ≡ decoder_mode_at number }
{
    match number {
        1 => Mode::Synced,
        2 => Mode::AfterReset,
        3 => Mode::AfterSwitch,
        _ => Mode::Lost,
    }
}

impl DecoderFields {
    ghost use Rattle.swd_trace.specs.DecoderNumbers.{IsDecoder, decoder_fields, rest_in};
    ghost use Rattle.swd_trace.specs.Held.{decoder_rest};

    /// Restores the decoder with these numbers. Returns `None` if no decoder has them.
    pub fn decoder(&self) -> Option<Decoder>
        ensures found { IsDecoder self.now → IsSome result }
        ensures same { IfSome result (λ d. decoder_fields d ≡ self.now) }
        ensures rest { IfSome result (λ d. (more : List Bool) → decoder_rest d more ≡ rest_in self.now more) }
    {
        let mode = mode_with(self.mode);
        let one = self.one == 1;
        if !self.is_sound(mode, one) {
            return None;
        }
        let decoder = Decoder {
            mode,
            one,
            run: self.run,
            len: self.len,
            bits: self.bits,
            next: 1,
            fed: self.fed,
        };
        if decoder.fields() == *self {
            Some(decoder)
        } else {
            None
        }
    }

    // Returns whether these can be the parts of a decoder.
    fn is_sound(&self, mode: Mode, one: bool) -> bool
        ensures sound { IsTrue result → DecoderHolds mode one self.now.run self.now.len self.now.bits 1 self.now.fed }
        ensures all { (next : ℕ) → DecoderHolds mode one self.now.run self.now.len self.now.bits next self.now.fed
            → IsTrue result }
    {
        if self.len > 50 || self.bits >> self.len != 0 {
            return false;
        }
        if self.run == 0 {
            return u64::from(self.len) <= self.fed;
        }
        self.is_run(mode, one)
    }

    // Returns whether this is a run, and at most one bit after it, which ends it. A run of zeros needs mode
    // synced.
    fn is_run(&self, mode: Mode, one: bool) -> bool
        ensures sound { IsTrue result → IsDecoderRun mode one self.now.run self.now.len self.now.bits self.now.fed }
        ensures all { IsDecoderRun mode one self.now.run self.now.len self.now.bits self.now.fed → IsTrue result }
    {
        let room = self.fed.saturating_sub(self.run);
        if self.run > self.fed || u64::from(self.len) > room || self.len > 1 {
            return false;
        }
        if self.len == 1 && one == (self.bits % 2 == 1) {
            return false;
        }
        one || matches!(&mode, Mode::Synced)
    }
}

impl Decoder {
    ghost use Rattle.swd_trace.specs.DecoderNumbers.{decoder_fields, rest_in};
    ghost use Rattle.swd_trace.specs.Held.{decoder_rest};

    /// Returns the state of the decoder as numbers.
    pub fn fields(&self) -> DecoderFields
        ensures fields { result ≡ decoder_fields self.now }
        ensures rest { (more : List Bool) → rest_in result more ≡ decoder_rest self.now more }
    {
        DecoderFields {
            fed: self.fed,
            run: self.run,
            bits: self.bits,
            mode: number_of_mode(self.mode),
            one: u8::from(self.one),
            len: self.len,
        }
    }
}
