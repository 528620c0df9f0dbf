//! Reads trace text piece by piece, and gives its bits to a sink.
ghost use Rattle.std.specs.Prelude.{◌≡◌, ℕ, ◌+◌, ◌-◌, ◌^◌, ◌<◌, ◌≤◌, min, List, Bool, true, false, [], ◌∷◌, ◌++◌};
ghost use Rattle.std.specs.Prelude.{length, take, OnOk, IfErr};
ghost use Rattle.swd_io.specs.Pieces.{LeadsConsumerOn, LeadsConsumerToEnd};
ghost use Rattle.swd_io.proofs.PieceLemmas.{consumer_reads_no_byte, consumer_pieces_join, consumer_pieces_fault};
ghost use Rattle.swd_bits.specs.Bits.{low_bits};
ghost use Rattle.swd_text.specs.Readers.{IsFreshTextReader, text_reader_sink};
ghost use Rattle.swd_text.specs.Sinks.{TextStopsAt, TextFeeds, TextHasFed, TextFeedStopsIn, TextFeedEnds, TextGoesTo};
ghost use Rattle.swd_text.specs.TextBits.{TextBitsAre};

use crate::comment::comment_len;
use crate::digits::{WIDTH, digits_of};
use crate::fault::{DecodeFault, TakeFault, TextFault};
use std::io::Read;
use swd_bits::{Scan, Sign};
use swd_io::{Consumer, read_pieces};

// The most bits fed before digits are taken 64 at once, so that the count can't overflow.
const MOST_FED: u64 = u64::MAX - WIDTH as u64;

/// Takes the bits of a text. It may write to a `W`, which is `()` if it writes nothing.
pub trait BitSink<W>: Drop {
    // Whether it may be given bits.
    ghost ready: { Self → Type 0 };

    // The number of bits so far.
    ghost fed: { Self → ℕ };

    // These bits led it, and what it writes to, from one state to another.
    ghost led: { Self × W → List Bool → Self × W → Type 0 };

    // It stopped between two states, after so many bytes of its output.
    ghost stops: { Self × W → ℕ → Self × W → Type 0 };

    /// Returns the number of bits so far.
    fn fed(&self) -> u64
        ensures { result ≡ fed self.now };

    /// Takes a bit.
    fn take_bit(&mut self, writer: &mut W, bit: bool)
        requires ready { ready self.old }
        requires count { fed self.old < 2 ^ 64 - 1 }
        ensures ready { ready self.new }
        ensures fed { fed self.new ≡ fed self.old + 1 }
        ensures led { led (self.old, writer.old) (bit ∷ []) (self.new, writer.new) };

    /// Takes one or more of the lowest `count` bits, the least significant first, and returns how many.
    fn take_bits(&mut self, writer: &mut W, bits: u64, count: u8) -> u8
        requires ready { ready self.old }
        requires some { 0 < count }
        requires within { count ≤ 64 }
        requires room { fed self.old + count < 2 ^ 64 }
        ensures ready { ready self.new }
        ensures most { result ≤ count }
        ensures fed { fed self.new ≡ fed self.old + result }
        ensures led { led (self.old, writer.old) (low_bits result bits) (self.new, writer.new) };

    /// Writes what the bits so far decide, before more is read.
    ///
    /// # Errors
    ///
    /// If the writer fails: how many bytes of the output were written, at most 2^64 - 1. It takes no more bits then.
    fn pause(&mut self, writer: &mut W) -> Result<(), u64>
        requires ready { ready self.old }
        ensures ready { OnOk result (ready self.new) }
        ensures fed { OnOk result (fed self.new ≡ fed self.old) }
        ensures led { OnOk result (led (self.old, writer.old) [] (self.new, writer.new)) }
        ensures stops { IfErr result (λ told. stops (self.old, writer.old) told (self.new, writer.new)) };

    ghost led_nowhere: { (a : Self × W) → led a [] a };

    ghost led_on: { (a b c : Self × W) (first next : List Bool) → led a first b → led b next c
        → led a (first ++ next) c };
}

/// A reader of trace text, which gives each bit to its sink, digits many at once. It is a `Consumer`: it takes a text
/// in pieces, and pauses its sink after each. [`read_text`] gives it what a reader has.
#[derive(Drop)]
pub struct TextReader<S> {
    scan: Scan,
    sink: S,
    // The number of bytes taken, at most 2^64 - 1.
    place: u64,
}

impl<S> TextReader<S> {
    /// Returns a reader that took no bytes.
    pub fn new(sink: S) -> TextReader<S>
        ensures { IsFreshTextReader sink result }
    {
        TextReader {
            scan: Scan::new(),
            sink,
            place: 0,
        }
    }

    /// Returns the sink.
    pub fn into_sink(self) -> S
        ensures { result ≡ text_reader_sink self }
    {
        self.sink
    }
}

// Takes a bit, unless it is one too many.
fn take_one<W, S: BitSink<W>>(
    reader: &mut TextReader<S>,
    writer: &mut W,
    bit: bool,
) -> Result<(), TextFault>
    requires { S.ready reader.old.sink }
    ensures ready { S.ready reader.new.sink }
    ensures ok { OnOk result (S.led (reader.old.sink, writer.old) (bit ∷ []) (reader.new.sink, writer.new)
        × (S.fed reader.new.sink ≡ S.fed reader.old.sink + 1) × (S.fed reader.old.sink < 2 ^ 64 - 1)) }
    ensures scan { reader.new.scan ≡ reader.old.scan }
    ensures place { reader.new.place ≡ reader.old.place }
    ensures long { IfErr result (λ fault. (fault ≡ TextFault.TooLong) × (S.fed reader.old.sink ≡ 2 ^ 64 - 1)
        × (reader.new.sink ≡ reader.old.sink) × (writer.new ≡ writer.old)) }
{
    if reader.sink.fed() == u64::MAX {
        return Err(TextFault::TooLong);
    }
    reader.sink.take_bit(writer, bit);
    Ok(())
}

// Takes the byte at an index of a piece, or returns why it isn't allowed there.
fn take_byte<W, S: BitSink<W>>(
    reader: &mut TextReader<S>,
    writer: &mut W,
    byte: u8,
    index: usize,
) -> Result<(), TextFault>
    requires { S.ready reader.old.sink }
    ensures ready { S.ready reader.new.sink }
    ensures place { reader.new.place ≡ reader.old.place }
    ensures ok { OnOk result ((start : S × W) (seen : List ℕ)
        → TextFeeds S.led S.fed start reader.old writer.old seen
        → TextFeeds S.led S.fed start reader.new writer.new (seen ++ byte ∷ [])) }
    ensures err { IfErr result (λ fault. (start : S × W) (seen : List ℕ)
        → TextFeeds S.led S.fed start reader.old writer.old seen
        → TextStopsAt fault (min (reader.old.place + index) (2 ^ 64 - 1)) seen byte
        × TextBitsAre (λ bits. S.led start bits (reader.new.sink, writer.new)) seen) }
{
    match reader.scan.byte(byte) {
        Sign::Passed => Ok(()),
        Sign::Bad => Err(TextFault::BadChar {
            place: reader.place.saturating_add(index as u64),
        }),
        Sign::Bit(bit) => take_one(reader, writer, bit),
    }
}

// Returns whether digits at the front of a text may be taken at once. They may not in a short text, before a blank, or
// where the count of bits might overflow. The bytes are then taken one by one.
#[inline]
fn may_take_digits<W, S: BitSink<W>>(sink: &S, text: &[u8]) -> bool
    ensures long { result ≡ true → WIDTH ≤ length text.now }
    ensures room { result ≡ true → S.fed sink.now + WIDTH < 2 ^ 64 }
{
    text.len() >= WIDTH && text[0] >= b'0' && sink.fed() <= MOST_FED
}

// Takes digits at the front of a text at once, and returns how many: 0 or more.
fn take_digits<W, S: BitSink<W>>(reader: &mut TextReader<S>, writer: &mut W, text: &[u8]) -> usize
    requires ready { S.ready reader.old.sink }
    requires outside { reader.old.scan ≡ false }
    ensures ready { S.ready reader.new.sink }
    ensures place { reader.new.place ≡ reader.old.place }
    ensures within { result ≤ length text.now }
    ensures taken { (start : S × W) (seen : List ℕ) → TextFeeds S.led S.fed start reader.old writer.old seen
        → TextFeeds S.led S.fed start reader.new writer.new (seen ++ take result text.now) }
{
    if !may_take_digits::<W, S>(&reader.sink, text) {
        return 0;
    }
    let digits = digits_of(text);
    if digits.count == 0 {
        return 0;
    }
    usize::from(reader.sink.take_bits(writer, digits.bits, digits.count))
}

// Takes bytes at the front of a text at once, and returns how many: those of an open comment, or digits, or 0.
#[inline(always)]
fn take_many<W, S: BitSink<W>>(reader: &mut TextReader<S>, writer: &mut W, text: &[u8]) -> usize
    requires { S.ready reader.old.sink }
    ensures ready { S.ready reader.new.sink }
    ensures place { reader.new.place ≡ reader.old.place }
    ensures within { result ≤ length text.now }
    ensures taken { (start : S × W) (seen : List ℕ) → TextFeeds S.led S.fed start reader.old writer.old seen
        → TextFeeds S.led S.fed start reader.new writer.new (seen ++ take result text.now) }
{
    if reader.scan.in_comment() {
        return comment_len(text);
    }
    take_digits(reader, writer, text)
}

// Takes the bytes of a piece, up to the first one that isn't allowed.
fn take_piece<W, S: BitSink<W>>(
    reader: &mut TextReader<S>,
    writer: &mut W,
    piece: &[u8],
) -> Result<(), TextFault>
    requires { S.ready reader.old.sink }
    ensures ready { S.ready reader.new.sink }
    ensures ok { OnOk result ((start : S × W) (seen : List ℕ)
        → TextFeeds S.led S.fed start reader.old writer.old seen
        → TextFeeds S.led S.fed start reader.new writer.new (seen ++ piece.now)) }
    ensures place { OnOk result (reader.new.place ≡ min (reader.old.place + length piece.now) (2 ^ 64 - 1)) }
    ensures err { IfErr result (λ fault. (start : S × W) (seen : List ℕ)
        → TextFeeds S.led S.fed start reader.old writer.old seen
        → reader.old.place ≡ min (length seen) (2 ^ 64 - 1)
        → TextFeedStopsIn S.led start (reader.new.sink, writer.new) fault (seen ++ piece.now)) }
{
    let mut index = 0;
    while index < piece.len() {
        let taken = take_many(reader, writer, &piece[index..]);
        if taken > 0 {
            index += taken;
            continue;
        }
        if let Err(fault) = take_byte(reader, writer, piece[index], index) {
            return Err(fault);
        }
        index += 1;
    }
    reader.place = reader.place.saturating_add(piece.len() as u64);
    Ok(())
}

impl<W, S: BitSink<W>> Consumer<W> for TextReader<S> {
    type Fault = TakeFault;

    ghost can_take = { λ reader. S.ready reader.sink };

    ghost takes = { LeadsConsumerOn (TextHasFed S.led S.fed) };

    ghost stops = { LeadsConsumerToEnd (TextHasFed S.led S.fed) (TextFeedEnds S.led S.stops) };

    // What the writer says comes before an error of the text.
    fn take(&mut self, writer: &mut W, piece: &[u8]) -> Result<(), TakeFault> {
        let taken = take_piece(self, writer, piece);
        match self.sink.pause(writer) {
            Ok(()) => {}
            Err(written) => return Err(TakeFault::Write { written }),
        }
        match taken {
            Ok(()) => Ok(()),
            Err(fault) => Err(TakeFault::Text(fault)),
        }
    }

    ghost takes_nothing = { consumer_reads_no_byte (TextHasFed S.led S.fed) };

    ghost takes_on = { consumer_pieces_join (TextHasFed S.led S.fed) };

    ghost stops_later = { consumer_pieces_fault (TextHasFed S.led S.fed) (TextFeedEnds S.led S.stops) };
}

/// Reads a trace text, and gives its bits to a sink, which comes back at the end of the text. The bits of each read
/// are given before the next read, and then the sink pauses. It allocates nothing, its time is linear in the text
/// apart from the sink's, and nothing is retried.
///
/// # Errors
///
/// Returns the first error, or `Write` if the writer fails on the output before it.
/// - `Text` and `Read`: the sink was given exactly the bits before the error.
/// - `Write`: the sink stopped in `pause`, after `written` bytes.
pub fn read_text<R: Read, W, S: BitSink<W>>(
    reader: &mut R,
    writer: &mut W,
    sink: S,
) -> Result<S, DecodeFault>
    requires ready { S.ready sink }
    requires fresh { S.fed sink ≡ 0 }
    ensures { TextGoesTo S.led S.stops result (R.remaining reader.old) (R.remaining reader.new)
        (sink, writer.old) writer.new }
{
    let mut text = TextReader::new(sink);
    match read_pieces(reader, writer, &mut text) {
        Ok(()) => Ok(text.into_sink()),
        Err(unread) => Err(DecodeFault::of(unread)),
    }
}
