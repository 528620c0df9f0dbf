//! Reads trace text, and gives its parts to a sink.
ghost use Rattle.std.specs.Prelude.{◌≡◌, ℕ, List, Bool, [], ◌∷◌, ◌++◌, OnOk, IfErr};
ghost use Rattle.swd_bits.specs.BitLists.{tx_bits_of};
ghost use Rattle.swd_resync.specs.declared.part.Part.{Part};
ghost use Rattle.swd_text.specs.Sinks.{LeadsSinkOn, LeadsSinkToStop, sink_takes_nothing, sink_leads_join};
ghost use Rattle.swd_capture.specs.Printing.{capture_junk_parts};
ghost use Rattle.swd_capture_text.specs.PartSinks.{IsFreshPartReader, PartStart, PartsGather, PartReaderHasTaken};
ghost use Rattle.swd_capture_text.specs.PartSinks.{PartReaderStops, PartsGoTo};
ghost use Rattle.swd_capture_text.specs.Readings.{SourceDecides, source_reading_parts};
ghost use Rattle.swd_capture_text.specs.Sources.{IsSourceReady, source_fed};

use crate::reading::Reading;
use crate::source::Source;
use std::io::Read;
use swd_bits::TxBits;
use swd_resync::Part;
use swd_text::{BitSink, DecodeFault, read_text};

/// Takes the parts of a trace or a capture. It may write to a `W`, which is `()` if it writes nothing.
pub trait PartSink<W>: Drop {
    // These parts led it, and what it writes to, from one state to another.
    ghost led: { Self × W → List Part → Self × W → Type 0 };

    // It stopped between two states, after so many bytes of its output.
    ghost stops: { Self × W → ℕ → Self × W → Type 0 };

    /// Takes the next part.
    fn take_part(&mut self, writer: &mut W, part: &Part)
        ensures { led (self.old, writer.old) (part.now ∷ []) (self.new, writer.new) };

    /// Takes junk bits, each of them a part.
    fn take_junk(&mut self, writer: &mut W, junk: TxBits)
        ensures { led (self.old, writer.old) (capture_junk_parts (tx_bits_of junk)) (self.new, writer.new) };

    /// Writes the output of the parts so far, before more is read.
    ///
    /// # Errors
    ///
    /// If the writer fails: how many bytes of the output were written, at most 2^64 - 1. It takes no more parts then.
    fn pause(&mut self, writer: &mut W) -> Result<(), u64>
        ensures led { OnOk result (led (self.old, writer.old) [] (self.new, writer.new)) }
        ensures stops { IfErr result (λ told. stops (self.old, writer.old) told (self.new, writer.new)) };

    ghost led_nowhere: { (a : Self × W) → led a [] a };

    ghost led_on: { (a b c : Self × W) (first next : List Part) → led a first b → led b next c
        → led a (first ++ next) c };
}

/// A sink of bits, which gives each part to its own sink as soon as the part is decided. [`read_parts`] gives it the
/// bits of a text.
#[derive(Drop)]
pub struct PartReader<K> {
    source: Source,
    sink: K,
}

impl<K> PartReader<K> {
    /// Returns a reader that took no bits.
    pub fn new(reading: Reading, sink: K) -> PartReader<K>
        ensures { IsFreshPartReader reading sink result }
    {
        PartReader {
            source: Source::new(reading),
            sink,
        }
    }

    /// Gives the parts that the end of the bits decides, and returns the sink.
    pub fn finish<W>(self, writer: &mut W) -> K
    where
        K: PartSink<W>,
        ensures { (start : PartStart (K × W)) (bits : List Bool)
            → PartReaderHasTaken K.led start (self, writer.old) bits
            → K.led start.from (source_reading_parts start.reading bits) (result, writer.new) }
    {
        let mut reader = self;
        give_last(&mut reader, writer);
        reader.sink
    }
}

// Gives junk bits that are due.
#[inline(always)]
fn give_junk<W, K: PartSink<W>>(reader: &mut PartReader<K>, writer: &mut W)
    ensures gathers { (start : PartStart (K × W)) (bits : List Bool) (parts : List Part)
        → PartsGather K.led start reader.old.source (reader.old.sink, writer.old) bits parts
        → (more : List Part)
        × PartsGather K.led start reader.new.source (reader.new.sink, writer.new) bits more }
    ensures fed { source_fed reader.new.source ≡ source_fed reader.old.source }
{
    if let Some(junk) = reader.source.due_junk() {
        reader.sink.take_junk(writer, junk);
    }
}

// Gives the parts that are due.
fn give_due<W, K: PartSink<W>>(reader: &mut PartReader<K>, writer: &mut W)
    ensures gathers { (start : PartStart (K × W)) (bits : List Bool) (parts : List Part)
        → PartsGather K.led start reader.old.source (reader.old.sink, writer.old) bits parts
        → (more : List Part)
        × PartsGather K.led start reader.new.source (reader.new.sink, writer.new) bits more
        × SourceDecides start.reading bits more }
    ensures ready { IsSourceReady reader.new.source }
    ensures fed { source_fed reader.new.source ≡ source_fed reader.old.source }
{
    give_junk(reader, writer);
    while let Some(part) = reader.source.due() {
        reader.sink.take_part(writer, &part);
    }
}

// Gives the parts that the end of the bits decides.
fn give_last<W, K: PartSink<W>>(reader: &mut PartReader<K>, writer: &mut W)
    ensures { (start : PartStart (K × W)) (bits : List Bool) (parts : List Part)
        → PartsGather K.led start reader.old.source (reader.old.sink, writer.old) bits parts
        → K.led start.from (source_reading_parts start.reading bits) (reader.new.sink, writer.new) }
{
    while let Some(part) = reader.source.last() {
        reader.sink.take_part(writer, &part);
    }
}

impl<W, K: PartSink<W>> BitSink<W> for PartReader<K> {
    ghost ready = { λ reader. IsSourceReady reader.source };

    ghost fed = { λ reader. source_fed reader.source };

    ghost led = { LeadsSinkOn (PartReaderHasTaken K.led) };

    ghost stops = { LeadsSinkToStop (PartReaderHasTaken K.led) (PartReaderStops K.led K.stops) };

    #[inline(always)]
    fn fed(&self) -> u64 {
        self.source.fed()
    }

    fn take_bit(&mut self, writer: &mut W, bit: bool) {
        self.source.take(bit);
        give_due(self, writer);
    }

    fn take_bits(&mut self, writer: &mut W, bits: u64, count: u8) -> u8 {
        match self.source.take_tx(bits, count) {
            Some(found) => {
                self.sink.take_part(writer, &found.part);
                found.taken
            }
            None => {
                let taken = self.source.take_bits(bits, count);
                give_due(self, writer);
                taken
            }
        }
    }

    fn pause(&mut self, writer: &mut W) -> Result<(), u64> {
        self.sink.pause(writer)
    }

    ghost led_nowhere = { sink_takes_nothing (PartReaderHasTaken K.led) };

    ghost led_on = { sink_leads_join (PartReaderHasTaken K.led) };
}

/// Reads a trace text as a trace or as a capture, and gives its parts to a sink, which comes back at the end of the
/// text. Each part is given as soon as it is decided: no later bits can change it, and in a capture
/// `swd_resync::CaptureDecoder` holds it no longer. The sink pauses before each further read.
///
/// # Errors
///
/// Returns the first error, or `Write` if the writer fails on the output before it.
/// - `Text` and `Read`: the sink was given exactly the parts decided before the error.
/// - `Write`: the sink stopped in `pause`, after `written` bytes.
pub fn read_parts<R: Read, W, K: PartSink<W>>(
    reading: Reading,
    reader: &mut R,
    writer: &mut W,
    sink: K,
) -> Result<K, DecodeFault>
    ensures { PartsGoTo K.led K.stops reading result (R.remaining reader.old) (R.remaining reader.new)
        (sink, writer.old) writer.new }
{
    let parts = PartReader::new(reading, sink);
    match read_text(reader, writer, parts) {
        Ok(parts) => Ok(parts.finish(writer)),
        Err(fault) => Err(fault),
    }
}
