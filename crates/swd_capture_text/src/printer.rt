//! Prints parts to a block of output.
ghost use Rattle.std.specs.Prelude.{List, ◌++◌, []};
ghost use Rattle.swd_bits.specs.BitLists.{tx_bits_of};
ghost use Rattle.swd_resync.specs.declared.part.Part.{Part};
ghost use Rattle.swd_text.specs.Sinks.{LeadsSinkOn, LeadsSinkToStop, sink_takes_nothing, sink_leads_join};
ghost use Rattle.swd_capture.specs.Printing.{capture_junk_parts};
ghost use Rattle.swd_capture.specs.Tellers.{IsCaptureTellerAfter};
ghost use Rattle.swd_capture_text.specs.Printers.{PrintStart, PrintQueues, PrinterHasTaken, PrinterStops};

use crate::parts::PartSink;
use crate::queue::put_part;
use arrayvec::ArrayString;
use std::io::Write;
use swd_bits::TxBits;
use swd_capture::{LONGEST_ENTRY, MOST_JUNK, Printed, Teller};
use swd_io::Block;
use swd_resync::Part;

/// A sink of parts, which queues the output of each.
#[derive(Drop)]
pub(crate) struct Printer {
    pub(crate) teller: Teller,
    // A buffer for one part's output. It is kept, since a new one for each part takes time.
    pub(crate) line: ArrayString<LONGEST_ENTRY>,
}

// Also queues the output of junk bits, each of them a part.
#[inline(never)]
fn put_junk<W: Write>(
    block: &mut Block<'_, W>,
    line: &mut ArrayString<LONGEST_ENTRY>,
    teller: &mut Teller,
    junk: TxBits,
)
    ensures { (start : PrintStart) (parts : List Part) → PrintQueues W.contents start teller.old block.old parts
        → PrintQueues W.contents start teller.new block.new (parts ++ capture_junk_parts (tx_bits_of junk)) }
{
    let mut bits = junk.bits;
    let mut left = junk.len;
    while left > 0 {
        let count = left.min(MOST_JUNK);
        line.clear();
        teller.tell_junk(TxBits { len: count, bits }, line);
        block.put(line.as_str().as_bytes());
        bits >>= count;
        left -= count;
    }
}

impl Printer {
    /// Returns a printer that was given no parts.
    pub(crate) fn new(printed: Printed) -> Printer
        ensures { IsCaptureTellerAfter printed [] result.teller }
    {
        Printer {
            teller: Teller::new(printed),
            line: ArrayString::new(),
        }
    }
}

impl<'a, W: Write> PartSink<Block<'a, W>> for Printer {
    ghost led = { LeadsSinkOn (PrinterHasTaken W.contents) };

    ghost stops = { LeadsSinkToStop (PrinterHasTaken W.contents) (PrinterStops W.contents) };

    fn take_part(&mut self, block: &mut Block<'a, W>, part: &Part) {
        put_part(block, &mut self.line, &mut self.teller, part);
    }

    fn take_junk(&mut self, block: &mut Block<'a, W>, junk: TxBits) {
        put_junk(block, &mut self.line, &mut self.teller, junk);
    }

    fn pause(&mut self, block: &mut Block<'a, W>) -> Result<(), u64> {
        match block.flush() {
            Ok(_) => Ok(()),
            Err(written) => Err(written),
        }
    }

    ghost led_nowhere = { sink_takes_nothing (PrinterHasTaken W.contents) };

    ghost led_on = { sink_leads_join (PrinterHasTaken W.contents) };
}
