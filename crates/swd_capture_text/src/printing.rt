//! The engine of `swd decode` with an option: prints a trace text.
ghost use Rattle.std.specs.Prelude.{◌≡◌, List, ℕ, [], Option};
ghost use Rattle.swd_io.specs.Blocks.{BlockBufferSends};
ghost use Rattle.swd_text.specs.Outputs.{TextQueues};
ghost use Rattle.swd_capture.specs.Printing.{capture_printed_parts, capture_printout};
ghost use Rattle.swd_capture_text.specs.Captures.{Prints};
ghost use Rattle.swd_capture_text.specs.Readings.{SourceDecides, SourceReadsAs};

use crate::parts::read_parts;
use crate::printer::Printer;
use crate::queue::put_rows;
use crate::reading::Reading;
use std::io::{Read, Write};
use swd_capture::Printed;
use swd_io::Block;
use swd_text::{DecodeFault, end_output};

// Also queues the output for a trace text.
fn print_text<R: Read, W: Write>(
    reading: Reading,
    printed: Printed,
    reader: &mut R,
    block: &mut Block<'_, W>,
) -> Result<(), DecodeFault>
    ensures { (start : Option (List ℕ)) → BlockBufferSends W.contents start block.old []
        → TextQueues (SourceDecides reading) (SourceReadsAs reading) (capture_printed_parts printed)
        (capture_printout printed) W.contents result (R.remaining reader.old)
        (R.remaining reader.new) start block.new
        × (block.new.writer.ghost_name ≡ block.old.writer.ghost_name) }
{
    match read_parts(reading, reader, block, Printer::new(printed)) {
        Ok(mut printer) => {
            put_rows(block, &mut printer.line, &printer.teller);
            Ok(())
        }
        Err(fault) => Err(fault),
    }
}

/// Reads a trace text as a trace or as a capture, and prints it. The output of each part is written as soon as the
/// part is decided: no later bits can change it, and in a capture `swd_resync::CaptureDecoder` holds it no longer. At
/// the end come the rows of a table, or the accesses that nothing confirms. It allocates nothing, its time is linear in
/// the text, and nothing is retried.
///
/// # Errors
///
/// Returns the first error, or `Write` if the writer fails on the output before it.
/// - `Text` and `Read`: exactly the output of the parts decided before the error was written, and nothing of the end.
/// - `Write`: exactly the first `written` bytes of the output so far were written.
pub fn print_capture<R: Read, W: Write>(
    reading: Reading,
    printed: Printed,
    reader: &mut R,
    writer: &mut W,
) -> Result<(), DecodeFault>
    ensures { Prints reading printed result (R.remaining reader.old) (R.remaining reader.new)
        (W.contents writer.old) (W.contents writer.new) }
{
    let mut block = Block::new(writer, 0);
    let read = print_text(reading, printed, reader, &mut block);
    end_output(&mut block, read)
}
