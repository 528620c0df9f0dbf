//! The engine of `swd decode`: converts a trace text to its listing.
ghost use Rattle.std.specs.Prelude.{◌≡◌, List, ℕ, [], Option};
ghost use Rattle.swd_io.specs.Blocks.{BlockBufferSends};
ghost use Rattle.swd_trace.specs.Decided.{IsDecided};
ghost use Rattle.swd_trace.specs.Texts.{listing};
ghost use Rattle.swd_text.specs.Decoding.{BitsReadAs, Decodes};
ghost use Rattle.swd_text.specs.Outputs.{TextQueues};

use crate::fault::DecodeFault;
use crate::lister::Lister;
use crate::output::end_output;
use crate::reader::read_text;
use std::io::{Read, Write};
use swd_io::Block;

// Also queues the listing of a trace text.
fn list_text<R: Read, W: Write>(reader: &mut R, block: &mut Block<'_, W>) -> Result<(), DecodeFault>
    ensures { (start : Option (List ℕ)) → BlockBufferSends W.contents start block.old []
        → TextQueues IsDecided BitsReadAs listing listing W.contents result (R.remaining reader.old)
        (R.remaining reader.new) start block.new
        × (block.new.writer.ghost_name ≡ block.old.writer.ghost_name) }
{
    match read_text(reader, block, Lister::new()) {
        Ok(mut lister) => {
            lister.put_last(block);
            Ok(())
        }
        Err(fault) => Err(fault),
    }
}

/// Reads a trace text, and writes its listing: each item's line as soon as no later bits can change the item.
/// The lines that the text so far decides are written before the next read. It allocates nothing, its time is
/// linear in the text, and nothing is retried.
///
/// # Errors
///
/// Returns the first error, or `Write` if the writer fails on the lines before it.
/// - `Text` and `Read`: exactly the lines of the items decided before the error were written.
/// - `Write`: exactly the first `written` bytes of the lines decided so far were written.
pub fn decode_text<R: Read, W: Write>(reader: &mut R, writer: &mut W) -> Result<(), DecodeFault>
    ensures { Decodes result (R.remaining reader.old) (R.remaining reader.new)
        (W.contents writer.old) (W.contents writer.new) }
{
    let mut block = Block::new(writer, 0);
    let read = list_text(reader, &mut block);
    end_output(&mut block, read)
}
