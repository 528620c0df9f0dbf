//! Ends the output for a text.
ghost use Rattle.std.specs.Prelude.{◌≡◌};
ghost use Rattle.swd_text.specs.Outputs.{BlockEnds, TextOutputEnds};

use crate::fault::DecodeFault;
use std::io::Write;
use swd_io::Block;

// Writes the buffered bytes, and returns how the text was read unless the writer fails.
fn flush_after<W: Write>(
    block: &mut Block<'_, W>,
    read: Result<(), DecodeFault>,
) -> Result<(), DecodeFault>
    ensures ends { BlockEnds W.contents read block.old result block.new }
    ensures writer { block.new.writer.ghost_name ≡ block.old.writer.ghost_name }
{
    match block.flush() {
        Ok(_) => read,
        Err(written) => Err(DecodeFault::Write { written }),
    }
}

/// Writes the buffered bytes of the output for a text, and returns how the text was read.
///
/// # Errors
///
/// Returns the error of the reading, or `Write` if the writer fails now.
pub fn end_output<W: Write>(
    block: &mut Block<'_, W>,
    read: Result<(), DecodeFault>,
) -> Result<(), DecodeFault>
    ensures ends { TextOutputEnds W.contents read block.old result block.new }
    ensures writer { block.new.writer.ghost_name ≡ block.old.writer.ghost_name }
{
    match read {
        Ok(()) => flush_after(block, Ok(())),
        Err(DecodeFault::Text(fault)) => flush_after(block, Err(DecodeFault::Text(fault))),
        Err(DecodeFault::Read) => flush_after(block, Err(DecodeFault::Read)),
        Err(DecodeFault::Write { written }) => Err(DecodeFault::Write { written }),
    }
}
