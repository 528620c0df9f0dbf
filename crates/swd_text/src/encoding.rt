//! The engine of `swd encode`: converts a listing to its trace text.
ghost use Rattle.std.specs.Prelude.{◌≡◌, List};
ghost use Rattle.swd_io.specs.Blocks.{WritesOutput, BlockQueues};
ghost use Rattle.swd_trace.specs.Listed.{IsLegalItem, AreLegalItems};
ghost use Rattle.swd_trace.specs.Texts.{item_text, trace_text};
ghost use Rattle.swd_text.specs.Encoding.{Encodes};

use crate::fault::EncodeFault;
use std::alloc::Allocator;
use std::io::{Read, Write};
use swd_io::Block;
use swd_trace::{Item, ItemBytes, read_list};

// The most bytes of an item that are queued at once.
const PIECE: usize = 128;

// Also queues the trace text of an item, piece by piece.
fn put_item<W: Write>(block: &mut Block<'_, W>, item: &Item)
    requires { IsLegalItem item.now }
    ensures sends { BlockQueues W.contents (item_text item.now) block.old block.new }
    ensures writer { block.new.writer.ghost_name ≡ block.old.writer.ghost_name }
{
    let mut bytes = ItemBytes::of(item);
    let mut piece = [0u8; PIECE];
    loop {
        let filled = bytes.fill(&mut piece);
        if filled == 0 || block.has_failed() {
            return;
        }
        block.put(&piece[..filled]);
    }
}

/// Appends the trace text of some items to the output of a block, one line for each item. It allocates nothing.
pub fn put_items<W: Write>(block: &mut Block<'_, W>, items: &[Item])
    requires { AreLegalItems items.now }
    ensures sends { BlockQueues W.contents (trace_text items.now) block.old block.new }
    ensures writer { block.new.writer.ghost_name ≡ block.old.writer.ghost_name }
{
    for item in items {
        put_item(block, item);
    }
}

/// Writes the trace text of some items, one line for each item. It allocates nothing, and nothing is retried.
///
/// # Errors
///
/// If the writer fails or takes no bytes: how many bytes of the text were written. These are exactly its
/// first ones.
pub fn write_items<W: Write>(writer: &mut W, items: &[Item]) -> Result<(), u64>
    requires { AreLegalItems items.now }
    ensures { WritesOutput result (W.contents writer.old) (W.contents writer.new) (trace_text items.now) }
{
    let mut block = Block::new(writer, 0);
    put_items(&mut block, items);
    match block.flush() {
        Ok(_) => Ok(()),
        Err(written) => Err(written),
    }
}

/// Reads a listing, and writes the trace text of its items, one line for each item. Nothing is written before
/// the whole list was read and found normal. It allocates memory for the items alone. Its time is linear in
/// the listing and in what it writes. Nothing is retried.
///
/// # Errors
///
/// - `List`: the listing can't be read. Nothing was written.
/// - `Write`: the writer failed. Exactly the first `written` bytes of the trace text were written.
pub fn encode_text<R: Read, W: Write, A: Allocator>(
    alloc: A,
    reader: &mut R,
    writer: &mut W,
) -> Result<(), EncodeFault>
    ensures { Encodes result (R.remaining reader.old) (W.contents writer.old) (W.contents writer.new) }
{
    let items = match read_list(alloc, reader) {
        Ok(items) => items,
        Err(fault) => return Err(EncodeFault::List(fault)),
    };
    match write_items(writer, items.as_slice()) {
        Ok(()) => Ok(()),
        Err(written) => Err(EncodeFault::Write { written }),
    }
}
