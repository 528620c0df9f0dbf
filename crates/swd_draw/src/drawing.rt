//! Draws a trace or a capture from its text.
ghost use Rattle.std.specs.Prelude.{◌≡◌, ◌≤◌, [], length, ℕ, List, Option};
ghost use Rattle.swd_io.specs.Blocks.{BlockBufferSends, BlockQueues};
ghost use Rattle.swd_draw.specs.Drawings.{drawing, drawing_of};
ghost use Rattle.swd_draw.specs.Draws.{Draws, no_drawing};
ghost use Rattle.swd_draw.specs.Rows.{drawing_rows};
ghost use Rattle.swd_resync.specs.declared.part.Part.{Part};
ghost use Rattle.swd_text.specs.Outputs.{TextQueues};
ghost use Rattle.swd_capture_text.specs.Readings.{SourceDecides, SourceReadsAs};

use crate::head::push_drawing_head;
use crate::kept::{DrawnParts, MOST_PARTS};
use crate::row::{RowText, push_row};
use std::io::{Read, Write};
use swd_capture::{LineForm, Printed, Teller};
use swd_capture_text::{Reading, read_parts};
use swd_io::Block;
use swd_resync::Part;
use swd_text::{DecodeFault, end_output};

/// What of a trace is drawn, and how.
#[derive(Clone, Copy, Debug, PartialEq, Eq)]
pub struct DrawnForm {
    /// The most items that are drawn. Above 1,000 it means 1,000.
    pub items: u32,
    /// Whether registers are printed by name, and flags that are set.
    pub names: bool,
}

// The most bytes that are put into a block at once.
const CHUNK: usize = 1024;

// Appends a text of any length to the output.
fn put_text<W: Write>(block: &mut Block<'_, W>, text: &[u8])
    ensures writer { block.new.writer.ghost_name ≡ block.old.writer.ghost_name }
    ensures sends { BlockQueues W.contents text.now block.old block.new }
{
    let mut at = 0;
    while at < text.len() {
        let len = CHUNK.min(text.len() - at);
        block.put(&text[at..at + len]);
        at += len;
    }
}

// Appends the rows of parts.
fn put_rows<W: Write>(block: &mut Block<'_, W>, parts: &[Part], names: bool)
    requires { length parts.now ≤ 1000 }
    ensures writer { block.new.writer.ghost_name ≡ block.old.writer.ghost_name }
    ensures sends { BlockQueues W.contents (drawing_rows names [] parts.now) block.old block.new }
{
    let form = LineForm {
        places: true,
        names,
    };
    let mut teller = Teller::new(Printed::Lines(form));
    let mut text = RowText::new();
    let mut index = 0;
    while index < parts.len() {
        text.clear();
        push_row(&mut text, &mut teller, &parts[index], index);
        put_text(block, text.as_str().as_bytes());
        index += 1;
    }
}

// Appends the drawing of parts.
fn put_drawing<W: Write>(block: &mut Block<'_, W>, parts: &[Part], names: bool, left_out: u64)
    requires { length parts.now ≤ 1000 }
    ensures writer { block.new.writer.ghost_name ≡ block.old.writer.ghost_name }
    ensures sends { (start : Option (List ℕ)) → BlockBufferSends W.contents start block.old []
        → BlockBufferSends W.contents start block.new (drawing_of names parts.now left_out) }
{
    let mut text = RowText::new();
    push_drawing_head(&mut text, parts.len(), left_out);
    put_text(block, text.as_str().as_bytes());
    put_rows(block, parts, names);
    put_text(block, b"</svg>\n");
}

// Appends the drawing of a trace text.
fn draw_text<R: Read, W: Write>(
    reading: Reading,
    form: DrawnForm,
    reader: &mut R,
    block: &mut Block<'_, W>,
) -> Result<(), DecodeFault>
    ensures { (start : Option (List ℕ)) → BlockBufferSends W.contents start block.old []
        → TextQueues (SourceDecides reading) (SourceReadsAs reading) no_drawing (drawing form) W.contents result
        (R.remaining reader.old) (R.remaining reader.new) start block.new
        × (block.new.writer.ghost_name ≡ block.old.writer.ghost_name) }
{
    let most = (form.items as usize).min(MOST_PARTS);
    match read_parts(reading, reader, &mut (), DrawnParts::new(most)) {
        Ok(kept) => {
            put_drawing(block, kept.parts(), form.names, kept.left_out());
            Ok(())
        }
        Err(fault) => Err(fault),
    }
}

/// Reads a trace text as a trace or as a capture, and writes a drawing of its first parts as SVG: a row for each part,
/// with the waves of SWCLK and SWDIO, and a box for each field of a transaction. The drawing says how many parts it
/// leaves out. The whole text is read first. It allocates nothing, its time is linear in the text, and nothing is
/// retried.
///
/// # Errors
///
/// Returns the first error.
/// - `Text` and `Read`: nothing was written.
/// - `Write`: exactly the first `written` bytes of the drawing were written.
pub fn draw_capture<R: Read, W: Write>(
    reading: Reading,
    form: DrawnForm,
    reader: &mut R,
    writer: &mut W,
) -> Result<(), DecodeFault>
    ensures { Draws reading form result (R.remaining reader.old) (R.remaining reader.new)
        (W.contents writer.old) (W.contents writer.new) }
{
    let mut block = Block::new(writer, 0);
    let read = draw_text(reading, form, reader, &mut block);
    end_output(&mut block, read)
}
