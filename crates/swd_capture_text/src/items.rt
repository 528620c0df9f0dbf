//! Prints the items of a trace.
ghost use Rattle.swd_io.specs.Blocks.{WritesOutput};
ghost use Rattle.swd_capture_text.specs.Captures.{print_items_output};

use crate::queue::{put_part, put_rows};
use arrayvec::ArrayString;
use std::io::Write;
use swd_capture::{Printed, Teller};
use swd_io::Block;
use swd_resync::Part;
use swd_trace::Item;

/// Writes the output for the items of a whole trace: what [`print_capture`](crate::print_capture) prints of the text
/// that `swd_text::write_items` writes of them. It allocates nothing, and nothing is retried.
///
/// # Errors
///
/// If the writer fails or takes no bytes: how many bytes of the output were written. These are exactly its first ones.
pub fn print_items<W: Write>(printed: Printed, writer: &mut W, items: &[Item]) -> Result<(), u64>
    ensures { WritesOutput result (W.contents writer.old) (W.contents writer.new)
        (print_items_output printed items.now) }
{
    let mut teller = Teller::new(printed);
    let mut line = ArrayString::new();
    let mut block = Block::new(writer, 0);
    for item in items {
        put_part(&mut block, &mut line, &mut teller, &Part::Item(*item));
    }
    put_rows(&mut block, &mut line, &teller);
    match block.flush() {
        Ok(_) => Ok(()),
        Err(written) => Err(written),
    }
}
