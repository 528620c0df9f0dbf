//! Queues the output of parts, and of the end.
ghost use Rattle.std.specs.Prelude.{◌≡◌, ℕ, List, ◌<◌, ◌∷◌, [], ◌++◌, Option};
ghost use Rattle.swd_io.specs.Blocks.{BlockBufferSends, BlockQueues};
ghost use Rattle.swd_resync.specs.declared.part.Part.{Part};
ghost use Rattle.swd_capture.specs.declared.printed.Printed.{Printed};
ghost use Rattle.swd_capture.specs.Printing.{capture_end_row_printed, capture_printed_entry, capture_printout};
ghost use Rattle.swd_capture.specs.Printing.{capture_printed_parts};
ghost use Rattle.swd_capture.specs.Tellers.{IsCaptureTellerAfter};

use arrayvec::ArrayString;
use std::io::Write;
use swd_capture::{LONGEST_ENTRY, ROWS, Teller};
use swd_io::Block;
use swd_resync::Part;

/// Also queues the output of a part.
#[inline(never)]
pub(crate) fn put_part<W: Write>(
    block: &mut Block<'_, W>,
    line: &mut ArrayString<LONGEST_ENTRY>,
    teller: &mut Teller,
    part: &Part,
)
    ensures after { (printed : Printed) (parts : List Part)
        → IsCaptureTellerAfter printed parts teller.old
        → IsCaptureTellerAfter printed (parts ++ part.now ∷ []) teller.new }
    ensures sends { (printed : Printed) (parts : List Part)
        → IsCaptureTellerAfter printed parts teller.old
        → BlockQueues W.contents (capture_printed_entry printed parts part.now) block.old block.new }
    ensures writer { block.new.writer.ghost_name ≡ block.old.writer.ghost_name }
{
    line.clear();
    teller.tell(part, line);
    block.put(line.as_str().as_bytes());
}

// Also queues a row of the end.
fn put_row<W: Write>(
    block: &mut Block<'_, W>,
    line: &mut ArrayString<LONGEST_ENTRY>,
    teller: &Teller,
    row: usize,
)
    requires { row < ROWS }
    ensures sends { (printed : Printed) (parts : List Part)
        → IsCaptureTellerAfter printed parts teller.now
        → BlockQueues W.contents (capture_end_row_printed printed parts row) block.old block.new }
    ensures writer { block.new.writer.ghost_name ≡ block.old.writer.ghost_name }
{
    line.clear();
    teller.push_row(row, line);
    block.put(line.as_str().as_bytes());
}

/// Also queues the rows of the end.
pub(crate) fn put_rows<W: Write>(
    block: &mut Block<'_, W>,
    line: &mut ArrayString<LONGEST_ENTRY>,
    teller: &Teller,
)
    ensures sends { (start : Option (List ℕ)) (printed : Printed) (parts : List Part)
        → IsCaptureTellerAfter printed parts teller.now
        → BlockBufferSends W.contents start block.old (capture_printed_parts printed parts)
        → BlockBufferSends W.contents start block.new (capture_printout printed parts) }
    ensures writer { block.new.writer.ghost_name ≡ block.old.writer.ghost_name }
{
    for row in 0..teller.rows() {
        put_row(block, line, teller, row);
    }
}
