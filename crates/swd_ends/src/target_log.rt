//! The lines of a served target's log.
ghost use Rattle.std.specs.Prelude.{◌≡◌, ◌≤◌, ◌++◌, ◌∷◌, []};
ghost use Rattle.arrayvec.specs.ArrayString.{array_string_len};
ghost use Rattle.swd_io.specs.Blocks.{BlockQueues};
ghost use Rattle.swd_ends.specs.TargetLogs.{live_log_counts_line, live_log_line, live_log_lines};

use arrayvec::ArrayString;
use std::io::Write;
use swd_bits::push_word;
use swd_io::Block;
use swd_port::Transfer;

/// A line of a log.
pub(crate) type LogLine = ArrayString<64>;

// Returns the line of a transfer without its line feed, such as `w 20000000 deadbeef`.
fn transfer_line(transfer: &Transfer) -> LogLine
    ensures bytes { result.bytes ≡ live_log_line transfer.now }
    ensures len { array_string_len result ≤ 64 }
{
    let mut text = LogLine::new();
    text.push_str(if transfer.read { "r " } else { "w " });
    push_word(&mut text, transfer.addr);
    text.push_str(" ");
    push_word(&mut text, transfer.word);
    text
}

/// Returns the last line with its line feed, such as `cycles 552 requests 16`.
pub(crate) fn counts_line(cycles: u64, requests: u64) -> LogLine
    ensures { result.bytes ≡ live_log_counts_line cycles requests ++ 10 ∷ [] }
{
    let mut text = LogLine::new();
    let mut digits = itoa::Buffer::new();
    text.push_str("cycles ");
    text.push_str(digits.format(cycles));
    text.push_str(" requests ");
    text.push_str(digits.format(requests));
    text.push_str("\n");
    text
}

/// Also queues the lines of these transfers.
pub(crate) fn put_transfers<W: Write>(block: &mut Block<'_, W>, transfers: &[Transfer])
    ensures sends { BlockQueues W.contents (live_log_lines transfers.now) block.old block.new }
    ensures writer { block.new.writer.ghost_name ≡ block.old.writer.ghost_name }
{
    for transfer in transfers {
        block.put_line(transfer_line(transfer).as_str().as_bytes());
    }
}
