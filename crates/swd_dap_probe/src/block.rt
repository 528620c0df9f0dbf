//! `DAP_TransferBlock`: many transactions of one request.
ghost use Rattle.std.specs.Prelude.{ℕ, ◌≡◌, ◌≤◌, ◌+◌, ◌*◌, List, ◌++◌, [], length};
ghost use Rattle.swd_dap_probe.specs.Shapes.{dap_block_count, dap_block_shape};
ghost use Rattle.swd_dap_probe.specs.Packets.{DapAppends};
ghost use Rattle.swd_dap_probe.specs.Transfers.{DapStepsMade, dap_run, dap_post, dap_block_read, dap_block_reads};
ghost use Rattle.swd_dap_probe.specs.Transfers.{dap_block_writes, dap_block_steps, dap_transfer_value, DapBlock};

use crate::line::ProbeLine;
use crate::reply::{Reply, put};
use crate::settings::Settings;
use crate::shape::block_count;
use crate::transaction::{OK, RDBUFF, persist};
use crate::transfers::{Done, post, read_word, request_of, word_at};
use swd_bits::Request;

// Returns the request of a read with so many behind it. Of the access port, the last is a read of RDBUFF.
fn read_at(request: Request, left: u16) -> Request
    ensures { result ≡ dap_block_read request left }
{
    if request.ap && left == 0 {
        RDBUFF
    } else {
        request
    }
}

// Reads so many words, at least one.
fn read_block<L: ProbeLine>(
    line: &mut L,
    settings: &Settings,
    request: Request,
    count: u16,
    words: &mut Reply,
) -> Done
    requires { length words.old.items + 4 * count ≤ 512 }
    ensures room { length words.new.items ≤ length words.old.items + 4 * count }
    ensures makes { (mask : ℕ) → DapStepsMade L.clocks settings.now (dap_post request ++ dap_block_reads request count)
        result.value (dap_run 0 words.old.items mask) (dap_run result.count words.new.items mask) line.old line.new }
{
    let value = post(line, settings, request);
    if value != OK {
        return Done { count: 0, value };
    }
    for place in 0..count {
        let value = read_word(line, settings, read_at(request, count - place - 1), words);
        if value != OK {
            return Done {
                count: place,
                value,
            };
        }
    }
    Done { count, value: OK }
}

// Writes so many words, at least one, and reads RDBUFF behind them.
fn write_block<L: ProbeLine>(
    line: &mut L,
    settings: &Settings,
    request: Request,
    count: u16,
    bytes: &[u8],
) -> Done
    requires { 4 * count ≤ length bytes.now }
    ensures makes { (words : List ℕ) (mask : ℕ) → DapStepsMade L.clocks settings.now
        (dap_block_writes request bytes.now 0 count) result.value (dap_run 0 words mask)
        (dap_run result.count words mask) line.old line.new }
{
    for place in 0..count {
        let word = word_at(bytes, 4 * usize::from(place));
        let value = persist(line, settings, request, word).value();
        if value != OK {
            return Done {
                count: place,
                value,
            };
        }
    }
    Done {
        count,
        value: persist(line, settings, RDBUFF, 0).value(),
    }
}

// Makes the transactions of a block, if it has any.
fn move_block<L: ProbeLine>(
    line: &mut L,
    settings: &Settings,
    request: &[u8],
    words: &mut Reply,
) -> Done
    requires whole { (dap_block_shape request.now).request ≤ length request.now }
    requires room { (dap_block_shape request.now).reply ≤ 512 }
    requires none { words.old.items ≡ [] }
    ensures room { 4 + length words.new.items ≤ (dap_block_shape request.now).reply }
    ensures makes { (value : ℕ) × ((mask : ℕ) → DapStepsMade L.clocks settings.now (dap_block_steps request.now) value
        (dap_run 0 [] mask) (dap_run result.count words.new.items mask) line.old line.new)
        × (result.value ≡ dap_transfer_value (dap_block_count request.now) value) }
{
    let count = block_count(request);
    let asked = request_of(request[4]);
    if count == 0 {
        Done { count, value: 0 }
    } else if asked.read {
        read_block(line, settings, asked, count, words)
    } else {
        write_block(line, settings, asked, count, &request[5..])
    }
}

/// Performs `DAP_TransferBlock`.
pub(crate) fn transfer_block<L: ProbeLine>(
    line: &mut L,
    settings: &Settings,
    request: &[u8],
    reply: &mut Reply,
)
    requires whole { (dap_block_shape request.now).request ≤ length request.now }
    requires room { length reply.old.items + (dap_block_shape request.now).reply ≤ 512 }
    ensures { DapAppends (λ told. DapBlock L.clocks settings.now request.now told line.old line.new)
        (dap_block_shape request.now).reply reply.old.items reply.new.items }
{
    let mut words = Reply::new();
    let done = move_block(line, settings, request, &mut words);
    put(
        reply,
        &[
            0x06,
            (done.count % 256) as u8,
            (done.count / 256) as u8,
            done.value,
        ],
    );
    put(reply, words.as_slice());
}
