//! Loads images.
ghost use Rattle.std.specs.Prelude.{◌≡◌, ◌+◌, ◌%◌, ◌≤◌, ◌<◌, ◌^◌, IfErr, IfOk, OnOk};
ghost use Rattle.swd_port.specs.declared.wire.Due.TheVariants.{Nothing};
ghost use Rattle.swd_image.specs.Lists.{image_edge_list, image_edge_words, image_read_if, image_word_if};
ghost use Rattle.swd_image.specs.Loads.{LoadFails, Loads};
ghost use Rattle.swd_image.specs.Reports.{LoadReports, ReportsTo, image_fault_of};
ghost use Rattle.swd_image.specs.Sessions.{FailsAs, ReadsAs};

use crate::fault::ImageFault;
use crate::range::{last_word, needs_head, needs_tail, word_count, word_of};
use crate::reading::read_words;
use crate::reports::CallReports;
use crate::writing::{Edges, Loading, write_words};
use std::alloc::Allocator;
use swd_port::Wire;
use swd_run::Limits;

// Reads the word at an address if it is needed, and otherwise returns 0.
fn read_word<W: Wire, S: CallReports, A: Allocator + Copy>(
    alloc: A,
    wire: &mut W,
    at: u32,
    needed: bool,
    limits: Limits,
    report: &mut S,
) -> Result<u32, ImageFault>
    requires aligned { at % 4 ≡ 0 }
    requires due { (W.port wire.old).link.due ≡ Nothing }
    ensures read { IfOk result (λ word. ReadsAs W.Wire limits (image_read_if needed at)
        (image_word_if needed word) wire.old wire.new) }
    ensures due { OnOk result ((W.port wire.new).link.due ≡ Nothing) }
    ensures fault { IfErr result (FailsAs W.Wire limits (image_read_if needed at) wire.old wire.new) }
    ensures report { ReportsTo W.Wire limits (image_read_if needed at) (image_fault_of result) wire.old wire.new
        (S.held report.old) (S.held report.new) }
    ensures plan { W.plan wire.new ≡ W.plan wire.old }
{
    if !needed {
        return Ok(0);
    }
    let words = read_words(alloc, wire, at, 1, limits, report)?;
    Ok(words[0])
}

// Reads the words that a range covers only in part: the first one, the last one, both or neither.
fn read_edges<W: Wire, S: CallReports, A: Allocator + Copy>(
    alloc: A,
    wire: &mut W,
    addr: u32,
    len: u64,
    limits: Limits,
    report: &mut S,
) -> Result<Edges, ImageFault>
    requires range { addr + len ≤ 2 ^ 32 }
    requires due { (W.port wire.old).link.due ≡ Nothing }
    ensures read { IfOk result (λ edges. ReadsAs W.Wire limits (image_edge_list addr len)
        (image_edge_words addr len edges.head edges.tail) wire.old wire.new) }
    ensures due { OnOk result ((W.port wire.new).link.due ≡ Nothing) }
    ensures fault { IfErr result (FailsAs W.Wire limits (image_edge_list addr len) wire.old wire.new) }
    ensures report { ReportsTo W.Wire limits (image_edge_list addr len) (image_fault_of result) wire.old wire.new
        (S.held report.old) (S.held report.new) }
    ensures plan { W.plan wire.new ≡ W.plan wire.old }
{
    let first = needs_head(addr, len);
    let head = read_word(alloc, wire, word_of(addr), first, limits, report)?;
    let last = needs_tail(addr, len);
    let tail = read_word(alloc, wire, last_word(addr, len), last, limits, report)?;
    Ok(Edges { head, tail })
}

/// Loads an image: writes `bytes` from `addr` on, over a wire on which nothing is due.
///
/// The image may cover its first or last word only in part. Such a word is read first, and its other bytes are written
/// as they were read. The calls have one write for each word of the range. Each call has at most 65,536 accesses, each
/// of which may meet `limits.tries` events. A call is resumed up to `limits.resumes` times after a lost
/// acknowledgement; an access in flight is then made again. An empty image makes no call. `report` gets the reports of
/// the calls: [`NoReports`](crate::NoReports), or an optional writer.
///
/// Over a target that conforms to the model and was at rest, with a plain memory, the range contains the image after a
/// load that succeeds. All other memory is unchanged then.
///
/// # Errors
///
/// - `Range`: the image extends past ffffffff. Nothing was sent.
/// - `Stopped`: a call ended early. `BusFault`: an access met a bus error. In both cases no call was made after that
///   one, and each access of the calls before it was answered without a bus error.
/// - `Memory`: out of memory. Each access of the calls before it was answered without a bus error, and no other call
///   was made.
/// - `Report`: the writer failed or took no bytes. The call that was in progress went on to its end, and no call was
///   made after it.
///
/// The reports of all calls are written except at `Report`, with that of the call that failed.
pub fn load<W: Wire, S: CallReports, A: Allocator + Copy>(
    alloc: A,
    wire: &mut W,
    addr: u32,
    bytes: &[u8],
    limits: Limits,
    report: &mut S,
) -> Result<(), ImageFault>
    requires { (W.port wire.old).link.due ≡ Nothing }
    ensures loads { OnOk result (Loads W.Wire limits addr bytes.now wire.old wire.new) }
    ensures due { OnOk result ((W.port wire.new).link.due ≡ Nothing) }
    ensures fault { IfErr result (LoadFails W.Wire limits addr bytes.now wire.old wire.new) }
    ensures report { LoadReports W.Wire limits addr bytes.now
        (image_fault_of result) wire.old wire.new (S.held report.old) (S.held report.new) }
    ensures plan { W.plan wire.new ≡ W.plan wire.old }
{
    let len = bytes.len() as u64;
    if (1 << 32) - (addr as u64) < len {
        return Err(ImageFault::Range);
    }
    let edges = read_edges(alloc, wire, addr, len, limits, report)?;
    let image = Loading {
        addr,
        bytes,
        edges,
        first: word_of(addr),
        count: word_count(addr, len),
    };
    write_words(alloc, wire, &image, limits, report)
}
