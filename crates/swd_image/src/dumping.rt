//! Reads a range of bytes.
ghost use Rattle.std.specs.Prelude.{◌≡◌, ◌+◌, ◌*◌, ◌<◌, ◌≤◌, IfErr, IfOk, length};
ghost use Rattle.swd_port.specs.declared.wire.Due.TheVariants.{Nothing};
ghost use Rattle.swd_image.specs.declared.fault.ImageFault.TheVariants.{Memory};
ghost use Rattle.swd_image.specs.Bytes.{image_byte_in, image_bytes_of};
ghost use Rattle.swd_image.specs.Dumps.{DumpFails, Dumps};
ghost use Rattle.swd_image.specs.Reports.{DumpReports, image_fault_of};

use crate::fault::ImageFault;
use crate::range::{word_count, word_of};
use crate::reading::read_words;
use crate::reports::CallReports;
use std::alloc::Allocator;
use swd_port::Wire;
use swd_run::Limits;

// Returns byte `place % 4` of a word, the least significant byte first.
fn byte_in(word: u32, place: u64) -> u8
    ensures { result ≡ image_byte_in word place }
{
    word.to_le_bytes()[(place % 4) as usize]
}

// Returns `count` bytes of consecutive words, from byte `place` on.
fn bytes_of<A: Allocator>(
    alloc: A,
    words: &[u32],
    place: u32,
    count: u64,
) -> Result<Vec<u8, A>, ImageFault>
    requires { 0 < count → place + count ≤ 4 * length words.now }
    ensures bytes { IfOk result (λ bytes. bytes.items ≡ image_bytes_of words.now place count) }
    ensures fault { IfErr result (λ fault. fault ≡ Memory) }
{
    let Ok(mut bytes) = Vec::with_capacity(alloc, count as usize) else {
        return Err(ImageFault::Memory);
    };
    for index in 0..count {
        let here = place as u64 + index;
        let Ok(()) = bytes.push(byte_in(words[(here / 4) as usize], here)) else {
            return Err(ImageFault::Memory);
        };
    }
    Ok(bytes)
}

/// Reads `count` bytes from `addr` on, over a wire on which nothing is due. The calls have one read for each word of
/// the range, in blocks of at most 65,536 words. Each access may meet `limits.tries` events. Each block is resumed up
/// to `limits.resumes` times after a lost acknowledgement; the reads in flight are then made again. `report` gets the
/// reports of the calls: [`NoReports`](crate::NoReports), or an optional writer.
///
/// Over a target that conforms to the model and was at rest, with a plain memory, the result is the bytes of this
/// memory. No word of it changed then.
///
/// # Errors
///
/// - `Range`: the range extends past ffffffff. Nothing was sent.
/// - `Stopped`: a call ended early. No call was made after it.
/// - `BusFault`: an access met a bus error. No call was made after its call.
/// - `Memory`: out of memory. Each read of the calls before it returned a word, and no other call was made.
/// - `Report`: the writer failed or took no bytes. The call that was in progress went on to its end, and no call was
///   made after it.
///
/// The reports of all calls are written except at `Report`, with that of the call that failed.
pub fn dump<W: Wire, S: CallReports, A: Allocator + Copy>(
    alloc: A,
    wire: &mut W,
    addr: u32,
    count: u64,
    limits: Limits,
    report: &mut S,
) -> Result<Vec<u8, A>, ImageFault>
    requires { (W.port wire.old).link.due ≡ Nothing }
    ensures dumps { IfOk result (λ bytes. Dumps W.Wire limits addr count bytes.items wire.old wire.new) }
    ensures due { IfOk result (λ bytes. (W.port wire.new).link.due ≡ Nothing) }
    ensures fault { IfErr result (DumpFails W.Wire limits addr count wire.old wire.new) }
    ensures report { DumpReports W.Wire limits addr count (image_fault_of result)
        wire.old wire.new (S.held report.old) (S.held report.new) }
    ensures plan { W.plan wire.new ≡ W.plan wire.old }
{
    if (1 << 32) - (addr as u64) < count {
        return Err(ImageFault::Range);
    }
    let first = word_of(addr);
    let many = word_count(addr, count);
    let words = read_words(alloc, wire, first, many, limits, report)?;
    bytes_of(alloc, words.as_slice(), addr % 4, count)
}
