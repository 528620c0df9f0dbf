//! Verifies an image: compares a target's memory with it.
ghost use Rattle.std.specs.Prelude.{◌≡◌, ◌+◌, ◌≤◌, ◌^◌, IfErr, IfOk, length};
ghost use Rattle.swd_port.specs.declared.wire.Due.TheVariants.{Nothing};
ghost use Rattle.swd_image.specs.Dumps.{ComparesImage, DumpFails, VerifiesImage};
ghost use Rattle.swd_image.specs.Reports.{DumpReports, image_fault_of};

use crate::dumping::dump;
use crate::fault::ImageFault;
use crate::reports::CallReports;
use std::alloc::Allocator;
use swd_port::Wire;
use swd_run::Limits;

/// A byte of the memory that differs from the image.
#[derive(Clone, Copy, Debug, PartialEq, Eq)]
pub struct ByteDifference {
    /// The byte's address.
    pub addr: u32,
    /// The byte in the memory.
    pub found: u8,
    /// The byte in the image.
    pub expected: u8,
}

// Returns the first byte that differs from the image.
fn first_difference(addr: u32, bytes: &[u8], found: &[u8]) -> Option<ByteDifference>
    requires same { length found.now ≡ length bytes.now }
    requires range { addr + length bytes.now ≤ 2 ^ 32 }
    ensures { ComparesImage addr bytes.now found.now result }
{
    for (index, expected) in bytes.iter().enumerate() {
        if found[index] != *expected {
            return Some(ByteDifference {
                addr: addr + index as u32,
                found: found[index],
                expected: *expected,
            });
        }
    }
    None
}

/// Reads the range of an image, as [`dump`](crate::dump) does, and compares it with the image: `bytes` at `addr`.
/// Returns the first byte that differs, or `None` if they are equal.
///
/// Over a target that conforms to the model and was at rest, with a plain memory, the result holds for the bytes of
/// this memory.
///
/// # Errors
///
/// Returns the errors of [`dump`](crate::dump). Nothing was compared then.
pub fn verify<W: Wire, S: CallReports, A: Allocator + Copy>(
    alloc: A,
    wire: &mut W,
    addr: u32,
    bytes: &[u8],
    limits: Limits,
    report: &mut S,
) -> Result<Option<ByteDifference>, ImageFault>
    requires { (W.port wire.old).link.due ≡ Nothing }
    ensures verifies { IfOk result (λ difference. VerifiesImage W.Wire limits addr
        bytes.now difference wire.old wire.new) }
    ensures due { IfOk result (λ difference. (W.port wire.new).link.due ≡ Nothing) }
    ensures fault { IfErr result (DumpFails W.Wire limits addr (length bytes.now) wire.old wire.new) }
    ensures report { DumpReports W.Wire limits addr (length bytes.now)
        (image_fault_of result) wire.old wire.new (S.held report.old) (S.held report.new) }
    ensures plan { W.plan wire.new ≡ W.plan wire.old }
{
    let found = dump(alloc, wire, addr, bytes.len() as u64, limits, report)?;
    Ok(first_difference(addr, bytes, found.as_slice()))
}
