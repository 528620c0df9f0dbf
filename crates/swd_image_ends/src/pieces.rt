//! Loads and verifies images of several pieces over any wire.
ghost use Rattle.std.specs.Prelude.{◌≡◌, IfErr, IfOk, OnOk};
ghost use Rattle.swd_port.specs.declared.wire.Due.TheVariants.{Nothing};
ghost use Rattle.swd_image.specs.Reports.{image_fault_of};
ghost use Rattle.swd_image_ends.specs.PieceReports.{LoadsReported, VerifiesReported};
ghost use Rattle.swd_image_ends.specs.Pieces.{LoadFailsAt, LoadsAll, VerifiesAll, VerifyFailsAt, pieces_to_load};

use std::alloc::Allocator;
use swd_image::{ByteDifference, CallReports, ImageFault, Limits, load, verify};
use swd_image_files::Image;
use swd_port::Wire;

/// Loads the pieces of an image in their order, each by `swd_image::load`, over a wire on which nothing is due.
///
/// Over a target that conforms to the model and was at rest, with a plain memory, this memory contains each piece after
/// a load that succeeds. If two pieces have an address, it contains the later one's byte. All other memory is unchanged
/// then. `report` gets the reports of the calls while they go on.
///
/// # Errors
///
/// Returns the error of the first piece that fails. The pieces before it were loaded, and for those after it no call
/// was made.
pub fn load_pieces<W: Wire, S: CallReports, A: Allocator + Copy>(
    alloc: A,
    wire: &mut W,
    image: &Image<A>,
    limits: Limits,
    report: &mut S,
) -> Result<(), ImageFault>
    requires { (W.port wire.old).link.due ≡ Nothing }
    ensures loads { OnOk result (LoadsAll W.Wire limits (pieces_to_load image.now) wire.old wire.new) }
    ensures due { OnOk result ((W.port wire.new).link.due ≡ Nothing) }
    ensures fault { IfErr result (LoadFailsAt W.Wire limits (pieces_to_load image.now) wire.old wire.new) }
    ensures report { LoadsReported W.Wire limits (pieces_to_load image.now) (image_fault_of result) wire.old wire.new
        (S.held report.old) (S.held report.new) }
    ensures plan { W.plan wire.new ≡ W.plan wire.old }
{
    for piece in image.pieces() {
        load(alloc, wire, piece.addr, piece.bytes, limits, report)?;
    }
    Ok(())
}

/// Compares the memory with the pieces of an image in their order, each by `swd_image::verify`, up to the first one
/// that differs. Returns the first byte of it that differs, or `None` if all are equal. `report` gets the reports of
/// the calls while they go on.
///
/// Over a target that conforms to the model and was at rest, with a plain memory, the result holds for the bytes of
/// this memory.
///
/// # Errors
///
/// Returns the error of the first piece that fails. The pieces before it are equal, and for those after it no call was
/// made.
pub fn verify_pieces<W: Wire, S: CallReports, A: Allocator + Copy>(
    alloc: A,
    wire: &mut W,
    image: &Image<A>,
    limits: Limits,
    report: &mut S,
) -> Result<Option<ByteDifference>, ImageFault>
    requires { (W.port wire.old).link.due ≡ Nothing }
    ensures verifies { IfOk result (λ difference. VerifiesAll W.Wire limits (pieces_to_load image.now) difference
        wire.old wire.new) }
    ensures due { IfOk result (λ difference. (W.port wire.new).link.due ≡ Nothing) }
    ensures fault { IfErr result (VerifyFailsAt W.Wire limits (pieces_to_load image.now) wire.old wire.new) }
    ensures report { VerifiesReported W.Wire limits (pieces_to_load image.now) result wire.old
        wire.new (S.held report.old) (S.held report.new) }
    ensures plan { W.plan wire.new ≡ W.plan wire.old }
{
    for piece in image.pieces() {
        if let Some(difference) = verify(alloc, wire, piece.addr, piece.bytes, limits, report)? {
            return Ok(Some(difference));
        }
    }
    Ok(None)
}
