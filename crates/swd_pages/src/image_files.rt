//! The first byte of an image file.
ghost use Rattle.std.specs.Prelude.{IfErr};
ghost use Rattle.swd_image_files.specs.Files.{IsImageFileFault};

use std::alloc::Global;
use swd_image_files::{Format, ImageFileFault, read_image};

/// Returns the address and the value of the first byte of an Intel HEX file, or `None` if it has no data.
pub fn first_byte(alloc: Global, file: &[u8]) -> Result<Option<(u32, u8)>, ImageFileFault>
    ensures { IfErr result (IsImageFileFault Format.IntelHex 0 file.now) }
{
    let image = read_image(alloc, Format::IntelHex, file, 0)?;
    let mut pieces = image.pieces();
    let Some(piece) = pieces.next() else {
        return Ok(None);
    };
    Ok(piece.bytes.first().map(|byte| (piece.addr, *byte)))
}
