//! Reads image files.
ghost use Rattle.std.specs.Prelude.{◌≡◌, All, IfErr, IfOk, Ok};
ghost use Rattle.swd_image_files.specs.Files.{IsImageFileFaultIn, IsImageFileFault, IsImage, image_file_of_binary};
ghost use Rattle.swd_image_files.specs.Files.{IsElfImage, IsElfFileFault, IsImageIn, IsImageOrElf, IsImageOrElfFault};
ghost use Rattle.swd_image_files.specs.Files.{image_file_contents, image_file_at_end, image_file_of_lines};
ghost use Rattle.swd_image_files.specs.Images.{ImageFileContents, contents_of_image};
ghost use Rattle.swd_image_files.specs.Overlaps.{IsSoundImageRange};
ghost use Rattle.swd_image_files.specs.Readings.{ImageFileHolds};

use crate::content::{format_begun, line_len, without_return};
use crate::elf::{ElfChoice, is_elf};
use crate::fault::ImageFileFault;
use crate::format::Format;
use crate::image::Image;
use crate::kind::RecordFormat;
use crate::overlap::first_overlap;
use crate::parts::{behind, front};
use crate::reading::{HeldPieces, RecordReading};
use crate::segments::{read_segments, refuse_overlap};
use std::alloc::Allocator;

/// Reads an image file that isn't ELF. A binary is one piece at `base`. In the other formats `base` is added to each
/// address. Its work is linear in the length of the file, but for a sort of the pieces' ranges, and its memory is
/// linear.
///
/// # Errors
///
/// The first error of the file: its first invalid line, that it has no end record, or the lowest address for which two
/// pieces have a byte. `Memory` if memory ran out for the image; then each line is valid.
pub fn read_image<A: Allocator + Copy>(
    alloc: A,
    format: Format,
    bytes: &[u8],
    base: u32,
) -> Result<Image<A>, ImageFileFault>
    ensures ok { IfOk result (λ image. IsImage format base bytes.now (contents_of_image image)) }
    ensures err { IfErr result (IsImageFileFault format base bytes.now) }
{
    apart(alloc, read_pieces(alloc, format, bytes, base)?)
}

/// Reads an ELF file: a 32-bit little-endian executable for Arm. The pieces are the bytes of its `PT_LOAD` segments in
/// the file, each at its physical address, to which `base` is added. A segment without bytes in the file adds none.
///
/// # Errors
///
/// The first error of the file: of its header, of its first invalid segment, or the lowest address for which two
/// segments have a byte. `Memory` if memory ran out for the image; then each segment is valid.
pub fn read_elf<A: Allocator + Copy>(
    alloc: A,
    bytes: &[u8],
    base: u32,
) -> Result<Image<A>, ImageFileFault>
    ensures ok { IfOk result (λ image. IsElfImage base bytes.now (contents_of_image image)) }
    ensures err { IfErr result (IsElfFileFault base bytes.now) }
{
    refuse_overlap(alloc, bytes, base)?;
    apart(alloc, read_segments(alloc, bytes, base)?)
}

/// Reads an image file that may be ELF, as `elf` says: as `read_elf` does, or in this format as `read_image` does. With
/// `Auto` a file that would be a binary is one of Intel HEX or S-records if its first line is such a record: if its
/// digits, its length and its checksum are right.
///
/// # Errors
///
/// Those of these two.
pub fn read_image_or_elf<A: Allocator + Copy>(
    alloc: A,
    elf: ElfChoice,
    format: Format,
    bytes: &[u8],
    base: u32,
) -> Result<Image<A>, ImageFileFault>
    ensures ok { IfOk result (λ image. IsImageOrElf elf format base bytes.now (contents_of_image image)) }
    ensures err { IfErr result (IsImageOrElfFault elf format base bytes.now) }
{
    match elf {
        ElfChoice::Auto => {
            if is_elf(bytes) {
                read_elf(alloc, bytes, base)
            } else {
                read_image(alloc, format_begun(format, bytes), bytes, base)
            }
        }
        ElfChoice::Always => read_elf(alloc, bytes, base),
        ElfChoice::Never => read_image(alloc, format, bytes, base),
    }
}

// Returns an image if no two of its pieces have an address.
fn apart<A: Allocator + Copy>(alloc: A, image: Image<A>) -> Result<Image<A>, ImageFileFault>
    requires { All IsSoundImageRange image.ranges.items }
    ensures ok { IfOk result (λ found. IsImageIn (Ok (contents_of_image image)) (contents_of_image found)) }
    ensures err { IfErr result (IsImageFileFaultIn (Ok (contents_of_image image))) }
{
    match first_overlap(alloc, &image.ranges) {
        Ok(None) => Ok(image),
        Ok(Some(addr)) => Err(ImageFileFault::Overlap { addr }),
        Err(_) => Err(ImageFileFault::Memory),
    }
}

// Reads an image file, whose pieces may overlap.
fn read_pieces<A: Allocator + Copy>(
    alloc: A,
    format: Format,
    bytes: &[u8],
    base: u32,
) -> Result<Image<A>, ImageFileFault>
    ensures ok { IfOk result (λ image. image_file_contents format base bytes.now ≡ Ok (contents_of_image image)) }
    ensures sound { IfOk result (λ image. All IsSoundImageRange image.ranges.items) }
    ensures err { IfErr result (IsImageFileFault format base bytes.now) }
{
    match format {
        Format::Binary => read_binary(alloc, bytes, base),
        Format::IntelHex => read_records(alloc, RecordFormat::Intel, bytes, base),
        Format::SRecord => read_records(alloc, RecordFormat::Motorola, bytes, base),
    }
}

// Reads a binary file.
fn read_binary<A: Allocator + Copy>(
    alloc: A,
    bytes: &[u8],
    base: u32,
) -> Result<Image<A>, ImageFileFault>
    ensures ok { IfOk result (λ image. image_file_of_binary base bytes.now ≡ Ok (contents_of_image image)) }
    ensures sound { IfOk result (λ image. All IsSoundImageRange image.ranges.items) }
    ensures err { IfErr result (IsImageFileFaultIn (image_file_of_binary base bytes.now)) }
{
    if bytes.len() as u64 > 0x1_0000_0000 - base as u64 {
        return Err(ImageFileFault::Range);
    }
    let mut held = HeldPieces::new(alloc);
    held.add(base as u64, bytes);
    if held.failed {
        return Err(ImageFileFault::Memory);
    }
    let HeldPieces { image, .. } = held;
    Ok(image)
}

// Reads a file of records.
fn read_records<A: Allocator + Copy>(
    alloc: A,
    records: RecordFormat,
    bytes: &[u8],
    base: u32,
) -> Result<Image<A>, ImageFileFault>
    ensures ok { IfOk result (λ image. image_file_of_lines records base bytes.now ≡ Ok (contents_of_image image)) }
    ensures sound { IfOk result (λ image. All IsSoundImageRange image.ranges.items) }
    ensures err { IfErr result (IsImageFileFaultIn (image_file_of_lines records base bytes.now)) }
{
    let RecordReading { place, held } = read_lines(alloc, records, bytes, base)?;
    if !place.ended {
        return Err(ImageFileFault::NoEnd);
    }
    if held.failed {
        return Err(ImageFileFault::Memory);
    }
    let HeldPieces { image, .. } = held;
    Ok(image)
}

// Reads the lines of a file.
fn read_lines<A: Allocator + Copy>(
    alloc: A,
    records: RecordFormat,
    bytes: &[u8],
    base: u32,
) -> Result<RecordReading<A>, ImageFileFault>
    ensures ok { IfOk result (λ reading. (old : ImageFileContents) × ImageFileHolds old reading.held
        × (image_file_of_lines records base bytes.now ≡ image_file_at_end reading.place.ended old)) }
    ensures err { IfErr result (IsImageFileFaultIn (image_file_of_lines records base bytes.now)) }
{
    let mut reading = RecordReading::new(alloc, base);
    let mut line = 1u64;
    let mut rest = bytes;
    let mut more = true;
    while more {
        let len = line_len(rest);
        match reading.take_line(records, without_return(front(rest, len))) {
            Ok(()) => {}
            Err(flaw) => return Err(ImageFileFault::Line { line, flaw }),
        }
        line = line.saturating_add(1);
        more = len < rest.len();
        rest = behind(rest, rest.len().min(len + 1));
    }
    Ok(reading)
}
