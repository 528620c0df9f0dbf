//! Collects the segments of an ELF file.
ghost use Rattle.std.specs.Prelude.{◌≡◌, All, IfErr, IfOk, OnOk, Ok, Err};
ghost use Rattle.swd_image_files.specs.Elf.{elf_with_segment};
ghost use Rattle.swd_image_files.specs.Files.{IsImageFileFaultIn, image_file_of_elf};
ghost use Rattle.swd_image_files.specs.Images.{ImageFileContents, contents_of_image};
ghost use Rattle.swd_image_files.specs.Overlaps.{IsSoundImageRange};
ghost use Rattle.swd_image_files.specs.Readings.{IsImageFileHeld};

use crate::elf::{ENTRY, ProgramHeader, program_header, program_table};
use crate::fault::{ElfFlaw, ImageFileFault};
use crate::image::Image;
use crate::overlap::first_overlap;
use crate::parts::{behind, between};
use crate::reading::{HeldPieces, Kept};
use std::alloc::Allocator;

/// Finds the error of an ELF file before the bytes of a segment are copied: segments that name the same bytes of the
/// file, often, take no memory for them.
///
/// # Errors
///
/// The first error of the file, the lowest address for which two segments have a byte among them. `Memory` if memory
/// ran out for their ranges.
pub(crate) fn refuse_overlap<A: Allocator + Copy>(
    alloc: A,
    bytes: &[u8],
    base: u32,
) -> Result<(), ImageFileFault>
    ensures { IfErr result (IsImageFileFaultIn (image_file_of_elf base bytes.now)) }
{
    let held = hold_segments(alloc, bytes, base, Kept::Span)?;
    if held.failed {
        return Err(ImageFileFault::Memory);
    }
    match first_overlap(alloc, &held.image.ranges) {
        Ok(None) => Ok(()),
        Ok(Some(addr)) => Err(ImageFileFault::Overlap { addr }),
        Err(_) => Err(ImageFileFault::Memory),
    }
}

/// Reads the segments of an ELF file, which may overlap.
pub(crate) fn read_segments<A: Allocator + Copy>(
    alloc: A,
    bytes: &[u8],
    base: u32,
) -> Result<Image<A>, ImageFileFault>
    ensures ok { IfOk result (λ image. image_file_of_elf base bytes.now ≡ Ok (contents_of_image image)) }
    ensures sound { IfOk result (λ image. All IsSoundImageRange image.ranges.items) }
    ensures err { IfErr result (IsImageFileFaultIn (image_file_of_elf base bytes.now)) }
{
    let held = hold_segments(alloc, bytes, base, Kept::Whole)?;
    if held.failed {
        return Err(ImageFileFault::Memory);
    }
    let HeldPieces { image, .. } = held;
    Ok(image)
}

// Collects the segments, in the order of their program headers, or their ranges alone.
fn hold_segments<A: Allocator + Copy>(
    alloc: A,
    bytes: &[u8],
    base: u32,
    kept: Kept,
) -> Result<HeldPieces<A>, ImageFileFault>
    ensures ok { IfOk result (λ held. (image : ImageFileContents) × IsImageFileHeld kept image held
        × (image_file_of_elf base bytes.now ≡ Ok image)) }
    ensures err { IfErr result (IsImageFileFaultIn (image_file_of_elf base bytes.now)) }
{
    let table = match program_table(bytes) {
        Ok(table) => table,
        Err(flaw) => return Err(ImageFileFault::Elf(flaw)),
    };
    let mut held = HeldPieces::new(alloc);
    let mut rest = behind(bytes, table.start as usize);
    let mut number = 0u16;
    while number < table.count {
        match take_segment(&mut held, bytes, base, number, program_header(rest), kept) {
            Ok(()) => {}
            Err(flaw) => return Err(ImageFileFault::Elf(flaw)),
        }
        rest = behind(rest, ENTRY);
        number += 1;
    }
    Ok(held)
}

// Adds the bytes of a segment, or its range alone, if it is loaded. After an error nothing is added.
fn take_segment<A: Allocator>(
    held: &mut HeldPieces<A>,
    bytes: &[u8],
    base: u32,
    number: u16,
    header: ProgramHeader,
    kept: Kept,
) -> Result<(), ElfFlaw>
    ensures ok { OnOk result ((old : ImageFileContents) → IsImageFileHeld kept old held.old
        → (new : ImageFileContents) × IsImageFileHeld kept new held.new
        × (elf_with_segment bytes.now base number header old ≡ Ok new)) }
    ensures err { IfErr result (λ flaw. (old : ImageFileContents)
        → elf_with_segment bytes.now base number header old ≡ Err flaw) }
{
    if !header.is_loaded() {
        return Ok(());
    }
    let start = header.p_offset as usize;
    let end = start + header.p_filesz as usize;
    if end > bytes.len() {
        return Err(ElfFlaw::Segment(number));
    }
    let at = base as u64 + header.p_paddr as u64;
    if at + header.p_filesz as u64 > 0x1_0000_0000 {
        return Err(ElfFlaw::Range(number));
    }
    held.add_kept(kept, at, between(bytes, start, end));
    Ok(())
}
