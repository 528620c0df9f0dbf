//! Memory that is refused at each place.
use super::elf_files;
use super::expect::{expect_eq, expect_eq_at};
use linked_list_allocator::LocalHeap;
use std::alloc::{AllocError, Global};
use std::test::Fail;
use swd_image_files::{
    ElfChoice, Format, ImageFileFault, LineFlaw, read_elf, read_image, read_image_or_elf,
};

const FILE: &[u8] = b":01000000AA55\n:02000400CCDD51\n:01000100BB43\n:00000001FF\n";

const BINARY: &[u8] = b" 01000000AA55\n:02000400CCDD51\n:01000100BB43\n:00000001FF\n";

// A file, and how many bytes its image has.
const FILES: &[(&str, Format, &[u8], usize)] = &[
    ("bin", Format::Binary, BINARY, 56),
    ("hex", Format::IntelHex, FILE, 4),
    (
        "srec",
        Format::SRecord,
        b"S104000001FA\nS104000202F7\nS104000603F2\nS9030000FC\n",
        3,
    ),
    ("elf", Format::Binary, elf_files::FILE, 6),
];

#[test]
fn memory_ends_while_a_file_is_read(rt: HostRuntime) -> Result<(), Fail> {
    let mut counts = (0u32, 0u32);
    for size in 1..64usize {
        for (name, format, file, len) in FILES {
            let heap = LocalHeap::new(rt.alloc(), size * 8)?;
            match read_image_or_elf(&heap, ElfChoice::Auto, *format, file, 0) {
                Ok(image) => {
                    expect_eq_at(&rt, name, &image.bytes.len(), len);
                    counts.1 = counts.1.saturating_add(1);
                }
                Err(fault) => {
                    expect_eq_at(&rt, name, &fault, &ImageFileFault::Memory);
                    counts.0 = counts.0.saturating_add(1);
                }
            }
            expect_eq_at(&rt, name, &heap.used(), &0);
        }
    }
    expect_eq(&rt, &(counts.0 > 20, counts.1 > 20), &(true, true));
    Ok(())
}

// 256 program headers of the same 8,192 bytes, at the same address.
fn crowded(alloc: Global) -> Result<Vec<u8, Global>, AllocError> {
    let mut file = Vec::from_slice(alloc, &elf_files::FILE[..44])?;
    file.extend_from_slice(b"\x00\x01")?;
    file.extend_from_slice(&elf_files::FILE[46..52])?;
    for _ in 0..256 {
        file.extend_from_slice(
            b"\x01\x00\x00\x00\x00\x00\x00\x00\x00\x00\x00\x08\x00\x00\x00\x08",
        )?;
        file.extend_from_slice(
            b"\x00\x20\x00\x00\x00\x20\x00\x00\x05\x00\x00\x00\x04\x00\x00\x00",
        )?;
    }
    Ok(file)
}

// A copy of each segment would take 2 MiB.
#[test]
fn segments_are_compared_before_they_are_copied(rt: HostRuntime) -> Result<(), Fail> {
    let file = crowded(rt.alloc())?;
    let heap = LocalHeap::new(rt.alloc(), 1 << 16)?;
    let wanted = ImageFileFault::Overlap { addr: 0x0800_0000 };
    match read_elf(&heap, &file, 0) {
        Ok(_) => expect_eq(&rt, &"read", &"refused"),
        Err(fault) => expect_eq(&rt, &fault, &wanted),
    }
    Ok(())
}

#[test]
fn an_invalid_line_is_named_without_memory(rt: HostRuntime) -> Result<(), Fail> {
    let heap = LocalHeap::new(rt.alloc(), 16)?;
    let file = b":01000000AA55\n:01000000AA56\n";
    let wanted = ImageFileFault::Line {
        line: 2,
        flaw: LineFlaw::BadChecksum,
    };
    match read_image(&heap, Format::IntelHex, file, 0) {
        Ok(_) => expect_eq(&rt, &"read", &"refused"),
        Err(fault) => expect_eq(&rt, &fault, &wanted),
    }
    Ok(())
}
