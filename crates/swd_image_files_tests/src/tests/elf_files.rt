//! ELF files. The bytes are those of the tables of the System V Application Binary Interface, written by hand: e_ident,
//! then the other members of the ELF header, two program headers, and the bytes of two segments.
use super::expect::{Pieces, expect_at, expect_eq_at, expect_pieces, said};
use std::alloc::{AllocError, Global};
use std::test::Fail;
use swd_image_files::{ElfChoice, Format, has_addresses, is_elf_name, read_elf, read_image_or_elf};

/// The file that the tests change: 122 bytes.
pub(super) const FILE: &[u8] = b"\x7fELF\x01\x01\x01\x00\x00\x00\x00\x00\x00\x00\x00\x00\
\x02\x00\x28\x00\x01\x00\x00\x00\x01\x00\x00\x08\x34\x00\x00\x00\x00\x00\x00\x00\x00\x02\x00\x05\
\x34\x00\x20\x00\x02\x00\x28\x00\x00\x00\x00\x00\
\x01\x00\x00\x00\x74\x00\x00\x00\x00\x00\x00\x08\x00\x00\x00\x08\x04\x00\x00\x00\x04\x00\x00\x00\
\x05\x00\x00\x00\x04\x00\x00\x00\
\x01\x00\x00\x00\x78\x00\x00\x00\x00\x00\x00\x20\x10\x00\x00\x08\x02\x00\x00\x00\x08\x00\x00\x00\
\x06\x00\x00\x00\x04\x00\x00\x00\
codeda";

/// A change of a file: the places and the new values of some bytes.
type Change = &'static [(usize, u8)];

/// A change of the file, with the base, and the pieces.
type Valid = (&'static str, Change, u32, Pieces);

/// How many bytes of the file are left, a change of them, with the base, and the first error.
type Invalid = (&'static str, usize, Change, u32, &'static str);

const CODE: (u32, &[u8]) = (0x0800_0000, b"code");

const DATA: (u32, &[u8]) = (0x0800_0010, b"da");

const VALID: &[Valid] = &[
    ("unchanged", &[], 0, &[CODE, DATA]),
    (
        "a base",
        &[],
        0x100,
        &[(0x0800_0100, b"code"), (0x0800_0110, b"da")],
    ),
    (
        "a segment continues the one before it",
        &[(96, 4)],
        0,
        &[(0x0800_0000, b"codeda")],
    ),
    (
        "the second segment has a lower address",
        &[(99, 4)],
        0,
        &[CODE, (0x0400_0010, b"da")],
    ),
    ("a note (PT_NOTE)", &[(52, 4)], 0, &[DATA]),
    ("an unused entry (PT_NULL)", &[(84, 0)], 0, &[CODE]),
    ("PT_ARM_EXIDX", &[(55, 0x70)], 0, &[DATA]),
    (
        "a segment without bytes in the file (p_filesz 0)",
        &[(68, 0)],
        0,
        &[DATA],
    ),
    (
        "it has neither a place in the file nor an address",
        &[(68, 0), (59, 0xff), (67, 0xff)],
        0x1000_0000,
        &[(0x1800_0010, b"da")],
    ),
    ("no segment has bytes", &[(68, 0), (100, 0)], 0, &[]),
    ("no program headers", &[(28, 0), (42, 0), (44, 0)], 0, &[]),
    (
        "one program header, behind another place (e_phoff)",
        &[(28, 84), (44, 1)],
        0,
        &[DATA],
    ),
    (
        "two segments of the same bytes",
        &[(88, 0x74)],
        0,
        &[CODE, (0x0800_0010, b"co")],
    ),
    (
        "a segment with the ELF header",
        &[(88, 0), (100, 4)],
        0,
        &[CODE, (0x0800_0010, b"\x7fELF")],
    ),
    (
        "up to ffffffff",
        &[(96, 0xfe), (97, 0xff), (98, 0xff), (99, 0xff)],
        0,
        &[CODE, (0xffff_fffe, b"da")],
    ),
    (
        "another p_vaddr, p_memsz, p_flags and p_align",
        &[(63, 0xff), (75, 0xff), (76, 0), (80, 0)],
        0,
        &[CODE, DATA],
    ),
    (
        "another EI_OSABI, e_entry, e_shoff, e_flags and e_ehsize",
        &[(7, 97), (24, 9), (35, 0xff), (39, 0), (40, 0)],
        0,
        &[CODE, DATA],
    ),
];

const MAGIC: &str = "ELF: it doesn't begin with 7f 45 4c 46";

const VERSION: &str = "ELF: a version other than 1";

const TABLE: &str = "ELF: the program headers extend past the end of the file";

const PAST_FIRST: &str = "ELF: program header 0: the segment extends past the end of the file";

const PAST_SECOND: &str = "ELF: program header 1: the segment extends past the end of the file";

const RANGE_FIRST: &str = "ELF: program header 0: data past address ffffffff";

const RANGE_SECOND: &str = "ELF: program header 1: data past address ffffffff";

const INVALID: &[Invalid] = &[
    ("no bytes", 0, &[], 0, MAGIC),
    ("three bytes", 3, &[], 0, MAGIC),
    ("another first byte", 122, &[(0, 0x7e)], 0, MAGIC),
    ("no E", 122, &[(1, b'e')], 0, MAGIC),
    ("no L", 122, &[(2, b'1')], 0, MAGIC),
    ("no F", 122, &[(3, 0)], 0, MAGIC),
    (
        "a byte less than a header",
        51,
        &[],
        0,
        "ELF: the ELF header extends past the end of the file",
    ),
    (
        "ELFCLASS64",
        122,
        &[(4, 2)],
        0,
        "ELF: class 2, not 1 (32-bit)",
    ),
    (
        "ELFDATA2MSB",
        122,
        &[(5, 2)],
        0,
        "ELF: byte order 2, not 1 (little-endian)",
    ),
    ("EI_VERSION 0", 122, &[(6, 0)], 0, VERSION),
    ("e_version 2", 122, &[(20, 2)], 0, VERSION),
    ("e_version 01000001", 122, &[(23, 1)], 0, VERSION),
    ("EM_386", 122, &[(18, 3)], 0, "ELF: machine 3, not 40 (Arm)"),
    (
        "a machine above 255",
        122,
        &[(19, 1)],
        0,
        "ELF: machine 296, not 40 (Arm)",
    ),
    (
        "ET_REL",
        122,
        &[(16, 1)],
        0,
        "ELF: type 1, not 2 (executable)",
    ),
    (
        "ET_DYN",
        122,
        &[(16, 3)],
        0,
        "ELF: type 3, not 2 (executable)",
    ),
    (
        "the class goes first",
        122,
        &[(4, 2), (5, 2), (18, 62), (16, 3)],
        0,
        "ELF: class 2, not 1 (32-bit)",
    ),
    (
        "the machine goes before the type",
        122,
        &[(18, 62), (16, 3), (42, 0)],
        0,
        "ELF: machine 62, not 40 (Arm)",
    ),
    (
        "PN_XNUM",
        122,
        &[(44, 0xff), (45, 0xff)],
        0,
        "ELF: more than 65,534 program headers",
    ),
    (
        "program headers of 56 bytes",
        122,
        &[(42, 56)],
        0,
        "ELF: program headers of another size than 32 bytes",
    ),
    ("the last program header is cut off", 115, &[], 0, TABLE),
    ("a program header too many", 122, &[(44, 3)], 0, TABLE),
    ("e_phoff past the end", 122, &[(31, 0xff)], 0, TABLE),
    ("the last byte is cut off", 121, &[], 0, PAST_SECOND),
    ("p_filesz is one too many", 122, &[(68, 7)], 0, PAST_FIRST),
    (
        "the end of the segment is past 2^32",
        122,
        &[(56, 0xff), (57, 0xff), (58, 0xff), (59, 0xff), (71, 0xff)],
        0,
        PAST_FIRST,
    ),
    (
        "past ffffffff",
        122,
        &[(96, 0xff), (97, 0xff), (98, 0xff), (99, 0xff)],
        0,
        RANGE_SECOND,
    ),
    (
        "past ffffffff by the base",
        122,
        &[],
        0xf800_0000,
        RANGE_FIRST,
    ),
    (
        "p_paddr and the base are ffffffff",
        122,
        &[(64, 0xff), (65, 0xff), (66, 0xff), (67, 0xff)],
        0xffff_ffff,
        RANGE_FIRST,
    ),
    (
        "the end of the file goes before the address",
        122,
        &[(68, 7)],
        0xf800_0000,
        PAST_FIRST,
    ),
    (
        "the first program header goes first",
        121,
        &[],
        0xf800_0000,
        RANGE_FIRST,
    ),
    (
        "two bytes for an address",
        122,
        &[(96, 2)],
        0x100,
        "two bytes for address 08000102",
    ),
    (
        "the second segment begins first",
        122,
        &[(96, 0xff), (97, 0xff), (98, 0xff), (99, 7)],
        0,
        "two bytes for address 08000000",
    ),
    (
        "a segment past the end goes before an overlap",
        121,
        &[(96, 2)],
        0,
        PAST_SECOND,
    ),
];

// Returns the first bytes of the file, changed.
fn changed(alloc: Global, len: usize, change: Change) -> Result<Vec<u8>, AllocError> {
    let mut file = Vec::from_slice(alloc, FILE)?;
    file.truncate(len);
    for (at, value) in change {
        if let Some(byte) = file.get_mut(*at) {
            *byte = *value;
        }
    }
    Ok(file)
}

#[test]
fn valid_elf_files_are_read(rt: HostRuntime) -> Result<(), Fail> {
    for (name, change, base, wanted) in VALID {
        let file = changed(rt.alloc(), FILE.len(), change)?;
        let read = read_elf(rt.alloc(), &file, *base);
        expect_pieces(&rt, name, &read, wanted);
    }
    Ok(())
}

#[test]
fn the_first_error_of_an_elf_file_is_named(rt: HostRuntime) -> Result<(), Fail> {
    for (name, len, change, base, wanted) in INVALID {
        let file = changed(rt.alloc(), *len, change)?;
        let found = said(rt.alloc(), &read_elf(rt.alloc(), &file, *base))?;
        expect_eq_at(&rt, name, &found.as_str(), wanted);
    }
    Ok(())
}

const HEX: &[u8] = b":01000000AA55\n:00000001FF\n";

// What is chosen, and the pieces of a file.
const CHOSEN: &[(&str, ElfChoice, Format, &[u8], Pieces)] = &[
    ("bin", ElfChoice::Auto, Format::Binary, FILE, &[CODE, DATA]),
    (
        "hex",
        ElfChoice::Auto,
        Format::IntelHex,
        FILE,
        &[CODE, DATA],
    ),
    (
        "srec",
        ElfChoice::Auto,
        Format::SRecord,
        FILE,
        &[CODE, DATA],
    ),
    (
        "elf",
        ElfChoice::Always,
        Format::IntelHex,
        FILE,
        &[CODE, DATA],
    ),
    (
        "never",
        ElfChoice::Never,
        Format::Binary,
        FILE,
        &[(0, FILE)],
    ),
    (
        "short",
        ElfChoice::Auto,
        Format::Binary,
        b"\x7fEL",
        &[(0, b"\x7fEL")],
    ),
    (
        "hex file",
        ElfChoice::Auto,
        Format::IntelHex,
        HEX,
        &[(0, b"\xaa")],
    ),
];

const REFUSED: &[(ElfChoice, Format)] = &[
    (ElfChoice::Always, Format::IntelHex),
    (ElfChoice::Never, Format::SRecord),
    (ElfChoice::Auto, Format::SRecord),
];

// What a file without an extension begins with, and its pieces.
const BEGUN: &[(&str, &[u8], Pieces)] = &[
    ("a record of HEX", HEX, &[(0, b"\xaa")]),
    (
        "one in lower case, with a carriage return",
        b":01000000aa55\r\n:00000001ff\r\n",
        &[(0, b"\xaa")],
    ),
    ("the end of a HEX file", b":00000001FF\n", &[]),
    (
        "an S0 record",
        b"S0030000FC\nS104000001FA\nS9030000FC\n",
        &[(0, b"\x01")],
    ),
    (
        "an S1 record",
        b"S104000001FA\nS9030000FC\n",
        &[(0, b"\x01")],
    ),
    (
        "a wrong checksum",
        b":0000000100\n",
        &[(0, b":0000000100\n")],
    ),
    ("another length", b":01000001FF\n", &[(0, b":01000001FF\n")]),
    ("a space", b" :00000001FF\n", &[(0, b" :00000001FF\n")]),
    ("no digit", b"S9030000FC \n", &[(0, b"S9030000FC \n")]),
    ("a colon", b":", &[(0, b":")]),
    ("an S", b"S", &[(0, b"S")]),
    ("no byte", b"", &[]),
    (
        "a line feed",
        b"\n:00000001FF\n",
        &[(0, b"\n:00000001FF\n")],
    ),
];

// A binary by its name is what its first line says, unless `Never` takes its bytes.
#[test]
fn a_file_without_an_extension_is_what_it_begins_with(rt: HostRuntime) {
    for (name, file, wanted) in BEGUN {
        let read = read_image_or_elf(rt.alloc(), ElfChoice::Auto, Format::Binary, file, 0);
        expect_pieces(&rt, name, &read, wanted);
    }
    let read = read_image_or_elf(rt.alloc(), ElfChoice::Never, Format::Binary, HEX, 0);
    expect_pieces(&rt, &"never", &read, &[(0, HEX)]);
}

// Whether a file has addresses of its own.
const ADDRESSED: &[(ElfChoice, Format, &[u8], bool)] = &[
    (ElfChoice::Auto, Format::Binary, FILE, true),
    (ElfChoice::Auto, Format::Binary, HEX, true),
    (ElfChoice::Auto, Format::Binary, b"bytes", false),
    (ElfChoice::Auto, Format::IntelHex, b"bytes", true),
    (ElfChoice::Auto, Format::SRecord, HEX, true),
    (ElfChoice::Always, Format::Binary, b"bytes", true),
    (ElfChoice::Never, Format::Binary, FILE, false),
    (ElfChoice::Never, Format::Binary, HEX, false),
    (ElfChoice::Never, Format::IntelHex, b"bytes", true),
    (ElfChoice::Never, Format::SRecord, b"bytes", true),
];

#[test]
fn elf_and_records_have_addresses_of_their_own(rt: HostRuntime) {
    for (elf, format, file, wanted) in ADDRESSED {
        let found = has_addresses(*elf, *format, file);
        expect_eq_at(&rt, &(elf, format), &found, wanted);
    }
}

const NAMES: &[(&str, bool)] = &[
    ("a.elf", true),
    ("a.ELF", true),
    ("b.axf", true),
    (".elf", true),
    ("elf", false),
    ("a.elf.bin", false),
    ("a.hex", false),
    ("", false),
];

#[test]
fn names_of_elf_files_are_known(rt: HostRuntime) {
    for (name, wanted) in NAMES {
        expect_eq_at(&rt, name, &is_elf_name(name), wanted);
    }
}

// With `Auto` the content decides, with `Always` and `Never` it doesn't.
#[test]
fn a_file_is_elf_by_its_content_or_by_choice(rt: HostRuntime) {
    for (name, elf, format, file, wanted) in CHOSEN {
        let read = read_image_or_elf(rt.alloc(), *elf, *format, file, 0);
        expect_pieces(&rt, name, &read, wanted);
    }
    for (elf, format) in REFUSED {
        let refused = read_image_or_elf(rt.alloc(), *elf, *format, HEX, 0).is_err();
        expect_at(&rt, format, refused);
    }
}
