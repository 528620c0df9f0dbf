//! Errors of image files.
use std::error::Error;
use std::fmt::{self, Debug, Display, Formatter, Write};

/// What is wrong with a line. If a line has several errors, the first of this list is reported, but a length that the
/// record's type doesn't have is reported after `BadType`.
#[derive(Clone, Copy, PartialEq, Eq)]
pub enum LineFlaw {
    /// The line isn't blank and follows the end record.
    AfterEnd,
    /// The line doesn't begin with its record mark: `:` in Intel HEX, `S` in S-records. A byte order mark is no such
    /// mark either.
    BadStart,
    /// Behind the record mark is a byte that isn't a hexadecimal digit.
    BadDigit,
    /// The record has another number of bytes than it says, or a length that its type doesn't have.
    BadLength,
    /// The checksum is wrong.
    BadChecksum,
    /// The format has no record of this type.
    BadType,
    /// The record counts another number of data records than the file has so far.
    BadCount,
    /// The data extends past address ffffffff.
    Range,
}

impl LineFlaw {
    fn words(self) -> &'static str {
        match self {
            LineFlaw::AfterEnd => "a line after the end record",
            LineFlaw::BadStart =>
                "no record mark at the beginning (nor is a byte order mark allowed)",
            LineFlaw::BadDigit => "not a hexadecimal digit",
            LineFlaw::BadLength => "wrong length",
            LineFlaw::BadChecksum => "wrong checksum",
            LineFlaw::BadType => "unknown record type",
            LineFlaw::BadCount => "wrong count of data records",
            LineFlaw::Range => "data past address ffffffff",
        }
    }
}

impl Display for LineFlaw {
    fn fmt<W: Write>(&self, f: &mut Formatter<W>) -> fmt::Result {
        f.write_str(self.words())
    }
}

impl Debug for LineFlaw {
    fn fmt<W: Write>(&self, f: &mut Formatter<W>) -> fmt::Result {
        f.write_str(self.words())
    }
}

impl Error for LineFlaw {}

/// What is wrong with an ELF file. If a file has several errors, the first of this list is reported; of the program
/// headers, which count from 0, the first that has one.
#[derive(Clone, Copy, PartialEq, Eq)]
pub enum ElfFlaw {
    /// It doesn't begin with the magic number 7f 45 4c 46.
    Magic,
    /// The ELF header extends past the end of the file.
    Header,
    /// Its class (`EI_CLASS`) isn't `ELFCLASS32`.
    Class(u8),
    /// Its byte order (`EI_DATA`) isn't `ELFDATA2LSB`.
    ByteOrder(u8),
    /// Its version (`EI_VERSION`, `e_version`) isn't `EV_CURRENT`.
    Version,
    /// Its machine (`e_machine`) isn't `EM_ARM`.
    Machine(u16),
    /// Its type (`e_type`) isn't `ET_EXEC`.
    FileType(u16),
    /// It has 65,535 program headers or more.
    Count,
    /// Its program headers haven't 32 bytes (`e_phentsize`).
    EntrySize,
    /// A program header extends past the end of the file.
    Table,
    /// The bytes of a segment extend past the end of the file.
    Segment(u16),
    /// The bytes of a segment extend past address ffffffff.
    Range(u16),
}

impl ElfFlaw {
    // Returns what is said before its number, and after it; or all that is said where it has none.
    fn words(self) -> (&'static str, &'static str) {
        match self {
            ElfFlaw::Magic => ("it doesn't begin with 7f 45 4c 46", ""),
            ElfFlaw::Header => ("the ELF header extends past the end of the file", ""),
            ElfFlaw::Class(_) => ("class ", ", not 1 (32-bit)"),
            ElfFlaw::ByteOrder(_) => ("byte order ", ", not 1 (little-endian)"),
            ElfFlaw::Version => ("a version other than 1", ""),
            ElfFlaw::Machine(_) => ("machine ", ", not 40 (Arm)"),
            ElfFlaw::FileType(_) => ("type ", ", not 2 (executable)"),
            ElfFlaw::Count => ("more than 65,534 program headers", ""),
            ElfFlaw::EntrySize => ("program headers of another size than 32 bytes", ""),
            ElfFlaw::Table => ("the program headers extend past the end of the file", ""),
            ElfFlaw::Segment(_) => (
                "program header ",
                ": the segment extends past the end of the file",
            ),
            ElfFlaw::Range(_) => ("program header ", ": data past address ffffffff"),
        }
    }

    // Returns the number that it has, if any.
    fn number(self) -> Option<u16> {
        match self {
            ElfFlaw::Class(byte) | ElfFlaw::ByteOrder(byte) => Some(u16::from(byte)),
            ElfFlaw::Machine(number)
            | ElfFlaw::FileType(number)
            | ElfFlaw::Segment(number)
            | ElfFlaw::Range(number) => Some(number),
            _ => None,
        }
    }
}

impl Display for ElfFlaw {
    fn fmt<W: Write>(&self, f: &mut Formatter<W>) -> fmt::Result {
        let (before, after) = self.words();
        match self.number() {
            Some(number) => write!(f, "{before}{number}{after}"),
            None => f.write_str(before),
        }
    }
}

impl Debug for ElfFlaw {
    fn fmt<W: Write>(&self, f: &mut Formatter<W>) -> fmt::Result {
        Display::fmt(self, f)
    }
}

impl Error for ElfFlaw {}

/// The error of an image file.
#[derive(Clone, Copy, PartialEq, Eq)]
pub enum ImageFileFault {
    /// A line is invalid: the first such line. Lines count from 1; line numbers above 2^64 - 1 are reported as
    /// 2^64 - 1.
    Line {
        /// The line's number.
        line: u64,
        /// What is wrong with it.
        flaw: LineFlaw,
    },
    /// No record ends the file.
    NoEnd,
    /// The binary file extends past address ffffffff.
    Range,
    /// The ELF file is invalid, or is none that is read.
    Elf(ElfFlaw),
    /// Two records or segments have a byte for this address. It is the lowest such address. Each line or segment is
    /// valid.
    Overlap {
        /// The address.
        addr: u32,
    },
    /// Out of memory for the image. Each line or segment is valid.
    Memory,
}

impl Display for ImageFileFault {
    fn fmt<W: Write>(&self, f: &mut Formatter<W>) -> fmt::Result {
        match self {
            ImageFileFault::Line { line, flaw } => write!(f, "line {line}: {flaw}"),
            ImageFileFault::Elf(flaw) => write!(f, "ELF: {flaw}"),
            ImageFileFault::Overlap { addr } => write!(f, "two bytes for address {addr:08x}"),
            ImageFileFault::NoEnd => f.write_str("no end record"),
            ImageFileFault::Range => f.write_str("the image extends past ffffffff"),
            ImageFileFault::Memory => f.write_str("no memory"),
        }
    }
}

impl Debug for ImageFileFault {
    fn fmt<W: Write>(&self, f: &mut Formatter<W>) -> fmt::Result {
        Display::fmt(self, f)
    }
}

impl Error for ImageFileFault {}
