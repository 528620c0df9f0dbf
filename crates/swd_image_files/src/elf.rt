//! The headers of ELF files.
ghost use Rattle.std.specs.Prelude.{◌≡◌, ◌+◌, ◌*◌, ◌≤◌, ◌<◌, IfOk, length};
ghost use Rattle.swd_image_files.specs.Elf.{elf_half, elf_word, elf_program_header, is_elf_file, is_elf_loaded};
ghost use Rattle.swd_image_files.specs.Elf.{elf_header_flaw, elf_table, IsElfTableWithin};

use crate::fault::ElfFlaw;

/// Whether a file is read as ELF.
#[derive(Clone, Copy, Debug, PartialEq, Eq)]
pub enum ElfChoice {
    /// If it begins with the magic number of ELF files. Otherwise its content also says whether a binary is a file of
    /// records.
    Auto,
    /// Always. A file without the magic number is invalid.
    Always,
    /// Never. Then a binary is any bytes.
    Never,
}

/// The bytes of a program header.
pub(crate) const ENTRY: usize = 32;

/// The members of a program header that say what is loaded.
#[derive(Clone, Copy)]
pub(crate) struct ProgramHeader {
    pub(crate) p_type: u32,
    pub(crate) p_offset: u32,
    pub(crate) p_paddr: u32,
    pub(crate) p_filesz: u32,
}

/// Where the program headers begin, and how many there are.
#[derive(Clone, Copy)]
pub(crate) struct ProgramTable {
    pub(crate) start: u32,
    pub(crate) count: u16,
}

// Returns the number of the two bytes at a place, the less significant first.
fn half(bytes: &[u8], at: usize) -> u16
    requires { at + 2 ≤ length bytes.now }
    ensures { result ≡ elf_half bytes.now at }
{
    bytes[at] as u16 + 256 * bytes[at + 1] as u16
}

// Returns the number of the four bytes at a place, the least significant first.
fn word(bytes: &[u8], at: usize) -> u32
    requires { at + 4 ≤ length bytes.now }
    ensures { result ≡ elf_word bytes.now at }
{
    half(bytes, at) as u32 + 65536 * half(bytes, at + 2) as u32
}

/// Returns whether a file begins with the magic number of ELF files.
pub(crate) fn is_elf(bytes: &[u8]) -> bool
    ensures { result ≡ is_elf_file bytes.now }
{
    matches!(bytes, [0x7f, b'E', b'L', b'F', ..])
}

/// Returns the program header at the beginning of some bytes.
pub(crate) fn program_header(bytes: &[u8]) -> ProgramHeader
    requires { ENTRY ≤ length bytes.now }
    ensures { result ≡ elf_program_header bytes.now }
{
    ProgramHeader {
        p_type: word(bytes, 0),
        p_offset: word(bytes, 4),
        p_paddr: word(bytes, 12),
        p_filesz: word(bytes, 16),
    }
}

impl ProgramHeader {
    /// Returns whether its segment is loaded from the file.
    pub(crate) fn is_loaded(self) -> bool
        ensures { result ≡ is_elf_loaded self }
    {
        self.p_type == 1 && self.p_filesz > 0
    }
}

/// Returns where the program headers of a file are. All of them are within the file.
pub(crate) fn program_table(bytes: &[u8]) -> Result<ProgramTable, ElfFlaw>
    ensures value { result ≡ elf_table bytes.now }
    ensures within { IfOk result (IsElfTableWithin (length bytes.now)) }
{
    if let Some(flaw) = header_flaw(bytes) {
        return Err(flaw);
    }
    let start = word(bytes, 28);
    let count = half(bytes, 44);
    if count == 0 {
        return Ok(ProgramTable { start: 0, count });
    }
    if count == 0xffff {
        return Err(ElfFlaw::Count);
    }
    if half(bytes, 42) as usize != ENTRY {
        return Err(ElfFlaw::EntrySize);
    }
    if start as usize + ENTRY * count as usize > bytes.len() {
        return Err(ElfFlaw::Table);
    }
    Ok(ProgramTable { start, count })
}

// Returns the first flaw of the ELF header, but for what it says of the program headers.
fn header_flaw(bytes: &[u8]) -> Option<ElfFlaw>
    ensures { result ≡ elf_header_flaw bytes.now }
{
    if !is_elf(bytes) {
        return Some(ElfFlaw::Magic);
    }
    if bytes.len() < 52 {
        return Some(ElfFlaw::Header);
    }
    if bytes[4] != 1 {
        return Some(ElfFlaw::Class(bytes[4]));
    }
    if bytes[5] != 1 {
        return Some(ElfFlaw::ByteOrder(bytes[5]));
    }
    if bytes[6] != 1 || word(bytes, 20) != 1 {
        return Some(ElfFlaw::Version);
    }
    if half(bytes, 18) != 40 {
        return Some(ElfFlaw::Machine(half(bytes, 18)));
    }
    if half(bytes, 16) != 2 {
        return Some(ElfFlaw::FileType(half(bytes, 16)));
    }
    None
}
