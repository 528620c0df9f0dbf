//! The formats of image files.
ghost use Rattle.std.specs.Prelude.{◌≡◌};
ghost use Rattle.swd_image_files.specs.Formats.{image_name_ends_in as ends_in_text};
ghost use Rattle.swd_image_files.specs.Formats.{image_format_of_name, image_format_of_word};
ghost use Rattle.swd_image_files.specs.Formats.{is_elf_image_name};

use crate::parts::behind;

/// A format of image files.
#[derive(Clone, Copy, Debug, PartialEq, Eq)]
pub enum Format {
    /// The bytes of one piece, without addresses.
    Binary,
    /// Intel HEX (Intel, Hexadecimal Object File Format Specification, 1988).
    IntelHex,
    /// Motorola S-records.
    SRecord,
}

impl Format {
    /// Returns the format that the extension of a file name stands for, in upper or lower case: `hex`, `ihex` and
    /// `ihx` for Intel HEX; `srec`, `s19`, `s28`, `s37` and `mot` for S-records. Any other file is a binary.
    pub fn of_name(name: &str) -> Format
        ensures { result ≡ image_format_of_name name.now }
    {
        let name = name.as_bytes();
        if ends_in(name, b".hex") || ends_in(name, b".ihex") || ends_in(name, b".ihx") {
            return Format::IntelHex;
        }
        if ends_in(name, b".srec") || ends_in(name, b".mot") {
            return Format::SRecord;
        }
        if ends_in(name, b".s19") || ends_in(name, b".s28") || ends_in(name, b".s37") {
            return Format::SRecord;
        }
        Format::Binary
    }

    /// Returns the format with this word: `bin`, `hex` or `srec`. Returns `None` for any other word.
    pub fn of_word(word: &str) -> Option<Format>
        ensures { result ≡ image_format_of_word word.now }
    {
        match word.as_bytes() {
            b"bin" => Some(Format::Binary),
            b"hex" => Some(Format::IntelHex),
            b"srec" => Some(Format::SRecord),
            _ => None,
        }
    }
}

/// Returns whether the extension of a file name is one of ELF files, in upper or lower case: `elf` or `axf`.
pub fn is_elf_name(name: &str) -> bool
    ensures { result ≡ is_elf_image_name name.now }
{
    let name = name.as_bytes();
    ends_in(name, b".elf") || ends_in(name, b".axf")
}

// Returns whether a name ends in an extension of lower case, in upper or lower case.
fn ends_in(name: &[u8], extension: &[u8]) -> bool
    ensures { result ≡ ends_in_text name.now extension.now }
{
    let start = name.len().saturating_sub(extension.len());
    behind(name, start).eq_ignore_ascii_case(extension)
}
