//! The format of a file by its content.
ghost use Rattle.std.specs.Prelude.{◌≡◌, position};
ghost use Rattle.swd_image_files.specs.Files.{has_image_file_addresses, image_file_head_line as first_line_in};
ghost use Rattle.swd_image_files.specs.Files.{image_format_begun, image_format_of_line, is_addressed_format};
ghost use Rattle.swd_image_files.specs.Lines.{is_image_file_feed, image_file_line_len as line_len_in};
ghost use Rattle.swd_image_files.specs.Lines.{image_file_without_return as without_return_in};

use crate::elf::{ElfChoice, is_elf};
use crate::format::Format;
use crate::kind::RecordFormat;
use crate::line::is_record;
use crate::parts::front;

/// Returns whether a file that may be ELF has addresses of its own, to which a base is added: whether it isn't read as
/// a binary.
pub fn has_addresses(elf: ElfChoice, format: Format, bytes: &[u8]) -> bool
    ensures { result ≡ has_image_file_addresses elf format bytes.now }
{
    match elf {
        ElfChoice::Auto => is_elf(bytes) || is_addressed(format_begun(format, bytes)),
        ElfChoice::Always => true,
        ElfChoice::Never => is_addressed(format),
    }
}

// Returns whether a format has addresses of its own.
fn is_addressed(format: Format) -> bool
    ensures { result ≡ is_addressed_format format }
{
    match format {
        Format::Binary => false,
        Format::IntelHex | Format::SRecord => true,
    }
}

/// Returns the format of a file that isn't ELF. One that is a binary by its name may begin with a record.
pub(crate) fn format_begun(format: Format, bytes: &[u8]) -> Format
    ensures { result ≡ image_format_begun format bytes.now }
{
    match format {
        Format::Binary => format_of_line(first_line(bytes)),
        Format::IntelHex => Format::IntelHex,
        Format::SRecord => Format::SRecord,
    }
}

// Returns the format of which a line is a record. Any other line is a binary's.
fn format_of_line(line: &[u8]) -> Format
    ensures { result ≡ image_format_of_line line.now }
{
    if is_record(RecordFormat::Intel, line) {
        return Format::IntelHex;
    }
    if is_record(RecordFormat::Motorola, line) {
        return Format::SRecord;
    }
    Format::Binary
}

// Returns the first line of a file, without its line end.
fn first_line(bytes: &[u8]) -> &[u8]
    ensures { result.now ≡ first_line_in bytes.now }
{
    without_return(front(bytes, line_len(bytes)))
}

/// Returns how many bytes come before the first line feed.
pub(crate) fn line_len(text: &[u8]) -> usize
    ensures { result ≡ line_len_in text.now }
{
    match first_feed(text) {
        Some(at) => at,
        None => text.len(),
    }
}

// Returns the place of the first line feed.
fn first_feed(text: &[u8]) -> Option<usize>
    ensures { result ≡ position is_image_file_feed text.now }
{
    text.iter().position(|byte| *byte == b'\n')
}

/// Returns a line without the carriage return at its end.
pub(crate) fn without_return(line: &[u8]) -> &[u8]
    ensures { result.now ≡ without_return_in line.now }
{
    let len = line.len();
    if len > 0 && line[len - 1] == b'\r' {
        &line[..len - 1]
    } else {
        line
    }
}
