//! Writes image files.
ghost use Rattle.std.specs.Prelude.{◌≡◌, ◌+◌, ◌*◌, ◌≤◌, ◌<◌, ◌^◌, ◌++◌, length};
ghost use Rattle.arrayvec.specs.ArrayVec.{array_vec_len};
ghost use Rattle.swd_io.specs.Blocks.{WritesOutput, BlockQueues};
ghost use Rattle.swd_image_files.specs.Texts.{image_file_base_lines, image_file_data_line as data_line_in};
ghost use Rattle.swd_image_files.specs.Texts.{image_file_hex_digits, image_file_of_piece};
ghost use Rattle.swd_image_files.specs.Texts.{image_file_end_line as end_line_in, image_file_hex_digit as hex_digit_in};
ghost use Rattle.swd_image_files.specs.Texts.{hex_record_line as hex_line_in, image_file_of_records};
ghost use Rattle.swd_image_files.specs.Texts.{image_file_record_span as span_in, srec_line as srec_line_in};

use crate::digits::low_sum;
use crate::format::Format;
use crate::kind::RecordFormat;
use crate::parts::{behind, front};
use arrayvec::ArrayVec;
use std::io::Write;
use swd_io::{Block, send};

// The most bytes of data that a record has.
const MOST: usize = 16;

// The most characters of a line.
const WIDEST: usize = 64;

/// Writes an image of one piece as a file. It has to lie below 2^32. Nothing is retried.
///
/// An Intel HEX file has records of up to 16 bytes, an extended linear address record wherever the upper half of the
/// address changes, and an end record. An S-record file has S3 records of up to 16 bytes and an S7 record.
///
/// # Errors
///
/// If the writer fails: how many bytes were written before that, exactly the first ones of the file.
pub fn write_image<W: Write>(
    format: Format,
    addr: u32,
    bytes: &[u8],
    writer: &mut W,
) -> Result<(), u64>
    requires { addr + length bytes.now ≤ 2 ^ 32 }
    ensures { WritesOutput result (W.contents writer.old) (W.contents writer.new)
        (image_file_of_piece format addr bytes.now) }
{
    match format {
        Format::Binary => match send(writer, bytes) {
            Ok(()) => Ok(()),
            Err(unsent) => Err(unsent.sent as u64),
        },
        Format::IntelHex => write_records(RecordFormat::Intel, addr, bytes, writer),
        Format::SRecord => write_records(RecordFormat::Motorola, addr, bytes, writer),
    }
}

// Writes an image of one piece as a file of records.
fn write_records<W: Write>(
    records: RecordFormat,
    addr: u32,
    bytes: &[u8],
    writer: &mut W,
) -> Result<(), u64>
    requires { addr + length bytes.now ≤ 2 ^ 32 }
    ensures { WritesOutput result (W.contents writer.old) (W.contents writer.new)
        (image_file_of_records records addr bytes.now) }
{
    let mut block = Block::new(writer, 0);
    put_records(&mut block, records, addr, bytes);
    match block.flush() {
        Ok(_) => Ok(()),
        Err(written) => Err(written),
    }
}

// Appends the lines of an image of one piece.
fn put_records<W: Write>(block: &mut Block<'_, W>, records: RecordFormat, addr: u32, bytes: &[u8])
    requires { addr + length bytes.now ≤ 2 ^ 32 }
    ensures sends { BlockQueues W.contents (image_file_of_records records addr bytes.now) block.old block.new }
    ensures writer { block.new.writer.ghost_name ≡ block.old.writer.ghost_name }
{
    let mut at = addr as u64;
    let mut upper = 0u32;
    let mut rest = bytes;
    while !rest.is_empty() {
        let here = at as u32;
        let count = span(records, here).min(rest.len());
        put_base(block, records, upper, here / 65536);
        block.put_line(data_line(records, here, front(rest, count)).as_slice());
        at += count as u64;
        upper = here / 65536;
        rest = behind(rest, count);
    }
    block.put_line(end_line(records));
}

// Writes an extended linear address record if the upper half of the address changes.
fn put_base<W: Write>(block: &mut Block<'_, W>, records: RecordFormat, old: u32, new: u32)
    requires { new < 65536 }
    ensures sends { BlockQueues W.contents (image_file_base_lines records old new) block.old block.new }
    ensures writer { block.new.writer.ghost_name ≡ block.old.writer.ghost_name }
{
    if let RecordFormat::Intel = records
        && old != new
    {
        block.put_line(hex_line(0, 4, &[(new / 256) as u8, (new % 256) as u8]).as_slice());
    }
}

// Returns how many bytes the record at an address may have: in Intel HEX none crosses a multiple of 64 KiB.
fn span(records: RecordFormat, addr: u32) -> usize
    ensures value { result ≡ span_in records addr }
    ensures short { result ≤ 16 }
    ensures some { 1 ≤ result }
{
    match records {
        RecordFormat::Intel => MOST.min(65536 - (addr % 65536) as usize),
        RecordFormat::Motorola => MOST,
    }
}

// Returns the record of some data.
fn data_line(records: RecordFormat, addr: u32, bytes: &[u8]) -> ArrayVec<u8, WIDEST>
    requires { length bytes.now ≤ 16 }
    ensures { result.items ≡ data_line_in records addr bytes.now }
{
    match records {
        RecordFormat::Intel => hex_line(addr % 65536, 0, bytes),
        RecordFormat::Motorola => srec_line(addr, bytes),
    }
}

// Returns the end record.
fn end_line(records: RecordFormat) -> &'static [u8]
    ensures { result.now ≡ end_line_in records }
{
    match records {
        RecordFormat::Intel => b":00000001FF",
        RecordFormat::Motorola => b"S70500000000FA",
    }
}

// Returns an Intel HEX record of up to 16 bytes.
fn hex_line(offset: u32, kind: u8, bytes: &[u8]) -> ArrayVec<u8, WIDEST>
    requires short { length bytes.now ≤ 16 }
    requires small { offset < 65536 }
    ensures { result.items ≡ hex_line_in offset kind bytes.now }
{
    let head = [
        bytes.len() as u8,
        (offset / 256) as u8,
        (offset % 256) as u8,
        kind,
    ];
    let sum = low_sum(&head).wrapping_add(low_sum(bytes));
    let mut line = ArrayVec::new();
    line.push(b':');
    push_bytes(&mut line, &head);
    push_bytes(&mut line, bytes);
    push_bytes(&mut line, &[0u8.wrapping_sub(sum)]);
    line
}

// Returns an S3 record of up to 16 bytes.
fn srec_line(addr: u32, bytes: &[u8]) -> ArrayVec<u8, WIDEST>
    requires { length bytes.now ≤ 16 }
    ensures { result.items ≡ srec_line_in addr bytes.now }
{
    let head = [
        bytes.len() as u8 + 5,
        (addr / 16777216) as u8,
        (addr / 65536 % 256) as u8,
        (addr / 256 % 256) as u8,
        (addr % 256) as u8,
    ];
    let sum = low_sum(&head).wrapping_add(low_sum(bytes));
    let mut line = ArrayVec::new();
    line.push(b'S');
    line.push(b'3');
    push_bytes(&mut line, &head);
    push_bytes(&mut line, bytes);
    push_bytes(&mut line, &[255 - sum]);
    line
}

// Appends the hexadecimal digits of some bytes.
fn push_bytes(line: &mut ArrayVec<u8, WIDEST>, bytes: &[u8])
    requires { array_vec_len line.old + 2 * length bytes.now ≤ WIDEST }
    ensures items { line.new.items ≡ line.old.items ++ image_file_hex_digits bytes.now }
    ensures len { array_vec_len line.new ≡ array_vec_len line.old + 2 * length bytes.now }
{
    for byte in bytes {
        line.push(hex_digit(byte / 16));
        line.push(hex_digit(byte % 16));
    }
}

// Returns a hexadecimal digit of upper case.
fn hex_digit(value: u8) -> u8
    requires { value < 16 }
    ensures { result ≡ hex_digit_in value }
{
    if value < 10 {
        b'0' + value
    } else {
        b'A' + (value - 10)
    }
}
