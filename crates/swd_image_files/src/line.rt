//! Decodes the record of a line.
ghost use Rattle.std.specs.Prelude.{◌≡◌, ◌+◌, ◌*◌, ◌^◌, ◌≤◌, ◌<◌, length, IfOk, IfErr, Ok, Err, is_ok};
ghost use Rattle.swd_image_files.specs.Records.{image_file_record_bytes as bytes_in, hex_bytes as hex_bytes_in};
ghost use Rattle.swd_image_files.specs.Records.{srec_bytes as srec_bytes_in, image_file_record_kind as kind_in};
ghost use Rattle.swd_image_files.specs.Records.{hex_record_kind as hex_kind_in, srec_kind as srec_kind_in};
ghost use Rattle.swd_image_files.specs.Records.{IsWithinImageRecord, srec_typed, image_file_two_bytes as two_in};
ghost use Rattle.swd_image_files.specs.Records.{image_file_number as number_in, image_file_sized_kind as sized_in};
ghost use Rattle.swd_image_files.specs.Records.{image_file_base_kind as base_in};

use crate::digits::{RecordBytes, are_digits, decode, digit_value, first_byte, low_sum};
use crate::fault::LineFlaw;
use crate::kind::{RecordFormat, RecordKind};
use arrayvec::ArrayVec;

/// Decodes the bytes of a record, and checks its digits, its length and its checksum. The first byte of an S-record
/// is its type.
pub(crate) fn record_bytes(records: RecordFormat, line: &[u8]) -> Result<RecordBytes, LineFlaw>
    ensures ok { IfOk result (λ bytes. bytes_in records line.now ≡ Ok bytes.items) }
    ensures err { IfErr result (λ flaw. bytes_in records line.now ≡ Err flaw) }
{
    match records {
        RecordFormat::Intel => hex_bytes(line),
        RecordFormat::Motorola => srec_bytes(line),
    }
}

/// Returns whether a line is a record, by its digits, its length and its checksum.
pub(crate) fn is_record(records: RecordFormat, line: &[u8]) -> bool
    ensures { result ≡ is_ok (bytes_in records line.now) }
{
    match record_bytes(records, line) {
        Ok(_) => true,
        Err(_) => false,
    }
}

// Decodes an Intel HEX record.
fn hex_bytes(line: &[u8]) -> Result<RecordBytes, LineFlaw>
    ensures ok { IfOk result (λ bytes. hex_bytes_in line.now ≡ Ok bytes.items) }
    ensures err { IfErr result (λ flaw. hex_bytes_in line.now ≡ Err flaw) }
{
    let [b':', digits @ ..] = line else {
        return Err(LineFlaw::BadStart);
    };
    if !are_digits(digits) {
        return Err(LineFlaw::BadDigit);
    }
    if digits.len() != 2 * (first_byte(digits) as usize + 5) {
        return Err(LineFlaw::BadLength);
    }
    let mut bytes = ArrayVec::new();
    decode(&mut bytes, digits);
    if low_sum(&bytes) != 0 {
        return Err(LineFlaw::BadChecksum);
    }
    Ok(bytes)
}

// Decodes an S-record.
fn srec_bytes(line: &[u8]) -> Result<RecordBytes, LineFlaw>
    ensures ok { IfOk result (λ bytes. srec_bytes_in line.now ≡ Ok bytes.items) }
    ensures err { IfErr result (λ flaw. srec_bytes_in line.now ≡ Err flaw) }
{
    let [b'S', digits @ ..] = line else {
        return Err(LineFlaw::BadStart);
    };
    if !are_digits(digits) {
        return Err(LineFlaw::BadDigit);
    }
    let [kind, digits @ ..] = digits else {
        return Err(LineFlaw::BadLength);
    };
    if digits.len() != 2 * (first_byte(digits) as usize + 1) {
        return Err(LineFlaw::BadLength);
    }
    let mut bytes = ArrayVec::new();
    bytes.push(digit_value(*kind));
    decode(&mut bytes, digits);
    if low_sum(&bytes.as_slice()[1..]) != 255 {
        return Err(LineFlaw::BadChecksum);
    }
    Ok(bytes)
}

/// Returns what a record says, by its bytes.
pub(crate) fn record_kind(records: RecordFormat, bytes: &[u8]) -> Result<RecordKind, LineFlaw>
    ensures value { result ≡ kind_in records bytes.now }
    ensures within { IfOk result (IsWithinImageRecord (length bytes.now)) }
{
    match records {
        RecordFormat::Intel => hex_kind(bytes),
        RecordFormat::Motorola => srec_kind(bytes),
    }
}

// Returns what an Intel HEX record says.
fn hex_kind(bytes: &[u8]) -> Result<RecordKind, LineFlaw>
    ensures value { result ≡ hex_kind_in bytes.now }
    ensures within { IfOk result (IsWithinImageRecord (length bytes.now)) }
{
    let len = bytes.len();
    if len < 5 {
        return Err(LineFlaw::BadLength);
    }
    match bytes[3] {
        0 => Ok(RecordKind::Data {
            addr: two(bytes, 1),
            from: 4,
        }),
        1 => sized(len == 5, RecordKind::End),
        2 => base(bytes, 16, true),
        3 | 5 => sized(len == 9, RecordKind::Other),
        4 => base(bytes, 65536, false),
        _ => Err(LineFlaw::BadType),
    }
}

// Returns the base that a record with two bytes of data says, in these units.
fn base(bytes: &[u8], unit: u32, wraps: bool) -> Result<RecordKind, LineFlaw>
    requires { unit ≤ 65536 }
    ensures { result ≡ base_in bytes.now unit wraps }
{
    if bytes.len() != 7 {
        return Err(LineFlaw::BadLength);
    }
    let at = unit * two(bytes, 4);
    Ok(RecordKind::Base { at, wraps })
}

// Returns what an S-record says. Its first byte is its type, its second byte the number of those that follow.
fn srec_kind(bytes: &[u8]) -> Result<RecordKind, LineFlaw>
    ensures value { result ≡ srec_kind_in bytes.now }
    ensures within { IfOk result (IsWithinImageRecord (length bytes.now)) }
{
    match bytes {
        [kind, ..] => srec_typed(bytes, *kind),
        [] => Err(LineFlaw::BadLength),
    }
}

// Returns what an S-record of this type says.
fn srec_typed(bytes: &[u8], kind: u8) -> Result<RecordKind, LineFlaw>
    ensures value { result ≡ srec_typed bytes.now kind }
    ensures within { IfOk result (IsWithinImageRecord (length bytes.now)) }
{
    let len = bytes.len();
    match kind {
        0 => sized(5 <= len, RecordKind::Other),
        1..=3 => {
            let width = kind as usize + 1;
            if len < width + 3 {
                return Err(LineFlaw::BadLength);
            }
            Ok(RecordKind::Data {
                addr: number(bytes, width),
                from: width + 2,
            })
        }
        5 | 6 => {
            let width = kind as usize - 3;
            if len != width + 3 {
                return Err(LineFlaw::BadLength);
            }
            Ok(RecordKind::Count(number(bytes, width)))
        }
        7..=9 => sized(len == 14 - kind as usize, RecordKind::End),
        _ => Err(LineFlaw::BadType),
    }
}

// Returns what a record says, if its length is right.
fn sized(right: bool, kind: RecordKind) -> Result<RecordKind, LineFlaw>
    ensures { result ≡ sized_in right kind }
{
    if right {
        Ok(kind)
    } else {
        Err(LineFlaw::BadLength)
    }
}

// Returns the number of the two bytes at a place, the more significant first.
fn two(bytes: &[u8], at: usize) -> u32
    requires { at + 2 ≤ length bytes.now }
    ensures value { result ≡ two_in bytes.now at }
    ensures small { result < 2 ^ 16 }
{
    256 * bytes[at] as u32 + bytes[at + 1] as u32
}

// Returns the number of the 2, 3 or 4 bytes after the first two, the most significant first.
fn number(bytes: &[u8], width: usize) -> u32
    requires { width + 2 ≤ length bytes.now }
    ensures { result ≡ number_in bytes.now width }
{
    match width {
        2 => two(bytes, 2),
        3 => 256 * two(bytes, 2) + bytes[4] as u32,
        4 => 65536 * two(bytes, 2) + two(bytes, 4),
        _ => 0,
    }
}
