//! Decodes hexadecimal digits.
ghost use Rattle.std.specs.Prelude.{◌≡◌, ◌+◌, ◌*◌, ◌%◌, ◌≤◌, ◌<◌, ◌++◌, length, slice_index, sum};
ghost use Rattle.std.specs.List.{list_all};
ghost use Rattle.arrayvec.specs.ArrayVec.{array_vec_len};
ghost use Rattle.swd_image_files.specs.Digits.{image_file_digit_bytes, image_file_digit_value as digit_in};
ghost use Rattle.swd_image_files.specs.Digits.{is_image_file_digit as is_digit_in};

use arrayvec::ArrayVec;

/// The most bytes of a record: of an Intel HEX record, with its length, offset, type and checksum.
pub(crate) const LONGEST: usize = 260;

/// The bytes of a record.
pub(crate) type RecordBytes = ArrayVec<u8, LONGEST>;

// Returns whether a byte is a hexadecimal digit of either case.
fn is_digit(byte: u8) -> bool
    ensures { result ≡ is_digit_in byte }
{
    matches!(byte, b'0'..=b'9' | b'A'..=b'F' | b'a'..=b'f')
}

/// Returns whether all bytes are hexadecimal digits of either case.
pub(crate) fn are_digits(text: &[u8]) -> bool
    ensures { result ≡ list_all is_digit_in text.now }
{
    text.iter().all(|byte| is_digit(*byte))
}

/// Returns the value of a hexadecimal digit of either case, and 0 for any other byte.
pub(crate) fn digit_value(byte: u8) -> u8
    ensures value { result ≡ digit_in byte }
    ensures small { result < 16 }
{
    match byte {
        b'0'..=b'9' => byte - b'0',
        b'A'..=b'F' => byte - b'A' + 10,
        b'a'..=b'f' => byte - b'a' + 10,
        _ => 0,
    }
}

/// Returns the byte that two digits are, the more significant first.
fn byte_of(high: u8, low: u8) -> u8
    ensures { result ≡ 16 * digit_in high + digit_in low }
{
    16 * digit_value(high) + digit_value(low)
}

/// Returns the byte of the first two digits, and 0 if there are fewer.
pub(crate) fn first_byte(digits: &[u8]) -> u8
    ensures { result ≡ slice_index (image_file_digit_bytes digits.now) 0 }
{
    match digits {
        [high, low, ..] => byte_of(*high, *low),
        _ => 0,
    }
}

/// Appends the bytes that the digits are.
pub(crate) fn decode(bytes: &mut RecordBytes, digits: &[u8])
    requires { 2 * array_vec_len bytes.old + length digits.now ≤ 2 * LONGEST }
    ensures { bytes.new.items ≡ bytes.old.items ++ image_file_digit_bytes digits.now }
{
    let mut rest = digits;
    while let [high, low, others @ ..] = rest {
        bytes.push(byte_of(*high, *low));
        rest = others;
    }
}

/// Returns the low byte of the sum of some bytes.
pub(crate) fn low_sum(bytes: &[u8]) -> u8
    ensures { result ≡ sum bytes.now % 256 }
{
    let mut total = 0u8;
    for byte in bytes {
        total = total.wrapping_add(*byte);
    }
    total
}
