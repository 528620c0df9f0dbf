//! Parses the numbers of a script or a plan.
ghost use Rattle.std.specs.Prelude.{◌≡◌, ◌≤◌, ◌<◌, length, IfSome};
ghost use Rattle.swd_script.specs.Numerals.{script_decimal_number, script_digit_of, script_digit_value};
ghost use Rattle.swd_script.specs.Numerals.{script_hex_digits, script_hex_number, script_number_from};
ghost use Rattle.swd_script.specs.Numerals.{script_numeral as numeral_of};

/// Parses 1 to 8 hexadecimal digits of either case, which may follow `0x` or `0X`.
pub fn hex_of(word: &[u8]) -> Option<u32>
    ensures { result ≡ script_hex_number word.now }
{
    numeral(16, 8, hex_digits(word))
}

// Returns the digits of a hexadecimal number, without its prefix if it has one.
fn hex_digits(word: &[u8]) -> &[u8]
    ensures { result.now ≡ script_hex_digits word.now }
{
    match word {
        [b'0', b'x' | b'X', digits @ ..] => digits,
        _ => word,
    }
}

/// Parses 1 to 10 decimal digits. The number has to be below 2^32.
pub fn decimal_of(word: &[u8]) -> Option<u32>
    ensures { result ≡ script_decimal_number word.now }
{
    numeral(10, 10, word)
}

// Parses 1 to `longest` digits of a base. The number has to be below 2^32.
fn numeral(base: u64, longest: usize, word: &[u8]) -> Option<u32>
    requires small { base ≤ 16 }
    requires short { longest ≤ 10 }
    ensures { result ≡ numeral_of base longest word.now }
{
    if word.is_empty() || word.len() > longest {
        return None;
    }
    u32::try_from(number(base, word)?).ok()
}

// Parses digits of a base.
fn number(base: u64, word: &[u8]) -> Option<u64>
    requires small { base ≤ 16 }
    requires short { length word.now ≤ 10 }
    ensures { result ≡ script_number_from base 0 word.now }
{
    let mut value = 0u64;
    for byte in word {
        value = base * value + digit(base, *byte)?;
    }
    Some(value)
}

// Returns the value of a digit of a base.
fn digit(base: u64, byte: u8) -> Option<u64>
    ensures value { result ≡ script_digit_of base byte }
    ensures small { IfSome result (λ digit. digit < base) }
{
    let value = u64::from(digit_value(byte));
    if value < base { Some(value) } else { None }
}

// Returns the value of a hexadecimal digit, and 16 for any other byte.
fn digit_value(byte: u8) -> u8
    ensures { result ≡ script_digit_value byte }
{
    match byte {
        b'0'..=b'9' => byte - b'0',
        b'A'..=b'F' => byte - b'A' + 10,
        b'a'..=b'f' => byte - b'a' + 10,
        _ => 16,
    }
}
