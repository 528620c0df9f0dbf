//! Computes the words of a range of bytes.
ghost use Rattle.std.specs.Prelude.{◌≡◌, ◌+◌, ◌≤◌, ◌^◌};
ghost use Rattle.swd_image.specs.Bytes.{image_word_of};
ghost use Rattle.swd_image.specs.Lists.{is_partial_image_word, image_last_word, image_needs_head, image_needs_tail};
ghost use Rattle.swd_image.specs.Lists.{image_word_count};

/// Returns the address of the word that contains the byte at `at`.
pub(crate) fn word_of(at: u32) -> u32
    ensures { result ≡ image_word_of at }
{
    at - at % 4
}

/// Returns how many words contain a byte of the range.
pub(crate) fn word_count(addr: u32, len: u64) -> u32
    requires { addr + len ≤ 2 ^ 32 }
    ensures { result ≡ image_word_count addr len }
{
    if len == 0 {
        0
    } else {
        (((addr % 4) as u64 + len + 3) / 4) as u32
    }
}

/// Returns the address of the last word that contains a byte of the range.
pub(crate) fn last_word(addr: u32, len: u64) -> u32
    requires { addr + len ≤ 2 ^ 32 }
    ensures { result ≡ image_last_word addr len }
{
    word_of((addr as u64 + len).saturating_sub(1) as u32)
}

// Returns whether the word at `at` has a byte outside the range.
fn is_partial(addr: u32, len: u64, at: u32) -> bool
    requires { addr + len ≤ 2 ^ 32 }
    ensures { result ≡ is_partial_image_word addr len at }
{
    at < addr || addr as u64 + len < at as u64 + 4
}

/// Returns whether a load reads the first word before it writes.
pub(crate) fn needs_head(addr: u32, len: u64) -> bool
    requires { addr + len ≤ 2 ^ 32 }
    ensures { result ≡ image_needs_head addr len }
{
    0 < len && is_partial(addr, len, word_of(addr))
}

/// Returns whether a load reads the last word before it writes.
pub(crate) fn needs_tail(addr: u32, len: u64) -> bool
    requires { addr + len ≤ 2 ^ 32 }
    ensures { result ≡ image_needs_tail addr len }
{
    let last = last_word(addr, len);
    word_of(addr) < last && is_partial(addr, len, last)
}
