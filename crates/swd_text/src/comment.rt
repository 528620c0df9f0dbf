//! Finds the end of a comment.
ghost use Rattle.std.specs.Prelude.{◌≡◌, ◌≢◌, ℕ, ◌<◌, ◌≤◌, length, slice_index};

/// Returns how many bytes of a comment come before its line feed, or before the end of the text.
pub fn comment_len(text: &[u8]) -> usize
    ensures within { result ≤ length text.now }
    ensures ends { result < length text.now → slice_index text.now result ≡ 10 }
    ensures before { (k : ℕ) → k < result → slice_index text.now k ≢ 10 }
{
    for (index, byte) in text.iter().enumerate() {
        if *byte == b'\n' {
            return index;
        }
    }
    text.len()
}
