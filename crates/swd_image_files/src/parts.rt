//! Parts of slices.
ghost use Rattle.std.specs.Prelude.{◌≡◌, ◌≤◌, drop, length, slice_range, take};

/// Returns the first bytes, as many as `len` says.
pub(crate) fn front(bytes: &[u8], len: usize) -> &[u8]
    requires { len ≤ length bytes.now }
    ensures { result.now ≡ take len bytes.now }
{
    &bytes[..len]
}

/// Returns the bytes from a place on.
pub(crate) fn behind(bytes: &[u8], at: usize) -> &[u8]
    requires { at ≤ length bytes.now }
    ensures { result.now ≡ drop at bytes.now }
{
    &bytes[at..]
}

/// Returns the bytes from a place up to another.
pub(crate) fn between(bytes: &[u8], start: usize, end: usize) -> &[u8]
    requires order { start ≤ end }
    requires within { end ≤ length bytes.now }
    ensures { result.now ≡ slice_range bytes.now start end }
{
    &bytes[start..end]
}
