//! A buffer of bytes.
ghost use Rattle.std.specs.Prelude.{◌≡◌, ◌+◌, ◌≤◌, ◌++◌, [], length, take};

/// The size of the buffer in bytes.
pub(crate) const SIZE: usize = 32768;

/// A buffer of up to `SIZE` bytes.
///
/// `ArrayVec` can't append the first bytes of a longer piece. A copy of constant length is a few
/// instructions, where one of any length is a call.
#[derive(Drop)]
pub(crate) struct HeldOutput {
    bytes: [u8; SIZE],
    len: usize,
    ghost room: { len ≤ 32768 },
}

impl HeldOutput {
    ghost use Rattle.swd_io.specs.Helds.{block_buffer_bytes, block_buffer_count};

    pub(crate) fn new() -> HeldOutput
        ensures { block_buffer_bytes result ≡ [] }
    {
        HeldOutput {
            bytes: [0; SIZE],
            len: 0,
        }
    }

    #[inline]
    pub(crate) fn len(&self) -> usize
        ensures value { result ≡ block_buffer_count self.now }
        ensures bytes { result ≡ length (block_buffer_bytes self.now) }
    {
        self.len
    }

    pub(crate) fn as_slice(&self) -> &[u8]
        ensures { result.now ≡ block_buffer_bytes self.now }
    {
        &self.bytes[..self.len]
    }

    pub(crate) fn clear(&mut self)
        ensures bytes { block_buffer_bytes self.new ≡ [] }
        ensures count { block_buffer_count self.new ≡ 0 }
    {
        self.len = 0;
    }

    /// Appends a piece. There has to be room for it.
    #[inline(always)]
    pub(crate) fn extend(&mut self, piece: &[u8])
        requires { block_buffer_count self.old + length piece.now ≤ SIZE }
        ensures bytes { block_buffer_bytes self.new ≡ block_buffer_bytes self.old ++ piece.now }
        ensures count { block_buffer_count self.new ≡ block_buffer_count self.old + length piece.now }
    {
        let len = self.len;
        self.bytes[len..len + piece.len()].copy_from_slice(piece);
        self.len = len + piece.len();
    }

    /// Appends the first bytes of a piece. There has to be room for the whole piece.
    #[inline(always)]
    pub(crate) fn extend_first<const N: usize>(&mut self, piece: &[u8; N], count: usize)
        requires room { block_buffer_count self.old + N ≤ SIZE }
        requires within { count ≤ N }
        ensures bytes { block_buffer_bytes self.new ≡ block_buffer_bytes self.old ++ take count piece.now }
        ensures count { block_buffer_count self.new ≡ block_buffer_count self.old + count }
    {
        let len = self.len;
        self.extend(piece);
        self.len = len + count;
    }

    /// Appends the first bytes of two pieces, and then a third one. There has to be room for all three.
    #[inline(always)]
    pub(crate) fn extend_three<const A: usize, const B: usize, const C: usize>(
        &mut self,
        first: &[u8; A],
        first_count: usize,
        second: &[u8; B],
        second_count: usize,
        third: &[u8; C],
    )
        requires room { block_buffer_count self.old + (A + B + C) ≤ SIZE }
        requires first { first_count ≤ A }
        requires second { second_count ≤ B }
        ensures { block_buffer_bytes self.new
            ≡ block_buffer_bytes self.old ++
            (take first_count first.now ++ (take second_count second.now ++ third.now)) }
    {
        self.extend_first(first, first_count);
        self.extend_first(second, second_count);
        self.extend(third);
    }
}
