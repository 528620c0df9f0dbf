//! Images: bytes at addresses.
ghost use Rattle.std.specs.Prelude.{◌≡◌};
ghost use Rattle.std.specs.Iterator.{YieldsFirstBy, item_count};

use std::alloc::Allocator;

/// The addresses of a piece.
#[derive(Clone, Copy, Debug, PartialEq, Eq)]
pub struct Range {
    /// The first address.
    pub addr: u32,
    /// How many bytes the piece has: at least one.
    pub len: usize,
}

/// The bytes of an image, piece by piece, in the order of the file.
#[derive(Drop)]
pub struct Image<A: Allocator> {
    /// Where the pieces lie. The first `len` bytes belong to the first range, and so on.
    pub ranges: Vec<Range, A>,
    /// The bytes of all pieces.
    pub bytes: Vec<u8, A>,
}

/// Bytes at consecutive addresses.
#[derive(Clone, Copy, Debug, PartialEq, Eq)]
pub struct Piece<'a> {
    /// The first address.
    pub addr: u32,
    /// The bytes.
    pub bytes: &'a [u8],
}

impl<A: Allocator> Image<A> {
    ghost use Rattle.swd_image_files.specs.Images.{image_file_pieces, image_file_pieces_left};

    /// Returns the pieces, in the order of the file.
    pub fn pieces(&self) -> Pieces<'_>
        ensures { image_file_pieces_left result ≡ image_file_pieces self.now.ranges.items self.now.bytes.items }
    {
        Pieces {
            ranges: &self.ranges,
            bytes: &self.bytes,
        }
    }
}

/// An iterator over the pieces of an image.
#[derive(Drop)]
pub struct Pieces<'a> {
    ranges: &'a [Range],
    bytes: &'a [u8],
}

impl<'a> Iterator for Pieces<'a> {
    ghost use Rattle.swd_image_files.specs.Images.{image_file_piece, image_file_pieces_left};

    type Item = Piece<'a>;

    ghost next_gives = { YieldsFirstBy image_file_piece image_file_pieces_left };

    ghost remaining = { item_count image_file_pieces_left };

    fn next(&mut self) -> Option<Piece<'a>> {
        let (range, ranges) = self.ranges.split_first()?;
        let (bytes, rest) = self.bytes.split_at(range.len.min(self.bytes.len()));
        self.ranges = ranges;
        self.bytes = rest;
        Some(Piece {
            addr: range.addr,
            bytes,
        })
    }
}
