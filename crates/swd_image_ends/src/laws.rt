//! Laws of images of several pieces, and of simulated targets. The functions do nothing: their contracts are the laws.
ghost use Rattle.swd_image_ends.specs.Laws.{LoadKeepsEachPiece, WordsStay};

use std::alloc::Allocator;

/// States that a memory into which an image was loaded has each byte of each piece, if no two pieces have an address.
pub fn each_piece_is_kept()
    ensures { LoadKeepsEachPiece }
{}

/// States what a load, a verification and a dump mean at a simulated target at rest, such as
/// [`simulated_target`](crate::simulated_target) makes. After a load the memory has each byte of the image at its
/// address, each other byte is unchanged, and no word appears or goes. A verification and a dump are right about the
/// memory's bytes, and change no word.
pub fn words_stay<A: Allocator>()
    ensures { WordsStay A }
{}
