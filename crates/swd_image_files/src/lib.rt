//! Reads and writes image files as flash tools do: plain binaries, Intel HEX and Motorola S-records.
//! It reads ELF files, too.
#![tactic(auto)]

mod content;
mod digits;
mod elf;
mod fault;
mod format;
mod image;
mod kind;
pub mod laws;
mod line;
mod overlap;
mod parts;
mod place;
mod read;
mod reading;
mod segments;
mod write;

pub use content::has_addresses;
pub use elf::ElfChoice;
pub use fault::{ElfFlaw, ImageFileFault, LineFlaw};
pub use format::{Format, is_elf_name};
pub use image::{Image, Piece, Pieces, Range};
pub use read::{read_elf, read_image, read_image_or_elf};
pub use write::write_image;
