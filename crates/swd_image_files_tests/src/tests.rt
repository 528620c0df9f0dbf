//! Image files, read and written.

mod elf_files;
mod expect;
mod files;
mod memory;
mod writing;
