//! Reads and writes the files of images.
ghost use Rattle.std.specs.Prelude.{◌≡◌, ◌+◌, ◌≤◌, ◌^◌, false, IfErr, IfOk, length};
ghost use Rattle.std.specs.String.{string_bytes};
ghost use Rattle.swd_image_ends.specs.Pieces.{pieces_to_load};
ghost use Rattle.swd_image_files.specs.Texts.{image_file_of_piece};
ghost use Rattle.swd_image_commands.specs.Images.{AreCommandPieces, CommandWritesBytes, IsCommandDumpedTo};
ghost use Rattle.swd_image_commands.specs.Images.{IsCommandWrittenTo, command_bytes_of, is_command_dump_named_elf};

use std::alloc::Allocator;
use std::io::{Read, Write};
use swd_command_line::ImageLine;
use swd_console::{
    Console, DONE, Escaped, Files, InUse, KeepsError, ReadRole, Stream, Watched, WriteRole,
    cannot_open, cannot_use, streams_status, tell_failure_or,
};
use swd_image_ends::read_file;
use swd_image_files::{
    ElfChoice, Format, Image, has_addresses, is_elf_name, read_image_or_elf, write_image,
};

const NO_BYTES: &str = "it has no bytes: nothing to load or verify";

const NEVER_ELF: &str = "a dump is never ELF: --format bin writes its bytes under this name";

// Returns the most bytes that the file of an image may have. A binary ends at ffffffff. What may be ELF has its own
// addresses, and if it is a binary that is too long, it is refused once it was read.
fn most_bytes(image: &ImageLine) -> u64 {
    match (image.format, image.elf) {
        (Format::Binary, ElfChoice::Never) => (1 << 32) - image.addr as u64,
        (Format::Binary, ElfChoice::Auto) => 1 << 32,
        _ => u64::MAX,
    }
}

/// Reads the file of an image, in its format. At an error it prints a line and returns the status 2.
pub(crate) fn read_image_file<A: Allocator + Copy, F: Files, C, E: Write>(
    image: &ImageLine,
    in_use: &mut InUse,
    console: &mut Console<'_, A, F, C, E>,
) -> Result<Image<A>, u8>
    ensures pieces { IfOk result (λ whole. AreCommandPieces image.now (pieces_to_load whole)) }
    ensures status { IfErr result (λ status. status ≡ 2) }
{
    let name = image.file.as_str();
    match in_use.open_read(name, ReadRole::Image, console) {
        Ok(opened) => read_opened_image(image, Watched::new(opened.file), console),
        Err(status) => Err(status),
    }
}

// Reads the open file of an image, in its format. At an error it prints a line and returns the status 2.
fn read_opened_image<R: Read + Drop, A: Allocator + Copy, F, C, E: Write>(
    image: &ImageLine,
    reader: Watched<R>,
    console: &mut Console<'_, A, F, C, E>,
) -> Result<Image<A>, u8>
    ensures pieces { IfOk result (λ whole. AreCommandPieces image.now (pieces_to_load whole)) }
    ensures status { IfErr result (λ status. status ≡ 2) }
{
    let name = image.file.as_str();
    let mut reader = reader;
    let bytes = match read_file(console.alloc, &mut reader, most_bytes(image)) {
        Ok(bytes) => bytes,
        Err(unread) => {
            let streams = [Stream::read(name, &reader)];
            return Err(streams_status(console.errors, Err(unread), streams.as_slice()));
        }
    };
    let (elf, format) = (image.elf, image.format);
    match read_image_or_elf(console.alloc, elf, format, bytes.as_slice(), image.addr) {
        Ok(whole) => {
            let ranges = whole.ranges.as_slice();
            if ranges.is_empty() {
                return Err(cannot_use(console.errors, name, &NO_BYTES));
            }
            tell_added(console.errors, image, bytes.as_slice());
            Ok(whole)
        }
        Err(fault) => Err(cannot_use(console.errors, name, &fault)),
    }
}

// Prints that the address is added to those of the file, if it has some and the address isn't 0.
fn tell_added<E: Write>(errors: &mut E, image: &ImageLine, bytes: &[u8]) {
    if image.addr != 0 && has_addresses(image.elf, image.format, bytes) {
        let (name, addr) = (Escaped(image.file.as_str()), image.addr);
        let _ = writeln!(
            errors,
            "swd: {name} has addresses of its own, to which ADDR, {addr:08x}, is added"
        );
    }
}

// Returns whether a dump has the name of an ELF file, and no format is named.
fn is_named_elf(image: &ImageLine) -> bool
    ensures { result ≡ is_command_dump_named_elf image.now.elf (string_bytes image.now.file) }
{
    match image.elf {
        ElfChoice::Auto => is_elf_name(image.file.as_str()),
        ElfChoice::Always | ElfChoice::Never => false,
    }
}

/// Opens the file of a dump. At an error, or if its name is one of ELF files, prints a line and returns the status 2.
pub(crate) fn open_dump<A, F: Files, C, E: Write>(
    image: &ImageLine,
    in_use: &mut InUse,
    console: &mut Console<'_, A, F, C, E>,
) -> Result<Watched<F::Made>, u8>
    ensures named { IfOk result (λ _. is_command_dump_named_elf image.now.elf (string_bytes image.now.file) ≡ false) }
    ensures status { IfErr result (λ status. status ≡ 2) }
{
    let name = image.file.as_str();
    if is_named_elf(image) {
        return Err(cannot_use(console.errors, name, &NEVER_ELF));
    }
    match in_use.open_write(name, WriteRole::Dump, console) {
        Ok(opened) => Ok(Watched::new(opened.file)),
        Err(status) => Err(status),
    }
}

/// Leaves the name of a dump to no file until its bytes are there, if opening the file created it: what ends the
/// program in the session leaves no empty file. All files of the command have to be open, since the name tells this one
/// apart.
pub(crate) fn withdraw_dump<A, F: Files, C, E>(
    image: &ImageLine,
    file: &F::Made,
    console: &Console<'_, A, F, C, E>,
) {
    console.files.withdraw(image.file.as_str(), file);
}

/// Replaces the file of a dump by the bytes that were read, or gives it up where they weren't read or can't be written.
/// Returns the status.
pub(crate) fn finish_dump<A: Allocator, F: Files, C, E: Write>(
    image: &ImageLine,
    answer: Result<Vec<u8, A>, u8>,
    file: &mut Watched<F::Made>,
    console: &mut Console<'_, A, F, C, E>,
) -> u8
    requires { IfOk answer (λ bytes. image.now.addr + length bytes.items ≤ 2 ^ 32) }
    ensures { IsCommandDumpedTo (F.Made.Write.contents file.old.stream) (F.Made.Write.contents file.new.stream)
        image.now.format image.now.addr (command_bytes_of (λ bytes. bytes.items) answer) result }
{
    let status = match answer {
        Ok(bytes) => write_image_file(image, bytes.as_slice(), file, console),
        Err(status) => status,
    };
    keep_or_give_up(image, status, &mut file.stream, console);
    status
}

// Replaces the file of a dump by the bytes in its format, and prints a line with the result. Returns the status: 0 or
// 2.
fn write_image_file<A, F: Files, C, E: Write>(
    image: &ImageLine,
    bytes: &[u8],
    file: &mut Watched<F::Made>,
    console: &mut Console<'_, A, F, C, E>,
) -> u8
    requires { image.now.addr + length bytes.now ≤ 2 ^ 32 }
    ensures { IsCommandWrittenTo (F.Made.Write.contents file.old.stream) (F.Made.Write.contents file.new.stream)
        result (image_file_of_piece image.now.format image.now.addr bytes.now) }
{
    let name = image.file.as_str();
    if let Err(why) = console.files.begin_replacing(name, &mut file.stream) {
        return cannot_open(console.errors, name, &why);
    }
    let status = write_bytes(image, bytes, file, console.errors);
    if status != DONE {
        return status;
    }
    if let Err(error) = console.files.finish_replacing(&mut file.stream) {
        let streams = [Stream::failed(name, error)];
        return tell_failure_or(console.errors, streams.as_slice(), "write failed");
    }
    let (count, addr) = (bytes.len(), image.addr);
    let _ = writeln!(console.errors, "swd: dumped {count} bytes at {addr:08x}");
    status
}

/// Gives up the file of a dump with this status, unless all was done: a file that was there is as it was, and one that
/// was created is removed.
pub(crate) fn keep_or_give_up<A, F: Files, C, E>(
    image: &ImageLine,
    status: u8,
    file: &mut F::Made,
    console: &Console<'_, A, F, C, E>,
)
    ensures { F.Made.Write.contents file.new ≡ F.Made.Write.contents file.old }
{
    if status != DONE {
        console.files.give_up(image.file.as_str(), file);
    }
}

// Writes the bytes of a dump in its format. At an error it prints a line. Returns the status: 0 or 2.
fn write_bytes<M: Write + KeepsError, E: Write>(
    image: &ImageLine,
    bytes: &[u8],
    file: &mut M,
    errors: &mut E,
) -> u8
    requires { image.now.addr + length bytes.now ≤ 2 ^ 32 }
    ensures { CommandWritesBytes result (M.contents file.old) (M.contents file.new)
        (image_file_of_piece image.now.format image.now.addr bytes.now) }
{
    match write_image(image.format, image.addr, bytes, file) {
        Ok(()) => DONE,
        Err(_) => tell_failure_or(
            errors,
            [Stream::written(image.file.as_str(), file)].as_slice(),
            "write failed",
        ),
    }
}
