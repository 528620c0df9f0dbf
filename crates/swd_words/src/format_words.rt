//! The format of an image's file, by an option or by the file's name.
ghost use Rattle.std.specs.Prelude.{◌≡◌, IfOk, IfSome, codes};
ghost use Rattle.std.specs.Option.{option_map};
ghost use Rattle.std.specs.Str.{bytes_eq};
ghost use Rattle.swd_words.specs.Commands.{AreFormatArguments, IsFormatArgument, elf_choice_of_word};
ghost use Rattle.swd_words.specs.Commands.{is_image_read as is_read_in};

use crate::argument::{Argument, Form};
use crate::fault::LineFault;
use crate::words::unfit;
use std::alloc::Global;
use swd_command_line::ImageAction;
use swd_image_files::{ElfChoice, Format};

/// The format of a file that is read.
pub(crate) const READ_FORMAT: Argument = Argument {
    name: "format",
    form: Form::Value("FORMAT"),
    help: "bin, hex, srec or elf; by FILE itself without it",
};

/// The format of a file that is written.
pub(crate) const WRITTEN_FORMAT: Argument = Argument {
    name: "format",
    form: Form::Value("FORMAT"),
    help: "bin, hex or srec; by FILE's name without it",
};

// Returns the error of a word after `--format` that is no format, or not one of a file that is written.
fn no_format(alloc: Global, action: ImageAction, word: Option<&str>) -> LineFault {
    let why = if is_read(action) {
        "it is not bin, hex, srec or elf"
    } else {
        "it is not bin, hex or srec"
    };
    unfit(alloc, word.unwrap_or(""), "--format <FORMAT>", why)
}

/// Returns the format of the file if it isn't ELF, and whether it is ELF.
pub(crate) fn formats_in(
    alloc: Global,
    action: ImageAction,
    word: Option<&str>,
    file: &str,
) -> Result<(Format, ElfChoice), LineFault>
    ensures { IfOk result (λ found. AreFormatArguments action found.0 found.1 file.now
        (option_map (λ s. s.now) word.entry)) }
{
    let elf = elf_in(word);
    if elf == ElfChoice::Always && !is_read(action) {
        return Err(no_format(alloc, action, word));
    }
    match format_in(word, file) {
        Some(format) => Ok((format, elf)),
        None => Err(no_format(alloc, action, word)),
    }
}

// Returns whether the file is read, not written.
fn is_read(action: ImageAction) -> bool
    ensures { result ≡ is_read_in action }
{
    !matches!(action, ImageAction::Dump(_))
}

// Returns whether the file is ELF, by the word after `--format`.
fn elf_in(word: Option<&str>) -> ElfChoice
    ensures { result ≡ elf_choice_of_word (option_map (λ s. s.now) word.entry) }
{
    match word {
        Some(word) if is_elf_word(word) => ElfChoice::Always,
        Some(_) => ElfChoice::Never,
        None => ElfChoice::Auto,
    }
}

// Returns whether a word after `--format` is `elf`.
fn is_elf_word(word: &str) -> bool
    ensures { result ≡ bytes_eq word.now (codes "elf") }
{
    matches!(word.as_bytes(), b"elf")
}

// Returns the format of the file that isn't ELF: that of the word after `--format`, if there is one but `elf`, and
// otherwise that of the file's name. Returns `None` for a word that is no format.
fn format_in(word: Option<&str>, file: &str) -> Option<Format>
    ensures { IfSome result (λ format. IsFormatArgument format file.now (option_map (λ s. s.now) word.entry)) }
{
    match word {
        Some(word) if !is_elf_word(word) => Format::of_word(word),
        _ => Some(Format::of_name(file)),
    }
}
