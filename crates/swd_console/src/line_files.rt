//! The files of the machine, where files lead to the target in place of the standard streams.
ghost use Rattle.std.specs.Prelude.{◌≡◌, IfErr};
ghost use Rattle.swd_console.specs.LineFiles.{line_file_from, line_file_to};

use crate::machine::Console;
use crate::open_files::{Files, Identity, Opened};
use crate::report::{cannot_open_line, cannot_open_probe};
use std::io;
use std::io::Write;

/// The files of a machine, for a command whose standard streams are two other files: those that lead to a target.
#[derive(Drop)]
pub struct LineFiles<'a, F> {
    pub files: &'a F,
    /// The file that takes the place of standard input.
    pub input: Identity,
    /// The file that takes the place of standard output. It may be the same one.
    pub output: Identity,
}

impl<F: Files> Files for LineFiles<'_, F> {
    type File = F::File;

    type Made = F::Made;

    ghost opens = { λ line name opened. F.opens line.files.now name opened };

    ghost makes = { λ line name opened. F.makes line.files.now name opened };

    fn open(&self, name: &str) -> io::Result<Opened<F::File>> {
        self.files.open(name)
    }

    fn open_to_write(&self, name: &str) -> io::Result<Opened<F::Made>> {
        self.files.open_to_write(name)
    }

    fn open_line_in(&self, name: &str) -> io::Result<Opened<F::File>> {
        self.files.open_line_in(name)
    }

    fn open_line_out(&self, name: &str) -> io::Result<Opened<F::Made>> {
        self.files.open_line_out(name)
    }

    fn cut_off(&self, file: &F::Made) -> io::Result<()> {
        self.files.cut_off(file)
    }

    fn open_to_replace(&self, name: &str) -> io::Result<Opened<F::Made>> {
        self.files.open_to_replace(name)
    }

    fn lock(&self, name: &str, file: &F::Made) -> io::Result<()> {
        self.files.lock(name, file)
    }

    fn withdraw(&self, name: &str, file: &F::Made) {
        self.files.withdraw(name, file)
    }

    fn begin_replacing(&self, name: &str, file: &mut F::Made) -> io::Result<()> {
        self.files.begin_replacing(name, file)
    }

    fn finish_replacing(&self, file: &mut F::Made) -> io::Result<()> {
        self.files.finish_replacing(file)
    }

    fn give_up(&self, name: &str, file: &mut F::Made) {
        self.files.give_up(name, file)
    }

    fn standard_input(&self) -> io::Result<Option<Identity>> {
        Ok(Some(self.input))
    }

    fn standard_output(&self) -> io::Result<Option<Identity>> {
        Ok(Some(self.output))
    }

    fn standard_error(&self) -> io::Result<Option<Identity>> {
        self.files.standard_error()
    }

    fn shows_output(&self) -> bool {
        false
    }
}

/// Returns the names of the two files of a line, `IN,OUT`: of that to read, and of that to write. They are parted by
/// the first comma. A name without a comma is that of both.
pub fn line_ends(files: &str) -> (&str, &str)
    ensures from { result.0.now ≡ line_file_from files.now }
    ensures to { result.1.now ≡ line_file_to files.now }
{
    match files.split_once(',') {
        Some(ends) => ends,
        None => (files, files),
    }
}

/// Opens the files that lead to a target, `IN,OUT`: that to read, and that to write. `to_probe` is whether a probe is
/// there. At an error it prints a line and returns the status 2.
pub fn open_line<A, F: Files, C, E: Write>(
    files: &str,
    to_probe: bool,
    console: &mut Console<'_, A, F, C, E>,
) -> Result<(Opened<F::File>, Opened<F::Made>), u8>
    ensures { IfErr result (λ status. status ≡ 2) }
{
    let (from, to) = line_ends(files);
    let input = match console.files.open_line_in(from) {
        Ok(opened) => opened,
        Err(why) => return Err(cannot_open_end(console.errors, to_probe, from, &why)),
    };
    match console.files.open_line_out(to) {
        Ok(output) => Ok((input, output)),
        Err(why) => Err(cannot_open_end(console.errors, to_probe, to, &why)),
    }
}

// Prints that one of these files can't be opened, and returns the status 2.
fn cannot_open_end<E: Write>(errors: &mut E, to_probe: bool, name: &str, why: &io::Error) -> u8
    ensures { result ≡ 2 }
{
    if to_probe {
        cannot_open_probe(errors, name, why)
    } else {
        cannot_open_line(errors, name, why)
    }
}
