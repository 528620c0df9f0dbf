//! Opens files by name, and identifies them.
ghost use Rattle.std.specs.Prelude.{◌≡◌, ℕ, IfOk, List};
ghost use Rattle.swd_console.specs.declared.open_files.Opened.{Opened};

use std::io;
use std::io::{Read, Write};

/// The identity of a file, the same under each of its names.
#[derive(Clone, Copy, PartialEq, Eq)]
pub struct Identity {
    /// The device of the file.
    pub device: u64,
    /// The file's number on the device.
    pub number: u64,
}

/// An open file and its identity.
#[derive(Drop)]
pub struct Opened<F> {
    pub file: F,
    pub identity: Identity,
}

/// A file system, with the standard streams.
pub trait Files {
    type File: Read + Drop;

    type Made: Write + Drop;

    // This file was opened for reading under this name. What that means is up to the file system: a contract that is
    // proved for each holds only if the file was opened.
    ghost opens: { Self → List ℕ → Opened Self.File → Type 0 } = { λ _ _ _. Unit {0} };

    // The same for writing.
    ghost makes: { Self → List ℕ → Opened Self.Made → Type 0 } = { λ _ _ _. Unit {0} };

    /// Opens a file for reading.
    fn open(&self, name: &str) -> io::Result<Opened<Self::File>>
        ensures { IfOk result (opens self.now name.now) };

    /// Opens a file for writing, or creates an empty one. An existing file isn't truncated.
    fn open_to_write(&self, name: &str) -> io::Result<Opened<Self::Made>>
        ensures { IfOk result (makes self.now name.now) };

    /// Opens a file that leads from a target, to be read. It is opened for writing too: so opening a fifo waits for no
    /// other end, and reading it comes to no end.
    fn open_line_in(&self, name: &str) -> io::Result<Opened<Self::File>>;

    /// Opens a file that leads to a target, to be written. It is opened for reading too, for the same reason. It isn't
    /// created, nor truncated.
    fn open_line_out(&self, name: &str) -> io::Result<Opened<Self::Made>>;

    /// Truncates a file to length 0, if it is one with a length.
    fn cut_off(&self, file: &Self::Made) -> io::Result<()>;

    /// Opens a file whose contents are to be replaced as a whole, or creates an empty one. Fails where its folder lets
    /// no file be created beside it, or nothing take its place.
    fn open_to_replace(&self, name: &str) -> io::Result<Opened<Self::Made>>
        ensures { IfOk result (makes self.now name.now) };

    /// Locks a file that is open for writing until it is dropped, if it is regular. Fails if another process has locked
    /// it, and if the name is another file's by now.
    fn lock(&self, name: &str, file: &Self::Made) -> io::Result<()>;

    /// Begins to replace the contents of such a file by what is written next. If it is regular, that goes to a new file
    /// beside it, with its mode. Any other file is overwritten in place.
    fn begin_replacing(&self, name: &str, file: &mut Self::Made) -> io::Result<()>
        ensures { Self.Made.Write.contents file.new ≡ Self.Made.Write.contents file.old };

    /// Removes such a file if opening it created it and it is empty: until `finish_replacing` nothing has its name.
    fn withdraw(&self, name: &str, file: &Self::Made);

    /// Gives what was written the name of the file, once it is on the disk. Fails if the name is another file's by now,
    /// or can't be given: then both files stay, and the error says where what was written is.
    fn finish_replacing(&self, file: &mut Self::Made) -> io::Result<()>
        ensures { Self.Made.Write.contents file.new ≡ Self.Made.Write.contents file.old };

    /// Removes what was written beside the file, which then is as it was. Removes the file, too, if opening it created
    /// it and it is empty.
    fn give_up(&self, name: &str, file: &mut Self::Made)
        ensures { Self.Made.Write.contents file.new ≡ Self.Made.Write.contents file.old };

    /// Returns which file standard input is, or `None` if it is closed.
    fn standard_input(&self) -> io::Result<Option<Identity>>;

    /// Returns which file standard output is, or `None` if it is closed.
    fn standard_output(&self) -> io::Result<Option<Identity>>;

    /// Returns which file standard error is, or `None` if it is closed.
    fn standard_error(&self) -> io::Result<Option<Identity>>;

    /// Returns whether standard output is a terminal, in which someone reads what is written. A serial line isn't one.
    fn shows_output(&self) -> bool;
}
