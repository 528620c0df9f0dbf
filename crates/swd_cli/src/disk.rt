//! Opens the machine's files.
ghost use Rattle.std.specs.Prelude.{◌<ℤ◌, IfOk, pos};
ghost use Rattle.std.specs.Fd.{file_raw_fd};

use crate::beside::Beside;
use std::fs::{File, Metadata, OpenOptions, TryLockError};
use std::io::{ErrorKind, Seek, Write};
use std::os::fd::{AsFd, AsRawFd};
use std::os::unix::fs::{FileTypeExt, MetadataExt};
use std::{fs, io};
use swd_console::{Files, Identity, Opened};

/// The machine's file system and standard streams.
#[derive(Drop)]
pub struct Disk<'a> {
    pub rt: &'a HostRuntime,
}

/// A file that is open for writing.
#[derive(Drop)]
pub struct DiskFile {
    file: File,
    // Whether opening it created it.
    is_new: bool,
    // The file that takes its place, while its contents are replaced.
    beside: Option<Beside>,
}

impl Write for DiskFile {
    fn write(&mut self, buf: &[u8]) -> io::Result<usize> {
        match &mut self.beside {
            Some(beside) => beside.file.write(buf),
            None => self.file.write(buf),
        }
    }

    fn flush(&mut self) -> io::Result<()> {
        match &mut self.beside {
            Some(beside) => beside.file.flush(),
            None => self.file.flush(),
        }
    }
}

impl Files for Disk<'_> {
    type File = File;

    type Made = DiskFile;

    fn open(&self, name: &str) -> io::Result<Opened<File>> {
        let file = fs::open(self.rt, name)?;
        if is_endless(&file.metadata()?) {
            return Err(io::Error::new(
                ErrorKind::InvalidInput,
                "it is a device that never ends; head -c copies a beginning of it",
            ));
        }
        identified(file)
    }

    fn open_to_write(&self, name: &str) -> io::Result<Opened<DiskFile>> {
        if let Some(file) = self.created(name)? {
            return made(file, true);
        }
        let mut how = OpenOptions::new();
        how.write(true).create(true);
        let file = how.open(self.rt, name)?;
        self.refuse_errors(&file)?;
        made(file, false)
    }

    fn open_line_in(&self, name: &str) -> io::Result<Opened<File>> {
        identified(self.open_both_ways(name)?)
    }

    fn open_line_out(&self, name: &str) -> io::Result<Opened<DiskFile>> {
        made(self.open_both_ways(name)?, false)
    }

    fn cut_off(&self, file: &DiskFile) -> io::Result<()> {
        if file.file.metadata()?.is_file() {
            file.file.set_len(0)
        } else {
            Ok(())
        }
    }

    fn open_to_replace(&self, name: &str) -> io::Result<Opened<DiskFile>> {
        let opened = self.open_to_write(name)?;
        if opened.file.is_new {
            return Ok(opened);
        }
        if let Some(beside) = self.beside(name, &opened.file.file)? {
            let refused = beside.refuse_place(self.rt, &opened.file.file.metadata()?);
            beside.tell_others(self.rt);
            beside.remove(self.rt);
            refused?;
        }
        Ok(opened)
    }

    fn lock(&self, name: &str, file: &DiskFile) -> io::Result<()> {
        if !file.file.metadata()?.is_file() {
            return Ok(());
        }
        // Where the file system has no locks, the file is replaced without one.
        if let Err(TryLockError::WouldBlock) = file.file.try_lock() {
            return Err(io::Error::new(ErrorKind::ResourceBusy, "it is in use by another session"));
        }
        // A session that ended before the lock was taken may have replaced it.
        if identity_of(&file.file.metadata()?) == identity_of(&fs::metadata(self.rt, name)?) {
            Ok(())
        } else {
            Err(replaced())
        }
    }

    fn withdraw(&self, name: &str, file: &DiskFile) {
        if file.is_new {
            let _ = self.remove_empty(name, &file.file);
        }
    }

    fn begin_replacing(&self, name: &str, file: &mut DiskFile) -> io::Result<()> {
        file.beside = self.beside(name, &file.file)?;
        Ok(())
    }

    fn finish_replacing(&self, file: &mut DiskFile) -> io::Result<()> {
        let Some(beside) = &file.beside else {
            return end_here(&mut file.file);
        };
        beside.file.sync_all()?;
        let taken = self.take_place(beside, file);
        // What can't take the place stays where it is: it holds what a session left.
        file.beside = None;
        taken
    }

    fn give_up(&self, name: &str, file: &mut DiskFile) {
        if let Some(beside) = file.beside.take() {
            beside.remove(self.rt);
        }
        self.withdraw(name, file);
    }

    fn standard_input(&self) -> io::Result<Option<Identity>> {
        stream_identity(&self.rt.stdin(), fs::metadata(self.rt, "/proc/self/fd/0"))
    }

    fn standard_output(&self) -> io::Result<Option<Identity>> {
        stream_identity(&self.rt.stdout(), fs::metadata(self.rt, "/proc/self/fd/1"))
    }

    fn standard_error(&self) -> io::Result<Option<Identity>> {
        stream_identity(&self.rt.stderr(), fs::metadata(self.rt, "/proc/self/fd/2"))
    }

    fn shows_output(&self) -> bool {
        match fs::metadata(self.rt, "/proc/self/fd/1") {
            Ok(metadata) => is_terminal(&metadata),
            Err(_) => false,
        }
    }
}

// Returns whether a file is a terminal by the device numbers of Linux: a pseudoterminal, a console of the machine, or
// `/dev/tty`. A serial line has others.
fn is_terminal(metadata: &Metadata) -> bool {
    if !metadata.file_type().is_char_device() {
        return false;
    }
    let device = metadata.rdev();
    match device >> 8 & 0xfff {
        4 => device & 0xff < 64,
        5 | 136..=143 => true,
        _ => false,
    }
}

// Returns whether a file is a device whose bytes never end, by the device numbers of Linux: `/dev/zero`, `/dev/full`,
// `/dev/random` or `/dev/urandom`. No script, plan, memory, image or trace is one.
fn is_endless(metadata: &Metadata) -> bool {
    let device = metadata.rdev();
    metadata.file_type().is_char_device()
        && device >> 8 & 0xfff == 1
        && matches!(device & 0xff, 5 | 7..=9)
}

impl Disk<'_> {
    // Opens a file for reading and writing, which has to exist. One that keeps its bytes leads nowhere, and isn't
    // overwritten.
    fn open_both_ways(&self, name: &str) -> io::Result<File> {
        let mut how = OpenOptions::new();
        how.read(true).write(true);
        let file = how.open(self.rt, name)?;
        if file.metadata()?.is_file() {
            return Err(io::Error::new(
                ErrorKind::InvalidInput,
                "it is a regular file, no line to a target",
            ));
        }
        Ok(file)
    }

    // Refuses a regular file that is standard error, whose lines would overwrite it.
    fn refuse_errors(&self, file: &File) -> io::Result<()> {
        let metadata = file.metadata()?;
        if metadata.is_file() && self.standard_error()? == Some(identity_of(&metadata)) {
            return Err(io::Error::new(ErrorKind::InvalidInput, "it is standard error"));
        }
        Ok(())
    }

    // Creates a file, unless one has the name.
    fn created(&self, name: &str) -> io::Result<Option<File>> {
        let mut how = OpenOptions::new();
        how.write(true).create_new(true);
        match how.open(self.rt, name) {
            Ok(file) => Ok(Some(file)),
            Err(error) if error.kind() == ErrorKind::AlreadyExists => Ok(None),
            Err(error) => Err(error),
        }
    }

    // Creates a file that is to take the place of this one. Returns `None` for one that is overwritten in place, since
    // it isn't regular.
    fn beside(&self, name: &str, file: &File) -> io::Result<Option<Beside>> {
        let like = file.metadata()?;
        if like.is_file() {
            Ok(Some(Beside::new(self.rt, name, &like)?))
        } else {
            Ok(None)
        }
    }

    // Renames a file to the place of this one, if that is still its own, or nothing has the name of one that was
    // withdrawn. An error says where the file is then.
    fn take_place(&self, beside: &Beside, file: &DiskFile) -> io::Result<()> {
        match fs::metadata(self.rt, beside.place.as_str()) {
            Ok(place) if identity_of(&place) == identity_of(&file.file.metadata()?) => {}
            Err(error) if file.is_new && error.kind() == ErrorKind::NotFound => {}
            _ => return Err(beside.kept(self.rt, "it is another file now")),
        }
        match fs::rename(self.rt, beside.name.as_str(), beside.place.as_str()) {
            Ok(()) => Ok(()),
            Err(_) => Err(beside.kept(self.rt, "it can't be replaced")),
        }
    }

    // Removes a file that is empty, if the name is still its own.
    fn remove_empty(&self, name: &str, file: &File) -> io::Result<()> {
        let (file, named) = (file.metadata()?, fs::metadata(self.rt, name)?);
        if identity_of(&file) == identity_of(&named) && named.len() == 0 {
            fs::remove_file(self.rt, name)
        } else {
            Ok(())
        }
    }
}

// Returns the error for a name that another file has got.
fn replaced() -> io::Error {
    io::Error::new(ErrorKind::InvalidInput, "it is another file now")
}

// Ends a file that was overwritten in place where the last write ended, if it is one with a length.
fn end_here(file: &mut File) -> io::Result<()> {
    if !file.metadata()?.is_file() {
        return Ok(());
    }
    let end = file.stream_position()?;
    file.set_len(end)?;
    file.sync_all()
}

// The highest file descriptor of a standard stream: input, output and errors are 0, 1 and 2.
const LAST_STREAM: i32 = 2;

fn identity_of(metadata: &Metadata) -> Identity {
    Identity {
        device: metadata.dev(),
        number: metadata.ino(),
    }
}

// Returns a file with its identity. Its file descriptor isn't one of the standard streams'.
fn identified(file: File) -> io::Result<Opened<File>>
    ensures { IfOk result (λ opened. pos 2 <ℤ file_raw_fd opened.file) }
{
    let file = beside_the_streams(file)?;
    let identity = identity_of(&file.metadata()?);
    Ok(Opened { file, identity })
}

// The same for a file that is written.
fn made(file: File, is_new: bool) -> io::Result<Opened<DiskFile>>
    ensures { IfOk result (λ opened. pos 2 <ℤ file_raw_fd opened.file.file) }
{
    let Opened { file, identity } = identified(file)?;
    let file = DiskFile {
        file,
        is_new,
        beside: None,
    };
    Ok(Opened { file, identity })
}

/// Returns the file under a file descriptor above those of the standard streams. A new file gets the lowest free one.
/// If a standard stream is closed, that is the stream's, and reads and writes of the stream would go to the file.
pub(crate) fn beside_the_streams(file: File) -> io::Result<File>
    ensures { IfOk result (λ file. pos 2 <ℤ file_raw_fd file) }
{
    if file.as_raw_fd() > LAST_STREAM {
        return Ok(file);
    }
    // A copy gets a descriptor above those of the streams.
    let copy = file.try_clone()?;
    if copy.as_raw_fd() > LAST_STREAM {
        Ok(copy)
    } else {
        Err(io::Error::from(ErrorKind::Other))
    }
}

// Returns which file a stream is, by the metadata of its file. Returns `None` if the stream is closed.
fn stream_identity<S: AsFd>(
    stream: &S,
    known: io::Result<Metadata>,
) -> io::Result<Option<Identity>> {
    match known {
        Ok(metadata) => Ok(Some(identity_of(&metadata))),
        // An open stream without metadata may be any file.
        Err(error) if stream.as_fd().try_clone_to_owned().is_ok() => Err(error),
        Err(_) => Ok(None),
    }
}
