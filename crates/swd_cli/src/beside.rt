//! A file that takes the place of another one.

use crate::disk::beside_the_streams;
use std::fs::{File, Metadata, OpenOptions};
use std::io::ErrorKind;
use std::os::unix::fs::{MetadataExt, OpenOptionsExt, PermissionsExt, fchown};
use std::rt::Files;
use std::{fs, io};

/// A new file in the folder of another one, whose place it is to take.
#[derive(Drop)]
pub(crate) struct Beside {
    pub(crate) file: File,
    /// Its name.
    pub(crate) name: String,
    /// The name of the other one, which is no link.
    pub(crate) place: String,
    // How many files of such names were there.
    others: u32,
}

// How many names are tried.
const NAMES: u32 = 100;

// Which word of a line of /proc/self/mountinfo, counted from 0, is the place of a mount.
const MOUNT_POINT: usize = 4;

// The bit of a folder's mode by which only the owner of a file, or of the folder, removes or replaces the file.
const STICKY: u32 = 0o1000;

impl Beside {
    /// Creates an empty file beside the one of this name, with its mode, and its owner and group where that is allowed.
    /// Its name is that of the other one and `.swd-` with a number. The other one may be gone.
    pub(crate) fn new(rt: &HostRuntime, name: &str, like: &Metadata) -> io::Result<Beside> {
        let place = match fs::canonicalize(rt, name) {
            Ok(place) => place.into_string(),
            Err(error) if error.kind() == ErrorKind::NotFound => format!(in rt.alloc(); "{name}")?,
            Err(error) => return Err(error),
        };
        for number in 0..NAMES {
            let name = format!(in rt.alloc(); "{place}.swd-{number}")?;
            let mut how = OpenOptions::new();
            how.write(true).create_new(true).mode(0o600);
            match how.open(rt, name.as_str()) {
                Ok(file) => {
                    let beside = Beside {
                        file: beside_the_streams(file)?,
                        name,
                        place,
                        others: number,
                    };
                    return beside.made_like(rt, like);
                }
                Err(error) if error.kind() == ErrorKind::AlreadyExists => {}
                Err(error) => return Err(error),
            }
        }
        Err(io::Error::new(
            ErrorKind::AlreadyExists,
            "beside it lie its .swd-0 to .swd-99, of calls that were ended: remove these",
        ))
    }

    // Gives it the mode of the other one, and its owner and group where that is allowed.
    fn made_like(self, rt: &HostRuntime, like: &Metadata) -> io::Result<Beside> {
        let own = self.file.metadata()?;
        if (own.uid(), own.gid()) != (like.uid(), like.gid()) {
            // (by its descriptor: its name may be another file's by now)
            let _ = fchown(&self.file, Some(like.uid()), Some(like.gid()));
        }
        match self.file.set_permissions(like.permissions()) {
            Ok(()) => Ok(self),
            Err(error) => {
                self.remove(rt);
                Err(error)
            }
        }
    }

    /// Fails where it could not be renamed to its place: a file is mounted there, or the folder is sticky and both are
    /// another user's.
    pub(crate) fn refuse_place(&self, rt: &HostRuntime, like: &Metadata) -> io::Result<()> {
        if is_mounted(rt, self.place.as_str()) {
            return Err(io::Error::new(
                ErrorKind::ResourceBusy,
                "a file is mounted there, which nothing can replace",
            ));
        }
        let own = fs::metadata(rt, "/proc/self")?.uid();
        let folder = fs::metadata(rt, folder_of(self.place.as_str()))?;
        let is_sticky = folder.permissions().mode() & STICKY != 0;
        if is_sticky && own != 0 && own != folder.uid() && own != like.uid() {
            return Err(io::Error::new(
                ErrorKind::PermissionDenied,
                "it is another user's in a sticky folder, where only its owner can replace it",
            ));
        }
        Ok(())
    }

    /// Returns the error for one that can't take its place, and stays under its own name.
    pub(crate) fn kept(&self, rt: &HostRuntime, why: &str) -> io::Error {
        let number = self.others;
        match format!(in rt.alloc(); "{why}: what it was to hold is in its .swd-{number}") {
            Ok(words) => io::Error::new(ErrorKind::InvalidInput, words.as_str()),
            Err(_) => io::Error::new(ErrorKind::InvalidInput, why),
        }
    }

    /// Says that a file of such a name was there: of a call that a signal ended, or of one that is writing it.
    pub(crate) fn tell_others(&self, rt: &HostRuntime) {
        if self.others > 0 {
            let place = self.place.as_str();
            let _ = eprintln!(rt;
                "swd: {place}.swd-0 is there: a call was ended while it wrote it, or is writing it"
            );
        }
    }

    /// Removes it.
    pub(crate) fn remove(self, rt: &HostRuntime) {
        let _ = fs::remove_file(rt, self.name.as_str());
    }
}

// Returns whether a file of another place is mounted at this one. Names with blanks are spelled otherwise there, and
// aren't found.
fn is_mounted(rt: &HostRuntime, place: &str) -> bool {
    match fs::read_to_string(rt, "/proc/self/mountinfo") {
        Ok(mounts) => mounts
            .lines()
            .any(|line| line.split(' ').nth(MOUNT_POINT) == Some(place)),
        Err(_) => false,
    }
}

// Returns the name of the folder that a file is in.
fn folder_of(place: &str) -> &str {
    match place.rsplit_once('/') {
        Some(("", _)) => "/",
        Some((folder, _)) => folder,
        None => ".",
    }
}
