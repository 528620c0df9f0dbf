//! Opens the files of a command, each in a role, and refuses a file that is already in use.
ghost use Rattle.std.specs.Prelude.{◌≡◌, ◌≢◌, IfErr, IfNone, IfOk, IfSome, MatchOption, OnErr, OnOk, codes};
ghost use Rattle.std.specs.Prelude.{is_some, true};
ghost use Rattle.std.specs.String.{string_bytes};
ghost use Rattle.swd_console.specs.Roles.{MayReadFile, MayReadName, MayWriteFile, WritesConsoleFile};
ghost use Rattle.swd_console.specs.Roles.{console_files_read, console_files_written, no_console_files};

use crate::machine::Console;
use crate::open_files::{Files, Identity, Opened};
use crate::report::{cannot_open, cannot_open_memory};
use crate::watched::Watched;
use std::io;
use std::io::{ErrorKind, Write};

/// What a command reads a file as.
#[derive(Clone, Copy)]
pub enum ReadRole {
    Script,
    Plan,
    /// The memory of a simulated target.
    Memory,
    /// The image of a load or a verification.
    Image,
}

/// What a command writes a file as.
#[derive(Clone, Copy)]
pub enum WriteRole {
    /// The report of a run, or the log of a session.
    Report,
    Trace,
    /// The accesses that the trace of a run shows.
    Accesses,
    /// The report of an image's calls.
    Calls,
    /// The image of a dump. It is replaced when its bytes are there.
    Dump,
    /// The memory of a simulated target, after a load or a session. It is locked, and replaced when its bytes are
    /// there.
    Memory,
}

/// The standard streams that a command has in use, other than standard error.
#[derive(Clone, Copy)]
pub enum StreamsInUse {
    /// Neither.
    Neither,
    /// Standard output.
    Output,
    /// Both: standard input is a script's, a target's or a debugger's.
    Both,
}

/// The files that a command has in use, by their roles.
#[derive(Clone, Copy)]
pub struct InUse {
    pub script: Option<Identity>,
    pub plan: Option<Identity>,
    pub memory: Option<Identity>,
    pub image: Option<Identity>,
    pub report: Option<Identity>,
    pub trace: Option<Identity>,
    pub streams: StreamsInUse,
}

// Returns the error for a file that may not be used.
fn refusal(why: &str) -> io::Error {
    io::Error::new(ErrorKind::InvalidInput, why)
}

// Returns which file a stream is, or an error with this reason where that can't be found out.
fn known(stream: io::Result<Option<Identity>>, why: &str) -> io::Result<Option<Identity>> {
    match stream {
        Ok(identity) => Ok(identity),
        Err(_) => Err(refusal(why)),
    }
}

/// Returns the error for `-`, which isn't the name of a file.
pub fn unnamed_file() -> io::Error {
    refusal("it has to be a file; one of that name is ./-")
}

// Refuses `-`, which isn't the name of a file.
fn named_file(name: &str) -> io::Result<()>
    ensures { OnOk result (name.now ≢ codes "-") }
{
    if name == "-" {
        return Err(unnamed_file());
    }
    Ok(())
}

/// Returns the name of a file, or `None` for `-`, which is standard input.
pub fn named_file_of(name: &str) -> Option<&str>
    ensures standard { IfNone result (name.now ≡ codes "-") }
    ensures file { IfSome result (λ file. (file.now ≡ name.now) × (file.now ≢ codes "-")) }
{
    if name == "-" { None } else { Some(name) }
}

impl InUse {
    /// Only these streams are in use.
    pub fn new(streams: StreamsInUse) -> InUse
        ensures { result ≡ no_console_files streams }
    {
        InUse {
            script: None,
            plan: None,
            memory: None,
            image: None,
            report: None,
            trace: None,
            streams,
        }
    }

    /// Opens a file for reading, which is in use then. At an error it prints a line and returns the status 2: also if
    /// the file is in use in another role, under any name, or may be, or is a standard stream that is in use. The
    /// contract leaves out the streams.
    pub fn open_read<A, F: Files, C, E: Write>(
        &mut self,
        name: &str,
        role: ReadRole,
        console: &mut Console<'_, A, F, C, E>,
    ) -> Result<Opened<F::File>, u8>
        ensures opens { IfOk result (F.opens console.old.files.now name.now) }
        ensures file { IfOk result (λ opened. MayReadFile role opened.identity self.old) }
        ensures used { IfOk result (λ opened. self.new ≡ console_files_read role opened.identity self.old) }
        ensures same { OnErr result (self.new ≡ self.old) }
        ensures name { OnOk result (MayReadName role name.now) }
        ensures status { IfErr result (λ status. status ≡ 2) }
    {
        match self.find_read(name, role, console.files) {
            Ok(opened) => {
                self.note_read(role, opened.identity);
                Ok(opened)
            }
            Err(why) => Err(match role {
                ReadRole::Memory => cannot_open_memory(console.errors, name, &why),
                _ => cannot_open(console.errors, name, &why),
            }),
        }
    }

    // Notes a file that was opened for reading.
    fn note_read(&mut self, role: ReadRole, identity: Identity)
        ensures { self.new ≡ console_files_read role identity self.old }
    {
        let file = Some(identity);
        match role {
            ReadRole::Script => self.script = file,
            ReadRole::Plan => self.plan = file,
            ReadRole::Memory => self.memory = file,
            ReadRole::Image => self.image = file,
        }
    }

    // Opens a file for reading, unless it is in use.
    fn find_read<F: Files>(
        &self,
        name: &str,
        role: ReadRole,
        files: &F,
    ) -> io::Result<Opened<F::File>>
        ensures opens { IfOk result (F.opens files.now name.now) }
        ensures file { IfOk result (λ opened. MayReadFile role opened.identity self.now) }
        ensures name { OnOk result (MayReadName role name.now) }
    {
        if let ReadRole::Memory = role {
            named_file(name)?;
        }
        let opened = files.open(name)?;
        self.refuse_read(role, opened.identity)?;
        self.refuse_read_stream(role, opened.identity, files)?;
        Ok(opened)
    }

    // Refuses a file that is in use, if it can't be read in this role then.
    fn refuse_read(&self, role: ReadRole, identity: Identity) -> io::Result<()>
        ensures { OnOk result (MayReadFile role identity self.now) }
    {
        let file = Some(identity);
        match role {
            ReadRole::Plan if file == self.script => Err(refusal("it is the script")),
            ReadRole::Plan if file == self.memory => Err(refusal("it is the memory")),
            ReadRole::Image if file == self.memory => Err(refusal("it is the memory")),
            ReadRole::Image if file == self.plan => Err(refusal("it is the plan")),
            _ => Ok(()),
        }
    }

    // Refuses a standard stream that is in use. A memory that is served isn't standard error either.
    fn refuse_read_stream<F: Files>(
        &self,
        role: ReadRole,
        identity: Identity,
        files: &F,
    ) -> io::Result<()> {
        let file = Some(identity);
        match (role, self.streams) {
            (ReadRole::Plan | ReadRole::Image, StreamsInUse::Both) => {
                if file == self.input(files)? {
                    return Err(refusal("it is standard input"));
                }
            }
            (ReadRole::Memory, StreamsInUse::Both) => {
                let (input, output) = (self.input(files)?, self.output(files)?);
                let errors = known(
                    files.standard_error(),
                    "standard error is unknown without /proc",
                )?;
                if file == input || file == output || file == errors {
                    return Err(refusal("it is a standard stream"));
                }
            }
            _ => {}
        }
        Ok(())
    }

    // Returns which file standard input is, if it is in use.
    fn input<F: Files>(&self, files: &F) -> io::Result<Option<Identity>> {
        match self.streams {
            StreamsInUse::Both => known(
                files.standard_input(),
                "standard input is unknown without /proc",
            ),
            StreamsInUse::Output | StreamsInUse::Neither => Ok(None),
        }
    }

    // Returns which file standard output is, if it is in use.
    fn output<F: Files>(&self, files: &F) -> io::Result<Option<Identity>> {
        match self.streams {
            StreamsInUse::Both | StreamsInUse::Output => {
                known(
                    files.standard_output(),
                    "standard output is unknown without /proc",
                )
            }
            StreamsInUse::Neither => Ok(None),
        }
    }

    /// Opens a file for writing, or creates it. It is in use then, if a command opens others after it. An existing file
    /// is unchanged: `cut_off` truncates it once all files of the command are open. At an error it prints a line and
    /// returns the status 2: also for `-`, and if the file is in use in another role, under any name, or may be, or is
    /// a standard stream that is in use. The contract leaves out the streams. A memory's file has to be the one that
    /// was read, and no other process may have locked it.
    pub fn open_write<A, F: Files, C, E: Write>(
        &mut self,
        name: &str,
        role: WriteRole,
        console: &mut Console<'_, A, F, C, E>,
    ) -> Result<Opened<F::Made>, u8>
        ensures makes { IfOk result (F.makes console.old.files.now name.now) }
        ensures file { IfOk result (λ opened. MayWriteFile role opened.identity self.old) }
        ensures used { IfOk result (λ opened. self.new ≡ console_files_written role opened.identity self.old) }
        ensures same { OnErr result (self.new ≡ self.old) }
        ensures name { OnOk result (name.now ≢ codes "-") }
        ensures status { IfErr result (λ status. status ≡ 2) }
    {
        match self.find_write(name, role, console.files) {
            Ok(opened) => {
                self.note_written(role, opened.identity);
                Ok(opened)
            }
            Err(why) => Err(cannot_open(console.errors, name, &why)),
        }
    }

    // Notes a file that was opened for writing.
    fn note_written(&mut self, role: WriteRole, identity: Identity)
        ensures { self.new ≡ console_files_written role identity self.old }
    {
        let file = Some(identity);
        match role {
            WriteRole::Report => self.report = file,
            WriteRole::Trace => self.trace = file,
            WriteRole::Dump => self.image = file,
            WriteRole::Accesses | WriteRole::Calls | WriteRole::Memory => {}
        }
    }

    /// Opens such a file if one is named.
    pub fn open_named<A, F: Files, C, E: Write>(
        &mut self,
        name: &Option<String>,
        role: WriteRole,
        console: &mut Console<'_, A, F, C, E>,
    ) -> Result<Option<Watched<F::Made>>, u8>
        ensures ok { IfOk result (λ opened. is_some opened ≡ is_some name.now) }
        ensures used { IfOk result (λ opened. MatchOption opened (self.new ≡ self.old) (λ file.
            IfSome name.now (λ name. WritesConsoleFile (F.makes console.old.files.now (string_bytes name)) role
            file.stream self.old self.new))) }
        ensures same { OnErr result (self.new ≡ self.old) }
        ensures named { IfErr result (λ status. is_some name.now ≡ true) }
        ensures status { IfErr result (λ status. status ≡ 2) }
    {
        let Some(name) = name else {
            return Ok(None);
        };
        match self.open_write(name.as_str(), role, console) {
            Ok(opened) => Ok(Some(Watched::new(opened.file))),
            Err(status) => Err(status),
        }
    }

    // Opens a file for writing, unless it is in use.
    fn find_write<F: Files>(
        &self,
        name: &str,
        role: WriteRole,
        files: &F,
    ) -> io::Result<Opened<F::Made>>
        ensures makes { IfOk result (F.makes files.now name.now) }
        ensures file { IfOk result (λ opened. MayWriteFile role opened.identity self.now) }
        ensures name { OnOk result (name.now ≢ codes "-") }
    {
        named_file(name)?;
        let (input, output) = (self.input(files)?, self.output(files)?);
        let opened = open_as(name, role, files)?;
        self.refuse_write(role, opened.identity)?;
        refuse_written_stream(role, opened.identity, input, output)?;
        files.lock(name, &opened.file)?;
        Ok(opened)
    }

    // Refuses a file that is in use, if it can't be written in this role then.
    fn refuse_write(&self, role: WriteRole, identity: Identity) -> io::Result<()>
        ensures { OnOk result (MayWriteFile role identity self.now) }
    {
        let file = Some(identity);
        let why = match role {
            WriteRole::Report | WriteRole::Trace | WriteRole::Accesses => {
                if file == self.script {
                    "it is the script"
                } else if file == self.plan {
                    "it is the plan"
                } else if file == self.memory {
                    "it is the memory"
                } else if file == self.report || file == self.trace {
                    "it is another output"
                } else {
                    return Ok(());
                }
            }
            WriteRole::Calls if file == self.image => "it is the image",
            WriteRole::Calls | WriteRole::Dump if file == self.memory => "it is the memory",
            WriteRole::Calls | WriteRole::Dump if file == self.plan => "it is the plan",
            WriteRole::Memory if file != self.memory => "it is another file now",
            WriteRole::Calls | WriteRole::Dump | WriteRole::Memory => return Ok(()),
        };
        Err(refusal(why))
    }
}

// Opens a file for writing in this role, or creates it.
fn open_as<F: Files>(name: &str, role: WriteRole, files: &F) -> io::Result<Opened<F::Made>>
    ensures { IfOk result (F.makes files.now name.now) }
{
    match role {
        WriteRole::Dump | WriteRole::Memory => files.open_to_replace(name),
        _ => files.open_to_write(name),
    }
}

/// Gives up a file that was opened for writing, if it is named: one that was created for that is removed, and any other
/// is unchanged.
pub fn give_up_named<A, F: Files, C, E>(
    name: &Option<String>,
    file: Option<Watched<F::Made>>,
    console: &Console<'_, A, F, C, E>,
) {
    if let Some(name) = name
        && let Some(Watched { mut stream, .. }) = file
    {
        console.files.give_up(name.as_str(), &mut stream);
    }
}

/// Truncates a file that was opened for writing under this name. At an error it prints a line and returns the status 2.
pub fn cut_off<A, F: Files, C, E: Write>(
    name: &str,
    file: &F::Made,
    console: &mut Console<'_, A, F, C, E>,
) -> Result<(), u8>
    ensures status { IfErr result (λ status. status ≡ 2) }
{
    match console.files.cut_off(file) {
        Ok(()) => Ok(()),
        Err(why) => Err(cannot_open(console.errors, name, &why)),
    }
}

/// Truncates such a file if it is named.
pub fn cut_off_named<A, F: Files, C, E: Write>(
    name: &Option<String>,
    file: &Option<Watched<F::Made>>,
    console: &mut Console<'_, A, F, C, E>,
) -> Result<(), u8>
    ensures named { IfErr result (λ status. is_some name.now ≡ true) }
    ensures status { IfErr result (λ status. status ≡ 2) }
{
    match (name, file) {
        (Some(name), Some(file)) => cut_off(name.as_str(), &file.stream, console),
        _ => Ok(()),
    }
}

// Refuses a file that is standard input or standard output, where they are in use.
fn refuse_written_stream(
    role: WriteRole,
    identity: Identity,
    input: Option<Identity>,
    output: Option<Identity>,
) -> io::Result<()> {
    let (is_input, is_output) = (input == Some(identity), output == Some(identity));
    match role {
        WriteRole::Report | WriteRole::Trace | WriteRole::Accesses if is_input => {
            Err(refusal("it is standard input"))
        }
        WriteRole::Report | WriteRole::Trace | WriteRole::Accesses if is_output => {
            Err(refusal("it is another output"))
        }
        WriteRole::Calls | WriteRole::Dump if is_input || is_output => {
            Err(refusal("it is the target's"))
        }
        _ => Ok(()),
    }
}
