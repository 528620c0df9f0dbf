//! A line to a target, and what goes over it: remote_bitbang characters, or the packets of a debug probe.
ghost use Rattle.std.specs.Prelude.{◌≡◌, [], List, ℕ, Option};
ghost use Rattle.swd_port.specs.Transports.{PortAttempt};
ghost use Rattle.swd_remote.specs.declared.line.Way.TheVariants.{Characters};
ghost use Rattle.swd_remote.specs.Kept.{AreLineCallsSent, AreRemoteCallsSent, LineHangsUp, LinePerforms, RemoteHangsUp};
ghost use Rattle.swd_remote.specs.Probes.{AreProbeCallsMade, ProbeHangsUp, probe_fault};

use crate::kept::RemoteStreams;
use crate::opening::Opening;
use crate::probe_transport::ProbeTransport;
use crate::remote::{Fault, Remote};
use std::io::{Read, Write};
use swd_dap::{DapFault, DapTransport, Reports};
use swd_port::{Coming, Cue, Disconnected, Pieces, Transport};

/// What goes over a line.
#[derive(Clone, Copy, Debug, PartialEq, Eq)]
pub enum Way {
    /// OpenOCD's remote_bitbang characters for serial wire.
    Characters,
    /// The packets of CMSIS-DAP.
    Packets {
        /// The frequency of SWCLK that the probe is asked for, in hertz.
        speed: u32,
        /// Whether each packet has its length before it, in place of being a report of one size.
        framed: bool,
    },
}

/// The two directions of a connection to a target, before its use.
#[derive(Debug, Drop)]
pub struct Line<R, W> {
    /// Where the replies are read.
    pub reader: R,
    /// Where the requests are written.
    pub writer: W,
    /// What goes over it.
    pub way: Way,
}

impl<R, W> Line<R, W> {
    /// Returns a line of remote_bitbang characters.
    pub fn characters(reader: R, writer: W) -> Line<R, W>
        ensures reader { result.reader ≡ reader }
        ensures writer { result.writer ≡ writer }
        ensures way { result.way ≡ Characters }
    {
        Line {
            reader,
            writer,
            way: Way::Characters,
        }
    }
}

/// A transport over a line: to a server of remote_bitbang, or to a debug probe.
#[derive(Drop)]
pub enum LineTransport<R: Read, W: Write> {
    Server(ProbeTransport<Remote<R, W>>),
    Probe(DapTransport<Reports<R, W>>),
}

impl<R: Read, W: Write> LineTransport<R, W> {
    /// Returns a transport over which nothing was sent yet.
    pub(crate) fn new(line: Line<R, W>) -> LineTransport<R, W>
        ensures { AreLineCallsSent line.way R.remaining W.contents (W.contents line.writer) (R.remaining line.reader) []
            result }
    {
        let Line {
            reader,
            writer,
            way,
        } = line;
        match way {
            Way::Characters => LineTransport::Server(begun(reader, writer)),
            Way::Packets { speed, framed } => {
                LineTransport::Probe(begun_probe(reader, writer, speed, framed))
            }
        }
    }

    /// Performs a cue.
    #[inline(always)]
    pub(crate) fn perform(&mut self, cue: Cue) -> Result<u64, Disconnected>
        ensures { LinePerforms R.remaining W.contents cue result self.old self.new }
    {
        match self {
            LineTransport::Server(transport) => transport.step(cue),
            LineTransport::Probe(transport) => transport.call(cue),
        }
    }

    /// Returns how much of a burst one exchange holds, if it is of use to tell which transactions come next.
    pub(crate) fn looks_ahead(&self) -> Option<Pieces> {
        match self {
            LineTransport::Server(_) => None,
            LineTransport::Probe(transport) => transport.looks_ahead(),
        }
    }

    /// Tells which transactions come next. It is no call.
    pub(crate) fn announce(&mut self, coming: &[Coming])
        ensures { (way : Way) (sent left : Option (List ℕ)) (calls : List PortAttempt)
            → AreLineCallsSent way R.remaining W.contents sent left calls self.old
            → AreLineCallsSent way R.remaining W.contents sent left calls self.new }
    {
        match self {
            LineTransport::Server(_) => {}
            LineTransport::Probe(transport) => transport.foresee(coming),
        }
    }

    /// Ends the connection, unless an error came before, and returns its streams.
    pub(crate) fn hang_up(self, opening: Opening) -> RemoteStreams<R, W>
        ensures hangs { (way : Way) (sent left : Option (List ℕ)) (calls : List PortAttempt)
            → AreLineCallsSent way R.remaining W.contents sent left calls self
            → LineHangsUp way R.remaining W.contents sent left calls result }
        ensures opening { result.opening ≡ opening }
    {
        match self {
            LineTransport::Server(transport) => end_server(transport, opening),
            LineTransport::Probe(transport) => end_probe(transport, opening),
        }
    }
}

// Returns a transport of characters over which nothing was sent yet.
fn begun<R: Read, W: Write>(reader: R, writer: W) -> ProbeTransport<Remote<R, W>>
    ensures { AreRemoteCallsSent R.remaining W.contents (W.contents writer) (R.remaining reader) [] result }
{
    ProbeTransport::new(Remote::new(reader, writer))
}

// Returns a transport of packets over which nothing was sent yet.
fn begun_probe<R: Read, W: Write>(
    reader: R,
    writer: W,
    speed: u32,
    framed: bool,
) -> DapTransport<Reports<R, W>>
    ensures { AreProbeCallsMade speed [] result }
{
    DapTransport::new(Reports::new(reader, writer, framed), speed)
}

// Sends what is queued and `Q`, unless an error came before.
fn end_server<R: Read, W: Write>(
    transport: ProbeTransport<Remote<R, W>>,
    opening: Opening,
) -> RemoteStreams<R, W>
    ensures hangs { (sent left : Option (List ℕ)) (calls : List PortAttempt)
        → AreRemoteCallsSent R.remaining W.contents sent left calls transport
        → RemoteHangsUp R.remaining W.contents sent left calls result }
    ensures opening { result.opening ≡ opening }
{
    let mut remote = transport.into_probe();
    let _ = remote.quit();
    let fault = remote.fault();
    let (reader, writer) = remote.into_parts();
    RemoteStreams {
        reader,
        writer,
        fault,
        opening,
        in_doubt: 0,
    }
}

// Sends what disconnects the probe from its target, unless an error came before.
fn end_probe<R: Read, W: Write>(
    transport: DapTransport<Reports<R, W>>,
    opening: Opening,
) -> RemoteStreams<R, W>
    ensures hangs { (speed : ℕ) (calls : List PortAttempt) → AreProbeCallsMade speed calls transport
        → ProbeHangsUp speed calls result }
    ensures opening { result.opening ≡ opening }
{
    let in_doubt = transport.in_doubt();
    let (packets, fault) = transport.hang_up();
    let (reader, writer) = packets.into_parts();
    RemoteStreams {
        reader,
        writer,
        fault: fault_of(fault),
        opening,
        in_doubt,
    }
}

// Returns the error of a line whose probe ended so.
fn fault_of(fault: Option<DapFault>) -> Option<Fault>
    ensures { result ≡ probe_fault fault }
{
    match fault {
        Some(fault) => Some(Fault::Probe(fault)),
        None => None,
    }
}
