//! A transport over a line whose contract has its calls, so that contracts can speak of a whole run.
ghost use Rattle.std.specs.Prelude.{◌≡◌, ℕ, List, [], Option, None};
ghost use Rattle.swd_remote.specs.declared.line.Way.{Way};
ghost use Rattle.swd_remote.specs.declared.line.Way.TheVariants.{Characters};
ghost use Rattle.swd_port.specs.Transports.{PortAttempt};

use crate::call_sink::CallSink;
use crate::line::{Line, LineTransport};
use crate::opening::Opening;
use crate::remote::Fault;
use std::io::{Read, Write};
use std::marker::{Brand, PhantomData};
use swd_port::{Coming, Cue, Disconnected, Pieces, Transport};

/// What goes over a line, and what its writer holds and its reader has at the beginning of a connection. It is for
/// contracts alone: a caller passes [`Brand`], and its proof gives the values.
pub trait InitialStreams {
    ghost way: { Way };

    ghost sent: { Option (List ℕ) };

    ghost left: { Option (List ℕ) };
}

impl InitialStreams for Brand {
    ghost way = { Characters };

    ghost sent = { None };

    ghost left = { None };
}

/// A transport over a line whose contract has its calls. Over remote_bitbang characters, up to the first error exactly
/// `O` and their characters were sent since the beginning, and exactly their levels were read.
#[derive(Drop)]
pub struct RemoteTransport<R: Read, W: Write, B: InitialStreams> {
    pub(crate) transport: LineTransport<R, W>,
    opening: Opening,
    beginning: PhantomData<B>,
}

/// A connection after its use.
#[derive(Drop)]
pub struct RemoteStreams<R, W> {
    pub reader: R,
    pub writer: W,
    /// The error that ended the connection, if any.
    pub fault: Option<Fault>,
    /// How far the session came in opening its target.
    pub opening: Opening,
    /// How many accesses at most the probe may have made by a packet that has no usable reply, behind those that the
    /// report's `begun` counts. 0 over characters.
    pub in_doubt: usize,
}

impl<R, W> RemoteStreams<R, W> {
    /// Returns a connection that wasn't used.
    pub fn unused(reader: R, writer: W) -> RemoteStreams<R, W>
        ensures reader { result.reader ≡ reader }
        ensures writer { result.writer ≡ writer }
        ensures fault { result.fault ≡ None }
        ensures in_doubt { result.in_doubt ≡ 0 }
    {
        RemoteStreams {
            reader,
            writer,
            fault: None,
            opening: Opening::new(),
            in_doubt: 0,
        }
    }
}

impl<R: Read, W: Write, B: InitialStreams> RemoteTransport<R, W, B> {
    ghost use Rattle.swd_remote.specs.Kept.{LineEnded, LineKept};

    /// Returns a transport over which nothing was sent yet.
    pub fn new(line: Line<R, W>) -> RemoteTransport<R, W, B>
        requires way { B.way ≡ line.way }
        requires sent { B.sent ≡ W.contents line.writer }
        requires left { B.left ≡ R.remaining line.reader }
        ensures { LineKept B.way R.remaining W.contents B.sent B.left [] result }
    {
        RemoteTransport {
            transport: LineTransport::new(line),
            opening: Opening::new(),
            beginning: PhantomData,
        }
    }

    /// Ends the connection, unless an error came before, and returns it. Over characters it sends what is queued, and
    /// `Q`.
    pub fn hang_up(self) -> RemoteStreams<R, W>
        ensures { (calls : List PortAttempt) → LineKept B.way R.remaining W.contents B.sent B.left calls self
            → LineEnded B.way R.remaining W.contents B.sent B.left calls result }
    {
        let RemoteTransport {
            transport,
            opening,
            ..
        } = self;
        transport.hang_up(opening)
    }
}

impl<R: Read, W: Write, B: InitialStreams> Transport for RemoteTransport<R, W, B> {
    ghost use Rattle.swd_remote.specs.Kept.{LineKept};

    ghost tells = { λ calls kept. LineKept B.way R.remaining W.contents B.sent B.left calls kept };

    fn step(&mut self, cue: Cue) -> Result<u64, Disconnected> {
        let told = self.transport.perform(cue);
        self.opening.take(cue, told);
        told
    }

    fn looks_ahead(&self) -> Option<Pieces> {
        self.transport.looks_ahead()
    }

    fn announce(&mut self, coming: &[Coming]) {
        self.transport.announce(coming);
    }
}
