//! Does a job over a remote_bitbang connection, from its beginning to its end.
ghost use Rattle.std.specs.Prelude.{◌≡◌, ℕ, List, []};
ghost use Rattle.swd_port.specs.declared.call.Call.{Call};
ghost use Rattle.swd_port.specs.Outside.{wire_calls};
ghost use Rattle.swd_port.specs.Port.{Port};
ghost use Rattle.swd_remote.specs.WholeRuns.{GoesOver, GoesOverWatched};

use crate::call_sink::{CallSink, WatchedTransport};
use crate::kept::{InitialStreams, RemoteStreams, RemoteTransport};
use crate::line::Line;
use std::io::{Read, Write};
use std::marker::Brand;
use swd_port::{Story, Tied, Transport, TransportWire};

/// What is done over a wire, such as a load of an image.
pub trait LineJob {
    /// The result.
    type Answer;

    /// What the job before, the job after and the answer state of the calls that were made of the wire, the last one
    /// first, for each story.
    ghost came: { (ℕ → Port) → Self → Self → Self.Answer → List Call → Type 0 };

    /// Does the job over a wire without calls, and returns the wire.
    fn perform<T: Transport, S: Story>(
        &mut self,
        wire: TransportWire<T, S, Tied>,
    ) -> (Self::Answer, TransportWire<T, S, Tied>)
        requires { wire_calls wire ≡ [] }
        ensures { came S.at self.old self.new result.0 (wire_calls result.1) };
}

/// Does a job at the target behind a remote_bitbang server, and then sends `Q`. Returns the connection too, with the
/// error that ended it, if any.
///
/// Whatever comes back, the job ends as it does over any wire, unless the connection blocks. What it states holds for
/// every story with which the replies are consistent. If the target conforms to the model, one of these stories is its
/// own. Up to the first I/O error, exactly `O`, the characters of the job's calls and `Q` are sent, and exactly the
/// levels that these calls ask for are read. Nothing is sent after that error.
pub fn over_line<P: Story, J: LineJob, R: Read, W: Write>(
    job: &mut J,
    line: Line<R, W>,
) -> (J::Answer, RemoteStreams<R, W>)
    ensures { (calls : List Call) × J.came P.at job.old job.new result.0 calls
        × ∥ GoesOver line.way R.remaining W.contents (W.contents line.writer) (R.remaining line.reader)
        result.1 calls ∥₁ }
{
    let (answer, streams, ()) = over_watched_line::<P, J, R, W, ()>(job, line, ());
    (answer, streams)
}

/// Does a job as [`over_line`] does. A sink gets the calls that the job's calls make of the connection, up to the first
/// one that fails, each as soon as its result is there.
pub fn over_watched_line<P: Story, J: LineJob, R: Read, W: Write, K: CallSink>(
    job: &mut J,
    line: Line<R, W>,
    sink: K,
) -> (J::Answer, RemoteStreams<R, W>, K)
    requires { K.got [] sink }
    ensures { (calls : List Call) × J.came P.at job.old job.new result.0 calls
        × ∥ GoesOverWatched K.got line.way R.remaining W.contents (W.contents line.writer) (R.remaining line.reader)
        result.1 calls result.2 ∥₁ }
{
    over_begun::<P, Brand, J, R, W, K>(job, line, sink)
}

// Does a job over a connection whose beginning contracts know.
fn over_begun<P: Story, B: InitialStreams, J: LineJob, R: Read, W: Write, K: CallSink>(
    job: &mut J,
    line: Line<R, W>,
    sink: K,
) -> (J::Answer, RemoteStreams<R, W>, K)
    requires way { B.way ≡ line.way }
    requires sent { B.sent ≡ W.contents line.writer }
    requires left { B.left ≡ R.remaining line.reader }
    requires got { K.got [] sink }
    ensures { (calls : List Call) × J.came P.at job.old job.new result.0 calls
        × ∥ GoesOverWatched K.got B.way R.remaining W.contents B.sent B.left result.1 calls result.2 ∥₁ }
{
    let transport = WatchedTransport {
        transport: RemoteTransport::<R, W, B>::new(line),
        sink,
    };
    let wire: TransportWire<WatchedTransport<RemoteTransport<R, W, B>, K>, P, Tied> =
        TransportWire::begun(transport);
    let (answer, wire) = job.perform(wire);
    let WatchedTransport { transport, sink } = wire.into_transport();
    (answer, transport.hang_up(), sink)
}
