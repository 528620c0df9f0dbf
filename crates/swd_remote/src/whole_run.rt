//! A run over a remote_bitbang connection, with everything that was sent and read.
ghost use Rattle.std.specs.Prelude.{◌≡◌};
ghost use Rattle.swd_remote.specs.WholeRuns.{RanOver};

use crate::kept::{InitialStreams, RemoteStreams, RemoteTransport};
use crate::line::Line;
use std::alloc::Allocator;
use std::io::{Read, Write};
use std::marker::Brand;
use swd_host::{Refused, Report, run};
use swd_port::{Access, Story, Tied, TransportWire};

/// Performs the accesses in order over a remote_bitbang connection, and then sends `Q`.
///
/// Whatever is received, the run ends within a bounded number of requests, unless a read or write blocks, and its
/// report matches the calls that were made. If the target conforms to the port model and was at rest, the report is
/// correct, as that of `swd_host::run`. What was received can refute that it conforms, and never show it.
///
/// Up to the first error, exactly `O`, by which the host drives SWDIO, the characters of the calls that the report is
/// of, and `Q` are written. Up to that error, exactly as many bytes are read as levels were asked for.
///
/// # Errors
///
/// Returns `TooMany`, `Unaligned` and `Memory` as `swd_host::run` does. No call is made in these cases: only `O` and
/// `Q` are sent.
pub fn run_over_line<S: Story, R: Read, W: Write, A: Allocator>(
    alloc: A,
    line: Line<R, W>,
    accesses: &[Access],
    tries: u32,
) -> (Result<Report<A>, Refused>, RemoteStreams<R, W>)
    ensures { ∥ RanOver line.way S.at accesses.now tries R.remaining W.contents (W.contents line.writer)
        (R.remaining line.reader) result.0 result.1 ∥₁ }
{
    run_begun::<S, Brand, R, W, A>(alloc, line, accesses, tries)
}

fn run_begun<S: Story, B: InitialStreams, R: Read, W: Write, A: Allocator>(
    alloc: A,
    line: Line<R, W>,
    accesses: &[Access],
    tries: u32,
) -> (Result<Report<A>, Refused>, RemoteStreams<R, W>)
    requires way { B.way ≡ line.way }
    requires sent { B.sent ≡ W.contents line.writer }
    requires left { B.left ≡ R.remaining line.reader }
    ensures { ∥ RanOver B.way S.at accesses.now tries R.remaining W.contents B.sent B.left result.0 result.1 ∥₁ }
{
    let mut wire: TransportWire<RemoteTransport<R, W, B>, S, Tied> = TransportWire::begun(
        RemoteTransport::new(line),
    );
    let ran = run(alloc, &mut wire, accesses, tries);
    (ran, wire.into_transport().hang_up())
}
