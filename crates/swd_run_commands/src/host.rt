//! The protocol by which a host moves the pins of a simulated target.
ghost use Rattle.swd_run_commands.specs.Targets.{ServesHost};

use std::alloc::Allocator;
use std::io::{Read, Write};
use swd_bitbang::{Pins, Served};
use swd_ends::{LiveFiles, serve_logged};
use swd_packets::SimulatedProbe;
use swd_run::KeepsLog;

/// A session that was served.
pub(crate) struct Hosted<D, M, A: Allocator> {
    pub(crate) served: Served,
    /// Whether the input ended within a packet.
    pub(crate) is_cut_off: bool,
    pub(crate) pins: Pins<D, A>,
    pub(crate) files: LiveFiles<M>,
}

/// Serves a host by the characters of remote_bitbang, or by packets of this size, and writes the log and the trace
/// meanwhile, as [`serve_logged`] does.
pub(crate) fn serve_host<R: Read, W: Write, D: KeepsLog, M: Write, A: Allocator>(
    packet_size: Option<u32>,
    reader: &mut R,
    writer: &mut W,
    pins: Pins<D, A>,
    log: Option<M>,
    trace: Option<M>,
) -> Hosted<D, M, A>
    ensures { ServesHost D.Device.bus packet_size result.served result.is_cut_off (R.remaining reader.old)
        (R.remaining reader.new) (W.contents writer.old) (W.contents writer.new) pins result.pins }
{
    let Some(size) = packet_size else {
        let (served, pins, files) = serve_logged(reader, writer, pins, log, trace);
        return Hosted {
            served,
            is_cut_off: false,
            pins,
            files,
        };
    };
    let probe = SimulatedProbe::new(pins, size as usize);
    let (served, probe, files) = serve_logged(reader, writer, probe, log, trace);
    Hosted {
        served,
        is_cut_off: probe.is_cut_off(),
        pins: probe.into_pins(),
        files,
    }
}
