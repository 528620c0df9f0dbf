//! A probe: packets of a host, and their replies.
ghost use Rattle.std.specs.Prelude.{◌≡◌, ◌≤◌, true, false, [], length, min, max, slice_index, take};
ghost use Rattle.swd_dap_probe.specs.Shapes.{IsDapTaken, IsDapRefused};
ghost use Rattle.swd_dap_probe.specs.Packets.{dap_refusal};

use crate::line::ProbeLine;
use crate::packet;
use crate::reply::{Reply, put};
use crate::settings::Settings;
use crate::shape::packet_shape;
use crate::size::PacketSize;

/// A probe: what a host's commands set, and the line.
#[derive(Drop)]
pub struct Processor<L> {
    pub(crate) line: L,
    pub(crate) size: PacketSize,
    pub(crate) settings: Settings,
    // Where a word that is read is compared with one that is wanted.
    pub(crate) mask: u32,
    // The level of nRESET.
    pub(crate) reset: bool,
}

impl<L: ProbeLine> Processor<L> {
    ghost use Rattle.swd_dap_probe.specs.Packets.{DapTakes, IsDapReplyTo, processor_line, processor_size};
    ghost use Rattle.swd_dap_probe.specs.Packets.{IsDapBegun};

    /// Returns a probe over this line, for packets of at most so many bytes. A size below 64 is 64, one above
    /// [`LONGEST`] is that.
    pub fn new(line: L, size: usize) -> Processor<L>
        ensures { IsDapBegun line (min (max size 64) 512) result }
    {
        Processor {
            line,
            size: PacketSize::of(size),
            settings: Settings::first(),
            mask: 0,
            reset: true,
        }
    }

    /// Performs one packet, and returns the length of its reply, which is 0 where the protocol has none:
    /// `DAP_TransferAbort`. The request may be padded.
    ///
    /// A packet that is malformed, or whose reply might be longer than the size, makes no clock. It is answered with
    /// the command and ff.
    pub fn take(&mut self, request: &[u8], reply: &mut [u8; 512]) -> usize
        ensures size { (result ≤ processor_size self.old) × (result ≤ 512) }
        ensures takes { DapTakes L.clocks L.resets request.now (take result reply.new) self.old self.new }
        ensures answers { IsDapReplyTo (slice_index request.now 0) (take result reply.new) }
    {
        let mut out = Reply::new();
        self.answer(request, &mut out);
        reply[..out.len()].copy_from_slice(out.as_slice());
        out.len()
    }

    // Performs a packet or refuses it.
    fn answer(&mut self, request: &[u8], reply: &mut Reply)
        requires { reply.old.items ≡ [] }
        ensures takes { DapTakes L.clocks L.resets request.now reply.new.items self.old self.new }
        ensures short { length reply.new.items ≤ self.old.size.bytes }
    {
        if self.accepts(request) {
            packet::perform(self, request, reply);
        } else {
            refuse(request, reply);
        }
    }

    // Returns whether a packet is whole, and its reply as short as the size.
    fn accepts(&self, request: &[u8]) -> bool
        ensures taken { result ≡ true → IsDapTaken self.now.size.bytes request.now }
        ensures refused { result ≡ false → IsDapRefused self.now.size.bytes request.now }
    {
        let shape = packet_shape(request);
        shape.request <= request.len() && shape.reply <= self.size.bytes
    }

    /// Returns the line.
    pub fn line(&self) -> &L
        ensures { result.now ≡ processor_line self.now }
    {
        &self.line
    }

    /// Consumes the probe, and returns its line.
    pub fn into_line(self) -> L
        ensures { result ≡ processor_line self }
    {
        let Processor { line, .. } = self;
        line
    }
}

// Answers a packet that isn't performed.
fn refuse(request: &[u8], reply: &mut Reply)
    requires { reply.old.items ≡ [] }
    ensures refusal { reply.new.items ≡ dap_refusal request.now }
    ensures short { length reply.new.items ≤ 2 }
{
    if let Some(command) = request.first() {
        put(reply, &[*command]);
    }
    put(reply, &[0xff]);
}
