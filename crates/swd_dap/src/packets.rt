//! Packets of CMSIS-DAP: a request there, a reply back.
ghost use Rattle.std.specs.Prelude.{◌≡◌, ◌≤◌, ◌++◌, ◌∷◌, [], Bool, true, List, length, IfOk};
ghost use Rattle.swd_dap.specs.Packets.{DapExchange, dap_exchange};

/// The most bytes of a packet.
pub const LONGEST: usize = 512;

/// The error that ended a connection to a probe.
#[derive(Clone, Copy, Debug, PartialEq, Eq)]
pub enum DapFault {
    /// The other end was closed.
    Ended,
    /// The reader failed.
    Read,
    /// The writer failed, or didn't take a packet as a whole.
    Write,
    /// The reply has fewer bytes than its command needs.
    Short,
    /// The reply is to another command, whose number it has.
    OtherCommand(u8),
    /// The probe doesn't know this command: it answered ff.
    Unknown(u8),
    /// The probe didn't do this command: its status isn't 0.
    Refused(u8),
    /// A number of the reply isn't possible: a count of transfers, their result, or the length of a packet.
    Impossible,
    /// The probe doesn't answer `DAP_Info` as CMSIS-DAP has it.
    NoDap,
    /// The probe has no serial wire.
    NoSerialWire,
    /// The probe's packets have so many bytes: fewer than 64, or more than [`LONGEST`].
    PacketSize(u16),
    /// The host asked for something else than it announced.
    Unplanned,
}

/// A way to a probe: one packet there, one packet back. Nothing is assumed of it.
pub trait Packets {
    /// What a way states about the packets that were exchanged over it, the first one first. Optional.
    ghost exchanged: { List DapExchange → Self → Type 0 } = { λ _ _. Unit {0} };

    /// Whether replies may be padded.
    ghost pads: { Self → Bool } = { λ _. true };

    /// Returns whether replies may be padded. Otherwise a reply has the length that the probe gave it, which tells how
    /// many words it has.
    fn is_padded(&self) -> bool
        ensures { result ≡ pads self.now };

    /// Sends a request of at most [`LONGEST`] bytes and waits for the reply, whose length it returns. A reply may be
    /// padded, and has the length of its padding then, too.
    ///
    /// # Errors
    ///
    /// If the other end can't be reached.
    fn exchange(&mut self, request: &[u8], reply: &mut [u8; 512]) -> Result<usize, DapFault>
        requires { length request.now ≤ 512 }
        ensures bound { IfOk result (λ n. n ≤ 512) }
        ensures told { (met : List DapExchange) → exchanged met self.old
            → exchanged (met ++ dap_exchange request.now result reply.new ∷ []) self.new };
}
