//! How often a register was read and written.
ghost use Rattle.std.specs.Prelude.{◌≡◌};
ghost use Rattle.swd_devices.specs.Accesses.{reads_seen, writes_seen};

/// The number of reads and of writes that reached a register, bus errors too. Each saturates at 2^32 - 1.
#[derive(Clone, Copy, Debug, PartialEq, Eq)]
pub struct Seen {
    /// The number of reads.
    pub reads: u32,
    /// The number of writes.
    pub writes: u32,
}

impl Seen {
    /// No access reached the register.
    pub const NONE: Seen = Seen {
        reads: 0,
        writes: 0,
    };

    // Returns these numbers with one more read.
    pub(crate) fn and_read(self) -> Seen
        ensures { result ≡ reads_seen self }
    {
        Seen {
            reads: self.reads.saturating_add(1),
            ..self
        }
    }

    // Returns these numbers with one more write.
    pub(crate) fn and_write(self) -> Seen
        ensures { result ≡ writes_seen self }
    {
        Seen {
            writes: self.writes.saturating_add(1),
            ..self
        }
    }
}
