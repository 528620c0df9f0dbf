//! How long a packet is.
ghost use Rattle.std.specs.Prelude.{◌≡◌, ◌≤◌, min, max};

/// The most bytes of a packet.
pub const LONGEST: usize = 512;

// The least bytes of a packet that a probe may have.
const LEAST: usize = 64;

/// How many bytes a packet has at most.
#[derive(Clone, Copy)]
pub(crate) struct PacketSize {
    pub(crate) bytes: usize,
    ghost sized: { (64 ≤ bytes) × (bytes ≤ 512) },
}

impl PacketSize {
    /// Returns this size, or the nearest that there is.
    pub(crate) fn of(bytes: usize) -> PacketSize
        ensures { result.bytes ≡ min (max bytes 64) 512 }
    {
        PacketSize {
            bytes: bytes.max(LEAST).min(LONGEST),
        }
    }
}
