//! A summary of what held bits begin with.

ghost use Rattle.std.specs.Prelude.{◌≡◌};
ghost use Rattle.swd_resync.specs.Parts.{resync_is_sound};

use swd_bits::{Tx, TxBits, TxEnd};

/// What is at the front of held bits, whatever bits may follow.
#[derive(Clone, Copy)]
pub(crate) enum Sight {
    /// More bits are needed to decide it.
    Wait,
    /// No bit, and no bits follow.
    End,
    /// A zero.
    Zero,
    /// Fifty ones.
    Ones,
    /// A transaction, and its number of bits.
    Tx(Tx, u8),
    /// A one that begins neither a transaction nor fifty ones.
    Junk,
    /// The beginning of a transaction or of fifty ones, and no bits follow.
    Cut(TxBits),
}

// Returns whether the result is WAIT, FAULT, or OK with a word of right parity.
fn is_sound_end(tx: &Tx) -> bool
    ensures { result ≡ resync_is_sound tx.now.result }
{
    match tx.result {
        TxEnd::Moved { parity_ok, .. } => parity_ok,
        TxEnd::Wait | TxEnd::Fault => true,
        TxEnd::NoAck(_) => false,
    }
}

impl Sight {
    ghost use Rattle.swd_resync.specs.Seen.{sight_sound_bits, sight_junk_bit, sight_fifty_ones, sight_end_or_reset};
    ghost use Rattle.swd_resync.specs.Seen.{sight_sound_item};

    /// Returns the number of bits of the sound transaction at the front: 0 if there is no such transaction,
    /// `None` if more bits are needed.
    pub(crate) fn sound_bits(&self) -> Option<u8>
        ensures { result ≡ sight_sound_bits self.now }
    {
        match self {
            Sight::Wait => None,
            Sight::Tx(tx, len) => Some(if is_sound_end(tx) { *len } else { 0 }),
            _ => Some(0),
        }
    }

    /// Returns whether a junk bit is at the front. Returns `None` if more bits are needed.
    pub(crate) fn is_junk(&self) -> Option<bool>
        ensures { result ≡ sight_junk_bit self.now }
    {
        match self {
            Sight::Wait => None,
            Sight::Junk => Some(true),
            _ => Some(false),
        }
    }

    /// Returns whether neither a junk bit nor a transaction that isn't sound is at the front. Returns `None` if more
    /// bits are needed.
    pub(crate) fn is_sound(&self) -> Option<bool>
        ensures { result ≡ sight_sound_item self.now }
    {
        match self {
            Sight::Wait => None,
            Sight::Tx(tx, _) => Some(is_sound_end(tx)),
            Sight::Junk => Some(false),
            _ => Some(true),
        }
    }

    /// Returns whether fifty ones are at the front. Returns `None` if more bits are needed.
    pub(crate) fn is_reset(&self) -> Option<bool>
        ensures { result ≡ sight_fifty_ones self.now }
    {
        match self {
            Sight::Wait => None,
            Sight::Ones => Some(true),
            _ => Some(false),
        }
    }

    /// Returns whether no bit or fifty ones are at the front. Returns `None` if more bits are needed.
    pub(crate) fn is_end_or_reset(&self) -> Option<bool>
        ensures { result ≡ sight_end_or_reset self.now }
    {
        match self {
            Sight::Wait => None,
            Sight::End | Sight::Ones => Some(true),
            _ => Some(false),
        }
    }
}
