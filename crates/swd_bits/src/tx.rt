//! Transactions, and their bits.
ghost use Rattle.std.specs.Prelude.{◌≡◌, ◌^◌, ◌<◌, ◌≤◌, true, Bool, List, ◌++◌, [], IfSome, IfNone};
ghost use Rattle.swd_bits.specs.Bits.{low_bits};
ghost use Rattle.swd_bits.specs.BitLists.{tx_bits_of, IsWellFormedTxBits};
ghost use Rattle.swd_bits.specs.Transactions.{tx_spelling_bits, tx_ending_bits, phase_with, SpellsTx, IsTx, IsTxEnd};
ghost use Rattle.swd_bits.specs.Transactions.{HasMovedDataPhase, tx_ack_bits, tx_tail_bits};
ghost use Rattle.swd_bits.specs.declared.tx.Tx.{Tx};
ghost use Rattle.swd_bits.specs.declared.tx.TxEnd.{TxEnd};

use crate::ack::Ack;
use crate::request::Request;
use crate::tx_bits::TxBits;

/// The number of bits of a transaction that moved a word, including turnarounds.
pub const MOVED_BITS: u8 = 46;

/// The number of bits of a transaction that was answered WAIT or FAULT, including turnarounds.
pub const REFUSED_BITS: u8 = 13;

/// The number of bits of a transaction without an acknowledgement, including the turnaround.
pub const UNACKNOWLEDGED_BITS: u8 = 12;

/// The end of a transaction.
#[derive(Clone, Copy, Debug, PartialEq, Eq)]
pub enum TxEnd {
    /// OK, and a data phase with this word, whose parity bit is right or wrong.
    Moved { word: u32, parity_ok: bool },
    /// WAIT.
    Wait,
    /// FAULT.
    Fault,
    /// Three bits that aren't an acknowledgement, the first in time least significant: 0, 3, 5, 6 or 7. Without a
    /// target the line reads high, which is 7.
    NoAck(u8),
}

/// One transaction: a packet request and what followed it (IHI 0031, B4, "Successful write
/// operation", "Successful read operation", "WAIT response", "FAULT response", "Protocol error
/// sequence").
#[derive(Clone, Copy, Debug, PartialEq, Eq)]
pub struct Tx {
    pub request: Request,
    pub result: TxEnd,
}

impl Tx {
    /// Returns the transaction's 46, 13 or 12 bits in time order. Turnarounds, in which nobody drives the line, are 1.
    pub fn bits(&self) -> TxBits
        requires { IsTx self.now }
        ensures whole { IsWellFormedTxBits result }
        ensures short { result.len ≤ 46 }
        ensures bits { tx_bits_of result ≡ tx_spelling_bits self.now true true }
    {
        let asked = TxBits {
            len: 8,
            bits: u64::from(self.request.bits()),
        };
        let turned = asked.then(TxBits::one(true));
        turned.then(ending_of(self.request.read, self.result))
    }

    /// Returns the transaction that has exactly these bits, with turnarounds of any value, or `None` if there isn't
    /// one.
    #[inline(always)]
    pub fn of(spelled: TxBits) -> Option<Tx>
        requires whole { IsWellFormedTxBits spelled }
        requires short { spelled.len ≤ 49 }
        ensures found { IfSome result (λ tx. SpellsTx tx (tx_bits_of spelled)) }
        ensures only { IfSome result (λ tx. (other : Tx) → SpellsTx other (tx_bits_of spelled) → other ≡ tx) }
        ensures none { IfNone result ((tx : Tx) → SpellsTx tx (tx_bits_of spelled) → ⊥) }
    {
        if spelled.len < UNACKNOWLEDGED_BITS {
            return None;
        }
        let (asked, rest) = spelled.split(8);
        let Some(request) = Request::of(asked as u8) else {
            return None;
        };
        let (_, rest) = rest.split(1);
        let (seen, rest) = rest.split(3);
        match end_of(request.read, seen as u8, rest) {
            Some(result) => Some(Tx { request, result }),
            None => None,
        }
    }
}

// Returns the bits of a data phase: the word, and its parity, inverted unless `parity_ok`.
fn phase_of(word: u32, parity_ok: bool) -> TxBits
    ensures whole { IsWellFormedTxBits result }
    ensures len { result.len ≡ 33 }
    ensures bits { tx_bits_of result ≡ phase_with word parity_ok }
{
    let odd = word.count_ones() % 2 == 1;
    let bits = TxBits {
        len: 32,
        bits: u64::from(word),
    };
    bits.then(TxBits::one(if parity_ok { odd } else { !odd }))
}

#[tactic(auto, unfolding(crate::specs::Bits::low_bits))]
// Returns the bits after the first turnaround.
fn ending_of(read: bool, end: TxEnd) -> TxBits
    requires { IsTxEnd end }
    ensures whole { IsWellFormedTxBits result }
    ensures len { result.len ≤ 37 }
    ensures bits { tx_bits_of result ≡ tx_ending_bits read end true }
{
    match end {
        TxEnd::Moved { word, parity_ok } => {
            let acked = TxBits { len: 3, bits: 1 };
            if read {
                acked
                    .then(phase_of(word, parity_ok))
                    .then(TxBits::one(true))
            } else {
                acked
                    .then(TxBits::one(true))
                    .then(phase_of(word, parity_ok))
            }
        }
        TxEnd::Wait => TxBits { len: 3, bits: 2 }.then(TxBits::one(true)),
        TxEnd::Fault => TxBits { len: 3, bits: 4 }.then(TxBits::one(true)),
        TxEnd::NoAck(seen) => TxBits {
            len: 3,
            bits: u64::from(seen),
        },
    }
}

// Returns the word of a data phase, and whether its parity is right.
#[inline(always)]
fn phase_in(phase: TxBits) -> (u32, bool)
    requires whole { IsWellFormedTxBits phase }
    requires len { phase.len ≡ 33 }
    ensures word { result.0 < 2 ^ 32 }
    ensures bits { tx_bits_of phase ≡ phase_with result.0 result.1 }
{
    let (word, rest) = phase.split(32);
    let (parity, _) = rest.split(1);
    let word = word as u32;
    let odd = word.count_ones() % 2 == 1;
    (word, if parity == 1 { odd } else { !odd })
}

// Reads the data phase of a read or a write.
#[inline(always)]
fn moved_of(read: bool, rest: TxBits) -> TxEnd
    requires whole { IsWellFormedTxBits rest }
    requires len { rest.len ≡ 34 }
    ensures { HasMovedDataPhase read result (tx_bits_of rest) }
{
    // No branch: the branch predictor can't predict whether a transaction is a read or a write.
    let (_, phase) = rest.split(u8::from(!read));
    let (phase, _) = phase.split(33);
    let (word, parity_ok) = phase_in(TxBits {
        len: 33,
        bits: phase,
    });
    TxEnd::Moved { word, parity_ok }
}

// Reads the end of a transaction from the three bits and those after them.
#[inline(always)]
fn end_of(read: bool, seen: u8, rest: TxBits) -> Option<TxEnd>
    requires seen { seen < 8 }
    requires whole { IsWellFormedTxBits rest }
    requires short { rest.len ≤ 63 }
    ensures found { IfSome result (λ end. IsTxEnd end × (tx_ack_bits end ≡ low_bits 3 seen) × (u : Bool)
        × (tx_bits_of rest ≡ tx_tail_bits read end u)) }
    ensures none { IfNone result ((end : TxEnd) (u : Bool) → IsTxEnd end → tx_ack_bits end ≡ low_bits 3 seen
        → tx_bits_of rest ≡ tx_tail_bits read end u → ⊥) }
{
    match Ack::of(seen) {
        None => {
            if rest.len == 0 {
                Some(TxEnd::NoAck(seen))
            } else {
                None
            }
        }
        Some(Ack::Wait) => {
            if rest.len == 1 {
                Some(TxEnd::Wait)
            } else {
                None
            }
        }
        Some(Ack::Fault) => {
            if rest.len == 1 {
                Some(TxEnd::Fault)
            } else {
                None
            }
        }
        Some(Ack::Ok) => {
            if rest.len == 34 {
                Some(moved_of(read, rest))
            } else {
                None
            }
        }
    }
}

/// States that no transaction's bits are a proper prefix of another's, and that no two transactions have the same bits.
/// So a list of bits starts with at most one transaction.
pub fn transactions_are_told_apart()
    ensures front { (a b : Tx) (bits more : List Bool) → SpellsTx a bits → SpellsTx b (bits ++ more) → more ≡ [] }
    ensures one { (a b : Tx) (bits : List Bool) → SpellsTx a bits → SpellsTx b bits → a ≡ b }
{}
