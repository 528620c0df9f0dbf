//! What is known of the word that DPIDR returns.
ghost use Rattle.std.specs.Prelude.{ℕ, ◌≡◌, Bool, true, None, IfSome};
ghost use Rattle.swd_port.specs.Registers.{register_bit};
ghost use Rattle.swd_port.specs.Port.{Port};
ghost use Rattle.swd_checker.specs.Checked.{CheckedTransacts};
ghost use Rattle.swd_checker.specs.Described.{IsCheckedNear};
ghost use Rattle.swd_checker.specs.Words.{IsSomeNear};
ghost use Rattle.swd_bits.specs.Transactions.{IsTx};
ghost use Rattle.swd_checker.specs.Standing.{IsIdentified, IsSeenIn, checked_reads_dpidr};
ghost use Rattle.swd_checker.specs.Reaching.{IdentificationNarrows};
ghost use Rattle.swd_checker.specs.Identifying.{IsMovedIn, IsReadIn, NearIdentifies, IsNearOdd, IdentificationLeaves};

use crate::near::{Near, Words};
use swd_bits::{Reg4, Request, Tx, TxEnd};

/// What is known of the word that DPIDR returns: it is one and the same at each read, and its bit 0 is 1.
#[derive(Clone, Copy)]
pub(crate) struct Identification {
    /// One of these words; `None` before the first read.
    pub(crate) word: Option<Near>,
}

impl Identification {
    /// Returns that nothing is known of it.
    pub(crate) fn unknown() -> Identification
        ensures may { (n : ℕ) → IsIdentified result n }
        ensures word { result.word ≡ None }
    {
        Identification { word: None }
    }

    /// Returns what the word may be, or `None` before the first read.
    pub(crate) fn word(self) -> Option<Near>
        ensures { result ≡ self.word }
    {
        self.word
    }

    /// Narrows it by a transaction. Returns false if no word is left.
    pub(crate) fn narrow(&mut self, tx: &Tx) -> bool
        ensures narrows { (clean : Bool) (s t : Port) → CheckedTransacts clean tx.now.result tx.now.request s t
            → register_bit 0 s.target.identification ≡ true → IsIdentified self.old s.target.identification
            → (result ≡ true) × IsIdentified self.new s.target.identification }
        ensures exact { result ≡ true → IsTx tx.now → IdentificationNarrows tx.now self.old self.new }
    {
        match seen_in(tx) {
            Some(seen) => self.narrow_by(seen),
            None => true,
        }
    }

    // Narrows it by a read that may have returned these words.
    fn narrow_by(&mut self, seen: Near) -> bool
        ensures narrows { (n : ℕ) → register_bit 0 n ≡ true → IsCheckedNear seen n → IsIdentified self.old n
            → (result ≡ true) × IsIdentified self.new n }
        ensures leaves { result ≡ true → IdentificationLeaves seen self.old self.new }
    {
        match self.narrowed(seen) {
            Some(word) => {
                self.word = Some(word);
                true
            }
            None => false,
        }
    }

    // Returns what is left once a read may have returned these words, or `None` if nothing is.
    fn narrowed(self, seen: Near) -> Option<Near>
        ensures all { (n : ℕ) → register_bit 0 n ≡ true → IsCheckedNear seen n → IsIdentified self n
            → IsSomeNear result n }
        ensures exact { IfSome result (λ near. NearIdentifies seen self near) }
        ensures odd { IfSome result (λ near. IsNearOdd near) }
    {
        match seen.among(Words::Odd) {
            Some(odd) => self.narrowed_to(odd),
            None => None,
        }
    }

    // Returns those of the words that it may be.
    fn narrowed_to(self, words: Near) -> Option<Near>
        ensures all { (n : ℕ) → IsCheckedNear words n → IsIdentified self n → IsSomeNear result n }
        ensures exact { IfSome result (λ near. NearIdentifies words self near) }
    {
        match self.word {
            Some(before) => words.among(Words::Near(before)),
            None => Some(words),
        }
    }
}

// Returns the words of which one is DPIDR's, if the transaction read it.
fn seen_in(tx: &Tx) -> Option<Near>
    ensures all { (clean : Bool) (s t : Port) → CheckedTransacts clean tx.now.result tx.now.request s t
        → IfSome result (λ near. IsCheckedNear near s.target.identification) }
    ensures exact { IsReadIn tx.now result }
{
    if reads_identification(tx.request) {
        moved_in(tx.result)
    } else {
        None
    }
}

// Returns the words that a data phase may have had.
fn moved_in(end: TxEnd) -> Option<Near>
    ensures all { IsSeenIn end result }
    ensures exact { IsMovedIn end result }
{
    match end {
        TxEnd::Moved { word, parity_ok } => Some(Near::seen(word, parity_ok)),
        _ => None,
    }
}

// Returns whether the request is a read of DPIDR.
fn reads_identification(request: Request) -> bool
    ensures { result ≡ checked_reads_dpidr request.addr request.ap request.read }
{
    match request.addr {
        Reg4::R0 => !request.ap && request.read,
        Reg4::R4 | Reg4::R8 | Reg4::RC => false,
    }
}
