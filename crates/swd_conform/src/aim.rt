//! The address of the next transfer, as far as the calls of a run show it.
ghost use Rattle.std.specs.Prelude.{ℕ, ◌≡◌, ◌<◌, ◌^◌, ◌%◌, ◌==◌, ◌&&◌, ◌∷◌, not, Some, false, true, List};
ghost use Rattle.swd_port.specs.declared.call.Call.{Call as CallType};
ghost use Rattle.swd_port.specs.declared.cue.Cue.TheVariants.{Ask, Give};
ghost use Rattle.swd_recorder.specs.Calls.{IsRecordedCue};
ghost use Rattle.swd_recorder.specs.Items.{recorded_in_hand_by};
ghost use Rattle.swd_conform.specs.declared.aim.Bounds.{Bounds as BoundsType};
ghost use Rattle.swd_conform.specs.Aims.{ConformAims, ConformMayTransfer, IsConformAim, is_conform_refusal};
ghost use Rattle.swd_conform.specs.Aims.{is_conform_address, is_conform_control, is_conform_transfer};
ghost use Rattle.swd_conform.specs.Aims.{ConformUnrefused, is_conform_answer, is_conform_unsettling};

use swd_bits::{Ack, Reg4, Request, word_of};
use swd_port::Cue;
use swd_recorder::InHand;

/// The memory that a run may overwrite, and the address without memory.
#[derive(Clone, Copy)]
pub(crate) struct Bounds {
    /// The address of the first word.
    pub(crate) first: u32,
    /// The address of the last word.
    pub(crate) last: u32,
    /// An address without memory.
    pub(crate) hole: Option<u32>,
}

impl Bounds {
    /// Returns whether a transfer may be asked for: where it can be only at one of the words, all in one kilobyte, or
    /// at the address without memory, or is refused since one there was a bus error.
    pub(crate) fn allows(&self, aim: Aim) -> bool
        ensures { (calls : List CallType) → result ≡ true → IsConformAim self.now aim calls
            → ConformMayTransfer self.now calls }
    {
        match aim {
            Aim::Unpowered | Aim::Hole => true,
            Aim::Unknown => false,
            Aim::Behind { refused, .. } => refused,
            Aim::Words { low, high } => {
                if low % 4 != 0 {
                    return false;
                }
                if low < self.first {
                    return false;
                }
                if self.last < high {
                    return false;
                }
                low / 1024 == high / 1024
            }
        }
    }

    // Returns what is known once TAR was written with this word.
    fn aim_at(&self, word: u32) -> Aim
        ensures { (calls : List CallType) → ConformAims word 0 calls → IsConformAim self.now result calls }
    {
        if let Some(hole) = self.hole
            && hole == word
        {
            return Aim::Hole;
        }
        Aim::Words {
            low: word,
            high: word,
        }
    }
}

/// What is known of the next transfer.
#[derive(Clone, Copy)]
pub(crate) enum Aim {
    /// It is refused, since no power was requested yet.
    Unpowered,
    /// Nothing.
    Unknown,
    /// It is at the address without memory.
    Hole,
    /// It is there or behind it: one there was accepted, or its acknowledgement was lost. `used`: it was accepted, so
    /// it has to be a bus error. `refused`: FAULT was seen since then.
    Behind { used: bool, refused: bool },
    /// It is at a word from `low` to `high`.
    Words { low: u32, high: u32 },
}

impl Aim {
    /// Returns what is known after a call at which this was seen, with this incomplete transaction before it.
    pub(crate) fn after(self, bounds: &Bounds, held: Option<InHand>, cue: Cue, seen: u64) -> Aim
        requires { IsRecordedCue cue }
        ensures { (calls : List CallType) → held ≡ recorded_in_hand_by calls → IsConformAim bounds.now self calls
            → IsConformAim bounds.now result (record { cue = cue; seen = seen } ∷ calls) }
    {
        match cue {
            Cue::Ask(request) => self.after_request(request, seen),
            Cue::Give(bits) => match held {
                Some(held) => self.after_data(bounds, held, bits),
                None => self,
            },
            Cue::Lead { .. } | Cue::Take | Cue::Pass => self,
        }
    }

    /// Returns whether a call shows that a transfer at the address without memory was no bus error.
    pub(crate) fn denies(self, cue: Cue, seen: u64) -> bool
        ensures { (bounds : BoundsType) (calls : List CallType) → result ≡ true → IsConformAim bounds self calls
            → ConformUnrefused bounds (record { cue = cue; seen = seen } ∷ calls) }
    {
        let Aim::Behind { used, .. } = self else {
            return false;
        };
        let Cue::Ask(request) = cue else {
            return false;
        };
        if !used {
            return false;
        }
        if seen != 1 {
            return false;
        }
        is_answer(request)
    }

    // Returns what is known after a request. Where a write of TAR is accepted, its data phase tells.
    fn after_request(self, request: Request, seen: u64) -> Aim
        ensures { (bounds : BoundsType) (calls : List CallType) → IsConformAim bounds self calls
            → IsConformAim bounds result (record { cue = Ask request; seen = seen } ∷ calls) }
    {
        if let Aim::Unpowered = self {
            return self;
        }
        if is_unsettling(request) {
            return Aim::Unknown;
        }
        if is_refusal(seen) {
            return self.after_refusal(request, seen);
        }
        if is_address(request) {
            return Aim::Unknown;
        }
        if is_transfer(request) {
            return self.after_transfer(request, seen);
        }
        self
    }

    // Returns what is known after a request that was refused.
    fn after_refusal(self, request: Request, seen: u64) -> Aim
        requires settled { is_conform_unsettling request ≡ false }
        requires refused { is_conform_refusal seen ≡ true }
        ensures { (bounds : BoundsType) (calls : List CallType) → IsConformAim bounds self calls
            → IsConformAim bounds result (record { cue = Ask request; seen = seen } ∷ calls) }
    {
        let Aim::Behind { used, refused } = self else {
            return self;
        };
        Aim::Behind {
            used,
            refused: refused || seen == 4,
        }
    }

    // Returns what is known after a transfer that was accepted, or whose acknowledgement was lost: TAR increments, or
    // doesn't.
    fn after_transfer(self, request: Request, seen: u64) -> Aim
        requires { is_conform_transfer request ≡ true }
        ensures { (bounds : BoundsType) (calls : List CallType) → IsConformAim bounds self calls
            → IsConformAim bounds result (record { cue = Ask request; seen = seen } ∷ calls) }
    {
        match self {
            Aim::Words { low, high } => match high.checked_add(4) {
                Some(high) => Aim::Words { low, high },
                None => Aim::Unknown,
            },
            Aim::Hole => Aim::Behind {
                used: seen == 1,
                refused: false,
            },
            Aim::Behind { .. } => Aim::Unknown,
            Aim::Unpowered | Aim::Unknown => self,
        }
    }

    // Returns what is known after the data phase of a write.
    fn after_data(self, bounds: &Bounds, held: InHand, bits: u64) -> Aim
        requires { bits < 2 ^ 33 }
        ensures { (seen : ℕ) (calls : List CallType) → Some held ≡ recorded_in_hand_by calls
            → IsConformAim bounds.now self calls
            → IsConformAim bounds.now result (record { cue = Give bits; seen = seen } ∷ calls) }
    {
        if powers(held.request, bits) {
            return Aim::Unknown;
        }
        if let Aim::Unpowered = self {
            return self;
        }
        let Ack::Ok = held.ack else {
            return self;
        };
        if !is_address(held.request) {
            return self;
        }
        match word_of(bits) {
            Some(word) => bounds.aim_at(word),
            None => self,
        }
    }
}

/// Returns whether a request asks for a transfer.
pub(crate) fn is_transfer(request: Request) -> bool
    ensures { result ≡ is_conform_transfer request }
{
    request.ap && matches!(request.addr, Reg4::RC)
}

// Returns whether it is a read of the access port or of RDBUFF.
fn is_answer(request: Request) -> bool
    ensures { result ≡ is_conform_answer request }
{
    request.read && (request.ap || matches!(request.addr, Reg4::RC))
}

// Returns whether it is a write of TAR.
fn is_address(request: Request) -> bool
    ensures { result ≡ is_conform_address request }
{
    request.ap && !request.read && matches!(request.addr, Reg4::R4)
}

// Returns whether it is a write of ABORT or SELECT. After a write of TAR was damaged, one of ABORT lets requests
// through again, and after one of SELECT, TAR may be another register.
fn is_unsettling(request: Request) -> bool
    ensures { result ≡ is_conform_unsettling request }
{
    !request.ap && !request.read && matches!(request.addr, Reg4::R0 | Reg4::R8)
}

// Returns whether these are the bits of WAIT or FAULT.
fn is_refusal(seen: u64) -> bool
    ensures { result ≡ is_conform_refusal seen }
{
    seen == 2 || seen == 4
}

// Returns whether a write with this data phase is one of CTRL/STAT with another word than 0.
fn powers(request: Request, bits: u64) -> bool
    ensures { result ≡ (is_conform_control request && not (bits % 2 ^ 32 == 0)) }
{
    let control = !request.ap && !request.read && matches!(request.addr, Reg4::R4);
    control && bits % (1 << 32) != 0
}
