//! Why an item breaks a rule.
ghost use Rattle.std.specs.Prelude.{◌≡◌, None, IfSome};

use crate::checker::Checker;
use crate::held::Held;
use crate::near::Near;
use crate::origins::{Origin, Origins};
use crate::rule::Rule;
use crate::world::{Power, World};
use swd_bits::{Tx, TxEnd};
use swd_port::{Csw, Reply};

/// The bits of CSW that are fixed where it is read: Size, AddrInc and DeviceEn.
const CSW_FIXED: u32 = 0x77;

/// A bit of CTRL/STAT, and the item since which it has its value.
#[derive(Clone, Copy)]
struct StatusBit {
    bit: u8,
    value: bool,
    since: Option<Origin>,
}

/// What a target that keeps the rules would have done.
#[derive(Clone, Copy, Debug, PartialEq, Eq)]
pub enum Due {
    /// It drives no acknowledgement.
    Silence,
    Okay,
    OkayOrWait,
    Fault,
    /// It returns a word that has these bits of the mask.
    Word { value: u32, mask: u32 },
    /// It returns a word with right parity.
    RightParity,
}

/// The part of the target's state on which that depends, and since which item it is so. `None`: since the beginning, or
/// since a gap.
#[derive(Clone, Copy, Debug, PartialEq, Eq)]
pub enum Cause {
    /// It is so in each state.
    Always,
    /// DPIDR wasn't read since this line reset, or there was none.
    LineReset(Option<Origin>),
    /// STICKYERR is set.
    StickyError(Option<Origin>),
    /// WDATAERR is set.
    WriteError(Option<Origin>),
    /// Neither flag is set, and no transfer is pending.
    NoFlag {
        since: Option<Origin>,
        /// The last access of DRW that was refused, so that no transfer is pending by it.
        refused: Option<Origin>,
    },
    /// Debug power isn't requested, or isn't acknowledged.
    NoPower(Option<Origin>),
    /// The read buffer was filled by a read of CSW or TAR, which was written or moved on before.
    Fetched {
        by: Option<Origin>,
        written: Option<Origin>,
    },
    /// The word was returned before.
    Returned(Option<Origin>),
    /// A bit of CTRL/STAT has this value.
    Status {
        bit: u8,
        value: bool,
        since: Option<Origin>,
    },
}

/// Why the last item breaks a rule, in the world with the fewest damaged or lost requests.
#[derive(Clone, Copy, Debug, PartialEq, Eq)]
pub struct Reason {
    pub rule: Rule,
    pub due: Due,
    pub cause: Cause,
}

impl Checker {
    /// Returns why the last transaction that was watched breaks a rule, if it does.
    #[inline(always)]
    pub fn reason(&self, tx: &Tx, origins: &Origins) -> Option<Reason>
        ensures breaks { IfSome result (λ _. self.now.broken ≡ None → ⊥) }
        ensures goes_on { result ≡ None → self.now.broken ≡ None }
    {
        match self.broken {
            Some((_, rule)) => Some(self.reason_of(rule, tx, origins)),
            None => None,
        }
    }

    // Returns why a transaction breaks this rule.
    #[inline(never)]
    fn reason_of(&self, rule: Rule, tx: &Tx, origins: &Origins) -> Reason {
        let world = match self.likeliest() {
            Some(world) => *world,
            // DPIDR is read before there is a world.
            None => World::made(),
        };
        let (due, cause) = match rule {
            Rule::Silence => (Due::Silence, Cause::LineReset(origins.reset)),
            Rule::Acknowledgement => (due_answer(world, tx), Cause::Always),
            Rule::NeverRefused => (Due::Okay, Cause::Always),
            Rule::Flags | Rule::Power | Rule::FaultFirst => due_flags(world, tx, origins),
            Rule::Posted => (word_held(world.buffer), fetched(world, origins)),
            Rule::Resent => (
                word_held(world.last_returned),
                Cause::Returned(origins.last_returned),
            ),
            Rule::Status => due_status(world, tx, origins),
            Rule::Identification => (word_identified(self.identified()), Cause::Always),
            Rule::Parity => (Due::RightParity, Cause::Always),
        };
        Reason { rule, due, cause }
    }
}

// Returns the answer that is due. A request that can't wait gets no WAIT.
fn due_answer(world: World, tx: &Tx) -> Due {
    match world.due(tx.request) {
        Reply::Silent => Due::Silence,
        Reply::Faults => Due::Fault,
        _ if world.register(tx.request).is_exempt() => Due::Okay,
        Reply::Okay | Reply::Waits => Due::OkayOrWait,
    }
}

// Returns the answer that is due by the flags and the power, and what it depends on.
fn due_flags(world: World, tx: &Tx, origins: &Origins) -> (Due, Cause) {
    let cause = if world.write_error {
        Cause::WriteError(origins.write_error)
    } else if world.sticky_error {
        Cause::StickyError(origins.sticky_error)
    } else if world.is_unpowered(tx.request) {
        Cause::NoPower(origins.debug)
    } else {
        Cause::NoFlag {
            since: later(origins.sticky_error, origins.write_error),
            refused: origins.refused,
        }
    };
    (due_answer(world, tx), cause)
}

// Returns the later of two items.
fn later(first: Option<Origin>, second: Option<Origin>) -> Option<Origin> {
    let Some(a) = first else {
        return second;
    };
    let Some(b) = second else {
        return first;
    };
    if a.place > b.place { first } else { second }
}

// Returns a word that the target holds.
fn word_held(held: Held) -> Due {
    match held {
        Held::Unknown | Held::Word => Due::Word { value: 0, mask: 0 },
        Held::Csw(single) => Due::Word {
            value: csw_word(single),
            mask: CSW_FIXED,
        },
        Held::Seen(near) => word_near(near),
    }
}

// Returns the word that CSW reads, with AddrInc single or off.
fn csw_word(single: bool) -> u32 {
    let csw = Csw {
        size: 2,
        addr_inc: u8::from(single),
        device_en: true,
        tr_in_prog: false,
        upper: 0,
    };
    csw.bits()
}

// Returns the bits in which all of these words agree.
fn word_near(near: Near) -> Due {
    let (mut ones, mut zeros) = (u32::MAX, u32::MAX);
    for place in 0..33 {
        if let Some(word) = near.at(place) {
            ones &= word;
            zeros &= !word;
        }
    }
    Due::Word {
        value: ones,
        mask: ones | zeros,
    }
}

// Returns what DPIDR reads: bit 0 is set, also before its word is known.
fn word_identified(identification: Option<Near>) -> Due {
    match identification {
        Some(near) => word_near(near),
        None => Due::Word { value: 1, mask: 1 },
    }
}

// Returns which read filled the read buffer, and what it read.
fn fetched(world: World, origins: &Origins) -> Cause {
    let written = match world.buffer {
        Held::Csw(_) => origins.increments,
        Held::Unknown | Held::Word | Held::Seen(_) => origins.tar,
    };
    Cause::Fetched {
        by: origins.buffer,
        written,
    }
}

// Returns the bits of CTRL/STAT that a read shows, requests of power first. Left out is a power that may be late,
// STICKYERR while a transfer is pending, and WDATAERR while a write is that may have been given up: no bus error shows.
fn status_bits(world: World, tx: &Tx, origins: &Origins) -> [Option<StatusBit>; 7] {
    [
        row(28, world.debug.is_on(), origins.debug),
        row(30, world.system.is_on(), origins.system),
        if world.write_error || !world.is_writing() || differs(tx, 5, false) {
            row(7, world.write_error, origins.write_error)
        } else {
            None
        },
        if world.pending.is_none() || world.sticky_error {
            row(5, world.sticky_error, origins.sticky_error)
        } else {
            None
        },
        row(6, world.read_ok, origins.read_ok),
        if is_settled(world.debug) {
            row(29, world.debug.is_on(), origins.debug)
        } else {
            None
        },
        if is_settled(world.system) {
            row(31, world.system.is_on(), origins.system)
        } else {
            None
        },
    ]
}

fn row(bit: u8, value: bool, since: Option<Origin>) -> Option<StatusBit> {
    Some(StatusBit { bit, value, since })
}

// Returns whether a power's acknowledgement has one value.
fn is_settled(power: Power) -> bool {
    matches!(&power, Power::Off | Power::Seen)
}

// Returns a word with bit n alone.
fn one(n: u8) -> u32 {
    if n < 32 { 1 << n } else { 0 }
}

// Returns what CTRL/STAT reads, and a bit that differs.
fn due_status(world: World, tx: &Tx, origins: &Origins) -> (Due, Cause) {
    let (mut value, mut mask, mut cause) = (0, 0, Cause::Always);
    for row in status_bits(world, tx, origins) {
        if let Some(
            StatusBit {
                bit,
                value: is_one,
                since,
            },
        ) = row
        {
            mask |= one(bit);
            if is_one {
                value |= one(bit);
            }
            if cause == Cause::Always && differs(tx, bit, is_one) {
                cause = Cause::Status {
                    bit,
                    value: is_one,
                    since,
                };
            }
        }
    }
    (Due::Word { value, mask }, cause)
}

// Returns whether a bit of the word that a read returned has another value.
fn differs(tx: &Tx, bit: u8, value: bool) -> bool {
    match tx.result {
        TxEnd::Moved { word, .. } => (word & one(bit) != 0) != value,
        TxEnd::Wait | TxEnd::Fault | TxEnd::NoAck(_) => false,
    }
}
