//! Worlds as structs of integers: the parts of a checker that callers store themselves, such as programs in C.
ghost use Rattle.std.specs.Prelude.{◌≡◌, ◌≤◌, length, map};
ghost use Rattle.swd_checker.specs.Fields.{checked_reset_number, checked_power_number, checked_transfer_number};
ghost use Rattle.swd_checker.specs.Fields.{checked_tar_fields, checked_held_fields, checked_world_fields};
ghost use Rattle.swd_checker.specs.Fields.{checked_world_unused, checked_worlds_fields};
ghost use Rattle.swd_checker.specs.FieldsRead.{checked_reset_from, checked_power_from, checked_transfer_from};
ghost use Rattle.swd_checker.specs.FieldsRead.{checked_tar_from, checked_near_from, checked_held_from};
ghost use Rattle.swd_checker.specs.FieldsRead.{checked_world_from};

use crate::held::Held;
use crate::near::Near;
use crate::tar::Tar;
use crate::world::{Power, Transfer, World};
use crate::worlds::{Kept, MOST_WORLDS};
use arrayvec::ArrayVec;
use swd_port::Reset;

/// What is known of a word that the target holds, as integers.
#[repr(C)]
#[derive(Clone, Copy, Debug, PartialEq, Eq)]
pub struct HeldFields {
    pub places: u64,
    pub word: u32,
    pub kind: u8,
}

/// What is known of TAR, as integers.
#[repr(C)]
#[derive(Clone, Copy, Debug, PartialEq, Eq)]
pub struct IntervalFields {
    pub first: u32,
    pub more: u8,
    pub known: u8,
}

/// A world of a checker, as integers.
#[repr(C)]
#[derive(Clone, Copy, Debug, PartialEq, Eq)]
pub struct WorldFields {
    pub faults: u64,
    pub buffer: HeldFields,
    pub last_returned: HeldFields,
    pub tar: IntervalFields,
    pub reset: u8,
    pub sticky_error: u8,
    pub write_error: u8,
    pub read_ok: u8,
    pub debug: u8,
    pub system: u8,
    pub mem_ap: u8,
    pub bank0: u8,
    pub increments: u8,
    pub pending: u8,
    pub awaits: u8,
}

fn number_of_reset(reset: Reset) -> u8
    ensures { result ≡ checked_reset_number reset }
{
    match reset {
        Reset::Unreset => 1,
        Reset::Fresh => 2,
        Reset::Live => 3,
    }
}

// Here and below, invalid numbers may give any result: `CheckerFields::checker` rejects a checker whose own fields
// differ.
fn reset_with(number: u8) -> Reset
    ensures { result ≡ checked_reset_from number }
{
    match number {
        1 => Reset::Unreset,
        2 => Reset::Fresh,
        _ => Reset::Live,
    }
}

fn number_of_power(power: Power) -> u8
    ensures { result ≡ checked_power_number power }
{
    match power {
        Power::Off => 1,
        Power::Unseen => 2,
        Power::Late => 3,
        Power::Seen => 4,
    }
}

fn power_with(number: u8) -> Power
    ensures { result ≡ checked_power_from number }
{
    match number {
        1 => Power::Off,
        2 => Power::Unseen,
        3 => Power::Late,
        _ => Power::Seen,
    }
}

fn number_of_transfer(transfer: Option<Transfer>) -> u8
    ensures { result ≡ checked_transfer_number transfer }
{
    match transfer {
        None => 0,
        Some(Transfer::Read) => 1,
        Some(Transfer::Write) => 2,
    }
}

fn transfer_with(number: u8) -> Option<Transfer>
    ensures { result ≡ checked_transfer_from number }
{
    match number {
        1 => Some(Transfer::Read),
        2 => Some(Transfer::Write),
        _ => None,
    }
}

impl HeldFields {
    const NONE: HeldFields = HeldFields {
        places: 0,
        word: 0,
        kind: 0,
    };

    pub(crate) fn of(held: Held) -> HeldFields
        ensures { result ≡ checked_held_fields held }
    {
        let (kind, places, word) = match held {
            Held::Unknown => (1, 0, 0),
            Held::Word => (2, 0, 0),
            Held::Csw(false) => (3, 0, 0),
            Held::Csw(true) => (4, 0, 0),
            Held::Seen(near) => (5, near.places, near.word),
        };
        HeldFields { places, word, kind }
    }

    fn held(self) -> Held
        ensures { result ≡ checked_held_from self }
    {
        match self.kind {
            2 => Held::Word,
            3 => Held::Csw(false),
            4 => Held::Csw(true),
            5 => Held::Seen(self.near()),
            _ => Held::Unknown,
        }
    }

    /// Returns the words of a word that was seen.
    pub(crate) fn near(self) -> Near
        ensures { result ≡ checked_near_from self }
    {
        Near {
            word: self.word,
            places: self.places,
        }
    }
}

impl IntervalFields {
    const NONE: IntervalFields = IntervalFields {
        first: 0,
        more: 0,
        known: 0,
    };

    fn of(tar: Tar) -> IntervalFields
        ensures { result ≡ checked_tar_fields tar }
    {
        match tar {
            Tar::Unknown => IntervalFields::NONE,
            Tar::From { first, more } => IntervalFields {
                first,
                more,
                known: 1,
            },
        }
    }

    fn tar(self) -> Tar
        ensures { result ≡ checked_tar_from self }
    {
        if self.known == 1 {
            Tar::From {
                first: self.first,
                more: self.more,
            }
        } else {
            Tar::Unknown
        }
    }
}

impl WorldFields {
    // Returns an unused world.
    fn unused() -> WorldFields
        ensures { result ≡ checked_world_unused }
    {
        WorldFields {
            faults: 0,
            buffer: HeldFields::NONE,
            last_returned: HeldFields::NONE,
            tar: IntervalFields::NONE,
            reset: 0,
            sticky_error: 0,
            write_error: 0,
            read_ok: 0,
            debug: 0,
            system: 0,
            mem_ap: 0,
            bank0: 0,
            increments: 0,
            pending: 0,
            awaits: 0,
        }
    }

    fn of(kept: Kept) -> WorldFields
        ensures { result ≡ checked_world_fields kept }
    {
        let world = kept.world;
        WorldFields {
            faults: kept.faults,
            buffer: HeldFields::of(world.buffer),
            last_returned: HeldFields::of(world.last_returned),
            tar: IntervalFields::of(world.tar),
            reset: number_of_reset(world.reset),
            sticky_error: u8::from(world.sticky_error),
            write_error: u8::from(world.write_error),
            read_ok: u8::from(world.read_ok),
            debug: number_of_power(world.debug),
            system: number_of_power(world.system),
            mem_ap: u8::from(world.mem_ap),
            bank0: u8::from(world.bank0),
            increments: u8::from(world.increments),
            pending: number_of_transfer(world.pending),
            awaits: u8::from(world.awaits),
        }
    }

    fn kept(self) -> Kept
        ensures { result ≡ checked_world_from self }
    {
        Kept {
            world: World {
                reset: reset_with(self.reset),
                sticky_error: self.sticky_error == 1,
                write_error: self.write_error == 1,
                read_ok: self.read_ok == 1,
                debug: power_with(self.debug),
                system: power_with(self.system),
                mem_ap: self.mem_ap == 1,
                bank0: self.bank0 == 1,
                increments: self.increments == 1,
                pending: transfer_with(self.pending),
                awaits: self.awaits == 1,
                tar: self.tar.tar(),
                buffer: self.buffer.held(),
                last_returned: self.last_returned.held(),
            },
            faults: self.faults,
        }
    }
}

/// Returns these worlds as integers, with unused ones behind them.
pub(crate) fn fields_of_worlds(kept: &[Kept]) -> [WorldFields; MOST_WORLDS]
    requires { length kept.now ≤ MOST_WORLDS }
    ensures { result ≡ checked_worlds_fields kept.now }
{
    let mut worlds = [WorldFields::unused(); MOST_WORLDS];
    for place in 0..kept.len() {
        worlds[place] = WorldFields::of(kept[place]);
    }
    worlds
}

/// Returns the worlds with these integers.
pub(crate) fn worlds_with(fields: &[WorldFields]) -> ArrayVec<Kept, MOST_WORLDS>
    requires { length fields.now ≤ MOST_WORLDS }
    ensures { result.items ≡ map checked_world_from fields.now }
{
    let mut kept = ArrayVec::new();
    for world in fields {
        kept.push(world.kept());
    }
    kept
}
