//! A target as a struct of integers, for callers that store it themselves, such as programs in C.
ghost use Rattle.std.specs.Prelude.{◌≡◌, ◌==◌};
ghost use Rattle.swd_target.specs.Fields.{target_content_fields, target_pending_fields, target_powers_number};
ghost use Rattle.swd_target.specs.Fields.{target_reset_number, restored_target_content, restored_target_pending};
ghost use Rattle.swd_target.specs.Fields.{restored_target_powers, restored_target_reset, restored_target};
ghost use Rattle.swd_target.specs.Fields.{target_fields};

use crate::content::Content;
use crate::quirks::Quirks;
use crate::target::Target;
use swd_port::{Drw, PowerUp, Reset, Select};

/// The state of a target without its device and its IDR, as integers laid out as in C. [`Target::fields`] returns it,
/// and [`target`](TargetFields::target) restores a target without an IDR. No target has all zeros.
///
/// The meaning of the fields is private to this crate.
#[repr(C)]
#[derive(Clone, Copy, Debug, PartialEq, Eq)]
pub struct TargetFields {
    pub tar: ContentFields,
    pub buffer: ContentFields,
    pub last_returned: ContentFields,
    pub pending: PendingFields,
    pub filler: u32,
    pub wrap: u8,
    pub late: u8,
    pub reset: u8,
    pub sticky_error: u8,
    pub write_error: u8,
    pub read_ok: u8,
    pub debug_power: u8,
    pub system_power: u8,
    pub power_up: u8,
    pub apsel: u8,
    pub apbanksel: u8,
    pub dpbanksel: u8,
    pub increments: u8,
    pub csw_upper: u8,
}

/// The content of a register, as integers.
#[repr(C)]
#[derive(Clone, Copy, Debug, PartialEq, Eq)]
pub struct ContentFields {
    pub word: u32,
    pub known: u8,
}

/// The pending transfer, as integers. `kind` 0 is no transfer, 1 a read, 2 a write of `word`, which otherwise is 0.
#[repr(C)]
#[derive(Clone, Copy, Debug, PartialEq, Eq)]
pub struct PendingFields {
    pub word: u32,
    pub kind: u8,
}

impl ContentFields {
    fn of(content: Content) -> ContentFields
        ensures { result ≡ target_content_fields content }
    {
        ContentFields {
            word: content.word,
            known: u8::from(content.known),
        }
    }

    fn content(self) -> Content
        ensures { target_content_fields result ≡ restored_target_content self }
    {
        Content {
            word: self.word,
            known: self.known == 1,
        }
    }
}

impl PendingFields {
    fn of(pending: Option<Drw>) -> PendingFields
        ensures { result ≡ target_pending_fields pending }
    {
        match pending {
            None => PendingFields { word: 0, kind: 0 },
            Some(Drw::Reads) => PendingFields { word: 0, kind: 1 },
            Some(Drw::Writes(word)) => PendingFields { word, kind: 2 },
        }
    }

    fn pending(self) -> Option<Drw>
        ensures { target_pending_fields result ≡ restored_target_pending self }
    {
        match self.kind {
            1 => Some(Drw::Reads),
            2 => Some(Drw::Writes(self.word)),
            _ => None,
        }
    }
}

fn number_of_reset(reset: Reset) -> u8
    ensures { result ≡ target_reset_number reset }
{
    match reset {
        Reset::Unreset => 1,
        Reset::Fresh => 2,
        Reset::Live => 3,
    }
}

fn reset_with(number: u8) -> Reset
    ensures { target_reset_number result ≡ restored_target_reset number }
{
    match number {
        1 => Reset::Unreset,
        2 => Reset::Fresh,
        _ => Reset::Live,
    }
}

// Returns the number of the states of debug power and of system power.
fn number_of_powers(debug_up: PowerUp, system_up: PowerUp) -> u8
    ensures { result ≡ target_powers_number debug_up system_up }
{
    match (debug_up, system_up) {
        (PowerUp::Unseen, PowerUp::Unseen) => 1,
        (PowerUp::Late, PowerUp::Late) => 2,
        (PowerUp::Seen, PowerUp::Seen) => 3,
        (PowerUp::Seen, PowerUp::Unseen) => 4,
        (PowerUp::Seen, PowerUp::Late) => 5,
        (PowerUp::Unseen, PowerUp::Late) => 6,
        (PowerUp::Unseen, PowerUp::Seen) => 7,
        (PowerUp::Late, PowerUp::Unseen) => 8,
        (PowerUp::Late, PowerUp::Seen) => 9,
    }
}

fn powers_with(number: u8) -> (PowerUp, PowerUp)
    ensures { target_powers_number result.0 result.1 ≡ restored_target_powers number }
{
    match number {
        1 => (PowerUp::Unseen, PowerUp::Unseen),
        2 => (PowerUp::Late, PowerUp::Late),
        4 => (PowerUp::Seen, PowerUp::Unseen),
        5 => (PowerUp::Seen, PowerUp::Late),
        6 => (PowerUp::Unseen, PowerUp::Late),
        7 => (PowerUp::Unseen, PowerUp::Seen),
        8 => (PowerUp::Late, PowerUp::Unseen),
        9 => (PowerUp::Late, PowerUp::Seen),
        _ => (PowerUp::Seen, PowerUp::Seen),
    }
}

impl TargetFields {
    /// Creates a target with these fields and this device. An invalid number is read as a valid one: compare the fields
    /// of the result to reject it.
    pub fn target<D>(&self, device: D) -> Target<D>
        ensures numbers { target_fields result ≡ restored_target self.now }
        ensures device { result.device ≡ device }
        ensures unidentified { result.quirks.idr ≡ None }
    {
        let (debug_up, system_up) = powers_with(self.power_up);
        Target {
            quirks: self.quirks(),
            reset: reset_with(self.reset),
            sticky_error: self.sticky_error == 1,
            write_error: self.write_error == 1,
            read_ok: self.read_ok == 1,
            debug_power: self.debug_power == 1,
            system_power: self.system_power == 1,
            debug_up,
            system_up,
            select: Select {
                apsel: self.apsel,
                apbanksel: self.apbanksel,
                dpbanksel: self.dpbanksel,
            },
            increments: self.increments == 1,
            csw_upper: self.csw_upper,
            tar: self.tar.content(),
            buffer: self.buffer.content(),
            last_returned: self.last_returned.content(),
            pending: self.pending.pending(),
            device,
        }
    }

    fn quirks(&self) -> Quirks
        ensures { result ≡ record {
          wrap = self.now.wrap == 1;
          late = self.now.late == 1;
          filler = self.now.filler;
          idr = None;
        } }
    {
        Quirks {
            wrap: self.wrap == 1,
            late: self.late == 1,
            filler: self.filler,
            idr: None,
        }
    }
}

impl<D> Target<D> {
    /// Returns the fields of the target, without its device and its IDR.
    pub fn fields(&self) -> TargetFields
        ensures { result ≡ target_fields self.now }
    {
        TargetFields {
            tar: ContentFields::of(self.tar),
            buffer: ContentFields::of(self.buffer),
            last_returned: ContentFields::of(self.last_returned),
            pending: PendingFields::of(self.pending),
            filler: self.quirks.filler,
            wrap: u8::from(self.quirks.wrap),
            late: u8::from(self.quirks.late),
            reset: number_of_reset(self.reset),
            sticky_error: u8::from(self.sticky_error),
            write_error: u8::from(self.write_error),
            read_ok: u8::from(self.read_ok),
            debug_power: u8::from(self.debug_power),
            system_power: u8::from(self.system_power),
            power_up: number_of_powers(self.debug_up, self.system_up),
            apsel: self.select.apsel,
            apbanksel: self.select.apbanksel,
            dpbanksel: self.select.dpbanksel,
            increments: u8::from(self.increments),
            csw_upper: self.csw_upper,
        }
    }
}
