//! Why what is done at a core ended early, by the word of DHCSR that was read last.
ghost use Rattle.std.specs.Prelude.{◌≡◌};
ghost use Rattle.swd_core.specs.Troubles.{core_halting_trouble, core_idle_trouble, core_reset_trouble, core_trouble};

use crate::action::CoreAction;
use std::fmt;
use std::fmt::{Display, Formatter};

/// Why what is done at a core ended early.
#[derive(Clone, Copy, Debug, PartialEq, Eq)]
pub enum Trouble {
    /// Debug can't be enabled: C_DEBUGEN stays 0.
    Locked,
    /// The core is locked up by a fault in its handler of faults.
    LockedUp,
    /// The core waits for an event or an interrupt, and doesn't halt.
    Asleep,
    /// The core runs, and wasn't halted in time.
    Runs,
    /// The core isn't halted, as the action needs.
    NotHalted,
    /// The core is halted, and didn't move a register.
    NotReady,
    /// No reset came of SYSRESETREQ.
    NotReset,
    /// The core stays in reset.
    StaysInReset,
}

// Returns why a core that was asked to halt doesn't.
fn halting_trouble(dhcsr: u32) -> Trouble
    ensures { result ≡ core_halting_trouble dhcsr }
{
    if dhcsr % 2 == 0 {
        Trouble::Locked
    } else if dhcsr / 0x8_0000 % 2 == 1 {
        Trouble::LockedUp
    } else if dhcsr / 0x4_0000 % 2 == 1 {
        Trouble::Asleep
    } else {
        Trouble::Runs
    }
}

// Returns why a halted core doesn't do what it was asked.
fn idle_trouble(dhcsr: u32) -> Trouble
    ensures { result ≡ core_idle_trouble dhcsr }
{
    if dhcsr / 0x2_0000 % 2 == 0 {
        Trouble::NotHalted
    } else {
        Trouble::NotReady
    }
}

// Returns why a core isn't reset, or isn't halted then.
fn reset_trouble(dhcsr: u32) -> Trouble
    ensures { result ≡ core_reset_trouble dhcsr }
{
    if dhcsr % 2 == 0 {
        Trouble::Locked
    } else if dhcsr / 0x200_0000 % 2 == 1 {
        Trouble::StaysInReset
    } else {
        Trouble::NotReset
    }
}

/// Returns why an action ended early whose last read of DHCSR, of an `until`, returned this word. `halts`: the core was
/// to be halted.
pub fn trouble_of(action: &CoreAction, halts: bool, dhcsr: u32) -> Trouble
    ensures { result ≡ core_trouble halts action.now dhcsr }
{
    match action {
        CoreAction::Reset => reset_trouble(dhcsr),
        // C_STEP is set once the step was asked for.
        CoreAction::Step if dhcsr / 4 % 2 == 1 => halting_trouble(dhcsr),
        CoreAction::Id | CoreAction::Halt => halting_trouble(dhcsr),
        _ if halts && dhcsr / 0x2_0000 % 2 == 0 => halting_trouble(dhcsr),
        _ => idle_trouble(dhcsr),
    }
}

/// What is said of a core that can't be debugged.
pub const LOCKED: &str =
    "debug of the core is locked, or no core is there: unlock it as the chip's manual says, which \
mostly erases its flash";

/// Writes the reason, and what to do.
impl Display for Trouble {
    fn fmt<W: fmt::Write>(&self, f: &mut Formatter<W>) -> fmt::Result {
        f.write_str(match self {
            Trouble::Locked => LOCKED,
            Trouble::LockedUp => {
                "the core is locked up by a fault in its fault handler: swd core reset --halt"
            }
            Trouble::Asleep => {
                "the core is asleep, and doesn't halt: wake it, or swd core reset --halt"
            }
            Trouble::Runs => {
                "the core runs, and wasn't halted in time: again, or swd core reset --halt"
            }
            Trouble::NotHalted => "the core isn't halted: swd core halt",
            Trouble::NotReady => "the core didn't move a register: swd core reset --halt",
            Trouble::NotReset => "no reset came of AIRCR.SYSRESETREQ: use the reset line",
            Trouble::StaysInReset => "the core stays in reset: is its reset line held low?",
        })
    }
}
