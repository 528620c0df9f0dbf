//! The identification of a core.
ghost use Rattle.std.specs.Prelude.{◌≡◌};
ghost use Rattle.swd_core.specs.Identities.{core_identity_of};

use std::fmt;
use std::fmt::{Display, Formatter};

/// CPUID by its fields (DDI 0403, B3.2.3, "CPUID base register").
#[derive(Clone, Copy, Debug, PartialEq, Eq)]
pub struct Identity {
    /// The code of the implementer, 8 bits: 0x41 is Arm.
    pub implementer: u32,
    /// The part number, 12 bits.
    pub part: u32,
    /// The variant, N of rNpM, 4 bits.
    pub variant: u32,
    /// The revision, M of rNpM, 4 bits.
    pub revision: u32,
}

/// Returns the fields of a word of CPUID.
pub fn identity_of(cpuid: u32) -> Identity
    ensures { result ≡ core_identity_of cpuid }
{
    Identity {
        implementer: cpuid / 0x100_0000,
        part: cpuid / 0x10 % 0x1000,
        variant: cpuid / 0x10_0000 % 0x10,
        revision: cpuid % 0x10,
    }
}

// The implementer that is Arm.
const ARM: u32 = 0x41;

impl Identity {
    // Returns the name of a core of Arm, if its part number is known.
    fn name(&self) -> Option<&'static str> {
        if self.implementer != ARM {
            return None;
        }
        match self.part {
            0xc20 => Some("Cortex-M0"),
            0xc21 => Some("Cortex-M1"),
            0xc23 => Some("Cortex-M3"),
            0xc24 => Some("Cortex-M4"),
            0xc27 => Some("Cortex-M7"),
            0xc60 => Some("Cortex-M0+"),
            0xd20 => Some("Cortex-M23"),
            0xd21 => Some("Cortex-M33"),
            0xd22 => Some("Cortex-M55"),
            0xd23 => Some("Cortex-M85"),
            0xd24 => Some("Cortex-M52"),
            0xd31 => Some("Cortex-M35P"),
            _ => None,
        }
    }
}

/// Writes the name and the revision, such as `Cortex-M4 r0p1`, or the codes of a core whose name isn't known.
impl Display for Identity {
    fn fmt<W: fmt::Write>(&self, f: &mut Formatter<W>) -> fmt::Result {
        match self.name() {
            Some(name) => write!(f, "{name} r{}p{}", self.variant, self.revision),
            None => write!(
                f,
                "part {:03x} of implementer {:02x}, r{}p{}",
                self.part, self.implementer, self.variant, self.revision
            ),
        }
    }
}
