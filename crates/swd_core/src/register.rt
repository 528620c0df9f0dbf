//! The core registers by their names.
ghost use Rattle.std.specs.Prelude.{◌≡◌, IfSome};

/// A core register, or a part of one, that DCRSR selects (DDI 0403, C1.6.3; DDI 0553, "DCRSR").
#[derive(Clone, Copy, Debug, PartialEq, Eq)]
pub struct CoreRegister {
    pub name: &'static str,
    /// Its number in DCRSR, below 128.
    pub number: u32,
    /// The lowest of its bits in DCRDR.
    pub low: u32,
    /// Whether it is all bits of DCRDR. A part is 8 bits.
    pub is_whole: bool,
}

/// The names of the registers that each core has, in the order in which they are printed.
pub const EACH: &[&str] = &[
    "r0", "r1", "r2", "r3", "r4", "r5", "r6", "r7", "r8", "r9", "r10", "r11", "r12", "sp", "lr",
    "pc", "xpsr", "msp", "psp", "primask", "control",
];

// The registers of Armv6-M, Armv7-M and Armv8-M that are a word, with their numbers.
const WORDS: &[(&str, u32)] = &[
    ("r0", 0),
    ("r1", 1),
    ("r2", 2),
    ("r3", 3),
    ("r4", 4),
    ("r5", 5),
    ("r6", 6),
    ("r7", 7),
    ("r8", 8),
    ("r9", 9),
    ("r10", 10),
    ("r11", 11),
    ("r12", 12),
    ("r13", 13),
    ("r14", 14),
    ("r15", 15),
    ("sp", 13),
    ("lr", 14),
    ("pc", 15),
    ("xpsr", 16),
    ("msp", 17),
    ("psp", 18),
    ("cfbp", 20),
    ("msp_ns", 24),
    ("psp_ns", 25),
    ("msp_s", 26),
    ("psp_s", 27),
    ("msplim_s", 28),
    ("psplim_s", 29),
    ("msplim_ns", 30),
    ("psplim_ns", 31),
    ("fpscr", 33),
    ("cfbp_s", 34),
    ("cfbp_ns", 35),
    ("s0", 64),
    ("s1", 65),
    ("s2", 66),
    ("s3", 67),
    ("s4", 68),
    ("s5", 69),
    ("s6", 70),
    ("s7", 71),
    ("s8", 72),
    ("s9", 73),
    ("s10", 74),
    ("s11", 75),
    ("s12", 76),
    ("s13", 77),
    ("s14", 78),
    ("s15", 79),
    ("s16", 80),
    ("s17", 81),
    ("s18", 82),
    ("s19", 83),
    ("s20", 84),
    ("s21", 85),
    ("s22", 86),
    ("s23", 87),
    ("s24", 88),
    ("s25", 89),
    ("s26", 90),
    ("s27", 91),
    ("s28", 92),
    ("s29", 93),
    ("s30", 94),
    ("s31", 95),
];

// The bytes of CONTROL, FAULTMASK, BASEPRI and PRIMASK, with the number of their word and their lowest bit.
const PARTS: &[(&str, u32, u32)] = &[
    ("primask", 20, 0),
    ("basepri", 20, 8),
    ("faultmask", 20, 16),
    ("control", 20, 24),
    ("primask_s", 34, 0),
    ("basepri_s", 34, 8),
    ("faultmask_s", 34, 16),
    ("control_s", 34, 24),
    ("primask_ns", 35, 0),
    ("basepri_ns", 35, 8),
    ("faultmask_ns", 35, 16),
    ("control_ns", 35, 24),
];

/// Returns the register of this name, in lower case.
pub fn named(name: &str) -> Option<CoreRegister>
    ensures { IfSome result (λ register. register.name.now ≡ name.now) }
{
    for (word, number) in WORDS {
        if *word == name {
            return Some(CoreRegister {
                name: *word,
                number: *number,
                low: 0,
                is_whole: true,
            });
        }
    }
    for (part, number, low) in PARTS {
        if *part == name {
            return Some(CoreRegister {
                name: *part,
                number: *number,
                low: *low,
                is_whole: false,
            });
        }
    }
    None
}

impl CoreRegister {
    /// Returns its bits in a word of DCRDR.
    pub fn in_word(&self, word: u32) -> u32 {
        if self.is_whole {
            word
        } else {
            word.checked_shr(self.low).unwrap_or(0) & 0xff
        }
    }
}
