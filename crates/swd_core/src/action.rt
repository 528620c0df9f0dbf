//! What is done at a core, and the accesses of it.
ghost use Rattle.std.specs.Prelude.{◌≡◌, ◌++◌, IfOk};
ghost use Rattle.swd_core.specs.Actions.{core_action_steps, core_first_steps, core_halting_steps};
ghost use Rattle.swd_core.specs.Actions.{core_reading_steps};
ghost use Rattle.swd_core.specs.Actions.{core_writing_steps};

use crate::register::CoreRegister;
use crate::step::{AIRCR, CPUID, CoreStep, DCRDR, DCRSR, DEMCR, DFSR, DHCSR, MOST_READS};
use std::alloc::{AllocError, Allocator};
use swd_script::Until;

/// What is done at a core. Registers are those of the architecture reference manuals of Armv6-M, Armv7-M and Armv8-M.
#[derive(Debug, Drop)]
pub enum CoreAction {
    /// CPUID is read.
    Id,
    /// The core is halted.
    Halt,
    /// A halted core runs on.
    Resume,
    /// A halted core executes one instruction, with interrupts masked.
    Step,
    /// The system is reset. The core runs then; if it is halted, before its first instruction.
    Reset,
    /// Registers of a halted core are read.
    Regs(Vec<CoreRegister>),
    /// Registers of a halted core are written.
    Set(Vec<CoreWrite>),
}

/// A word to be written to a core register.
#[derive(Clone, Copy, Debug, PartialEq, Eq)]
pub struct CoreWrite {
    pub register: CoreRegister,
    pub word: u32,
}

// DHCSR: the key, and C_DEBUGEN; C_HALT; C_STEP; C_MASKINTS; S_REGRDY; S_HALT; S_RESET_ST.
const ENABLED: u32 = 0xa05f_0001;

const C_DEBUGEN: u32 = 1;

const C_HALT: u32 = 1 << 1;

const C_STEP: u32 = 1 << 2;

const C_MASKINTS: u32 = 1 << 3;

const S_REGRDY: u32 = 1 << 16;

const S_HALT: u32 = 1 << 17;

const S_RESET_ST: u32 = 1 << 25;

// DCRSR: the register is written.
const REGWNR: u32 = 1 << 16;

// DEMCR: a reset halts the core. DFSR: it did. AIRCR: the key, and the request of a system reset.
const VC_CORERESET: u32 = 1;

const VCATCH: u32 = 1 << 3;

const SYSRESETREQ: u32 = 0x05fa_0004;

// Returns the accesses that show that the core is halted, or halt it.
fn halting_steps(halts: bool) -> &'static [CoreStep]
    ensures { result.now ≡ core_halting_steps halts }
{
    if halts { HALT } else { &[IS_HALTED] }
}

// Returns the first accesses of an action.
fn first_steps(action: &CoreAction, halts: bool) -> &'static [CoreStep]
    ensures { result.now ≡ core_first_steps halts action.now }
{
    match action {
        CoreAction::Id => &[CoreStep::Read(CPUID)],
        CoreAction::Halt => HALT,
        CoreAction::Reset => RESET,
        CoreAction::Resume | CoreAction::Step | CoreAction::Regs(_) | CoreAction::Set(_) => {
            halting_steps(halts)
        }
    }
}

// The core is halted already, or is halted in time.
const IS_HALTED: CoreStep = CoreStep::Until(Until {
    addr: DHCSR,
    mask: S_HALT,
    value: S_HALT,
    most: 1,
});

const HALTS: CoreStep = CoreStep::Until(Until {
    addr: DHCSR,
    mask: S_HALT,
    value: S_HALT,
    most: MOST_READS,
});

const HALT: &[CoreStep] = &[CoreStep::Write(DHCSR, ENABLED | C_HALT), HALTS];

// C_MASKINTS may be changed only while C_HALT is set.
const RESUME: &[CoreStep] = &[
    CoreStep::Write(DFSR, 0x1f),
    CoreStep::Write(DHCSR, ENABLED | C_HALT),
    CoreStep::Write(DHCSR, ENABLED),
];

const STEP: &[CoreStep] = &[
    CoreStep::Write(DHCSR, ENABLED | C_HALT | C_MASKINTS),
    CoreStep::Write(DHCSR, ENABLED | C_STEP | C_MASKINTS),
    HALTS,
    CoreStep::Write(DHCSR, ENABLED | C_HALT | C_MASKINTS),
    CoreStep::Write(DHCSR, ENABLED | C_HALT),
];

// The vector catch that halts the core stays in DFSR, while a read of DHCSR clears S_RESET_ST.
const RESET: &[CoreStep] = &[
    CoreStep::Write(DHCSR, ENABLED | C_HALT),
    CoreStep::Until(Until {
        addr: DHCSR,
        mask: C_DEBUGEN,
        value: C_DEBUGEN,
        most: 1,
    }),
    CoreStep::Write(DEMCR, VC_CORERESET),
    CoreStep::Write(DFSR, 0x1f),
    CoreStep::Write(AIRCR, SYSRESETREQ),
    CoreStep::Until(Until {
        addr: DFSR,
        mask: VCATCH,
        value: VCATCH,
        most: MOST_READS,
    }),
    CoreStep::Until(Until {
        addr: DHCSR,
        mask: S_RESET_ST | S_HALT,
        value: S_HALT,
        most: MOST_READS,
    }),
    CoreStep::Write(DEMCR, 0),
];

// The register was moved from or to DCRDR.
const IS_READY: CoreStep = CoreStep::Until(Until {
    addr: DHCSR,
    mask: S_REGRDY,
    value: S_REGRDY,
    most: MOST_READS,
});

// Appends the accesses that read these registers: of each DCRSR is written, and DCRDR is read once it is there.
fn put_reads<A: Allocator>(
    steps: &mut Vec<CoreStep, A>,
    registers: &[CoreRegister],
) -> Result<(), AllocError>
    ensures { IfOk result (λ _. steps.new.items ≡ steps.old.items ++ core_reading_steps registers.now) }
{
    match registers {
        [] => Ok(()),
        [first, rest @ ..] => {
            let select = CoreStep::Write(DCRSR, first.number);
            steps.extend_from_slice(&[select, IS_READY, CoreStep::Read(DCRDR)])?;
            put_reads(steps, rest)
        }
    }
}

// Appends the accesses that write these registers: of each DCRDR is written, and then DCRSR with REGWnR.
fn put_writes<A: Allocator>(
    steps: &mut Vec<CoreStep, A>,
    writes: &[CoreWrite],
) -> Result<(), AllocError>
    ensures { IfOk result (λ _. steps.new.items ≡ steps.old.items ++ core_writing_steps writes.now) }
{
    match writes {
        [] => Ok(()),
        [first, rest @ ..] => {
            let word = CoreStep::Write(DCRDR, first.word);
            let select = CoreStep::Write(DCRSR, REGWNR | first.register.number);
            steps.extend_from_slice(&[word, select, IS_READY])?;
            put_writes(steps, rest)
        }
    }
}

/// Returns the accesses of an action, in order. Nothing else is written. With `halts` the core is halted where the
/// action needs a halted core, and by a reset before its first instruction.
///
/// # Errors
///
/// Fails if out of memory.
pub fn steps_of<A: Allocator>(
    alloc: A,
    action: &CoreAction,
    halts: bool,
) -> Result<Vec<CoreStep, A>, AllocError>
    ensures { IfOk result (λ steps. steps.items ≡ core_action_steps halts action.now) }
{
    let mut steps = Vec::new(alloc);
    steps.extend_from_slice(first_steps(action, halts))?;
    match action {
        CoreAction::Resume => steps.extend_from_slice(RESUME)?,
        CoreAction::Step => steps.extend_from_slice(STEP)?,
        CoreAction::Reset if !halts => steps.push(CoreStep::Write(DHCSR, ENABLED))?,
        CoreAction::Regs(registers) => put_reads(&mut steps, registers.as_slice())?,
        CoreAction::Set(writes) => put_writes(&mut steps, writes.as_slice())?,
        _ => {}
    }
    Ok(steps)
}
