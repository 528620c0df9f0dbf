//! A core by its debug registers. What it answers is that of DDI 0403, "Debug register support", for a core that
//! executes nothing.
use super::expect::{expect_at, expect_eq_at};
use std::process::Abort;
use std::test::Fail;
use swd_devices::{Core, CoreTarget};
use swd_port::Access;
use swd_target::{Memory, Peripheral};

// The first word of the memory, where the vector table is.
const TABLE: u32 = 0x2000_0000;

// The accesses in their order, each read with its word. Between them lie the writes.
const SESSION: &[(Access, Option<u32>)] = &[
    // It runs without the Thumb bit: S_REGRDY and S_LOCKUP. DCRSR has no effect.
    (Access::Read(Core::CPUID), Some(0x410f_c241)),
    (Access::Read(Core::DHCSR), Some(0x0009_0000)),
    (Access::Write(Core::DCRDR, 7), None),
    (Access::Write(Core::DCRSR, 15), None),
    (Access::Read(Core::DCRDR), Some(7)),
    // Without the key DHCSR isn't written. With it C_HALT halts the core: S_HALT, and HALTED in DFSR.
    (Access::Write(Core::DHCSR, 0x0000_0003), None),
    (Access::Read(Core::DHCSR), Some(0x0009_0000)),
    (Access::Write(Core::DHCSR, 0xa05f_0003), None),
    (Access::Read(Core::DHCSR), Some(0x0003_0003)),
    (Access::Read(Core::DFSR), Some(1)),
    (Access::Write(Core::DFSR, 1), None),
    (Access::Read(Core::DFSR), Some(0)),
    // The PC is moved to DCRDR once S_REGRDY is set.
    (Access::Write(Core::DCRSR, 15), None),
    (Access::Read(Core::DCRDR), Some(0)),
    (Access::Read(Core::DHCSR), Some(0x0002_0003)),
    (Access::Read(Core::DHCSR), Some(0x0003_0003)),
    (Access::Read(Core::DCRDR), Some(0)),
    // A reset that VC_CORERESET catches: S_RESET_ST until it is read, VCATCH in DFSR, PC and MSP of the vector table.
    (Access::Write(TABLE, 0x2000_0043), None),
    (Access::Write(TABLE + 4, 0x2000_0021), None),
    (Access::Write(Core::DEMCR, 1), None),
    (Access::Write(Core::AIRCR, 0x05fa_0004), None),
    (Access::Read(Core::DHCSR), Some(0x0203_0003)),
    (Access::Read(Core::DHCSR), Some(0x0003_0003)),
    (Access::Read(Core::DFSR), Some(8)),
    (Access::Write(Core::DCRSR, 13), None),
    (Access::Read(Core::DHCSR), Some(0x0002_0003)),
    (Access::Read(Core::DCRDR), Some(0x2000_0040)),
    // A step advances the PC by 2: S_RETIRE_ST until it is read.
    (Access::Write(Core::DHCSR, 0xa05f_0005), None),
    (Access::Read(Core::DHCSR), Some(0x0103_0007)),
    (Access::Write(Core::DCRSR, 15), None),
    (Access::Read(Core::DHCSR), Some(0x0002_0007)),
    (Access::Read(Core::DCRDR), Some(0x2000_0022)),
    // With CONTROL.SPSEL SP is PSP, which is 0 after a reset.
    (Access::Write(Core::DCRDR, 0x0200_0000), None),
    (Access::Write(Core::DCRSR, 0x0001_0014), None),
    (Access::Read(Core::DHCSR), Some(0x0002_0007)),
    (Access::Write(Core::DCRSR, 13), None),
    (Access::Read(Core::DHCSR), Some(0x0002_0007)),
    (Access::Read(Core::DCRDR), Some(0)),
    // It runs, with its Thumb bit. Without C_DEBUGEN all control bits are 0.
    (Access::Write(Core::DHCSR, 0xa05f_0001), None),
    (Access::Read(Core::DHCSR), Some(0x0001_0001)),
    (Access::Write(Core::DHCSR, 0xa05f_0000), None),
    (Access::Read(Core::DHCSR), Some(0x0001_0000)),
    // A reset isn't caught then. Nothing else is there, and the memory has its own addresses.
    (Access::Write(Core::AIRCR, 0x05fa_0004), None),
    (Access::Read(Core::DHCSR), Some(0x0201_0000)),
    (Access::Read(0xe000_2000), Some(0)),
    (Access::Read(TABLE), Some(0x2000_0043)),
];

#[test]
fn a_core_halts_resets_steps_and_moves_registers(rt: HostRuntime) -> Result<(), Fail> {
    let memory = Memory::new(rt.alloc(), TABLE, 16, 16)?;
    let mut target = CoreTarget::new(memory, Core::new(1), TABLE);
    for (place, row) in SESSION.iter().enumerate() {
        match row.0 {
            Access::Read(addr) => expect_eq_at(&rt, &place, &target.read(addr), &row.1),
            Access::Write(addr, word) => expect_at(&rt, &place, target.write(addr, word)),
        }
    }
    Ok(())
}
