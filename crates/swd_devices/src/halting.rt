//! A core with halting debug that executes nothing.
ghost use Rattle.std.specs.Prelude.{◌≡◌};
ghost use Rattle.swd_devices.specs.Cores.{core_after_halting, core_after_read, core_after_reset, core_after_transfer};
ghost use Rattle.swd_devices.specs.Cores.{core_after_write, core_asks_reset, core_halting_word};
ghost use Rattle.swd_devices.specs.Cores.{core_is_address, core_locked_up, core_made, core_place, core_stepped};
ghost use Rattle.swd_devices.specs.Cores.{core_word};

/// The debug registers of an Armv7-M core (DDI 0403, "Halting debug" and "Debug register support"), and what a debugger
/// reads and writes through them. The core executes nothing: it only knows whether it runs, and a step advances its PC
/// by 2.
///
/// | Byte address | Register | Read | Write |
/// |---|---|---|---|
/// | e000_ed00 | CPUID | 410f_c241 | no effect |
/// | e000_ed0c | AIRCR | fa05_0000 | with the key 05fa, bit 2 resets the core |
/// | e000_ed30 | DFSR | HALTED and VCATCH | clears each bit that is written 1 |
/// | e000_edf0 | DHCSR | its control bits and its status | with the key a05f: halts, steps, or lets the core run |
/// | e000_edf4 | DCRSR | 0 | where the core is halted: moves a core register from or to DCRDR |
/// | e000_edf8 | DCRDR | its word; 0 while a register is moved | its word |
/// | e000_edfc | DEMCR | the last word | its word; bit 0 halts the core at a reset |
///
/// Every other address from e000_0000 to e00f_ffff reads 0, and a write there has no effect: there is no breakpoint
/// unit. While the core runs, DCRSR has no effect. A reset leaves r0 to r12 as they were.
#[derive(Clone, Copy, Debug, PartialEq, Eq)]
pub struct Core {
    /// The control bits of DHCSR, bits 0 to 5.
    pub control: u32,
    pub halted: bool,
    /// Whether an instruction was executed since DHCSR was read.
    pub stepped: bool,
    /// Whether the core was reset since DHCSR was read.
    pub was_reset: bool,
    /// How many reads of DHCSR still find a core register being moved.
    pub busy: u32,
    /// How many do after a write of DCRSR.
    pub work: u32,
    /// DCRDR.
    pub moved: u32,
    /// DEMCR.
    pub monitor: u32,
    /// DFSR.
    pub events: u32,
    /// The core registers at their numbers in DCRSR: r0 to r12, LR at 14, PC at 15, xPSR at 16, MSP at 17, PSP at 18,
    /// and at 20 CONTROL, FAULTMASK, BASEPRI and PRIMASK, a byte each. 13 and 19 aren't used.
    pub registers: [u32; 21],
}

impl Core {
    /// The byte address of CPUID.
    pub const CPUID: u32 = 0xe000_ed00;
    /// The byte address of AIRCR.
    pub const AIRCR: u32 = 0xe000_ed0c;
    /// The byte address of DFSR.
    pub const DFSR: u32 = 0xe000_ed30;
    /// The byte address of DHCSR.
    pub const DHCSR: u32 = 0xe000_edf0;
    /// The byte address of DCRSR.
    pub const DCRSR: u32 = 0xe000_edf4;
    /// The byte address of DCRDR.
    pub const DCRDR: u32 = 0xe000_edf8;
    /// The byte address of DEMCR.
    pub const DEMCR: u32 = 0xe000_edfc;

    /// Creates a running core that wasn't reset yet: all its registers are 0. A core register takes `work` reads of
    /// DHCSR to be moved.
    pub fn new(work: u32) -> Core
        ensures { result ≡ core_made work }
    {
        Core {
            control: 0,
            halted: false,
            stepped: false,
            was_reset: false,
            busy: 0,
            work,
            moved: 0,
            monitor: 0,
            events: 0,
            registers: [0; 21],
        }
    }

    /// Returns whether the debug registers have this byte address, and not the memory.
    pub fn has(addr: u32) -> bool
        ensures { result ≡ core_is_address addr }
    {
        0xe000_0000 <= addr && addr < 0xe010_0000
    }

    /// Returns whether this write asks for a reset of the core.
    pub fn asks_reset(addr: u32, word: u32) -> bool
        ensures { result ≡ core_asks_reset addr word }
    {
        addr == Core::AIRCR && word / 0x1_0000 == 0x05fa && word / 4 % 2 == 1
    }

    // Returns whether the core runs without the bit of xPSR that says that its instructions are Thumb: it is locked up.
    fn is_locked_up(&self) -> bool
        ensures { result ≡ core_locked_up self.now }
    {
        !self.halted && self.registers[16] / 0x100_0000 % 2 == 0
    }

    // Returns the word of DHCSR.
    fn halting_word(&self) -> u32
        ensures { result ≡ core_halting_word self.now }
    {
        let ready = if self.busy == 0 { 0x1_0000 } else { 0 };
        let halted = if self.halted { 0x2_0000 } else { 0 };
        let locked_up = if self.is_locked_up() { 0x8_0000 } else { 0 };
        let stepped = if self.stepped { 0x100_0000 } else { 0 };
        let was_reset = if self.was_reset { 0x200_0000 } else { 0 };
        self.control | ready | halted | locked_up | stepped | was_reset
    }

    // Returns the word of the register at a byte address.
    fn word(&self, addr: u32) -> u32
        ensures { result ≡ core_word addr self.now }
    {
        match addr {
            Core::CPUID => 0x410f_c241,
            Core::AIRCR => 0xfa05_0000,
            Core::DFSR => self.events,
            Core::DHCSR => self.halting_word(),
            Core::DCRDR if self.busy == 0 => self.moved,
            Core::DEMCR => self.monitor,
            _ => 0,
        }
    }

    /// Reads the register at a byte address, and returns its word.
    pub fn read(&mut self, addr: u32) -> u32
        ensures word { result ≡ core_word addr self.old }
        ensures after { self.new ≡ core_after_read addr self.old }
    {
        let word = self.word(addr);
        if addr == Core::DHCSR {
            self.busy = self.busy.saturating_sub(1);
            self.stepped = false;
            self.was_reset = false;
        }
        word
    }

    /// Writes a word to the register at a byte address. A reset is left to [`Core::reset`].
    pub fn write(&mut self, addr: u32, word: u32)
        ensures { self.new ≡ core_after_write addr word self.old }
    {
        match addr {
            Core::DFSR => self.events &= word ^ 0xffff_ffff,
            Core::DHCSR => self.write_halting(word),
            Core::DCRSR => self.transfer(word),
            Core::DCRDR => self.moved = word,
            Core::DEMCR => self.monitor = word,
            _ => {}
        }
    }

    // Writes DHCSR: halts the core, steps it, or lets it run.
    fn write_halting(&mut self, word: u32)
        ensures { self.new ≡ core_after_halting word self.old }
    {
        if word / 0x1_0000 != 0xa05f {
            return;
        }
        if word % 2 == 0 {
            self.control = 0;
            self.halted = false;
            return;
        }
        self.control = word & 0x2f;
        let halts = word / 2 % 2 == 1;
        if halts && !self.halted {
            self.events |= 1;
            self.halted = true;
        } else if !halts && self.halted && word / 4 % 2 == 1 {
            self.step();
        } else if !halts {
            self.halted = false;
        }
    }

    // Advances the PC by 2, after which the core is halted again.
    fn step(&mut self)
        ensures { self.new ≡ core_stepped self.old }
    {
        self.control |= 2;
        self.events |= 1;
        self.stepped = true;
        self.registers[15] = self.registers[15].wrapping_add(2);
    }

    // Returns the number in `registers` of the core register that DCRSR names. SP is MSP or PSP, as CONTROL says.
    fn place(&self, number: u32) -> usize
        ensures { result ≡ core_place number self.now }
    {
        if number != 13 {
            number as usize
        } else if self.registers[20] / 0x200_0000 % 2 == 1 {
            18
        } else {
            17
        }
    }

    // Moves a core register from or to DCRDR, where the core is halted. One that isn't there reads 0.
    fn transfer(&mut self, word: u32)
        ensures { self.new ≡ core_after_transfer word self.old }
    {
        if !self.halted {
            return;
        }
        self.busy = self.work;
        let place = self.place(word % 0x80);
        let there = place < 21;
        if word / 0x1_0000 % 2 == 1 {
            if there {
                self.registers[place] = self.moved;
            }
        } else {
            self.moved = if there { self.registers[place] } else { 0 };
        }
    }

    /// Resets the core: it starts with this SP and this PC, the first two words of its vector table. It halts before
    /// its first instruction where DEMCR asks for that and debug is enabled.
    pub fn reset(&mut self, sp: u32, pc: u32)
        ensures { self.new ≡ core_after_reset sp pc self.old }
    {
        let catches = self.monitor % 2 == 1 && self.control % 2 == 1;
        self.control = if catches {
            (self.control & 1) | 2
        } else {
            self.control & 1
        };
        self.halted = catches;
        if catches {
            self.events |= 8;
        }
        self.was_reset = true;
        self.busy = 0;
        self.registers[14] = 0xffff_ffff;
        self.registers[15] = pc & 0xffff_fffe;
        self.registers[16] = (pc & 1) * 0x100_0000;
        self.registers[17] = sp & 0xffff_fffc;
        self.registers[18] = 0;
        self.registers[20] = 0;
    }
}
