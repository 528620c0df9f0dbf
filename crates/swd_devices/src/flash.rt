//! A flash controller.
ghost use Rattle.std.specs.Prelude.{◌≡◌};
ghost use Rattle.swd_devices.specs.Flashes.{flash_answer, flash_after, flash_is_ready, flash_made, flash_status};
ghost use Rattle.swd_devices.specs.Flashes.{flash_once_commanded, flash_once_high_written, flash_once_keyed};
ghost use Rattle.swd_devices.specs.Flashes.{flash_once_low_written, flash_takes_high, lock_is_open};

use crate::seen::Seen;
use swd_port::Access;
use swd_target::Peripheral;

/// The state of a flash controller's lock.
#[derive(Clone, Copy, Debug, PartialEq, Eq)]
pub enum Lock {
    /// No key was written since the lock was set.
    Locked,
    /// The first key was written.
    Half,
    /// Both keys were written.
    Open,
    /// A wrong word was written as a key, or a key too many. It stays so.
    Shut,
}

/// A flash controller in the manner of an STM32G0's (RM0444, "Embedded flash memory"), with a page of one double word.
/// A command keeps it busy until its status was read so many times.
///
/// | Byte address | Register | Read | Write |
/// |---|---|---|---|
/// | 4002_2008 | keys | bus error | two keys, one after the other, open the lock; any other word shuts it for good |
/// | 4002_2010 | status | bit 16 while it is busy, and bit 1 after an error | clears bit 1 |
/// | 4002_2014 | control | the last command, or bit 31 unless it is unlocked | 8000_0000 locks, 0001_0052 erases |
/// | 0800_5000, 0800_5004 | the page | its word | programs an erased page, the lower word first, under the command 1 |
///
/// Control while the lock isn't open, and a word that can't be programmed, are bus errors, and set bit 1 of the status.
#[derive(Clone, Copy, Debug, PartialEq, Eq)]
pub struct Flash {
    pub lock: Lock,
    /// How many reads of the status still find the controller busy.
    pub busy: u32,
    /// How many do after a command.
    pub work: u32,
    /// Whether there was an error.
    pub failed: bool,
    /// The last command.
    pub command: u32,
    /// The lower word to program, where only that was written yet.
    pub half: Option<u32>,
    /// The lower word of the page.
    pub low: u32,
    /// The upper word of the page.
    pub high: u32,
    pub keys_seen: Seen,
    pub control_seen: Seen,
    pub page_seen: Seen,
}

impl Flash {
    /// The byte address of the key register.
    pub const KEYS: u32 = 0x4002_2008;
    /// The byte address of the status.
    pub const STATUS: u32 = 0x4002_2010;
    /// The byte address of the control register.
    pub const CONTROL: u32 = 0x4002_2014;
    /// The byte address of the lower word of the page.
    pub const LOW: u32 = 0x0800_5000;
    /// The byte address of the upper word of the page.
    pub const HIGH: u32 = 0x0800_5004;

    const FIRST_KEY: u32 = 0x4567_0123;

    const SECOND_KEY: u32 = 0xcdef_89ab;

    const LOCK: u32 = 0x8000_0000;

    const ERASE: u32 = 0x0001_0052;

    const PROGRAM: u32 = 1;

    const ERASED: u32 = 0xffff_ffff;

    /// Creates a locked controller whose page has these two words, and which is busy for `work` reads of its status
    /// after each command. No access was made yet.
    pub fn new(low: u32, high: u32, work: u32) -> Flash
        ensures { result ≡ flash_made low high work }
    {
        Flash {
            lock: Lock::Locked,
            busy: 0,
            work,
            failed: false,
            command: 0,
            half: None,
            low,
            high,
            keys_seen: Seen::NONE,
            control_seen: Seen::NONE,
            page_seen: Seen::NONE,
        }
    }

    fn status(&self) -> u32
        ensures { result ≡ flash_status self.now }
    {
        let busy = if self.busy == 0 { 0 } else { 0x1_0000 };
        busy + 2 * u32::from(self.failed)
    }

    // Returns whether words can be programmed.
    fn is_ready(&self) -> bool
        ensures { result ≡ flash_is_ready self.now }
    {
        matches!(&self.lock, Lock::Open) && self.busy == 0 && self.command == Flash::PROGRAM
    }

    // Returns whether the upper word can be programmed now, with the lower one.
    fn takes_high(&self) -> bool
        ensures { result ≡ flash_takes_high self.now }
    {
        self.is_ready()
            && self.half.is_some()
            && self.low == Flash::ERASED
            && self.high == Flash::ERASED
    }

    fn write_key(&mut self, word: u32)
        ensures { self.new ≡ flash_once_keyed word self.old }
    {
        self.keys_seen = self.keys_seen.and_write();
        self.lock = match self.lock {
            Lock::Locked if word == Flash::FIRST_KEY => Lock::Half,
            Lock::Half if word == Flash::SECOND_KEY => Lock::Open,
            _ => Lock::Shut,
        };
    }

    fn write_control(&mut self, word: u32) -> bool
        ensures done { result ≡ lock_is_open self.old.lock }
        ensures after { self.new ≡ flash_once_commanded word self.old }
    {
        self.control_seen = self.control_seen.and_write();
        if !matches!(&self.lock, Lock::Open) {
            self.failed = true;
            return false;
        }
        self.command = word;
        if word == Flash::LOCK {
            self.lock = Lock::Locked;
        } else if word == Flash::ERASE && self.busy == 0 {
            self.low = Flash::ERASED;
            self.high = Flash::ERASED;
            self.busy = self.work;
        }
        true
    }

    fn write_low(&mut self, word: u32) -> bool
        ensures done { result ≡ flash_is_ready self.old }
        ensures after { self.new ≡ flash_once_low_written word self.old }
    {
        self.page_seen = self.page_seen.and_write();
        if self.is_ready() {
            self.half = Some(word);
            return true;
        }
        self.failed = true;
        false
    }

    fn write_high(&mut self, word: u32) -> bool
        ensures done { result ≡ flash_takes_high self.old }
        ensures after { self.new ≡ flash_once_high_written word self.old }
    {
        self.page_seen = self.page_seen.and_write();
        if !self.takes_high() {
            self.failed = true;
            return false;
        }
        self.low = self.half.unwrap_or(Flash::ERASED);
        self.high = word;
        self.half = None;
        self.busy = self.work;
        true
    }
}

impl Peripheral for Flash {
    ghost answer = { flash_answer };

    ghost after = { flash_after };

    fn read(&mut self, addr: u32) -> Option<u32> {
        match addr {
            Flash::KEYS => {
                self.keys_seen = self.keys_seen.and_read();
                None
            }
            Flash::STATUS => {
                let status = self.status();
                self.busy = self.busy.saturating_sub(1);
                Some(status)
            }
            Flash::CONTROL => {
                self.control_seen = self.control_seen.and_read();
                match self.lock {
                    Lock::Open => Some(self.command),
                    _ => Some(Flash::LOCK),
                }
            }
            Flash::LOW => {
                self.page_seen = self.page_seen.and_read();
                Some(self.low)
            }
            Flash::HIGH => {
                self.page_seen = self.page_seen.and_read();
                Some(self.high)
            }
            _ => None,
        }
    }

    fn write(&mut self, addr: u32, word: u32) -> bool {
        match addr {
            Flash::KEYS => {
                self.write_key(word);
                true
            }
            Flash::STATUS => {
                self.failed = false;
                true
            }
            Flash::CONTROL => self.write_control(word),
            Flash::LOW => self.write_low(word),
            Flash::HIGH => self.write_high(word),
            _ => false,
        }
    }

    fn would_succeed(&self, access: Access) -> bool {
        match access {
            Access::Read(Flash::STATUS | Flash::CONTROL | Flash::LOW | Flash::HIGH) => true,
            Access::Write(Flash::KEYS | Flash::STATUS, _) => true,
            Access::Write(Flash::CONTROL, _) => matches!(&self.lock, Lock::Open),
            Access::Write(Flash::LOW, _) => self.is_ready(),
            Access::Write(Flash::HIGH, _) => self.takes_high(),
            _ => false,
        }
    }
}
