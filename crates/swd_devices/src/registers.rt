//! Four registers at which one access too many shows.
ghost use Rattle.std.specs.Prelude.{◌≡◌};
ghost use Rattle.swd_devices.specs.FourRegisters.{registers_answer, registers_after, registers_made};

use crate::seen::Seen;
use swd_port::Access;
use swd_target::Peripheral;

/// The state of a key register.
#[derive(Clone, Copy, Debug, PartialEq, Eq)]
pub enum Key {
    /// No word was written yet.
    Locked,
    /// The key was written once.
    Open,
    /// Another word was written, or the key a second time. It stays so.
    Shut,
}

/// Four registers, one word each:
///
/// | Byte address | Register | Read | Write |
/// |---|---|---|---|
/// | 4000_0000 | status | 0, until it was read N times; then 1 | bus error |
/// | 4000_0004 | key | bus error | the key opens it; any other word, and the key a second time, shut it for good |
/// | 4000_0008 | FIFO of two | takes the oldest word, or a bus error | adds a word, sets the flag, or a bus error |
/// | 4000_000c | flag | 1 if it is set, else 0 | a word with bit 0 set clears the flag |
///
/// A bus error has an effect: it is counted. Another address is a bus error that isn't counted.
#[derive(Clone, Copy, Debug, PartialEq, Eq)]
pub struct Registers {
    /// How many reads of the status still return 0.
    pub left: u32,
    pub key: Key,
    /// The oldest word of the FIFO.
    pub first: Option<u32>,
    /// The other word of the FIFO. There is none without a first one.
    pub second: Option<u32>,
    pub flag: bool,
    pub status_seen: Seen,
    pub key_seen: Seen,
    pub fifo_seen: Seen,
    pub flag_seen: Seen,
}

impl Registers {
    /// The byte address of the status.
    pub const STATUS: u32 = 0x4000_0000;
    /// The byte address of the key register.
    pub const KEY: u32 = 0x4000_0004;
    /// The byte address of the FIFO.
    pub const FIFO: u32 = 0x4000_0008;
    /// The byte address of the flag.
    pub const FLAG: u32 = 0x4000_000c;
    /// The word that opens the key register.
    pub const OPENING: u32 = 0x4567_0123;

    /// Creates registers of which the status comes ready after `reads` reads. No access was made yet.
    pub fn new(reads: u32) -> Registers
        ensures { result ≡ registers_made reads }
    {
        Registers {
            left: reads,
            key: Key::Locked,
            first: None,
            second: None,
            flag: false,
            status_seen: Seen::NONE,
            key_seen: Seen::NONE,
            fifo_seen: Seen::NONE,
            flag_seen: Seen::NONE,
        }
    }
}

impl Peripheral for Registers {
    ghost answer = { registers_answer };

    ghost after = { registers_after };

    fn read(&mut self, addr: u32) -> Option<u32> {
        match addr {
            Registers::STATUS => {
                self.status_seen = self.status_seen.and_read();
                if self.left == 0 {
                    return Some(1);
                }
                self.left -= 1;
                Some(0)
            }
            Registers::KEY => {
                self.key_seen = self.key_seen.and_read();
                None
            }
            Registers::FIFO => {
                self.fifo_seen = self.fifo_seen.and_read();
                let oldest = self.first;
                self.first = self.second;
                self.second = None;
                oldest
            }
            Registers::FLAG => {
                self.flag_seen = self.flag_seen.and_read();
                Some(u32::from(self.flag))
            }
            _ => None,
        }
    }

    fn write(&mut self, addr: u32, word: u32) -> bool {
        match addr {
            Registers::STATUS => {
                self.status_seen = self.status_seen.and_write();
                false
            }
            Registers::KEY => {
                self.key_seen = self.key_seen.and_write();
                self.key = match self.key {
                    Key::Locked if word == Registers::OPENING => Key::Open,
                    _ => Key::Shut,
                };
                true
            }
            Registers::FIFO => {
                self.fifo_seen = self.fifo_seen.and_write();
                if self.second.is_some() {
                    return false;
                }
                if self.first.is_some() {
                    self.second = Some(word);
                } else {
                    self.first = Some(word);
                }
                self.flag = true;
                true
            }
            Registers::FLAG => {
                self.flag_seen = self.flag_seen.and_write();
                if word % 2 == 1 {
                    self.flag = false;
                }
                true
            }
            _ => false,
        }
    }

    fn would_succeed(&self, access: Access) -> bool {
        match access {
            Access::Read(Registers::STATUS | Registers::FLAG) => true,
            Access::Read(Registers::FIFO) => self.first.is_some(),
            Access::Write(Registers::KEY | Registers::FLAG, _) => true,
            Access::Write(Registers::FIFO, _) => self.second.is_none(),
            _ => false,
        }
    }
}
