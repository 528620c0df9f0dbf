//! One word of a memory elsewhere.
ghost use Rattle.std.specs.Prelude.{◌≡◌};
ghost use Rattle.std.specs.FinMap.{get};
ghost use Rattle.swd_port.specs.PlainAnswers.{succeeds_at, plain_answer, plain_after};
ghost use Rattle.swd_target.specs.MemoryWords.{target_window};

use std::marker::Model;
use swd_port::{Access, Answer, Transfer};

/// The word at one address, if any, and the one transfer that succeeded there, if any. Contracts see it as a
/// `PlainMemory`.
#[derive(Drop)]
pub(crate) struct Window {
    addr: u32,
    word: Option<u32>,
    made: Option<Transfer>,
}

impl Model for Window {
    ghost use Rattle.std.specs.Coded.{codes, coded_ℕ};
    ghost use Rattle.std.specs.FinMap as map;
    ghost use Rattle.std.specs.Ordering.{nat_cmp};
    ghost use Rattle.swd_port.specs.contracts.access.Transfer as transfer;
    ghost use Rattle.swd_port.specs.PlainMemory.{PlainMemory};
    ghost use Rattle.swd_target.specs.MemoryWords.{target_window_after};

    ghost Value = { PlainMemory };

    ghost coded = { Prim.hlevel (codes, map.code {R = nat_cmp} coded_ℕ coded_ℕ, transfer.the_row.coded) };

    ghost view = { λ w. target_window_after w.addr w.word w.made };
}

impl Window {
    pub(crate) fn new(addr: u32, word: Option<u32>) -> Window
        ensures { result ≡ target_window addr word }
    {
        Window {
            addr,
            word,
            made: None,
        }
    }

    pub(crate) fn word(&self, addr: u32) -> Option<u32>
        ensures { result ≡ get self.now.words addr }
    {
        if addr == self.addr { self.word } else { None }
    }

    pub(crate) fn log(&self) -> &[Transfer]
        ensures { result.now ≡ self.now.log }
    {
        self.made.as_slice()
    }

    pub(crate) fn is_ready(&self, addr: u32) -> bool
        ensures { result ≡ succeeds_at addr self.now }
    {
        self.word(addr).is_some() && self.made.is_none()
    }

    pub(crate) fn transfer(&mut self, access: Access) -> Answer
        ensures answer { result ≡ plain_answer access self.old }
        ensures after { self.new ≡ plain_after access self.old }
    {
        match access {
            Access::Read(addr) => self.read(addr),
            Access::Write(addr, word) => self.write(addr, word),
        }
    }

    fn read(&mut self, addr: u32) -> Answer
        ensures answer { result ≡ plain_answer (Access.Read addr) self.old }
        ensures after { self.new ≡ plain_after (Access.Read addr) self.old }
    {
        let Some(word) = self.word(addr) else {
            return Answer::BusFault;
        };
        if self.made.is_some() {
            return Answer::BusFault;
        }
        self.made = Some(Transfer {
            read: true,
            addr,
            word,
        });
        Answer::Value(word)
    }

    fn write(&mut self, addr: u32, word: u32) -> Answer
        ensures answer { result ≡ plain_answer (Access.Write addr word) self.old }
        ensures after { self.new ≡ plain_after (Access.Write addr word) self.old }
    {
        if !self.is_ready(addr) {
            return Answer::BusFault;
        }
        self.word = Some(word);
        self.made = Some(Transfer {
            read: false,
            addr,
            word,
        });
        Answer::Written
    }
}
