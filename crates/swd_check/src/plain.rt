//! Plain memory: each word is the one that was written to it last.

use std::alloc::{AllocError, Allocator};
use std::collections::BTreeMap;
use swd_observer::{How, ObservedAccess};

/// A word that was read or written, and the place of that access's request.
#[derive(Clone, Copy, Debug, PartialEq, Eq)]
pub struct Read {
    pub word: u32,
    pub place: u64,
}

/// Addresses of a plain memory.
#[derive(Clone, Copy)]
struct Region {
    base: u32,
    words: u32,
}

/// Plain memories, and what is known of their words. Only words that are known take memory.
#[derive(Drop)]
pub struct PlainMemory<A: Allocator> {
    regions: Vec<Region, A>,
    /// The known words, by their address, a multiple of 4.
    known: BTreeMap<u32, Read, A>,
    /// The place of the first word that wasn't noted, since there was no memory for it.
    full: Option<u64>,
}

/// Why an access isn't one of a plain memory.
#[derive(Clone, Copy, Debug, PartialEq, Eq)]
pub enum NotPlain {
    /// It read another word than the one that was read or written before.
    Differs { addr: u32, found: Read, held: Read },
    /// It met a bus error.
    Refused { addr: u32, place: u64 },
}

impl<A: Allocator + Copy> PlainMemory<A> {
    /// Returns no memory.
    pub fn new(alloc: A) -> PlainMemory<A> {
        PlainMemory {
            regions: Vec::new(alloc),
            known: BTreeMap::new(alloc),
            full: None,
        }
    }

    /// Adds so many words from an address on, a multiple of 4. It takes memory for the range, not for its words.
    ///
    /// # Errors
    ///
    /// Out of memory.
    pub fn add(&mut self, base: u32, words: u32) -> Result<(), AllocError> {
        self.regions.push(Region { base, words })?;
        Ok(())
    }

    /// Returns whether there is no memory.
    pub(crate) fn is_empty(&self) -> bool {
        self.regions.is_empty()
    }

    /// Returns the place from which on a word may be missing, since there was no memory to note it.
    pub(crate) fn full(&self) -> Option<u64> {
        self.full
    }

    /// Forgets what is known.
    pub(crate) fn forget(&mut self) {
        self.known.clear();
    }

    /// Takes an access that a trace shows. Returns why it isn't one of a plain memory, if it isn't. Where `clean` is
    /// true, nothing is damaged on the wire.
    pub(crate) fn take(&mut self, told: &ObservedAccess, clean: bool) -> Option<NotPlain> {
        let Some(addr) = told.addr else {
            if !told.read && told.how != How::Not {
                self.forget();
            }
            return None;
        };
        if !self.has(addr) {
            return None;
        }
        match (told.how, told.word) {
            (How::Not, word) => refused(told, addr, clean && word.is_some()),
            (How::Took, Some(word)) => {
                let found = Read {
                    word,
                    place: told.place,
                };
                self.note(addr, told.read, found)
            }
            _ => {
                if !told.read {
                    self.known.remove(&word_at(addr));
                }
                None
            }
        }
    }

    // Returns whether there is a word at an address.
    fn has(&self, addr: u32) -> bool {
        for region in self.regions.as_slice() {
            if addr >= region.base && (addr - region.base) / 4 < region.words {
                return true;
            }
        }
        false
    }

    // Notes a word that was read or written.
    fn note(&mut self, addr: u32, read: bool, found: Read) -> Option<NotPlain> {
        let at = word_at(addr);
        if read {
            if let Some(held) = self.known.get(&at) {
                return differs(addr, found, *held);
            }
        }
        if self.known.insert(at, found).is_err() {
            self.full = self.full.or(Some(found.place));
        }
        None
    }
}

// Returns the address of the word that has this one.
fn word_at(addr: u32) -> u32 {
    addr - addr % 4
}

// Returns a read of another word than the one that is known.
fn differs(addr: u32, found: Read, held: Read) -> Option<NotPlain> {
    if held.word == found.word {
        None
    } else {
        Some(NotPlain::Differs { addr, found, held })
    }
}

// Returns a bus error at a plain memory. A write that took no effect met one if its data is known to have arrived.
fn refused(told: &ObservedAccess, addr: u32, arrived: bool) -> Option<NotPlain> {
    if told.read || arrived {
        Some(NotPlain::Refused {
            addr,
            place: told.place,
        })
    } else {
        None
    }
}
