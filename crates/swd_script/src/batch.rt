//! The accesses of one call.
ghost use Rattle.std.specs.Prelude.{◌≡◌, IfSome};
ghost use Rattle.swd_script.specs.Readers.{script_batch_listed};
ghost use Rattle.swd_script.specs.Scripts.{script_nothing_listed, script_until_listed};

use std::alloc::Allocator;
use swd_port::Access;

/// The accesses of one call. A script has one or more calls over the same target.
#[derive(Debug, Drop)]
pub struct Batch<A: Allocator> {
    /// At most 65,536 accesses, each at a multiple of 4.
    pub accesses: Vec<Access, A>,
    /// The address of the first access, if the accesses are the reads of one block.
    pub block: Option<u32>,
    /// The reads to verify, in order.
    pub expected: Vec<Expected, A>,
    /// What the call waits for, if it is that of an `until`. Its only access is then the read of that address.
    pub until: Option<Until>,
}

/// A read that is made again, as a call of its own, until its word comes.
#[derive(Clone, Copy, Debug, PartialEq, Eq)]
pub struct Until {
    /// The address to read.
    pub addr: u32,
    /// The bits of the word that are compared.
    pub mask: u32,
    /// The expected bits. It has no bit outside the mask.
    pub value: u32,
    /// The most reads, 1 to 1,000,000.
    pub most: u32,
}

/// A read whose word is to be verified.
#[derive(Clone, Copy, Debug, PartialEq, Eq)]
pub struct Expected {
    /// The line of the script, from 1, and at most 2^64 - 1.
    pub line: u64,
    /// The index of the access in its call, from 0.
    pub place: usize,
    /// The address to read.
    pub addr: u32,
    /// The expected word.
    pub word: u32,
}

impl<A: Allocator + Copy> Batch<A> {
    /// Returns a call without accesses.
    pub(crate) fn new(alloc: A) -> Batch<A>
        ensures { script_batch_listed result ≡ script_nothing_listed }
    {
        Batch {
            accesses: Vec::new(alloc),
            block: None,
            expected: Vec::new(alloc),
            until: None,
        }
    }

    /// Returns the call of an `until`. Returns `None` if an allocation fails.
    pub(crate) fn waiting(alloc: A, until: Until) -> Option<Batch<A>>
        ensures { IfSome result (λ batch. script_batch_listed batch ≡ script_until_listed until) }
    {
        let mut accesses = Vec::new(alloc);
        let Ok(()) = accesses.push(Access::Read(until.addr)) else {
            return None;
        };
        Some(Batch {
            accesses,
            block: None,
            expected: Vec::new(alloc),
            until: Some(until),
        })
    }
}
