//! Writes the words of an image.
ghost use Rattle.std.specs.Prelude.{◌≡◌, ◌+◌, ◌*◌, ◌%◌, ◌≤◌, ◌^◌, [], IfErr, IfOk, None, OnOk};
ghost use Rattle.swd_port.specs.declared.wire.Due.TheVariants.{Nothing};
ghost use Rattle.swd_script.specs.Readers.{script_batch_listed};
ghost use Rattle.swd_image.specs.declared.fault.ImageFault.TheVariants.{Memory};
ghost use Rattle.swd_image.specs.Images.{image_byte};
ghost use Rattle.swd_image.specs.Lists.{image_edge_word, image_loaded_word, image_writes};
ghost use Rattle.swd_image.specs.Reports.{ReportsTo, image_fault_of};
ghost use Rattle.swd_image.specs.Sessions.{FailsAs, MadeAll};

use crate::calls::run_call;
use crate::fault::ImageFault;
use crate::reports::CallReports;
use std::alloc::Allocator;
use swd_port::{Access, MOST_ACCESSES, Wire};
use swd_run::Limits;
use swd_script::Batch;

/// The words that an image covers only in part, as they were read: the first one and the last one.
#[derive(Clone, Copy)]
pub(crate) struct Edges {
    pub(crate) head: u32,
    pub(crate) tail: u32,
}

impl Edges {
    // Returns the one at a word's address.
    fn word(self, addr: u32, at: u32) -> u32
        ensures { result ≡ image_edge_word addr self.head self.tail at }
    {
        if addr < at { self.tail } else { self.head }
    }
}

/// What a load writes.
#[derive(Clone, Copy)]
pub(crate) struct Loading<'a> {
    /// The address of the image.
    pub(crate) addr: u32,
    /// Its bytes.
    pub(crate) bytes: &'a [u8],
    /// The partial words.
    pub(crate) edges: Edges,
    /// The address of the first word that is written.
    pub(crate) first: u32,
    /// How many words are written.
    pub(crate) count: u32,
}

impl Loading<'_> {
    // Returns the byte at `at` after a load over the word `word`: the image's byte, and outside the image the word's.
    fn byte(&self, word: u32, at: u32) -> u8
        ensures { result ≡ image_byte self.now.addr self.now.bytes.now word at }
    {
        if self.addr <= at && ((at - self.addr) as usize) < self.bytes.len() {
            self.bytes[(at - self.addr) as usize]
        } else {
            word.to_le_bytes()[(at % 4) as usize]
        }
    }

    // Returns the word at `at` after a load over these partial words.
    fn word(&self, at: u32) -> u32
        requires { at % 4 ≡ 0 }
        ensures { result ≡ image_loaded_word self.now.addr self.now.bytes.now self.now.edges.head self.now.edges.tail
            at }
    {
        let word = self.edges.word(self.addr, at);
        u32::from_le_bytes([
            self.byte(word, at),
            self.byte(word, at + 1),
            self.byte(word, at + 2),
            self.byte(word, at + 3),
        ])
    }

    // Returns the call that writes `count` words from `at` on.
    fn writes_at<A: Allocator + Copy>(
        &self,
        alloc: A,
        at: u32,
        count: u32,
    ) -> Result<Batch<A>, ImageFault>
        requires aligned { at % 4 ≡ 0 }
        requires range { at + 4 * count ≤ 2 ^ 32 }
        ensures batch { IfOk result (λ batch. script_batch_listed batch ≡ record {
          accesses = image_writes (image_loaded_word self.now.addr self.now.bytes.now self.now.edges.head
              self.now.edges.tail) at count;
          block = None;
          expected = [];
          until = None;
        }) }
        ensures fault { IfErr result (λ fault. fault ≡ Memory) }
    {
        let Ok(mut accesses) = Vec::with_capacity(alloc, count as usize) else {
            return Err(ImageFault::Memory);
        };
        for index in 0..count {
            let here = at + 4 * index;
            let word = self.word(here);
            let Ok(()) = accesses.push(Access::Write(here, word)) else {
                return Err(ImageFault::Memory);
            };
        }
        Ok(Batch {
            accesses,
            block: None,
            expected: Vec::new(alloc),
            until: None,
        })
    }
}

/// Writes the words of the image, by one write for each word, in calls of at most 65,536 writes.
pub(crate) fn write_words<W: Wire, S: CallReports, A: Allocator + Copy>(
    alloc: A,
    wire: &mut W,
    image: &Loading<'_>,
    limits: Limits,
    report: &mut S,
) -> Result<(), ImageFault>
    requires aligned { image.now.first % 4 ≡ 0 }
    requires range { image.now.first + 4 * image.now.count ≤ 2 ^ 32 }
    requires due { (W.port wire.old).link.due ≡ Nothing }
    ensures made { OnOk result (MadeAll W.Wire limits
        (image_writes (image_loaded_word image.now.addr image.now.bytes.now image.now.edges.head image.now.edges.tail)
        image.now.first image.now.count) wire.old wire.new) }
    ensures due { OnOk result ((W.port wire.new).link.due ≡ Nothing) }
    ensures fault { IfErr result (FailsAs W.Wire limits
        (image_writes (image_loaded_word image.now.addr image.now.bytes.now image.now.edges.head image.now.edges.tail)
        image.now.first image.now.count) wire.old wire.new) }
    ensures report { ReportsTo W.Wire limits (image_writes (image_loaded_word image.now.addr image.now.bytes.now
        image.now.edges.head image.now.edges.tail) image.now.first image.now.count) (image_fault_of result) wire.old
        wire.new (S.held report.old) (S.held report.new) }
    ensures plan { W.plan wire.new ≡ W.plan wire.old }
{
    let mut done = 0;
    while done < image.count {
        let many = (image.count - done).min(MOST_ACCESSES);
        let batch = image.writes_at(alloc, image.first + 4 * done, many)?;
        let _ = run_call(alloc, wire, &batch, limits, report)?;
        done += many;
    }
    Ok(())
}
