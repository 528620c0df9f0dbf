//! Reads a range of words.
ghost use Rattle.std.specs.Prelude.{◌≡◌, ◌+◌, ◌*◌, ◌%◌, ◌≤◌, ◌^◌, ◌++◌, [], IfErr, IfOk, OnOk, Some};
ghost use Rattle.swd_port.specs.PlainAnswers.{plain_reads};
ghost use Rattle.swd_port.specs.declared.wire.Due.TheVariants.{Nothing};
ghost use Rattle.swd_script.specs.Readers.{script_batch_listed};
ghost use Rattle.swd_image.specs.declared.fault.ImageFault.TheVariants.{Memory};
ghost use Rattle.swd_image.specs.Reports.{ReportsTo, image_fault_of};
ghost use Rattle.swd_image.specs.Sessions.{FailsAs, ReadsAs, image_word_read, image_words_read};

use crate::calls::run_call;
use crate::fault::ImageFault;
use crate::reports::CallReports;
use std::alloc::Allocator;
use swd_port::{Answer, MOST_ACCESSES, Wire, push_reads};
use swd_run::Limits;
use swd_script::Batch;

// Returns the call that reads `count` words from `at` on as a block.
fn block_at<A: Allocator + Copy>(alloc: A, at: u32, count: u32) -> Result<Batch<A>, ImageFault>
    requires { at + 4 * count ≤ 2 ^ 32 }
    ensures batch { IfOk result (λ batch. script_batch_listed batch ≡ record {
      accesses = plain_reads at count;
      block = Some at;
      expected = [];
      until = None;
    }) }
    ensures fault { IfErr result (λ fault. fault ≡ Memory) }
{
    let Ok(mut accesses) = Vec::with_capacity(alloc, count as usize) else {
        return Err(ImageFault::Memory);
    };
    let Ok(()) = push_reads(&mut accesses, at, count) else {
        return Err(ImageFault::Memory);
    };
    Ok(Batch {
        accesses,
        block: Some(at),
        expected: Vec::new(alloc),
        until: None,
    })
}

// Returns the word of an answer, 0 if it has no word.
fn word_told(answer: Answer) -> u32
    ensures { result ≡ image_word_read answer }
{
    match answer {
        Answer::Value(word) => word,
        Answer::Written | Answer::BusFault => 0,
    }
}

// Appends the words of the answers.
fn push_words<A: Allocator>(words: &mut Vec<u32, A>, answers: &[Answer]) -> Result<(), ImageFault>
    ensures pushed { OnOk result (words.new.items ≡ words.old.items ++ image_words_read answers.now) }
    ensures fault { IfErr result (λ fault. fault ≡ Memory) }
{
    for answer in answers {
        let Ok(()) = words.push(word_told(*answer)) else {
            return Err(ImageFault::Memory);
        };
    }
    Ok(())
}

/// Reads `count` words from `first` on, in blocks of at most 65,536 words, a call for each.
pub(crate) fn read_words<W: Wire, S: CallReports, A: Allocator + Copy>(
    alloc: A,
    wire: &mut W,
    first: u32,
    count: u32,
    limits: Limits,
    report: &mut S,
) -> Result<Vec<u32, A>, ImageFault>
    requires aligned { first % 4 ≡ 0 }
    requires range { first + 4 * count ≤ 2 ^ 32 }
    requires due { (W.port wire.old).link.due ≡ Nothing }
    ensures read { IfOk result (λ words. ReadsAs W.Wire limits (plain_reads first count) words.items
        wire.old wire.new) }
    ensures due { IfOk result (λ words. (W.port wire.new).link.due ≡ Nothing) }
    ensures fault { IfErr result (FailsAs W.Wire limits (plain_reads first count) wire.old wire.new) }
    ensures report { ReportsTo W.Wire limits (plain_reads first count) (image_fault_of result) wire.old wire.new
        (S.held report.old) (S.held report.new) }
    ensures plan { W.plan wire.new ≡ W.plan wire.old }
{
    let mut words = Vec::new(alloc);
    let mut done = 0;
    while done < count {
        let many = (count - done).min(MOST_ACCESSES);
        let batch = block_at(alloc, first + 4 * done, many)?;
        let answers = run_call(alloc, wire, &batch, limits, report)?;
        push_words(&mut words, answers.as_slice())?;
        done += many;
    }
    Ok(words)
}
