//! A list and a block of 65,536 accesses, and a list that is resumed at its last one.
ghost use Rattle.std.specs.Prelude.{IfOk};
ghost use Rattle.swd_target.specs.Marks.{IsLegalPlan};

use crate::fault::Fault;
use crate::targets::{BASE, TRIES, bench, is_ready};
use std::alloc::{AllocError, Global};
use swd_host::{End, resume, run, run_block};
use swd_port::{Access, Answer};
use swd_target::{Bench, Mark, Memory};

/// The greatest number of accesses in a list.
const MOST: u32 = 65_536;

/// The transfers that the target's log has room for.
const ROOM: u32 = 4 * MOST;

/// The requests of a list of writes at consecutive addresses: the opening, DRW for each, and in each kilobyte TAR
/// before its first word and RDBUFF after its last one.
const REQUESTS: usize = 9 + 65_536 + 2 * 256;

/// Makes 65,536 writes, and reads their words in one block. Returns whether each is answered as it was made.
pub fn writes_and_block(alloc: Global) -> Result<bool, Fault> {
    let accesses = writes(alloc)?;
    let mut bench = bench(alloc, MOST, ROOM, Vec::new(alloc))?;
    if !is_ready(&bench) {
        return Ok(false);
    }
    let written = run(alloc, &mut bench, &accesses, TRIES)?;
    Ok(
        matches!(&written.ended, End::All)
            && written.requests as usize == REQUESTS
            && are_written(&written.answers)
            && are_read(alloc, bench)?,
    )
}

/// Loses the acknowledgement of the request that confirms the last write, and resumes the list. Returns whether all
/// accesses but the last one were answered before, and the last one once it was resumed.
pub fn resumed_at_its_end(alloc: Global) -> Result<bool, Fault> {
    let accesses = writes(alloc)?;
    let mut bench = bench(alloc, MOST, ROOM, losing(alloc, REQUESTS - 1)?)?;
    if !is_ready(&bench) {
        return Ok(false);
    }
    let lost = run(alloc, &mut bench, &accesses, TRIES)?;
    if !matches!(&lost.ended, End::Lost) || lost.answers.len() != MOST as usize - 1 {
        return Ok(false);
    }
    let resumed = resume(alloc, &mut bench, &accesses, &lost, TRIES)?;
    Ok(
        matches!(&resumed.ended, End::All)
            && are_written(&resumed.answers)
            && are_read(alloc, bench)?,
    )
}

// Each word of the memory is written with the complement of its address.
fn writes(alloc: Global) -> Result<Vec<Access>, AllocError> {
    let mut accesses = Vec::with_capacity(alloc, MOST as usize)?;
    for index in 0..MOST {
        let addr = BASE + 4 * index;
        accesses.push(Access::Write(addr, !addr))?;
    }
    Ok(accesses)
}

// A plan that loses the acknowledgement of one request.
fn losing(alloc: Global, at: usize) -> Result<Vec<Mark>, AllocError>
    ensures { IfOk result (λ plan. IsLegalPlan plan.items) }
{
    let mut plan = Vec::with_capacity(alloc, REQUESTS)?;
    for place in 0..REQUESTS {
        plan.push(if place == at {
            Mark::Mute(0)
        } else {
            Mark::Clean
        })?;
    }
    Ok(plan)
}

fn are_written(answers: &[Answer]) -> bool {
    answers.len() == MOST as usize
        && answers
            .iter()
            .all(|answer| matches!(answer, Answer::Written))
}

// Returns whether a block of reads is answered with the words that were written.
fn are_read(alloc: Global, bench: Bench<Memory>) -> Result<bool, Fault> {
    let mut bench = bench;
    if !is_ready(&bench) {
        return Ok(false);
    }
    let read = run_block(alloc, &mut bench, BASE, MOST, TRIES)?;
    Ok(matches!(&read.ended, End::All) && are_words(&read.answers))
}

fn are_words(answers: &[Answer]) -> bool {
    answers.len() == MOST as usize
        && answers.iter().zip(0..MOST).all(|(answer, index)| *answer
            == Answer::Value(!(BASE + 4 * index)))
}
