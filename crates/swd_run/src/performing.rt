//! The runs of an `until`.
ghost use Rattle.std.specs.Prelude.{◌≡◌, IfNone, IfSome, Some};
ghost use Rattle.swd_port.specs.declared.wire.Due.TheVariants.{Nothing};
ghost use Rattle.swd_host.specs.Reports.{host_report_of};
ghost use Rattle.swd_script.specs.Readers.{script_batch_listed};
ghost use Rattle.swd_script.specs.Laws.{IsScriptBatch};
ghost use Rattle.swd_run.specs.Sessions.{script_run_of};
ghost use Rattle.swd_run.specs.Unfoldings.{BatchRuns, IsCutShort, Performs, asks_again, until_word_came, is_until_word};
ghost use Rattle.swd_run.specs.Unfoldings.{is_other_until_word, until_never_came, batch_reads_of};

use crate::going_on::{Resumed, make_call};
use crate::options::CallOptions;
use std::alloc::Allocator;
use swd_host::{End, Report};
use swd_port::{Answer, Wire};
use swd_script::{Batch, Until};

/// The runs of an `until`.
#[derive(Drop)]
pub(crate) struct Performed<A: Allocator> {
    /// How many there were: at most its most reads.
    pub(crate) runs: u32,
    /// The last one.
    pub(crate) last: Resumed<A>,
}

// Returns whether a word under the mask is the value.
fn is_awaited(until: Until, word: u32) -> bool
    ensures { result ≡ is_until_word until word }
{
    word & until.mask == until.value
}

// Returns whether a read was answered with the awaited word.
fn has_come(until: Until, answers: &[Answer]) -> bool
    ensures { result ≡ until_word_came until answers.now }
{
    match answers {
        [Answer::Value(word)] => is_awaited(until, *word),
        _ => false,
    }
}

// Returns whether a read was answered with another word.
fn is_other(until: Until, answers: &[Answer]) -> bool
    ensures { result ≡ is_other_until_word until answers.now }
{
    match answers {
        [Answer::Value(word)] => !is_awaited(until, *word),
        _ => false,
    }
}

// Returns whether the read has to be made again: it ended `All`, and was answered with another word.
fn asks_again<A: Allocator>(until: Until, run: &Resumed<A>) -> bool
    ensures { result ≡ asks_again until (script_run_of run.now) }
{
    match run.report.ended {
        End::All => is_other(until, run.report.answers.as_slice()),
        _ => false,
    }
}

/// Returns whether this is the last read of an `until`, and it ended `All` without the awaited word.
pub(crate) fn never_came<A: Allocator>(until: Option<Until>, report: &Report<A>) -> bool
    ensures { result ≡ until_never_came until (host_report_of report.now) }
{
    let Some(until) = until else {
        return false;
    };
    match report.ended {
        End::All => !has_come(until, report.answers.as_slice()),
        _ => false,
    }
}

/// Performs the reads of an `until` over a wire, each a run of its own, until its word comes. Each read but the first
/// goes over the target that the read before left open. A read that doesn't end `All`, and a bus error, are the last.
/// Returns `None` if an allocation fails.
pub(crate) fn perform<W: Wire, A: Allocator + Copy>(
    alloc: A,
    wire: &mut W,
    batch: &Batch<A>,
    until: Until,
    options: CallOptions,
) -> Option<Performed<A>>
    requires batch { IsScriptBatch (script_batch_listed batch.now) }
    requires until { batch.now.until ≡ Some until }
    requires due { (W.port wire.old).link.due ≡ Nothing }
    ensures performs { IfSome result (λ performed. (runs : BatchRuns) × (runs.last ≡ script_run_of performed.last)
        × (batch_reads_of runs ≡ performed.runs)
        × Performs W.Wire options.opened options.limits
        (script_batch_listed batch.now) wire.old runs wire.new) }
    ensures cut { IfNone result (IsCutShort W.Wire options.opened options.limits
        (script_batch_listed batch.now) wire.old wire.new) }
    ensures plan { W.plan wire.new ≡ W.plan wire.old }
{
    let mut last = make_call(alloc, wire, batch, options)?;
    for runs in 1..until.most {
        if !asks_again(until, &last) {
            return Some(Performed { runs, last });
        }
        let further = CallOptions {
            opened: true,
            ..options
        };
        last = make_call(alloc, wire, batch, further)?;
    }
    Some(Performed {
        runs: until.most,
        last,
    })
}
