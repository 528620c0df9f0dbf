//! A run that is recorded, and the accesses that its trace shows.
use crate::whole::{BASE, Failure, IMAGE, QUIRKS, TRIES, writes};
use std::alloc::Global;
use swd_host::{End, run};
use swd_observer::{How, ObservedAccess, TraceObserver};
use swd_recorder::Recorder;
use swd_target::{Bench, Memory};

// Whether the trace shows that this word of the image was written, exactly once, at its address.
fn is_written(told: &ObservedAccess, index: usize) -> bool {
    let Some(word) = IMAGE.get(index) else {
        return false;
    };
    let addr = BASE.wrapping_add(4 * index as u32);
    !told.read && told.addr == Some(addr) && told.word == Some(*word) && told.how == How::Took
}

/// Loads the image over a wire that is recorded, and looks for its words in the trace.
pub fn load(alloc: Global) -> Result<(), Failure> {
    let memory = Memory::new(alloc, BASE, 64, 65_536)?;
    let mut wire = Recorder::new(alloc, Bench::new(memory, QUIRKS, Vec::new(alloc)));
    let report = run(alloc, &mut wire, writes(alloc)?.as_slice(), TRIES)?;
    if report.ended != End::All {
        return Err(Failure::Stopped(report.ended));
    }
    if wire.is_cut() {
        return Err(Failure::Memory);
    }
    let mut observer = TraceObserver::of_made();
    let mut count = 0;
    for item in wire.items() {
        // An item reports up to three accesses: an earlier read, the access in flight, and its own.
        let tells = observer.watch(item).tells;
        for told in [tells.older, tells.before, tells.itself] {
            let Some(told) = told else { continue };
            if !is_written(&told, count) {
                return Err(Failure::Differs(count));
            }
            count = count.saturating_add(1);
        }
    }
    if count == IMAGE.len() {
        Ok(())
    } else {
        Err(Failure::Differs(count))
    }
}
