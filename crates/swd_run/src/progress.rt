//! What is told how far a run is.

/// After how many answers of a call their lines are written, and it is told how many there are.
pub const TOLD_AFTER: usize = 1024;

/// Is told how far a run is. It gets numbers alone: a run is the same whatever it does with them.
pub trait Progress {
    /// A run of so many accesses begins. All reads of an `until` are one access. The number is at most 2^64 - 1.
    fn begin(&mut self, accesses: u64);

    /// So many accesses are done, at most 2^64 - 1: they have an answer, and if there is a report, its line was
    /// written. It is told after every 1,024 answers of a call, and at its end, unless the writer of the report failed.
    fn reached(&mut self, done: u64);
}

/// Nobody is told.
impl Progress for () {
    #[inline(always)]
    fn begin(&mut self, _accesses: u64) {}

    #[inline(always)]
    fn reached(&mut self, _done: u64) {}
}

/// Tells how many answers of a call there are, if all of their lines were written.
pub(crate) fn tell_written<G: Progress>(progress: &mut G, written: bool, answers: usize) {
    if written {
        progress.reached(answers as u64);
    }
}

/// The progress of one of several calls.
#[derive(Drop)]
pub(crate) struct CallProgress<'a, G> {
    /// What is told how many accesses of all calls are done.
    pub(crate) progress: &'a mut G,
    /// How many accesses of the calls before are done.
    pub(crate) before: u64,
}

impl<G: Progress> Progress for CallProgress<'_, G> {
    fn begin(&mut self, accesses: u64) {
        self.progress.begin(accesses);
    }

    fn reached(&mut self, done: u64) {
        self.progress.reached(self.before.saturating_add(done));
    }
}
