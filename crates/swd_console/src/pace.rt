//! Says on standard error how far a run is.

use crate::clock::Clock;
use std::io::Write;
use swd_run::Progress;

// The shortest time between two lines, in milliseconds.
const SECOND: u64 = 1000;

// A run that is watched.
#[derive(Clone, Copy)]
struct Watch {
    // The number of its accesses.
    total: u64,
    // How many accesses were done at the last line, and its time in milliseconds. At first the start of the run.
    done: u64,
    time: u64,
}

impl Watch {
    // Returns how many accesses a second were done since the last line, if a second has passed.
    fn rate(&mut self, done: u64, time: u64) -> Option<u64> {
        let passed = time.saturating_sub(self.time);
        if passed < SECOND {
            return None;
        }
        let rate = done.saturating_sub(self.done).saturating_mul(SECOND) / passed;
        self.done = done;
        self.time = time;
        Some(rate)
    }
}

/// The pace of a run. It prints a line on standard error, at most once a second, with the number of accesses that are
/// done.
#[derive(Drop)]
pub struct Pace<'a, E, C> {
    errors: &'a mut E,
    clock: &'a C,
    counted: &'static str,
    wanted: bool,
    // `None` before the run, where nothing is wanted, or where the clock could not be read at its start.
    watch: Option<Watch>,
}

impl<'a, E, C> Pace<'a, E, C> {
    /// Returns the pace of a run that hasn't begun, and prints nothing unless it is wanted. `counted` is what the
    /// accesses are called.
    pub fn new(
        wanted: bool,
        counted: &'static str,
        errors: &'a mut E,
        clock: &'a C,
    ) -> Pace<'a, E, C> {
        Pace {
            errors,
            clock,
            counted,
            wanted,
            watch: None,
        }
    }
}

impl<E: Write, C: Clock> Progress for Pace<'_, E, C> {
    fn begin(&mut self, accesses: u64) {
        if !self.wanted {
            return;
        }
        if let Some(time) = self.clock.millis() {
            self.watch = Some(Watch {
                total: accesses,
                done: 0,
                time,
            });
        }
    }

    fn reached(&mut self, done: u64) {
        let Some(watch) = &mut self.watch else {
            return;
        };
        let Some(time) = self.clock.millis() else {
            return;
        };
        if let Some(rate) = watch.rate(done, time) {
            let (total, counted) = (watch.total, self.counted);
            let _ = writeln!(
                self.errors,
                "swd: {done} of {total} {counted}, {rate} a second"
            );
        }
    }
}
