//! Tells the time by the machine's clock.

use std::time::Instant;
use swd_console::Clock;

/// The machine's clock from some start on.
#[derive(Drop)]
pub struct Stopwatch<'a> {
    rt: &'a HostRuntime,
    // The start, or `None` if the clock couldn't be read.
    start: Option<Instant>,
}

impl<'a> Stopwatch<'a> {
    /// Starts now.
    pub fn start(rt: &'a HostRuntime) -> Stopwatch<'a> {
        Stopwatch {
            rt,
            start: Instant::now(rt).ok(),
        }
    }
}

impl Clock for Stopwatch<'_> {
    fn millis(&self) -> Option<u64> {
        let Ok(passed) = self.start?.elapsed(self.rt) else {
            return None;
        };
        u64::try_from(passed.as_millis()).ok()
    }
}
