//! Tells the time.

/// A clock, by which lines on standard error are spaced.
pub trait Clock {
    /// Returns the milliseconds since some start, which is the same at each call, or `None` if the clock can't be read.
    /// It never decreases.
    fn millis(&self) -> Option<u64>;
}
