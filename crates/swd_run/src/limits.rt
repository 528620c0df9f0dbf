//! How the calls of a script or an image are made, and what they may meet.

/// How each call is made, and what it may meet before it ends early.
#[derive(Clone, Copy, Debug, PartialEq, Eq)]
pub struct Limits {
    /// The number of events that the opening, and each access, may meet.
    pub tries: u32,
    /// How often the call is resumed at most, each time after a lost acknowledgement.
    pub resumes: u32,
    /// Whether writes next to each other are sent in a burst, each confirmed by the request of the next one. Otherwise
    /// a read of RDBUFF confirms each: one request more for a write, as a debug port with a write buffer needs it.
    pub bursts: bool,
}
