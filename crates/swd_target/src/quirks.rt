//! The choices of a simulated target where the standard leaves one.

/// The choices of a simulated target.
#[derive(Clone, Copy, Debug, PartialEq, Eq)]
pub struct Quirks {
    /// Whether TAR wraps inside its kilobyte of addresses when a transfer increments it past the end; otherwise it
    /// carries.
    pub wrap: bool,
    /// Whether a DRW transfer takes effect as late as the model allows: at the next OK or FAULT to a request that may
    /// get WAIT. Otherwise it takes effect once it is accepted.
    pub late: bool,
    /// The word that a read returns whose value is unknown.
    pub filler: u32,
    /// IDR of the access port, at address c of its bank f, by which debuggers find it. With an IDR, BASE at address 8
    /// of that bank is ffffffff: there is no ROM table. Otherwise both read 0.
    pub idr: Option<u32>,
}
