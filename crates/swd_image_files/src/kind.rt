//! What a record says.

/// The formats of records.
#[derive(Clone, Copy)]
pub(crate) enum RecordFormat {
    Intel,
    Motorola,
}

/// What a record says.
#[derive(Clone, Copy)]
pub(crate) enum RecordKind {
    /// Data at an address, relative to the base: the bytes of the record from `from` to its checksum.
    Data { addr: u32, from: usize },
    /// The base of the addresses that follow, and whether they wrap within its 64 KiB.
    Base { at: u32, wraps: bool },
    /// The number of data records so far.
    Count(u32),
    /// The end of the file.
    End,
    /// Nothing of the image: a header or a start address.
    Other,
}
