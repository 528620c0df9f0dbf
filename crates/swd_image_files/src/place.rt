//! Where a file of records has led.
ghost use Rattle.std.specs.Prelude.{◌≡◌, ◌+◌, ◌<◌, ◌≤◌, ◌^◌, length};
ghost use Rattle.swd_image_files.specs.Places.{image_file_data_fits as fits_in, image_file_wrap_room as room_in};
ghost use Rattle.swd_image_files.specs.Places.{image_file_start as start_in};
ghost use Rattle.swd_image_files.specs.Records.{image_file_record_field as field_in};

/// Where a file of records has led.
#[derive(Clone, Copy)]
pub(crate) struct RecordState {
    // What is added to each address.
    pub(crate) offset: u32,
    // The base of the addresses, and whether they wrap within its 64 KiB.
    pub(crate) base: u32,
    pub(crate) wraps: bool,
    // The number of data records so far, at most 2^64 - 1.
    pub(crate) records: u64,
    // Whether an end record came.
    pub(crate) ended: bool,
}

/// Returns the place before the first line.
pub(crate) fn start(offset: u32) -> RecordState
    ensures { result ≡ start_in offset }
{
    RecordState {
        offset,
        base: 0,
        wraps: false,
        records: 0,
        ended: false,
    }
}

/// Returns the data of a record: its bytes from `from` to its checksum.
pub(crate) fn field(bytes: &[u8], from: usize) -> &[u8]
    requires { from + 1 ≤ length bytes.now }
    ensures { result.now ≡ field_in bytes.now from }
{
    let end = bytes.len() - 1;
    &bytes[from..end]
}

/// Returns how many of `len` bytes come before the addresses wrap.
pub(crate) fn room(place: RecordState, addr: u32, len: usize) -> usize
    ensures value { result ≡ room_in place addr len }
    ensures within { result ≤ len }
{
    if place.wraps {
        65536usize.saturating_sub(addr as usize).min(len)
    } else {
        len
    }
}

/// Returns whether `len` bytes at an address, if any, lie below 2^32.
pub(crate) fn fits(at: u64, len: usize) -> bool
    requires { at < 2 ^ 34 }
    ensures { result ≡ fits_in at len }
{
    len == 0 || at <= 0x1_0000_0000 && len as u64 <= 0x1_0000_0000 - at
}
