//! The accesses of a list as integers.
ghost use Rattle.std.specs.Prelude.{◌≡◌};
ghost use Rattle.swd_c.specs.Accesses.{c_api_access, c_api_access_at_index};

use swd_port::Access;

/// An access: a read of the word at an address, or a write of a word there.
#[repr(C)]
#[derive(Clone, Copy, Debug, PartialEq, Eq)]
pub struct SwdAccess {
    /// The address in bytes.
    pub addr: u32,
    /// The word to write.
    pub word: u32,
    /// 0 for a read, any other value for a write.
    pub write: u8,
}

fn access_of(access: SwdAccess) -> Access
    ensures { result ≡ c_api_access access }
{
    if access.write == 0 {
        Access::Read(access.addr)
    } else {
        Access::Write(access.addr, access.word)
    }
}

pub(crate) fn access_at(accesses: &[SwdAccess], index: usize) -> Option<Access>
    ensures { result ≡ c_api_access_at_index accesses.now index }
{
    match accesses.get(index) {
        Some(access) => Some(access_of(*access)),
        None => None,
    }
}
