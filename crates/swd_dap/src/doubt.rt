//! How many accesses a packet may have made that has no usable reply.
ghost use Rattle.std.specs.Prelude.{◌≡◌, ◌≤◌, length};
ghost use Rattle.swd_dap.specs.Doubts.{dap_drws};

use crate::transfer::Transfer;

/// Returns how many of these requests are for DRW.
pub(crate) fn drws(requests: &[Transfer]) -> usize
    ensures drws { result ≡ dap_drws requests.now }
    ensures bound { result ≤ length requests.now }
{
    let mut count = 0;
    for request in requests {
        if request.is_drw() {
            count += 1;
        }
    }
    count
}
