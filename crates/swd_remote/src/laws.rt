//! Laws of whole runs. The functions do nothing: their contracts are the laws.
ghost use Rattle.swd_remote.specs.Runs.{RemoteRunsExactly, RemoteQuitsExactly};

use std::io::{Read, Write};

/// States what any number of successive calls over remote_bitbang characters does. Up to the first error,
/// exactly their characters are queued, in order, and exactly the levels that they ask for are read. After a
/// successful `quit` exactly these characters and `Q` were sent.
pub fn runs_exactly<R: Read, W: Write>()
    ensures runs { RemoteRunsExactly R.remaining W.contents }
    ensures quits { RemoteQuitsExactly R.remaining W.contents }
{}
