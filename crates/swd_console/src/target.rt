//! What is done at the target behind a line.
ghost use Rattle.std.specs.Prelude.{List};
ghost use Rattle.swd_port.specs.declared.call.Call.{Call};
ghost use Rattle.swd_conform.specs.Sessions.{GoesOverChecked};
ghost use Rattle.swd_console.specs.Connections.{command_way};

use crate::probe::way_of;
use std::alloc::Allocator;
use std::io::{Read, Write};
use swd_check::Checked;
use swd_command_line::ProbeLine;
use swd_conform::over_checked_line;
use swd_port::Story;
use swd_remote::{Line, LineJob, RemoteStreams};

/// Does a job at the target to which these streams lead, the reader first: at one behind this probe, or behind a server
/// of remote_bitbang without one. Returns the answer, the connection, which has the error that ended it and how far the
/// opening of the target came, and with `check` the verdict on the session.
pub fn at_the_target<P: Story, J: LineJob, R: Read, W: Write, A: Allocator + Copy>(
    alloc: A,
    job: &mut J,
    probe: Option<ProbeLine>,
    check: bool,
    ends: (R, W),
) -> (J::Answer, RemoteStreams<R, W>, Option<Checked>)
    ensures { (calls : List Call) × J.came P.at job.old job.new result.0 calls
        × ∥ GoesOverChecked check (command_way probe) R.remaining W.contents (W.contents ends.1) (R.remaining ends.0)
        result.1 calls result.2 ∥₁ }
{
    let (reader, writer) = ends;
    let way = way_of(probe);
    over_checked_line::<P, J, R, W, A>(
        alloc,
        check,
        job,
        Line {
            reader,
            writer,
            way,
        },
    )
}
