//! The requests that a host sends: the opening, an access, and what follows an error.
ghost use Rattle.std.specs.Prelude.{◌≡◌};
ghost use Rattle.swd_host.specs.Requests.{engine_register_at, engine_register_for, engine_request_for, engine_word_for};
ghost use Rattle.swd_host.specs.Requests.{engine_next_place, engine_confirmed, engine_repeat_place};
ghost use Rattle.swd_host.specs.Requests.{engine_reread_job, engine_job_is_exempt, engine_job_starts};

use crate::flags::Flags;
use crate::task::{Bursts, Task};
use swd_bits::Request;
use swd_port::{Abort, Csw, CtrlStat, Register, Select};

// SELECT for access port 0 and the banks 0.
const FIRST_ACCESS_PORT: Select = Select {
    apsel: 0,
    apbanksel: 0,
    dpbanksel: 0,
};

// CSW for transfers of words, each of which increments TAR.
const WORD_TRANSFERS: Csw = Csw {
    size: 2,
    addr_inc: 1,
    device_en: false,
    tr_in_prog: false,
    upper: 0x23,
};

// Returns the word of ABORT that clears all sticky flags.
fn clear_all() -> u32
    ensures { result ≡ 0x0000_001e }
{
    Abort::STKCMPCLR.bits()
        + Abort::STKERRCLR.bits()
        + Abort::WDERRCLR.bits()
        + Abort::ORUNERRCLR.bits()
}

// Returns the word of CTRL/STAT that requests debug power and system power.
fn power_up() -> u32
    ensures { result ≡ 0x5000_0000 }
{
    CtrlStat::CDBGPWRUPREQ.bits() + CtrlStat::CSYSPWRUPREQ.bits()
}

/// A place in one of the two sequences of a host: the opening, and an access.
#[derive(Clone, Copy, PartialEq, Eq)]
pub(crate) enum HostStep {
    /// DPIDR is read: it wakes the target.
    Identify,
    /// ABORT is written, to clear the flags that an earlier host left.
    WriteAbort,
    /// CTRL/STAT is read, to check that no flag is left.
    CheckCtrlStat,
    /// SELECT is written: access port 0, bank 0.
    Select,
    /// CTRL/STAT is written, to request power.
    Power,
    /// CTRL/STAT is read, to check that power is acknowledged.
    Powered,
    /// CSW is written, for the word size and increments of TAR.
    Configure,
    /// CSW is read, posted.
    ReadCsw,
    /// RDBUFF is read, to check that CSW is configured.
    Configured,
    /// TAR is written.
    WriteTar,
    /// DRW is read or written.
    Transfer,
    /// The request that confirms the access: RDBUFF is read, or DRW is read or written for the next access of a burst.
    Confirm,
    /// RESEND is read, for the word of a read of a block after the next one was a bus error and its flag was cleared.
    Behind,
}

/// A request that the engine sends, with its reason.
#[derive(Clone, Copy, PartialEq, Eq)]
pub(crate) enum Job {
    /// The request at a place.
    At(HostStep),
    /// RESEND is read, since the word at this place had wrong parity.
    Resend(HostStep),
    /// CTRL/STAT is read, since the request at this place was answered FAULT.
    Status(HostStep),
    /// CTRL/STAT is read, since RESEND was answered FAULT.
    LastStatus,
    /// ABORT is written, to clear these flags, for which the request at this place was answered FAULT.
    Clear(HostStep, Flags),
    /// CTRL/STAT is read after that.
    Check(HostStep, Flags),
}

impl HostStep {
    // Returns the register of the request at this place, for SELECT 0.
    fn register(self, task: Task) -> Register
        ensures { result ≡ engine_register_at self task }
    {
        match self {
            HostStep::Identify => Register::DpidrRead,
            HostStep::WriteAbort => Register::AbortWrite,
            HostStep::CheckCtrlStat | HostStep::Powered => Register::CtrlStatRead,
            HostStep::Select => Register::SelectWrite,
            HostStep::Power => Register::CtrlStatWrite,
            HostStep::Configure => Register::CswWrite,
            HostStep::ReadCsw => Register::CswRead,
            HostStep::Configured => Register::RdbuffRead,
            HostStep::WriteTar => Register::TarWrite,
            HostStep::Transfer => task.drw(),
            HostStep::Confirm => {
                if task.is_burst() {
                    task.drw()
                } else {
                    Register::RdbuffRead
                }
            }
            HostStep::Behind => Register::ResendRead,
        }
    }

    // Returns the word that is written here, if one is.
    fn word(self, task: Task) -> Option<u32>
        ensures { result ≡ engine_word_for (Job.At self) task }
    {
        match self {
            HostStep::WriteAbort => Some(clear_all()),
            HostStep::Select => Some(FIRST_ACCESS_PORT.bits()),
            HostStep::Power => Some(power_up()),
            HostStep::Configure => Some(WORD_TRANSFERS.bits()),
            HostStep::WriteTar => Some(task.address()),
            HostStep::Transfer => match task {
                Task::Read(_) | Task::BurstRead(_) => None,
                Task::Write(_, word) | Task::BurstWrite(_, word) => Some(word),
            },
            _ => None,
        }
    }

    // Returns the next place where no error occurs.
    pub(crate) fn next(self) -> HostStep
        ensures { result ≡ engine_next_place self }
    {
        match self {
            HostStep::Identify => HostStep::WriteAbort,
            HostStep::WriteAbort => HostStep::CheckCtrlStat,
            HostStep::CheckCtrlStat => HostStep::Select,
            HostStep::Select => HostStep::Power,
            HostStep::Power => HostStep::Powered,
            HostStep::Powered => HostStep::Configure,
            HostStep::Configure => HostStep::ReadCsw,
            HostStep::ReadCsw | HostStep::Configured => HostStep::Configured,
            HostStep::WriteTar => HostStep::Transfer,
            HostStep::Transfer | HostStep::Confirm => HostStep::Confirm,
            HostStep::Behind => HostStep::Behind,
        }
    }

    // Returns the request that reads the word of this place again after wrong parity. It is RESEND for RDBUFF, or for
    // DRW in a block, since reading these again would return another value.
    pub(crate) fn again(self) -> Job
        ensures { result ≡ engine_reread_job self }
    {
        match self {
            HostStep::Configured | HostStep::Confirm => Job::Resend(self),
            _ => Job::At(self),
        }
    }

    // Returns the write that the request here confirms: if that write's data was corrupted, this request is answered
    // FAULT. `aims`: TAR was written for the access.
    pub(crate) fn confirms(self, task: Task, aims: bool) -> Option<HostStep>
        ensures { result ≡ engine_confirmed self task aims }
    {
        match self {
            HostStep::CheckCtrlStat => Some(HostStep::WriteAbort),
            HostStep::Power => Some(HostStep::Select),
            HostStep::Powered => Some(HostStep::Power),
            HostStep::ReadCsw => Some(HostStep::Configure),
            HostStep::Transfer => { if aims { Some(HostStep::WriteTar) } else { None } }
            HostStep::Confirm => match task {
                Task::Read(_) | Task::BurstRead(_) => None,
                _ => Some(HostStep::Transfer),
            },
            _ => None,
        }
    }

    // Returns the place to continue from once WDATAERR is cleared: the write that the request here confirms; else the
    // place itself. Where each write is confirmed by itself, TAR is written again before DRW: a debug port with a write
    // buffer may have discarded TAR's write (IHI 0031, B4).
    pub(crate) fn repeats(self, task: Task, aims: bool, bursts: Bursts) -> HostStep
        ensures { result ≡ engine_repeat_place self task aims bursts }
    {
        match (self, bursts) {
            (HostStep::Confirm, Bursts::Never) if aims => HostStep::WriteTar,
            _ => self.confirms(task, aims).unwrap_or(self),
        }
    }
}

impl Job {
    // Returns the register of the request, for the current access.
    fn register(self, task: Task) -> Register
        ensures { result ≡ engine_register_for self task }
    {
        match self {
            Job::At(place) => place.register(task),
            Job::Resend(_) => Register::ResendRead,
            Job::Clear(_, _) => Register::AbortWrite,
            Job::Status(_) | Job::LastStatus | Job::Check(_, _) => Register::CtrlStatRead,
        }
    }

    // Returns the request, for the current access.
    pub(crate) fn request(self, task: Task) -> Request
        ensures { result ≡ engine_request_for self task }
    {
        self.register(task).request()
    }

    // Returns the word that is written, if the request is a write whose word the engine has.
    pub(crate) fn word(self, task: Task) -> Option<u32>
        ensures { result ≡ engine_word_for self task }
    {
        match self {
            Job::At(place) => place.word(task),
            Job::Clear(_, owed) => Some(owed.clearing()),
            _ => None,
        }
    }

    // Returns how many unanswered accesses, at least, are in flight once it is sent. DRW starts the current access; in
    // a block the request that confirms it starts the next one.
    pub(crate) fn begins(self, task: Task) -> u8
        ensures { result ≡ engine_job_starts self task }
    {
        match self {
            Job::At(HostStep::Transfer) => 1,
            Job::At(HostStep::Confirm) if task.is_block() => 2,
            _ => 0,
        }
    }

    // Returns whether the request is never answered WAIT or FAULT.
    pub(crate) fn is_exempt(self) -> bool
        ensures { result ≡ engine_job_is_exempt self }
    {
        match self {
            Job::At(place) => matches!(
                place,
                HostStep::Identify
                    | HostStep::WriteAbort
                    | HostStep::CheckCtrlStat
                    | HostStep::Powered
            ),
            Job::Resend(_) => false,
            _ => true,
        }
    }
}
