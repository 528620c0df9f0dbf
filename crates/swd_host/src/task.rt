//! The current access, and how it is confirmed.
ghost use Rattle.std.specs.Prelude.{◌≡◌};
ghost use Rattle.swd_port.specs.PlainMemory.{plain_address};
ghost use Rattle.swd_host.specs.Addresses.{burst_next_address, continues_burst};
ghost use Rattle.swd_host.specs.Requests.{task_drw_register};
ghost use Rattle.swd_host.specs.Tasks.{resumed_bursts};

use swd_port::{Access, Register};

/// The kind of accesses that an engine performs in bursts. In a burst the DRW request of an access confirms the one
/// before. Any other access is confirmed by a read of RDBUFF.
#[derive(Clone, Copy, Debug, PartialEq, Eq)]
pub enum Bursts {
    /// None. A debug port with a write buffer may answer the next DRW write OK before it has made this one, and discard
    /// it later (IHI 0031, B4); it answers RDBUFF once it has made it. So no write of an access port is asked while a
    /// DRW write is unconfirmed (`HostConfirms`). After corrupted data of DRW, TAR is written again too, where it was
    /// written for this access: an event takes at most six further requests, with the other kinds five.
    Never,
    /// Writes.
    Writes,
    /// Reads, as in a block.
    Reads,
}

impl Bursts {
    // Returns the kind with which a run of this kind is resumed: a block's reads are then confirmed one by one.
    pub(crate) fn resumed(self) -> Bursts
        ensures { result ≡ resumed_bursts self }
    {
        match self {
            Bursts::Writes => Bursts::Writes,
            Bursts::Never | Bursts::Reads => Bursts::Never,
        }
    }
}

/// The current access, with the request that confirms it.
#[derive(Clone, Copy, PartialEq, Eq)]
pub(crate) enum Task {
    /// A read at this address: RDBUFF confirms it, and returns its word.
    Read(u32),
    /// A read at this address that the next access continues: the DRW read of that one returns the word of this one.
    BurstRead(u32),
    /// A write of this word at this address: RDBUFF confirms it.
    Write(u32, u32),
    /// A write of this word at this address that the next access continues: the DRW write of that one confirms this
    /// one.
    BurstWrite(u32, u32),
}

impl Task {
    ghost use Rattle.swd_host.specs.Tasks.{task_for, access_of_task, task_is_read, is_burst, task_is_block};

    // Returns the task of an access, from the access that follows it.
    pub(crate) fn new(bursts: Bursts, access: Access, following: Option<Access>) -> Task
        ensures { result ≡ task_for bursts access following }
    {
        let on = continues(access, following);
        let reads = on && matches!(&bursts, Bursts::Reads);
        let writes = on && matches!(&bursts, Bursts::Writes);
        match access {
            Access::Read(addr) if reads => Task::BurstRead(addr),
            Access::Read(addr) => Task::Read(addr),
            Access::Write(addr, word) if writes => Task::BurstWrite(addr, word),
            Access::Write(addr, word) => Task::Write(addr, word),
        }
    }

    pub(crate) fn address(self) -> u32
        ensures { result ≡ plain_address (access_of_task self) }
    {
        match self {
            Task::Read(addr)
            | Task::BurstRead(addr)
            | Task::Write(addr, _)
            | Task::BurstWrite(addr, _) => addr,
        }
    }

    pub(crate) fn is_read(self) -> bool
        ensures { result ≡ task_is_read self }
    {
        matches!(&self, Task::Read(_) | Task::BurstRead(_))
    }

    // Returns DRW, in the direction of the access.
    pub(crate) fn drw(self) -> Register
        ensures { result ≡ task_drw_register self }
    {
        if self.is_read() {
            Register::DrwRead
        } else {
            Register::DrwWrite
        }
    }

    // Returns whether the DRW request of the next access confirms it.
    pub(crate) fn is_burst(self) -> bool
        ensures { result ≡ is_burst self }
    {
        matches!(&self, Task::BurstRead(_) | Task::BurstWrite(_, _))
    }

    // Returns whether it is a read whose word the DRW read of the next access returns.
    pub(crate) fn is_block(self) -> bool
        ensures { result ≡ task_is_block self }
    {
        matches!(&self, Task::BurstRead(_))
    }
}

// Returns the address of an access.
pub(crate) fn address_of(access: Access) -> u32
    ensures { result ≡ plain_address access }
{
    match access {
        Access::Read(addr) | Access::Write(addr, _) => addr,
    }
}

// Returns whether the following access continues this one: the same direction, at the next address in the same
// kilobyte.
pub(crate) fn continues(access: Access, following: Option<Access>) -> bool
    ensures { result ≡ continues_burst access following }
{
    match (access, following) {
        (Access::Read(addr), Some(Access::Read(next)))
        | (Access::Write(addr, _), Some(Access::Write(next, _))) => {
            next_in_kilobyte(addr) == Some(next)
        }
        _ => false,
    }
}

// Returns the address after this one, or `None` where it starts another kilobyte: there TAR may wrap, or carry.
pub(crate) fn next_in_kilobyte(addr: u32) -> Option<u32>
    ensures { result ≡ burst_next_address addr }
{
    if addr % 1024 >= 1020 {
        None
    } else {
        Some(addr + 4)
    }
}
