//! What stands behind the access port of a script's simulated target.
ghost use Rattle.std.specs.Prelude.{◌≡◌, IfSome};
ghost use Rattle.swd_script.specs.Laws.{IsScriptRunnable};
ghost use Rattle.swd_script.specs.Readers.{read_script_meaning};
ghost use Rattle.swd_run.specs.ScriptDevices.{script_bus, script_device_bus, script_memory};

use std::alloc::Allocator;
use swd_devices::{Core, CoreTarget, LoggedCore};
use swd_port::{Access, Transfer};
use swd_script::Script;
use swd_target::{Device, MakeFault, Memory};

// How many reads of DHCSR a core register takes to be moved.
const WORK: u32 = 0;

/// A device that keeps its log.
pub trait KeepsLog: Device {
    /// Returns the transfers that succeeded, the oldest first.
    fn log(&self) -> &[Transfer]
        ensures { result.now ≡ (Self.Device.bus self.now).log };
}

impl<A: Allocator> KeepsLog for Memory<A> {
    fn log(&self) -> &[Transfer] {
        Memory::log(self)
    }
}

/// What stands behind the access port of a script's simulated target.
#[derive(Debug, Drop)]
pub enum ScriptDevice<A: Allocator> {
    /// A memory.
    Memory(Memory<A>),
    /// A memory with a core beside it.
    Core(LoggedCore<A>),
}

impl<A: Allocator> Device for ScriptDevice<A> {
    ghost bus = { script_device_bus };

    #[inline(always)]
    fn read(&mut self, addr: u32) -> Option<u32> {
        match self {
            ScriptDevice::Memory(memory) => memory.read(addr),
            ScriptDevice::Core(core) => core.read(addr),
        }
    }

    #[inline(always)]
    fn write(&mut self, addr: u32, word: u32) -> bool {
        match self {
            ScriptDevice::Memory(memory) => memory.write(addr, word),
            ScriptDevice::Core(core) => core.write(addr, word),
        }
    }

    fn would_succeed(&self, access: Access) -> bool {
        match self {
            ScriptDevice::Memory(memory) => memory.would_succeed(access),
            ScriptDevice::Core(core) => core.would_succeed(access),
        }
    }
}

impl<A: Allocator> KeepsLog for ScriptDevice<A> {
    fn log(&self) -> &[Transfer] {
        match self {
            ScriptDevice::Memory(memory) => memory.log(),
            ScriptDevice::Core(core) => core.log(),
        }
    }
}

// Returns the memory that a script describes: its words, all zero, and the capacity of its log. Returns `None` if out
// of memory.
fn zero_memory<A: Allocator + Copy>(alloc: A, script: &Script<A>) -> Option<Memory<A>>
    requires { IsScriptRunnable (read_script_meaning script.now) }
    ensures { IfSome result (λ memory. memory ≡ script_memory (read_script_meaning script.now)) }
{
    match Memory::new(alloc, script.base, script.words, script.room) {
        Ok(memory) => Some(memory),
        Err(MakeFault::Memory) => None,
        Err(_) => unreachable!(),
    }
}

/// Returns the device that a script describes: a memory whose words are all zero, and if there is a line `core` a core
/// beside it that runs and wasn't reset yet. Its log has the script's capacity. Returns `None` if out of memory.
pub fn device_of<A: Allocator + Copy>(alloc: A, script: &Script<A>) -> Option<ScriptDevice<A>>
    requires { IsScriptRunnable (read_script_meaning script.now) }
    ensures { IfSome result (λ device. script_device_bus device ≡ script_bus (read_script_meaning script.now)) }
{
    let memory = zero_memory(alloc, script)?;
    let Some(table) = script.core else {
        return Some(ScriptDevice::Memory(memory));
    };
    let target = CoreTarget::new(memory, Core::new(WORK), table);
    let logged = LoggedCore::new(alloc, target, script.room)?;
    Some(ScriptDevice::Core(logged))
}
