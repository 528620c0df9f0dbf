//! The target behind a wire: a debug port with one memory access port.
ghost use Rattle.std.specs.Prelude.{◌≡◌, ◌&&◌, ◌||◌, not, true, false, if◌then◌else◌};
ghost use Rattle.swd_port.specs.Made.{port_made_target};
ghost use Rattle.swd_port.specs.PlainBus.{bus_of};
ghost use Rattle.swd_port.specs.declared.state.Reset.TheVariants.{Fresh};
ghost use Rattle.swd_bits.specs.declared.request.Reg4.{Reg4 as Address};
ghost use Rattle.swd_bits.specs.declared.request.Reg4.TheVariants.{R4};
ghost use Rattle.swd_port.specs.declared.register.Register.TheVariants.{ApOtherRead, CswRead, CtrlStatRead};
ghost use Rattle.swd_port.specs.Answers.{port_is_answered};
ghost use Rattle.swd_port.specs.declared.state.Reply.TheVariants.{Okay, Waits};
ghost use Rattle.swd_port.specs.Asking.{IsPendingSettled, port_has_power, power_up_after, debug_up_after};
ghost use Rattle.swd_port.specs.Asking.{ctrl_stat_word_in, port_after_wait, port_value_in};
ghost use Rattle.swd_port.specs.Registers.{csw_read};
ghost use Rattle.swd_port.specs.Moving.{Arrives, Damaged};
ghost use Rattle.std.specs.Option.{option_and_then};
ghost use Rattle.swd_port.specs.Completion.{pending_fails, port_tar_next_address};
ghost use Rattle.swd_target.specs.Contents.{target_known_word};
ghost use Rattle.swd_target.specs.Simulations.{simulation_made_with, simulation_accepted, simulation_choice_at};
ghost use Rattle.swd_target.specs.Simulations.{selects_simulated_idr, simulated_elsewhere, simulated_idr_bank};
ghost use Rattle.swd_target.specs.Simulations.{simulated_next_address, simulated_others, simulated_system_late};

use crate::content::Content;
use crate::device::Device;
use crate::memory::Memory;
use crate::quirks::Quirks;
use bitflags::Flags;
use std::alloc::Allocator;
use std::fmt::{self, Debug, Formatter};
use swd_bits::{Reg4, Request};
use swd_port::{Abort, Access, Csw, CtrlStat, Drw, Mark, PowerUp, Register, Reply, Reset, Select};

// The word that DPIDR reads.
const IDENTIFICATION: u32 = 0x2ba0_1477;

// The word that BASE reads where there is no ROM table.
const NO_ROM_TABLE: u32 = 0xffff_ffff;

/// A debug port and its access port with a [`Device`] behind it, behind any wire. Its quirks make the choices that the
/// standard leaves to a target. A register that the port model has unknown keeps a word.
#[derive(Drop)]
pub struct Target<D> {
    pub(crate) quirks: Quirks,
    pub(crate) reset: Reset,
    pub(crate) sticky_error: bool,
    pub(crate) write_error: bool,
    pub(crate) read_ok: bool,
    pub(crate) debug_power: bool,
    pub(crate) system_power: bool,
    pub(crate) debug_up: PowerUp,
    pub(crate) system_up: PowerUp,
    pub(crate) select: Select,
    pub(crate) increments: bool,
    pub(crate) csw_upper: u8,
    pub(crate) tar: Content,
    pub(crate) buffer: Content,
    pub(crate) last_returned: Content,
    pub(crate) pending: Option<Drw>,
    pub(crate) device: D,
}

/// Writes the state as integers, which [`Target::fields`] returns, with IDR and the device.
impl<D: Debug> Debug for Target<D> {
    fn fmt<W: fmt::Write>(&self, f: &mut Formatter<W>) -> fmt::Result {
        f.debug_struct("Target")
            .field("fields", &self.fields())
            .field("idr", &self.quirks.idr)
            .field("device", &self.device)
            .finish()
    }
}

impl<D: Device> Target<D> {
    ghost use Rattle.swd_target.specs.Targets.{target_state, target_simulation, target_choice_at, target_answer_at};
    ghost use Rattle.swd_target.specs.Targets.{TargetAdvances, TargetCompletes, TargetReplies, TargetWrites};
    ghost use Rattle.swd_target.specs.Targets.{target_reply_when, target_settled_when};
    ghost use Rattle.swd_target.specs.Targets.{TargetSteps, target_flags_cleared};
    ghost use Rattle.swd_target.specs.Targets.{target_power_set, target_line_reset};
    ghost use Rattle.swd_target.specs.Requests.{TargetTransfers};
    ghost use Rattle.swd_target.specs.Elsewhere.{IsTargetReady, TargetStays};

    /// Creates a target before its first line reset, with this device behind its access port. DPIDR reads 2ba01477.
    pub fn new(device: D, quirks: Quirks) -> Target<D>
        ensures state { target_state D.bus result ≡ port_made_target 0x2ba0_1477 (D.bus device) }
        ensures exact { target_simulation D.bus result ≡ simulation_made_with quirks (D.bus device) }
        ensures device { result.device ≡ device }
    {
        Target {
            quirks,
            reset: Reset::Unreset,
            sticky_error: false,
            write_error: false,
            read_ok: false,
            debug_power: false,
            system_power: false,
            debug_up: PowerUp::Unseen,
            system_up: PowerUp::Unseen,
            select: Select {
                apsel: 0,
                apbanksel: 0,
                dpbanksel: 0,
            },
            increments: false,
            csw_upper: 0,
            tar: Content::known(0),
            buffer: Content::unknown(quirks.filler),
            last_returned: Content::unknown(quirks.filler),
            pending: None,
            device,
        }
    }

    /// Returns the device behind the access port.
    pub fn device(&self) -> &D
        ensures bus { (target_state D.bus self.now).memory ≡ D.bus result.now }
        ensures device { result.now ≡ self.now.device }
    {
        &self.device
    }

    /// Consumes the target, and returns the device behind the access port.
    pub fn into_device(self) -> D
        ensures bus { (target_state D.bus self).memory ≡ D.bus result }
        ensures device { result ≡ self.device }
    {
        self.device
    }

    /// Completes the pending DRW transfer, if any.
    #[inline(always)]
    pub fn complete(&mut self)
        ensures { TargetCompletes D.bus self.old self.new }
    {
        match self.pending {
            Some(Drw::Reads) => self.complete_read(),
            Some(Drw::Writes(word)) => self.complete_write(word),
            None => {}
        }
    }

    fn complete_read(&mut self)
        requires { self.old.pending ≡ Some Drw.Reads }
        ensures { TargetCompletes D.bus self.old self.new }
    {
        self.pending = None;
        match self.device.read(self.tar.word) {
            Some(word) => {
                self.buffer = Content::known(word);
                self.step_address();
            }
            None => self.bus_error(),
        }
    }

    fn complete_write(&mut self, word: u32)
        requires { self.old.pending ≡ Some (Drw.Writes word) }
        ensures { TargetCompletes D.bus self.old self.new }
    {
        self.pending = None;
        if self.device.write(self.tar.word, word) {
            self.step_address();
        } else {
            self.bus_error();
        }
    }

    // Increments TAR after a transfer that succeeded.
    fn step_address(&mut self)
        ensures { TargetAdvances D.bus self.old self.new }
    {
        if !self.increments {
            return;
        }
        // Inside a kilobyte, as nearly always, the quirk makes no difference, and what is known stays known.
        let addr = self.tar.word;
        if addr % 1024 < 1020 {
            self.tar.word = addr + 4;
        } else {
            self.tar = self.next_tar();
        }
    }

    // Returns the incremented TAR, which counts as unknown past the end of a kilobyte.
    #[tactic(auto, using(crate::proofs::TargetLemmas::target_tar_advances))]
    fn next_tar(&self) -> Content
        ensures word { result.word ≡ simulated_next_address self.now.quirks.wrap self.now.tar.word }
        ensures known { target_known_word result
            ≡ option_and_then port_tar_next_address (target_known_word self.now.tar) }
    {
        let addr = self.tar.word;
        let next = if self.quirks.wrap {
            addr / 1024 * 1024 + (addr % 1024 + 4) % 1024
        } else {
            addr.wrapping_add(4)
        };
        Content {
            word: next,
            known: self.tar.known && addr % 1024 < 1020,
        }
    }

    // Returns the answer to a request for which no WAIT is asked.
    fn answer(&self, register: Register, ap: bool) -> Reply
        ensures { result ≡ target_answer_at register ap (target_state D.bus self.now) }
    {
        if !self.is_answering(register) {
            Reply::Silent
        } else if register.is_exempt() {
            Reply::Okay
        } else if self.sticky_error || self.write_error || (ap && !self.has_power()) {
            Reply::Faults
        } else {
            Reply::Okay
        }
    }

    // Returns whether debug power is on.
    fn has_power(&self) -> bool
        ensures { result ≡ port_has_power (target_state D.bus self.now) }
    {
        self.debug_power && !matches!(&self.debug_up, PowerUp::Late)
    }

    fn is_answering(&self, register: Register) -> bool
        ensures { result ≡ port_is_answered self.now.reset register }
    {
        match self.reset {
            Reset::Unreset => false,
            Reset::Fresh => matches!(&register, Register::DpidrRead),
            Reset::Live => true,
        }
    }

    // Returns the reply to a request in the current state; `waits` asks for WAIT.
    fn reply_now(&self, waits: bool, register: Register, ap: bool) -> Reply
        ensures { result
            ≡ target_reply_when waits register (target_answer_at register ap (target_state D.bus self.now)) }
    {
        let answer = self.answer(register, ap);
        match answer {
            Reply::Okay if waits && !register.is_exempt() => Reply::Waits,
            _ => answer,
        }
    }

    // Settles the pending transfer if necessary, and returns the reply to a request; `waits` asks for WAIT.
    #[inline(always)]
    pub(crate) fn reply(&mut self, waits: bool, register: Register, ap: bool) -> Reply
        ensures reply { result
            ≡ target_reply_when waits register (target_answer_at register ap (target_state D.bus self.new)) }
        ensures settles { TargetTransfers (target_state D.bus self.old) (target_state D.bus self.new) }
        ensures settled { IsPendingSettled result register self.new.pending }
        ensures select { self.new.select ≡ self.old.select }
        ensures exact { target_simulation D.bus self.new
            ≡ target_settled_when waits register ap (target_simulation D.bus self.old) }
        ensures untouched { IsTargetReady (D.bus self.old.device) self.old
            → (D.bus self.new.device).log ≡ (D.bus self.old.device).log → TargetStays D.bus self.old self.new }
        ensures rest { self.old.pending ≡ None → self.new ≡ self.old }
    {
        // Usually no transfer is pending, and testing whether it has to settle costs as much as the reply.
        if self.pending.is_some() {
            self.settle(waits, register, ap);
        }
        self.reply_now(waits, register, ap)
    }

    // Completes the pending transfer if it has to take effect before the reply.
    fn settle(&mut self, waits: bool, register: Register, ap: bool)
        ensures settles { TargetTransfers (target_state D.bus self.old) (target_state D.bus self.new) }
        ensures settled { IsPendingSettled
            (target_reply_when waits register (target_answer_at register ap (target_state D.bus self.new)))
            register self.new.pending }
        ensures select { self.new.select ≡ self.old.select }
        ensures exact { target_simulation D.bus self.new
            ≡ target_settled_when waits register ap (target_simulation D.bus self.old) }
        ensures untouched { IsTargetReady (D.bus self.old.device) self.old
            → (D.bus self.new.device).log ≡ (D.bus self.old.device).log → TargetStays D.bus self.old self.new }
    {
        if self.settles_before(waits, register, ap) {
            self.complete();
        }
    }

    // Applies the effects of a reply to the target; `waits`: WAIT was asked for.
    #[inline(always)]
    pub(crate) fn apply(&mut self, waits: bool, reply: Reply, register: Register, request: Request)
        ensures { TargetReplies D.bus waits reply register request self.old self.new }
    {
        match reply {
            Reply::Silent => {}
            Reply::Okay => self.apply_okay(waits, register, request),
            Reply::Waits => self.refuse_read(register),
            Reply::Faults => {
                self.refuse_read(register);
                if request.ap && !self.has_power() {
                    self.sticky_error = true;
                }
            }
        }
    }

    // Clears READOK where an AP read or RDBUFF read wasn't answered OK.
    fn refuse_read(&mut self, register: Register)
        ensures { TargetSteps D.bus (λ c. port_after_wait register) self.old self.new }
    {
        if register.is_posted() {
            self.read_ok = false;
        }
    }

    #[inline(always)]
    fn apply_okay(&mut self, waits: bool, register: Register, request: Request)
        ensures { TargetReplies D.bus waits Okay register request self.old self.new }
    {
        self.find_power(waits, register);
        if register.is_posted() {
            self.read_ok = true;
            self.last_returned = self.buffer;
        }
        match register {
            Register::DpidrRead => self.reset = Reset::Live,
            Register::RdbuffRead => self.buffer = self.unknown(),
            Register::CswRead => self.buffer = Content::known(self.csw()),
            Register::TarRead => self.buffer = self.tar,
            Register::ApOtherRead => self.buffer = Content::known(self.elsewhere(request.addr)),
            Register::DrwRead => self.pending = Some(Drw::Reads),
            _ => {}
        }
    }

    // Finds at an OK whether power is acknowledged. Usually both were seen before.
    #[inline(always)]
    fn find_power(&mut self, waits: bool, register: Register)
        ensures debug { self.new.debug_up ≡ debug_up_after waits register self.old.debug_up }
        ensures system { self.new.system_up ≡ power_up_after (simulated_system_late waits self.old.debug_up) register
            self.old.system_up }
        ensures rest { self.new
            ≡ record self.old { debug_up = self.new.debug_up; system_up = self.new.system_up } }
    {
        if let (PowerUp::Seen, PowerUp::Seen) = (self.debug_up, self.system_up) {
            return;
        }
        let system_up = self.system_up_after(waits, register);
        self.debug_up = self.debug_up_after(waits, register);
        self.system_up = system_up;
    }

    // Returns the word that a register of an access port reads elsewhere than at the registers of bank 0: IDR and BASE
    // of access port 0, if it has an IDR, and 0.
    fn elsewhere(&self, addr: Reg4) -> u32
        ensures { result ≡ simulated_elsewhere ApOtherRead addr self.now.select self.now.quirks.idr }
    {
        match self.quirks.idr {
            Some(idr) if self.selects_idr() => word_of_idr_bank(addr, idr),
            _ => 0,
        }
    }

    // Returns whether SELECT names the bank of access port 0 that has IDR.
    fn selects_idr(&self) -> bool
        ensures { result ≡ selects_simulated_idr self.now.select }
    {
        self.select.apsel == 0 && self.select.apbanksel == 0xf
    }

    // Returns the state of debug power after an OK. Where WAIT was asked for, CTRL/STAT finds it not acknowledged,
    // unless it was seen before. An access port that answers has it.
    fn debug_up_after(&self, waits: bool, register: Register) -> PowerUp
        ensures { result ≡ debug_up_after waits register self.now.debug_up }
    {
        match (self.debug_up, register) {
            (PowerUp::Seen, _) => PowerUp::Seen,
            (_, Register::CtrlStatRead) if waits => PowerUp::Late,
            (_, Register::CtrlStatRead) => PowerUp::Seen,
            (_, register) if register.is_access_port() => PowerUp::Seen,
            (debug_up, _) => debug_up,
        }
    }

    // Returns the state of system power after an OK. CTRL/STAT finds it not acknowledged where it finds debug power so.
    fn system_up_after(&self, waits: bool, register: Register) -> PowerUp
        ensures { result ≡ power_up_after (simulated_system_late waits self.now.debug_up) register
            self.now.system_up }
    {
        let late = waits && !matches!(&self.debug_up, PowerUp::Seen);
        match (self.system_up, register) {
            (PowerUp::Seen, _) => PowerUp::Seen,
            (_, Register::CtrlStatRead) if late => PowerUp::Late,
            (_, Register::CtrlStatRead) => PowerUp::Seen,
            (system_up, _) => system_up,
        }
    }

    // Returns the word that a read returns; `waits` asks for WAIT.
    pub(crate) fn value(&self, waits: bool, register: Register) -> u32
        ensures value { (addr : Address) → result
            ≡ port_value_in (target_choice_at waits register addr self.now) register (target_state D.bus self.now) }
        ensures exact { (addr : Address) → result
            ≡ port_value_in (simulation_choice_at waits register addr (target_simulation D.bus self.now)) register
            (target_simulation D.bus self.now).state }
    {
        match register {
            Register::DpidrRead => IDENTIFICATION,
            Register::CtrlStatRead => self.status(waits),
            Register::ResendRead => self.last_returned.word,
            Register::DpOtherRead => 0,
            _ => self.buffer.word,
        }
    }

    // Returns CTRL/STAT as it is read; `waits` asks for WAIT.
    fn status(&self, waits: bool) -> u32
        ensures { result
            ≡ ctrl_stat_word_in (target_choice_at waits CtrlStatRead R4 self.now) (target_state D.bus self.now) }
    {
        let debug_up = self.debug_up_after(waits, Register::CtrlStatRead);
        let system_up = self.system_up_after(waits, Register::CtrlStatRead);
        let debug_there = !matches!(&debug_up, PowerUp::Late);
        let system_there = !matches!(&system_up, PowerUp::Late);
        u32::from(self.sticky_error) * CtrlStat::STICKYERR.bits()
            + u32::from(self.read_ok) * CtrlStat::READOK.bits()
            + u32::from(self.write_error) * CtrlStat::WDATAERR.bits()
            + u32::from(self.debug_power) * CtrlStat::CDBGPWRUPREQ.bits()
            + u32::from(self.debug_power && debug_there) * CtrlStat::CDBGPWRUPACK.bits()
            + u32::from(self.system_power) * CtrlStat::CSYSPWRUPREQ.bits()
            + u32::from(self.system_power && system_there) * CtrlStat::CSYSPWRUPACK.bits()
    }

    // Returns CSW as it is read: word size alone, the device enabled, no transfer in progress.
    fn csw(&self) -> u32
        ensures { result ≡ csw_read self.now.increments (simulated_others CswRead self.now.csw_upper) }
    {
        let csw = Csw {
            size: 2,
            addr_inc: u8::from(self.increments),
            device_en: true,
            tr_in_prog: false,
            upper: self.csw_upper,
        };
        csw.bits()
    }

    // Performs a write whose data arrived with right parity.
    pub(crate) fn write(&mut self, register: Register, word: u32)
        ensures { TargetWrites D.bus (Arrives register word) self.old self.new }
    {
        if register.is_access_port_write() {
            self.forget_values();
        }
        match register {
            Register::AbortWrite => self.clear_flags(word),
            Register::CtrlStatWrite => self.set_power(word),
            Register::SelectWrite => self.select = Select::of(word),
            Register::CswWrite => {
                let csw = Csw::of(word);
                self.increments = csw.addr_inc == 1;
                self.csw_upper = csw.upper;
            }
            Register::TarWrite => self.tar = Content::known(word),
            Register::DrwWrite => self.pending = Some(Drw::Writes(word)),
            _ => {}
        }
    }

    // Makes the read buffer and the last returned value unknown, as an AP write does.
    fn forget_values(&mut self)
        ensures { TargetSteps D.bus (λ c s. record s { buffer = None; last_returned = None }) self.old self.new }
    {
        let unknown = self.unknown();
        self.buffer = unknown;
        self.last_returned = unknown;
    }

    // Performs a write of ABORT.
    fn clear_flags(&mut self, word: u32)
        ensures { TargetSteps D.bus (λ c. target_flags_cleared word) self.old self.new }
    {
        let abort = Abort::of(word);
        self.sticky_error &= !abort.contains(Abort::STKERRCLR);
        self.write_error &= !abort.contains(Abort::WDERRCLR);
    }

    // Performs a write of CTRL/STAT.
    fn set_power(&mut self, word: u32)
        ensures { TargetSteps D.bus (λ c. target_power_set word) self.old self.new }
    {
        let control = CtrlStat::of(word);
        self.debug_power = control.contains(CtrlStat::CDBGPWRUPREQ);
        self.system_power = control.contains(CtrlStat::CSYSPWRUPREQ);
        self.debug_up = PowerUp::Unseen;
        self.system_up = PowerUp::Unseen;
    }

    // Sets WDATAERR for a write whose data arrived with wrong parity, which isn't done.
    pub(crate) fn refuse_write(&mut self)
        ensures { TargetWrites D.bus Damaged self.old self.new }
    {
        self.write_error = true;
    }

    /// Performs a line reset, which changes no register but WDATAERR: write data that was awaited (`awaiting`) is taken
    /// from its ones, whose parity is wrong.
    pub fn line_reset(&mut self, awaiting: bool)
        ensures { TargetSteps D.bus (λ c. target_line_reset awaiting) self.old self.new }
    {
        if awaiting {
            self.write_error = true;
        }
        self.reset = Reset::Fresh;
    }
}

// The choices that the port model leaves to a target. An unknown value reads as the filler. At a bus error TAR keeps
// its address. The quirks say whether a transfer takes effect once it is accepted or as late as allowed, and whether
// TAR wraps or carries at the end of a kilobyte. WAIT is answered only where a mark asks for it, and not over a bus
// error.
impl<D: Device> Target<D> {
    ghost use Rattle.swd_target.specs.Targets.{target_state, target_simulation, TargetFails, target_settles_first};
    ghost use Rattle.swd_target.specs.Giving.{is_giving_up, is_giving_up_at, state_without_write, simulation_giving};
    ghost use Rattle.swd_target.specs.Requests.{TargetTransfers};

    // Returns the content of a register whose value is unknown.
    fn unknown(&self) -> Content
        ensures word { result.word ≡ self.now.quirks.filler }
        ensures unknown { target_known_word result ≡ None }
    {
        Content::unknown(self.quirks.filler)
    }

    // Sets STICKYERR. TAR keeps its word, but counts as unknown.
    fn bus_error(&mut self)
        ensures { TargetFails D.bus self.old self.new }
    {
        self.sticky_error = true;
        self.tar.known = false;
        self.buffer = self.unknown();
    }

    // Completes a transfer that was just accepted, unless transfers take effect late.
    #[inline(always)]
    pub(crate) fn accept(&mut self)
        ensures effect { TargetTransfers (target_state D.bus self.old) (target_state D.bus self.new) }
        ensures exact { target_simulation D.bus self.new ≡ simulation_accepted (target_simulation D.bus self.old) }
        ensures late { self.old.quirks.late ≡ true → self.new ≡ self.old }
    {
        if !self.quirks.late {
            self.complete();
        }
    }

    /// Gives up the pending write, if this request can't wait for it and the target sees it under this mark: the write
    /// reaches no bus, and WDATAERR is set. Returns whether it did.
    pub fn give_up_before(&mut self, mark: Mark, request: Request) -> bool
        ensures gave { result ≡ is_giving_up mark request (target_state D.bus self.old) }
        ensures state { target_state D.bus self.new ≡ (if result then
            state_without_write (target_state D.bus self.old) else target_state D.bus self.old) }
        ensures exact { target_simulation D.bus self.new
            ≡ simulation_giving mark request (target_simulation D.bus self.old) }
        ensures rest { self.new
            ≡ record self.old { write_error = self.new.write_error; pending = self.new.pending } }
    {
        let gives = self.is_giving_up(mark, request);
        if gives {
            self.write_error = true;
            self.pending = None;
        }
        gives
    }

    // Returns whether the pending write is given up before this request under this mark.
    fn is_giving_up(&self, mark: Mark, request: Request) -> bool
        ensures { result ≡ is_giving_up mark request (target_state D.bus self.now) }
    {
        let register = Register::named(self.select, request);
        match mark {
            Mark::Deaf => false,
            _ => self.is_giving_up_at(register),
        }
    }

    // Returns whether the pending write is given up before a request for this register, if the target sees it.
    fn is_giving_up_at(&self, register: Register) -> bool
        ensures { result ≡ is_giving_up_at register (target_state D.bus self.now) }
    {
        match self.pending {
            Some(Drw::Writes(_)) => register.is_exempt() && self.is_answering(register),
            Some(Drw::Reads) | None => false,
        }
    }

    // Returns whether the pending transfer would be a bus error.
    fn is_failing(&self) -> bool
        ensures { result ≡ pending_fails self.now.pending self.now.tar.word (D.bus self.now.device) }
    {
        match self.pending {
            Some(Drw::Reads) => !self.device.would_succeed(Access::Read(self.tar.word)),
            Some(Drw::Writes(word)) => !self
                .device
                .would_succeed(Access::Write(self.tar.word, word)),
            None => false,
        }
    }

    // Returns whether the pending transfer has to take effect before the reply: before OK or FAULT to a request that
    // may get WAIT. WAIT replaces only OK, and so not the FAULT of a bus error.
    fn settles_before(&self, waits: bool, register: Register, ap: bool) -> bool
        ensures { result ≡ target_settles_first D.bus waits register ap self.now }
    {
        if register.is_exempt() {
            return false;
        }
        match self.answer(register, ap) {
            Reply::Silent => false,
            Reply::Okay if waits => self.is_failing(),
            _ => true,
        }
    }
}

impl<A: Allocator> Target<Memory<A>> {
    ghost use Rattle.swd_target.specs.Targets.{target_state};

    /// Returns the memory behind the access port.
    pub fn memory(&self) -> &Memory<A>
        ensures bus { (target_state bus_of self.now).memory ≡ bus_of result.now }
        ensures device { result.now ≡ self.now.device }
    {
        &self.device
    }

    /// Consumes the target, and returns the memory behind the access port.
    pub fn into_memory(self) -> Memory<A>
        ensures bus { (target_state bus_of self).memory ≡ bus_of result }
        ensures device { result ≡ self.device }
    {
        self.device
    }
}

// Returns the word at an address of the bank that has IDR.
fn word_of_idr_bank(addr: Reg4, idr: u32) -> u32
    ensures { result ≡ simulated_idr_bank addr idr }
{
    match addr {
        Reg4::R8 => NO_ROM_TABLE,
        Reg4::RC => idr,
        _ => 0,
    }
}
