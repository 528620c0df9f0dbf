//! A probe's transfers as the transport of a wire.
ghost use Rattle.std.specs.Prelude.{◌≡◌, ◌≤◌, ◌<◌, true, false, [], IfErr, IfOk, OnOk, length};
ghost use Rattle.swd_dap.specs.Transfers.{IsDapBeginning};
ghost use Rattle.swd_dap.specs.Nexts.{dap_next_of, dap_next_by_clocks};

use crate::beginning::{HEAD, Plan, longest_beginning, plan_of, requests_of};
use crate::doubt::drws;
use crate::packets::{DapFault, LONGEST, Packets};
use crate::replies::{AllTold, Told, told_of};
use crate::requests::transfer_request;
use crate::sequences;
use crate::transfer::Transfer;
use swd_bits::Request;
use swd_port::{Coming, Cue, Disconnected, Pieces, Transport};

// The least size of packets.
const LEAST_SIZE: usize = 64;

// Idle cycles that the probe makes behind each transfer that is OK.
const IDLE: u32 = 8;

// How many bytes a packet has at most.
#[derive(Clone, Copy)]
struct PacketSize {
    bytes: usize,
    ghost sized: { (64 ≤ bytes) × (bytes ≤ 512) },
}

impl PacketSize {
    // Returns the least size.
    fn least() -> PacketSize {
        PacketSize { bytes: LEAST_SIZE }
    }

    // Returns how much of a burst a packet holds: writes of five bytes each, between the write of TAR and the read of
    // RDBUFF, or reads whose words have four bytes each.
    fn pieces(self) -> Pieces {
        let room = self.bytes - HEAD;
        Pieces {
            writes: (room - 1) / 5 - 1,
            reads: room / 4,
        }
    }
}

// What the last request left to come.
#[derive(Clone, Copy, Debug, PartialEq, Eq)]
enum Next {
    // Nothing.
    Nothing,
    // The data phase of a read that the probe made, of these bits.
    Read(u64),
    // The data phase of a write that the probe made, of these bits.
    Written(u64),
    // The rest of the transaction, by sequences.
    Clocks,
}

/// A probe's transfers as the transport of a wire.
///
/// Where the host announces which transactions come next, a packet makes as many of them as fit, and the probe itself
/// stops behind the first that isn't OK. The host's calls are then answered from its reply. Nothing is sent before the
/// first call, nothing twice, and nothing after an error.
#[derive(Drop)]
pub struct DapTransport<P> {
    packets: P,
    speed: u32,
    // Whether replies may be padded.
    padded: bool,
    // Whether the probe was told how to drive its pins.
    opened: bool,
    size: PacketSize,
    fault: Option<DapFault>,
    // What the host announced.
    plan: Plan,
    // The transactions that the probe made, and how many of them the host asked for.
    told: AllTold,
    asked: usize,
    next: Next,
    // Whether a read of the access port was OK whose word wasn't fetched.
    posted: bool,
    // Whether the probe made idle cycles behind the last transaction.
    idled: bool,
    // How many of the planned requests the packet has that has no usable reply.
    unanswered: usize,
}

impl<P: Packets> DapTransport<P> {
    ghost use Rattle.swd_dap.specs.Calls.{DapOpensBy, DapAsks, DapPlans, DapMakes, DapAnswers, DapAsksByClocks};
    ghost use Rattle.swd_dap.specs.Calls.{DapTakesBy, DapGivesBy, DapPassesBy, DapLeads, DapPerforms};
    ghost use Rattle.swd_dap.specs.Calls.{DapCallsAt, DapHangsUp, DapHasSent, IsFreshDap};
    ghost use Rattle.swd_dap.specs.Calls.{dap_in_doubt, dap_posted_after};

    /// Returns a transport over which nothing was sent yet. `speed` is that of the wire's clock in hertz.
    pub fn new(packets: P, speed: u32) -> DapTransport<P>
        ensures fresh { P.exchanged [] packets → IsFreshDap P.exchanged result }
        ensures speed { result.speed ≡ speed }
        ensures padded { result.padded ≡ P.pads packets }
    {
        let padded = packets.is_padded();
        DapTransport {
            packets,
            speed,
            padded,
            opened: false,
            size: PacketSize::least(),
            fault: None,
            plan: Plan::new(),
            told: AllTold::new(),
            asked: 0,
            next: Next::Nothing,
            posted: false,
            idled: false,
            unanswered: 0,
        }
    }

    /// Performs a cue, as [`Transport::step`] does.
    ///
    /// # Errors
    ///
    /// If an error came, now or before: then nothing more is sent.
    pub fn call(&mut self, cue: Cue) -> Result<u64, Disconnected>
        ensures { DapCallsAt self.old.fault result P.exchanged cue self.old self.new }
    {
        match self.fault {
            Some(_) => Err(Disconnected),
            None => match self.perform(cue) {
                Ok(seen) => Ok(seen),
                Err(fault) => {
                    self.fault = Some(fault);
                    Err(Disconnected)
                }
            },
        }
    }

    /// Takes which transactions come next, as [`Transport::announce`] does.
    pub fn foresee(&mut self, coming: &[Coming])
        ensures { self.new ≡ record self.old { plan = self.new.plan } }
    {
        if !self.has_told() {
            self.plan = plan_of(coming);
        }
    }

    /// Returns the error that ended the connection, if any.
    pub fn fault(&self) -> Option<DapFault>
        ensures { result ≡ self.now.fault }
    {
        self.fault
    }

    /// Returns how many accesses the packet may have made that has no usable reply, behind those that were begun
    /// before. 0 if there is no such packet.
    pub fn in_doubt(&self) -> usize
        ensures { result ≡ dap_in_doubt self.now }
    {
        let requests = self.plan.as_slice();
        drws(&requests[..self.unanswered.min(requests.len())])
    }

    /// Has the probe release its pins, unless nothing was sent or an error came. Returns the packets, and the error
    /// that ended the connection, if any.
    pub fn hang_up(self) -> (P, Option<DapFault>)
        ensures { DapHangsUp self.fault self.opened P.exchanged self.packets result.0 result.1 }
    {
        let DapTransport {
            mut packets,
            opened,
            mut fault,
            ..
        } = self;
        if let Some(gone) = fault {
            return (packets, Some(gone));
        }
        if opened {
            fault = sequences::perform(&mut packets, &[0x03]).err();
        }
        (packets, fault)
    }

    // Returns whether transactions were made that the host didn't ask for yet.
    fn has_told(&self) -> bool
        ensures some { result ≡ true → self.now.asked < length self.now.told.items }
        ensures none { result ≡ false → length self.now.told.items ≤ self.now.asked }
    {
        self.asked < self.told.len()
    }

    // Opens the connection, if it isn't open.
    fn open(&mut self) -> Result<(), DapFault>
        ensures { OnOk result (DapOpensBy self.old.opened P.exchanged self.old self.new) }
    {
        if self.opened {
            return Ok(());
        }
        let bytes = sequences::open(&mut self.packets, self.speed)?;
        self.size = PacketSize { bytes };
        self.opened = true;
        Ok(())
    }

    // Performs a cue, and returns what is seen.
    fn perform(&mut self, cue: Cue) -> Result<u64, DapFault>
        ensures { IfOk result (λ seen. DapPerforms P.exchanged cue seen self.old self.new) }
    {
        match cue {
            Cue::Ask(request) => {
                let seen = self.ask(request)?;
                Ok(seen)
            }
            Cue::Take => {
                let bits = self.take()?;
                Ok(bits)
            }
            Cue::Give(bits) => {
                self.give(bits)?;
                Ok(0)
            }
            Cue::Pass => {
                self.pass()?;
                Ok(0)
            }
            Cue::Lead {
                ones,
                undriven,
                switch,
                zeros,
            } => {
                self.lead(ones, undriven, switch, zeros)?;
                Ok(0)
            }
        }
    }

    // Answers a request from what was told, and has a packet made first if nothing is left of it.
    fn ask(&mut self, request: Request) -> Result<u64, DapFault>
        ensures { IfOk result (λ seen. DapAsks P.exchanged request seen self.old self.new) }
    {
        self.open()?;
        if self.has_told() {
            let seen = self.tell(request)?;
            return Ok(seen);
        }
        self.plan_begins_with(request);
        let count = longest_beginning(
            self.plan.as_slice(),
            self.size.bytes,
            self.padded,
            self.posted,
        );
        if count == 0 {
            let seen = self.ask_by_clocks(request)?;
            return Ok(seen);
        }
        self.make(count)?;
        if !self.has_told() {
            return Err(DapFault::Unplanned);
        }
        let seen = self.tell(request)?;
        Ok(seen)
    }

    // Has the probe make the first transactions of the plan.
    fn make(&mut self, count: usize) -> Result<(), DapFault>
        requires { IsDapBeginning self.old.plan.items self.old.size.bytes self.old.padded self.old.posted count }
        ensures makes { OnOk result (DapMakes P.exchanged count self.old self.new) }
        ensures doubt { IfErr result (λ fault. self.new ≡ record self.old {
          packets = self.new.packets;
          unanswered = count;
        }) }
    {
        match self.exchange(count) {
            Ok(told) => {
                self.told = told;
                self.asked = 0;
                self.plan.clear();
                Ok(())
            }
            Err(fault) => {
                self.unanswered = count;
                Err(fault)
            }
        }
    }

    // Sends the first transactions of the plan, and returns those that the reply tells.
    fn exchange(&mut self, count: usize) -> Result<AllTold, DapFault>
        requires { IsDapBeginning self.old.plan.items self.old.size.bytes self.old.padded self.old.posted count }
        ensures tells { IfOk result (λ told. DapHasSent P.exchanged count told.items self.old self.new) }
        ensures same { self.new ≡ record self.old { packets = self.new.packets } }
    {
        let transactions = &self.plan.as_slice()[..count];
        let packet = transfer_request(requests_of(transactions).as_slice());
        let mut reply = [0u8; LONGEST];
        let length = self.packets.exchange(packet.as_slice(), &mut reply)?;
        told_of(transactions, self.padded, &reply[..length])
    }

    // Drops a plan that doesn't begin with this request: then the request alone is planned.
    fn plan_begins_with(&mut self, request: Request)
        ensures { DapPlans request self.old self.new }
    {
        let begins = match self.plan.as_slice().first() {
            Some(first) => first.request == request,
            None => false,
        };
        if !begins {
            self.plan.clear();
            self.plan.push(Transfer::reading(request));
        }
    }

    // Answers a request from the next transaction that was told.
    fn tell(&mut self, request: Request) -> Result<u64, DapFault>
        requires { self.old.asked < length self.old.told.items }
        ensures { IfOk result (λ seen. DapAnswers request seen self.old self.new) }
    {
        let told = self.told.as_slice()[self.asked];
        if told.transfer.request != request {
            return Err(DapFault::Unplanned);
        }
        self.asked += 1;
        self.posted = self.posted_after(&told.transfer, told.seen);
        self.idled = told.seen == 1;
        self.next = next_of(&told);
        Ok(u64::from(told.seen))
    }

    // Makes a request by sequences.
    fn ask_by_clocks(&mut self, request: Request) -> Result<u64, DapFault>
        ensures { IfOk result (λ seen. DapAsksByClocks P.exchanged request seen self.old self.new) }
    {
        let seen = sequences::ask(&mut self.packets, request)?;
        self.plan.clear();
        self.posted = self.posted_after(&Transfer::reading(request), seen);
        self.idled = false;
        self.next = next_by_clocks(seen);
        Ok(u64::from(seen))
    }

    // Returns whether a word wasn't fetched, behind a transaction that was answered so.
    fn posted_after(&self, transfer: &Transfer, seen: u8) -> bool
        ensures { result ≡ dap_posted_after seen self.now.posted transfer.now.request }
    {
        if seen == 1 {
            transfer.leaves_posted(self.posted)
        } else {
            self.posted
        }
    }

    // Returns the data phase of a read.
    fn take(&mut self) -> Result<u64, DapFault>
        ensures { IfOk result (λ bits. DapTakesBy self.old.next P.exchanged bits self.old self.new) }
    {
        let next = self.next;
        self.next = Next::Nothing;
        match next {
            Next::Read(bits) => Ok(bits),
            Next::Clocks => {
                let bits = sequences::take(&mut self.packets)?;
                Ok(bits)
            }
            _ => Err(DapFault::Unplanned),
        }
    }

    // Sends the data phase of a write, unless the probe did.
    fn give(&mut self, bits: u64) -> Result<(), DapFault>
        ensures { OnOk result (DapGivesBy self.old.next P.exchanged bits self.old self.new) }
    {
        let next = self.next;
        self.next = Next::Nothing;
        match next {
            Next::Written(sent) if sent == bits => Ok(()),
            Next::Clocks => {
                sequences::give(&mut self.packets, bits)?;
                Ok(())
            }
            _ => Err(DapFault::Unplanned),
        }
    }

    // Passes the turnaround behind WAIT or FAULT, unless the probe did.
    fn pass(&mut self) -> Result<(), DapFault>
        ensures { OnOk result (DapPassesBy self.old.next P.exchanged self.old self.new) }
    {
        let next = self.next;
        self.next = Next::Nothing;
        match next {
            Next::Clocks => {
                sequences::release(&mut self.packets, 1)?;
                Ok(())
            }
            _ => Ok(()),
        }
    }

    // Drives a line reset or idle cycles, unless they are idle cycles that the probe made.
    fn lead(&mut self, ones: u32, undriven: u32, switch: bool, zeros: u32) -> Result<(), DapFault>
        ensures { OnOk result (DapLeads P.exchanged ones undriven switch zeros self.old self.new) }
    {
        self.open()?;
        if self.has_told() {
            return Err(DapFault::Unplanned);
        }
        let made = is_made(self.idled, ones, switch, zeros);
        self.next = Next::Nothing;
        self.plan.clear();
        self.idled = false;
        if made {
            return Ok(());
        }
        sequences::lead(&mut self.packets, ones, undriven, switch, zeros)?;
        Ok(())
    }
}

// Returns what a transaction that was told leaves to come.
fn next_of(told: &Told) -> Next
    ensures { result ≡ dap_next_of told.now }
{
    if told.seen != 1 {
        Next::Nothing
    } else if told.transfer.request.read {
        Next::Read(told.bits)
    } else {
        Next::Written(told.bits)
    }
}

// Returns what a request by sequences leaves to come.
fn next_by_clocks(seen: u8) -> Next
    ensures { result ≡ dap_next_by_clocks seen }
{
    match seen {
        1 | 2 | 4 => Next::Clocks,
        _ => Next::Nothing,
    }
}

// Returns whether the probe made these cycles behind a transfer.
fn is_made(idled: bool, ones: u32, switch: bool, zeros: u32) -> bool
    ensures { result ≡ true → (idled ≡ true) × (ones ≡ 0) × (switch ≡ false) × (zeros ≤ 8) }
{
    idled && ones == 0 && !switch && zeros <= IDLE
}

impl<P: Packets> Transport for DapTransport<P> {
    ghost use Rattle.swd_dap.specs.Calls.{AreDapCallsMade};

    ghost tells = { λ made dap. ∥ AreDapCallsMade P.exchanged made dap ∥₁ };

    fn step(&mut self, cue: Cue) -> Result<u64, Disconnected> {
        self.call(cue)
    }

    fn looks_ahead(&self) -> Option<Pieces> {
        if self.has_told() {
            return None;
        }
        Some(self.size.pieces())
    }

    fn announce(&mut self, coming: &[Coming]) {
        self.foresee(coming);
    }
}
