//! What the transactions on the wire show of the target.
ghost use Rattle.std.specs.Prelude.{◌≡◌, ◌&&◌, Some, None, is_some, if◌then◌else◌};
ghost use Rattle.swd_observer.specs.declared.told.How.TheVariants.{Took};
ghost use Rattle.swd_port.specs.Registers.{register_bit};
ghost use Rattle.swd_observer.specs.Observing.{observer_unknown, observer_as_made, observer_at_rest, observer_arrival};
ghost use Rattle.swd_observer.specs.Observing.{observed_tar_advance, observer_confirmed, observer_doubted};
ghost use Rattle.swd_observer.specs.Observing.{observer_transfer_undone, observed_flight_access, observed_older};
ghost use Rattle.swd_observer.specs.Observing.{observed_doubt, observed_last_accesses, observed_older_flush};
ghost use Rattle.swd_observer.specs.Observing.{observer_flagged, observed_flagged, is_status_observed};
ghost use Rattle.swd_observer.specs.Observing.{observed_csw_increments, observed_whole, observed_older_word};
ghost use Rattle.swd_observer.specs.Observing.{observed_older_slot, observed_kind, observed_kind_elsewhere};
ghost use Rattle.swd_observer.specs.Observing.{observer_accepted, observed_itself, is_observed_posted_read};
ghost use Rattle.swd_observer.specs.Observing.{is_observed_resend, is_observed_plain, observed_standing_after};
ghost use Rattle.swd_observer.specs.Observing.{unless_observed_older, observer_after_confirm, observed_may_access};
ghost use Rattle.swd_observer.specs.Observing.{observed_at_confirm, observer_after_item, observed_at_item};
ghost use Rattle.swd_observer.specs.Observing.{observer_after_tx_end, observed_at_tx_end, is_observed_read_kind};
ghost use Rattle.swd_observer.specs.Observing.{observer_transfer_done, observed_class, word_observed};
ghost use Rattle.swd_observer.specs.Observing.{observer_after_class, observed_at_class, observer_unanswered};
ghost use Rattle.swd_observer.specs.Observing.{observed_unanswered_read, is_observed_select_sent};
ghost use Rattle.swd_observer.specs.Observing.{is_other_bank_observed};

use crate::told::{How, ObservedAccess};
use swd_bits::{Reg4, Request, Tx, TxEnd};
use swd_port::{Csw, Select};
use swd_trace::Item;

/// A register whose writes an observer tracks.
#[derive(Clone, Copy, Debug, PartialEq, Eq)]
pub enum Written {
    Select,
    Csw,
    Tar,
    Drw,
}

/// A write that was answered OK. Its data is known to be intact only once the next request that can be
/// refused is answered OK (IHI 0031, B4, "Data transfer").
#[derive(Clone, Copy, Debug, PartialEq, Eq)]
pub struct SentWrite {
    pub written: Written,
    /// The word as seen on the wire, or `None` if its parity was wrong.
    pub word: Option<u32>,
    /// The number of bits before its request.
    pub place: u64,
}

/// A transfer that a DRW access started, at TAR. It may still meet a bus error.
#[derive(Clone, Copy, Debug)]
pub struct StartedTransfer {
    pub read: bool,
    /// The word of a write, if it is known.
    pub word: Option<u32>,
    /// The number of bits before its request.
    pub place: u64,
}

/// The place that holds the word of a completed read.
#[derive(Clone, Copy, Debug)]
pub enum Standing {
    /// The read buffer, which the next AP read or RDBUFF read returns.
    Buffer,
    /// The last returned value, which had wrong parity: RESEND returns it again.
    Returned,
}

/// A read that took effect, whose word wasn't seen yet.
#[derive(Clone, Copy, Debug)]
pub struct Older {
    /// The number of bits before its request.
    pub place: u64,
    pub addr: Option<u32>,
    pub standing: Standing,
}

/// What the wire has shown of a target so far: SELECT, CSW, TAR and the access in flight. Unknown values are
/// `None`. It takes the items of a trace one after the other, and reports what happened to each memory
/// access.
///
/// OK to a request that can be refused shows that no sticky error is set and nothing is pending (IHI 0031,
/// B4, "FAULT response to read or write operation request"). So the write before it arrived intact, and the
/// transfer in flight took effect. An access is therefore reported at a later request. CTRL/STAT with STICKYERR or
/// WDATAERR set shows that the transfer didn't succeed. WAIT shows nothing, and neither does FAULT, which may come of
/// STICKYORUN.
///
/// A debug port may give up a write that it accepted, where DPIDR or CTRL/STAT is read or ABORT is written: these can't
/// wait for it. WDATAERR is set then, so a later OK to a request that can be refused shows that the port didn't. It
/// shows less of a port that, unlike the model, accepts a DRW write while another one is pending: the one before may
/// still be given up or meet a bus error, and is reported as `Took`.
///
/// It reports nothing that the wire doesn't show. These are unknown:
/// - TAR after an increment across a boundary of 1 KB;
/// - whatever may have changed at a lost acknowledgement, at ABORT with a transfer in flight, or at junk
///   bits;
/// - words, unless CSW is known to have Size word and AddrInc off or single.
///
/// An access by the data register of another access port, or by a banked data register (IHI 0031, MEM-AP, BD0
/// to BD3), is reported as `May`, without address and word.
#[derive(Clone, Copy, Debug)]
pub struct Observer {
    pub select: Option<Select>,
    /// Whether TAR increments after a transfer. It is known if CSW is known, its Size is word, and AddrInc is
    /// off or single.
    pub increments: Option<bool>,
    /// TAR, a byte address.
    pub tar: Option<u32>,
    pub sent: Option<SentWrite>,
    pub begun: Option<StartedTransfer>,
    pub older: Option<Older>,
}

/// The accesses that an item reports, in this order: an earlier read that took effect, the access in flight,
/// and the item's own request.
#[derive(Clone, Copy, Debug, PartialEq, Eq)]
pub struct Observations {
    pub older: Option<ObservedAccess>,
    pub before: Option<ObservedAccess>,
    pub itself: Option<ObservedAccess>,
}

/// What a request does that is answered OK and can be refused.
#[derive(Clone, Copy)]
pub(crate) enum RequestEffect {
    /// Nothing that an observer tracks.
    Other,
    /// It may access memory on a chip, by a register that doesn't in the port model. The field says whether it
    /// reads.
    Elsewhere(bool),
    Reads,
    Writes(Written),
    /// SELECT is unknown: it may be a DRW read.
    MayRead,
    /// SELECT is unknown: it may be this write.
    MayWrite(Written),
}

/// What an OK shows, by the request.
#[derive(Clone, Copy)]
pub(crate) enum Class {
    /// A read of DPIDR: nothing.
    Passes,
    /// A write of ABORT: it may clear flags, so no later request shows what they said.
    Aborts,
    /// A read of the debug port's address 4, unless it is known not to be CTRL/STAT: its flags.
    Status,
    /// Any other request: no flag is set, and nothing is pending.
    Confirms,
}

const NOTHING: Observations = Observations {
    older: None,
    before: None,
    itself: None,
};

impl Observer {
    /// Returns an observer that knows nothing, for a capture that begins anywhere.
    pub fn new() -> Observer
        ensures { result ≡ observer_unknown }
    {
        Observer {
            select: None,
            increments: None,
            tar: None,
            sent: None,
            begun: None,
            older: None,
        }
    }

    /// Returns an observer of a target in its reset state, with SELECT, CSW and TAR 0.
    pub fn of_made() -> Observer
        ensures { result ≡ observer_as_made }
    {
        Observer {
            select: Some(Select::of(0)),
            increments: Some(false),
            tar: Some(0),
            sent: None,
            begun: None,
            older: None,
        }
    }

    /// Returns an observer of a target at rest: SELECT is 0, no transfer is pending, and no data phase is due. All else
    /// is unknown.
    pub fn of_rest() -> Observer
        ensures { result ≡ observer_at_rest }
    {
        Observer {
            select: Some(Select::of(0)),
            ..Observer::new()
        }
    }

    // Updates the state after the last write arrived intact.
    fn arrived(self) -> Observer
        ensures { result ≡ observer_arrival self }
    {
        let mut now = self;
        now.sent = None;
        let Some(sent) = self.sent else {
            return now;
        };
        match sent.written {
            Written::Select => {
                now.select = match sent.word {
                    Some(word) => Some(Select::of(word)),
                    None => None,
                }
            }
            Written::Csw => {
                now.increments = match sent.word {
                    Some(word) => steps(Csw::of(word)),
                    None => None,
                }
            }
            Written::Tar => now.tar = sent.word,
            Written::Drw => {
                now.begun = Some(StartedTransfer {
                    read: false,
                    word: whole(self.increments, sent.word),
                    place: sent.place,
                })
            }
        }
        now
    }

    // Updates the state after the transfer in flight took effect.
    fn done(self) -> Observer
        ensures { result ≡ observer_transfer_done self }
    {
        let mut now = self;
        now.begun = None;
        now.older = None;
        if self.begun.is_some() {
            now.tar = advance(self.increments, self.tar);
        }
        now
    }

    // Updates the state after the transfer in flight may have met a bus error.
    fn undone(self) -> Observer
        ensures { result ≡ observer_transfer_undone self }
    {
        let mut lost = self;
        lost.begun = None;
        lost.older = None;
        if self.begun.is_some() {
            lost.tar = None;
        }
        lost
    }

    // Updates the state after OK to a request that can be refused.
    fn confirmed(self) -> Observer
        ensures { result ≡ observer_confirmed self }
    {
        self.arrived().done()
    }

    // Updates the state after flags may have changed unseen.
    fn doubted(self) -> Observer
        ensures { result ≡ observer_doubted self }
    {
        let mut unsure = self;
        if let Some(sent) = self.sent {
            unsure.sent = Some(SentWrite { word: None, ..sent });
        }
        unsure.arrived().undone()
    }

    // Reports the access in flight.
    fn told(self, how: How, got: Option<u32>) -> Option<ObservedAccess>
        ensures { result ≡ observed_flight_access how got self }
    {
        let arrived = self.arrived();
        let Some(begun) = arrived.begun else {
            return None;
        };
        Some(ObservedAccess {
            place: begun.place,
            read: begun.read,
            addr: arrived.tar,
            word: if begun.read { got } else { begun.word },
            how,
        })
    }

    // Reports the access in flight if no later request shows what happened to it.
    fn doubt(self) -> Option<ObservedAccess>
        ensures { result ≡ observed_doubt self }
    {
        self.told(How::May, None)
    }

    // Returns whether the unconfirmed write is to SELECT.
    fn sends_select(self) -> bool
        ensures { result ≡ is_observed_select_sent self.sent }
    {
        match self.sent {
            Some(sent) => matches!(&sent.written, Written::Select),
            None => false,
        }
    }

    // Returns whether the debug port's address 4 is known to be CTRL/STAT: DPBANKSEL is 0, and no write to
    // SELECT is unconfirmed.
    fn is_status_known(self) -> bool
        ensures { result ≡ is_status_observed self }
    {
        match self.select {
            Some(select) => select.dpbanksel == 0 && !self.sends_select(),
            None => false,
        }
    }

    // Returns whether the debug port's address 4 is known not to be CTRL/STAT.
    fn is_other_bank_known(self) -> bool
        ensures { result ≡ is_other_bank_observed self }
    {
        match self.select {
            Some(select) => select.dpbanksel != 0 && !self.sends_select(),
            None => false,
        }
    }

    // Returns what an OK to a request shows.
    fn class_of(self, request: Request) -> Class
        ensures { result ≡ observed_class self request }
    {
        match (request.ap, request.read, request.addr) {
            (false, true, Reg4::R0) => Class::Passes,
            (false, false, Reg4::R0) => Class::Aborts,
            (false, true, Reg4::R4) if !self.is_other_bank_known() => Class::Status,
            _ => Class::Confirms,
        }
    }

    // Updates the state after a read of CTRL/STAT with these flags.
    fn flagged(self, sticky: bool, damaged: bool) -> Observer
        ensures { result ≡ observer_flagged sticky damaged self }
    {
        let arrived = self.arrived();
        if !sticky && !damaged {
            return arrived;
        }
        let mut now = if damaged {
            Observer { sent: None, ..self }
        } else {
            arrived
        };
        now.begun = None;
        if sticky && arrived.begun.is_some() {
            now.tar = None;
        }
        now
    }

    // Updates the state after a request that was answered OK.
    fn accepted(self, kind: RequestEffect, word: Option<u32>, place: u64) -> Observer
        ensures { result ≡ observer_accepted kind word place self }
    {
        let mut now = self;
        match kind {
            RequestEffect::Other | RequestEffect::Elsewhere(_) => {}
            RequestEffect::Reads => {
                now.begun = Some(StartedTransfer {
                    read: true,
                    word: None,
                    place,
                })
            }
            RequestEffect::Writes(written) => {
                now.sent = Some(SentWrite {
                    written,
                    word,
                    place,
                })
            }
            RequestEffect::MayRead => now.tar = None,
            RequestEffect::MayWrite(Written::Select) => {}
            RequestEffect::MayWrite(Written::Csw) => now.increments = None,
            RequestEffect::MayWrite(_) => now.tar = None,
        }
        now
    }

    // Reports the older read, with this word.
    fn told_older(self, word: Option<u32>) -> Option<ObservedAccess>
        ensures { result ≡ observed_older word self.older }
    {
        let Some(older) = self.older else {
            return None;
        };
        Some(ObservedAccess {
            place: older.place,
            read: true,
            addr: older.addr,
            word,
            how: How::Took,
        })
    }

    // Returns the word of the older read, if this request returned it.
    fn word_for(self, request: Request, word: Option<u32>) -> Option<u32>
        ensures { result ≡ observed_older_word self.older request word }
    {
        let Some(older) = self.older else {
            return None;
        };
        match older.standing {
            Standing::Buffer => got_by(request, word),
            Standing::Returned => { if is_resend(request) { word } else { None } }
        }
    }

    // Returns the read that was in flight, if its word wasn't seen yet.
    fn slot(self, standing: Option<Standing>) -> Option<Older>
        ensures { result ≡ observed_older_slot (observer_arrival self).begun (observer_arrival self).tar standing }
    {
        let arrived = self.arrived();
        let Some(begun) = arrived.begun else {
            return None;
        };
        let Some(standing) = standing else {
            return None;
        };
        if begun.read {
            Some(Older {
                place: begun.place,
                addr: arrived.tar,
                standing,
            })
        } else {
            None
        }
    }

    // Does the same after a request that returned this word, if any.
    fn slot_at(self, request: Request, word: Option<u32>, plain: bool) -> Option<Older>
        ensures { result ≡ observed_older_slot (observer_arrival self).begun (observer_arrival self).tar
            (observed_standing_after request (is_some word) plain) }
    {
        self.slot(standing_after(request, word.is_some(), plain))
    }

    // Reports a transfer that took effect, unless it is held as the older read.
    fn told_done(
        self,
        request: Request,
        word: Option<u32>,
        slot: Option<Older>,
    ) -> Option<ObservedAccess>
        ensures { result ≡ unless_observed_older slot
            (observed_flight_access Took (observed_whole self.increments
            (if is_observed_posted_read request then word else None)) self) }
    {
        match slot {
            Some(_) => None,
            None => self.told(How::Took, whole(self.increments, got_by(request, word))),
        }
    }

    // Takes a word that was moved, by a request that can be refused.
    fn confirm(&mut self, request: Request, word: Option<u32>, place: u64) -> Observations
        ensures observer { self.new ≡ observer_after_confirm request word place self.old }
        ensures tells { result ≡ observed_at_confirm request word place self.old }
    {
        let older = self.told_older(self.word_for(request, whole(self.increments, word)));
        let now = self.confirmed();
        let kind = kind_of(now.select, request);
        let slot = self.slot_at(request, word, is_plain(kind));
        let before = self.told_done(request, word, slot);
        let itself = told_itself(kind, whole(now.increments, word), now.tar, place);
        *self = now.accepted(kind, word, place).holding(slot);
        Observations {
            older,
            before,
            itself,
        }
    }

    // Holds this read as the older one.
    fn holding(self, older: Option<Older>) -> Observer
        ensures { result ≡ record self { older = older } }
    {
        Observer { older, ..self }
    }

    // Reports the older read, and this access.
    fn flushing(self, before: Option<ObservedAccess>) -> Observations
        ensures { result ≡ observed_older_flush before self }
    {
        Observations {
            older: self.told_older(None),
            before,
            itself: None,
        }
    }

    // Takes a read of the debug port's address 4.
    fn status(&mut self, word: u32, parity_ok: bool) -> Observations
        ensures observer { self.new ≡ record (if parity_ok && is_status_observed self.old then
            observer_flagged (register_bit 5 word) (register_bit 7 word) self.old else self.old) { older = None } }
        ensures tells { result ≡ observed_older_flush (if parity_ok && is_status_observed self.old then
            observed_flagged (register_bit 5 word) (register_bit 7 word) self.old else None) self.old }
    {
        let mut now = *self;
        let mut before = None;
        if parity_ok && self.is_status_known() {
            let sticky = word >> 5 & 1 == 1;
            let damaged = word >> 7 & 1 == 1;
            if sticky || damaged {
                before = self.told(How::Not, None);
            }
            now = self.flagged(sticky, damaged);
        }
        let tells = self.flushing(before);
        now.older = None;
        *self = now;
        tells
    }

    // Takes a write of ABORT.
    fn abort(&mut self) -> Observations
        ensures observer { self.new ≡ observer_doubted self.old }
        ensures tells { result ≡ observed_older_flush (observed_doubt self.old) self.old }
    {
        let tells = self.flushing(self.doubt());
        *self = self.doubted();
        tells
    }

    // Takes a request that was answered OK, with its word.
    fn moved(&mut self, request: Request, word: u32, parity_ok: bool, place: u64) -> Observations
        ensures observer { self.new ≡ observer_after_class (observed_class self.old request) request word parity_ok
            place self.old }
        ensures tells { result ≡ observed_at_class (observed_class self.old request) request word parity_ok place
            self.old }
    {
        match self.class_of(request) {
            Class::Passes => NOTHING,
            Class::Aborts => self.abort(),
            Class::Status => self.status(word, parity_ok),
            Class::Confirms => self.confirm(request, word_if(parity_ok, word), place),
        }
    }

    // Takes a request without acknowledgement.
    fn unanswered(&mut self, request: Request, place: u64) -> Observations
        ensures observer { self.new ≡ observer_unanswered (observed_kind (observer_doubted self.old).select request)
            (observer_doubted self.old) }
        ensures tells { result ≡ record (observed_older_flush (observed_doubt self.old) self.old) {
          itself = observed_unanswered_read (observed_kind (observer_doubted self.old).select request)
              (observer_doubted self.old).tar place;
        } }
    {
        let mut tells = self.abort();
        if is_read(kind_of(self.select, request)) {
            tells.itself = may_have(true, self.tar, None, place);
            self.tar = None;
        }
        tells
    }

    // Takes a transaction.
    fn watch_tx(&mut self, tx: Tx, place: u64) -> Observations
        ensures observer { self.new ≡ observer_after_tx_end tx.result tx.request place self.old }
        ensures tells { result ≡ observed_at_tx_end tx.result tx.request place self.old }
    {
        match tx.result {
            TxEnd::Moved { word, parity_ok } => self.moved(tx.request, word, parity_ok, place),
            TxEnd::Wait | TxEnd::Fault => NOTHING,
            TxEnd::NoAck(_) => self.unanswered(tx.request, place),
        }
    }

    /// Takes the next item of a trace, and returns the accesses that it reports. `place` is the number of
    /// bits before the item; `TraceObserver` counts them.
    pub fn watch(&mut self, item: &Item, place: u64) -> Observations
        ensures observer { self.new ≡ observer_after_item item.now place self.old }
        ensures tells { result ≡ observed_at_item item.now place self.old }
    {
        match *item {
            Item::Tx(tx) => self.watch_tx(tx, place),
            Item::Junk(_) | Item::Cut(_) => {
                let tells = self.last();
                *self = Observer::new();
                tells
            }
            _ => NOTHING,
        }
    }

    /// Returns what a trace that ends here shows of the accesses that weren't reported yet.
    pub fn last(&self) -> Observations
        ensures { result ≡ observed_last_accesses self.now }
    {
        self.flushing(self.doubt())
    }
}

// Returns the word if its parity is right.
fn word_if(parity_ok: bool, word: u32) -> Option<u32>
    ensures { result ≡ word_observed parity_ok word }
{
    if parity_ok { Some(word) } else { None }
}

// Returns whether TAR increments, if CSW says that a transfer is a word.
fn steps(csw: Csw) -> Option<bool>
    ensures { result ≡ observed_csw_increments csw }
{
    if csw.size == 2 && csw.addr_inc < 2 {
        Some(csw.addr_inc == 1)
    } else {
        None
    }
}

// Returns the word of a transfer if its size is known to be a word.
fn whole(increments: Option<bool>, word: Option<u32>) -> Option<u32>
    ensures { result ≡ observed_whole increments word }
{
    match increments {
        Some(_) => word,
        None => None,
    }
}

// Returns TAR after a transfer that took effect.
fn advance(increments: Option<bool>, tar: Option<u32>) -> Option<u32>
    ensures { result ≡ observed_tar_advance increments tar }
{
    match (increments, tar) {
        (Some(true), Some(at)) if at % 4 == 0 && at % 1024 != 1020 => Some(at + 4),
        (Some(false), _) => tar,
        _ => None,
    }
}

// Returns what a request does, by what is known of SELECT.
fn kind_of(select: Option<Select>, request: Request) -> RequestEffect
    ensures { result ≡ observed_kind select request }
{
    if !request.ap {
        return match (request.read, request.addr) {
            (false, Reg4::R8) => RequestEffect::Writes(Written::Select),
            _ => RequestEffect::Other,
        };
    }
    let kind = match (request.read, request.addr) {
        (true, Reg4::RC) => RequestEffect::Reads,
        (true, _) | (false, Reg4::R8) => RequestEffect::Other,
        (false, Reg4::R0) => RequestEffect::Writes(Written::Csw),
        (false, Reg4::R4) => RequestEffect::Writes(Written::Tar),
        (false, Reg4::RC) => RequestEffect::Writes(Written::Drw),
    };
    match (select, kind) {
        (Some(select), _) if select.apsel == 0 && select.apbanksel == 0 => kind,
        (Some(select), _) => elsewhere(select, request),
        (None, RequestEffect::Reads) => RequestEffect::MayRead,
        (None, RequestEffect::Writes(written)) => RequestEffect::MayWrite(written),
        (None, _) => kind,
    }
}

// Returns what a request for a register of another access port or bank does.
fn elsewhere(select: Select, request: Request) -> RequestEffect
    ensures { result ≡ observed_kind_elsewhere select request.read request.addr }
{
    let is_data_address = matches!(&request.addr, Reg4::RC);
    if select.apbanksel == 1 || (select.apbanksel == 0 && is_data_address) {
        RequestEffect::Elsewhere(request.read)
    } else {
        RequestEffect::Other
    }
}

fn is_read(kind: RequestEffect) -> bool
    ensures { result ≡ is_observed_read_kind kind }
{
    matches!(&kind, RequestEffect::Reads | RequestEffect::MayRead)
}

// Returns the word if the request returns the read buffer.
fn got_by(request: Request, word: Option<u32>) -> Option<u32>
    ensures { result ≡ (if is_observed_posted_read request then word else None) }
{
    if is_posted(request) { word } else { None }
}

// Returns whether a request is RESEND, which returns the last returned value.
fn is_resend(request: Request) -> bool
    ensures { result ≡ is_observed_resend request }
{
    !request.ap && request.read && matches!(&request.addr, Reg4::R8)
}

// Returns whether a request is known not to be an access itself, or is a DRW read.
fn is_plain(kind: RequestEffect) -> bool
    ensures { result ≡ is_observed_plain kind }
{
    matches!(&kind, RequestEffect::Other | RequestEffect::Reads)
}

// Returns what holds the word of a read that this request confirmed.
fn standing_after(request: Request, seen: bool, plain: bool) -> Option<Standing>
    ensures { result ≡ observed_standing_after request seen plain }
{
    if is_resend(request) {
        return Some(Standing::Buffer);
    }
    if is_posted(request) && !seen && plain {
        Some(Standing::Returned)
    } else {
        None
    }
}

// Returns whether a request returns the read buffer: an AP read or RDBUFF.
fn is_posted(request: Request) -> bool
    ensures { result ≡ is_observed_posted_read request }
{
    request.read && (request.ap || matches!(&request.addr, Reg4::RC))
}

// Reports a request if it isn't known what it does.
fn told_itself(
    kind: RequestEffect,
    word: Option<u32>,
    tar: Option<u32>,
    place: u64,
) -> Option<ObservedAccess>
    ensures { result ≡ observed_itself kind word tar place }
{
    match kind {
        RequestEffect::Elsewhere(read) => may_have(read, None, None, place),
        RequestEffect::MayRead => may_have(true, tar, None, place),
        RequestEffect::MayWrite(Written::Drw) => may_have(false, tar, word, place),
        _ => None,
    }
}

fn may_have(read: bool, addr: Option<u32>, word: Option<u32>, place: u64) -> Option<ObservedAccess>
    ensures { result ≡ observed_may_access read addr word place }
{
    Some(ObservedAccess {
        place,
        read,
        addr,
        word,
        how: How::May,
    })
}
