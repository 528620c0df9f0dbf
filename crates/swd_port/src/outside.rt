//! A wire over a transport of which nothing is proved.
ghost use Rattle.std.specs.Prelude.{◌≡◌, ◌<◌, ◌^◌, ◌++◌, ◌∷◌, ℕ, Bool, List, [], true, false};
ghost use Rattle.swd_port.specs.Port.{Port};
ghost use Rattle.swd_port.specs.Steps.{port_due_once, IsPortSeen};
ghost use Rattle.swd_port.specs.Stories.{port_due_by, port_at, FitsStory};
ghost use Rattle.swd_port.specs.CueKinds.{is_port_send};
ghost use Rattle.swd_port.specs.Transports.{PortAttempt, port_attempt, PortTransportSteps, PortTransportFetches};
ghost use Rattle.swd_port.specs.Transports.{PortTransportHas, PortTransportHasOver};
ghost use Rattle.swd_port.specs.declared.cue.Cue.TheVariants.{Ask, Take};

use crate::call::Call;
use crate::coming::{Coming, Pieces};
use crate::cue::Cue;
use crate::noted::NotedCalls;
use crate::wire::{Due, Wire};
use std::marker::PhantomData;
use swd_bits::Request;

/// A sequence of states of the port model: one before any call, and one after each call. It is for contracts alone, and
/// what is proved of it holds for every such sequence.
pub trait Story {
    ghost at: { ℕ → Port };
}

/// The error of a transport that can't reach the other end.
#[derive(Clone, Copy, Debug, PartialEq, Eq)]
pub struct Disconnected;

/// The way to the other end. It needn't conform to any model: it may return anything, and every call may fail.
pub trait Transport {
    /// What a transport states about the calls made of it, the first one first. Optional, for implementers who state
    /// what was sent on the line.
    ghost tells: { List PortAttempt → Self → Type 0 } = { λ _ _. Unit {0} };

    /// Performs the cue, and returns what is seen: the three bits after a request, or the 33 bits of a read's data
    /// phase, the first in time least significant. For other cues the number is ignored.
    ///
    /// `Cue::Take` comes directly after a request for a read at which OK was seen. Drive nothing where a cue leaves the
    /// line undriven: the target may be driving it.
    ///
    /// # Errors
    ///
    /// Returns `Disconnected` if the other end can't be reached. A [`TransportWire`] doesn't call the transport again
    /// then.
    fn step(&mut self, cue: Cue) -> Result<u64, Disconnected>
        ensures told { (made : List PortAttempt) → tells made self.old
            → tells (made ++ port_attempt cue result ∷ []) self.new };

    /// Returns how much of a burst one exchange holds, if [`announce`](Transport::announce) is of use to this transport
    /// now.
    fn looks_ahead(&self) -> Option<Pieces> {
        None
    }

    /// Tells which transactions come next, each as long as those before it are answered OK with right parity. It is no
    /// call.
    fn announce(&mut self, _coming: &[Coming])
        ensures { (made : List PortAttempt) → tells made self.old → tells made self.new }
    {}
}

/// Whether the contracts of a wire relate its calls to those that it makes of its transport. It is for contracts alone.
pub trait Tie {
    ghost ties: { Bool };
}

/// The [`Tie`] of a wire over any transport: its contracts don't mention the transport's calls.
pub struct Loose;

impl Tie for Loose {
    ghost ties = { false };
}

/// The [`Tie`] of a wire over a transport of which no call was made before ([`TransportWire::begun`]).
pub struct Tied;

impl Tie for Tied {
    ghost ties = { true };
}

/// A wire over a transport. Where the transport fails, or returns a number with too many bits, the host sees no
/// acknowledgement, and the transport isn't called any more.
///
/// A read's data phase is fetched with its acknowledgement. So a failed data phase also shows as a lost
/// acknowledgement, which the model of a wire has. Where a write's data fails, the next request shows it.
#[derive(Drop)]
pub struct TransportWire<T: Transport, S: Story, K: Tie = Loose> {
    transport: T,
    due: Due,
    // The last data phase of a read that was fetched.
    fetched: u64,
    gone: bool,
    noted: NotedCalls,
    story: PhantomData<S>,
    tie: PhantomData<K>,
    ghost tracked: { due ≡ port_due_by noted.calls },
    ghost range: { fetched < 2 ^ 33 },
    ghost went: { K.ties ≡ true → ∥ PortTransportHas T.tells noted.calls gone fetched transport ∥₁ },
}

impl<T: Transport, S: Story, K: Tie> Wire for TransportWire<T, S, K> {
    ghost port = { λ wire. port_at S.at wire.noted.calls };

    ghost lawful = { λ wire. FitsStory S.at wire.noted.calls };

    ghost notes = { λ calls wire. wire.noted.calls ≡ calls };

    fn due(&self) -> Due {
        self.due
    }

    #[inline(always)]
    fn step(&mut self, cue: Cue) -> u64 {
        let Met {
            seen,
            gone,
            fetched,
        } = meet(&mut self.transport, cue, self.gone, self.fetched);
        self.gone = gone;
        self.fetched = fetched;
        self.noted = self.noted.and(&Call { cue, seen });
        self.due = due_once(cue, seen);
        seen
    }

    fn looks_ahead(&self) -> Option<Pieces> {
        if self.gone {
            return None;
        }
        self.transport.looks_ahead()
    }

    fn announce(&mut self, coming: &[Coming]) {
        self.transport.announce(coming);
    }
}

// Returns what has to come next, after this was seen.
fn due_once(cue: Cue, seen: u64) -> Due
    requires { IsPortSeen cue seen }
    ensures { result ≡ port_due_once cue seen }
{
    match cue {
        Cue::Ask(request) => Due::after(request.read, seen as u8),
        _ => Due::Nothing,
    }
}

// The result of a call.
#[derive(Clone, Copy)]
struct Met {
    seen: u64,
    // Whether the transport has failed.
    gone: bool,
    // The last data phase of a read that was fetched.
    fetched: u64,
}

// Makes a call of the wire by calls of its transport; `gone`: the transport has failed before.
#[inline(always)]
fn meet<T: Transport>(transport: &mut T, cue: Cue, gone: bool, fetched: u64) -> Met
    requires { fetched < 2 ^ 33 }
    ensures goes { PortTransportSteps T.tells cue gone fetched result transport.old transport.new }
    ensures seen { IsPortSeen cue result.seen }
    ensures range { result.fetched < 2 ^ 33 }
{
    match cue {
        Cue::Take => Met {
            seen: fetched,
            gone,
            fetched,
        },
        Cue::Ask(request) => ask(transport, request, gone, fetched),
        _ => send(transport, cue, gone, fetched),
    }
}

// Makes a call at which nothing is seen.
fn send<T: Transport>(transport: &mut T, cue: Cue, gone: bool, fetched: u64) -> Met
    requires { is_port_send cue ≡ true }
    ensures goes { PortTransportSteps T.tells cue gone fetched result transport.old transport.new }
    ensures seen { result.seen ≡ 0 }
    ensures fetched { result.fetched ≡ fetched }
{
    Met {
        seen: 0,
        gone: gone || transport.step(cue).is_err(),
        fetched,
    }
}

// Sends a request, and fetches the data phase of a read that is answered OK.
fn ask<T: Transport>(transport: &mut T, request: Request, gone: bool, fetched: u64) -> Met
    requires { fetched < 2 ^ 33 }
    ensures goes { PortTransportSteps T.tells (Ask request) gone fetched result transport.old transport.new }
    ensures seen { result.seen < 8 }
    ensures range { result.fetched < 2 ^ 33 }
{
    let lost = Met {
        seen: 7,
        gone: true,
        fetched,
    };
    if gone {
        return lost;
    }
    let Ok(seen) = transport.step(Cue::Ask(request)) else {
        return lost;
    };
    if seen > 7 {
        return lost;
    }
    if request.read && seen == 1 {
        return fetch(transport, request, fetched);
    }
    Met {
        seen,
        gone: false,
        fetched,
    }
}

// Fetches the data phase of a read that was answered OK; if that fails, no acknowledgement is seen.
fn fetch<T: Transport>(transport: &mut T, request: Request, fetched: u64) -> Met
    requires { fetched < 2 ^ 33 }
    ensures fetches { PortTransportFetches T.tells request fetched result transport.old transport.new }
    ensures seen { result.seen < 8 }
    ensures range { result.fetched < 2 ^ 33 }
{
    match transport.step(Cue::Take) {
        Ok(bits) if bits < 0x2_0000_0000 => Met {
            seen: 1,
            gone: false,
            fetched: bits,
        },
        _ => Met {
            seen: 7,
            gone: true,
            fetched,
        },
    }
}

impl<T: Transport, S: Story> TransportWire<T, S> {
    ghost use Rattle.swd_port.specs.Outside.{is_wire_gone, wire_calls};

    /// Creates a wire without calls.
    pub fn new(transport: T) -> TransportWire<T, S>
        ensures calls { wire_calls result ≡ [] }
        ensures works { is_wire_gone result ≡ false }
    {
        TransportWire {
            transport,
            due: Due::Nothing,
            fetched: 0,
            gone: false,
            noted: NotedCalls::new(),
            story: PhantomData,
            tie: PhantomData,
        }
    }
}

impl<T: Transport, S: Story> TransportWire<T, S, Tied> {
    ghost use Rattle.swd_port.specs.Outside.{is_wire_gone, wire_calls};

    /// Creates a wire without calls, over a transport of which no call was made either. What the transport states of
    /// its calls then holds for those that the wire makes of it.
    pub fn begun(transport: T) -> TransportWire<T, S, Tied>
        requires { T.tells [] transport }
        ensures calls { wire_calls result ≡ [] }
        ensures works { is_wire_gone result ≡ false }
    {
        let noted = NotedCalls::new();
        TransportWire {
            transport,
            due: Due::Nothing,
            fetched: 0,
            gone: false,
            noted,
            story: PhantomData,
            tie: PhantomData,
        }
    }
}

impl<T: Transport, S: Story, K: Tie> TransportWire<T, S, K> {
    ghost use Rattle.swd_port.specs.Outside.{is_wire_gone, wire_calls};

    /// Consumes the wire, and returns the transport.
    pub fn into_transport(self) -> T
        ensures { K.ties ≡ true → ∥ PortTransportHasOver T.tells (wire_calls self) (is_wire_gone self) result ∥₁ }
    {
        let TransportWire { transport, .. } = self;
        transport
    }

    /// Returns whether the transport failed, or returned a number with too many bits.
    pub fn is_gone(&self) -> bool
        ensures { result ≡ is_wire_gone self.now }
    {
        self.gone
    }
}
