//! The wire between a host and a target, whose calls are steps of the port model.
ghost use Rattle.std.specs.Prelude.{◌≡◌, ◌≢◌, ◌<◌, ◌^◌, List, [], ◌∷◌};
ghost use Rattle.swd_port.specs.Answers.{port_due_after};
ghost use Rattle.swd_port.specs.declared.wire.Due.TheVariants.{Nothing, Take, Give, Pass};
ghost use Rattle.swd_port.specs.Port.{Port, Idle};
ghost use Rattle.swd_port.specs.Choices.{Mark};
ghost use Rattle.swd_port.specs.Leading.{PortMayLead, PortLeads};
ghost use Rattle.swd_port.specs.Asking.{PortAsks};
ghost use Rattle.swd_port.specs.Moving.{PortTakes, PortGives, PortPasses};
ghost use Rattle.swd_port.specs.Steps.{PortMayStep, IsPortSeen, IsPortStep, port_due_once};
ghost use Rattle.swd_port.specs.declared.call.Call.{Call};

use crate::coming::{Coming, Pieces};
use crate::cue::Cue;
use swd_bits::Request;

// The number of ones of a line reset that are left undriven where the target may be driving the line. It is the length
// of the longest rest of a transaction, a turnaround and the 33 bits of a data phase.
const UNDRIVEN: u32 = 34;

/// What has to come next on a wire, as the host sees it.
#[derive(Clone, Copy, Debug, PartialEq, Eq)]
pub enum Due {
    /// Nothing: a request may be sent, or idle cycles, or a line reset.
    Nothing,
    /// The data phase of a read that was answered OK.
    Take,
    /// The data phase of a write that was answered OK.
    Give,
    /// The turnaround after WAIT or FAULT.
    Pass,
    /// No acknowledgement was seen. Only a line reset may follow.
    Lost,
}

impl Due {
    /// Returns what has to come next after these three bits were seen in answer to a read or a write, the first bit in
    /// time least significant.
    pub fn after(read: bool, seen: u8) -> Due
        ensures { result ≡ port_due_after read seen }
    {
        match seen {
            1 if read => Due::Take,
            1 => Due::Give,
            2 | 4 => Due::Pass,
            _ => Due::Lost,
        }
    }

    /// Returns how many ones of a line reset, from the first on, the host leaves undriven. It is 34 where the target
    /// may be driving the line, else 0 (which of the ones: this project's choice).
    pub fn undriven(self) -> u32
        ensures none { self ≡ Nothing → result ≡ 0 }
        ensures some { self ≢ Nothing → result ≡ 34 }
    {
        match self {
            Due::Nothing => 0,
            _ => UNDRIVEN,
        }
    }
}

/// The host's end of a serial wire (IHI 0031, B4). Each call is a step of the port model at the other end, whose state
/// contracts see as `port`.
///
/// An implementer writes `due` and `step`. `looks_ahead` and `announce` are for wires over which an exchange is slow,
/// and for those that pass calls on. The other calls are named cues of `step`. Bits are numbers with the first bit in
/// time least significant. No call fails. `due` returns what has to come next, which follows from what was seen:
///
/// ```text
/// // What DPIDR reads after a line reset.
/// fn identification<W: Wire>(wire: &mut W) -> Option<u32>
///     requires { (W.port wire.old).link ≡ port_idle_link }
/// {
///     wire.line_reset();
///     match wire.ask(Register::DpidrRead.request()) {
///         1 => word_of(wire.take()),
///         2 | 4 => {
///             wire.pass();
///             None
///         }
///         _ => None,
///     }
/// }
/// ```
pub trait Wire {
    /// The state of the port model at the other end, with the counts of requests so far.
    ghost port: { Self → Port };

    /// The marks that a simulated end was made with; empty for others. No call changes them. The model gives them no
    /// meaning: the mark of each request is freely chosen.
    ghost plan: { Self → List Mark } = { λ _. [] };

    /// What was seen so far is consistent with the port model in the state `port`. For a simulated end this is proved
    /// to hold. For hardware nobody can prove it: there the contracts of a run hold under it.
    ghost lawful: { Self → Type 0 } = { λ _. Unit {0} };

    /// The calls so far, the last one first, if a wire records them. Optional.
    ghost notes: { List Call → Self → Type 0 } = { λ _ _. Unit {0} };

    /// Returns what has to come next.
    fn due(&self) -> Due
        ensures { result ≡ (port self.now).link.due };

    /// Performs the cue, and returns what is seen. After a request these are three bits: 1 is OK, 2 WAIT, 4 FAULT, and
    /// every other number no acknowledgement. For a read's data phase they are its 33 bits; for any other cue 0.
    fn step(&mut self, cue: Cue) -> u64
        requires { PortMayStep (port self.old).link.due cue }
        ensures seen { IsPortSeen cue result }
        ensures due { (port self.new).link.due ≡ port_due_once cue result }
        ensures step { lawful self.new → lawful self.old × IsPortStep cue result (port self.old) (port self.new) }
        ensures plan { plan self.new ≡ plan self.old }
        ensures notes { (calls : List Call) → notes calls self.old
            → notes (record { cue = cue; seen = result } ∷ calls) self.new };

    /// Returns how much of a burst one exchange holds, if [`announce`](Wire::announce) is of use to this wire now.
    #[inline(always)]
    fn looks_ahead(&self) -> Option<Pieces> {
        None
    }

    /// Tells which transactions come next, each as long as those before it are answered OK with right parity. A wire
    /// to a probe can have several made by one exchange. It makes no call, and changes nothing that contracts see.
    #[inline(always)]
    fn announce(&mut self, _coming: &[Coming])
        ensures port { port self.new ≡ port self.old }
        ensures plan { plan self.new ≡ plan self.old }
        ensures lawful { lawful self.new → lawful self.old }
        ensures notes { (calls : List Call) → notes calls self.old → notes calls self.new }
    {}

    /// Drives `ones` cycles high, if `switch` the sixteen bits 0111100111100111 in time order and the ones again, and
    /// then `zeros` cycles low. With ones this is a line reset. Where anything but `Due::Nothing` is due, the first 34
    /// of the ones are left undriven.
    #[inline(always)]
    final fn lead(&mut self, ones: u32, switch: bool, zeros: u32)
        requires { PortMayLead (port self.old).link.due ones switch zeros }
        ensures due { (port self.new).link.due ≡ Nothing }
        ensures step { lawful self.new → lawful self.old × PortLeads (port self.old) ones (port self.new) }
        ensures plan { plan self.new ≡ plan self.old }
    {
        let undriven = self.due().undriven();
        let _ = self.step(Cue::Lead {
            ones,
            undriven,
            switch,
            zeros,
        });
    }

    /// Sends a line reset: 56 ones and two zeros. It changes no DP or AP register. The target then awaits a read of
    /// DPIDR (IHI 0031, B4, "Connection and line reset sequence"). It is for a line between transactions: inside one, a
    /// data phase takes some of the ones, and what is left may be too few. There, `lead` with a hundred ones resets.
    final fn line_reset(&mut self)
        requires due { (port self.old).link.due ≡ Nothing }
        requires line { lawful self.old → (port self.old).link.line ≡ Idle }
        ensures due { (port self.new).link.due ≡ Nothing }
        ensures step { lawful self.new → lawful self.old × PortLeads (port self.old) 56 (port self.new) }
        ensures plan { plan self.new ≡ plan self.old }
    {
        self.lead(56, false, 2)
    }

    /// Sends idle cycles, in which a pending transfer can complete (IHI 0031, B4, "Idle cycles").
    final fn idle(&mut self, cycles: u32)
        requires { (port self.old).link.due ≡ Nothing }
        ensures due { (port self.new).link.due ≡ Nothing }
        ensures step { lawful self.new → lawful self.old × PortLeads (port self.old) 0 (port self.new) }
        ensures plan { plan self.new ≡ plan self.old }
    {
        self.lead(0, false, cycles)
    }

    /// Sends the eight bits of a request, and returns the three bits seen after a turnaround: 1 is OK, 2 WAIT, 4 FAULT,
    /// and every other number is no acknowledgement.
    #[inline(always)]
    final fn ask(&mut self, request: Request) -> u8
        requires { (port self.old).link.due ≡ Nothing }
        ensures range { result < 8 }
        ensures due { (port self.new).link.due ≡ port_due_after request.read result }
        ensures step { lawful self.new → lawful self.old × PortAsks (port self.old) request result (port self.new) }
        ensures plan { plan self.new ≡ plan self.old }
    {
        self.step(Cue::Ask(request)) as u8
    }

    /// Returns the 33 bits of a read's data phase, 32 of the word and above them the parity, and passes the turnaround.
    #[inline(always)]
    final fn take(&mut self) -> u64
        requires { (port self.old).link.due ≡ Take }
        ensures range { result < 2 ^ 33 }
        ensures due { (port self.new).link.due ≡ Nothing }
        ensures step { lawful self.new → lawful self.old × PortTakes (port self.old) result (port self.new) }
        ensures plan { plan self.new ≡ plan self.old }
    {
        self.step(Cue::Take)
    }

    /// Sends the turnaround and the 33 bits of a write's data phase, 32 of the word and above them the parity.
    #[inline(always)]
    final fn give(&mut self, bits: u64)
        requires due { (port self.old).link.due ≡ Give }
        requires range { bits < 2 ^ 33 }
        ensures due { (port self.new).link.due ≡ Nothing }
        ensures step { lawful self.new → lawful self.old × PortGives (port self.old) bits (port self.new) }
        ensures plan { plan self.new ≡ plan self.old }
    {
        let _ = self.step(Cue::Give(bits));
    }

    /// Sends the turnaround after WAIT or FAULT.
    #[inline(always)]
    final fn pass(&mut self)
        requires { (port self.old).link.due ≡ Pass }
        ensures due { (port self.new).link.due ≡ Nothing }
        ensures step { lawful self.new → lawful self.old × PortPasses (port self.old) (port self.new) }
        ensures plan { plan self.new ≡ plan self.old }
    {
        let _ = self.step(Cue::Pass);
    }
}

impl<W: Wire> Wire for &mut W {
    ghost port = { λ wire. W.Wire.port wire.now };

    ghost plan = { λ wire. W.Wire.plan wire.now };

    ghost lawful = { λ wire. W.Wire.lawful wire.now };

    ghost notes = { λ calls wire. W.Wire.notes calls wire.now };

    fn due(&self) -> Due {
        (**self).due()
    }

    #[inline(always)]
    fn step(&mut self, cue: Cue) -> u64 {
        (**self).step(cue)
    }

    #[inline(always)]
    fn looks_ahead(&self) -> Option<Pieces> {
        (**self).looks_ahead()
    }

    #[inline(always)]
    fn announce(&mut self, coming: &[Coming]) {
        (**self).announce(coming);
    }
}
