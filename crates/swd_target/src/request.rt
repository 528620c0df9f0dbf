//! A request at a simulated target, and the data of a write, as both benches use them.
ghost use Rattle.std.specs.Prelude.{◌≡◌, ◌<◌, ◌^◌, false, true};
ghost use Rattle.swd_bits.specs.Phases.{data_phase_word};
ghost use Rattle.swd_port.specs.Choices.{IsPortMark, is_port_deaf};
ghost use Rattle.swd_port.specs.Asking.{IsPortWordRead, port_value_in};
ghost use Rattle.swd_port.specs.Moving.{port_arrival, port_arrival_of, port_bits_driven};
ghost use Rattle.swd_target.specs.Flips.{target_flip_place, target_awaited_flip};
ghost use Rattle.swd_target.specs.Simulations.{simulation_accepted_after, simulation_choice_at};

use crate::device::Device;
use crate::phase::{flip_bit, flip_line, flip_under, phase_of};
use crate::target::Target;
use swd_bits::{Request, word_of};
use swd_port::{AfterAck, Mark, Register, Reply};

impl<D: Device> Target<D> {
    ghost use Rattle.swd_target.specs.Targets.{target_state, target_simulation, target_choice_at, target_phase_in};
    ghost use Rattle.swd_target.specs.Requests.{TargetAnswers, TargetAnswersUnder, DataComes, TargetTransfers};

    /// Performs a request, and returns the reply and the data phase that follows an OK. `waits` asks for WAIT. A read
    /// of CTRL/STAT, which never gets WAIT, then finds power-up not acknowledged, unless it was read as acknowledged
    /// before.
    #[inline(always)]
    pub fn request(&mut self, waits: bool, request: Request) -> (Reply, AfterAck)
        ensures answers { TargetAnswers D.bus waits request self.old result.0 result.1 self.new }
        ensures quirks { (target_simulation D.bus self.new).quirks ≡ (target_simulation D.bus self.old).quirks }
        ensures quiet { (target_simulation D.bus self.old).quirks.late ≡ true
            → (target_state D.bus self.old).pending ≡ None → self.new.device ≡ self.old.device }
        ensures driven { port_bits_driven result.1 < 2 ^ 33 }
    {
        let register = Register::named(self.select, request);
        let reply = self.reply(waits, register, request.ap);
        let phase = self.phase(waits, reply, register, request);
        self.apply(waits, reply, register, request);
        self.accept_after(reply);
        (reply, phase)
    }

    // Lets a transfer that an OK accepted take effect as the quirks say.
    fn accept_after(&mut self, reply: Reply)
        ensures effect { TargetTransfers (target_state D.bus self.old) (target_state D.bus self.new) }
        ensures exact { target_simulation D.bus self.new
            ≡ simulation_accepted_after reply (target_simulation D.bus self.old) }
        ensures late { self.old.quirks.late ≡ true → self.new ≡ self.old }
    {
        if let Reply::Okay = reply {
            self.accept();
        }
    }

    // Returns the data phase that follows a reply.
    fn phase(&self, waits: bool, reply: Reply, register: Register, request: Request) -> AfterAck
        ensures phase { result ≡ target_phase_in (target_choice_at waits register request.addr self.now) reply
            request.read register (target_state D.bus self.now) }
        ensures exact { result
            ≡ target_phase_in (simulation_choice_at waits register request.addr (target_simulation D.bus self.now))
            reply request.read register (target_simulation D.bus self.now).state }
        ensures word { IsPortWordRead reply request.read (port_value_in
            (target_choice_at waits register request.addr self.now) register (target_state D.bus self.now)) }
        ensures driven { port_bits_driven result < 2 ^ 33 }
    {
        match reply {
            Reply::Okay => phase_of(request.read, register, self.value(waits, register)),
            _ => AfterAck::Idle,
        }
    }

    // Performs a request under a mark, and returns the reply and the data phase that follows an OK, as it arrives.
    #[inline(always)]
    pub(crate) fn request_under(&mut self, mark: Mark, request: Request) -> (Reply, AfterAck)
        requires { IsPortMark mark }
        ensures answers { TargetAnswersUnder D.bus mark request self.old result.0 result.1 self.new }
        ensures driven { port_bits_driven result.1 < 2 ^ 33 }
        ensures flipped { target_flip_place (target_awaited_flip result.1) < 33 }
    {
        match mark {
            Mark::Clean => self.request_heard(Mark::Clean, request),
            Mark::Deaf => (Reply::Silent, AfterAck::Idle),
            _ => self.request_disturbed(mark, request),
        }
    }

    // Performs a request under a mark at which the target sees it.
    #[inline(always)]
    fn request_heard(&mut self, mark: Mark, request: Request) -> (Reply, AfterAck)
        requires mark { IsPortMark mark }
        requires heard { is_port_deaf mark ≡ false }
        ensures answers { TargetAnswersUnder D.bus mark request self.old result.0 result.1 self.new }
        ensures driven { port_bits_driven result.1 < 2 ^ 33 }
        ensures flipped { target_flip_place (target_awaited_flip result.1) < 33 }
    {
        let (reply, phase) = self.request(matches!(&mark, Mark::Wait), request);
        (reply, flip_line(flip_under(mark), phase))
    }

    // Out of line: nearly every mark is `Clean`, and for `Clean` the compiler drops what the other marks need.
    #[inline(never)]
    fn request_disturbed(&mut self, mark: Mark, request: Request) -> (Reply, AfterAck)
        requires mark { IsPortMark mark }
        requires heard { is_port_deaf mark ≡ false }
        ensures answers { TargetAnswersUnder D.bus mark request self.old result.0 result.1 self.new }
        ensures driven { port_bits_driven result.1 < 2 ^ 33 }
        ensures flipped { target_flip_place (target_awaited_flip result.1) < 33 }
    {
        self.request_heard(mark, request)
    }

    /// Takes the 33 bits of a write, the first in time least significant. With right parity the write is done;
    /// otherwise WDATAERR is set.
    pub fn arrive(&mut self, register: Register, bits: u64)
        requires { bits < 2 ^ 33 }
        ensures comes { DataComes D.bus (port_arrival_of register (data_phase_word bits)) self.old self.new }
        ensures quirks { (target_simulation D.bus self.new).quirks ≡ (target_simulation D.bus self.old).quirks }
        ensures quiet { (target_simulation D.bus self.old).quirks.late ≡ true
            → self.new.device ≡ self.old.device }
    {
        match word_of(bits) {
            Some(word) => {
                self.write(register, word);
                self.accept();
            }
            None => self.refuse_write(),
        }
    }

    // Sends the 33 bits of a write to a target that awaits them, with the awaited bit changed, if any.
    pub(crate) fn arrive_on(&mut self, line: AfterAck, bits: u64)
        requires range { bits < 2 ^ 33 }
        requires flip { target_flip_place (target_awaited_flip line) < 33 }
        ensures { DataComes D.bus (port_arrival line bits) self.old self.new }
    {
        if let AfterAck::Awaits(register, flip) = line {
            self.arrive(register, flip_bit(flip, bits));
        }
    }
}
