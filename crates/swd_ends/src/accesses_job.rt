//! The run of a list of accesses, for [`over_line`](swd_remote::over_line).
ghost use Rattle.swd_ends.specs.AccessRuns.{RanEndAccesses};

use std::alloc::Allocator;
use swd_host::{Refused, Report, run};
use swd_port::{Access, Story, Tied, Transport, TransportWire};
use swd_remote::LineJob;

/// A run of a list of accesses, by [`run`]. Without an access it opens the target alone.
#[derive(Drop)]
pub struct AccessesJob<'a, A: Allocator> {
    /// What the answers are allocated with.
    pub alloc: A,
    /// The accesses, in order.
    pub accesses: &'a [Access],
    /// The number of events that an access may meet.
    pub tries: u32,
}

impl<A: Allocator + Copy> LineJob for AccessesJob<'_, A> {
    type Answer = Result<Report<A>, Refused>;

    ghost came = { λ story old new answer calls. RanEndAccesses story old.accesses.now old.tries answer calls };

    fn perform<T: Transport, P: Story>(
        &mut self,
        wire: TransportWire<T, P, Tied>,
    ) -> (Result<Report<A>, Refused>, TransportWire<T, P, Tied>) {
        let mut wire = wire;
        let answer = run(self.alloc, &mut wire, self.accesses, self.tries);
        (answer, wire)
    }
}
