//! The plan of a simulated wire: the marks of its requests, and how many of them were used.
ghost use Rattle.std.specs.Prelude.{◌≡◌, ◌+◌, true, length, min, take};
ghost use Rattle.std.specs.List.{list_all};
ghost use Rattle.swd_port.specs.Choices.{IsPortMark, port_disturbs, port_loses};
ghost use Rattle.swd_port.specs.MarkCounts.{port_disturbed_among, port_lost_among};
ghost use Rattle.swd_target.specs.Marks.{is_legal_mark, IsLegalPlan};

use std::alloc::{Allocator, Global};
use swd_port::{Count, Mark};

/// The marks of a simulated wire's requests, in order. After the last mark every request is `Clean`.
#[derive(Debug, Drop)]
pub struct Plan<A: Allocator = Global> {
    marks: Vec<Mark, A>,
    next: usize,
    // The counts of requests, of disturbed and of lost ones, for contracts alone.
    asked: Count,
    disturbed: Count,
    lost: Count,
    ghost legal: { list_all is_legal_mark marks.items ≡ true },
    ghost counted: { next ≡ min asked.ticks (length marks.items) },
    ghost counted_disturbed: { disturbed.ticks ≡ port_disturbed_among (take asked.ticks marks.items) },
    ghost counted_lost: { lost.ticks ≡ port_lost_among (take asked.ticks marks.items) },
}

impl<A: Allocator> Plan<A> {
    ghost use Rattle.swd_target.specs.Plans.{plan_marks, plan_tally, plan_next_mark};

    /// Creates a plan of which no mark was used yet.
    pub fn new(marks: Vec<Mark, A>) -> Plan<A>
        requires { IsLegalPlan marks.items }
        ensures marks { plan_marks result ≡ marks.items }
        ensures asked { (plan_tally result).asked ≡ 0 }
        ensures disturbed { (plan_tally result).disturbed ≡ 0 }
        ensures lost { (plan_tally result).lost ≡ 0 }
    {
        Plan {
            marks,
            next: 0,
            asked: Count::new(),
            disturbed: Count::new(),
            lost: Count::new(),
        }
    }

    /// Consumes the plan, and returns all its marks.
    pub fn into_marks(self) -> Vec<Mark, A>
        ensures { result.items ≡ plan_marks self }
    {
        self.marks
    }

    /// Uses the mark of the next request, and returns it.
    pub fn use_mark(&mut self) -> Mark
        ensures mark { result ≡ plan_next_mark self.old }
        ensures legal { IsPortMark result }
        ensures marks { plan_marks self.new ≡ plan_marks self.old }
        ensures asked { (plan_tally self.new).asked ≡ (plan_tally self.old).asked + 1 }
        ensures disturbed { (plan_tally self.new).disturbed ≡ (plan_tally self.old).disturbed + port_disturbs result }
        ensures lost { (plan_tally self.new).lost ≡ (plan_tally self.old).lost + port_loses result }
    {
        let mark = self.next_mark();
        self.asked.tick();
        match mark {
            Mark::Clean => {}
            Mark::Wait | Mark::Flip(_) => self.disturbed.tick(),
            Mark::Deaf | Mark::Mute(_) => self.lost.tick(),
        }
        if self.next < self.marks.len() {
            self.next += 1;
        }
        mark
    }

    /// Returns the mark of the next request.
    pub fn next_mark(&self) -> Mark
        ensures mark { result ≡ plan_next_mark self.now }
        ensures legal { IsPortMark result }
    {
        match self.marks.get(self.next) {
            Some(mark) => *mark,
            None => Mark::Clean,
        }
    }
}
