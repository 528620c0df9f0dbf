//! What is looked at beside the rules of the port model.
ghost use Rattle.std.specs.Prelude.{◌≡◌, false, IfSome};
ghost use Rattle.swd_check.specs.Watched.{is_check_rule};

use crate::check::CheckOptions;
use crate::exact::ExactRegisters;
use crate::plain::{NotPlain, PlainMemory};
use crate::why::Why;
use std::alloc::Allocator;
use swd_bits::Tx;
use swd_checker::CheckStart;
use swd_observer::{Observations, ObservedAccess, Observer, ShownItem};

/// What is looked at beside the rules: this project's own registers, and plain memories.
#[derive(Drop)]
pub(crate) struct Beside<A: Allocator> {
    clean: bool,
    exact: Option<ExactRegisters>,
    plain: PlainMemory<A>,
}

impl<A: Allocator + Copy> Beside<A> {
    /// Returns what is looked at before the first item.
    pub(crate) fn new(options: CheckOptions, plain: PlainMemory<A>) -> Beside<A> {
        Beside {
            clean: options.clean,
            exact: if !options.exact_registers {
                None
            } else if options.start == CheckStart::Made {
                Some(ExactRegisters::made())
            } else {
                Some(ExactRegisters::unknown())
            },
            plain,
        }
    }

    /// Returns whether anything is looked at.
    pub(crate) fn looks(&self) -> bool {
        self.exact.is_some() || !self.plain.is_empty()
    }

    /// Returns the place from which on it isn't decided, since there was no memory to note a word of a plain memory.
    pub(crate) fn full(&self) -> Option<u64> {
        self.plain.full()
    }

    /// Takes a transaction, with what is known before and after it, and what it shows. Returns why it isn't right, if
    /// it isn't.
    pub(crate) fn take(
        &mut self,
        before: &Observer,
        tx: &Tx,
        after: &Observer,
        shown: &ShownItem,
    ) -> Option<Why>
        ensures { IfSome result (λ why. is_check_rule why ≡ false) }
    {
        if let Some(due) = self.compare(before, tx, after) {
            return Some(Why::Register(due));
        }
        match self.look(&shown.tells) {
            Some(fault) => Some(Why::Memory(fault)),
            None => None,
        }
    }

    /// Takes an item that is no transaction: in a gap what is known is forgotten.
    pub(crate) fn show(&mut self, shown: &ShownItem) {
        if shown.gap.is_some() {
            self.forget();
        }
    }

    /// Forgets what is known.
    pub(crate) fn forget(&mut self) {
        self.plain.forget();
        if self.exact.is_some() {
            self.exact = Some(ExactRegisters::unknown());
        }
    }

    // Compares a register with that of this project's simulated target. Returns its word, if it is another.
    fn compare(&mut self, before: &Observer, tx: &Tx, after: &Observer) -> Option<u32> {
        let Some(mut exact) = self.exact else {
            return None;
        };
        let due = exact.take(before, tx, after);
        self.exact = Some(exact);
        due
    }

    // Takes the accesses that an item shows. Returns why one isn't one of a plain memory.
    fn look(&mut self, tells: &Observations) -> Option<NotPlain> {
        let older = self.look_at(tells.older);
        if older.is_some() {
            return older;
        }
        let before = self.look_at(tells.before);
        if before.is_some() {
            return before;
        }
        self.look_at(tells.itself)
    }

    fn look_at(&mut self, told: Option<ObservedAccess>) -> Option<NotPlain> {
        match told {
            Some(told) => self.plain.take(&told, self.clean),
            None => None,
        }
    }
}
