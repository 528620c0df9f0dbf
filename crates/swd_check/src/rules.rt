//! The rules of the port model, up to where a session leaves it.
ghost use Rattle.std.specs.Prelude.{◌≡◌, ◌⊎◌, true, false, IfSome, None, []};
ghost use Rattle.swd_bits.specs.declared.tx.Tx.{Tx as Transaction};
ghost use Rattle.swd_trace.specs.declared.item.Item.{Item};
ghost use Rattle.swd_checker.specs.Standing.{CheckerWatches, CheckerLeaves};
ghost use Rattle.swd_checker.specs.Standing.{checker_gap};
ghost use Rattle.swd_checker.specs.Knowing.{opening_after_item};
ghost use Rattle.swd_checker.specs.Fitting.{CheckerBeginsBy, CheckerFollows, CheckerKnows};
ghost use Rattle.swd_check.specs.Watched.{CheckRulesHold, CheckRulesTake, IsCheckedAnswer, is_checked_ack};
ghost use Rattle.swd_check.specs.Watched.{is_check_untold};

use crate::check::CheckOptions;
use crate::leaving::{Leaving, Left};
use crate::overrun::Overrun;
use crate::recent::Recent;
use swd_bits::{Tx, TxEnd};
use swd_checker::{Checker, Origins, Reason, Verdict};
use swd_trace::Item;

/// The rules of the port model, by a checker, and where the session left the model.
#[derive(Drop)]
pub(crate) struct Rules {
    checker: Checker,
    origins: Origins,
    overrun: Overrun,
    recent: Recent,
    /// Where the session first left the model.
    outside: Option<Left>,
    /// Whether it left the model and there was no line reset since.
    is_outside: bool,
    /// Whether the target acknowledged a request that was checked.
    is_answered: bool,
    /// Whether the bits of a read's word with wrong parity aren't told.
    untold: bool,
}

/// Where a transaction stands.
#[derive(Clone, Copy)]
pub(crate) enum Stand {
    /// In the model, by whose rules it was taken.
    Inside,
    /// There the session leaves the model.
    Leaves,
    /// Outside of the model, up to the next line reset.
    Outside,
}

impl Rules {
    /// Returns the rules before the first item.
    pub(crate) fn new(options: CheckOptions) -> Rules
        ensures holds { CheckRulesHold options.start options.clean result [] }
        ensures unbroken { result.checker.broken ≡ None }
    {
        Rules {
            checker: Checker::of(options.start, options.clean),
            origins: Origins::new(),
            overrun: Overrun::new(options.overrun, options.clean),
            recent: Recent::new(options.clean),
            outside: None,
            is_outside: false,
            is_answered: false,
            untold: false,
        }
    }

    /// Returns these rules for a session in which the bits of a read's word with wrong parity aren't told, if `untold`
    /// is true.
    pub(crate) fn with_untold(self, untold: bool) -> Rules
        ensures { result ≡ record self { untold = untold } }
    {
        Rules { untold, ..self }
    }

    /// Takes the next item, which is no transaction.
    pub(crate) fn show(&mut self, item: &Item, place: u64)
        ensures takes { CheckRulesTake item.now place self.old self.new }
        ensures broken { ((tx : Transaction) → item.now ≡ Item.Tx tx → ⊥)
            → self.new.checker.broken ≡ self.old.checker.broken }
    {
        let ends = self.recent.ends(item);
        match item {
            Item::Reset(_) if ends => self.leave_and_reset(item, place),
            Item::Reset(_) => self.reset(item, place),
            Item::Idle(_) => self.checker.watch(item, place),
            _ => self.follow(item, place),
        }
    }

    /// Takes the next transaction. Returns where it stands.
    pub(crate) fn transact(&mut self, tx: &Tx, place: u64) -> Stand
        ensures takes { CheckRulesTake (Item.Tx tx.now) place self.old self.new }
        ensures broken { (result ≡ Stand.Inside → ⊥) → self.new.checker.broken ≡ self.old.checker.broken }
        ensures untold { is_check_untold self.old.untold tx.now ≡ true → result ≡ Stand.Inside → ⊥ }
    {
        self.recent.transact(tx);
        let overruns = self.overrun.leaves(tx);
        if self.is_outside {
            return Stand::Outside;
        }
        if let Some(why) = leaving(overruns, is_untold(self.untold, tx)) {
            self.leave(place, why);
            return Stand::Leaves;
        }
        self.follow(&Item::Tx(*tx), place);
        self.note_answer(tx);
        Stand::Inside
    }

    /// Returns why the last transaction breaks a rule, if it does.
    pub(crate) fn reason(&self, tx: &Tx) -> Option<Reason>
        ensures breaks { IfSome result (λ _. self.now.checker.broken ≡ None → ⊥) }
        ensures goes_on { result ≡ None → self.now.checker.broken ≡ None }
    {
        self.checker.reason(tx, &self.origins)
    }

    /// Returns why the last transaction may keep the standard, though it breaks a rule for this reason, if it may.
    pub(crate) fn excuse(&self, reason: &Reason, tx: &Tx) -> Option<Leaving> {
        Leaving::of(reason, tx, self.recent.is_burst())
    }

    /// Returns whether all items so far were checked and decided.
    pub(crate) fn is_decided(&self) -> bool
        ensures inside { result ≡ true → self.now.outside ≡ None }
        ensures uncrowded { result ≡ true → self.now.checker.crowded ≡ None }
    {
        self.outside.is_none() && matches!(self.checker.verdict(), Verdict::Fits)
    }

    /// Returns the place of the first item that was checked, or `None` if none was yet.
    pub(crate) fn began(&self) -> Option<u64>
        ensures { result ≡ self.now.checker.began }
    {
        self.checker.began()
    }

    /// Returns how many gaps there were.
    pub(crate) fn gaps(&self) -> u64 {
        self.checker.gaps()
    }

    /// Returns how many requests were damaged or lost at least.
    pub(crate) fn faults(&self) -> u64 {
        self.checker.faults()
    }

    /// Returns where the session first left the model.
    pub(crate) fn outside(&self) -> Option<Left>
        ensures { result ≡ self.now.outside }
    {
        self.outside
    }

    /// Returns whether the target acknowledged a request that was checked.
    pub(crate) fn is_answered(&self) -> bool
        ensures { result ≡ self.now.is_answered }
    {
        self.is_answered
    }

    /// Returns the place from which on it isn't decided, since there were too many worlds, or too little was known.
    pub(crate) fn crowded(&self) -> Option<u64>
        ensures crowded { result ≡ None → self.now.checker.broken ≡ None → self.now.checker.crowded ≡ None }
        ensures began { result ≡ None → self.now.checker.began ≡ None → ⊥ }
    {
        match (self.checker.verdict(), self.checker.began()) {
            (Verdict::Crowded { place }, _) => Some(place),
            (_, None) => Some(0),
            _ => None,
        }
    }

    // Takes a line reset.
    fn reset(&mut self, item: &Item, place: u64)
        ensures watches { CheckerWatches item.now self.old.checker self.new.checker }
        ensures follows { CheckerFollows item.now self.old.checker self.new.checker }
        ensures begins { CheckerBeginsBy item.now place self.old.checker self.new.checker }
        ensures knows { self.old.checker.broken ≡ None → CheckerKnows (opening_after_item item.now
            (checker_gap self.old.checker) self.old.checker.opening) self.old.checker self.new.checker }
        ensures outside { self.new.is_outside ≡ false }
        ensures place { self.new.outside ≡ self.old.outside }
        ensures answered { self.new.is_answered ≡ self.old.is_answered }
    {
        self.is_outside = false;
        self.follow(item, place);
    }

    // Gives an item to the checker, and notes what it changed.
    fn follow(&mut self, item: &Item, place: u64)
        ensures watches { CheckerWatches item.now self.old.checker self.new.checker }
        ensures follows { CheckerFollows item.now self.old.checker self.new.checker }
        ensures begins { CheckerBeginsBy item.now place self.old.checker self.new.checker }
        ensures knows { self.old.checker.broken ≡ None → CheckerKnows (opening_after_item item.now
            (checker_gap self.old.checker) self.old.checker.opening) self.old.checker self.new.checker }
        ensures outside { self.new.is_outside ≡ self.old.is_outside }
        ensures place { self.new.outside ≡ self.old.outside }
        ensures answered { self.new.is_answered ≡ self.old.is_answered }
    {
        self.checker.watch(item, place);
        self.note(item, place);
    }

    // Notes what an item changed, unless it breaks a rule.
    fn note(&mut self, item: &Item, place: u64)
        ensures checker { self.new.checker ≡ self.old.checker }
        ensures outside { self.new.is_outside ≡ self.old.is_outside }
        ensures place { self.new.outside ≡ self.old.outside }
        ensures answered { self.new.is_answered ≡ self.old.is_answered }
    {
        if !matches!(self.checker.verdict(), Verdict::Breaks { .. }) {
            self.origins.note(&self.checker, item, place);
        }
    }

    // Notes that a transaction that was taken was checked and acknowledged, if it was.
    fn note_answer(&mut self, tx: &Tx)
        ensures checker { self.new.checker ≡ self.old.checker }
        ensures outside { self.new.is_outside ≡ self.old.is_outside }
        ensures place { self.new.outside ≡ self.old.outside }
        ensures answered { self.new.is_answered ≡ true
            → (self.old.is_answered ≡ true) ⊎ (IsCheckedAnswer (Item.Tx tx.now)) }
    {
        if is_answer(tx) && self.checker.worlds() > 0 {
            self.is_answered = true;
        }
    }

    // Leaves the model, and takes the line reset that ends that.
    fn leave_and_reset(&mut self, item: &Item, place: u64)
        ensures takes { CheckRulesTake item.now place self.old self.new }
        ensures broken { ((tx : Transaction) → item.now ≡ Item.Tx tx → ⊥)
            → self.new.checker.broken ≡ self.old.checker.broken }
    {
        self.leave(place, Leaving::SentOn);
        self.reset(item, place);
    }

    // Leaves the model up to the next line reset.
    fn leave(&mut self, place: u64, why: Leaving)
        ensures leaves { CheckerLeaves self.old.checker self.new.checker }
        ensures answered { self.new.is_answered ≡ self.old.is_answered }
        ensures outside { self.new.is_outside ≡ true }
        ensures left { self.new.outside ≡ None → ⊥ }
    {
        self.checker.leave();
        self.origins = Origins::new();
        self.outside = self.outside.or(Some(Left { place, why }));
        self.is_outside = true;
    }
}

// Returns why a transaction leaves the model, if it does.
fn leaving(overruns: bool, is_untold: bool) -> Option<Leaving>
    ensures { is_untold ≡ true → result ≡ None → ⊥ }
{
    if is_untold {
        Some(Leaving::Untold)
    } else if overruns {
        Some(Leaving::Overrun)
    } else {
        None
    }
}

// Returns whether the bits of a transaction's word aren't told.
fn is_untold(untold: bool, tx: &Tx) -> bool
    ensures { result ≡ is_check_untold untold tx.now }
{
    match tx.result {
        TxEnd::Moved { parity_ok, .. } => untold && tx.request.read && !parity_ok,
        _ => false,
    }
}

// Returns whether a request was acknowledged.
fn is_answer(tx: &Tx) -> bool
    ensures { result ≡ is_checked_ack tx.now.result }
{
    !matches!(&tx.result, TxEnd::NoAck(_))
}
