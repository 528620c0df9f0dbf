//! How much of a plan goes by one packet of `DAP_Transfer`.
ghost use Rattle.std.specs.Prelude.{◌≡◌, ◌≤◌, IfSome, false, length, map, take};
ghost use Rattle.swd_dap.specs.Transfers.{IsDapBeginning, DapFilledWith, dap_admits, dap_requests_of, dap_transfer_of};

use crate::transfer::Transfer;
use arrayvec::ArrayVec;
use swd_port::Coming;

// The bytes before the requests of a packet, and before the words of its reply.
pub(crate) const HEAD: usize = 3;

// The most requests of a packet.
const MOST_REQUESTS: usize = 255;

/// The most transactions of a plan that are looked at.
pub(crate) const MOST: usize = 160;

/// Transactions that come next, each as long as those before it are OK.
pub(crate) type Plan = ArrayVec<Transfer, MOST>;

/// Returns the plan of what is announced.
pub(crate) fn plan_of(coming: &[Coming]) -> Plan
    ensures { result.items ≡ map dap_transfer_of (take 160 coming.now) }
{
    let mut plan = Plan::new();
    for next in &coming[..coming.len().min(MOST)] {
        plan.push(Transfer::of(*next));
    }
    plan
}

/// Returns the requests of a packet that makes these transactions: all but the reads of RDBUFF that the probe makes by
/// itself.
pub(crate) fn requests_of(transactions: &[Transfer]) -> Plan
    requires { length transactions.now ≤ 160 }
    ensures { result.items ≡ dap_requests_of false transactions.now }
{
    let mut requests = Plan::new();
    let mut posts = false;
    for next in transactions {
        if !next.is_hidden(posts) {
            requests.push(*next);
        }
        posts = next.posts();
    }
    requests
}

/// What a packet has before its next request.
#[derive(Clone, Copy)]
struct Filled {
    // The bytes of the packet, and those of its reply, with a word for each read.
    bytes: usize,
    reply: usize,
    // Whether the last transaction is a read of the access port.
    posts: bool,
    // Whether a read of the access port has a word that wasn't fetched.
    posted: bool,
    // Whether the last transaction is a read of RDBUFF that is no request.
    hides: bool,
}

impl Filled {
    // Returns whether the probe makes no other transaction between the last one and this one, and drops no word. Behind
    // a read of RDBUFF that is no request a padded reply wouldn't tell which of the two wasn't OK; between two reads of
    // the access port the probe would leave it out.
    fn admits(&self, next: &Transfer, padded: bool) -> bool
        ensures { result ≡ dap_admits padded self.now next.now.request }
    {
        if self.hides {
            return !padded && !next.posts();
        }
        if next.posts() {
            self.posts || !self.posted
        } else {
            !self.posts || next.is_rdbuff()
        }
    }

    // Returns what a packet has with one more transaction, or `None` if it doesn't fit or can't follow.
    fn with(&self, next: &Transfer, size: usize, padded: bool) -> Option<Filled>
        requires { (self.now.bytes ≤ 512) × (self.now.reply ≤ 512) }
        ensures { IfSome result (DapFilledWith padded self.now next.now size) }
    {
        if !self.admits(next, padded) {
            return None;
        }
        let hides = next.is_hidden(self.posts);
        let filled = Filled {
            bytes: self.bytes + next.request_bytes(self.posts),
            reply: self.reply + next.reply_bytes(self.posts),
            posts: next.posts(),
            posted: next.leaves_posted(self.posted),
            hides,
        };
        if filled.bytes <= size && filled.reply <= size {
            Some(filled)
        } else {
            None
        }
    }
}

/// Returns the length of the longest beginning of a plan that goes by one packet of this size; 0 if there is none.
/// `padded`: whether replies may be padded. `posted`: whether a read of the access port has a word that wasn't fetched
/// yet.
pub(crate) fn longest_beginning(plan: &[Transfer], size: usize, padded: bool, posted: bool) -> usize
    requires { (64 ≤ size) × (size ≤ 512) }
    ensures { IsDapBeginning plan.now size padded posted result }
{
    let mut longest = 0;
    let mut filled = Filled {
        bytes: HEAD,
        reply: HEAD,
        posts: false,
        posted,
        hides: false,
    };
    for place in 0..plan.len().min(MOST_REQUESTS) {
        let next = &plan[place];
        let Some(more) = filled.with(next, size, padded) else {
            return longest;
        };
        filled = more;
        if next.reads_dp() {
            longest = place + 1;
        }
    }
    longest
}
