//! Transactions, as requests of `DAP_Transfer`.
ghost use Rattle.std.specs.Prelude.{◌≡◌, ◌&&◌, length};
ghost use Rattle.swd_dap.specs.Transfers.{dap_code, dap_all_bytes, dap_posts, dap_reads_dp, dap_fetches, dap_hides};
ghost use Rattle.swd_dap.specs.Transfers.{dap_posted_behind, dap_transfer_of, dap_reading, dap_shown, dap_reply_room};
ghost use Rattle.swd_dap.specs.Transfers.{dap_word_length, dap_has_word};
ghost use Rattle.swd_dap.specs.Doubts.{dap_is_drw};

use swd_bits::{Reg4, Request};
use swd_port::Coming;

/// A transaction, as a request of `DAP_Transfer`. `word` is that of a write; 0 for a read.
#[derive(Clone, Copy, Debug, PartialEq, Eq)]
pub(crate) struct Transfer {
    pub(crate) request: Request,
    pub(crate) word: u32,
}

impl Default for Transfer {
    fn default() -> Transfer {
        Transfer::reading(Request {
            ap: false,
            read: true,
            addr: Reg4::R0,
        })
    }
}

impl Transfer {
    /// Returns a transaction that comes next.
    pub(crate) fn of(coming: Coming) -> Transfer
        ensures { result ≡ dap_transfer_of coming }
    {
        Transfer {
            request: coming.request,
            word: coming.word,
        }
    }

    /// Returns the transaction of this request, with the word 0.
    pub(crate) fn reading(request: Request) -> Transfer
        ensures { result ≡ dap_reading request }
    {
        Transfer { request, word: 0 }
    }

    /// Returns the REQUEST byte: APnDP, RnW, A[2], A[3].
    pub(crate) fn code(&self) -> u8
        ensures { result ≡ dap_code self.now.request }
    {
        let port = if self.request.ap { 1 } else { 0 };
        let direction = if self.request.read { 2 } else { 0 };
        let address = match self.request.addr {
            Reg4::R0 => 0,
            Reg4::R4 => 4,
            Reg4::R8 => 8,
            Reg4::RC => 12,
        };
        port + direction + address
    }

    /// Returns whether it is a read of the access port, whose word the next read returns.
    pub(crate) fn posts(&self) -> bool
        ensures { result ≡ dap_posts self.now.request }
    {
        self.request.ap && self.request.read
    }

    /// Returns whether it is a read of the debug port.
    pub(crate) fn reads_dp(&self) -> bool
        ensures { result ≡ dap_reads_dp self.now.request }
    {
        !self.request.ap && self.request.read
    }

    /// Returns whether it is a read of RDBUFF.
    pub(crate) fn is_rdbuff(&self) -> bool
        ensures { result ≡ (dap_reads_dp self.now.request && dap_fetches self.now.request.addr) }
    {
        self.reads_dp() && matches!(self.request.addr, Reg4::RC)
    }

    /// Returns whether it is a request for DRW.
    pub(crate) fn is_drw(&self) -> bool
        ensures { result ≡ dap_is_drw self.now.request }
    {
        self.request.ap && matches!(self.request.addr, Reg4::RC)
    }

    /// Returns whether the probe makes it by itself: a read of RDBUFF behind a read of the access port (`posts`).
    pub(crate) fn is_hidden(&self, posts: bool) -> bool
        ensures { result ≡ dap_hides posts self.now.request }
    {
        posts && self.is_rdbuff()
    }

    /// Returns how many bytes of a packet it takes, behind a read of the access port (`posts`) or not.
    pub(crate) fn request_bytes(&self, posts: bool) -> usize
        ensures { result ≡ length (dap_all_bytes (dap_shown posts self.now)) }
    {
        if self.is_hidden(posts) {
            0
        } else if self.request.read {
            1
        } else {
            5
        }
    }

    /// Returns for how many more bytes a reply needs room: each request that reads has a word.
    pub(crate) fn reply_bytes(&self, posts: bool) -> usize
        ensures { result ≡ dap_reply_room posts self.now.request }
    {
        if self.request.read && !self.is_hidden(posts) {
            4
        } else {
            0
        }
    }

    /// Returns how many bytes of a reply its word takes: that of a read of the debug port, or of the read of the access
    /// port before it (`posts`).
    pub(crate) fn word_bytes(&self, posts: bool) -> usize
        ensures { result ≡ dap_word_length (dap_has_word posts self.now.request) }
    {
        if posts || self.reads_dp() { 4 } else { 0 }
    }

    /// Returns whether a read of the access port has a word that wasn't fetched, behind this one, which was answered
    /// OK. `before`: whether one had such a word before. RDBUFF fetches it; a write of the access port drops it.
    pub(crate) fn leaves_posted(&self, before: bool) -> bool
        ensures { result ≡ dap_posted_behind before self.now.request }
    {
        if self.request.ap {
            self.request.read
        } else {
            before && !self.is_rdbuff()
        }
    }
}
