//! Collects the lines of a listing, byte by byte.
ghost use Rattle.std.specs.Prelude.{◌≡◌, ◌+◌, ◌^◌, ◌<◌, ◌∷◌, ◌++◌, [], ℕ, List, length, OnOk, IfOk, IfErr};
ghost use Rattle.swd_trace.specs.Listed.{AreLegalItems, listing_lines, ListsItems, RefusesListing};
ghost use Rattle.swd_trace.specs.Taken.{ListingTakes};
ghost use Rattle.swd_trace.specs.Texts.{bits_of_items};

use crate::item::Item;
use crate::listing::fault::ListFault;
use crate::listing::line::item_of;
use arrayvec::ArrayVec;
use std::alloc::Allocator;

// Longer than any item's line.
const LONGEST: usize = 64;

/// The items of the complete lines, and the bytes of the current line.
#[derive(Drop)]
pub(crate) struct ListingLines<A: Allocator> {
    pub(crate) items: Vec<Item, A>,
    // the number of bits of these items
    pub(crate) total: u64,
    pub(crate) line: ArrayVec<u8, LONGEST>,
}

impl<A: Allocator> ListingLines<A> {
    /// Returns the state before the first byte.
    pub(crate) fn new(alloc: A) -> ListingLines<A>
        ensures { ListingTakes [] result.items.items result.line.items result.total }
    {
        ListingLines {
            items: Vec::new(alloc),
            total: 0,
            line: ArrayVec::new(),
        }
    }

    /// Takes a byte. After an error the state is unspecified.
    #[inline]
    pub(crate) fn byte(&mut self, byte: u8) -> Result<(), ListFault>
        ensures ok { OnOk result ((seen : List ℕ)
            → ListingTakes seen self.old.items.items self.old.line.items self.old.total
            → ListingTakes (seen ++ byte ∷ []) self.new.items.items self.new.line.items self.new.total) }
        ensures err { IfErr result (λ fault. (seen more : List ℕ)
            → ListingTakes seen self.old.items.items self.old.line.items self.old.total
            → RefusesListing fault (listing_lines (seen ++ byte ∷ more))) }
    {
        if byte == b'\n' {
            return self.end_line();
        }
        if self.line.len() == LONGEST {
            return Err(self.bad_line());
        }
        self.line.push(byte);
        Ok(())
    }

    // Returns the error for the current line.
    fn bad_line(&self) -> ListFault
        ensures { result ≡ ListFault.BadLine (length self.now.items.items + 1) }
    {
        ListFault::BadLine {
            line: self.items.len() as u64 + 1,
        }
    }

    // Ends the current line.
    fn end_line(&mut self) -> Result<(), ListFault>
        ensures ok { OnOk result ((seen : List ℕ)
            → ListingTakes seen self.old.items.items self.old.line.items self.old.total
            → ListingTakes (seen ++ 10 ∷ []) self.new.items.items self.new.line.items self.new.total) }
        ensures empty { OnOk result (self.new.line.items ≡ []) }
        ensures err { IfErr result (λ fault. (seen more : List ℕ)
            → ListingTakes seen self.old.items.items self.old.line.items self.old.total
            → RefusesListing fault (listing_lines (seen ++ 10 ∷ more))) }
    {
        let Some(item) = item_of(self.line.as_slice()) else {
            return Err(self.bad_line());
        };
        let Some(total) = self.total.checked_add(item.bit_count()) else {
            return Err(self.bad_line());
        };
        if self.items.push(item).is_err() {
            return Err(ListFault::Memory);
        }
        self.total = total;
        self.line.clear();
        Ok(())
    }

    /// Returns the items of the whole input, the last line of which may lack its line feed.
    pub(crate) fn finish(mut self) -> Result<Vec<Item, A>, ListFault>
        ensures legal { IfOk result (λ items. (seen : List ℕ)
            → ListingTakes seen self.items.items self.line.items self.total → AreLegalItems items.items) }
        ensures counted { IfOk result (λ items. (seen : List ℕ)
            → ListingTakes seen self.items.items self.line.items self.total
            → length (bits_of_items items.items) < 2 ^ 64) }
        ensures ok { IfOk result (λ items. (seen : List ℕ)
            → ListingTakes seen self.items.items self.line.items self.total
            → ListsItems (listing_lines seen) items.items) }
        ensures err { IfErr result (λ fault. (seen : List ℕ)
            → ListingTakes seen self.items.items self.line.items self.total →
            RefusesListing fault (listing_lines seen)) }
    {
        if self.line.is_empty() {
            return Ok(self.items);
        }
        match self.end_line() {
            Ok(()) => Ok(self.items),
            Err(fault) => Err(fault),
        }
    }
}
