//! Reads a listing from a reader.
ghost use Rattle.std.specs.Prelude.{◌^◌, ◌<◌, length, IfOk, IfErr, IfSome};
ghost use Rattle.swd_trace.specs.Listed.{listing_lines as lines_of, AreLegalItems, ListsItems, IsNormalListing};
ghost use Rattle.swd_trace.specs.Listed.{RefusesListing};
ghost use Rattle.swd_trace.specs.Texts.{bits_of_items};

use crate::item::Item;
use crate::listing::fault::ListFault;
use crate::listing::lines::ListingLines;
use crate::listing::normal::first_difference;
use std::alloc::Allocator;
use std::io::Read;
use swd_io::{Consumer, read_pieces};

/// Reads a listing from a reader, and returns its items.
///
/// Each line is that of one item, exactly as it is printed, and ends with a line feed, which the last line
/// may lack. An empty line is bad. The items have at most 2^64 - 1 bits, and are the reading of their own
/// bits: such a list is called normal.
///
/// # Errors
///
/// - `BadLine`: the first line that is bad, or at which the bits exceed 2^64 - 1.
/// - `NotNormal`: the line of the first item at which the list and the reading of its bits differ. All lines
///   are good then.
/// - `Memory`: out of memory for the items.
/// - `Read`: the reader failed, which isn't retried, or it didn't end within 2^64 - 1 reads.
pub fn read_list<R: Read, A: Allocator>(alloc: A, reader: &mut R) -> Result<Vec<Item, A>, ListFault>
    ensures legal { IfOk result (λ items. AreLegalItems items.items) }
    ensures ok { IfOk result (λ items. IfSome (R.remaining reader.old)
        (λ text. ListsItems (lines_of text) items.items × IsNormalListing items.items)) }
    ensures err { IfErr result (λ fault. IfSome (R.remaining reader.old)
        (λ text. RefusesListing fault (lines_of text))) }
{
    let items = match read_lines(alloc, reader) {
        Ok(items) => items,
        Err(fault) => return Err(fault),
    };
    match first_difference(items.as_slice()) {
        None => Ok(items),
        Some(at) => Err(ListFault::NotNormal {
            line: at as u64 + 1,
        }),
    }
}

// Returns the items of the lines, which need not be normal.
fn read_lines<R: Read, A: Allocator>(alloc: A, reader: &mut R) -> Result<Vec<Item, A>, ListFault>
    ensures legal { IfOk result (λ items. AreLegalItems items.items) }
    ensures counted { IfOk result (λ items. length (bits_of_items items.items) < 2 ^ 64) }
    ensures ok { IfOk result (λ items. IfSome (R.remaining reader.old)
        (λ text. ListsItems (lines_of text) items.items)) }
    ensures err { IfErr result (λ fault. IfSome (R.remaining reader.old)
        (λ text. RefusesListing fault (lines_of text))) }
{
    let mut lines = ListingLines::new(alloc);
    match read_pieces(reader, &mut (), &mut lines) {
        Ok(()) => lines.finish(),
        Err(unread) => Err(unread.fault_or(ListFault::Read)),
    }
}

impl<A: Allocator> Consumer<()> for ListingLines<A> {
    ghost use Rattle.swd_io.specs.Pieces.{LeadsConsumerOn, LeadsConsumerToEnd};
    ghost use Rattle.swd_io.proofs.PieceLemmas.{consumer_reads_no_byte, consumer_pieces_join, consumer_pieces_fault};
    ghost use Rattle.swd_trace.specs.ListReader.{ListingHasRead, RefusesListingLater};

    type Fault = ListFault;

    ghost can_take = { λ _. Unit {0} };

    ghost takes = { LeadsConsumerOn ListingHasRead };

    ghost stops = { LeadsConsumerToEnd ListingHasRead RefusesListingLater };

    fn take(&mut self, _writer: &mut (), piece: &[u8]) -> Result<(), ListFault> {
        for byte in piece {
            if let Err(fault) = self.byte(*byte) {
                return Err(fault);
            }
        }
        Ok(())
    }

    ghost takes_nothing = { consumer_reads_no_byte ListingHasRead };

    ghost takes_on = { consumer_pieces_join ListingHasRead };

    ghost stops_later = { consumer_pieces_fault ListingHasRead RefusesListingLater };
}
