//! Collects the data of a file of records.
ghost use Rattle.std.specs.Prelude.{◌≡◌, ◌+◌, ◌≤◌, ◌<◌, ◌^◌, ◌++◌, length, true, OnOk, IfErr, Ok, Err};
ghost use Rattle.swd_image_files.specs.Images.{ImageFileContents, image_file_add_data, contents_of_image};
ghost use Rattle.swd_image_files.specs.Images.{image_file_ranges_joined, image_file_nothing};
ghost use Rattle.swd_image_files.specs.Places.{image_file_data_fits as fits_in, image_file_start as start_in};
ghost use Rattle.swd_image_files.specs.Places.{image_file_after_kind, image_file_after_data, image_file_after_line};
ghost use Rattle.swd_image_files.specs.Places.{image_file_with_kind, image_file_with_data, image_file_with_line};
ghost use Rattle.swd_image_files.specs.Lines.{is_image_file_blank_line as is_blank_in};
ghost use Rattle.swd_image_files.specs.Records.{IsWithinImageRecord};

use crate::fault::LineFlaw;
use crate::image::{Image, Range};
use crate::kind::{RecordFormat, RecordKind};
use crate::line::{record_bytes, record_kind};
use crate::place::{RecordState, field, fits, room, start};
use std::alloc::{AllocError, Allocator};

/// What is kept of a piece.
#[derive(Clone, Copy)]
pub(crate) enum Kept {
    /// Its range and its bytes.
    Whole,
    /// Its range alone.
    Span,
}

/// The data so far, unless memory ran out.
#[derive(Drop)]
pub(crate) struct HeldPieces<A: Allocator> {
    pub(crate) image: Image<A>,
    pub(crate) failed: bool,
}

impl<A: Allocator> HeldPieces<A> {
    ghost use Rattle.swd_image_files.specs.Readings.{ImageFileHolds, ImageFileSpans, IsImageFileHeld};

    /// Returns no data.
    pub(crate) fn new(alloc: A) -> HeldPieces<A>
    where
        A: Copy,
        ensures { ImageFileHolds image_file_nothing result }
    {
        let image = Image {
            ranges: Vec::new(alloc),
            bytes: Vec::new(alloc),
        };
        HeldPieces {
            image,
            failed: false,
        }
    }

    /// Appends bytes at an address. They join the last piece if they continue it.
    pub(crate) fn add(&mut self, at: u64, bytes: &[u8])
        requires { fits_in at (length bytes.now) ≡ true }
        ensures { (old : ImageFileContents) → ImageFileHolds old self.old
            → ImageFileHolds (image_file_add_data old at bytes.now) self.new }
    {
        if bytes.is_empty() || self.failed {
            return;
        }
        if append(&mut self.image, at as u32, bytes).is_err() {
            self.failed = true;
        }
    }

    /// Appends bytes at an address, or their range alone.
    pub(crate) fn add_kept(&mut self, kept: Kept, at: u64, bytes: &[u8])
        requires { fits_in at (length bytes.now) ≡ true }
        ensures { (old : ImageFileContents) → IsImageFileHeld kept old self.old
            → IsImageFileHeld kept (image_file_add_data old at bytes.now) self.new }
    {
        match kept {
            Kept::Whole => self.add(at, bytes),
            Kept::Span => self.add_span(at, bytes),
        }
    }

    // Appends the range of bytes at an address, and keeps none of them.
    fn add_span(&mut self, at: u64, bytes: &[u8])
        requires { fits_in at (length bytes.now) ≡ true }
        ensures { (old : ImageFileContents) → ImageFileSpans old self.old
            → ImageFileSpans (image_file_add_data old at bytes.now) self.new }
    {
        if bytes.is_empty() || self.failed {
            return;
        }
        if join(&mut self.image.ranges, at as u32, bytes.len()).is_err() {
            self.failed = true;
        }
    }
}

// Appends bytes at an address. After an error the image is unspecified.
fn append<A: Allocator>(image: &mut Image<A>, addr: u32, bytes: &[u8]) -> Result<(), AllocError>
    requires { addr + length bytes.now ≤ 2 ^ 32 }
    ensures { OnOk result (contents_of_image image.new ≡ record {
      ranges = image_file_ranges_joined image.old.ranges.items addr (length bytes.now);
      bytes = image.old.bytes.items ++ bytes.now;
    }) }
{
    image.bytes.extend_from_slice(bytes)?;
    join(&mut image.ranges, addr, bytes.len())
}

// Appends a range, or extends the last one if the range continues it.
fn join<A: Allocator>(ranges: &mut Vec<Range, A>, addr: u32, len: usize) -> Result<(), AllocError>
    requires { addr + len ≤ 2 ^ 32 }
    ensures { OnOk result (ranges.new.items ≡ image_file_ranges_joined ranges.old.items addr len) }
{
    let Some(last) = ranges.pop() else {
        ranges.push(Range { addr, len })?;
        return Ok(());
    };
    if last.addr <= addr && (addr - last.addr) as usize == last.len {
        let len = last.len + len;
        ranges.push(Range { len, ..last })?;
        return Ok(());
    }
    ranges.push(last)?;
    ranges.push(Range { addr, len })?;
    Ok(())
}

/// The lines so far of a file of records.
#[derive(Drop)]
pub(crate) struct RecordReading<A: Allocator> {
    pub(crate) place: RecordState,
    pub(crate) held: HeldPieces<A>,
}

impl<A: Allocator> RecordReading<A> {
    ghost use Rattle.swd_image_files.specs.Readings.{ImageFileHolds};

    /// Returns the state before the first line.
    pub(crate) fn new(alloc: A, offset: u32) -> RecordReading<A>
    where
        A: Copy,
        ensures place { result.place ≡ start_in offset }
        ensures held { ImageFileHolds image_file_nothing result.held }
    {
        RecordReading {
            place: start(offset),
            held: HeldPieces::new(alloc),
        }
    }

    /// Takes a line without its line end. After an error the state is unspecified.
    pub(crate) fn take_line(&mut self, records: RecordFormat, line: &[u8]) -> Result<(), LineFlaw>
        ensures ok { OnOk result (image_file_after_line records self.old.place line.now ≡ Ok self.new.place) }
        ensures held { OnOk result ((old : ImageFileContents) → ImageFileHolds old self.old.held
            → ImageFileHolds (image_file_with_line records self.old.place line.now old) self.new.held) }
        ensures err { IfErr result (λ flaw. image_file_after_line records self.old.place line.now ≡ Err flaw) }
    {
        if is_blank_line(line) {
            return Ok(());
        }
        if self.place.ended {
            return Err(LineFlaw::AfterEnd);
        }
        let bytes = record_bytes(records, line)?;
        let kind = record_kind(records, &bytes)?;
        self.take_kind(kind, &bytes)
    }

    // Takes a record with these bytes. After an error the state is unspecified.
    fn take_kind(&mut self, kind: RecordKind, bytes: &[u8]) -> Result<(), LineFlaw>
        requires { IsWithinImageRecord (length bytes.now) kind }
        ensures ok { OnOk result (image_file_after_kind self.old.place kind bytes.now ≡ Ok self.new.place) }
        ensures held { OnOk result ((old : ImageFileContents) → ImageFileHolds old self.old.held
            → ImageFileHolds (image_file_with_kind self.old.place kind bytes.now old) self.new.held) }
        ensures err { IfErr result (λ flaw. image_file_after_kind self.old.place kind bytes.now ≡ Err flaw) }
    {
        match kind {
            RecordKind::Data { addr, from } => return self.take_data(addr, field(bytes, from)),
            RecordKind::Base { at, wraps } => {
                self.place.base = at;
                self.place.wraps = wraps;
            }
            RecordKind::Count(count) => {
                if count as u64 != self.place.records {
                    return Err(LineFlaw::BadCount);
                }
            }
            RecordKind::End => self.place.ended = true,
            RecordKind::Other => {}
        }
        Ok(())
    }

    // Takes the data of a record at an address, relative to the base.
    fn take_data(&mut self, addr: u32, bytes: &[u8]) -> Result<(), LineFlaw>
        ensures ok { OnOk result (image_file_after_data self.old.place addr (length bytes.now) ≡ Ok self.new.place) }
        ensures held { OnOk result ((old : ImageFileContents) → ImageFileHolds old self.old.held
            → ImageFileHolds (image_file_with_data self.old.place addr bytes.now old) self.new.held) }
        ensures err { IfErr result (λ flaw. image_file_after_data self.old.place addr (length bytes.now) ≡ Err flaw) }
    {
        let base = self.place.offset as u64 + self.place.base as u64;
        let (first, second) = bytes.split_at(room(self.place, addr, bytes.len()));
        if !fits(base + addr as u64, first.len()) || !fits(base, second.len()) {
            return Err(LineFlaw::Range);
        }
        self.held.add(base + addr as u64, first);
        self.held.add(base, second);
        self.place.records = self.place.records.saturating_add(1);
        Ok(())
    }
}

// Returns whether a line has only spaces and tabs.
fn is_blank_line(line: &[u8]) -> bool
    ensures { result ≡ is_blank_in line.now }
{
    line.iter().all(|byte| *byte == b' ' || *byte == b'\t')
}
