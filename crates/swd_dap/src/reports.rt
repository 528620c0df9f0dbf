//! Packets over a reader and a writer.
ghost use Rattle.std.specs.Prelude.{◌≡◌, ◌≤◌, ◌<◌, not, length, IfOk};

use crate::packets::{DapFault, LONGEST, Packets};
use std::io::{Read, Write};

// The size of a report before the probe told it.
const FIRST_SIZE: usize = 64;

/// Packets as reports of one size, such as those of /dev/hidraw0, or each with its length before it.
///
/// A report is one write, of its number, 0, and the packet, padded with zeros; its reply is one read. With `framed` a
/// packet has its length before it, two bytes, the first least significant, there and back.
#[derive(Drop)]
pub struct Reports<R, W> {
    reader: R,
    writer: W,
    framed: bool,
    // The bytes of a report.
    size: usize,
    ghost sized: { size ≤ 512 },
}

impl<R: Read, W: Write> Reports<R, W> {
    /// Returns a way over which nothing was sent yet. Reports have 64 bytes until the probe tells their size, at most
    /// [`LONGEST`].
    pub fn new(reader: R, writer: W, framed: bool) -> Reports<R, W> {
        Reports {
            reader,
            writer,
            framed,
            size: FIRST_SIZE,
        }
    }

    /// Returns the reader and the writer.
    pub fn into_parts(self) -> (R, W)
        ensures reader { result.0 ≡ self.reader }
        ensures writer { result.1 ≡ self.writer }
    {
        let Reports { reader, writer, .. } = self;
        (reader, writer)
    }

    // Writes these bytes by one write.
    fn send(&mut self, bytes: &[u8]) -> Result<(), DapFault> {
        match self.writer.write(bytes) {
            Ok(n) if n == bytes.len() => Ok(()),
            _ => Err(DapFault::Write),
        }
    }

    // Sends a report.
    fn send_report(&mut self, request: &[u8]) -> Result<(), DapFault>
        requires { length request.now ≤ 512 }
    {
        let mut report = [0u8; LONGEST + 1];
        report[1..1 + request.len()].copy_from_slice(request);
        let len = 1 + self.size.max(request.len());
        self.send(&report[..len])
    }

    // Sends a packet behind its length.
    fn send_frame(&mut self, request: &[u8]) -> Result<(), DapFault>
        requires { length request.now ≤ 512 }
    {
        let mut frame = [0u8; LONGEST + 2];
        frame[0] = (request.len() % 256) as u8;
        frame[1] = (request.len() / 256) as u8;
        frame[2..2 + request.len()].copy_from_slice(request);
        match self.writer.write_all(&frame[..2 + request.len()]) {
            Ok(()) => Ok(()),
            Err(_) => Err(DapFault::Write),
        }
    }

    // Reads what comes by one read, and returns how many bytes that is.
    fn read_some(&mut self, reply: &mut [u8]) -> Result<usize, DapFault>
        ensures { IfOk result (λ n. (0 < n) × (n ≤ length reply.old)) }
    {
        match self.reader.read(reply) {
            Ok(0) => Err(DapFault::Ended),
            Ok(n) => Ok(n),
            Err(_) => Err(DapFault::Read),
        }
    }

    // Reads as many bytes as the buffer has.
    fn fill(&mut self, buffer: &mut [u8]) -> Result<(), DapFault> {
        let mut at = 0;
        while at < buffer.len() {
            at += self.read_some(&mut buffer[at..])?;
        }
        Ok(())
    }

    // Reads a packet behind its length, and returns its length.
    fn read_frame(&mut self, reply: &mut [u8; 512]) -> Result<usize, DapFault>
        ensures { IfOk result (λ n. n ≤ 512) }
    {
        let mut length = [0u8; 2];
        self.fill(&mut length)?;
        let length = usize::from(u16::from_le_bytes(length));
        if length > LONGEST {
            return Err(DapFault::Impossible);
        }
        self.fill(&mut reply[..length])?;
        Ok(length)
    }

    // Keeps the size of a packet, if this is the probe's reply to a request for it.
    fn keep_size(&mut self, request: &[u8], reply: &[u8]) {
        if let ([0x00, 0xff], [0x00, 0x02, low, high, ..]) = (request, reply) {
            self.size = usize::from(u16::from_le_bytes([*low, *high])).min(LONGEST);
        }
    }
}

impl<R: Read, W: Write> Packets for Reports<R, W> {
    ghost pads = { λ reports. not reports.framed };

    fn is_padded(&self) -> bool {
        !self.framed
    }

    fn exchange(&mut self, request: &[u8], reply: &mut [u8; 512]) -> Result<usize, DapFault> {
        let length = if self.framed {
            self.send_frame(request)?;
            self.read_frame(reply)?
        } else {
            self.send_report(request)?;
            self.read_some(reply)?
        };
        self.keep_size(request, &reply[..length]);
        Ok(length)
    }
}
