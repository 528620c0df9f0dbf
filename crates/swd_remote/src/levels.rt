//! Reads the levels that the server returns.
ghost use Rattle.std.specs.Prelude.{◌≡◌, ◌<◌, ◌≤◌, ◌^◌, length, OnOk, IfOk, IfErr};
ghost use Rattle.std.specs.Io.KnownBytes.{Consumes};
ghost use Rattle.swd_sequences.specs.Clocks.{sequence_levels};
ghost use Rattle.swd_remote.specs.Remotes.{RemoteReadsLevels, IsNoRemoteLevel, RemoteStopsReading};

use crate::remote::Fault;
use std::io::Read;
use swd_sequences::level_of;

/// The most levels that one call reads.
pub(crate) const MOST: usize = 64;

// Fills the buffer. A read that fails isn't retried.
fn fill<R: Read>(reader: &mut R, buffer: &mut [u8]) -> Result<(), Fault>
    ensures ok { OnOk result (Consumes (R.remaining reader.old) (R.remaining reader.new) buffer.new) }
    ensures err { IfErr result (λ fault. RemoteStopsReading fault (length buffer.old) (R.remaining reader.old)
        (R.remaining reader.new)) }
{
    let mut at = 0;
    while at < buffer.len() {
        match reader.read(&mut buffer[at..]) {
            Ok(n) => {
                if n == 0 {
                    return Err(Fault::Ended);
                }
                at += n;
            }
            Err(_) => return Err(Fault::Read),
        }
    }
    Ok(())
}

// Returns the number of these levels, of which the first one is least significant, or a byte that isn't a
// level.
fn number_of(text: &[u8]) -> Result<u64, u8>
    requires { length text.now ≤ 64 }
    ensures ok { IfOk result (λ number. (sequence_levels (length text.now) number ≡ text.now)
        × (number < 2 ^ length text.now)) }
    ensures err { IfErr result (λ byte. IsNoRemoteLevel byte text.now) }
{
    let mut number = 0u64;
    for place in 0..text.len() {
        let byte = text[text.len() - 1 - place];
        let Some(level) = level_of(byte) else {
            return Err(byte);
        };
        number = number * 2 + u64::from(level);
    }
    Ok(number)
}

/// Reads `count` levels, and no byte more.
pub(crate) fn read_levels<R: Read>(reader: &mut R, count: usize) -> Result<u64, Fault>
    requires { count ≤ 64 }
    ensures { RemoteReadsLevels count result (R.remaining reader.old) (R.remaining reader.new) }
{
    let mut buffer = [0u8; MOST];
    match fill(reader, &mut buffer[..count]) {
        Ok(()) => {}
        Err(fault) => return Err(fault),
    }
    match number_of(&buffer[..count]) {
        Ok(number) => Ok(number),
        Err(byte) => Err(Fault::NoLevel(byte)),
    }
}
