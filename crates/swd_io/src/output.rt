//! Writes all bytes, and counts the written ones.
ghost use Rattle.std.specs.Prelude.{◌<◌, length, take, OnOk, IfErr};
ghost use Rattle.std.specs.Io.KnownBytes.{Appends};

use std::io;
use std::io::Write;
use thiserror::Error;

/// The error of a write that didn't write all bytes.
#[derive(Debug, Drop, Error)]
#[error("only the first {sent} bytes went out: {error}")]
pub struct Unsent {
    /// The number of written bytes: the first ones.
    pub sent: usize,
    /// The writer's error, or `WriteZero` if it took no bytes.
    pub error: io::Error,
}

/// Writes all bytes. Nothing is retried.
///
/// `write_all` doesn't report how many bytes were written, so all output is written by this function.
///
/// # Errors
///
/// If the writer fails or takes no bytes. Exactly the first `sent` bytes were written then, and not all of
/// them.
pub fn send<W: Write>(writer: &mut W, text: &[u8]) -> Result<(), Unsent>
    ensures ok { OnOk result (Appends (W.contents writer.old) (W.contents writer.new) text.now) }
    ensures err { IfErr result (λ e. (e.sent < length text.now)
        × Appends (W.contents writer.old) (W.contents writer.new) (take e.sent text.now)) }
{
    let mut sent = 0;
    while sent < text.len() {
        match writer.write(&text[sent..]) {
            Ok(0) => {
                let error = io::Error::from(io::ErrorKind::WriteZero);
                return Err(Unsent { sent, error });
            }
            Ok(n) => sent += n,
            Err(error) => return Err(Unsent { sent, error }),
        }
    }
    Ok(())
}
