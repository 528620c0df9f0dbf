//! Keeps why a stream failed.
ghost use Rattle.std.specs.Prelude.{◌≡◌, Option};
ghost use Rattle.std.specs.Io.{ReadsAtMost, WritesAtMost};
ghost use Rattle.std.specs.Io.KnownBytes.{Keeps, ReadConsumes, WriteAppends};
ghost use Rattle.std_io.specs.declared.io.error.Error.{Error};
ghost use Rattle.swd_console.specs.Streams.{stream_kind_after_call, stream_kind_after_write, stream_error_kind};

use crate::sample::Sample;
use std::io;
use std::io::{ErrorKind, Read, Write};

/// A stream that keeps the error of its last failed call.
pub trait KeepsError {
    ghost kept: { Self → Option Error };

    /// Returns the error of the last call that failed, or `None` if none did.
    fn kept_error(&self) -> Option<io::Error>
        ensures { result ≡ kept self.now };

    /// Returns what passed through the stream.
    fn sample(&self) -> &Sample;
}

impl<S: KeepsError> KeepsError for &mut S {
    ghost kept = { λ stream. S.kept stream.now };

    fn kept_error(&self) -> Option<io::Error> {
        (**self).kept_error()
    }

    fn sample(&self) -> &Sample {
        (**self).sample()
    }
}

/// A reader or a writer, and the error of its last failed call. A write that takes none of some bytes fails with
/// `WriteZero`.
///
/// The engines say that a stream failed, and not why.
#[derive(Drop)]
pub struct Watched<S> {
    pub stream: S,
    error: Option<io::Error>,
    sample: Sample,
}

impl<S> Watched<S> {
    /// Watches a stream from here on.
    pub fn new(stream: S) -> Watched<S>
        ensures stream { result.stream ≡ stream }
        ensures error { result.error ≡ None }
    {
        Watched {
            stream,
            error: None,
            sample: Sample::new(false),
        }
    }

    /// Watches a file that leads to a target, in place of a standard stream.
    pub fn line(stream: S) -> Watched<S>
        ensures stream { result.stream ≡ stream }
        ensures error { result.error ≡ None }
    {
        Watched {
            stream,
            error: None,
            sample: Sample::new(true),
        }
    }
}

impl<S> KeepsError for Watched<S> {
    ghost kept = { λ watched. watched.error };

    fn kept_error(&self) -> Option<io::Error> {
        self.error
    }

    fn sample(&self) -> &Sample {
        &self.sample
    }
}

impl<R: Read> Read for Watched<R> {
    ghost remaining = { λ watched. R.remaining watched.stream };

    fn read(&mut self, buf: &mut [u8]) -> io::Result<usize>
        ensures bound { ReadsAtMost result buf.new }
        ensures bytes { ReadConsumes (R.remaining self.old.stream) (R.remaining self.new.stream) result buf.new }
        ensures error { stream_error_kind self.new.error
            ≡ stream_kind_after_call (stream_error_kind self.old.error) result }
    {
        let result = self.stream.read(buf);
        if let Err(error) = &result {
            self.error = Some(*error);
        }
        let count = *result.as_ref().unwrap_or(&0);
        if let Some(bytes) = buf.get(..count) {
            self.sample.note_read(bytes);
        }
        result
    }
}

impl<W: Write> Write for Watched<W> {
    ghost contents = { λ watched. W.contents watched.stream };

    fn write(&mut self, buf: &[u8]) -> io::Result<usize>
        ensures bound { WritesAtMost result buf.now }
        ensures bytes { WriteAppends (W.contents self.old.stream) (W.contents self.new.stream) result buf.now }
        ensures error { stream_error_kind self.new.error
            ≡ stream_kind_after_write (stream_error_kind self.old.error) result buf.now }
    {
        let result = self.stream.write(buf);
        match &result {
            Ok(0) if !buf.is_empty() => self.error = Some(io::Error::from(ErrorKind::WriteZero)),
            Ok(count) => {
                if let Some(bytes) = buf.get(..*count) {
                    self.sample.note_written(bytes);
                }
            }
            Err(error) => self.error = Some(*error),
        }
        result
    }

    fn flush(&mut self) -> io::Result<()>
        ensures bytes { Keeps (W.contents self.old.stream) (W.contents self.new.stream) }
        ensures error { stream_error_kind self.new.error
            ≡ stream_kind_after_call (stream_error_kind self.old.error) result }
    {
        let result = self.stream.flush();
        if let Err(error) = &result {
            self.error = Some(*error);
        }
        result
    }
}
