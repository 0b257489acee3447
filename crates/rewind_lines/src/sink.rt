//! Sinks of bytes, whose contracts say what was written and whether a write has failed.
ghost use Rattle.std.specs.Prelude.{◌≡◌, ◌≤◌, ℕ, List, None, Option, Bool, false, length, take, is_err, IfOk, OnOk, OnErr};
ghost use Rattle.std.specs.Io.KnownBytes.{Appends, WriteAppends};
ghost use Rattle.rewind_lines.specs.Writes.{refuses};

use std::io::Write;
use thiserror::Error;

/// A write failed, or wrote nothing.
#[derive(Clone, Copy, Debug, Drop, PartialEq, Eq, Error)]
#[error("a write failed")]
pub struct Unwritten;

/// A sink of bytes. It is written to until a write fails, and not again.
///
/// `contents` are the bytes written so far, if the sink knows them. The sink has `failed` once a write returned an error, or
/// wrote none of a nonempty slice.
pub trait Sink {
    ghost contents: { Self → Option (List ℕ) } = { λ _. None };

    ghost failed: { Self → Bool };

    /// Writes the first of the bytes, and returns how many it wrote.
    fn write(&mut self, bytes: &[u8]) -> Result<usize, Unwritten>
        requires { failed self.old ≡ false }
        ensures within { IfOk result (λ n. n ≤ length bytes.now) }
        ensures bytes { WriteAppends (contents self.old) (contents self.new) result bytes.now }
        ensures failed { failed self.new ≡ refuses result bytes.now };
}

/// A sink that writes to a standard writer.
#[derive(Debug, Drop)]
pub struct WriteSink<W> {
    pub writer: W,
    /// Whether a write has failed, or wrote none of a nonempty slice.
    pub has_failed: bool,
}

impl<W> WriteSink<W> {
    /// Returns a sink that writes to `writer` and has not failed.
    pub fn new(writer: W) -> Self
        ensures { (result.writer ≡ writer) × (result.has_failed ≡ false) }
    {
        WriteSink {
            writer,
            has_failed: false,
        }
    }
}

impl<W: Write> Sink for WriteSink<W> {
    ghost contents = { λ s. W.contents s.writer };

    ghost failed = { λ s. s.has_failed };

    fn write(&mut self, bytes: &[u8]) -> Result<usize, Unwritten> {
        match self.writer.write(bytes) {
            Ok(n) => {
                if n == 0 && !bytes.is_empty() {
                    self.has_failed = true;
                }
                Ok(n)
            }
            Err(_) => {
                self.has_failed = true;
                Err(Unwritten)
            }
        }
    }
}

/// Writes all of the bytes, or only the first of them if the sink fails.
pub fn send<S: Sink>(sink: &mut S, bytes: &[u8]) -> Result<(), Unwritten>
    requires { S.failed sink.old ≡ false }
    ensures ok { OnOk result (Appends (S.contents sink.old) (S.contents sink.new) bytes.now) }
    ensures err { OnErr result ((n : ℕ)
        × Appends (S.contents sink.old) (S.contents sink.new) (take n bytes.now)) }
    ensures failed { S.failed sink.new ≡ is_err result }
{
    let mut sent = 0;
    'parts: while sent < bytes.len() {
        match sink.write(&bytes[sent..]) {
            Ok(0) => return Err(Unwritten),
            Ok(n) => sent += n,
            Err(_) => return Err(Unwritten),
        }
    }
    Ok(())
}
