//! Sources and sinks in memory, which give and take a set number of bytes per call and fail at a set call; and
//! standard readers and writers that fail.
ghost use Rattle.std.specs.Prelude.{◌≡◌, false};

use rewind_lines::{Sink, Source, Unread, Unwritten};
use std::alloc::Global;
use std::cell::Cell;
use std::io;
use std::io::{ErrorKind, Read, Write};

/// The number of a call that no run reaches.
pub const NEVER: usize = usize::MAX;

/// Gives `step` bytes per call, and fails at the call numbered `fails_at`, from 0.
#[derive(Drop)]
pub struct Pieces<'a> {
    pub rest: &'a [u8],
    pub step: usize,
    pub calls: usize,
    pub fails_at: usize,
    pub given: u64,
    pub has_ended: bool,
    pub has_failed: bool,
}

/// Returns a source of these bytes.
pub fn pieces_of(bytes: &[u8], step: usize, fails_at: usize) -> Pieces<'_>
    ensures { (result.given ≡ 0) × (result.has_ended ≡ false) × (result.has_failed ≡ false) }
{
    Pieces {
        rest: bytes,
        step,
        calls: 0,
        fails_at,
        given: 0,
        has_ended: false,
        has_failed: false,
    }
}

impl Source for Pieces<'_> {
    ghost use Rattle.std.specs.Prelude.{Some};

    ghost remaining = { λ s. Some s.rest.now };

    ghost given = { λ s. s.given };

    ghost ended = { λ s. s.has_ended };

    ghost failed = { λ s. s.has_failed };

    fn read(&mut self, buffer: &mut [u8]) -> Result<usize, Unread> {
        let call = self.calls;
        self.calls = call.saturating_add(1);
        if call == self.fails_at {
            self.has_failed = true;
            return Err(Unread);
        }
        let n = self.step.max(1).min(buffer.len()).min(self.rest.len());
        let (now, later) = self.rest.split_at(n);
        buffer[..n].copy_from_slice(now);
        self.rest = later;
        self.given += n as u64;
        self.has_ended = n == 0;
        Ok(n)
    }
}

/// Gives endless newlines, and its contracts say nothing about them.
#[derive(Drop)]
pub struct Newlines {
    pub given: u64,
}

impl Source for Newlines {
    ghost use Rattle.std.specs.Prelude.{false};

    ghost given = { λ s. s.given };

    ghost ended = { λ _. false };

    ghost failed = { λ _. false };

    fn read(&mut self, buffer: &mut [u8]) -> Result<usize, Unread> {
        buffer.fill(b'\n');
        self.given += buffer.len() as u64;
        Ok(buffer.len())
    }
}

/// Takes `step` bytes per call, and fails at the call numbered `fails_at`, or takes none there.
#[derive(Drop)]
pub struct Taken {
    pub bytes: Vec<u8>,
    /// The most bytes that a call was given.
    pub most: usize,
    pub step: usize,
    pub calls: usize,
    pub fails_at: usize,
    pub takes_none: bool,
    pub has_failed: bool,
}

/// Returns a sink that holds nothing.
pub fn empty_sink(alloc: Global, step: usize, fails_at: usize, takes_none: bool) -> Taken
    ensures { result.has_failed ≡ false }
{
    Taken {
        bytes: Vec::new(alloc),
        most: 0,
        step,
        calls: 0,
        fails_at,
        takes_none,
        has_failed: false,
    }
}

impl Sink for Taken {
    ghost use Rattle.std.specs.Prelude.{Some};

    ghost contents = { λ s. Some s.bytes.items };

    ghost failed = { λ s. s.has_failed };

    fn write(&mut self, bytes: &[u8]) -> Result<usize, Unwritten> {
        let call = self.calls;
        self.calls = call.saturating_add(1);
        self.most = self.most.max(bytes.len());
        if call == self.fails_at && !self.takes_none {
            self.has_failed = true;
            return Err(Unwritten);
        }
        let n = if call == self.fails_at {
            0
        } else {
            self.step.min(bytes.len())
        };
        if self.bytes.extend_from_slice(&bytes[..n]).is_err() {
            self.has_failed = true;
            return Err(Unwritten);
        }
        if n == 0 && !bytes.is_empty() {
            self.has_failed = true;
        }
        Ok(n)
    }
}

/// A standard reader that gives one byte per call, and fails once, at the call numbered `fails_at`.
#[derive(Drop)]
pub struct Stumbles {
    pub bytes: &'static [u8],
    pub calls: usize,
    pub fails_at: usize,
    pub kind: ErrorKind,
}

impl Read for Stumbles {
    fn read(&mut self, buffer: &mut [u8]) -> io::Result<usize> {
        let call = self.calls;
        self.calls = call.saturating_add(1);
        if call == self.fails_at {
            return Err(self.kind.into());
        }
        if self.bytes.is_empty() || buffer.is_empty() {
            return Ok(0);
        }
        buffer[0] = self.bytes[0];
        self.bytes = &self.bytes[1..];
        Ok(1)
    }
}

/// A standard writer that takes one byte per call, and once, at the call numbered `fails_at`, fails or takes
/// none.
#[derive(Drop)]
pub struct Spills {
    pub bytes: Vec<u8>,
    pub calls: usize,
    pub fails_at: usize,
    pub takes_none: bool,
    pub kind: ErrorKind,
}

impl Write for Spills {
    fn write(&mut self, bytes: &[u8]) -> io::Result<usize> {
        let call = self.calls;
        self.calls = call.saturating_add(1);
        if call == self.fails_at {
            return if self.takes_none {
                Ok(0)
            } else {
                Err(self.kind.into())
            };
        }
        if bytes.is_empty() {
            return Ok(0);
        }
        self.bytes.push(bytes[0])?;
        Ok(1)
    }

    fn flush(&mut self) -> io::Result<()> {
        Ok(())
    }
}

/// A source in pieces, which records at each read how many bytes its sink holds.
#[derive(Drop)]
pub struct Asks<'a> {
    pub pieces: Pieces<'a>,
    pub written: &'a Cell<usize>,
    pub seen: Vec<usize>,
}

impl Source for Asks<'_> {
    ghost given = { λ s. s.pieces.given };

    ghost ended = { λ s. s.pieces.has_ended };

    ghost failed = { λ s. s.pieces.has_failed };

    fn read(&mut self, buffer: &mut [u8]) -> Result<usize, Unread> {
        if self.seen.push(self.written.get()).is_err() {
            self.pieces.has_failed = true;
            return Err(Unread);
        }
        self.pieces.read(buffer)
    }
}

/// A sink that reports how many bytes it holds.
#[derive(Drop)]
pub struct Told<'a> {
    pub taken: Taken,
    pub written: &'a Cell<usize>,
}

impl Sink for Told<'_> {
    ghost failed = { λ s. s.taken.has_failed };

    fn write(&mut self, bytes: &[u8]) -> Result<usize, Unwritten> {
        let n = self.taken.write(bytes)?;
        self.written.set(self.taken.bytes.len());
        Ok(n)
    }
}
