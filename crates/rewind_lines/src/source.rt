//! Sources of bytes, whose contracts say how many bytes were read, which are left, and whether the source has ended or failed.
ghost use Rattle.std.specs.Prelude.{◌≡◌, ◌+◌, ◌<◌, ◌≤◌, ◌^◌, ℕ, List, None, Option, Bool, false, length, take, is_err, IfOk, OnErr};
ghost use Rattle.std.specs.Io.KnownBytes.{Consumes, IsAtEnd, Keeps, ReadConsumes};
ghost use Rattle.rewind_lines.specs.Reads.{given_by, is_end};

use nd_time::limits::MAX_LINE;
use std::io::Read;
use thiserror::Error;

/// The most bytes that are read at a time: the longest line but the graph's, and its newline.
pub const CHUNK: usize = MAX_LINE + 1;

/// A read failed.
#[derive(Clone, Copy, Debug, Drop, PartialEq, Eq, Error)]
#[error("a read failed")]
pub struct Unread;

/// A source of bytes. It is read until it ends or a read fails, and not again.
///
/// `remaining` are the bytes that are left, if the source knows them, and `given` is how many bytes were read. The source
/// has `ended` once a read returned no bytes, and `failed` once a read returned an error.
pub trait Source {
    ghost remaining: { Self → Option (List ℕ) } = { λ _. None };

    ghost given: { Self → ℕ };

    ghost ended: { Self → Bool };

    ghost failed: { Self → Bool };

    /// Reads the next bytes into the start of `buffer`, and returns how many they are: none only at the end.
    fn read(&mut self, buffer: &mut [u8]) -> Result<usize, Unread>
        requires room { 0 < length buffer.old }
        requires goes_on { ended self.old ≡ false }
        requires sound { failed self.old ≡ false }
        requires few { given self.old + length buffer.old < 2 ^ 64 }
        ensures within { IfOk result (λ n. n ≤ length buffer.new) }
        ensures bytes { ReadConsumes (remaining self.old) (remaining self.new) result buffer.new }
        ensures given { given self.new ≡ given self.old + given_by result }
        ensures ended { ended self.new ≡ is_end result }
        ensures failed { failed self.new ≡ is_err result };
}

/// A source that reads from a standard reader.
#[derive(Debug, Drop)]
pub struct ReadSource<R> {
    pub reader: R,
    /// How many bytes were read.
    pub given: u64,
    /// Whether a read returned no bytes.
    pub has_ended: bool,
    /// Whether a read has failed.
    pub has_failed: bool,
}

impl<R> ReadSource<R> {
    /// Returns a source of `reader`, from which nothing was read yet.
    pub fn new(reader: R) -> Self
        ensures reader { result.reader ≡ reader }
        ensures unread { (result.given ≡ 0) × (result.has_ended ≡ false)
            × (result.has_failed ≡ false) }
    {
        ReadSource {
            reader,
            given: 0,
            has_ended: false,
            has_failed: false,
        }
    }
}

impl<R: Read> Source for ReadSource<R> {
    ghost remaining = { λ s. R.remaining s.reader };

    ghost given = { λ s. s.given };

    ghost ended = { λ s. s.has_ended };

    ghost failed = { λ s. s.has_failed };

    fn read(&mut self, buffer: &mut [u8]) -> Result<usize, Unread> {
        match self.reader.read(buffer) {
            Ok(n) => {
                self.given += n as u64;
                self.has_ended = n == 0;
                Ok(n)
            }
            Err(_) => {
                self.has_failed = true;
                Err(Unread)
            }
        }
    }
}

/// Reads once, at most `most` bytes, into the start of `chunk`.
pub fn read_into<S: Source>(source: &mut S, chunk: &mut [u8], most: usize) -> Result<usize, Unread>
    requires some { 0 < most }
    requires room { most ≤ length chunk.old }
    requires goes_on { S.ended source.old ≡ false }
    requires sound { S.failed source.old ≡ false }
    requires few { S.given source.old + most < 2 ^ 64 }
    ensures within { IfOk result (λ n. n ≤ most) }
    ensures bytes { IfOk result (λ n.
        Consumes (S.remaining source.old) (S.remaining source.new) (take n chunk.new)) }
    ensures end { IfOk result (λ n. n ≡ 0 → IsAtEnd (S.remaining source.new)) }
    ensures err { OnErr result (Keeps (S.remaining source.old) (S.remaining source.new)) }
    ensures given { S.given source.new ≡ S.given source.old + given_by result }
    ensures ended { S.ended source.new ≡ is_end result }
    ensures failed { S.failed source.new ≡ is_err result }
{
    source.read(&mut chunk[..most])
}

/// Returns the first `n` bytes.
pub fn front(bytes: &[u8], n: usize) -> &[u8]
    requires { n ≤ length bytes.now }
    ensures { result.now ≡ take n bytes.now }
{
    &bytes[..n]
}
