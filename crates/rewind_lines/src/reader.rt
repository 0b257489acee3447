//! The lines of a script, read in pieces.
ghost use Rattle.std.specs.Prelude.{◌≡◌, ◌+◌, ◌<◌, ◌≤◌, ◌^◌, ◌||◌, [], ℕ, List, false, length, IfNone, IfOk, IfSome, IsOk, IsTrue, OnErr};
ghost use Rattle.nd_time.specs.Limits.{max_line};
ghost use Rattle.rewind_lines.specs.Front.{ReadsOn, StartsNext, held_of};
ghost use Rattle.rewind_lines.specs.Lines.{EndsLine, has_newline, last_line_of, reading_of};
ghost use Rattle.rewind_lines.specs.Readings.{reading_view};

use crate::line::Line;
use crate::reading::Reading;
use crate::source::front;
use memchr::memchr;
use nd_time::limits::MAX_LINE;
use std::alloc::{AllocError, Global};
use std::marker::Model;

/// The line of a script that is being read, and its number.
#[derive(Drop)]
pub struct LineReader {
    alloc: Global,
    line: Line,
    number: u64,
}

impl Model for LineReader {
    ghost use Rattle.rewind_lines.specs.Front.{Held};

    ghost Value = { Held };

    ghost view = { λ r. record { line = r.line; number = r.number } };
}

impl LineReader {
    /// Returns a reader at the start of the first line, which may have `MAX_LINE` bytes.
    pub fn new(alloc: Global) -> LineReader
        ensures first { result ≡ held_of max_line [] }
        ensures number { result.number ≡ 1 }
    {
        LineReader {
            alloc,
            line: Line::new(alloc, MAX_LINE),
            number: 1,
        }
    }

    /// Returns the number of the line.
    pub fn number(&self) -> u64
        ensures { result ≡ self.now.number }
    {
        self.number
    }

    /// Reads up to the next newline, and returns how many bytes that is, including the newline; the line is
    /// then complete. If there is no newline, reads all bytes and returns `None`.
    pub fn take(&mut self, bytes: &[u8]) -> Result<Option<usize>, AllocError>
        ensures part { IfOk result (λ o. IfNone o ((has_newline bytes.now ≡ false)
            × ReadsOn self.old bytes.now self.new)) }
        ensures whole { IfOk result (λ o. IfSome o (λ n. (rest : List ℕ) × EndsLine bytes.now n rest
            × ReadsOn self.old rest self.new)) }
        ensures number { self.new.number ≡ self.old.number }
        ensures err { OnErr result (self.new ≡ self.old) }

        // Beyond the limit of a line it does not allocate.
        ensures long { self.old.line.limit ≤ length self.old.line.bytes → IsOk result }
    {
        match memchr(b'\n', bytes) {
            None => {
                self.line.extend(bytes)?;
                Ok(None)
            }
            Some(i) => {
                self.line.extend(front(bytes, i))?;
                Ok(Some(i + 1))
            }
        }
    }

    /// Returns what the line contains, once it is complete.
    pub fn reading(&self) -> Result<Reading, AllocError>
        ensures reading { IfOk result (λ r. (limit : ℕ) (done : List ℕ)
            → self.now ≡ held_of limit done
            → reading_view r ≡ reading_of limit (last_line_of done)) }

        // It does not allocate for a line that is blank or too long.
        ensures short { IsTrue (self.now.line.is_blank || self.now.line.is_longer) → IsOk result }
    {
        self.line.reading(self.alloc)
    }

    /// Starts the next line, after a newline. The line may have `limit` bytes.
    pub fn begin_next(&mut self, limit: usize)
        requires { self.old.number + 1 < 2 ^ 64 }
        ensures next { StartsNext self.old limit self.new }
        ensures number { self.new.number ≡ self.old.number + 1 }
    {
        self.line.clear(limit);
        self.number += 1;
    }
}
