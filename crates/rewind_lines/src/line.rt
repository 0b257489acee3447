//! The line that is being read.
ghost use Rattle.std.specs.Prelude.{◌≡◌, ◌≤◌, ◌&&◌, ◌||◌, ◌++◌, [], ℕ, List, length, nat_lt, IfOk, IsOk, IsTrue, OnOk, OnErr};
ghost use Rattle.std.specs.List.{list_all};
ghost use Rattle.rewind_lines.specs.Lines.{is_blank_byte, reading_of};
ghost use Rattle.rewind_lines.specs.Front.{front_of};
ghost use Rattle.rewind_lines.specs.Readings.{reading_view};

use crate::reading::{Reading, parse};
use crate::source::front;
use std::alloc::{AllocError, Allocator, Global};
use std::marker::Model;

/// The line that is being read, of any length. It stores the first bytes of the line, at most `limit`, whether the
/// line is longer, and whether it is blank so far.
#[derive(Drop)]
pub struct Line<A: Allocator = Global> {
    limit: usize,
    front: Vec<u8, A>,
    is_longer: bool,
    is_blank: bool,
}

impl<A: Allocator> Model for Line<A> {
    ghost use Rattle.rewind_lines.specs.Front.{Front};

    ghost Value = { Front };

    ghost view = { λ l.
        record {
          limit = l.limit;
          bytes = l.front.items;
          is_longer = l.is_longer;
          is_blank = l.is_blank;
        } };
}

impl<A: Allocator> Line<A> {
    /// Returns an empty line, which may have `limit` bytes.
    pub fn new(alloc: A, limit: usize) -> Self
        ensures { result ≡ front_of limit [] }
    {
        Line {
            limit,
            front: Vec::new(alloc),
            is_longer: false,
            is_blank: true,
        }
    }

    /// Appends more bytes to the line.
    pub fn extend(&mut self, bytes: &[u8]) -> Result<(), AllocError>
        ensures ok { OnOk result
            ((limit : ℕ) (line : List ℕ) → self.old ≡ front_of limit line
            → self.new ≡ front_of limit (line ++ bytes.now)) }
        ensures err { OnErr result (self.new ≡ self.old) }

        // Beyond the limit of a line it does not allocate.
        ensures long { self.old.limit ≤ length self.old.bytes → IsOk result }
    {
        let room = self.limit.saturating_sub(self.front.len());
        let fits = room.min(bytes.len());
        self.front.extend_from_slice(front(bytes, fits))?;
        self.is_longer = now_longer(self.is_longer, fits, bytes.len());
        self.is_blank = still_blank(self.is_blank, bytes);
        Ok(())
    }

    /// Starts the next line, which may have `limit` bytes.
    pub fn clear(&mut self, limit: usize)
        ensures { self.new ≡ front_of limit [] }
    {
        self.limit = limit;
        self.front.clear();
        self.is_longer = false;
        self.is_blank = true;
    }

    /// Returns what the line contains.
    pub fn reading(&self, alloc: Global) -> Result<Reading, AllocError>
        ensures reading { IfOk result (λ r. (limit : ℕ) (line : List ℕ)
            → self.now ≡ front_of limit line → reading_view r ≡ reading_of limit line) }

        // It does not allocate for a line that is blank or too long.
        ensures short { IsTrue (self.now.is_blank || self.now.is_longer) → IsOk result }
    {
        if self.is_blank {
            return Ok(Reading::Blank);
        }
        if self.is_longer {
            return Ok(Reading::TooLong);
        }
        match parse(alloc, self.front.as_slice())? {
            Some(value) => Ok(Reading::Json(value)),
            None => Ok(Reading::NoJson),
        }
    }
}

fn now_longer(was_longer: bool, fits: usize, len: usize) -> bool
    ensures { result ≡ (was_longer || nat_lt fits len) }
{
    was_longer || fits < len
}

fn still_blank(was_blank: bool, bytes: &[u8]) -> bool
    ensures { result ≡ (was_blank && list_all is_blank_byte bytes.now) }
{
    was_blank && are_blank(bytes)
}

fn are_blank(bytes: &[u8]) -> bool
    ensures { result ≡ list_all is_blank_byte bytes.now }
{
    bytes
        .iter()
        .all(|byte| *byte == b' ' || *byte == b'\t' || *byte == b'\r')
}
