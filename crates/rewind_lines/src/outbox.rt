//! Replies that are collected, and written together.
ghost use Rattle.std.specs.Prelude.{◌≡◌, ◌++◌, ◌∷◌, [], ℕ, false, length, nat_le, take, is_err, OnOk, OnErr};
ghost use Rattle.std.specs.Io.KnownBytes.{Appends};

use crate::sink::{Sink, Unwritten, send};
use std::alloc::{AllocError, Global};
use std::marker::Model;

/// Replies should be written when they have at least this many bytes.
const WAITING: usize = 65_536;

/// The text of the replies that wait to be written.
#[derive(Drop)]
pub struct Outbox {
    alloc: Global,
    waiting: Vec<u8>,
}

impl Model for Outbox {
    ghost use Rattle.std.specs.Prelude.{ℕ, List};

    ghost Value = { List ℕ };

    ghost view = { λ o. o.waiting.items };
}

impl Outbox {
    /// Returns an outbox without replies.
    pub fn new(alloc: Global) -> Outbox
        ensures { result ≡ [] }
    {
        Outbox {
            alloc,
            waiting: Vec::new(alloc),
        }
    }

    /// Appends `text` as a line: the text and a newline. If no reply waits, a long text is moved instead of copied.
    pub fn add_text(&mut self, text: Vec<u8>) -> Result<(), AllocError>
        ensures ok { OnOk result (self.new ≡ self.old ++ (text.items ++ 10 ∷ [])) }
        ensures err { OnErr result (self.new ≡ self.old) }
    {
        let mut line = text;
        line.push(b'\n')?;
        if self.waiting.is_empty() && line.len() >= WAITING {
            self.waiting = line;
            return Ok(());
        }
        self.waiting.extend_from_slice(line.as_slice())?;
        Ok(())
    }

    /// Returns whether so much text waits that it should be written.
    pub fn is_full(&self) -> bool
        ensures { result ≡ nat_le 65536 (length self.now) }
    {
        self.waiting.len() >= WAITING
    }

    /// Writes the waiting text, or only its first bytes if the sink fails.
    pub fn flush<T: Sink>(&mut self, sink: &mut T) -> Result<(), Unwritten>
        requires { T.failed sink.old ≡ false }
        ensures ok { OnOk result (Appends (T.contents sink.old) (T.contents sink.new) self.old) }
        ensures none { OnOk result (self.new ≡ []) }
        ensures err { OnErr result ((n : ℕ)
            × Appends (T.contents sink.old) (T.contents sink.new) (take n self.old)) }
        ensures failed { T.failed sink.new ≡ is_err result }
    {
        send(sink, self.waiting.as_slice())?;
        self.waiting.clear();
        Ok(())
    }
}
