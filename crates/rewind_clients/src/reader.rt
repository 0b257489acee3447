//! A complete script, from a source of bytes.
ghost use Rattle.std.specs.Prelude.{◌≡◌, ◌+◌, ◌-◌, ◌<◌, ◌≤◌, ◌^◌, ◌∷◌, ◌++◌, [], ℕ, List, Some, false, true, length, IfOk, IfErr, OnOk};
ghost use Rattle.rewind_options.specs.Faults.{is_read_fault};
ghost use Rattle.rewind_options.specs.declared.options.Options.{Options as TheOptions};
ghost use Rattle.rewind_clients.specs.Clients.{ReadFails, ReadWhole, Takes};
ghost use Rattle.rewind_clients.specs.Intakes.{intake_view};
ghost use Rattle.rewind_clients.specs.Readers.{IsOfReading, StandsAt};

use crate::intake::Intake;
use rewind_lines::{CHUNK, LineReader, Source, front, read_into};
use rewind_options::{DebugFault, Options};
use std::alloc::{AllocError, Global};

/// What was read of a script, and the result.
#[derive(Drop)]
struct Reader {
    alloc: Global,
    options: Options,
    lines: LineReader,
    intake: Intake,
}

impl Reader {
    // Returns a reader before the first line.
    fn new(alloc: Global, options: &Options) -> Reader
        ensures stands { StandsAt options.now [] result }
        ensures number { result.lines.number ≡ 1 }
    {
        Reader {
            alloc,
            options: *options,
            lines: LineReader::new(alloc),
            intake: Intake::Unstarted(None),
        }
    }

    // Ends the line, and processes it.
    fn end_line(&mut self) -> Result<(), AllocError>
        requires number { self.old.lines.number + 1 < 2 ^ 64 }
        ensures ok { OnOk result ((options : TheOptions) (done : List ℕ)
            → StandsAt options done self.old → StandsAt options (done ++ 10 ∷ []) self.new) }
        ensures number { OnOk result (self.new.lines.number ≡ self.old.lines.number + 1) }
    {
        let reading = self.lines.reading()?;
        let number = self.lines.number();
        self.intake
            .read_line(self.alloc, &self.options, reading, number)?;
        let limit = self.intake.limit();
        self.lines.begin_next(limit);
        Ok(())
    }

    // Processes more bytes.
    fn feed(&mut self, bytes: &[u8]) -> Result<(), AllocError>
        requires number { self.old.lines.number + length bytes.now < 2 ^ 64 }
        ensures ok { OnOk result ((options : TheOptions) (done : List ℕ)
            → StandsAt options done self.old → StandsAt options (done ++ bytes.now) self.new) }
        ensures number { OnOk result
            (self.new.lines.number ≤ self.old.lines.number + length bytes.now) }
    {
        let mut from = 0;
        'lines: while let Some(n) = self.lines.take(&bytes[from..])? {
            self.end_line()?;
            from += n;
        }
        Ok(())
    }
}

/// Reads a script of at most `limit` bytes, to its end.
pub fn read_script<S: Source>(
    alloc: Global,
    source: &mut S,
    options: &Options,
    limit: usize,
) -> Result<Intake, DebugFault>
    requires limit { limit < 2 ^ 63 }
    requires goes_on { S.ended source.old ≡ false }
    requires unfailed { S.failed source.old ≡ false }
    requires few { S.given source.old + limit + 1 < 2 ^ 64 }
    ensures whole { IfOk result (λ i. (input : List ℕ) → S.remaining source.old ≡ Some input
        → ReadWhole options.now.processors options.now.clients limit
        input (S.remaining source.new) (intake_view i)) }
    ensures err { IfErr result (λ e. (input : List ℕ) → S.remaining source.old ≡ Some input
        → ReadFails limit input (S.remaining source.new) e) }
    ensures kind { IfErr result IsOfReading }
    ensures takes { Takes limit result (S.given source.new - S.given source.old) }
    ensures ended { OnOk result (S.ended source.new ≡ true) }
    ensures read { S.failed source.new ≡ is_read_fault result }
{
    let mut reader = Reader::new(alloc, options);
    let mut room = vec![in alloc; 0u8; CHUNK]?;
    let chunk = room.as_mut_slice();
    let mut left = limit;
    'reads: loop {
        // The byte past the limit shows that the input is longer.
        let most = CHUNK.min(left + 1);
        let n = read_into(source, chunk, most)?;
        if n == 0 {
            reader.end_line()?;
            return Ok(reader.intake);
        }
        if n > left {
            return Err(DebugFault::TooLong);
        }
        reader.feed(front(chunk, n))?;
        left -= n;
    }
}
