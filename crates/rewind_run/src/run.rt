//! A run of a script. The replies to what is read at a time are gathered, and written together.
ghost use Rattle.std.specs.Prelude.{◌≡◌, ◌+◌, ◌<◌, ◌≤◌, ◌^◌, ◌∷◌, ◌++◌, [], false, length, take, IfOk, IfErr, OnErr, OnOk};
ghost use Rattle.rewind_options.specs.Faults.{is_write_fault};
ghost use Rattle.rewind_lines.specs.Lines.{lines_of, whole_lines_of};
ghost use Rattle.rewind_lines.specs.Readings.{reading_view};
ghost use Rattle.rewind_run.specs.Faults.{IsOfLine, IsOfRun};
ghost use Rattle.rewind_answers.specs.Stages.{phase_of, phase_after};
ghost use Rattle.rewind_run.specs.States.{AddsOne, AnswersOn, EndsAmong, Gathers, ReadsOn, Stands, StopsAmong, WaitsFew};

use rewind_answers::{Answer, Stage, answer_line};
use rewind_lines::{LineReader, Outbox, Reading, Sink};
use rewind_options::DebugFault;
use std::alloc::{AllocError, Global};
use std::thread::Threads;

/// What was read of a script, the stage of the run, and the replies that wait to be written.
#[derive(Drop)]
pub struct Run {
    alloc: Global,
    stage: Stage,
    lines: LineReader,
    replied: u64,
    outbox: Outbox,
}

impl Run {
    /// Returns a run on `processors` processors, before its first line.
    pub fn new(alloc: Global, processors: u8) -> Run
        ensures stands { Stands processors [] [] result }
        ensures none_waits { result.outbox ≡ [] }
        ensures number { (result.lines.number ≡ 1) × (result.replied ≡ 0) }
    {
        Run {
            alloc,
            stage: Stage::Unopened(processors),
            lines: LineReader::new(alloc),
            replied: 0,
            outbox: Outbox::new(alloc),
        }
    }

    /// Returns how many lines were replied to.
    pub fn replied(&self) -> u64
        ensures { result ≡ self.now.replied }
    {
        self.replied
    }

    /// Answers the line and gathers the reply. Returns how many replies that is, and whether the run ends.
    fn answer<R: Threads + Sync>(
        &mut self,
        rt: &R,
        reading: &Reading,
    ) -> Result<(u64, bool), AllocError>
        ensures answers { IfOk result (λ r. Gathers (phase_of self.old.stage) self.old.lines.number
            (reading_view reading.now) self.old.outbox self.new.outbox
            r.0 (phase_after r.1 self.new.stage)) }
        ensures one { IfOk result (λ r. r.0 ≤ 1) }
        ensures err { OnErr result (self.new.outbox ≡ self.old.outbox) }
        ensures lines { self.new.lines ≡ self.old.lines }
        ensures replied { self.new.replied ≡ self.old.replied }
    {
        let number = self.lines.number();
        let answer = answer_line(rt, self.alloc, &mut self.stage, reading, number)?;
        let Answer { reply, is_last } = answer;
        match reply {
            None => Ok((0, is_last)),
            Some(text) => {
                self.outbox.add_text(text)?;
                Ok((1, is_last))
            }
        }
    }

    /// Ends the line, and gathers the reply to it.
    fn end_line<R: Threads + Sync>(&mut self, rt: &R) -> Result<(), DebugFault>
        requires number { self.old.lines.number + 1 < 2 ^ 64 }
        requires replied { self.old.replied + 1 < 2 ^ 64 }
        ensures ok { OnOk result (ReadsOn self.old (10 ∷ []) self.new) }
        ensures err { IfErr result (StopsAmong lines_of self.old self.new) }
        ensures counts { OnOk result ((self.new.lines.number ≡ self.old.lines.number + 1)
            × (self.new.replied ≤ self.old.replied + 1)) }
        ensures adds { AddsOne self.old.outbox self.new.outbox }
        ensures kind { IfErr result IsOfLine }
    {
        let reading = self.lines.reading()?;
        let (count, is_last) = self.answer(rt, &reading)?;
        if is_last {
            return Err(DebugFault::Graph);
        }
        let limit = self.stage.limit();
        self.lines.begin_next(limit);
        self.replied += count;
        Ok(())
    }

    /// Processes bytes until many bytes of replies wait, and returns how many bytes it processed. No reply is
    /// added while 65,536 bytes or more wait.
    fn gather<R: Threads + Sync>(&mut self, rt: &R, bytes: &[u8]) -> Result<usize, DebugFault>
        requires number { self.old.lines.number + length bytes.now < 2 ^ 64 }
        requires replied { self.old.replied + length bytes.now < 2 ^ 64 }
        requires room { length self.old.outbox < 65536 }
        ensures within { IfOk result (λ n. n ≤ length bytes.now) }
        ensures some { IfOk result (λ n. 0 < length bytes.now → 0 < n) }
        ensures ok { IfOk result (λ n. ReadsOn self.old (take n bytes.now) self.new) }
        ensures err { IfErr result
            (StopsAmong (λ done. whole_lines_of (done ++ bytes.now)) self.old self.new) }
        ensures counts { IfOk result (λ n. (self.new.lines.number ≤ self.old.lines.number + n)
            × (self.new.replied ≤ self.old.replied + n)) }
        ensures few { WaitsFew self.new.outbox }
        ensures kind { IfErr result IsOfLine }
    {
        let mut from = 0;
        'lines: while let Some(n) = self.lines.take(&bytes[from..])? {
            self.end_line(rt)?;
            from += n;
            if self.outbox.is_full() {
                return Ok(from);
            }
        }
        Ok(bytes.len())
    }

    /// Processes more bytes, and writes the replies to the lines that are now complete, together.
    pub fn feed<R: Threads + Sync, T: Sink>(
        &mut self,
        rt: &R,
        bytes: &[u8],
        sink: &mut T,
    ) -> Result<(), DebugFault>
        requires number { self.old.lines.number + length bytes.now < 2 ^ 64 }
        requires replied { self.old.replied + length bytes.now < 2 ^ 64 }
        requires none_waits { self.old.outbox ≡ [] }
        requires sound { T.failed sink.old ≡ false }
        ensures ok { OnOk result (AnswersOn self.old (T.contents sink.old) bytes.now
            self.new (T.contents sink.new)) }
        ensures err { IfErr result (EndsAmong (λ done. whole_lines_of (done ++ bytes.now))
            self.old (T.contents sink.old) (T.contents sink.new)) }
        ensures counts { OnOk result (
            (self.new.lines.number ≤ self.old.lines.number + length bytes.now)
            × (self.new.replied ≤ self.old.replied + length bytes.now)) }
        ensures none_waits { OnOk result (self.new.outbox ≡ []) }
        ensures kind { IfErr result IsOfRun }
        ensures failed { T.failed sink.new ≡ is_write_fault result }
    {
        let mut from = 0;
        'parts: while from < bytes.len() {
            let gathered = self.gather(rt, &bytes[from..]);
            self.outbox.flush(sink)?;
            from += gathered?;
        }
        Ok(())
    }

    /// Ends the last line, and writes the reply to it.
    pub fn finish<R: Threads + Sync, T: Sink>(
        &mut self,
        rt: &R,
        sink: &mut T,
    ) -> Result<(), DebugFault>
        requires number { self.old.lines.number + 1 < 2 ^ 64 }
        requires replied { self.old.replied + 1 < 2 ^ 64 }
        requires none_waits { self.old.outbox ≡ [] }
        requires sound { T.failed sink.old ≡ false }
        ensures ok { OnOk result (AnswersOn self.old (T.contents sink.old) (10 ∷ [])
            self.new (T.contents sink.new)) }
        ensures err { IfErr result (EndsAmong lines_of
            self.old (T.contents sink.old) (T.contents sink.new)) }
        ensures kind { IfErr result IsOfRun }
        ensures failed { T.failed sink.new ≡ is_write_fault result }
    {
        let ended = self.end_line(rt);
        self.outbox.flush(sink)?;
        ended
    }
}
