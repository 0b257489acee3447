//! The stages of a run, and the reply to each line in each stage.
ghost use Rattle.std.specs.Prelude.{◌≡◌, Some, false, IfOk, OnErr};
ghost use Rattle.std.specs.Option.{option_to_list};
ghost use Rattle.serde_json.specs.View.{view};
ghost use Rattle.rewind_lines.specs.Lines.{json};
ghost use Rattle.rewind_lines.specs.Readings.{reading_view};
ghost use Rattle.serde_json.specs.Written.{compact_text};
ghost use Rattle.rewind_replies.specs.Replies.{version as version_data};
ghost use Rattle.rewind_answers.specs.Answers.{graph_of, limit_in, StartReplies, OpeningReplies, Answers, after_fault};
ghost use Rattle.rewind_forms.specs.Versions.{number_of, version_of as version_in};
ghost use Rattle.rewind_answers.specs.FaultyLines.{line_fault as line_fault_data};
ghost use Rattle.rewind_answers.specs.Stages.{IsOrFollows, AreReplies, phase_of, phase_after};

use crate::answer::{First, Started, answer_first, answer_later};
use crate::faulty_lines::line_fault;
use nd_session::State;
use nd_time::limits::MAX_LINE;
use rewind_forms::{LineFault, Version, version_of};
use rewind_lines::Reading;
use rewind_replies::{NoNames, object, text_of};
use serde_json::Value;
use std::alloc::{AllocError, Global};
use std::thread::Threads;

/// The stage of a run: before any line, with a number of processors; before the graph's line, in a script of this version; or
/// after it.
#[derive(Drop)]
pub enum Stage {
    Unopened(u8),
    Unstarted(Version, u8),
    Running(RunningScript),
}

impl Stage {
    /// Returns how many bytes the next line may have.
    pub fn limit(&self) -> usize
        ensures { result ≡ limit_in (phase_of self.now) }
    {
        match self {
            Stage::Unstarted(version, _) => version.longest_graph(),
            Stage::Unopened(_) | Stage::Running(_) => MAX_LINE,
        }
    }
}

/// A script of this version whose graph is accepted.
#[derive(Drop)]
pub struct RunningScript {
    pub version: Version,
    pub state: State,
}

/// The text of the reply to a line, if it has one, and whether the run ends there.
#[derive(Drop)]
pub struct Answer {
    pub reply: Option<Vec<u8>>,
    pub is_last: bool,
}

fn goes_on(text: Vec<u8>) -> Answer
    ensures { (result.reply ≡ Some text) × (result.is_last ≡ false) }
{
    Answer {
        reply: Some(text),
        is_last: false,
    }
}

// Answers a line that is no JSON value; as the first line or the graph's it ends the run.
fn answer_fault(
    alloc: Global,
    stage: &Stage,
    fault: LineFault,
    line: u64,
) -> Result<Answer, AllocError>
    ensures reply { IfOk result (λ a.
        AreReplies (λ replies. replies ≡ option_to_list (line_fault_data fault line)) a.reply) }
    ensures after { IfOk result (λ a.
        phase_after a.is_last stage.now ≡ after_fault (phase_of stage.now)) }
{
    Ok(Answer {
        reply: Some(line_fault(alloc, fault, line)?),
        is_last: matches!(stage, Stage::Unopened(_) | Stage::Unstarted(_, _)),
    })
}

// Answers the graph's line in a script of this version.
fn answer_graph(
    alloc: Global,
    stage: &mut Stage,
    version: Version,
    processors: u8,
    value: &Value,
) -> Result<Answer, AllocError>
    ensures answers { IfOk result (λ a. AreReplies
        (λ replies. StartReplies version processors (graph_of version (view value.now))
        replies (phase_after a.is_last stage.new)) a.reply) }
    ensures memory { OnErr result (stage.new ≡ stage.old) }
{
    match answer_first(alloc, version, processors, value)? {
        First::Refused(error) => Ok(Answer {
            reply: Some(text_of(alloc, &NoNames, &error)?),
            is_last: true,
        }),
        First::Started(Started { reply, state }) => {
            let text = text_of(alloc, &NoNames, &reply)?;
            *stage = Stage::Running(RunningScript { version, state });
            Ok(goes_on(text))
        }
    }
}

// Returns the text of the reply to the line that names the script's version.
fn version_reply(alloc: Global, version: Version) -> Result<Vec<u8>, AllocError>
    ensures reply { IfOk result (λ t.
        t.items ≡ compact_text (version_data (number_of version))) }
{
    text_of(
        alloc,
        &NoNames,
        &object! {"ok": true, "version": version.number()},
    )
}

// Answers the first line, which names the script's version or is the graph's.
fn answer_opening(
    alloc: Global,
    stage: &mut Stage,
    processors: u8,
    value: &Value,
) -> Result<Answer, AllocError>
    ensures answers { IfOk result (λ a. AreReplies
        (λ replies. OpeningReplies (version_in (view value.now)) processors (view value.now)
        replies (phase_after a.is_last stage.new)) a.reply) }
    ensures memory { OnErr result (stage.new ≡ stage.old) }
{
    let Some(version) = version_of(value) else {
        return answer_graph(alloc, stage, Version::First, processors, value);
    };
    let text = version_reply(alloc, version)?;
    *stage = Stage::Unstarted(version, processors);
    Ok(goes_on(text))
}

// Answers the first line, the graph's or a later one.
fn answer_value<R: Threads + Sync>(
    rt: &R,
    alloc: Global,
    stage: &mut Stage,
    value: &Value,
    line: u64,
) -> Result<Answer, AllocError>
    ensures answers { IfOk result (λ a. AreReplies
        (λ replies. Answers (phase_of stage.old) line (json (view value.now))
        replies (phase_after a.is_last stage.new)) a.reply) }
    ensures memory { OnErr result (IsOrFollows
        (Answers (phase_of stage.old) line (json (view value.now)))
        (phase_of stage.old) (phase_of stage.new)) }
{
    match stage {
        Stage::Unopened(processors) => {
            let processors = *processors;
            answer_opening(alloc, stage, processors, value)
        }
        Stage::Unstarted(version, processors) => {
            let (version, processors) = (*version, *processors);
            answer_graph(alloc, stage, version, processors, value)
        }
        Stage::Running(script) => {
            let text = answer_later(rt, alloc, script, value, line)?;
            Ok(goes_on(text))
        }
    }
}

/// Answers the line of this number; `Err` only if memory runs out.
///
/// A blank line has no reply. A faulty line changes nothing, and ends the run if it is the first or
/// the graph's; so does a graph that is refused. If memory runs out, the line was answered, and only its reply is lost, or the
/// stage is as it was.
pub fn answer_line<R: Threads + Sync>(
    rt: &R,
    alloc: Global,
    stage: &mut Stage,
    reading: &Reading,
    line: u64,
) -> Result<Answer, AllocError>
    ensures answers { IfOk result (λ a. AreReplies
        (λ replies. Answers (phase_of stage.old) line (reading_view reading.now)
        replies (phase_after a.is_last stage.new)) a.reply) }
    ensures memory { OnErr result (IsOrFollows
        (Answers (phase_of stage.old) line (reading_view reading.now))
        (phase_of stage.old) (phase_of stage.new)) }
{
    match reading {
        Reading::Blank => Ok(Answer {
            reply: None,
            is_last: false,
        }),
        Reading::TooLong => answer_fault(alloc, stage, LineFault::LineTooLong, line),
        Reading::NoJson => answer_fault(alloc, stage, LineFault::BadLine, line),
        Reading::Json(value) => answer_value(rt, alloc, stage, value, line),
    }
}
