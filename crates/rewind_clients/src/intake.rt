//! What results from reading the lines of a script, one after another.
ghost use Rattle.std.specs.Prelude.{◌≡◌, ◌<◌, [], length, IfOk, OnOk};
ghost use Rattle.serde_json.specs.View.{view};
ghost use Rattle.nd_timeline.specs.Timeline.{cluster_of};
ghost use Rattle.rewind_lines.specs.Lines.{json};
ghost use Rattle.rewind_lines.specs.Readings.{reading_view};
ghost use Rattle.rewind_replies.specs.Errors.{error_data};
ghost use Rattle.rewind_forms.specs.LineFaults.{code_of};
ghost use Rattle.rewind_replies.specs.Replies.{faulty};
ghost use Rattle.rewind_answers.specs.Stages.{logged};
ghost use Rattle.rewind_sessions.specs.Orders.{order_in as order_line};
ghost use Rattle.rewind_sessions.specs.Runs.{lists_of};
ghost use Rattle.rewind_clients.specs.Intake.{ReadsLine, limit_after, no_commands as no_commands_in, ordered, with_command};
ghost use Rattle.rewind_clients.specs.Intakes.{intake_view, opening_replies, or_faulty, unstarted_view, version_of as version_in, Starts};

use nd_commands::Command;
use nd_session::State;
use nd_time::limits::MAX_LINE;
use rewind_answers::{First, Started, answer_first};
use rewind_forms::{LineFault, Version, version_of};
use rewind_lines::Reading;
use rewind_options::Options;
use rewind_replies::{ErrorReply, GraphReply};
use rewind_sessions::{Order, order_in};
use serde_json::Value;
use std::alloc::{AllocError, Global};

/// A script that was read completely.
#[derive(Drop)]
pub struct ReadScript {
    /// The version that the version line names, if there was one.
    pub opened: Option<Version>,
    /// The graph's reply.
    pub reply: GraphReply,
    /// The `State` that begins at the initial state on the graph.
    pub state: State,
    /// Each client's commands, in the order of its lines.
    pub commands: Vec<Vec<Command>>,
}

/// The result of the lines read so far.
#[derive(Drop)]
pub enum Intake {
    /// No graph yet; the version that the version line names, if there was one. All other lines were
    /// blank.
    Unstarted(Option<Version>),
    /// The graph's line was refused, and this is its reply.
    Refused(ErrorReply),
    /// A line after the graph's is faulty, and this is its reply.
    Faulty(ErrorReply),
    /// A graph, and clients' commands.
    Whole(ReadScript),
}

// Returns an empty list of commands for each client.
fn no_commands(alloc: Global, clients: u8) -> Result<Vec<Vec<Command>>, AllocError>
    ensures { IfOk result (λ v. lists_of v.items ≡ no_commands_in clients) }
{
    let mut commands = Vec::with_capacity(alloc, usize::from(clients))?;
    for _ in 0..clients {
        commands.push(Vec::new(alloc))?;
    }
    Ok(commands)
}

// Returns the reply to a line that is no JSON value.
fn error_at(fault: LineFault, line: u64) -> ErrorReply
    ensures { error_data result ≡ faulty (code_of fault) line }
{
    ErrorReply::Line(fault.code(), line)
}

// Returns the result of the graph's line, from its value.
fn start(
    alloc: Global,
    options: &Options,
    opened: Option<Version>,
    value: &Value,
) -> Result<Intake, AllocError>
    ensures { IfOk result (λ new.
        Starts options.now.processors options.now.clients opened
        (view value.now) (intake_view new)) }
{
    let version = opened.unwrap_or(Version::First);
    match answer_first(alloc, version, options.processors, value)? {
        First::Refused(error) => Ok(Intake::Refused(error)),
        First::Started(Started { reply, state }) => Ok(Intake::Whole(ReadScript {
            opened,
            reply,
            state,
            commands: no_commands(alloc, options.clients)?,
        })),
    }
}

// Returns the result of the version line or the graph's line, from its value. A second version line
// counts as the graph's.
fn read_value(
    alloc: Global,
    options: &Options,
    opened: Option<Version>,
    value: &Value,
    line: u64,
) -> Result<Intake, AllocError>
    ensures { IfOk result (λ new.
        ReadsLine options.now.processors options.now.clients (unstarted_view opened) line
        (json (view value.now)) (intake_view new)) }
{
    match opened {
        None => match version_of(value) {
            None => start(alloc, options, None, value),
            Some(version) => Ok(Intake::Unstarted(Some(version))),
        },
        Some(version) => start(alloc, options, Some(version), value),
    }
}

// Returns the result of the graph's line, or of a line before it.
fn begin(
    alloc: Global,
    options: &Options,
    opened: Option<Version>,
    reading: &Reading,
    line: u64,
) -> Result<Intake, AllocError>
    ensures { IfOk result (λ new.
        ReadsLine options.now.processors options.now.clients (unstarted_view opened) line
        (reading_view reading.now) (intake_view new)) }
{
    match reading {
        Reading::Blank => Ok(Intake::Unstarted(opened)),
        Reading::TooLong => Ok(Intake::Refused(error_at(LineFault::LineTooLong, line))),
        Reading::NoJson => Ok(Intake::Refused(error_at(LineFault::BadLine, line))),
        Reading::Json(value) => read_value(alloc, options, opened, value, line),
    }
}

// Appends a command to those of its client.
fn add_command(commands: &mut Vec<Vec<Command>>, order: Order) -> Result<(), AllocError>
    requires { order.client < length commands.old.items }
    ensures { OnOk result
        (lists_of commands.new.items ≡ with_command order (lists_of commands.old.items)) }
{
    let client = order.client as usize;
    commands[client].push(order.command)?;
    Ok(())
}

impl ReadScript {
    // Processes a line that is not blank. Returns the reply if the line is faulty.
    fn read_order(
        &mut self,
        alloc: Global,
        reading: Reading,
        line: u64,
    ) -> Result<Option<ErrorReply>, AllocError>
        ensures { IfOk result (λ r. or_faulty r self.new ≡ ordered (version_in self.old)
            (opening_replies self.old) (logged self.old.state) (lists_of self.old.commands.items)
            line (order_line (version_in self.old) (length self.old.commands.items)
            (cluster_of self.old.state.machine.timeline).graph (reading_view reading))) }
    {
        let version = self.opened.unwrap_or(Version::First);
        let graph = self.state.timeline().cluster().graph();
        match order_in(alloc, version, self.commands.len(), graph, reading)? {
            Ok(order) => {
                add_command(&mut self.commands, order)?;
                Ok(None)
            }
            Err(fault) => Ok(Some(ErrorReply::Line(fault.code(), line))),
        }
    }
}

impl Intake {
    /// Returns how many bytes the next line may have.
    pub fn limit(&self) -> usize
        ensures { result ≡ limit_after (intake_view self.now) }
    {
        match self {
            Intake::Unstarted(Some(version)) => version.longest_graph(),
            Intake::Unstarted(None) | Intake::Refused(_) | Intake::Faulty(_) | Intake::Whole(_) =>
                MAX_LINE,
        }
    }

    /// Processes the line with this number.
    pub fn read_line(
        &mut self,
        alloc: Global,
        options: &Options,
        reading: Reading,
        line: u64,
    ) -> Result<(), AllocError>
        ensures reads { OnOk result (ReadsLine options.now.processors options.now.clients
            (intake_view self.old) line (reading_view reading) (intake_view self.new)) }
    {
        match self {
            Intake::Unstarted(opened) => {
                *self = begin(alloc, options, *opened, &reading, line)?;
            }
            Intake::Refused(_) | Intake::Faulty(_) => (),
            Intake::Whole(script) => {
                if matches!(reading, Reading::Blank) {
                    return Ok(());
                }
                if let Some(reply) = script.read_order(alloc, reading, line)? {
                    *self = Intake::Faulty(reply);
                }
            }
        }
        Ok(())
    }
}
