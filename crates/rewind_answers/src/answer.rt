//! The replies to the graph's line and to a later line.
ghost use Rattle.std.specs.Prelude.{◌≡◌, ◌∷◌, [], Ok, IfOk, OnErr, ok_or};
ghost use Rattle.nd_graph.specs.Fault.{IsUnlessMemory};
ghost use Rattle.nd_graph.specs.declared.fault.GraphFault.TheVariants.{Shape};
ghost use Rattle.serde_json.specs.View.{view};
ghost use Rattle.rewind_answers.specs.Answers.{draft_in, checked_in, graph_of as graph_in, LineReplies, AskedReply, CommandReply};
ghost use Rattle.rewind_replies.specs.Replies.{IsReply};
ghost use Rattle.rewind_answers.specs.Stages.{IsOrFollows, Starts, logged, phase_in};
ghost use Rattle.nd_protocol.specs.Invariant.{KeepsProtocol};
ghost use Rattle.nd_timeline.specs.Timeline.{cluster_of};

use crate::faulty_lines::line_fault;
use crate::query::answer_query;
use crate::stage::RunningScript;
use nd_cluster::{Cluster, StartFault};
use nd_commands::Command;
use nd_graph::{Graph, GraphDraft, GraphFault};
use nd_session::State;
use nd_timeline::Timeline;
use rewind_forms::{Asked, Version, asked_of};
use rewind_replies::{ErrorReply, GraphReply, NoNames, text_of};
use serde_json::Value;
use std::alloc::{AllocError, Global};
use std::thread::Threads;

/// The number of the only client.
const ONLY_CLIENT: u64 = 0;

// Returns the draft that the value describes in a script of this version. Before the ninth version names are shorter and
// timestamps have one order, before the sixth no vertex can be opaque, and before the fifth none can be a hold.
fn draft_of(alloc: Global, version: Version, value: &Value) -> Result<GraphDraft, GraphFault>
    ensures { IsUnlessMemory (ok_or (draft_in version (view value.now)) Shape) result }
{
    if version.includes(Version::Ninth) {
        GraphDraft::from_value(alloc, value)
    } else if version.includes(Version::Sixth) {
        GraphDraft::from_value_v8(alloc, value)
    } else if version.includes(Version::Fifth) {
        GraphDraft::from_value_v5(alloc, value)
    } else {
        GraphDraft::from_value_v4(alloc, value)
    }
}

// Checks the draft as in a script of this version.
fn judged(alloc: Global, version: Version, draft: GraphDraft) -> Result<Graph, GraphFault>
    ensures { IsUnlessMemory (checked_in version draft) result }
{
    if version.includes(Version::Ninth) {
        draft.check(alloc)
    } else if version.includes(Version::Sixth) {
        draft.check_v8(alloc)
    } else if version.includes(Version::Second) {
        draft.check_v5(alloc)
    } else {
        draft.check_v1(alloc)
    }
}

/// Returns the graph that the value describes in a script of this version.
fn graph_of(alloc: Global, version: Version, value: &Value) -> Result<Graph, GraphFault>
    ensures { IsUnlessMemory (graph_in version (view value.now)) result }
{
    let draft = match draft_of(alloc, version, value) {
        Ok(draft) => draft,
        Err(fault) => return Err(fault),
    };
    judged(alloc, version, draft)
}

/// What the graph's line gives: a `State`, or the reply to a graph that is refused.
#[derive(Drop)]
pub enum First {
    Started(Started),
    Refused(ErrorReply),
}

/// A `State` at its start, and the reply to its graph.
#[derive(Drop)]
pub struct Started {
    pub reply: GraphReply,
    pub state: State,
}

/// Starts a cluster on a graph.
fn start_on(
    alloc: Global,
    version: Version,
    processors: u8,
    graph: Graph,
) -> Result<First, AllocError>
    ensures replies { IfOk result (λ r. Starts version processors (Ok graph) r) }
{
    let count = usize::from(processors);
    if count > version.most_processors() {
        return Ok(First::Refused(ErrorReply::Plain(StartFault::BadCount.code())));
    }
    let names = graph.copy(alloc)?;
    match Cluster::start(alloc, graph, u32::from(processors)) {
        Ok(cluster) => {
            let timeline = Timeline::new(alloc, cluster)?;
            let state = State::new(alloc, timeline)?;
            let reply = GraphReply {
                locations: names.location_count(),
                processors,
            };
            Ok(First::Started(Started { reply, state }))
        }
        Err(StartFault::BadCount) => {
            Ok(First::Refused(ErrorReply::Plain(StartFault::BadCount.code())))
        }
        Err(StartFault::LoopNotStrict { location }) => {
            let fault = StartFault::LoopNotStrict { location };
            let name = String::from_str(alloc, names.location_name(location))?;
            Ok(First::Refused(ErrorReply::Location(fault.code(), name)))
        }
        Err(StartFault::Memory) => Err(AllocError),
    }
}

/// Reads the graph's line in a script of this version, and starts a `State` if the graph is accepted.
pub fn answer_first(
    alloc: Global,
    version: Version,
    processors: u8,
    value: &Value,
) -> Result<First, AllocError>
    ensures replies { IfOk result (λ r.
        Starts version processors (graph_in version (view value.now)) r) }
{
    let graph = match graph_of(alloc, version, value) {
        Ok(graph) => graph,
        Err(GraphFault::Memory) => return Err(AllocError),
        Err(fault) => return Ok(First::Refused(ErrorReply::Plain(fault.code()))),
    };
    start_on(alloc, version, processors, graph)
}

/// Returns the cluster at the cursor.
pub fn cluster(state: &State) -> &Cluster
    ensures value { result.now ≡ cluster_of state.now.machine.timeline }
    ensures protocol { KeepsProtocol result.now }
{
    state.timeline().cluster()
}

// Answers and logs a command, and replies.
fn answer_do(alloc: Global, state: &mut State, command: Command) -> Result<Vec<u8>, AllocError>
    ensures reply { IfOk result (λ t. IsReply
        (λ v. CommandReply (logged state.old) command v (logged state.new)) t.items) }
    ensures memory { OnErr result (IsOrFollows (CommandReply (logged state.old) command)
        (logged state.old) (logged state.new)) }
{
    match state.answer(ONLY_CLIENT, command) {
        Ok(reply) => text_of(alloc, cluster(state).graph(), &reply),
        Err(fault) => text_of(alloc, &NoNames, &fault.code()),
    }
}

// Answers a command or a query, and returns the text of the reply.
fn answer_asked<R: Threads + Sync>(
    rt: &R,
    alloc: Global,
    state: &mut State,
    asked: Asked,
) -> Result<Vec<u8>, AllocError>
    ensures reply { IfOk result (λ t. IsReply
        (λ v. AskedReply (logged state.old) asked v (logged state.new)) t.items) }
    ensures memory { OnErr result (IsOrFollows (AskedReply (logged state.old) asked)
        (logged state.old) (logged state.new)) }
{
    match asked {
        Asked::Do(command) => answer_do(alloc, state, command),
        Asked::Look(query) => answer_query(rt, alloc, state, &query),
    }
}

/// Answers a later line of a script, and returns the text of the reply. If memory runs out, the command was made and logged, and
/// only its reply is lost, or nothing has changed.
pub fn answer_later<R: Threads + Sync>(
    rt: &R,
    alloc: Global,
    script: &mut RunningScript,
    value: &Value,
    line: u64,
) -> Result<Vec<u8>, AllocError>
    ensures replies { IfOk result (λ t. IsReply
        (λ v. LineReplies script.old.version (logged script.old.state)
        line (view value.now) (v ∷ []) (phase_in script.new)) t.items) }
    ensures memory { OnErr result (IsOrFollows
        (LineReplies script.old.version (logged script.old.state) line (view value.now))
        (phase_in script.old) (phase_in script.new)) }
{
    let graph = cluster(&script.state).graph();
    let asked = match asked_of(alloc, script.version, graph, value) {
        Ok(asked) => asked,
        Err(fault) => return line_fault(alloc, fault, line),
    };
    answer_asked(rt, alloc, &mut script.state, asked)
}
