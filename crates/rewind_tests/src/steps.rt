//! Steps that a script exports, read back.

use crate::runs::{ONE, TRACED, run};
use nd_graph::{Graph, GraphDraft};
use rewind_forms::read_step;
use rewind_replies::text_of;
use rewind_testing::HELD;
use serde_json::Value;
use std::alloc::{AllocError, Global};
use std::test::Fail;

/// The graph of one input, a sum and a sink in a row.
const SUM: &str =
    r#"{"vertices":[{"name":"a","op":"input","depth":0},{"name":"s","op":"sum","depth":0},{"name":"z","op":"sink","depth":0}],"edges":[{"name":"as","from":"a","port":0,"to":"s","route":"local"},{"name":"sz","from":"s","port":0,"to":"z","route":"local"}]}"#;

/// The nine steps of the worked example *sum-notified*, each as it is exported.
const STEPS: &[&str] = &[
    r#"{"do":"feed","next":"close","p":0,"values":[2,3],"vertex":"a"}"#,
    r#"{"do":"take","edge":"as","p":0,"time":[0],"value":2}"#,
    r#"{"do":"broadcast","p":0}"#,
    r#"{"do":"receive","from":0,"to":0}"#,
    r#"{"do":"take","edge":"as","p":0,"time":[0],"value":3}"#,
    r#"{"do":"broadcast","p":0}"#,
    r#"{"do":"receive","from":0,"to":0}"#,
    r#"{"do":"notice","p":0,"time":[0],"vertex":"s"}"#,
    r#"{"do":"take","edge":"sz","p":0,"time":[0],"value":5}"#,
];

/// Steps on *held*, each as it is exported: a feed to an epoch, and releases that move a capability and drop it.
const RELEASES: &[&str] = &[
    r#"{"do":"feed","next":{"to":4},"p":0,"values":[7],"vertex":"a"}"#,
    r#"{"do":"take","edge":"ah","p":0,"time":[0],"value":7}"#,
    r#"{"do":"release","p":0,"time":[0],"to":[3],"vertex":"h"}"#,
    r#"{"do":"broadcast","p":0}"#,
    r#"{"do":"receive","from":0,"to":0}"#,
    r#"{"do":"release","p":0,"time":[3],"vertex":"h"}"#,
];

/// Steps on *traced*, each as it is exported: sends with and without a time and a processor of their own, and releases that
/// keep the capability and move it.
const SENDS: &[&str] = &[
    r#"{"do":"feed","next":"close","p":0,"values":[7],"vertex":"a"}"#,
    r#"{"do":"take","edge":"ax","p":0,"time":[0],"value":7}"#,
    r#"{"do":"send","p":0,"port":0,"time":[0],"values":[1,2],"vertex":"x"}"#,
    r#"{"at":[2],"do":"send","p":0,"port":1,"time":[0],"values":[5],"vertex":"x"}"#,
    r#"{"dest":0,"do":"send","p":0,"port":1,"time":[0],"values":[-5],"vertex":"x"}"#,
    r#"{"at":[0],"dest":0,"do":"send","p":0,"port":1,"time":[0],"values":[],"vertex":"x"}"#,
    r#"{"do":"release","keep":true,"p":0,"time":[0],"to":[3],"vertex":"x"}"#,
    r#"{"do":"release","p":0,"time":[0],"to":[3],"vertex":"x"}"#,
];

/// A version line, a graph and steps.
type Script = (&'static str, &'static str, &'static [&'static str]);

static SCRIPTS: [Script; 3] = [
    ("{\"version\":2}\n", SUM, STEPS),
    ("{\"version\":5}\n", HELD, RELEASES),
    ("{\"version\":6}\n", TRACED, SENDS),
];

/// Returns a script that executes the steps and exports them.
fn script_of(alloc: Global, script: &Script) -> Result<Vec<u8>, AllocError> {
    let (version, graph, steps) = script;
    let mut text = Vec::new(alloc);
    for line in [version, graph, "\n"] {
        text.extend_from_slice(line.as_bytes())?;
    }
    for step in *steps {
        text.extend_from_slice(step.as_bytes())?;
        text.push(b'\n')?;
    }
    text.extend_from_slice(b"{\"do\":\"export\"}\n")?;
    Ok(text)
}

/// Returns the reply to the export.
fn exported(alloc: Global, steps: &[&str]) -> Result<Vec<u8>, AllocError> {
    let start = format!(in alloc; "{{\"at\":{},\"ok\":true,\"steps\":[", steps.len())?;
    let mut reply = Vec::new(alloc);
    reply.extend_from_slice(start.as_bytes())?;
    for (i, step) in steps.iter().enumerate() {
        if i != 0 {
            reply.push(b',')?;
        }
        reply.extend_from_slice(step.as_bytes())?;
    }
    reply.extend_from_slice(b"]}\n")?;
    Ok(reply)
}

/// Reads a step on a graph from its text, and returns the text of the step's object.
fn read_and_shown(alloc: Global, graph: &str, text: &str) -> Option<Vec<u8>> {
    let draft = GraphDraft::from_value(alloc, &Value::from_str(alloc, graph).ok()?).ok()?;
    let graph: Graph = draft.check(alloc).ok()?;
    let step = read_step(alloc, &graph, &Value::from_str(alloc, text).ok()?).ok()?;
    text_of(alloc, &graph, &step).ok()
}

/// Checks what the worked example *export-replays* says about `read_step`, and the same for the steps of the versions 5 and 6: each
/// exported step is read, and its object is the exported one.
#[test]
fn export_replays(rt: HostRuntime) -> Result<(), Fail> {
    let alloc = rt.alloc();
    for script in &SCRIPTS {
        let (_, graph, steps) = script;
        let (bytes, ended) = run(&rt, alloc, &ONE, script_of(alloc, script)?.as_slice())?;
        assert!(rt; ended == Ok((steps.len() as u64).saturating_add(3)));
        assert!(rt;
            bytes
                .as_slice()
                .ends_with(exported(alloc, steps)?.as_slice())
        );
        for step in *steps {
            let shown = read_and_shown(alloc, graph, step).ok_or("no step")?;
            assert!(rt; shown.as_slice() == step.as_bytes(), "{step}");
        }
    }
    Ok(())
}
