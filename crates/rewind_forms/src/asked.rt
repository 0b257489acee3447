//! What a line's JSON value asks for.
ghost use Rattle.std.specs.Prelude.{◌≡◌, Ok, IfOk, IfErr};
ghost use Rattle.serde_json.specs.View.{view};
ghost use Rattle.rewind_forms.specs.Forms.{FailsWith, HidesNoFault};
ghost use Rattle.rewind_forms.specs.Asked.{asked_of as asked_in};

use crate::commands::command_of;
use crate::queries::query_of;
use crate::steps::step_of;
use crate::{LineFault, LineForm, Query, Version};
use nd_commands::Command;
use nd_graph::Graph;
use serde_json::Value;
use std::alloc::Global;

/// What a line asks for.
#[derive(Drop)]
pub enum Asked {
    /// A command.
    Do(Command),
    /// A query.
    Look(Query),
}

/// Returns what the value asks for in a script of this version, for the graph.
///
/// Returns `Memory` only in place of a command.
#[tactic(auto, unfolding(crate::specs::Asked::asked_of))]
pub fn asked_of(
    alloc: Global,
    version: Version,
    graph: &Graph,
    value: &Value,
) -> Result<Asked, LineFault>
    ensures ok { IfOk result (λ c. asked_in version graph.now (view value.now) ≡ Ok c) }
    ensures err { IfErr result (FailsWith (asked_in version graph.now (view value.now))) }
    ensures memory { IfErr result (HidesNoFault (asked_in version graph.now (view value.now))) }
{
    match LineForm::of(version, value).ok_or(LineFault::BadShape)? {
        LineForm::Step(form) => {
            let step = step_of(alloc, version, graph, form, value)?;
            Ok(Asked::Do(Command::Forward(step)))
        }
        LineForm::Command(form) => {
            let command = command_of(alloc, version, graph, form, value)?;
            Ok(Asked::Do(command))
        }
        LineForm::Query(form) => {
            let query = query_of(version, graph, form, value)?;
            Ok(Asked::Look(query))
        }
    }
}
