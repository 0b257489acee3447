//! The command other than a step that a line asks for.
ghost use Rattle.std.specs.Prelude.{◌≡◌, Ok, IfOk, IfErr, map, option_map};
ghost use Rattle.serde_json.specs.View.{view};
ghost use Rattle.nd_json.specs.Forms.{small as small_in};
ghost use Rattle.rewind_forms.specs.Forms.{FailsWith, HidesNoFault, all_read};
ghost use Rattle.rewind_forms.specs.Commands.{jump_of as jump_in, run_of as run_in, set_of as set_in, clear_of as clear_in, command_of as command_in};

use crate::conditions::condition_of;
use crate::numbers::processors_of;
use crate::optional::{smalls_if, whole_if};
use crate::{CommandForm, LineFault, Version};
use nd_breaks::BoxedCondition;
use nd_commands::Command;
use nd_graph::Graph;
use nd_json::whole_at;
use nd_protocol::Processors;
use serde_json::Value;
use std::alloc::{AllocError, Global};

fn jump_of(value: &Value) -> Result<Command, LineFault>
    ensures { result ≡ jump_in (view value.now) }
{
    let to = whole_at(value, "to").ok_or(LineFault::BadShape)?;
    Ok(Command::Jump(to))
}

// Returns the items as a list of processors, if there are items.
fn listed(alloc: Global, items: Option<&[Value]>) -> Result<Option<Processors>, AllocError>
    ensures { IfOk result (λ o. o
        ≡ option_map (λ ns. all_read small_in (map view ns.now)) items.entry) }
{
    match items {
        Some(items) => Ok(Some(processors_of(alloc, items)?)),
        None => Ok(None),
    }
}

#[tactic(auto, unfolding(crate::specs::Commands::run_of))]
fn run_of(alloc: Global, version: Version, value: &Value) -> Result<Command, LineFault>
    ensures ok { IfOk result (λ c. run_in version (view value.now) ≡ Ok c) }
    ensures err { IfErr result (FailsWith (run_in version (view value.now))) }
    ensures memory { IfErr result (HidesNoFault (run_in version (view value.now))) }
{
    let limit = whole_at(value, "limit").ok_or(LineFault::BadShape)?;
    let seed = whole_if(value, "seed").ok_or(LineFault::BadShape)?;
    let items = smalls_if(value, "only", version.most_processors()).ok_or(LineFault::BadShape)?;
    let only = listed(alloc, items)?;
    Ok(Command::Run { limit, only, seed })
}

#[tactic(auto, unfolding(crate::specs::Commands::set_of))]
fn set_of(
    alloc: Global,
    version: Version,
    graph: &Graph,
    value: &Value,
) -> Result<Command, LineFault>
    ensures ok { IfOk result (λ c. set_in version graph.now (view value.now) ≡ Ok c) }
    ensures err { IfErr result (FailsWith (set_in version graph.now (view value.now))) }
    ensures memory { IfErr result (HidesNoFault (set_in version graph.now (view value.now))) }
{
    let when = value.get("when").ok_or(LineFault::BadShape)?;
    let condition = condition_of(version, graph, when)?;
    let boxed = BoxedCondition::new(alloc, condition)?;
    Ok(Command::SetBreak(boxed))
}

fn clear_of(value: &Value) -> Result<Command, LineFault>
    ensures { result ≡ clear_in (view value.now) }
{
    let id = whole_at(value, "id").ok_or(LineFault::BadShape)?;
    Ok(Command::ClearBreak(id))
}

/// Returns the command of this form that the value asks for, for the graph.
pub fn command_of(
    alloc: Global,
    version: Version,
    graph: &Graph,
    form: CommandForm,
    value: &Value,
) -> Result<Command, LineFault>
    ensures ok { IfOk result (λ c. command_in version graph.now form (view value.now) ≡ Ok c) }
    ensures err { IfErr result (FailsWith (command_in version graph.now form (view value.now))) }
    ensures memory { IfErr result
        (HidesNoFault (command_in version graph.now form (view value.now))) }
{
    match form {
        CommandForm::Back => Ok(Command::Back),
        CommandForm::Redo => Ok(Command::Redo),
        CommandForm::Jump => jump_of(value),
        CommandForm::Run => run_of(alloc, version, value),
        CommandForm::Break => set_of(alloc, version, graph, value),
        CommandForm::Unbreak => clear_of(value),
    }
}
