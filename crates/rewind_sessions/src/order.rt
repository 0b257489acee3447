//! What a line after the graph's asks for, and for which client.
ghost use Rattle.std.specs.Prelude.{◌≡◌, ◌<◌, IfOk};
ghost use Rattle.serde_json.specs.View.{view};
ghost use Rattle.rewind_lines.specs.Readings.{reading_view};
ghost use Rattle.rewind_forms.specs.Grammar.{form_of};
ghost use Rattle.rewind_sessions.specs.Orders.{among, asks_query, is_query as is_query_in, order_of as order_in_value, order_in as order_in_line, code_of};

use crate::numbers::without;
use nd_commands::Command;
use nd_graph::Graph;
use nd_json::whole_at;
use nd_time::Code;
use rewind_forms::{Asked, LineFault, LineForm, Version, asked_of};
use rewind_lines::Reading;
use serde_json::Value;
use std::alloc::{AllocError, Global};

/// A client's command.
#[derive(Drop)]
pub struct Order {
    pub client: u64,
    pub command: Command,
}

/// Why a line of a script of several clients is not a command.
#[derive(Clone, Copy, Debug, PartialEq, Eq, Drop)]
pub enum OrderFault {
    /// As in a script of one client.
    Line(LineFault),
    /// The line names a client that does not exist.
    BadClient,
    /// The line is a query or a search, which only a script of one client may have.
    OneClientOnly,
}

impl OrderFault {
    /// Returns the number and the name of the error.
    pub fn code(self) -> Code
        ensures { result ≡ code_of self }
    {
        match self {
            OrderFault::Line(fault) => fault.code(),
            OrderFault::BadClient => Code::new(35, "BadClient"),
            OrderFault::OneClientOnly => Code::new(36, "OneClientOnly"),
        }
    }
}

// Returns whether the line has the form of a query: from what it asks for or, if it is faulty, from
// its form.
fn is_query(version: Version, value: &Value, asked: &Result<Asked, LineFault>) -> bool
    requires { IfOk asked.now (λ a. is_query_in (form_of version (view value.now)) ≡ asks_query a) }
    ensures { result ≡ is_query_in (form_of version (view value.now)) }
{
    match asked {
        Ok(Asked::Do(_)) => false,
        Ok(Asked::Look(_)) => true,
        Err(_) => matches!(LineForm::of(version, value), Some(LineForm::Query(_))),
    }
}

// Returns the order of a line that has a form, for this number of clients.
fn settle(
    clients: usize,
    client: u64,
    query: bool,
    asked: Result<Asked, LineFault>,
) -> Result<Order, OrderFault>
    ensures value { result ≡ among clients client query asked }
    ensures within { IfOk result (λ o. o.client < clients) }
{
    if let Err(LineFault::BadShape) = asked {
        return Err(OrderFault::Line(LineFault::BadShape));
    }
    if client >= clients as u64 {
        return Err(OrderFault::BadClient);
    }
    match (query, asked) {
        (false, Ok(Asked::Do(command))) => Ok(Order { client, command }),
        (false, Err(fault)) => Err(OrderFault::Line(fault)),
        _ => Err(OrderFault::OneClientOnly),
    }
}

// Returns what a line's value asks for.
#[tactic(auto, unfolding(crate::specs::Orders::order_of))]
fn order_of(
    alloc: Global,
    version: Version,
    clients: usize,
    graph: &Graph,
    value: Value,
) -> Result<Result<Order, OrderFault>, AllocError>
    ensures value { IfOk result (λ r. r ≡ order_in_value version clients graph.now (view value)) }
    ensures within { IfOk result (λ r. IfOk r (λ o. o.client < clients)) }
{
    let Some(client) = whole_at(&value, "client") else {
        return Ok(Err(OrderFault::Line(LineFault::BadShape)));
    };
    let rest = without(value, "client");
    let asked = asked_of(alloc, version, graph, &rest);
    let query = is_query(version, &rest, &asked);
    match asked {
        Ok(asked) => Ok(settle(clients, client, query, Ok(asked))),
        Err(LineFault::Memory) => Err(AllocError),
        Err(fault) => Ok(settle(clients, client, query, Err(fault))),
    }
}

/// Reads what a line that is not blank asks for in a script of this version, for this number of
/// clients. The outer `Err` is out of memory.
pub fn order_in(
    alloc: Global,
    version: Version,
    clients: usize,
    graph: &Graph,
    reading: Reading,
) -> Result<Result<Order, OrderFault>, AllocError>
    ensures value { IfOk result (λ r.
        r ≡ order_in_line version clients graph.now (reading_view reading)) }
    ensures within { IfOk result (λ r. IfOk r (λ o. o.client < clients)) }
{
    match reading {
        Reading::Blank => Ok(Err(OrderFault::Line(LineFault::BadShape))),
        Reading::TooLong => Ok(Err(OrderFault::Line(LineFault::LineTooLong))),
        Reading::NoJson => Ok(Err(OrderFault::Line(LineFault::BadLine))),
        Reading::Json(value) => order_of(alloc, version, clients, graph, value),
    }
}
