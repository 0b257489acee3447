//! The condition that a line names.
ghost use Rattle.std.specs.Prelude.{◌≡◌, ◌<◌, ◌≤◌, Err, IfOk, IfErr, map, length};
ghost use Rattle.serde_json.specs.View.{view};
ghost use Rattle.nd_time.specs.Limits.{max_literals};
ghost use Rattle.rewind_forms.specs.Conditions.{literal_of as literal_in, lesser as lesser_in, literals_of as literals_in, several_of as several_in, combined_of as combined_in, condition_of as condition_in};
ghost use Rattle.rewind_forms.specs.Conditions.{literals_read, with_literal, with_fault, HasRoom, IsOf, MakeUp};

use crate::atoms::{atom_of, first_atom_of};
use crate::shapes::alone;
use crate::{LineFault, Version};
use nd_breaks::{Condition, Literal, Quantifier};
use nd_graph::Graph;
use nd_json::list;
use nd_time::limits::MAX_LITERALS;
use serde_json::Value;

// Returns the literal that the value describes.
#[tactic(auto, unfolding(crate::specs::Conditions::literal_of))]
fn literal_of(version: Version, graph: &Graph, value: &Value) -> Result<Literal, LineFault>
    ensures { result ≡ literal_in version graph.now (view value.now) }
{
    if let Some(shown) = alone(value, "not") {
        let atom = atom_of(version, graph, shown)?;
        Ok(Literal::Not(atom))
    } else {
        let atom = atom_of(version, graph, value)?;
        Ok(Literal::Is(atom))
    }
}

// Returns the error with the lesser number.
#[tactic(auto, unfolding(crate::specs::Conditions::lesser))]
fn lesser(first: LineFault, second: LineFault) -> LineFault
    ensures { result ≡ lesser_in first second }
{
    if first.code().number() <= second.code().number() {
        first
    } else {
        second
    }
}

// What was read of the first literals of a list: their condition, `None` before the first literal, or the error with
// the least number.
type Read = Result<Option<Condition>, LineFault>;

// Returns what was read, with one more literal.
fn and_literal(read: Read, quantifier: Quantifier, literal: Literal) -> Read
    requires { HasRoom read }
    ensures literals { literals_read result ≡ with_literal (literals_read read) literal }
    ensures quantifier { IsOf quantifier read → IsOf quantifier result }
{
    let Some(mut condition) = read? else {
        return Ok(Some(Condition::new(quantifier, literal)));
    };
    if condition.push(literal).is_err() {
        unreachable!()
    }
    Ok(Some(condition))
}

// Returns the error of what was read and of one more faulty literal.
fn and_fault(read: &Read, fault: LineFault) -> LineFault
    ensures { result ≡ with_fault (literals_read read.now) fault }
{
    match read {
        Ok(_) => fault,
        Err(first) => lesser(*first, fault),
    }
}

// Reads the literals that the items describe, all or any of which must hold.
fn literals_of(
    version: Version,
    graph: &Graph,
    quantifier: Quantifier,
    items: &[Value],
) -> Result<Condition, LineFault>
    requires some { 0 < length items.now }
    requires few { length items.now ≤ max_literals }
    ensures ok { IfOk result
        (MakeUp quantifier (literals_in version graph.now (map view items.now))) }
    ensures err { IfErr result
        (λ e. literals_in version graph.now (map view items.now) ≡ Err e) }
{
    let mut read: Read = Ok(None);
    for item in items {
        read = match literal_of(version, graph, item) {
            Ok(literal) => and_literal(read, quantifier, literal),
            Err(fault) => Err(and_fault(&read, fault)),
        };
    }
    let Some(condition) = read? else {
        unreachable!()
    };
    Ok(condition)
}

// Returns the condition of all or any of the literals in the list.
#[tactic(auto, unfolding(crate::specs::Conditions::several_of))]
fn several_of(
    version: Version,
    graph: &Graph,
    quantifier: Quantifier,
    value: &Value,
) -> Result<Condition, LineFault>
    ensures { result ≡ several_in version graph.now quantifier (view value.now) }
{
    let items = list(value).ok_or(LineFault::BadShape)?;
    if items.is_empty() || items.len() > MAX_LITERALS {
        return Err(LineFault::BadShape);
    }
    literals_of(version, graph, quantifier, items)
}

// Returns the condition that the value describes: a literal, or all or any of several.
#[tactic(auto, unfolding(crate::specs::Conditions::combined_of))]
fn combined_of(version: Version, graph: &Graph, value: &Value) -> Result<Condition, LineFault>
    ensures { result ≡ combined_in version graph.now (view value.now) }
{
    if let Some(shown) = alone(value, "all") {
        several_of(version, graph, Quantifier::All, shown)
    } else if let Some(shown) = alone(value, "any") {
        several_of(version, graph, Quantifier::Any, shown)
    } else {
        let literal = literal_of(version, graph, value)?;
        Ok(Condition::new(Quantifier::All, literal))
    }
}

/// Reads the condition that the value describes in a script of this version, for the graph.
///
/// `BadShape` comes before `UnknownName`, and `UnknownName` before `BadTime`, whichever literals they are in.
#[tactic(auto, unfolding(crate::specs::Conditions::condition_of))]
pub fn condition_of(version: Version, graph: &Graph, value: &Value) -> Result<Condition, LineFault>
    ensures { result ≡ condition_in version graph.now (view value.now) }
{
    if version.includes(Version::Fourth) {
        return combined_of(version, graph, value);
    }
    let atom = first_atom_of(graph, value)?;
    Ok(Condition::new(Quantifier::All, Literal::Is(atom)))
}
