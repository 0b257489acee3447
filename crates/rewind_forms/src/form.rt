//! The grammar of a script: the word at the key `do` of a line, and its other keys.
ghost use Rattle.std.specs.Prelude.{◌≡◌};
ghost use Rattle.serde_json.specs.View.{view};
ghost use Rattle.rewind_forms.specs.Grammar.{find, steps, commands, queries, meant, form_of as form_in};

use crate::Version::{self, Eighth, Fifth, First, Fourth, Second, Seventh, Sixth, Third};
use nd_json::{has_keys, text_at};
use serde_json::Value;

/// What a line asks for, according to its word and its keys alone.
#[derive(Clone, Copy, Debug, PartialEq, Eq, Drop)]
pub enum LineForm {
    Step(StepForm),
    Command(CommandForm),
    Query(QueryForm),
}

/// Which step a line asks for.
#[derive(Clone, Copy, Debug, PartialEq, Eq, Drop)]
pub enum StepForm {
    Feed,
    Take,
    Notice,
    Release,
    Send,
    /// A broadcast of all that is unsent.
    Broadcast,
    /// A broadcast of a part.
    Part,
    Receive,
}

/// Which command other than a step a line asks for.
#[derive(Clone, Copy, Debug, PartialEq, Eq, Drop)]
pub enum CommandForm {
    Back,
    Redo,
    Jump,
    Run,
    Break,
    Unbreak,
}

/// Which query a line asks for.
#[derive(Clone, Copy, Debug, PartialEq, Eq, Drop)]
pub enum QueryForm {
    State,
    Count,
    Before,
    View,
    Frontier,
    Passed,
    Search,
    Export,
    Why,
    Changes,
    Step,
    Candidates,
    Effect,
    Turns,
    /// The frontier at a location.
    FrontierAt,
    Reach,
}

impl LineForm {
    /// Returns the form that the value has in a script of this version, or `None` if it has none.
    #[tactic(auto, unfolding(crate::specs::Grammar::form_of))]
    pub fn of(version: Version, value: &Value) -> Option<LineForm>
        ensures { result ≡ form_in version (view value.now) }
    {
        let word = text_at(value, "do")?;
        let (since, form) = meant_by(word, value)?;
        if version.includes(since) {
            Some(form)
        } else {
            None
        }
    }
}

// Returns what the word and the keys of the object mean, and the first version whose scripts have it.
fn meant_by(word: &str, value: &Value) -> Option<(Version, LineForm)>
    ensures { result ≡ meant word.now (view value.now) }
{
    if let Some((since, form)) = step_form(word, value) {
        return Some((since, LineForm::Step(form)));
    }
    if let Some((since, form)) = command_form(word, value) {
        return Some((since, LineForm::Command(form)));
    }
    let (since, form) = query_form(word, value)?;
    Some((since, LineForm::Query(form)))
}

// The keys of each object are in the order of their bytes.
#[tactic(auto, unfolding(crate::specs::Grammar::steps))]
fn step_form(word: &str, value: &Value) -> Option<(Version, StepForm)>
    ensures { result ≡ find steps word.now (view value.now) }
{
    match word {
        "feed" if has_keys(value, &["do", "next", "p", "values", "vertex"]) => Some((
            First,
            StepForm::Feed,
        )),
        "take" if has_keys(value, &["do", "edge", "p", "time", "value"]) => Some((
            First,
            StepForm::Take,
        )),
        "notice" if has_keys(value, &["do", "p", "time", "vertex"]) => Some((
            First,
            StepForm::Notice,
        )),
        "release" if has_keys(value, &["do", "p", "time", "vertex"]) => Some((
            Fifth,
            StepForm::Release,
        )),
        "release" if has_keys(value, &["do", "p", "time", "to", "vertex"]) => Some((
            Fifth,
            StepForm::Release,
        )),
        "release" if has_keys(value, &["do", "keep", "p", "time", "to", "vertex"]) => {
            Some((Sixth, StepForm::Release))
        }
        "send" if has_keys(value, &["do", "p", "port", "time", "values", "vertex"]) => {
            Some((Sixth, StepForm::Send))
        }
        "send"
            if has_keys(
                value,
                &["at", "do", "p", "port", "time", "values", "vertex"],
            ) => { Some((Sixth, StepForm::Send)) }
        "send"
            if has_keys(
                value,
                &["dest", "do", "p", "port", "time", "values", "vertex"],
            ) => { Some((Sixth, StepForm::Send)) }
        "send"
            if has_keys(
                value,
                &["at", "dest", "do", "p", "port", "time", "values", "vertex"],
            ) => { Some((Sixth, StepForm::Send)) }
        "broadcast" if has_keys(value, &["do", "p"]) => Some((First, StepForm::Broadcast)),
        "broadcast" if has_keys(value, &["do", "p", "part"]) => Some((First, StepForm::Part)),
        "receive" if has_keys(value, &["do", "from", "to"]) => Some((First, StepForm::Receive)),
        _ => None,
    }
}

#[tactic(auto, unfolding(crate::specs::Grammar::commands))]
fn command_form(word: &str, value: &Value) -> Option<(Version, CommandForm)>
    ensures { result ≡ find commands word.now (view value.now) }
{
    match word {
        "back" if has_keys(value, &["do"]) => Some((First, CommandForm::Back)),
        "redo" if has_keys(value, &["do"]) => Some((First, CommandForm::Redo)),
        "jump" if has_keys(value, &["do", "to"]) => Some((First, CommandForm::Jump)),
        "run" if has_keys(value, &["do", "limit"]) => Some((First, CommandForm::Run)),
        "run" if has_keys(value, &["do", "limit", "only"]) => Some((Fifth, CommandForm::Run)),
        "run" if has_keys(value, &["do", "limit", "seed"]) => Some((Seventh, CommandForm::Run)),
        "run" if has_keys(value, &["do", "limit", "only", "seed"]) => {
            Some((Seventh, CommandForm::Run))
        }
        "break" if has_keys(value, &["do", "when"]) => Some((First, CommandForm::Break)),
        "unbreak" if has_keys(value, &["do", "id"]) => Some((First, CommandForm::Unbreak)),
        _ => None,
    }
}

#[tactic(auto, unfolding(crate::specs::Grammar::queries))]
fn query_form(word: &str, value: &Value) -> Option<(Version, QueryForm)>
    ensures { result ≡ find queries word.now (view value.now) }
{
    match word {
        "state" if has_keys(value, &["do"]) => Some((First, QueryForm::State)),
        "count" if has_keys(value, &["at", "do", "time"]) => Some((First, QueryForm::Count)),
        "before" if has_keys(value, &["do", "from", "to"]) => Some((First, QueryForm::Before)),
        "view" if has_keys(value, &["do", "q"]) => Some((First, QueryForm::View)),
        "frontier" if has_keys(value, &["do", "q"]) => Some((First, QueryForm::Frontier)),
        "passed" if has_keys(value, &["at", "do", "q", "time"]) => Some((First, QueryForm::Passed)),
        "search" if has_keys(value, &["do", "hi", "lo", "when", "workers"]) => {
            Some((First, QueryForm::Search))
        }
        "export" if has_keys(value, &["do"]) => Some((Second, QueryForm::Export)),
        "why" if has_keys(value, &["at", "do", "q", "time"]) => Some((Third, QueryForm::Why)),
        "changes" if has_keys(value, &["at", "do", "hi", "lo", "q", "time"]) => {
            Some((Third, QueryForm::Changes))
        }
        "step" if has_keys(value, &["do", "to"]) => Some((Third, QueryForm::Step)),
        "candidates" if has_keys(value, &["do"]) => Some((Fourth, QueryForm::Candidates)),
        "effect" if has_keys(value, &["do", "to"]) => Some((Fourth, QueryForm::Effect)),
        "turns" if has_keys(value, &["do", "hi", "lo", "when"]) => Some((Fourth, QueryForm::Turns)),
        "frontier" if has_keys(value, &["at", "do", "q"]) => Some((Fourth, QueryForm::FrontierAt)),
        "why" if has_keys(value, &["at", "before", "do", "q", "time"]) => {
            Some((Fourth, QueryForm::Why))
        }
        "reach" if has_keys(value, &["do", "limit", "when"]) => Some((Seventh, QueryForm::Reach)),
        "reach" if has_keys(value, &["do", "limit", "when", "with"]) => {
            Some((Seventh, QueryForm::Reach))
        }
        "why" if has_keys(value, &["at", "do", "q", "rest", "time"]) => {
            Some((Eighth, QueryForm::Why))
        }
        "why" if has_keys(value, &["at", "before", "do", "q", "rest", "time"]) => {
            Some((Eighth, QueryForm::Why))
        }
        _ => None,
    }
}
