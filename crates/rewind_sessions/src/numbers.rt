//! The client that a line names.
ghost use Rattle.std.specs.Prelude.{◌≡◌};
ghost use Rattle.serde_json.specs.View.{view};
ghost use Rattle.rewind_sessions.specs.Numbers.{without as without_in};

use serde_json::Value;

/// Returns the value without the member of the key, if it is an object that has one.
pub fn without(value: Value, key: &str) -> Value
    ensures { view result ≡ without_in key.now (view value) }
{
    match value {
        Value::Object(mut members) => {
            let _ = members.remove(key);
            Value::Object(members)
        }
        other => other,
    }
}
