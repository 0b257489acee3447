//! Reads the members of a JSON object by key.
ghost use Rattle.std.specs.Prelude.{◌≡◌, map, option_map};
ghost use Rattle.serde_json.specs.View.{view};
ghost use Rattle.nd_json.specs.Forms as form;

use crate::element;
use serde_json::Value;

/// Returns whether the value is an object with exactly these keys, given in the order of their bytes.
pub fn has_keys(value: &Value, keys: &[&str]) -> bool
    ensures { result ≡ form.has_keys (map (λ k. k.now) keys.now) (view value.now) }
{
    let Some(members) = value.as_object() else {
        return false;
    };
    let mut wanted = keys.iter();
    'keys: for key in members.keys() {
        match wanted.next() {
            Some(text) => {
                if key.as_str() != *text {
                    return false;
                }
            }
            None => return false,
        }
    }
    wanted.next().is_none()
}

/// Returns whether the value is an object whose member at `key` is the string `text`.
#[tactic(auto, unfolding(crate::specs::Forms::has_text))]
pub fn has_text(value: &Value, key: &str, text: &str) -> bool
    ensures { result ≡ form.has_text key.now text.now (view value.now) }
{
    match text_at(value, key) {
        Some(found) => found == text,
        None => false,
    }
}

/// Returns the string at `key`, or `None` if there is none.
pub fn text_at<'v>(value: &'v Value, key: &str) -> Option<&'v str>
    ensures { option_map (λ s. s.now) result ≡ form.text_at key.now (view value.now) }
{
    value.get(key).and_then(element::text)
}

/// Returns the number at `key`, or `None` if there is no integer from 0 to 2^64 - 1 there.
pub fn whole_at(value: &Value, key: &str) -> Option<u64>
    ensures { result ≡ form.whole_at key.now (view value.now) }
{
    value.get(key).and_then(element::whole)
}

/// Returns the number at `key`, or `None` if there is no integer from 0 to 2^32 - 1 there.
pub fn small_at(value: &Value, key: &str) -> Option<u32>
    ensures { result ≡ form.small_at key.now (view value.now) }
{
    value.get(key).and_then(element::small)
}

/// Returns the number at `key`, or `None` if there is no integer from -2^63 to 2^63 - 1 there.
pub fn integer_at(value: &Value, key: &str) -> Option<i64>
    ensures { result ≡ form.integer_at key.now (view value.now) }
{
    value.get(key).and_then(element::integer)
}

/// Returns the boolean at `key`, or `None` if there is none.
pub fn boolean_at(value: &Value, key: &str) -> Option<bool>
    ensures { result ≡ form.boolean_at key.now (view value.now) }
{
    value.get(key).and_then(element::boolean)
}

/// Returns the items of the array at `key`, or `None` if there is none.
pub fn list_at<'v>(value: &'v Value, key: &str) -> Option<&'v [Value]>
    ensures { option_map (λ vs. map view vs.now) result ≡ form.list_at key.now (view value.now) }
{
    value.get(key).and_then(element::list)
}
