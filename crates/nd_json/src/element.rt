//! Reads a JSON value as a string, a number, a boolean or an array.
ghost use Rattle.std.specs.Prelude.{◌≡◌, map, option_map};
ghost use Rattle.serde_json.specs.View.{view};
ghost use Rattle.nd_json.specs.Forms as form;

use serde_json::Value;

/// Returns the string, or `None` if the value is not a string.
#[tactic(auto, unfolding(crate::specs::Forms::text))]
pub fn text(value: &Value) -> Option<&str>
    ensures { option_map (λ s. s.now) result ≡ form.text (view value.now) }
{
    value.as_str()
}

/// Returns the number, or `None` if the value is not an integer from 0 to 2^64 - 1.
#[tactic(auto, unfolding(crate::specs::Forms::whole))]
pub fn whole(value: &Value) -> Option<u64>
    ensures { result ≡ form.whole (view value.now) }
{
    value.as_u64()
}

/// Returns the number, or `None` if the value is not an integer from 0 to 2^32 - 1.
#[tactic(auto, unfolding(crate::specs::Forms::small))]
pub fn small(value: &Value) -> Option<u32>
    ensures { result ≡ form.small (view value.now) }
{
    let number = whole(value)?;
    if number < 4_294_967_296 {
        Some(number as u32)
    } else {
        None
    }
}

/// Returns the number, or `None` if the value is not an integer from -2^63 to 2^63 - 1.
#[tactic(auto, unfolding(crate::specs::Forms::integer))]
pub fn integer(value: &Value) -> Option<i64>
    ensures { result ≡ form.integer (view value.now) }
{
    value.as_i64()
}

/// Returns the boolean, or `None` if the value is not one.
#[tactic(auto, unfolding(crate::specs::Forms::boolean_in))]
pub fn boolean(value: &Value) -> Option<bool>
    ensures { result ≡ form.boolean_in (view value.now) }
{
    value.as_bool()
}

/// Returns the items, or `None` if the value is not an array.
pub fn list(value: &Value) -> Option<&[Value]>
    ensures { option_map (λ vs. map view vs.now) result ≡ form.list (view value.now) }
{
    match value.as_array() {
        Some(items) => Some(items.as_slice()),
        None => None,
    }
}
