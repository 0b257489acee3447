//! Objects with one key.
ghost use Rattle.std.specs.Prelude.{◌≡◌, map, option_map};
ghost use Rattle.serde_json.specs.View.{view};
ghost use Rattle.rewind_forms.specs.Forms.{alone as alone_in, inner as inner_in};

use nd_json::has_keys;
use serde_json::Value;

/// Returns the value at the key, if this is the object's only key.
#[tactic(auto, unfolding(crate::specs::Forms::alone))]
pub fn alone<'v>(value: &'v Value, key: &str) -> Option<&'v Value>
    ensures { option_map (λ v. view v.now) result ≡ alone_in key.now (view value.now) }
{
    if has_keys(value, &[key]) {
        value.get(key)
    } else {
        None
    }
}

/// Returns the object with these keys at the only key of the value.
#[tactic(auto, unfolding(crate::specs::Forms::inner))]
pub fn inner<'v>(value: &'v Value, key: &str, keys: &[&str]) -> Option<&'v Value>
    ensures { option_map (λ v. view v.now) result
        ≡ inner_in key.now (map (λ k. k.now) keys.now) (view value.now) }
{
    let found = value.get(key)?;
    if has_keys(value, &[key]) && has_keys(found, keys) {
        Some(found)
    } else {
        None
    }
}
