//! The values at keys that an object may lack: `None` if one has another form, `Some(None)` if there is no such key.
ghost use Rattle.std.specs.Prelude.{◌≡◌, map, option_map};
ghost use Rattle.serde_json.specs.Find.{get};
ghost use Rattle.serde_json.specs.View.{view};
ghost use Rattle.nd_json.specs.Forms.{boolean_in, small as small_in, whole as whole_in};
ghost use Rattle.rewind_forms.specs.Allowed.{allowed_in};
ghost use Rattle.rewind_forms.specs.Forms.{all_read, if_any, processors_in, time_in};

use crate::allowed::allowed_of;
use crate::numbers::{numbers_of, smalls_of};
use nd_cluster::Allowed;
use nd_json::{boolean, list, small, whole};
use serde_json::Value;

/// Returns the number from 0 to 2^64 - 1 at the key.
pub fn whole_if(value: &Value, key: &str) -> Option<Option<u64>>
    ensures { result ≡ if_any whole_in (get key.now (view value.now)) }
{
    let Some(shown) = value.get(key) else {
        return Some(None);
    };
    Some(Some(whole(shown)?))
}

/// Returns the number from 0 to 2^32 - 1 at the key.
pub fn small_if(value: &Value, key: &str) -> Option<Option<u32>>
    ensures { result ≡ if_any small_in (get key.now (view value.now)) }
{
    let Some(shown) = value.get(key) else {
        return Some(None);
    };
    Some(Some(small(shown)?))
}

/// Returns the boolean at the key.
pub fn boolean_if(value: &Value, key: &str) -> Option<Option<bool>>
    ensures { result ≡ if_any boolean_in (get key.now (view value.now)) }
{
    let Some(shown) = value.get(key) else {
        return Some(None);
    };
    Some(Some(boolean(shown)?))
}

/// Returns the numbers of the time at the key.
#[tactic(auto, unfolding(crate::specs::Forms::time_in))]
pub fn numbers_if<'v>(value: &'v Value, key: &str) -> Option<Option<&'v [Value]>>
    ensures { option_map (option_map (λ ns. all_read small_in (map view ns.now))) result
        ≡ if_any time_in (get key.now (view value.now)) }
{
    let Some(shown) = value.get(key) else {
        return Some(None);
    };
    Some(Some(numbers_of(list(shown)?)?))
}

/// Returns the processors that are listed at the key, at most `most`.
#[tactic(auto, unfolding(crate::specs::Forms::processors_in))]
pub fn smalls_if<'v>(value: &'v Value, key: &str, most: usize) -> Option<Option<&'v [Value]>>
    ensures { option_map (option_map (λ ns. all_read small_in (map view ns.now))) result
        ≡ if_any (processors_in most) (get key.now (view value.now)) }
{
    let Some(shown) = value.get(key) else {
        return Some(None);
    };
    Some(Some(smalls_of(list(shown)?, most)?))
}

/// Returns the words that are listed at the key.
#[tactic(auto, unfolding(crate::specs::Allowed::allowed_in))]
pub fn allowed_if(value: &Value, key: &str) -> Option<Option<Allowed>>
    ensures { result ≡ if_any allowed_in (get key.now (view value.now)) }
{
    let Some(shown) = value.get(key) else {
        return Some(None);
    };
    Some(Some(allowed_of(list(shown)?)?))
}
