//! The words that let users feed or release among the moves.
ghost use Rattle.std.specs.Prelude.{◌≡◌, map};
ghost use Rattle.serde_json.specs.View.{view};
ghost use Rattle.rewind_forms.specs.Allowed.{allowed_of as allowed_from, nothing_allowed, with_word as with_word_of, with_item as with_item_of};

use nd_cluster::Allowed;
use nd_json::text;
use serde_json::Value;

// No word.
pub(crate) const NOTHING: Allowed = Allowed {
    feeds: false,
    releases: false,
};

// Returns the words with one more, or `None` if it is no word or is among them.
fn with_word(old: Allowed, word: &str) -> Option<Allowed>
    ensures { result ≡ with_word_of old word.now }
{
    match word {
        "feed" if !old.feeds => Some(Allowed {
            feeds: true,
            releases: old.releases,
        }),
        "release" if !old.releases => Some(Allowed {
            feeds: old.feeds,
            releases: true,
        }),
        _ => None,
    }
}

// The same, of a value that must be a text.
fn with_item(old: Allowed, item: &Value) -> Option<Allowed>
    ensures { result ≡ with_item_of old (view item.now) }
{
    let word = text(item)?;
    with_word(old, word)
}

// Returns one word, or two that differ.
pub(crate) fn allowed_of(items: &[Value]) -> Option<Allowed>
    ensures { result ≡ allowed_from (map view items.now) }
{
    match items {
        [only] => with_item(NOTHING, only),
        [first, second] => with_item(with_item(NOTHING, first)?, second),
        _ => None,
    }
}
