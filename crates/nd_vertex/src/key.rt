//! The keys of the numbers that a vertex stores.
ghost use Rattle.std.specs.Prelude.{◌≡◌};
ghost use Rattle.nd_vertex.specs.Items.{item_exact};

use nd_map::Key;
use nd_time::Timestamp;

/// An item at a timestamp, for which a vertex stores a number.
///
/// Keys are ordered by timestamp, and then by item.
#[derive(Debug, PartialEq, Eq, PartialOrd, Ord, Drop)]
pub struct ItemKey {
    pub time: Timestamp,
    pub item: i64,
}

impl ItemKey {
    /// Returns a copy of the key.
    pub fn copy(&self) -> ItemKey
        ensures { result ≡ self.now }
    {
        ItemKey {
            time: self.time.copy(),
            item: self.item,
        }
    }
}

impl Key for ItemKey {
    fn duplicate(&self) -> ItemKey {
        self.copy()
    }

    ghost exact = { item_exact };
}
