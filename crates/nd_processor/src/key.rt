//! The keys of a processor's maps.
ghost use Rattle.std.specs.Prelude.{◌≡◌};
ghost use Rattle.nd_processor.specs.Keys.{sink_exact, value_at_exact};

use nd_map::Key;
use nd_paths::Pointstamp;

/// A value at a pointstamp: a record on an edge.
///
/// Keys are ordered by pointstamp, and then by value.
#[derive(Debug, PartialEq, Eq, PartialOrd, Ord, Drop)]
pub struct ValueAt {
    pub point: Pointstamp,
    pub value: i64,
}

impl ValueAt {
    /// Returns an equal key.
    pub fn copy(&self) -> ValueAt
        ensures { result ≡ self.now }
    {
        ValueAt {
            point: self.point.copy(),
            value: self.value,
        }
    }
}

/// A value that a sink vertex has counted.
///
/// Keys are ordered by vertex, and then by value.
#[derive(Clone, Copy, Debug, PartialEq, Eq, PartialOrd, Ord, Drop)]
pub struct SinkKey {
    pub vertex: usize,
    pub value: i64,
}

impl Key for ValueAt {
    fn duplicate(&self) -> ValueAt {
        self.copy()
    }

    ghost exact = { value_at_exact };
}

impl Key for SinkKey {
    fn duplicate(&self) -> SinkKey {
        *self
    }

    ghost exact = { sink_exact };
}
