//! The keys of a processor's maps.
ghost use Rattle.std.specs.Prelude.{◌≡◌, IsTrue};
ghost use Rattle.nd_protocol.specs.Steps.{record_key};
ghost use Rattle.nd_steps.specs.Borrowed.{slot_of};

use nd_paths::Pointstamp;
use nd_processor::{SinkKey, ValueAt};
use nd_time::Timestamp;
use nd_vertex::ItemKey;

/// A key of one of a processor's maps. There is an integer at each key; it is 0 if the map does not have
/// the key.
#[derive(Debug, PartialEq, Eq, Drop)]
pub enum Slot {
    /// A count of records.
    Records(ValueAt),
    /// 1 for a request, 0 for none.
    Request(Pointstamp),
    /// 1 more than the epoch of an input vertex's token, 0 for none.
    Token(usize),
    /// The number of a vertex's item.
    State { vertex: usize, key: ItemKey },
    /// A count of a value at a sink.
    Sink(SinkKey),
    /// An entry of what is unsent.
    Unsent(Pointstamp),
}

// A key that is not copied.
#[derive(Clone, Copy, Drop)]
pub(crate) enum KeyRef<'a> {
    Records(&'a ValueAt),
    Request(&'a Pointstamp),
    Token(usize),
    State { vertex: usize, key: &'a ItemKey },
    Sink(SinkKey),
    Unsent(&'a Pointstamp),
}

/// Returns the key of the records of `value` at `time` on the edge at a location.
pub fn record_at(edge: usize, time: &Timestamp, value: i64) -> ValueAt
    ensures { result ≡ record_key edge time.now value }
{
    let point = Pointstamp {
        location: edge,
        time: time.copy(),
    };
    ValueAt { point, value }
}

impl Slot {
    // Returns the key without a copy of it.
    pub(crate) fn key(&self) -> KeyRef<'_>
        ensures { slot_of result ≡ self.now }
    {
        match self {
            Slot::Records(key) => KeyRef::Records(key),
            Slot::Request(point) => KeyRef::Request(point),
            Slot::Token(vertex) => KeyRef::Token(*vertex),
            Slot::State { vertex, key } => KeyRef::State {
                vertex: *vertex,
                key,
            },
            Slot::Sink(key) => KeyRef::Sink(*key),
            Slot::Unsent(point) => KeyRef::Unsent(point),
        }
    }

    /// Returns an equal key.
    pub fn copy(&self) -> Slot
        ensures { result ≡ self.now }
    {
        self.key().owned()
    }
}

impl<'a> KeyRef<'a> {
    // Returns a copy of the key.
    pub(crate) fn owned(&self) -> Slot
        ensures { result ≡ slot_of self.now }
    {
        match self {
            KeyRef::Records(key) => Slot::Records(key.copy()),
            KeyRef::Request(point) => Slot::Request(point.copy()),
            KeyRef::Token(vertex) => Slot::Token(*vertex),
            KeyRef::State { vertex, key } => Slot::State {
                vertex: *vertex,
                key: key.copy(),
            },
            KeyRef::Sink(key) => Slot::Sink(*key),
            KeyRef::Unsent(point) => Slot::Unsent(point.copy()),
        }
    }

    // Returns whether the two keys are equal.
    pub(crate) fn same(&self, other: &KeyRef<'_>) -> bool
        ensures { IsTrue result → slot_of self.now ≡ slot_of other.now }
    {
        match (self, other) {
            (KeyRef::Records(key), KeyRef::Records(other)) => **key == **other,
            (KeyRef::Request(point), KeyRef::Request(other)) => **point == **other,
            (KeyRef::Token(vertex), KeyRef::Token(other)) => *vertex == *other,
            (
                KeyRef::State { vertex, key },
                KeyRef::State {
                    vertex: of,
                    key: other,
                },
            ) => *vertex == *of && **key == **other,
            (KeyRef::Sink(key), KeyRef::Sink(other)) => *key == *other,
            (KeyRef::Unsent(point), KeyRef::Unsent(other)) => **point == **other,
            _ => false,
        }
    }
}
