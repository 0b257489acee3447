//! What a step changed: where, the value before and the value after.
ghost use Rattle.std.specs.Prelude.{◌≡◌, refl};
ghost use Rattle.nd_steps.specs.Effect.{lists_of};
ghost use Rattle.rewind_replies.specs.Effects.{item_altered, queue_altered, record_altered, request_altered, sink_altered, token_altered, entry_altered, effect_data};
ghost use Rattle.rewind_replies.specs.NoFloats.{no_float-item, no_float-record, no_float-request, no_float-sink, no_float-token, no_float-entry, no_float-effect};

use crate::object;
use crate::shown::{Names, Place, Shown};
use nd_cluster::{Altered, Effect, ItemAt};
use nd_paths::Pointstamp;
use nd_processor::{SinkKey, ValueAt};
use serde::Serializer;

impl Shown for Altered<ItemAt, Option<i64>> {
    ghost shown = { item_altered };

    ghost exact = { no_float-item };

    fn send<S: Serializer, N: Names>(&self, out: &mut S, names: &N) -> Result<(), S::Error> {
        let at = &self.key;
        (
            self.p,
            Place(at.vertex),
            &at.key.time,
            at.key.item,
            self.old,
            self.new,
        )
            .send(out, names)
    }
}

impl Shown for Altered<u32, usize> {
    ghost shown = { λ g a. queue_altered a };

    ghost exact = { λ g a. refl };

    fn send<S: Serializer, N: Names>(&self, out: &mut S, names: &N) -> Result<(), S::Error> {
        (self.p, self.key, self.old, self.new).send(out, names)
    }
}

impl Shown for Altered<ValueAt, u64> {
    ghost shown = { record_altered };

    ghost exact = { no_float-record };

    fn send<S: Serializer, N: Names>(&self, out: &mut S, names: &N) -> Result<(), S::Error> {
        let (at, value) = (&self.key.point, self.key.value);
        (
            self.p,
            Place(at.location),
            &at.time,
            value,
            self.old,
            self.new,
        )
            .send(out, names)
    }
}

impl Shown for Altered<Pointstamp, bool> {
    ghost shown = { request_altered };

    ghost exact = { no_float-request };

    fn send<S: Serializer, N: Names>(&self, out: &mut S, names: &N) -> Result<(), S::Error> {
        (
            self.p,
            Place(self.key.location),
            &self.key.time,
            self.old,
            self.new,
        )
            .send(out, names)
    }
}

impl Shown for Altered<SinkKey, u64> {
    ghost shown = { sink_altered };

    ghost exact = { no_float-sink };

    fn send<S: Serializer, N: Names>(&self, out: &mut S, names: &N) -> Result<(), S::Error> {
        (
            self.p,
            Place(self.key.vertex),
            self.key.value,
            self.old,
            self.new,
        )
            .send(out, names)
    }
}

impl Shown for Altered<usize, Option<u32>> {
    ghost shown = { token_altered };

    ghost exact = { no_float-token };

    fn send<S: Serializer, N: Names>(&self, out: &mut S, names: &N) -> Result<(), S::Error> {
        (self.p, Place(self.key), self.old, self.new).send(out, names)
    }
}

impl Shown for Altered<Pointstamp, i64> {
    ghost shown = { entry_altered };

    ghost exact = { no_float-entry };

    fn send<S: Serializer, N: Names>(&self, out: &mut S, names: &N) -> Result<(), S::Error> {
        (
            self.p,
            Place(self.key.location),
            &self.key.time,
            self.old,
            self.new,
        )
            .send(out, names)
    }
}

/// Eight lists, each element with the value before and the value after.
impl Shown for Effect {
    ghost shown = { λ g e. effect_data g (lists_of e) };

    ghost exact = { λ g e. no_float-effect g (lists_of e) };

    fn send<S: Serializer, N: Names>(&self, out: &mut S, names: &N) -> Result<(), S::Error> {
        object! {
            "items": &self.items,
            "queues": &self.queues,
            "records": &self.records,
            "requests": &self.requests,
            "sinks": &self.sinks,
            "tokens": &self.tokens,
            "unsent": &self.unsent,
            "views": &self.views
        }
        .send(out, names)
    }
}
