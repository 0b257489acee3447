//! The text of a reply.
ghost use Rattle.std.specs.Prelude.{◌≡◌, IfOk};
ghost use Rattle.serde_json.specs.Written.{compact_text};

use crate::shown::{Names, Shown};
use serde::{Described, Serialize, Serializer};
use std::alloc::{AllocError, Global};

// A value, as serde's own trait describes it.
#[derive(Drop)]
struct Sent<'a, N, T> {
    names: &'a N,
    of: &'a T,
}

impl<'a, N: Names, T: Shown> Described for Sent<'a, N, T> {
    ghost use Rattle.serde_json.specs.Events.{SendsValue};

    ghost writes = { λ s. SendsValue (T.shown (N.graph s.names.now) s.of.now) };
}

impl<'a, N: Names, T: Shown> Serialize for Sent<'a, N, T> {
    fn serialize<S: Serializer>(&self, out: &mut S) -> Result<(), S::Error> {
        self.of.send(out, self.names)
    }
}

/// Returns the compact text of the JSON value as which `value` is shown, with these names.
pub fn text_of<N: Names, T: Shown>(
    alloc: Global,
    names: &N,
    value: &T,
) -> Result<Vec<u8>, AllocError>
    ensures { IfOk result (λ t. t.items
        ≡ compact_text (T.shown (N.graph names.now) value.now)) }
{
    match serde_json::to_vec(alloc, &Sent { names, of: value }) {
        Ok(text) => Ok(text),
        Err(_) => Err(AllocError),
    }
}
