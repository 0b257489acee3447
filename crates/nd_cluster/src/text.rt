//! The state, sent to a serializer.
ghost use Rattle.std.specs.Prelude.{OnOk};
ghost use Rattle.serde_json.specs.Events.{SendsValue};
ghost use Rattle.nd_state_json.specs.StateText.{state_data};

use crate::Cluster;
use nd_state_json::send_state;
use serde::Serializer;
use std::alloc::Allocator;

impl<A: Allocator + Copy> Cluster<A> {
    /// Sends the state to a serializer, with the names of locations. Each list is in the order of listing.
    ///
    /// No value of the state is built.
    pub fn send_state<S: Serializer>(&self, out: &mut S) -> Result<(), S::Error>
        ensures { OnOk result
            (SendsValue (state_data self.now) (S.written out.old) (S.written out.new)) }
    {
        send_state(out, &self.parts)
    }
}
