//! Records executed and undone in a cluster.
ghost use Rattle.std.specs.Prelude.{◌≡◌, OnOk, OnErr};
ghost use Rattle.nd_protocol.specs.State.{ClusterState};
ghost use Rattle.nd_protocol.specs.Steps.{stepped};
ghost use Rattle.nd_protocol.specs.Invariant.{IsSettled, KeepsProtocol};
ghost use Rattle.nd_cluster.specs.Records.{HeldAreNotPassed, IsPlanned, IsSent, Leads, IsCommitted, StaysFinished};

use crate::Cluster;
use nd_protocol::{NoMemory, protocol_is_safe, sends_are_later, steps_keep_protocol};
use nd_steps::{Record, commit_record, undo_record};
use std::alloc::Allocator;

impl<A: Allocator + Copy> Cluster<A> {
    /// Executes the step of a record that was planned in this state. A send makes its records, all later than its
    /// capability. If the cluster has the protocol invariant, what is finished stays finished, and no view has passed what
    /// a request or a record that was sent could result in (FORTE 2013). After an error the cluster is as it was.
    pub fn commit(&mut self, planned: &Record<A>) -> Result<(), NoMemory>
        requires { IsPlanned planned.now self.old }
        ensures step { OnOk result (self.new ≡ stepped self.old planned.now.step) }
        ensures leads { OnOk result (Leads planned.now self.old self.new) }
        ensures settled { OnOk result (IsSettled self.old → IsSettled self.new) }
        ensures protocol { OnOk result (KeepsProtocol self.old → KeepsProtocol self.new) }
        ensures finished { OnOk result (KeepsProtocol self.old → StaysFinished self.old self.new) }
        ensures held { OnOk result (KeepsProtocol self.old → HeldAreNotPassed self.new) }
        ensures sent { OnOk result (IsSent self.old self.new planned.now.step) }
        ensures err { OnErr result (self.new ≡ self.old) }
    {
        protocol_is_safe::<A>();
        steps_keep_protocol::<A>();
        sends_are_later::<A>();
        let Ok(()) = commit_record(&mut self.parts, planned) else {
            return Err(NoMemory);
        };
        Ok(())
    }

    /// Undoes the step of a record, in the state that its commit left. After an error the cluster is as it was.
    pub fn back(&mut self, made: &Record<A>) -> Result<(), NoMemory>
        requires { IsCommitted made.now self.old }
        ensures ok { OnOk result ((s : ClusterState) → Leads made.now s self.old → self.new ≡ s) }
        ensures err { OnErr result (self.new ≡ self.old) }
    {
        let Ok(()) = undo_record(self.alloc, &mut self.parts, made) else {
            return Err(NoMemory);
        };
        Ok(())
    }
}
