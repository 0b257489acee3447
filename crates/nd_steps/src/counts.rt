//! At how many keys and queues a broadcast or a receive changes a cluster.
ghost use Rattle.nd_steps.specs.Counts.{SentChanges, ReceivedChanges};

/// Proves that a broadcast or a receive changes one key per entry of the change, and the queues that the change enters or
/// leaves.
pub fn changes_are_counted()
    ensures sent { SentChanges }
    ensures received { ReceivedChanges }
{}
