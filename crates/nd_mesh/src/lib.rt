//! The queues of progress updates between the processors of a cluster (Naiad, SOSP 2013, section 3.3).
#![tactic(auto)]

mod fifo;
mod mesh;
mod outbox;

pub use mesh::{Mesh, NotPut, PushFault, QueueEmpty};
