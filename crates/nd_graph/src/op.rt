//! What a vertex does to values and to times.
ghost use Rattle.std.specs.Prelude.{◌≡◌};
ghost use Rattle.nd_graph.specs.Operators.{facts};
ghost use Rattle.nd_graph.specs.Graph.{action_of};
ghost use Rattle.nd_graph.specs.Checked.{ports as ports_of, is_input as is_fed};

/// The operator of a vertex, over integers.
#[derive(Clone, Copy, Debug, Drop, PartialEq, Eq)]
pub enum Op {
    /// Receives values from outside, epoch by epoch.
    Input,
    /// Enters a loop.
    Ingress,
    /// Leaves a loop.
    Egress,
    /// Goes around a loop.
    Feedback,
    /// Adds a constant to each value.
    Add(i64),
    /// Multiplies each value by a constant.
    Mul(i64),
    /// Emits the values below a constant, and drops the others.
    Below(i64),
    /// Emits the values below a constant on port 0 and the others on port 1.
    Split(i64),
    /// Emits the sum of the values of a time, once that time is complete.
    Sum,
    /// Emits each distinct value of a time once.
    Distinct,
    /// Emits each value, and holds a capability at its time until the capability is released.
    Hold,
    /// An operator whose code is elsewhere: it emits nothing by itself, and holds a capability at the time of
    /// each value until the capability is released.
    Opaque {
        /// The number of its output ports.
        ports: u32,
        /// Whether each processor holds a capability of it at the start.
        starts: bool,
    },
    /// Counts the values that reach it.
    Sink,
}

/// What a vertex does to the loop counters of times that pass through it (Naiad, SOSP 2013, section 2.1).
#[derive(Clone, Copy, Debug, Drop, PartialEq, Eq)]
pub enum Action {
    /// Leaves the counters as they are.
    Identity,
    /// Appends a counter with value 0.
    Ingress,
    /// Drops the innermost counter.
    Egress,
    /// Adds 1 to the innermost counter.
    Feedback,
}

/// Which processor a record on an edge is sent to.
#[derive(Clone, Copy, Debug, Drop, PartialEq, Eq)]
pub enum Route {
    /// The processor that produced the record.
    Local,
    /// The processor whose number is the value modulo the number of processors.
    Exchange,
}

impl Op {
    /// Returns what a vertex with this operator does to times.
    pub fn action(self) -> Action
        ensures { result ≡ action_of self }
    {
        match self {
            Op::Ingress => Action::Ingress,
            Op::Egress => Action::Egress,
            Op::Feedback => Action::Feedback,
            _ => Action::Identity,
        }
    }

    /// Returns how many output ports a vertex with this operator has. Ports are numbered from 0.
    pub fn ports(self) -> u32
        ensures { result ≡ ports_of self }
    {
        match self {
            Op::Sink => 0,
            Op::Split(_) => 2,
            Op::Opaque { ports, .. } => ports,
            _ => 1,
        }
    }

    /// Returns whether a vertex with this operator receives values from outside.
    pub fn is_input(self) -> bool
        ensures { result ≡ is_fed self }
    {
        matches!(self, Op::Input)
    }

    /// Returns whether a vertex with this operator may make requests: for notifications, or to hold capabilities.
    pub fn asks_for_notices(self) -> bool
        ensures { result ≡ (facts self).asks }
    {
        matches!(self, Op::Sum | Op::Distinct | Op::Hold | Op::Opaque { .. })
    }

    /// Returns whether a vertex with this operator counts the values that reach it.
    pub fn counts_values(self) -> bool
        ensures { result ≡ (facts self).counts }
    {
        matches!(self, Op::Sink)
    }

    /// Returns whether a request at a vertex with this operator is a held capability: it is never notified, and a
    /// release gives it up.
    pub fn holds(self) -> bool
        ensures { result ≡ (facts self).holds }
    {
        matches!(self, Op::Hold | Op::Opaque { .. })
    }

    /// Returns whether a capability that is held at a vertex with this operator supports what its processor
    /// has not broadcast yet, as a token does.
    pub fn supports(self) -> bool
        ensures { result ≡ (facts self).supports }
    {
        matches!(self, Op::Opaque { .. })
    }

    /// Returns whether each processor holds a capability of a vertex with this operator at the start.
    pub fn starts(self) -> bool
        ensures { result ≡ (facts self).starts }
    {
        matches!(self, Op::Opaque { starts: true, .. })
    }
}
