//! A call that a worker makes before each piece, and a client before each command.
ghost use Rattle.std.specs.Prelude.{ℕ};

/// A search calls its gate before each piece, and a run of several clients calls its gate before each
/// command, so that a test can delay a worker or a client.
///
/// No result depends on the gate.
pub trait Gate: Sync {
    /// States what a call with these two numbers guarantees. By default that is nothing.
    ///
    /// Searches and runs are proved for every meaning of `called`, so only a call can establish it:
    /// what requires `called` can only be done after a call with the same numbers.
    ghost called: { Self → ℕ → ℕ → Type 0 } = { λ _ _ _. Unit {0} };

    /// Is called before worker `who` searches piece `number`, or before client `who` issues its
    /// command `number`; all are counted from 0.
    fn call(&self, who: u64, number: u64)
        ensures { called self.now who number };
}

/// A gate that returns at once.
#[derive(Clone, Copy, Drop)]
pub struct OpenGate;

impl Gate for OpenGate {
    fn call(&self, _who: u64, _number: u64) {}
}
