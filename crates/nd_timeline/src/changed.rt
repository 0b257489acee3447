//! A position at which something changed.

/// A position at which an entry differs from the entry at the position before.
#[derive(Clone, Copy, Drop)]
pub struct Changed {
    /// How many kept steps lead there.
    pub position: u64,
    /// The entry after them, 0 if there is none.
    pub entry: i64,
}
