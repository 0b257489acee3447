//! Which pointstamps before a pointstamp are meant.

/// Which pointstamps before a pointstamp are meant.
#[derive(Clone, Copy, Debug, PartialEq, Eq)]
pub enum Extent {
    /// Those at or before it.
    AtOrBefore,
    /// Those strictly before it.
    StrictlyBefore,
}
