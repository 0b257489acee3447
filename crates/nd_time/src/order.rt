//! The two orders of timestamps.
ghost use Rattle.std.specs.Prelude.{◌≡◌, ◌↔◌, IsTrue, length};
ghost use Rattle.nd_time.specs.Order.{AreAtMost, IsEachAtMost};

/// How the loop counters of two times of one depth compare. Epochs compare as numbers in both orders.
#[derive(Clone, Copy, Debug, PartialEq, Eq, Drop)]
pub enum TimeOrder {
    /// The first counter that differs decides.
    Lexicographic,
    /// Each counter is at most the other's at its place.
    Product,
}

impl TimeOrder {
    /// Returns whether the counters of one time are at most those of another of the same depth.
    pub fn are_at_most(self, own: &[u32], theirs: &[u32]) -> bool
        requires { length own.now ≡ length theirs.now }
        ensures { IsTrue result ↔ AreAtMost self own.now theirs.now }
    {
        match self {
            TimeOrder::Lexicographic => own.cmp(theirs).is_le(),
            TimeOrder::Product => are_each_at_most(own, theirs),
        }
    }
}

// Returns whether each number is at most the other's at its place.
fn are_each_at_most(own: &[u32], theirs: &[u32]) -> bool
    requires { length own.now ≡ length theirs.now }
    ensures { IsTrue result ↔ IsEachAtMost own.now theirs.now }
{
    for place in 0..own.len() {
        if theirs[place] < own[place] {
            return false;
        }
    }
    true
}
