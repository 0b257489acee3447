//! The version of a script.
ghost use Rattle.std.specs.Prelude.{◌≡◌};
ghost use Rattle.serde_json.specs.View.{view};
ghost use Rattle.rewind_forms.specs.Versions.{number_of, numbered as numbered_in, version_of as version_in, includes as includes_in, most_processors as most_in, longest_graph as longest_in};

use nd_json::{has_keys, whole_at};
use nd_time::limits::{
    MAX_GRAPH_LINE, MAX_LINE, MAX_PROCESSORS, MAX_PROCESSORS_V1, MAX_PROCESSORS_V8,
};
use serde_json::Value;

/// The version of a script, which determines what its lines may ask for.
#[derive(Clone, Copy, Debug, PartialEq, Eq, Drop)]
pub enum Version {
    /// The version of a script whose first line is its graph.
    First,
    /// Adds deeper loops, more processors, and queries for the kept steps.
    Second,
    /// Adds queries why a time is not considered finished, and when a view changed.
    Third,
    /// Adds queries for what can happen next, for what a step changed and for when a condition turned, and conditions of several
    /// literals.
    Fourth,
    /// Adds vertices that hold capabilities, releases, feeds that name the next epoch, and runs of some processors.
    Fifth,
    /// Adds graphs of 256 locations, opaque vertices, sends, and releases that keep the capability.
    Sixth,
    /// Adds queries for what can still happen, and runs by a seed.
    Seventh,
    /// Adds queries why a time is not considered finished when all that can happen has happened.
    Eighth,
    /// Adds timestamps that compare by components, graphs of 4,096 locations, 64 processors, names with spaces, and conditions on
    /// what one processor holds.
    Ninth,
}

impl Version {
    /// Returns the version's number.
    pub fn number(self) -> u64
        ensures { result ≡ number_of self }
    {
        match self {
            Version::First => 1,
            Version::Second => 2,
            Version::Third => 3,
            Version::Fourth => 4,
            Version::Fifth => 5,
            Version::Sixth => 6,
            Version::Seventh => 7,
            Version::Eighth => 8,
            Version::Ninth => 9,
        }
    }

    /// Returns whether a script of this version has what the version `since` introduced.
    pub fn includes(self, since: Version) -> bool
        ensures { result ≡ includes_in self since }
    {
        self.number() >= since.number()
    }

    /// Returns the most processors in a script of this version.
    pub fn most_processors(self) -> usize
        ensures { result ≡ most_in self }
    {
        if self.includes(Version::Ninth) {
            MAX_PROCESSORS
        } else if self.includes(Version::Second) {
            MAX_PROCESSORS_V8
        } else {
            MAX_PROCESSORS_V1
        }
    }

    /// Returns how many bytes the graph's line may have in a script of this version.
    pub fn longest_graph(self) -> usize
        ensures { result ≡ longest_in self }
    {
        if self.includes(Version::Ninth) {
            MAX_GRAPH_LINE
        } else {
            MAX_LINE
        }
    }
}

// Returns the version of this number, if a line can name it.
#[tactic(auto, unfolding(crate::specs::Versions::numbered))]
fn numbered(number: u64) -> Option<Version>
    ensures { result ≡ numbered_in number }
{
    if number == 2 {
        Some(Version::Second)
    } else if number == 3 {
        Some(Version::Third)
    } else if number == 4 {
        Some(Version::Fourth)
    } else if number == 5 {
        Some(Version::Fifth)
    } else if number == 6 {
        Some(Version::Sixth)
    } else if number == 7 {
        Some(Version::Seventh)
    } else if number == 8 {
        Some(Version::Eighth)
    } else if number == 9 {
        Some(Version::Ninth)
    } else {
        None
    }
}

/// Returns the version that the value names: an object with the one key "version" and the number of a version after the first.
#[tactic(auto, unfolding(crate::specs::Versions::version_of))]
pub fn version_of(value: &Value) -> Option<Version>
    ensures { result ≡ version_in (view value.now) }
{
    if !has_keys(value, &["version"]) {
        return None;
    }
    let number = whole_at(value, "version")?;
    numbered(number)
}
