//! The names of vertices and edges.
ghost use Rattle.std.specs.Prelude.{◌≡◌, ◌↔◌, IsTrue, IsSome, IfSome, nat_eq};
ghost use Rattle.std.specs.List.{list_all};
ghost use Rattle.std.specs.Cmp.{on_equiv, on_per, partial_equiv_from_equiv};
ghost use Rattle.std.specs.Cmp.Lexicographic.{pointwise, nat_list_eq_equiv};
ghost use Rattle.std.specs.Cmp.Rules.{hashing};
ghost use Rattle.std.specs.Hash as fed;
ghost use Rattle.std.proofs.Common.{rules};
ghost use Rattle.nd_graph.specs.Name.{is_name, is_name_v8, is_plain, is_text_within};

use arrayvec::ArrayString;
use nd_time::limits::{MAX_NAME, MAX_NAME_V8};
use std::fmt;
use std::hash::{Hash, Hasher};
use std::marker::Model;

/// A name: 1 to 128 bytes, each from a space to `~`.
#[derive(Drop)]
pub struct Name {
    text: ArrayString<MAX_NAME>,
}

impl Model for Name {
    ghost use Rattle.std.specs.Prelude.{ℕ, List, IsTrue};
    ghost use Rattle.nd_graph.specs.Name.{is_name};

    ghost Value = { List ℕ };

    ghost view = { λ a. a.text.bytes };

    ghost invariant = { λ a. IsTrue (is_name a.text.bytes) };
}

// Returns whether each of the bytes is from `least` to `~`.
fn are_plain(bytes: &[u8], least: u8) -> bool
    ensures { result ≡ list_all (is_plain least) bytes.now }
{
    bytes.iter().all(|byte| least <= *byte && *byte <= b'~')
}

// Returns whether the text has 1 to `most` bytes, each from `least` to `~`.
fn has_name_form(text: &str, most: usize, least: u8) -> bool
    ensures { result ≡ is_text_within most least text.now }
{
    let size = text.len();
    if size < 1 || size > most {
        return false;
    }
    are_plain(text.as_bytes(), least)
}

impl Name {
    /// Returns the name with this text, or `None` if the text does not have the form of a name.
    pub fn new(text: &str) -> Option<Name>
        ensures named { IsSome result ↔ IsTrue (is_name text.now) }
        ensures value { IfSome result (λ n. n ≡ text.now) }
    {
        if !has_name_form(text, MAX_NAME, b' ') {
            return None;
        }
        match ArrayString::try_from(text) {
            Ok(text) => Some(Name { text }),
            Err(_) => None,
        }
    }

    /// Returns the text of the name.
    pub fn as_str(&self) -> &str
        ensures text { result.now ≡ self.now }
        ensures named { IsTrue (is_name self.now) }
    {
        self.text.as_str()
    }

    // Returns whether the versions before 9 have this name: 1 to 32 bytes, each from `!` to `~`.
    pub(crate) fn is_in_version_8(&self) -> bool
        ensures { result ≡ is_name_v8 self.now }
    {
        has_name_form(self.as_str(), MAX_NAME_V8, b'!')
    }

    /// Returns a copy of the name.
    pub fn copy(&self) -> Name
        ensures { result ≡ self.now }
    {
        Name { text: self.text }
    }
}

impl PartialEq for Name {
    ghost eq = { λ s t. pointwise nat_eq s t };

    ghost laws = { partial_equiv_from_equiv nat_list_eq_equiv };

    fn eq(&self, other: &Self) -> bool {
        self.as_str() == other.as_str()
    }
}

impl Eq for Name {
    ghost laws = { nat_list_eq_equiv };
}

impl Hash for Name {
    ghost hash_input = { λ s. fed.str s };

    ghost respects_eq = { Prim.search (hashing, rules) };

    fn hash<H: Hasher>(&self, state: &mut H) {
        self.as_str().hash(state);
    }
}

impl fmt::Debug for Name {
    fn fmt<W: fmt::Write>(&self, f: &mut fmt::Formatter<W>) -> fmt::Result {
        fmt::Debug::fmt(&self.as_str(), f)
    }
}
