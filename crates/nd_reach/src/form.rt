//! The form of a state: a key of the table of the states that were found.
ghost use Rattle.std.specs.Prelude.{◌≡◌, [], IfOk, IsTrue, nat_eq};
ghost use Rattle.std.specs.Cmp.{on_equiv, on_per, partial_equiv_from_equiv};
ghost use Rattle.std.specs.Cmp.Lexicographic.{pointwise, nat_list_eq_equiv};
ghost use Rattle.std.specs.Cmp.Rules.{hashing};
ghost use Rattle.std.proofs.Common.{rules};

use std::alloc::{AllocError, Allocator, Global};
use std::hash::{Hash, Hasher};
use std::marker::Model;

// The bytes of a state.
pub(crate) struct Form<A: Allocator = Global> {
    pub(crate) bytes: Vec<u8, A>,
}

impl<A: Allocator> Drop for Form<A> {
    fn drop(self) {
        let Form { bytes: _ } = self;
    }
}

impl<A: Allocator> Model for Form<A> {
    ghost use Rattle.std.specs.Prelude.{List, ℕ};

    ghost Value = { List ℕ };

    ghost view = { λ a. a.bytes.items };
}

impl<A: Allocator> Form<A> {
    // Returns the form without bytes. The call allocates no memory.
    pub(crate) fn new(alloc: A) -> Form<A>
        ensures { result ≡ [] }
    {
        Form {
            bytes: Vec::new(alloc),
        }
    }

    // Returns the bytes.
    pub(crate) fn as_slice(&self) -> &[u8]
        ensures { result.now ≡ self.now }
    {
        &self.bytes
    }

    // Returns an equal form, with no more memory than its bytes need.
    pub(crate) fn copy(&self, alloc: A) -> Result<Form<A>, AllocError>
        ensures { IfOk result (λ f. f ≡ self.now) }
    {
        let mut bytes = Vec::with_capacity(alloc, self.bytes.len())?;
        bytes.extend_from_slice(&self.bytes)?;
        Ok(Form { bytes })
    }
}

impl<A: Allocator> PartialEq for Form<A> {
    ghost eq = { λ s t. pointwise nat_eq s t };

    ghost laws = { partial_equiv_from_equiv nat_list_eq_equiv };

    fn eq(&self, other: &Self) -> bool {
        self.as_slice() == other.as_slice()
    }
}

impl<A: Allocator> Eq for Form<A> {
    ghost laws = { nat_list_eq_equiv };
}

// All bytes are written at once, which is faster than one by one.
impl<A: Allocator> Hash for Form<A> {
    ghost use Rattle.std.specs.Prelude.{[], ◌∷◌};

    ghost hash_input = { λ s. s ∷ [] };

    ghost respects_eq = { Prim.search (hashing, rules) };

    fn hash<H: Hasher>(&self, state: &mut H) {
        state.write(self.as_slice());
    }
}
