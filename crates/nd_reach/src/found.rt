//! The states that a search has found, in the order in which it found them.
ghost use Rattle.std.specs.Prelude.{◌≡◌, ◌++◌, ◌∷◌, [], IfOk, OnOk, IsTrue, ◌↔◌, Contains};
ghost use Rattle.nd_protocol.specs.Fitting.{IsState};
ghost use Rattle.nd_reach.specs.Forms.{form as form_of};

use crate::form::Form;
use crate::node::Node;
use indexmap::IndexSet;
use nd_cluster::Cluster;
use std::alloc::{AllocError, Allocator};
use std::hash::{BuildHasherDefault, FoldHasher};

type Forms<A> = IndexSet<Form<A>, BuildHasherDefault<FoldHasher>, A>;

/// The states that a search has found: the form of each, and how it was found.
pub(crate) struct Found<A: Allocator + Copy> {
    pub(crate) forms: Forms<A>,
    pub(crate) nodes: Vec<Node<A>, A>,
    /// The form of the state that was looked at last.
    pub(crate) met: Form<A>,
}

impl<A: Allocator + Copy> Drop for Found<A> {
    fn drop(self) {
        let Found {
            forms: _,
            nodes: _,
            met: _,
        } = self;
    }
}

impl<A: Allocator + Copy> Found<A> {
    // Returns an empty table.
    pub(crate) fn new(alloc: A) -> Found<A>
        ensures forms { result.forms.keys ≡ [] }
        ensures nodes { result.nodes.items ≡ [] }
    {
        Found {
            forms: IndexSet::new(alloc),
            nodes: Vec::new(alloc),
            met: Form::new(alloc),
        }
    }

    // Returns whether the walker's state was found before, and keeps its form.
    pub(crate) fn has(&mut self, walker: &Cluster<A>) -> Result<bool, AllocError>
        ensures found { IfOk result (λ b.
            IsTrue b ↔ Contains self.old.forms.keys (form_of walker.now)) }
        ensures state { IsState walker.now }
        ensures met { OnOk result (self.new.met ≡ form_of walker.now) }
        ensures forms { self.new.forms ≡ self.old.forms }
        ensures nodes { self.new.nodes ≡ self.old.nodes }
    {
        self.met.write(walker)?;
        Ok(self.forms.contains(&self.met))
    }

    // Adds the state that was looked at last.
    pub(crate) fn add(&mut self, alloc: A, node: Node<A>) -> Result<(), AllocError>
        requires { Contains self.old.forms.keys self.old.met → ⊥ }
        ensures forms { OnOk result
            (self.new.forms.keys ≡ self.old.forms.keys ++ self.old.met ∷ []) }
        ensures nodes { OnOk result (self.new.nodes.items ≡ self.old.nodes.items ++ node ∷ []) }
    {
        self.nodes.push(node)?;
        let form = self.met.copy(alloc)?;
        let Ok(_) = self.forms.insert(form) else {
            return Err(AllocError);
        };
        Ok(())
    }
}
