//! Applies the edits of an effect, and undoes them.
ghost use Rattle.std.specs.Prelude.{◌≡◌, ◌≢◌, None, Some, map, OnOk, OnErr, IsTrue, pos};
ghost use Rattle.nd_vertex.specs.Edits.{CanEdit, item_of, edited_if, edited, turned, directed};

use crate::{Effect, ItemEdit, VertexState};
use std::alloc::{AllocError, Allocator};

impl<A: Allocator + Copy> VertexState<A> {
    // Applies the edit if `wanted`. It allocates only for an item that is not there.
    fn make(&mut self, wanted: bool, edit: &ItemEdit) -> Result<(), AllocError>
        requires there { IsTrue wanted → item_of self.old edit.now.key ≡ edit.now.old }
        requires some { IsTrue wanted → edit.now.new ≢ Some (pos 0) }
        ensures ok { OnOk result (self.new ≡ edited_if wanted self.old edit.now) }
        ensures err { OnErr result (self.new ≡ self.old) }
        ensures wanted { OnErr result (IsTrue wanted) }
        ensures absent { OnErr result (edit.now.old ≡ None) }
        ensures growing { OnErr result (edit.now.new ≢ None) }
    {
        if wanted {
            self.set(&edit.key.time, edit.key.item, edit.old, edit.new)?;
        }
        Ok(())
    }

    // Applies the edits, or their inverses if `back`: first those that add an item, the only ones that allocate.
    fn make_all(&mut self, edits: &[ItemEdit], back: bool) -> Result<(), AllocError>
        requires { CanEdit self.old (directed back edits.now) }
        ensures ok { OnOk result (self.new ≡ edited self.old (directed back edits.now)) }
        ensures err { OnErr result (self.new ≡ self.old) }
    {
        for i in 0..edits.len() {
            let edit = edits[i].directed(back);
            let Ok(()) = self.make(edit.old.is_none(), &edit) else {
                for j in (0..i).rev() {
                    let made = edits[j].directed(back);
                    let Ok(()) = self.make(made.old.is_none(), &made.turned()) else {
                        unreachable!()
                    };
                }
                return Err(AllocError);
            };
        }
        for k in 0..edits.len() {
            let edit = edits[k].directed(back);
            let Ok(()) = self.make(edit.old.is_some(), &edit) else {
                unreachable!()
            };
        }
        Ok(())
    }

    /// Applies the item edits of an effect. If memory runs out, the items stay as they were.
    pub fn commit<B: Allocator>(&mut self, effect: &Effect<B>) -> Result<(), AllocError>
        requires { CanEdit self.old effect.now.items.items }
        ensures ok { OnOk result (self.new ≡ edited self.old effect.now.items.items) }
        ensures back { OnOk result (CanEdit self.new (map turned effect.now.items.items)) }
        ensures undone { OnOk result
            (edited self.new (map turned effect.now.items.items) ≡ self.old) }
        ensures err { OnErr result (self.new ≡ self.old) }
    {
        self.make_all(&effect.items, false)?;
        Ok(())
    }

    /// Undoes the item edits of an effect. If memory runs out, the items stay as they were.
    pub fn revert<B: Allocator>(&mut self, effect: &Effect<B>) -> Result<(), AllocError>
        requires { CanEdit self.old (map turned effect.now.items.items) }
        ensures ok { OnOk result (self.new ≡ edited self.old (map turned effect.now.items.items)) }
        ensures err { OnErr result (self.new ≡ self.old) }
    {
        self.make_all(&effect.items, true)?;
        Ok(())
    }
}
